// An execution report that passed the table: its values, the four rules, and the slot of its fill; and the slot of the entry that a Trade Cancel/Correct tells of.
#![tactic(auto)]

ghost use Rattle.std.specs.Prelude.{◌≡◌, ◌%◌};
ghost use Rattle.value.specs.Value.{price_in};
ghost use Rattle.field.specs.Look.{seen_by};
ghost use Rattle.table.specs.Steps.{number_of, found};
ghost use Rattle.report.specs.Report.{
  sums_of,
  report_with,
  is_crossed,
  cum_ok,
  leaves_ok,
  tied,
  status_ok,
  unless_kept,
  rule_fault,
  reported_of,
  slot_for,
  slot_after,
};
ghost use Rattle.report.specs.Correction.{entry_for};

use answer::{Fault, reasons, tags};
use field::Look;
use fill::SLOT;
use table::number_at;

// What a report that breaks no rule says: it is set aside, or it tells of a fill.
#[derive(Clone, Copy, PartialEq, Eq)]
pub enum Reported {
    Aside,
    Fill,
}

// OrderQty, LastShares, CumQty and LeavesQty.
#[derive(Clone, Copy)]
struct Sums {
    quantity: u32,
    shares: u32,
    cum: u32,
    leaves: u32,
}

fn sums_at(look: Look) -> Sums
    ensures { result ≡ sums_of (seen_by look.entry) }
{
    Sums {
        quantity: number_at(look, tags::ORDER_QTY),
        shares: number_at(look, tags::LAST_SHARES),
        cum: number_at(look, tags::CUM_QTY),
        leaves: number_at(look, tags::LEAVES_QTY),
    }
}

// "39=4 is taken with 150=1": the fill crossed a cancel of its order.
fn has_crossed(kind: &[u8], status: &[u8]) -> bool
    ensures { result ≡ is_crossed kind.now status.now }
{
    octet::same(b"4", status) && octet::same(b"1", kind)
}

// "14 between 32's and 38's".
fn cum_ok(sums: Sums) -> bool
    ensures { result ≡ cum_ok sums }
{
    sums.shares <= sums.cum && sums.cum <= sums.quantity
}

// "151 = 38 − 14", which is 0 where 14 is above 38; where it crossed, "then 151 must be 0".
fn leaves_ok(crossed: bool, sums: Sums) -> bool
    ensures { result ≡ leaves_ok crossed sums }
{
    let open = if crossed {
        0
    } else {
        sums.quantity.saturating_sub(sums.cum)
    };
    sums.leaves == open
}

// "150 is 2 exactly when 151 is 0"; where it crossed, "the rule .. is not applied".
fn is_tied(crossed: bool, sums: Sums, kind: &[u8]) -> bool
    ensures { result ≡ tied crossed sums kind.now }
{
    crossed || octet::same(b"2", kind) == (sums.leaves == 0)
}

// "39 equals 150"; where it crossed, "39=4 is taken".
fn status_ok(crossed: bool, kind: &[u8], status: &[u8]) -> bool
    ensures { result ≡ status_ok crossed kind.now status.now }
{
    crossed || octet::same(status, kind)
}

// A rule, if it is kept: "each Reject 5 with the tag".
fn held(kept: bool, tag: u32) -> Result<(), Fault>
    ensures { found result ≡ unless_kept tag kept }
{
    if kept {
        Ok(())
    } else {
        Err(Fault::of(reasons::WRONG_VALUE, tag))
    }
}

// The four rules in their order.
#[tactic(auto, unfolding(crate::specs::Report::rule_fault))]
fn rule_fault(sums: Sums, kind: &[u8], status: &[u8]) -> Result<(), Fault>
    ensures { found result ≡ rule_fault (report_with sums kind.now status.now) }
{
    let crossed = has_crossed(kind, status);
    held(cum_ok(sums), tags::CUM_QTY)?;
    held(leaves_ok(crossed, sums), tags::LEAVES_QTY)?;
    held(is_tied(crossed, sums, kind), tags::EXEC_TYPE)?;
    held(status_ok(crossed, kind, status), tags::STATUS)
}

fn price_at(look: Look) -> u64
    ensures { result ≡ price_in ((seen_by look.entry).text 31) }
{
    value::price_of(look.value(tags::LAST_PRICE))
}

// A code as a slot has it, in one byte. In a message that passed the table the codes of a slot are digits.
fn code_at(look: Look, tag: u32) -> u8
    ensures { result ≡ number_of (seen_by look.entry) tag % 256 }
{
    (number_at(look, tag) % 256) as u8
}

// The slot of the fill that a report tells of, whose sums were read.
fn slot_by(sums: Sums, look: Look) -> [u8; SLOT]
    requires { sums ≡ sums_of (seen_by look) }
    ensures { result ≡ slot_for (seen_by look.entry) }
{
    let exec = look.value(tags::EXEC_ID);
    fill::slot_with(
        exec,
        look.value(tags::ORDER_ID),
        look.value(tags::SYMBOL),
        code_at(look, tags::SIDE),
        sums.quantity,
        sums.shares,
        price_at(look),
        sums.cum,
        look.value(tags::TIME),
    )
}

// What a report says, by a look at its body: the rules, and after them "A report with 442 is set aside". The slot of a fill is written into the lent one, and
// no other answer touches that.
pub fn reported_into(look: Look, slot: &mut [u8; SLOT]) -> Result<Reported, Fault>
    ensures { (result ≡ reported_of (seen_by look.entry)) × (slot.new ≡ slot_after (seen_by look.entry) slot.old) }
{
    let sums = sums_at(look);
    rule_fault(sums, look.value(tags::EXEC_TYPE), look.value(tags::STATUS))?;
    if look.count(tags::MULTI_LEG) != 0 {
        return Ok(Reported::Aside);
    }
    *slot = slot_by(sums, look);
    Ok(Reported::Fill)
}

// The slot of the entry that a Trade Cancel/Correct tells of, by a look at its body, into the lent one.
pub fn entry_into(look: Look, slot: &mut [u8; SLOT])
    ensures { slot.new ≡ entry_for (seen_by look.entry) }
{
    *slot = fill::entry_with(
        look.value(tags::TRADE_ID),
        number_at(look, tags::CORRECTION_NUM),
        code_at(look, tags::SIDE),
        code_at(look, tags::TRANSACTION),
        code_at(look, tags::CORRECTION_TYPE),
        look.value(tags::EXEC_ID),
        number_at(look, tags::LAST_SHARES),
        price_at(look),
        look.value(tags::TIME),
    );
}

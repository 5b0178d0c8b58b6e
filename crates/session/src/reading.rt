// What the steps read off a message, by a look at its body: once, and the steps look at nothing else.
ghost use Rattle.std.specs.Prelude.{◌≡◌, cond};
ghost use Rattle.std.proofs.Math.Option.{none, some};
ghost use Rattle.field.specs.Pieces.{is_that};
ghost use Rattle.field.specs.Look.{seen_by, first};
ghost use Rattle.table.specs.Rows.{kind_by};
ghost use Rattle.table.specs.Steps.{found};
ghost use Rattle.answer.specs.Setup.{id_of};
ghost use Rattle.answer.specs.Numbers.{fault, wrong_id};
ghost use Rattle.session.specs.Reading.{seq_given, ids_given, yes, facts_of, numbered, facts};

use super::{Findings, Session};
use answer::{Fault, Id, LAST_SEQUENCE, Setup, reasons, tags};
use field::{Look, Unsound};
use table::{Given, number_at};

// Whether the first field of a tag is a text.
fn is_first(look: Look, tag: u32, text: &[u8]) -> bool
    ensures { result ≡ is_that text.now (first (seen_by look.entry) tag) }
{
    look.count(tag) != 0 && text == look.value(tag)
}

// Whether it is Y.
fn is_yes(look: Look, tag: u32) -> bool
    ensures { result ≡ yes (first (seen_by look.entry) tag) }
{
    is_first(look, tag, b"Y")
}

// Step 1: "The first `34=` field is 1 to 999,999,998, 1 to 9 digits".
fn sequence(look: Look) -> Option<u32>
    ensures { numbered result ≡ seq_given (first (seen_by look.entry) 34) }
{
    if look.count(tags::SEQUENCE) == 0 {
        return None;
    }
    value::read_number(look.value(tags::SEQUENCE), 1, LAST_SEQUENCE).ok()
}

// "Else Reject 9 naming that tag".
fn agreed(look: Look, tag: u32, id: Id) -> Result<(), Fault>
    ensures { found result ≡ cond (is_that (id_of id) (first (seen_by look.entry) tag)) none (some (fault wrong_id tag)) }
{
    if is_first(look, tag, octet::part(&id.bytes, 0, id.len)) {
        Ok(())
    } else {
        Err(Fault::of(reasons::WRONG_ID, tag))
    }
}

// Step 2: "The first `49=` and then `56=` are the agreed IDs".
fn ids_fault(setup: Setup, look: Look) -> Result<(), Fault>
    ensures { found result ≡ ids_given setup (first (seen_by look.entry) 49) (first (seen_by look.entry) 56) }
{
    agreed(look, tags::SENDER, setup.theirs())?;
    agreed(look, tags::TARGET, setup.ours())
}

// All of it.
#[tactic(auto, unfolding(crate::specs::Reading::facts_of))]
pub fn findings_of(setup: Setup, s: Session, look: Look, scan: Result<(), Unsound>) -> Findings
    ensures { facts result ≡ facts_of setup s scan (seen_by look.entry) }
{
    let Session { phase, o, .. } = s;
    let given = Given { phase, o };
    let kind = table::kind_of(setup, look.value(tags::TYPE));
    Findings {
        kind,
        seq: sequence(look),
        ids: ids_fault(setup, look),
        fault: table::fault_in(setup, given, kind, look, scan),
        again: is_yes(look, tags::AGAIN),
        filling: is_yes(look, tags::FILLING),
        from: number_at(look, tags::FROM),
        last: number_at(look, tags::UP_TO),
        to: number_at(look, tags::TO),
    }
}

// A slot is a byte that says what it is, a fill or an entry, and its body: here the fill's, as the F note has it after E and O, and what is said of any slot.
#![tactic(auto)]

mod entries; // the entry's

ghost use Rattle.std.specs.Prelude.{◌≡◌, cond, ◌++◌, ◌+◌, ◌≤◌, length};
ghost use Rattle.octet.specs.Bytes.{bytes_of};
ghost use Rattle.octet.specs.Splice.{splice, fits_at};
ghost use Rattle.octet.specs.Padded.{text_of};
ghost use Rattle.parts.specs.Relaid.{filled};
ghost use Rattle.parts.specs.Parts.{text_field};
ghost use Rattle.text.specs.Decimal.{decimal};
ghost use Rattle.text.specs.Writing.{puts};
ghost use Rattle.fill.specs.Slot.{fill_of, width_of, full_time, body_of, slot_of, is_fill, is_entry};
ghost use Rattle.fill.specs.Slot.{exec_of, order_of, symbol_of, side_of, quantity_of, shares_of, price_of, cum_of, time_of};
ghost use Rattle.fill.specs.Slot.{text_lawful, texts_lawful, sums_lawful, fill_lawful, line_room, line_least, names_of, figures_of, fill_line};
ghost use Rattle.fill.specs.Booked.{slot_lawful, line_of};

use answer::{MOST_CONTRACTS, Setup};
pub use entries::{ENTRY_WIDTHS, entry_with, key_of};
use octet::part;
use text::Text;

// "ExecID 21, OrderID 21, symbol 9, side 1 (a number), OrderQty 4, LastShares 4, price 8, CumQty 4, time (60) 21".
pub const SLOT_WIDTHS: [u8; 9] = [21, 21, 9, 1, 4, 4, 8, 4, 21];

pub const ID: usize = 21;

const SYMBOL: usize = 9;

const TIME: usize = 21;

// Where each part stands in a slot: after the byte that says fill, one after another.
const EXEC_AT: usize = 1;

const ORDER_AT: usize = EXEC_AT + ID;

const SYMBOL_AT: usize = ORDER_AT + ID;

const SIDE_AT: usize = SYMBOL_AT + SYMBOL;

const QUANTITY_AT: usize = SIDE_AT + 1;

const SHARES_AT: usize = QUANTITY_AT + 4;

const PRICE_AT: usize = SHARES_AT + 4;

const CUM_AT: usize = PRICE_AT + 8;

const TIME_AT: usize = CUM_AT + 4;

// How many bytes a slot has.
pub const SLOT: usize = TIME_AT + TIME;

// The first byte of a slot, where it is a fill, and where it is an entry.
pub const IS_FILL: u8 = 1;

pub const IS_ENTRY: u8 = 2;

pub fn is_fill(s: &[u8]) -> bool
    ensures { result ≡ is_fill s.now }
{
    octet::byte_at(s, 0) == IS_FILL
}

pub fn is_entry(s: &[u8]) -> bool
    ensures { result ≡ is_entry s.now }
{
    octet::byte_at(s, 0) == IS_ENTRY
}

pub fn exec_of(s: &[u8]) -> &[u8]
    ensures { result.now ≡ exec_of s.now }
{
    part(s, EXEC_AT, ID)
}

pub fn order_of(s: &[u8]) -> &[u8]
    ensures { result.now ≡ order_of s.now }
{
    part(s, ORDER_AT, ID)
}

pub fn symbol_of(s: &[u8]) -> &[u8]
    ensures { result.now ≡ symbol_of s.now }
{
    part(s, SYMBOL_AT, SYMBOL)
}

// The side is a number of one byte.
pub fn side_of(s: &[u8]) -> u32
    ensures { result ≡ side_of s.now }
{
    u32::from(octet::byte_at(s, SIDE_AT))
}

fn quantity_of(s: &[u8]) -> u32
    ensures { result ≡ quantity_of s.now }
{
    octet::four_at(s, QUANTITY_AT)
}

pub fn shares_of(s: &[u8]) -> u32
    ensures { result ≡ shares_of s.now }
{
    octet::four_at(s, SHARES_AT)
}

pub fn price_of(s: &[u8]) -> u64
    ensures { result ≡ price_of s.now }
{
    octet::eight_at(s, PRICE_AT)
}

pub fn cum_of(s: &[u8]) -> u32
    ensures { result ≡ cum_of s.now }
{
    octet::four_at(s, CUM_AT)
}

fn time_of(s: &[u8]) -> &[u8]
    ensures { result.now ≡ time_of s.now }
{
    part(s, TIME_AT, TIME)
}

// Writes a text over dst from place `at` on: "a length byte and zero padding". A text that is too long is cut.
fn put_text(dst: &mut [u8], at: usize, width: usize, t: &[u8])
    requires { (at + width ≤ length dst.old) × (1 ≤ width) × (width ≤ 256) }
    ensures { dst.new ≡ splice dst.old at (text_field width t.now) }
{
    octet::put_padded(dst, at, width, part(t, 0, width - 1));
}

// "The time has no length byte; one of 17 bytes gets .000".
fn time_field(t: &[u8]) -> [u8; TIME]
    ensures { result ≡ filled (width_of 8) (full_time t.now) }
{
    let mut field = [0u8; TIME];
    octet::copy_into(&mut field, 0, part(t, 0, TIME));
    if t.len() == 17 {
        octet::copy_into(&mut field, 17, b".000");
    }
    field
}

// Writes a time over dst from place `at` on, one of 21 bytes at once.
fn put_time(dst: &mut [u8], at: usize, t: &[u8])
    requires { at + 21 ≤ length dst.old }
    ensures { dst.new ≡ splice dst.old at (filled (width_of 8) (full_time t.now)) }
{
    if t.len() == TIME {
        octet::copy_into(dst, at, t);
        return;
    }
    octet::copy_into(dst, at, &time_field(t));
}

// The slot of a fill. What a report says of it stays nine parameters: its caller has them as pieces of a message, and would fill a struct only to hand it on.
pub fn slot_with(
    exec: &[u8],
    order: &[u8],
    symbol: &[u8],
    side: u8,
    quantity: u32,
    shares: u32,
    price: u64,
    cum: u32,
    time: &[u8],
) -> [u8; SLOT]
    ensures { result ≡ slot_of (body_of (fill_of exec.now order.now symbol.now side quantity shares price cum time.now)) }
{
    let mut slot = [0u8; SLOT];
    slot[0] = IS_FILL;
    put_text(&mut slot, EXEC_AT, ID, exec);
    put_text(&mut slot, ORDER_AT, ID, order);
    put_text(&mut slot, SYMBOL_AT, SYMBOL, symbol);
    slot[SIDE_AT] = side;
    octet::put_four(&mut slot, QUANTITY_AT, quantity);
    octet::put_four(&mut slot, SHARES_AT, shares);
    octet::put_eight(&mut slot, PRICE_AT, price);
    octet::put_four(&mut slot, CUM_AT, cum);
    put_time(&mut slot, TIME_AT, time);
    slot
}

// "A price is 1 to 7 digits, or those, a point and 1 to 4 digits", "kept in ten-thousandths".
const MOST_PRICE: u64 = 99999999999;

// "all three of bytes 33 to 126".
fn is_text(f: &[u8]) -> bool
    ensures { result ≡ text_lawful f.now }
{
    octet::padded_ok(f, 1, 33, 126)
}

fn texts_lawful(s: &[u8]) -> bool
    ensures { result ≡ texts_lawful s.now }
{
    is_text(exec_of(s)) && is_text(order_of(s)) && is_text(symbol_of(s))
}

// LastShares, CumQty and OrderQty, each at least the one before.
fn sums_lawful(s: &[u8]) -> bool
    ensures { result ≡ sums_lawful s.now }
{
    let shares = shares_of(s);
    let cum = cum_of(s);
    let quantity = quantity_of(s);
    1 <= shares && shares <= cum && cum <= quantity && quantity <= MOST_CONTRACTS
}

// Whether a fill's body is so formed, with values that a report can have.
#[tactic(auto, unfolding(crate::specs::Slot::fill_lawful))]
fn is_lawful_fill(s: &[u8]) -> bool
    ensures { result ≡ fill_lawful s.now }
{
    texts_lawful(s)
        && matches!(side_of(s), 1 | 2)
        && sums_lawful(s)
        && price_of(s) <= MOST_PRICE
        && value::is_time(time_of(s))
}

// Whether a slot is lawful: a fill, or an entry.
#[tactic(auto, unfolding(crate::specs::Booked::slot_lawful))]
pub fn is_lawful(s: &[u8]) -> bool
    ensures { result ≡ slot_lawful s.now }
{
    if is_entry(s) {
        entries::is_lawful_entry(s)
    } else {
        is_lawful_fill(s)
    }
}

// A space and the text of a field more.
fn text_word(t: &mut Text, f: &[u8])
    ensures { t.new ≡ puts t.old (bytes_of " " ++ text_of f.now) }
{
    t.put(b' ');
    t.all(octet::text_of(f));
}

// A space and a number more.
fn number_word(t: &mut Text, n: u64)
    ensures { t.new ≡ puts t.old (bytes_of " " ++ decimal n) }
{
    t.put(b' ');
    t.decimal(n);
}

// "number, ExecID, OrderID, symbol" more.
fn names(t: &mut Text, n: u32, s: &[u8])
    ensures { t.new ≡ puts t.old (names_of n s.now) }
{
    t.decimal(u64::from(n));
    text_word(t, exec_of(s));
    text_word(t, order_of(s));
    text_word(t, symbol_of(s));
}

// "side, LastShares, price with four decimals" more, each with a space before it.
fn figures(t: &mut Text, s: &[u8])
    ensures { t.new ≡ puts t.old (bytes_of " " ++ figures_of s.now) }
{
    number_word(t, u64::from(side_of(s)));
    number_word(t, u64::from(shares_of(s)));
    t.put(b' ');
    t.price(price_of(s));
}

// The line of fill n more, with its line feed.
fn fill_text(t: &mut Text, n: u32, s: &[u8])
    ensures { t.new ≡ puts t.old (fill_line n s.now) }
{
    names(t, n, s);
    figures(t, s);
    t.put(b' ');
    t.all(time_of(s));
    t.put(b'\n');
}

// The line of slot n more: a fill's, or an entry's.
fn line_text(t: &mut Text, n: u32, s: &[u8])
    ensures { t.new ≡ puts t.old (line_of n s.now) }
{
    if is_entry(s) {
        entries::entry_text(t, n, s);
    } else {
        fill_text(t, n, s);
    }
}

// No line is longer: "line buffer under 128 bytes".
pub const LINE: usize = 128;

// What a line buffer has at least, by the set-up.
pub fn line_least(setup: Setup) -> usize
    ensures { result ≡ line_least setup }
{
    LINE
}

// Writes the line of slot n from the front of `line`, and says how long it is; where it does not fit nothing changes, and
// the answer is 0, as many bytes as are written then. It has at most LINE bytes.
pub fn write_line(n: u32, s: &[u8], line: &mut [u8]) -> usize
    ensures line_after { line.new ≡ splice line.old 0 (line_of n s.now) }
    ensures value { result ≡ cond (fits_at line.old 0 (line_of n s.now)) (length (line_of n s.now)) 0 }
    ensures line_bound { length (line_of n s.now) ≤ line_room }
{
    let mut t = Text::new();
    line_text(&mut t, n, s);
    t.place(line, 0)
}

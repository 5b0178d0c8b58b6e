// The day's slots and order rows, in memory that the caller lends whole, with their counts by value: what becomes of a fill or an
// entry among them, and one slot more.
#![tactic(auto)]

mod entries; // an entry among the day's
mod rows; // the order rows: an order found, and its sums brought up to date
mod search; // the day's slots gone over for one of them

ghost use Rattle.std.specs.Prelude.{◌≡◌, ◌+◌, ◌-◌, ◌*◌, ◌≤◌, ◌<◌, min, length, false};
ghost use Rattle.octet.specs.Bytes.{same};
ghost use Rattle.octet.specs.Maybe.{find, find_last};
ghost use Rattle.answer.specs.Numbers.{fault, wrong_value, largest};
ghost use Rattle.std.proofs.Math.Option.{none};
ghost use Rattle.fill.specs.Slot.{slot_width, is_entry, shares_of, cum_of};
ghost use Rattle.book.specs.Place.{same_contents, same_exec, same_order, by_order, by_exec, fills_with, carried, steps};
ghost use Rattle.book.specs.Memory.{most_slots, slots_here, book_width, cells, cell_at, slots_in, slot_at, fits_after, appended, rows_in, holding, entered};
ghost use Rattle.book.specs.declared.Placed.TheVariants.{Clash};
ghost use Rattle.book.specs.Admitting.{admit_of};
ghost use Rattle.book.specs.Rows.{row_place};
ghost use Rattle.book.specs.Seeing.{some_slot, found_at, is_exec, room_for, orders_for, Sees, SeesIn};

use answer::{Fault, reasons, tags};
use entries::admit_entry;
use fill::{ID, SLOT};
use rows::{booked_in, find_row, more_in_row};
pub use rows::{day_with, head_of, row_in, take_off, waits_in};
use search::{Slots, Sought};

// A slot among the day's: at odds with one of them, already booked, or new. Stays an enum: it is the definitions' (`place_fill`
// says all three), and `by_order` is stated over it.
#[derive(Clone, Copy)]
pub enum Placed {
    Clash(Fault),
    Already,
    New,
}

// How many fills there are, of how many orders, and how many entries.
#[derive(Clone, Copy)]
pub struct Load {
    pub fills: u32,
    pub orders: u32,
    pub entries: u32,
}

// Nothing booked.
pub const NO_LOAD: Load = Load {
    fills: 0,
    orders: 0,
    entries: 0,
};

// What a booking changes and answers: the load then, the place of the order's row, and whether a fill is in step. Of an entry row and step are of no
// account: two structs would be told apart where they are used, by what the slot's first byte says already.
#[derive(Clone, Copy)]
pub struct Booking {
    pub load: Load,
    pub row: usize,
    pub stepped: bool,
}

// What becomes of a slot among the day's: at odds with one of them, already booked, no room, or new, with what its booking
// changes and answers. Stays an enum: only no room is a refusal.
#[derive(Clone, Copy)]
pub enum Admitted {
    Clash(Fault),
    Already,
    Full,
    New(Booking),
}

// What the slots say of a fill: the place of the newest with its ExecID; and, where there is none, whether its order has a fill among them.
// Stays a place and a bool: the search behind the first fill of the order hands its answer on as the place.
#[derive(Clone, Copy)]
struct Seen {
    exec: Option<usize>,
    known: bool,
}

// The lent memory is regions, one after another: slots for all fills and all entries of a day, and a row for each of its orders.
// Each is read and written through the functions below and in rows.
pub const SLOTS: usize = 768;

const SLOTS_AT: usize = 0;

const SLOTS_SIZE: usize = SLOTS * SLOT;

// Of a row: the number of its first fill, the contracts booked, and those that wait, four bytes each.
const ROW: usize = 12;

pub const ROWS: usize = 128;

const ROWS_AT: usize = SLOTS_SIZE;

const ROWS_SIZE: usize = ROWS * ROW;

pub const BOOK: usize = SLOTS_SIZE + ROWS_SIZE;

// "512 fills, 128 orders"; "also at 256 such entries".
const FILLS: u32 = 512;

pub const ORDERS: u32 = ROWS as u32;

const ENTRIES: u32 = 256;

// The bytes of the lent memory. How long an array behind a reference is, a proof is told by such a part of it: what is to know it asks here.
pub fn book_len(book: &[u8; BOOK]) -> usize
    ensures value { result ≡ length book.now }
    ensures book_len { length book.now ≡ book_width }
{
    let all = &book[..];
    all.len()
}

// The place of the last of them that is a fill with that ExecID.
fn find_exec(slots: &Slots, exec: &Sought) -> Option<usize>
    ensures { found_at slots.now.all.now result ≡ find_last (is_exec exec.now.id.now) (cells slot_width slots.now.count slots.now.all.now) }
{
    slots.last(|s| exec.is(fill::exec_of(s)) && fill::is_fill(s))
}

// What they say of a fill, from the last to the first. The newest is looked at first, since it is the one that is sent again; behind the first fill of
// its order only the ExecID is looked for.
fn walk(slots: &Slots, slot: &[u8]) -> Seen
    ensures { Sees slots.now.all.now slot.now (cells slot_width slots.now.count slots.now.all.now) result }
{
    let exec = Sought::new(fill::exec_of(slot));
    let order = Sought::new(fill::order_of(slot));
    let newest = slots.last(|s| {
        (exec.is(fill::exec_of(s)) || order.is(fill::order_of(s))) && fill::is_fill(s)
    });
    let Some(i) = newest else {
        return Seen {
            exec: None,
            known: false,
        };
    };
    let s = slots.at(i);
    if exec.is(fill::exec_of(s)) {
        return Seen {
            exec: Some(i),
            known: true,
        };
    }
    Seen {
        exec: find_exec(&slots.front(i), &exec),
        known: true,
    }
}

// The same of all that are counted.
fn look(book: &[u8; BOOK], count: usize, slot: &[u8]) -> Seen
    ensures { SeesIn book.now slot.now (slots_in count book.now) result }
{
    walk(&Slots::of(book, count), slot)
}

// "same OrderID, symbol, side, LastShares and price".
#[tactic(auto, unfolding(crate::specs::Place::same_contents))]
fn same_contents(a: &[u8], b: &[u8]) -> bool
    ensures { result ≡ same_contents a.now b.now }
{
    octet::same(fill::order_of(a), fill::order_of(b))
        && octet::same(fill::symbol_of(a), fill::symbol_of(b))
        && fill::side_of(a) == fill::side_of(b)
        && fill::shares_of(a) == fill::shares_of(b)
        && fill::price_of(a) == fill::price_of(b)
}

// "Reject 5 with the tag".
fn clash(tag: u32) -> Placed
    ensures { result ≡ Clash (fault wrong_value tag) }
{
    Placed::Clash(Fault::of(reasons::WRONG_VALUE, tag))
}

// "OrderID known with another symbol: tag 55; another side: tag 54". known has no bytes where the order is not known:
// so `slot_at` and `head_of` promise it past the end, and an Option would say it twice.
fn by_order(slot: &[u8], known: &[u8]) -> Placed
    ensures { result ≡ by_order slot.now (some_slot known.now) }
{
    if known.is_empty() {
        Placed::New
    } else if !octet::same(fill::symbol_of(slot), fill::symbol_of(known)) {
        clash(tags::SYMBOL)
    } else if fill::side_of(slot) != fill::side_of(known) {
        clash(tags::SIDE)
    } else {
        Placed::New
    }
}

// "Then room: 512 fills, 128 orders", with a slot for one more after the last.
fn has_room(last: usize, load: Load, known: &[u8]) -> bool
    ensures { result ≡ room_for last load known.now }
{
    last < SLOTS && load.fills < FILLS && (load.orders < ORDERS || !known.is_empty())
}

// How many fills there are with one more slot.
fn fills_with(fills: u32, slot: &[u8]) -> u32
    ensures { result ≡ min (fills_with fills slot.now) largest }
{
    if fill::is_fill(slot) {
        answer::count_on(fills, 1)
    } else {
        fills
    }
}

// How many orders there are with one more fill, of which known is the first of its order.
fn orders_with(orders: u32, known: &[u8]) -> u32
    ensures { result ≡ orders_for orders known.now }
{
    if known.is_empty() {
        answer::count_on(orders, 1)
    } else {
        orders
    }
}

// "CumQty less LastShares"; 0 where that is the greater.
fn carried_of(s: &[u8]) -> u32
    ensures { result ≡ cum_of s.now - shares_of s.now }
{
    fill::cum_of(s).saturating_sub(fill::shares_of(s))
}

// "carried-in (first report's CumQty less LastShares)": the first report is known, or slot where none is.
fn carried_in(slot: &[u8], known: &[u8]) -> u32
    ensures { result ≡ carried slot.now (some_slot known.now) }
{
    carried_of(if known.is_empty() { slot } else { known })
}

// "when CumQty is carried-in plus booked sum, this fill included".
fn in_step(slot: &[u8], known: &[u8], booked: u32) -> bool
    ensures { result ≡ steps (some_slot known.now) booked slot.now }
{
    let carried = u64::from(carried_in(slot, known));
    let sum = u64::from(booked) + u64::from(fill::shares_of(slot));
    u64::from(fill::cum_of(slot)) == carried + sum
}

// The place of the row of the order of slot, among so many. An order that has no fill has no row.
// Book, count, load and slot stay parameters, as the public `admit` has them.
fn place_row(book: &[u8; BOOK], last: usize, orders: usize, slot: &[u8], known: bool) -> usize
    requires { known ≡ false → find (same_order slot.now) (slots_in last book.now) ≡ none }
    ensures { result ≡ row_place (slots_in last book.now) (rows_in orders book.now) slot.now }
{
    if known {
        find_row(book, last, orders, slot)
    } else {
        orders
    }
}

// What becomes of a fill whose ExecID is new: its order is found by its row.
fn admit_new(book: &[u8; BOOK], last: usize, load: Load, slot: &[u8], known: bool) -> Admitted
    requires { (is_entry slot.now ≡ false) × (find_last (same_exec slot.now) (slots_in last book.now) ≡ none)
        × (known ≡ false → find (same_order slot.now) (slots_in last book.now) ≡ none) }
    ensures { result ≡ admit_of (slots_in last book.now) (rows_in load.orders book.now) load slot.now }
{
    let place = place_row(book, last, load.orders as usize, slot, known);
    let row = row_in(book, load.orders as usize, place);
    let first = head_of(book, last, row);
    match by_order(slot, first) {
        Placed::Clash(f) => Admitted::Clash(f),
        Placed::Already => Admitted::Already,
        Placed::New => {
            if !has_room(last, load, first) {
                return Admitted::Full;
            }
            Admitted::New(Booking {
                load: Load {
                    fills: fills_with(load.fills, slot),
                    orders: orders_with(load.orders, first),
                    ..load
                },
                row: place,
                stepped: in_step(slot, first, booked_in(row)),
            })
        }
    }
}

// What becomes of a fill among the day's: a report that is sent again is told by its ExecID alone.
fn admit_fill(book: &[u8; BOOK], last: usize, load: Load, slot: &[u8]) -> Admitted
    requires { is_entry slot.now ≡ false }
    ensures { result ≡ admit_of (slots_in last book.now) (rows_in load.orders book.now) load slot.now }
{
    let seen = look(book, last, slot);
    match seen.exec {
        None => admit_new(book, last, load, slot, seen.known),
        Some(i) if same_contents(slot, slot_at(book, i)) => Admitted::Already,
        Some(_) => Admitted::Clash(Fault::of(reasons::WRONG_VALUE, tags::EXEC_ID)),
    }
}

// What becomes of a slot among the day's. last is the last number given, as many slots there are.
pub fn admit(book: &[u8; BOOK], last: usize, load: Load, slot: &[u8]) -> Admitted
    ensures { result ≡ admit_of (slots_in last book.now) (rows_in load.orders book.now) load slot.now }
{
    if fill::is_entry(slot) {
        admit_entry(book, last, load, slot)
    } else {
        admit_fill(book, last, load, slot)
    }
}

// Where the i-th slot stands.
fn place_of(i: usize) -> usize
    requires { i < most_slots }
    ensures { result ≡ i * slot_width }
{
    SLOTS_AT + i * SLOT
}

// The i-th slot of the memory, from 0; no bytes past its end. Beside the rows' row_at: one function for both would take three numbers for three lines.
pub fn slot_at(book: &[u8; BOOK], i: usize) -> &[u8]
    ensures { result.now ≡ slot_at i book.now }
{
    if SLOTS <= i {
        return octet::part(book, BOOK, 0);
    }
    octet::part(book, place_of(i), SLOT)
}

// Writes a slot after the last of count. Where there is no room, or it is no slot, nothing changes, and the answer is false.
fn append(book: &mut [u8; BOOK], count: usize, slot: &[u8]) -> bool
    ensures { (result ≡ fits_after count slot.now) × (book.new ≡ appended book.old count slot.now) }
{
    if SLOTS <= count || slot.len() != SLOT {
        return false;
    }
    octet::copy_into(book, place_of(count), slot)
}

// Writes a slot after the last of count and, of a fill, its contracts into the row at that place: one of so many orders' rows, or one more
// behind the last.
pub fn enter(book: &mut [u8; BOOK], count: usize, orders: usize, row: usize, slot: &[u8])
    ensures { book.new ≡ entered book.old count orders row slot.now }
{
    if append(book, count, slot) && fill::is_fill(slot) {
        more_in_row(book, count, orders, row, slot);
    }
}

// Puts the first count slots and the first orders' rows of another memory into this one; past them it stays. A lent memory has BOOK bytes.
pub fn put_day(book: &mut [u8; BOOK], count: usize, orders: usize, from: &[u8; BOOK])
    ensures book_after { book.new ≡ holding book.old (slots_in count from.now) (rows_in orders from.now) }
    ensures book_len { length book.old ≡ book_width }
{
    octet::copy_into(
        book,
        SLOTS_AT,
        octet::part(from, SLOTS_AT, count.min(SLOTS) * SLOT),
    );
    octet::copy_into(
        book,
        ROWS_AT,
        octet::part(from, ROWS_AT, orders.min(ROWS) * ROW),
    );
}

// The order rows of the lent memory: an order is found by them, and their sums are brought up to date by what is booked and what is
// acknowledged. A row has the number of its order's first fill, the contracts booked, and those of them that wait.
ghost use Rattle.std.specs.Prelude.{◌≡◌, ◌-◌, ◌<◌, ◌*◌, ◌+◌, min, get_or, []};
ghost use Rattle.book.specs.Place.{most_orders};
ghost use Rattle.book.specs.Rows.{row_width, first_in, booked_in, waits_in, row_of, head_of, row_place, day_with};
ghost use Rattle.book.specs.Memory.{most_slots, rows_here, slots_in, slot_at, rows_in, row_at, row_put, row_more, row_fewer, TakesOff};
ghost use Rattle.book.specs.Seeing.{is_order, TakesOne};

use super::search::same_id;
use super::{BOOK, ROW, ROWS, ROWS_AT, SLOTS, Sought, book_len, slot_at};

// A row begins with the first of its three numbers, and has the others here.
const BOOKED_AT: usize = 4;

const WAITS_AT: usize = 8;

// The number of the first fill of a row's order.
fn first_in(row: &[u8]) -> u32
    ensures { result ≡ first_in row.now }
{
    octet::four_at(row, 0)
}

// The contracts booked of it.
pub(crate) fn booked_in(row: &[u8]) -> u32
    ensures { result ≡ booked_in row.now }
{
    octet::four_at(row, BOOKED_AT)
}

// The contracts of a row's order that wait.
pub fn waits_in(row: &[u8]) -> u32
    ensures { result ≡ waits_in row.now }
{
    octet::four_at(row, WAITS_AT)
}

// Where the i-th row stands.
fn row_place(i: usize) -> usize
    requires { i < most_orders }
    ensures { result ≡ rows_here.at + i * row_width }
{
    ROWS_AT + i * ROW
}

// The i-th row of the memory, from 0; no bytes past its end. A row by its place is data; beside slot_at, see there.
fn row_at(book: &[u8; BOOK], i: usize) -> &[u8]
    ensures { result.now ≡ row_at i book.now }
{
    if ROWS <= i {
        return octet::part(book, BOOK, 0);
    }
    octet::part(book, row_place(i), ROW)
}

// The i-th of so many orders' rows; no bytes where there is none.
pub fn row_in(book: &[u8; BOOK], orders: usize, i: usize) -> &[u8]
    ensures { result.now ≡ get_or (rows_in orders book.now) i [] }
{
    if orders <= i {
        return octet::part(book, BOOK, 0);
    }
    row_at(book, i)
}

// The first fill of a row's order; no bytes where there is none of that number.
pub fn head_of<'a>(book: &'a [u8; BOOK], last: usize, row: &[u8]) -> &'a [u8]
    ensures { result.now ≡ head_of (slots_in last book.now) row.now }
{
    let n = first_in(row) as usize;
    if n == 0 || last < n {
        return octet::part(book, BOOK, 0);
    }
    slot_at(book, n - 1)
}

// Whether a row is that of an order that is looked for. Each way out is of its own, and a row without a first fill leaves before there is a slot to look
// at: nearly every row that a search passes ends here, or at the glance.
#[inline(always)]
fn is_row(book: &[u8; BOOK], last: usize, row: &[u8], order: &Sought) -> bool
    ensures { result ≡ is_order order.now.id.now (head_of (slots_in last book.now) row.now) }
{
    let n = first_in(row) as usize;
    if n == 0 {
        return false;
    }
    if last < n {
        return false;
    }
    let first = slot_at(book, n - 1);
    let id = fill::order_of(first);
    if !order.may_be(id) {
        return false;
    }
    same_id(order.id, id) && fill::is_fill(first)
}

// The place of the row of the order of slot, among so many; behind the last where there is none: it is
// used as a place, that of the row to be written, and not only as none.
pub(crate) fn find_row(book: &[u8; BOOK], last: usize, orders: usize, slot: &[u8]) -> usize
    ensures { result ≡ row_place (slots_in last book.now) (rows_in orders book.now) slot.now }
{
    book_len(book);
    let order = Sought::new(fill::order_of(slot));
    // so many slots lie in the memory: of these the search knows the width
    let most = last.min(SLOTS);
    for i in 0..orders.min(ROWS) {
        if is_row(book, most, row_at(book, i), &order) {
            return i;
        }
    }
    orders
}

// Writes the i-th row: three numbers, read and written in the three functions below and no further, so that a struct of them would be laid out for nothing.
fn put_row(book: &mut [u8; BOOK], i: usize, first: u32, booked: u32, waits: u32)
    ensures { book.new ≡ row_put book.old i (row_of first booked waits) }
{
    if i < ROWS {
        let at = row_place(i);
        octet::put_four(book, at, first);
        octet::put_four(book, at + BOOKED_AT, booked);
        octet::put_four(book, at + WAITS_AT, waits);
    }
}

// The contracts of a fill more, the slot after the last of count, in the row at that place.
pub(crate) fn more_in_row(
    book: &mut [u8; BOOK],
    count: usize,
    orders: usize,
    row: usize,
    slot: &[u8],
)
    requires { count < most_slots }
    ensures { book.new ≡ row_more book.old count orders row slot.now }
{
    let q = fill::shares_of(slot);
    if row < orders {
        let first = first_in(row_at(book, row));
        let booked = booked_in(row_at(book, row));
        let waits = waits_in(row_at(book, row));
        put_row(
            book,
            row,
            first,
            answer::count_on(booked, q),
            answer::count_on(waits, q),
        );
    } else {
        put_row(book, row, (count + 1) as u32, q, q);
    }
}

// The day's sum with a slot more: an entry has no contracts.
pub fn day_with(day: u32, slot: &[u8]) -> u32
    ensures { result ≡ day_with day slot.now }
{
    if fill::is_fill(slot) {
        answer::count_on(day, fill::shares_of(slot))
    } else {
        day
    }
}

// What is left of n with k taken off; it stops at 0.
fn less(n: u32, k: u32) -> u32
    ensures { result ≡ n - k }
{
    n.saturating_sub(k)
}

// The row at that place, one of so many, with contracts taken off those that wait.
fn less_in_row(book: &mut [u8; BOOK], orders: usize, row: usize, q: u32)
    ensures { book.new ≡ row_fewer book.old orders row q }
{
    if row < orders {
        let first = first_in(row_at(book, row));
        let booked = booked_in(row_at(book, row));
        let waits = waits_in(row_at(book, row));
        put_row(book, row, first, booked, less(waits, q));
    }
}

// The i-th slot is acknowledged: a fill's contracts go off its order's row and off the day's sum.
fn take_one(book: &mut [u8; BOOK], last: usize, orders: usize, i: usize, day: u32) -> u32
    ensures { TakesOne book.old last orders (slot_at i book.old) day result book.new }
{
    book_len(book);
    if !fill::is_fill(slot_at(book, i)) {
        return day;
    }
    let q = fill::shares_of(slot_at(book, i));
    let row = find_row(book, last, orders, slot_at(book, i));
    less_in_row(book, orders, row, q);
    less(day, q)
}

// The slots after number from, up to number to, are acknowledged: what is left of the day's sum, and in the rows.
pub fn take_off(
    book: &mut [u8; BOOK],
    last: usize,
    orders: usize,
    from: usize,
    to: usize,
    day: u32,
) -> u32
    ensures { TakesOff book.old last orders from to day result book.new }
{
    book_len(book);
    let mut left = day;
    for i in from..to.min(last).min(SLOTS) {
        left = take_one(book, last, orders, i, left);
    }
    left
}

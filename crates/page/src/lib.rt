// The totals page: the contracts waiting, one row an order, in a slice of rows that the caller lends. They are kept in the book's order
// rows and in the marks: the page reads them, and adds nothing up.
#![tactic(auto)]

ghost use Rattle.std.specs.Prelude.{◌≡◌, ◌≤◌};
ghost use Rattle.book.specs.Place.{most_orders};
ghost use Rattle.page.specs.Page.{row_of, shown_of, told_of, due_of, Pages};

use answer::Refusal;
use book::{BOOK, ORDERS};
use queue::Marks;

// The OrderID, "a length byte and zero padding", and the contracts of the order that wait.
#[repr(C)]
#[derive(Clone, Copy)]
pub struct OrderRow {
    pub id: [u8; 31],
    pub waiting: u32,
}

// How many orders there are, and the day's sum.
#[derive(Clone, Copy)]
pub struct Shown {
    pub orders: u32,
    pub day: u32,
}

// As many rows are lent at least, of however few orders.
pub const ROWS: usize = book::ROWS;

// How many orders a page shows.
fn shown_of(marks: Marks) -> u32
    ensures { (result ≡ shown_of marks) × (result ≤ most_orders) }
{
    marks.load.orders.min(ORDERS)
}

// What a page answers, by how many rows are lent.
pub fn told(marks: Marks, lent: usize) -> Result<Shown, Refusal>
    ensures { result ≡ told_of marks lent }
{
    if lent < ROWS {
        return Err(Refusal::ShortBuffer);
    }
    Ok(Shown {
        orders: shown_of(marks),
        day: marks.day,
    })
}

// How many rows are to be written: none where the page is refused, and never more than are lent.
fn due(marks: Marks, lent: usize) -> usize
    ensures { (result ≡ due_of marks lent) × (result ≤ lent) }
{
    match told(marks, lent) {
        Ok(shown) => shown.orders as usize,
        Err(_) => 0,
    }
}

// The row of order i, from 0: its OrderID stands in its first fill.
pub fn row_of(marks: Marks, book: &[u8; BOOK], i: usize) -> OrderRow
    ensures { result ≡ row_of marks book.now i }
{
    let row = book::row_in(book, marks.load.orders as usize, i);
    let head = book::head_of(book, marks.last as usize, row);
    let mut id = [0u8; 31];
    octet::copy_into(&mut id, 0, fill::order_of(head));
    OrderRow {
        id,
        waiting: book::waits_in(row),
    }
}

// Writes the page over the front of the rows. What is behind the last order stays, and all of it where it is refused.
pub fn page(marks: Marks, book: &[u8; BOOK], rows: &mut [OrderRow]) -> Result<Shown, Refusal>
    ensures { Pages marks book.now rows.old result rows.new }
{
    let answer = told(marks, rows.len());
    let n = due(marks, rows.len());
    for (i, row) in rows[..n].iter_mut().enumerate() {
        *row = row_of(marks, book, i);
    }
    answer
}

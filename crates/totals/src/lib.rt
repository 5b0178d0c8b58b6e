// The totals by a file of notes, as a text: a line for each order with what waits of it, and the day's sum under them.
#![tactic(auto)]

ghost use Rattle.std.specs.Prelude.{◌≡◌, ◌*◌, ◌≤◌, length};
ghost use Rattle.book.specs.Place.{most_orders};
ghost use Rattle.text.specs.Writing.{empty, puts};
ghost use Rattle.page.specs.Page.{page_of};
ghost use Rattle.listing.specs.Listing.{book_listed};
ghost use Rattle.totals.specs.Totals.{row_line, row_lines, day_line, totals_in, marks_from, totals_of, most_row_line, most_day_line, most_totals, Stands, Totals};

use book::BOOK;
use page::{OrderRow, ROWS};
use queue::Marks;
use restart::Counts;
use text::Text;

// So many bytes are always enough: a line of 42 bytes for each of 128 orders, and 15.
pub const TOTALS: usize = 5391;

// The marks after a restart: "offered equals acknowledged".
fn marks_from(m: Counts) -> Marks
    ensures { result ≡ marks_from m }
{
    Marks::again(m.last, restart::load_in(m), m.acked, m.day)
}

// The line of an order.
#[tactic(auto, using(text::proofs::Puts::putting), unfolding(crate::specs::Totals::row_line))]
fn row_text(row: OrderRow) -> Text
    ensures text { result ≡ puts empty (row_line row) }
    ensures most { length (row_line row) ≤ most_row_line }
{
    let mut t = Text::new();
    t.all(octet::text_of(&row.id));
    t.put(b' ');
    t.decimal(u64::from(row.waiting));
    t.put(b'\n');
    t
}

// The last line.
#[tactic(auto, using(text::proofs::Puts::putting), unfolding(crate::specs::Totals::day_line))]
fn day_text(day: u32) -> Text
    ensures text { result ≡ puts empty (day_line day) }
    ensures most { length (day_line day) ≤ most_day_line }
{
    let mut t = Text::new();
    t.all(b"day ");
    t.decimal(u64::from(day));
    t.put(b'\n');
    t
}

// Writes the lines of the first n orders, and says where they end. The page is a slice of which the length is asked, here and in the next two: that of an
// array behind a reference a proof is not told.
fn put_rows(page: &mut [u8], marks: Marks, book: &[u8; BOOK], n: usize) -> usize
    requires { (n ≤ most_orders) × (length page.old ≡ most_totals) }
    ensures { Stands (row_lines (page_of marks book.now n)) page.old result page.new × (result ≤ most_row_line * n) }
{
    let mut end = 0;
    for i in 0..n {
        end = row_text(page::row_of(marks, book, i)).place(page, end);
    }
    end
}

// Writes the totals of a day, and says how long they are.
fn print_totals(marks: Marks, book: &[u8; BOOK], page: &mut [u8]) -> usize
    requires { length page.old ≡ most_totals }
    ensures { Stands (totals_in marks book.now) page.old result page.new × (result ≤ most_totals) }
{
    let Ok(shown) = page::told(marks, ROWS) else {
        return 0;
    };
    let end = put_rows(page, marks, book, shown.orders as usize);
    day_text(shown.day).place(page, end)
}

// Writes the text over a page that has room for any, and says how long it is.
fn print(notes: &[u8], book: &mut [u8; BOOK], page: &mut [u8]) -> usize
    requires { length page.old ≡ most_totals }
    ensures { Stands (totals_of book.old notes.now) page.old result page.new
        × (result ≤ most_totals) × (book.new ≡ book_listed book.old notes.now) }
{
    // asked here too, so that what has no day below is damaged: the wrong edit `end_for_place` is of that alone
    if listing::PAGE < notes.len() {
        return listing::put_front(page, b"too long\n");
    }
    match listing::day_of(notes, book, page) {
        Ok(m) => print_totals(marks_from(m), book, page),
        Err(len) => len,
    }
}

// Writes the totals by the notes from the front of out, and says how long they are; where they do not fit nothing is written, and
// the answer is 0. TOTALS bytes are always enough. The lent book is then that of the restart.
pub fn write_totals(notes: &[u8], book: &mut [u8; BOOK], out: &mut [u8]) -> usize
    ensures { Totals notes.now book.old out.old result book.new out.new }
{
    let mut page = [0u8; TOTALS];
    let n = print(notes, book, &mut page);
    listing::put_front(out, &page[..n])
}

// The totals page: rows of our own are lent, and what came back is shown.
ghost use Rattle.std.specs.Prelude.{◌≡◌, ◌≤◌, take, drop};
ghost use Rattle.page.specs.Page.{Pages};

use super::World;
use super::transcript::{Entry, Written};
use answer::Refusal;
use book::BOOK;
use page::{OrderRow, Shown};
use queue::Marks;
use receiver::Answer;
use std::io;

// The most rows that are lent.
pub(crate) const ROWS: usize = 4096;

const ID: usize = 31;

// A row that no page has written: every byte of it is 238.
const FILLED: OrderRow = OrderRow {
    id: [238; ID],
    waiting: 0xEEEE_EEEE,
};

// The page, lent the first n of these rows.
fn page_call(
    marks: Marks,
    book: &[u8; BOOK],
    rows: &mut [OrderRow; ROWS],
    n: usize,
) -> Result<Shown, Refusal>
    requires { n ≤ 4096 }
    ensures { (Pages marks book.now (take n rows.old) result (take n rows.new)) × (drop n rows.new ≡ drop n rows.old) }
{
    page::page(marks, book, &mut rows[..n])
}

// By hand: the row that C is lent derives no equality.
fn is_filled(row: &OrderRow) -> bool {
    row.id == FILLED.id && row.waiting == FILLED.waiting
}

// "A length byte and zero padding": whether the bytes after the text are zero.
fn is_padded(row: &OrderRow) -> bool {
    let len = usize::from(row.id[0]);
    row.id.iter().skip(1 + len).all(|b| *b == 0)
}

// ---- what is written of a page

// Rows, which are shown by the OrderID in the code and what waits, each after a space; `-` for none.
fn put_rows(entry: &mut Entry, rows: &[OrderRow]) -> io::Result<()> {
    if rows.is_empty() {
        return entry.put(" -");
    }
    for row in rows {
        entry.put_bytes(b" ", octet::text_of(&row.id))?;
        let waiting = row.waiting; // as the text below names it
        entry.put(format_args!("={waiting}"))?;
    }
    Ok(())
}

impl World<'_> {
    // Asks for the page with n rows lent. It changes neither the state nor the journal.
    pub(crate) fn ask_page(&self, rt: &impl Print, n: usize) -> io::Result<()> {
        let mut rows = [FILLED; ROWS];
        let mut entry = Entry::new();
        let count = match page_call(self.state.marks, &self.book, &mut rows, n.min(ROWS)) {
            Ok(Shown { orders, day }) => {
                entry.put(format_args!("page {orders} {day}"))?;
                orders as usize
            }
            Err(why) => {
                entry.put_answer(Some(Answer::Refused(why)))?;
                0
            }
        };
        let (written, left) = rows.split_at(count.min(ROWS));
        let kept = written.iter().all(is_padded) && left.iter().all(is_filled);
        entry.put_call(self, Written::NOTHING)?;
        entry.put(" ; rows")?;
        put_rows(&mut entry, written)?;
        entry.end(rt, !kept)
    }
}

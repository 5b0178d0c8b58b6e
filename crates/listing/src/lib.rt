// The listing of a file of notes: the fills that wait with their contracts, and the entries.
#![tactic(auto)]

ghost use Rattle.std.specs.Prelude.{◌≡◌, cond, ◌+◌, ◌*◌, ◌≤◌, length, drop};
ghost use Rattle.octet.specs.Splice.{splice};
ghost use Rattle.answer.specs.Numbers.{largest};
ghost use Rattle.fill.specs.Slot.{is_fill, shares_of};
ghost use Rattle.fill.specs.Booked.{line_of};
ghost use Rattle.book.specs.Memory.{most_slots, slots_in};
ghost use Rattle.book.specs.Orders.{fills_of};
ghost use Rattle.text.specs.Writing.{empty, puts};
ghost use Rattle.note.specs.Notes.{written};
ghost use Rattle.listing.specs.Listing.{contracts, first_of, damaged, longest_file, lines_in, waiting_in, PrintsWaiting, FindsDay, Prints, Lists};

use book::BOOK;
use fill::LINE;
use restart::Counts;
use text::Text;

// "Over 65,536 bytes it prints only `too long`"; and no listing is longer than that.
pub const PAGE: usize = 65536;

// "first line, fills waiting and their contracts".
#[tactic(auto, using(text::proofs::Puts::putting), unfolding(crate::specs::Listing::first_of))]
fn first_text(fills: u64, sum: u64) -> Text
    ensures { result ≡ puts empty (first_of fills sum) }
{
    let mut t = Text::new();
    t.all(b"waiting ");
    t.decimal(fills);
    t.all(b" contracts ");
    t.decimal(sum);
    t.put(b'\n');
    t
}

// The line of a file with an unlawful note, whose first byte is at that place.
#[tactic(auto, using(text::proofs::Puts::putting), unfolding(crate::specs::Listing::damaged))]
pub fn damaged_text(at: u64) -> Text
    ensures { result ≡ puts empty (damaged at) }
{
    let mut t = Text::new();
    t.all(b"damaged at ");
    t.decimal(at);
    t.put(b'\n');
    t
}

// LastShares of a slot that is a fill, else 0.
fn shares_in(s: &[u8]) -> u64
    ensures { (result ≡ cond (is_fill s.now) (shares_of s.now) 0) × (result ≤ largest) }
{
    if fill::is_fill(s) {
        u64::from(fill::shares_of(s))
    } else {
        0
    }
}

// How many of the slots from number from + 1 to the last are fills: by a `for`, as the definition counts what is left behind from.
// That the last is one of the memory's is asked of this and the next two: Counts, which
// has it, is for any numbers.
fn count_from(book: &[u8; BOOK], from: usize, last: usize) -> u64
    requires { last ≤ most_slots }
    ensures { result ≡ fills_of (drop from (slots_in last book.now)) }
{
    let mut fills: u64 = 0;
    for i in from..last {
        if fill::is_fill(book::slot_at(book, i)) {
            fills += 1;
        }
    }
    fills
}

// The contracts of the fills from number from + 1 to the last.
fn sum_from(book: &[u8; BOOK], from: usize, last: usize) -> u64
    requires { last ≤ most_slots }
    ensures { (result ≡ contracts (drop from (slots_in last book.now))) × (result ≤ most_slots * largest) }
{
    let mut sum: u64 = 0;
    for i in from..last {
        sum += shares_in(book::slot_at(book, i));
    }
    sum
}

// Writes the line of slot n over page from place `at` on, and says how long it is.
fn put_line(page: &mut [u8], at: usize, n: u32, slot: &[u8]) -> usize
    ensures { (page.new ≡ splice page.old at (line_of n slot.now)) × (result ≡ length (line_of n slot.now)) }
{
    let mut line = [0u8; LINE];
    let len = fill::write_line(n, slot, &mut line);
    octet::copy_into(page, at, &line[..len]);
    len
}

// Writes the lines of the slots after number from, and says where they end.
fn put_lines(page: &mut [u8], at: usize, book: &[u8; BOOK], from: usize, last: usize) -> usize
    requires { (last ≤ most_slots) × (at + length (lines_in from last book.now) ≤ length page.old) }
    ensures { (page.new ≡ splice page.old at (lines_in from last book.now)) × (result ≡ at + length (lines_in from last book.now)) }
{
    let mut end = at;
    for i in from..last {
        end += put_line(page, end, (i + 1) as u32, book::slot_at(book, i));
    }
    end
}

// Writes the listing of what waits, and says how long it is.
fn print_waiting(m: Counts, book: &[u8; BOOK], page: &mut [u8]) -> usize
    requires { (m.last ≤ most_slots) × (m.acked ≤ m.last) × (length (waiting_in m.acked m.last book.now) ≤ length page.old) }
    ensures { PrintsWaiting m.acked m.last book.now page.old result page.new }
{
    let last = m.last as usize;
    let acked = m.acked as usize;
    let fills = count_from(book, acked, last);
    let sum = sum_from(book, acked, last);
    let end = first_text(fills, sum).place(page, 0);
    put_lines(page, end, book, acked, last)
}

// Writes a text from the front of out, and says how long it is; where it does not fit nothing is written, and the answer is 0,
// as many bytes as are written then.
pub fn put_front(out: &mut [u8], text: &[u8]) -> usize
    ensures { (result ≡ written out.old text.now) × (out.new ≡ splice out.old 0 text.now) }
{
    if octet::copy_into(out, 0, text) {
        text.len()
    } else {
        0
    }
}

// The day that the notes keep; or, where they are too long or damaged, how long the line is that says so, from the front of the page.
// The lent book is then that of the restart.
pub fn day_of(notes: &[u8], book: &mut [u8; BOOK], page: &mut [u8]) -> Result<Counts, usize>
    ensures { FindsDay notes.now book.old page.old result book.new page.new }
{
    if PAGE < notes.len() {
        return Err(put_front(page, b"too long\n"));
    }
    match restart::restart(book, notes) {
        Ok(again) => Ok(again.counts),
        Err(at) => Err(put_front(page, damaged_text(at as u64).held())),
    }
}

// Writes the listing over a page that has room for any, and says how long it is. Beside the totals' print and what calls it: what both have in common is in
// day_of and put_front.
fn print(notes: &[u8], book: &mut [u8; BOOK], page: &mut [u8]) -> usize
    requires { length page.old ≡ longest_file }
    ensures { Prints notes.now book.old page.old result book.new page.new }
{
    match day_of(notes, book, page) {
        Ok(m) => print_waiting(m, book, page),
        Err(len) => len,
    }
}

// Writes the listing of the notes from the front of out, and says how long it is; where it does not fit nothing is written, and
// the answer is 0. PAGE bytes are always enough. The lent book is then that of the restart.
pub fn write_listing(notes: &[u8], book: &mut [u8; BOOK], out: &mut [u8]) -> usize
    ensures { Lists notes.now book.old out.old result book.new out.new }
{
    let mut page = [0u8; PAGE];
    let n = print(notes, book, &mut page);
    put_front(out, &page[..n])
}

// What bench/run times, for a program in C to call: the message call of a receiver that is on, an acknowledgement, the totals page, a restart, the listing, and the
// stages of a message call that can be timed by themselves. The numbers that C is told are enough to see that the work was done.
#![tactic(auto)]

ghost use Rattle.std.specs.Prelude.{◌≡◌};
ghost use Rattle.field.specs.Pieces.{pieces_of};
ghost use Rattle.session.specs.Judging.{judge};
ghost use Rattle.book.specs.Memory.{slots_in, rows_in};
ghost use Rattle.book.specs.Admitting.{no_load, admit_of};
ghost use Rattle.frame.specs.Finding.{found_in};
ghost use Rattle.restart.specs.Restart.{restart, told, whole_in, book_after};
ghost use Rattle.listing.specs.Listing.{Lists};
ghost use Rattle.receiver.specs.Steps.{Heard};
ghost use Rattle.bench.specs.Timed.{agreed, load_of, online, became_number, word_of, TimedMessage, TimedAcknowledge, page_word, TimedPage};
ghost use Rattle.bench.specs.Timed.{length_of, cells_of, Indexed, verdict_number, admitted_number};

use answer::{Id, Phase, Refusal, Setup};
use book::{Admitted, BOOK, Load, NO_LOAD};
use field::{Index, Look, NO_INDEX, TAGS, Unsound};
use frame::Found;
use page::{OrderRow, Shown};
use queue::Marks;
use receiver::{Answer, State, Told};
use session::{Session, Verdict};
use tally::Tally;

// The number of what became of a framed message, 0 for every other answer.
fn became_number(answer: Answer) -> u32
    ensures { result ≡ became_number answer }
{
    match answer {
        Answer::Framed(_, outcome) => outcome.number(),
        _ => 0,
    }
}

// Each length takes 12 bits of the word.
const LENGTHS: usize = 4096;

// What is told, in one word.
fn word_of(told: Told) -> u64
    ensures { result ≡ word_of told }
{
    let reply = (told.reply % LENGTHS) as u64;
    let note = (told.note % LENGTHS) as u64;
    (u64::from(became_number(told.answer)) * 4096 + reply) * 4096 + note
}

fn agreed(ours: [u8; 16], n: usize, theirs: [u8; 16], k: usize) -> Setup
    ensures { result ≡ agreed ours n theirs k }
{
    Setup {
        ours: Id {
            bytes: ours,
            len: n,
        },
        theirs: Id {
            bytes: theirs,
            len: k,
        },
    }
}

fn load_of(fills: u32, orders: u32, entries: u32) -> Load
    ensures { result ≡ load_of fills orders entries }
{
    Load {
        fills,
        orders,
        entries,
    }
}

fn online(e: u32, load: Load, offered: u32) -> State
    ensures { result ≡ online e load offered }
{
    State {
        session: Session {
            phase: Phase::In,
            e,
            o: 1,
            // no Resend Request was written: 0 is what C's receivers begin with, also where e is 0
            asked: Some(0),
        },
        marks: Marks {
            last: answer::count_on(load.fills, load.entries),
            load,
            acked: 0,
            offered,
            day: load.fills,
        },
    }
}

// The marks of such a receiver, with nothing offered.
fn marks_of(fills: u32, orders: u32, entries: u32) -> Marks
    ensures { result ≡ (online 1 (load_of fills orders entries) 0).marks }
{
    online(1, load_of(fills, orders, entries), 0).marks
}

// The message call, lent a tally of our own.
fn lend(
    setup: Setup,
    st: State,
    tally: Tally,
    time: &[u8],
    bytes: &[u8],
    book: &mut [u8; BOOK],
    reply: &mut [u8],
    note: &mut [u8],
) -> Told
    ensures { Heard setup st time.now bytes.now result
        book.old book.new reply.old reply.new note.old note.new }
{
    let mut lent = tally;
    receiver::message(setup, st, &mut lent, time, bytes, book, reply, note)
}

// The message call.
#[unsafe(no_mangle)]
pub extern "C" fn bench_message(
    ours: &[u8; 16],
    n: usize,
    theirs: &[u8; 16],
    k: usize,
    e: u32,
    fills: u32,
    orders: u32,
    entries: u32,
    time: &[u8],
    bytes: &[u8],
    book: &mut [u8; BOOK],
    reply: &mut [u8],
    note: &mut [u8],
) -> u64
    ensures { TimedMessage (agreed ours.now n theirs.now k) (online e (load_of fills orders entries) 0) time.now bytes.now result
        book.old book.new reply.old reply.new note.old note.new }
{
    let told = lend(
        agreed(*ours, n, *theirs, k),
        online(e, load_of(fills, orders, entries), 0),
        Tally::new(),
        time,
        bytes,
        book,
        reply,
        note,
    );
    word_of(told)
}

// An acknowledgement of all fills and entries up to a number, where so many are offered and none is acknowledged.
#[unsafe(no_mangle)]
pub extern "C" fn bench_acknowledge(
    ours: &[u8; 16],
    n: usize,
    theirs: &[u8; 16],
    k: usize,
    fills: u32,
    orders: u32,
    entries: u32,
    book: &mut [u8; BOOK],
    upto: u32,
    note: &mut [u8],
) -> u64
    ensures { TimedAcknowledge (agreed ours.now n theirs.now k) (online 1 (load_of fills orders entries) upto) upto result
        book.old book.new note.old note.new }
{
    let st = online(1, load_of(fills, orders, entries), upto);
    word_of(receiver::acknowledge(agreed(*ours, n, *theirs, k), st, book, upto, note))
}

// What a page answers, in one word: the orders above the low 32 bits, and the day's sum in these; 0 where it is refused.
fn page_word(answer: Result<Shown, Refusal>) -> u64
    ensures { result ≡ page_word answer }
{
    match answer {
        Ok(shown) => u64::from(shown.orders) * 4294967296 + u64::from(shown.day),
        Err(_) => 0,
    }
}

// The totals page, into rows that C lends.
#[unsafe(no_mangle)]
pub extern "C" fn bench_page(
    fills: u32,
    orders: u32,
    entries: u32,
    book: &[u8; BOOK],
    rows: &mut [OrderRow],
) -> u64
    ensures { TimedPage (online 1 (load_of fills orders entries) 0).marks book.now rows.old result rows.new }
{
    page_word(page::page(marks_of(fills, orders, entries), book, rows))
}

// A restart into the lent book.
#[unsafe(no_mangle)]
pub extern "C" fn bench_restart(book: &mut [u8; BOOK], notes: &[u8]) -> usize
    ensures { (result ≡ whole_in (told (restart notes.now))) × (book.new ≡ book_after book.old (restart notes.now)) }
{
    match restart::restart(book, notes) {
        Ok(again) => again.whole,
        Err(_) => 0,
    }
}

// The listing.
#[unsafe(no_mangle)]
pub extern "C" fn bench_listing(notes: &[u8], book: &mut [u8; BOOK], out: &mut [u8]) -> usize
    ensures { Lists notes.now book.old out.old result book.new out.new }
{
    listing::write_listing(notes, book, out)
}

// Finding the message at the front of bytes. The numbers that this and the next three answer are the C interface: an arm for each
// case says which.
#[unsafe(no_mangle)]
pub extern "C" fn bench_find(bytes: &[u8]) -> usize
    ensures { result ≡ length_of (found_in bytes.now) }
{
    match frame::find(bytes) {
        Found::More => 0,
        Found::Garbled(_) => 0,
        Found::Framed(len) => len,
    }
}

// What C lends for the index: of each tag where the value of its first field stands, then of each how long that is, then of each how often the tag stands.
type Cells = [usize; 3 * TAGS];

// Lays an index out so: in it a tag's three numbers stand together.
fn lay(cells: &mut Cells, columns: &Index)
    ensures { cells.new ≡ cells_of columns.now }
{
    for (i, column) in columns.iter().enumerate() {
        cells[i] = column.start;
    }
    for (j, column) in columns.iter().enumerate() {
        cells[TAGS + j] = column.len;
    }
    for (k, column) in columns.iter().enumerate() {
        cells[2 * TAGS + k] = column.count;
    }
}

// The index of a body. It answers how its first fault is numbered: 0 none, 1 a piece that is no field, 2 a field without a value.
#[unsafe(no_mangle)]
pub extern "C" fn bench_index(body: &[u8], index: &mut Cells) -> u8
    ensures { Indexed body.now result index.new }
{
    let mut columns = NO_INDEX;
    let scan = field::index_into(body, &mut columns);
    lay(index, &columns);
    match scan {
        Ok(()) => 0,
        Err(Unsound::Malformed) => 1,
        Err(Unsound::Empty(_)) => 2,
    }
}

// The index and the judging of a body, by a session in phase 2 that expects e.
#[unsafe(no_mangle)]
pub extern "C" fn bench_judge(
    ours: &[u8; 16],
    n: usize,
    theirs: &[u8; 16],
    k: usize,
    e: u32,
    body: &[u8],
) -> u32
    ensures { result ≡ verdict_number (judge (agreed ours.now n theirs.now k) (online e no_load 0).session (pieces_of body.now)) }
{
    let setup = agreed(*ours, n, *theirs, k);
    let session = online(e, NO_LOAD, 0).session;
    let mut index = NO_INDEX;
    let scan = field::index_into(body, &mut index);
    let look = Look {
        body,
        index: &index,
    };
    let found = session::findings_of(setup, session, look, scan);
    match session.judge(found) {
        Verdict::Settled(j) => j.outcome.number(),
        Verdict::Report(_) => 14,
        Verdict::Correction(_) => 15,
    }
}

// What becomes of a fill or an entry among the day's.
#[unsafe(no_mangle)]
pub extern "C" fn bench_admit(
    book: &[u8; BOOK],
    last: usize,
    fills: u32,
    orders: u32,
    entries: u32,
    slot: &[u8],
) -> u8
    ensures { result ≡ admitted_number (admit_of (slots_in last book.now) (rows_in orders book.now) (load_of fills orders entries) slot.now) }
{
    match book::admit(book, last, load_of(fills, orders, entries), slot) {
        Admitted::Clash(_) => 1,
        Admitted::Already => 2,
        Admitted::Full => 3,
        Admitted::New(_) => 4,
    }
}

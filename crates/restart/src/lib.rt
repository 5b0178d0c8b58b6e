// A restart: from the notes to what they keep, or to the place of the first unlawful one. "A restart reads whole notes, drops a
// part at the end, and says how many bytes are whole."
#![tactic(auto)]

ghost use Rattle.std.specs.Prelude.{◌≡◌, ◌+◌, ◌≤◌, length};
ghost use Rattle.book.specs.Memory.{book_width};
ghost use Rattle.note.specs.Notes.{Raises, Books, Acks, Clears, read_note, told as said};
ghost use Rattle.note.specs.Kept.{lawful, empty};
ghost use Rattle.restart.specs.Restart.{restart, counts_of, load_in, Restarts};
ghost use Rattle.restart.specs.Steps.{kept_in, bare, raised, is_next, step_note, Takes, Steps, Replays};

use answer::NINE_DIGITS;
use book::{Admitted, BOOK, Load};
use note::Read;

// What the notes keep but for the slots and the order rows, which are in the lent book: last is the last number given, as many slots there
// are, and day the contracts waiting. The load is here as three numbers: a struct in a struct would be copied with every note. e and o stand last by what
// was measured alone: see `replay`.
#[derive(Clone, Copy, Default)]
pub struct Counts {
    pub last: u32,
    pub fills: u32,
    pub orders: u32,
    pub entries: u32,
    pub acked: u32,
    pub day: u32,
    pub e: u32,
    pub o: u32,
}

// What is kept, and how many bytes of the notes are whole.
#[derive(Clone, Copy)]
pub struct Restarted {
    pub counts: Counts,
    pub whole: usize,
}

// What one note does: the restart goes on with these counts, ends before a part, or refuses. Stays an enum: these are
// three answers, and the loop tells them apart in one place.
#[derive(Clone, Copy)]
pub enum Step {
    On(Counts),
    End,
    Bad,
}

// The load that is among the counts, as the book asks for it: three numbers, see Counts.
pub fn load_in(m: Counts) -> Load
    ensures { result ≡ load_in m }
{
    Load {
        fills: m.fills,
        orders: m.orders,
        entries: m.entries,
    }
}

// "S raises E or O".
fn raises(m: Counts, e: u32, o: u32) -> bool
    ensures { result ≡ raised m e o }
{
    m.e < e || m.o < o
}

// "S raises E or O, lowers neither, both at most 999,999,999".
#[tactic(auto, unfolding(note::specs::Kept::lawful))]
fn raises_lawful(m: Counts, e: u32, o: u32) -> bool
    ensures { result ≡ lawful (bare m) (Raises e o) }
{
    raises(m, e, o) && m.e <= e && m.o <= o && e <= NINE_DIGITS && o <= NINE_DIGITS
}

fn step_raises(m: Counts, e: u32, o: u32) -> Step
    ensures { result ≡ step_note (bare m) (Raises e o) }
{
    if !raises_lawful(m, e, o) {
        return Step::Bad;
    }
    Step::On(Counts { e, o, ..m })
}

// "K is above the mark and at most the last fill", or entry. What it acknowledges is taken off the sums.
fn step_acks(mem: &mut [u8; BOOK], m: Counts, n: u32) -> Step
    ensures { Takes mem.old (kept_in m mem.old) (Acks n) result mem.new }
{
    if n <= m.acked || m.last < n {
        return Step::Bad;
    }
    let day = book::take_off(
        mem,
        m.last as usize,
        m.orders as usize,
        m.acked as usize,
        n as usize,
        m.day,
    );
    Step::On(Counts { acked: n, day, ..m })
}

// "fresh: .. E = O = 1", and nothing booked.
fn empty_counts() -> Counts
    ensures { result ≡ counts_of empty }
{
    Counts {
        e: 1,
        o: 1,
        ..Counts::default()
    }
}

// "D with nothing waiting".
fn step_clears(m: Counts) -> Step
    ensures { result ≡ step_note (bare m) Clears }
{
    if m.acked != m.last {
        return Step::Bad;
    }
    Step::On(empty_counts())
}

// "F has E one up within that, O the same", and so has C.
fn is_next(m: Counts, e: u32, o: u32) -> bool
    ensures { result ≡ is_next m e o }
{
    m.e < NINE_DIGITS && e == m.e + 1 && o == m.o
}

// "F has E one up within that, O the same, and a report that would be booked"; C alike, with an entry. The slot is written after the last one,
// and a fill's contracts into its order's row.
fn step_books(mem: &mut [u8; BOOK], m: Counts, e: u32, o: u32, slot: &[u8]) -> Step
    ensures { Takes mem.old (kept_in m mem.old) (Books e o slot.now) result mem.new }
{
    let last = m.last as usize;
    if !is_next(m, e, o) || !fill::is_lawful(slot) {
        return Step::Bad;
    }
    // written out, arm by arm: the wrong edit `twice` changes one of them
    match book::admit(mem, last, load_in(m), slot) {
        Admitted::Clash(_) => Step::Bad,
        Admitted::Already => Step::Bad,
        Admitted::Full => Step::Bad,
        Admitted::New(booking) => {
            let more = booking.load;
            book::enter(mem, last, m.orders as usize, booking.row, slot);
            Step::On(Counts {
                e,
                o,
                last: m.last + 1,
                fills: more.fills,
                orders: more.orders,
                entries: more.entries,
                day: book::day_with(m.day, slot),
                ..m
            })
        }
    }
}

// What the first note of s does, of which it is given what it says.
fn take_note(mem: &mut [u8; BOOK], m: Counts, says: Read, s: &[u8]) -> Step
    requires { says ≡ said (read_note s.now) }
    ensures { Steps mem.old (kept_in m mem.old) (read_note s.now) result mem.new }
{
    match says {
        Read::Raises(e, o) => step_raises(m, e, o),
        Read::Books(e, o) => step_books(mem, m, e, o, &note::slot_in_note(s)),
        Read::Acks(n) => step_acks(mem, m, n),
        Read::Clears => step_clears(m),
        Read::Part => Step::End,
        Read::Unknown => Step::Bad,
    }
}

// The notes one by one, their slots and rows into mem; or the place of the first byte of an unlawful note. Stays a `while`: it goes on by the length of
// each note, and the place where it stands is the answer. It is a function of its own to whatever calls a restart: put in place, and with e and o first
// in Counts, a restart of S notes took a seventh longer in the archive for C.
#[inline(never)]
fn replay(mem: &mut [u8; BOOK], notes: &[u8]) -> Result<Restarted, usize>
    requires { length mem.old ≡ book_width }
    ensures { Replays (restart notes.now) result mem.new }
{
    let mut m = empty_counts();
    let mut at = 0;
    while at < notes.len() {
        let rest = &notes[at..];
        let first = note::read_note(rest);
        match take_note(mem, m, first.says, rest) {
            Step::On(next) => {
                m = next;
                at += first.taken;
            }
            Step::End => break,
            Step::Bad => return Err(at),
        }
    }
    Ok(Restarted {
        counts: m,
        whole: at,
    })
}

// A restart into the lent book; or the place of the first byte of an unlawful note.
// The notes are replayed into an array of the call's own, and only the used slots and rows are copied:
// where a note is unlawful the book stays as it was, and a slot of a day before leaves no trace.
pub fn restart(book: &mut [u8; BOOK], notes: &[u8]) -> Result<Restarted, usize>
    ensures { Restarts book.old (restart notes.now) result book.new }
{
    let mut mem = [0u8; BOOK];
    let again = replay(&mut mem, notes)?;
    book::put_day(
        book,
        again.counts.last as usize,
        again.counts.orders as usize,
        &mem,
    );
    Ok(again)
}

// The queue to the ledger host: offer, begin-again, acknowledge, new day. Marks by value, the fills, entries and order rows in the lent book,
// under the numbers of one queue.
#![tactic(auto)]

ghost use Rattle.std.specs.Prelude.{◌≡◌};
ghost use Rattle.book.specs.Memory.{TakesOff};
ghost use Rattle.queue.specs.Queue.{no_marks, marks_again, one_more, offered_up_to, acked_up_to, Offers, begun_again, Acknowledges, new_day};

use answer::{Refusal, Setup};
use book::{BOOK, Load, NO_LOAD};

// The last number given, as many slots the day has; how many fills, orders and entries these are; the marks: the last number
// acknowledged, and the last offered; and the contracts waiting for the day.
#[derive(Clone, Copy)]
pub struct Marks {
    pub last: u32,
    pub load: Load,
    pub acked: u32,
    pub offered: u32,
    pub day: u32,
}

// An offer that is given: the marks after it, and how long the line is.
#[derive(Clone, Copy)]
pub struct Given {
    pub marks: Marks,
    pub len: usize,
}

impl Marks {
    // Nothing booked.
    pub fn none() -> Marks
        ensures { result ≡ no_marks }
    {
        Marks {
            last: 0,
            load: NO_LOAD,
            acked: 0,
            offered: 0,
            day: 0,
        }
    }

    // After a restart: "offered equals acknowledged".
    pub fn again(last: u32, load: Load, acked: u32, day: u32) -> Marks
        ensures { result ≡ marks_again last load acked day }
    {
        Marks {
            last,
            load,
            acked,
            offered: acked,
            day,
        }
    }

    // One number more is given; load is what there are then, and day what waits.
    pub fn one_more(self, load: Load, day: u32) -> Marks
        ensures { result ≡ one_more load day self }
    {
        Marks {
            last: answer::count_on(self.last, 1),
            load,
            day,
            ..self
        }
    }

    // One mark moved.
    fn offered_up_to(self, n: u32) -> Marks
        ensures { result ≡ offered_up_to n self }
    {
        Marks { offered: n, ..self }
    }

    fn acked_up_to(self, n: u32, day: u32) -> Marks
        ensures { result ≡ acked_up_to n day self }
    {
        Marks {
            acked: n,
            day,
            ..self
        }
    }

    // "Offer writes the fill after the last offered one as its line of the listing .., or, only where there is no such fill,
    // says none." Only the offered mark moves.
    pub fn offer(
        self,
        setup: Setup,
        book: &[u8; BOOK],
        line: &mut [u8],
    ) -> Result<Option<Given>, Refusal>
        ensures { Offers setup self book.now line.old result line.new }
    {
        if line.len() < fill::line_least(setup) {
            return Err(Refusal::ShortBuffer);
        }
        if self.last <= self.offered {
            return Ok(None);
        }
        let next = self.offered + 1;
        let len = fill::write_line(next, book::slot_at(book, self.offered as usize), line);
        Ok(Some(Given {
            marks: self.offered_up_to(next),
            len,
        }))
    }

    // "Begin-again sets the offered mark back to the acknowledged one."
    pub fn begin_again(self) -> Marks
        ensures { result ≡ begun_again self }
    {
        self.offered_up_to(self.acked)
    }

    // What is left of the day's sum where the slots up to n are acknowledged; what they have is taken off the rows in the book.
    fn take_off(self, book: &mut [u8; BOOK], n: u32) -> u32
        ensures { TakesOff book.old self.last self.load.orders self.acked n self.day result book.new }
    {
        book::take_off(
            book,
            self.last as usize,
            self.load.orders as usize,
            self.acked as usize,
            n as usize,
            self.day,
        )
    }

    // "Acknowledge n takes all fills up to n; n at or below the mark is already, no change", and so None. It is refused above the offered
    // mark. The slots stay where they are; their contracts wait no longer.
    pub fn acknowledge(
        self,
        setup: Setup,
        book: &mut [u8; BOOK],
        n: u32,
        note: &mut [u8],
    ) -> Result<Option<Marks>, Refusal>
        ensures { Acknowledges setup self n book.old note.old result book.new note.new }
    {
        if note.len() < note::note_least(setup) {
            return Err(Refusal::ShortBuffer);
        }
        if self.offered < n {
            return Err(Refusal::NotOffered);
        }
        if n <= self.acked {
            return Ok(None);
        }
        note::put_acks(note, n);
        let day = self.take_off(book, n);
        Ok(Some(self.acked_up_to(n, day)))
    }

    // "New day (.. nothing waiting) gives the fresh, empty state." What is in the lent book is then of no slot.
    pub fn new_day(self, book: &mut [u8; BOOK]) -> Result<Marks, Refusal>
        ensures { (result ≡ new_day self) × (book.new ≡ book.old) }
    {
        if self.acked < self.last {
            return Err(Refusal::StillWaiting);
        }
        Ok(Marks::none())
    }
}

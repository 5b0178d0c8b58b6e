// Running a line: a call is made with lent buffers, what came back is kept and shown, and any other line is answered.
use super::calls::Lent;
use super::script::{Ask, Line, read_line};
use super::transcript::{Entry, Written};
use super::{Sizes, Store, World};
use answer::Setup;
use book::BOOK;
use receiver::Answer;
use std::io;
use tally::Tally;

// The least buffers that a receiver takes.
const LEAST: Sizes = Sizes {
    reply: 512,
    note: 102,
    line: 128,
};

impl<'a> World<'a> {
    // No receiver yet: the numbers that are shown are those of a fresh one.
    pub(crate) fn new(journal: Store<'a>) -> World<'a> {
        World {
            setup: None,
            state: receiver::fresh(),
            tally: Tally::new(),
            sizes: LEAST,
            journal,
            book: [0; BOOK],
        }
    }

    // A line that is no call, or that is not in the language.
    fn answer(&self, rt: &impl Print, answer: Option<Answer>) -> io::Result<()> {
        let mut entry = Entry::new();
        entry.put_answer(answer)?;
        entry.put_call(self, Written::NOTHING)?;
        entry.end(rt, false)
    }

    // `ids`: where it is not refused, everything begins anew.
    fn set_up(&mut self, ours: &[u8], theirs: &[u8]) -> Answer {
        match receiver::set_up(ours, theirs) {
            Ok(setup) => {
                self.setup = Some(setup);
                self.state = receiver::fresh();
                self.tally = Tally::new();
                self.sizes = LEAST;
                self.journal.clear();
                Answer::Done
            }
            Err(why) => Answer::Refused(why),
        }
    }

    // A restart leaves the whole bytes in the journal, any other call adds its note. It answers whether the journal has room.
    fn keep(&mut self, ask: Ask<'_>, answer: Answer, note: &[u8]) -> bool {
        if let Ask::Restart(notes) = ask
            && let Answer::Restarted(whole) = answer
        {
            self.journal.clear();
            return self.journal.add(octet::part(notes, 0, whole));
        }
        self.journal.add(note)
    }

    // Makes a call, keeps what came back and shows it. A note that the journal does not hold is as a line that is not in the language: the state before
    // the call stands, and a slot that was written past its fills is none of them.
    fn call(&mut self, rt: &impl Print, setup: Setup, ask: Ask<'_>) -> io::Result<()> {
        let mut lent = Lent::new();
        let mut tally = self.tally;
        let told = self.hand(setup, ask, &mut tally, &mut lent);
        let written = lent.written(told);
        if !self.keep(ask, told.answer, written.note) {
            return self.answer(rt, None);
        }
        self.state = told.state;
        self.tally = tally;
        let mut entry = Entry::new();
        entry.put_answer(Some(told.answer))?;
        entry.put_call(self, written)?;
        entry.end(rt, lent.is_spoiled(told))
    }

    // A restart with the first n bytes of the journal, or all of it.
    fn cut(&mut self, rt: &impl Print, setup: Setup, n: usize, room: &mut [u8]) -> io::Result<()> {
        let notes = octet::part(self.journal.bytes(), 0, n);
        let len = notes.len();
        octet::copy_into(room, 0, notes);
        self.call(rt, setup, Ask::Restart(octet::part(room, 0, len)))
    }

    // Runs a line, and answers it. A script begins with an `ids` that is not refused: before it, no other line is in the language.
    pub(crate) fn run_line(
        &mut self,
        rt: &impl Print,
        line: &[u8],
        room: &mut [u8],
    ) -> io::Result<()> {
        match (read_line(line, room), self.setup) {
            (Some(Line::Ids(ours, theirs)), _) => {
                let answer = self.set_up(ours, theirs);
                self.answer(rt, Some(answer))
            }
            (Some(Line::Lend(sizes)), Some(_)) => {
                self.sizes = sizes;
                self.answer(rt, Some(Answer::Done))
            }
            (Some(Line::Cut(n)), Some(setup)) => self.cut(rt, setup, n, room),
            (Some(Line::Page(n)), Some(_)) => self.ask_page(rt, n),
            (Some(Line::Call(ask)), Some(setup)) => self.call(rt, setup, ask),
            (_, None) | (None, _) => self.answer(rt, None),
        }
    }
}

// What is written of a call: a line of the transcript.
use super::World;
use super::code::put_coded;
use receiver::Answer;
use std::fmt::Display;
use std::io;
use std::io::{Cursor, Write};
use text::Text;

// A line of the transcript has room: the answer and the numbers take a few hundred bytes, and a byte of a lent buffer at most three.
const SHOWN: usize = 40000;

// A line of the transcript, as far as it is written.
#[derive(Drop)]
pub(crate) struct Entry {
    line: Cursor<[u8; SHOWN]>,
}

// What a call wrote to each of the lent buffers.
#[derive(Clone, Copy)]
pub(crate) struct Written<'a> {
    pub(crate) reply: &'a [u8],
    pub(crate) note: &'a [u8],
    pub(crate) line: &'a [u8],
}

impl Written<'_> {
    // Of a call that is lent no buffer.
    pub(crate) const NOTHING: Written<'static> = Written {
        reply: b"",
        note: b"",
        line: b"",
    };
}

// A number after what it is.
fn say_number(said: &mut Text, name: &[u8], n: u32) {
    said.all(name);
    said.decimal(u64::from(n));
}

impl Entry {
    pub(crate) fn new() -> Entry {
        Entry {
            line: Cursor::new([0; SHOWN]),
        }
    }

    pub(crate) fn put(&mut self, part: impl Display + Drop) -> io::Result<()> {
        write!(self.line, "{part}")
    }

    // What a call came to; None where the line is not in the language.
    pub(crate) fn put_answer(&mut self, answer: Option<Answer>) -> io::Result<()> {
        match answer {
            Some(answer) => {
                let mut said = Text::new();
                words::say_answer(&mut said, answer);
                self.line.write_all(said.held())
            }
            None => self.put("what"),
        }
    }

    // The numbers of the state, and of the tally, in a text of their own. How many entries there are is said where there are any.
    fn put_numbers(&mut self, world: &World<'_>) -> io::Result<()> {
        let session = world.state.session;
        let marks = world.state.marks;
        let tally = world.tally;
        let mut said = Text::new();
        say_number(&mut said, b" ; phase ", session.phase.number());
        say_number(&mut said, b" e ", session.e);
        say_number(&mut said, b" o ", session.o);
        say_number(&mut said, b" fills ", marks.load.fills);
        if marks.load.entries != 0 {
            say_number(&mut said, b" entries ", marks.load.entries);
        }
        say_number(&mut said, b" acked ", marks.acked);
        say_number(&mut said, b" offered ", marks.offered);
        say_number(&mut said, b" tally ", tally.booked);
        say_number(&mut said, b" ", tally.already);
        say_number(&mut said, b" ", tally.rejected);
        say_number(&mut said, b" ", tally.garbled);
        self.line.write_all(said.held())
    }

    // Bytes in the code, after what they are.
    pub(crate) fn put_bytes(&mut self, name: &[u8], bytes: &[u8]) -> io::Result<()> {
        self.line.write_all(name)?;
        put_coded(&mut self.line, bytes)
    }

    // What every line has after its answer: the numbers, and what the call wrote to each buffer.
    pub(crate) fn put_call(&mut self, world: &World<'_>, written: Written<'_>) -> io::Result<()> {
        self.put_numbers(world)?;
        self.put_bytes(b" ; reply ", written.reply)?;
        self.put_bytes(b" ; note ", written.note)?;
        self.put_bytes(b" ; line ", written.line)
    }

    // Ends the line, and writes it.
    pub(crate) fn end(&mut self, rt: &impl Print, spoiled: bool) -> io::Result<()> {
        if spoiled {
            self.put(" ; spoiled")?;
        }
        self.put("\n")?;
        let end = self.line.position() as usize;
        rt.write_all(octet::part(self.line.get_ref(), 0, end))
    }
}

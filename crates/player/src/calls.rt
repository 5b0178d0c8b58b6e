// A call, handed to the receiver, which is lent buffers that are filled anew.
ghost use Rattle.std.specs.Prelude.{◌≡◌, min, length};
ghost use Rattle.receiver.specs.Steps.{Messaged};

use super::script::Ask;
use super::transcript::Written;
use super::{LENT, World};
use answer::Setup;
use book::BOOK;
use receiver::{State, Told};
use session::Own;
use tally::Tally;

// Every lent buffer is filled with this byte before a call.
const FILLED: u8 = 238;

// The buffers that are lent.
#[derive(Drop)]
pub(crate) struct Lent {
    reply: [u8; LENT],
    note: [u8; LENT],
    line: [u8; LENT],
}

// Whether a buffer is as it was filled from a place on.
fn is_filled(s: &[u8], from: usize) -> bool {
    s.iter().skip(from).all(|b| *b == FILLED)
}

impl Lent {
    pub(crate) fn new() -> Lent {
        Lent {
            reply: [FILLED; LENT],
            note: [FILLED; LENT],
            line: [FILLED; LENT],
        }
    }

    // What a call says it wrote.
    pub(crate) fn written(&self, told: Told) -> Written<'_> {
        Written {
            reply: octet::part(&self.reply, 0, told.reply),
            note: octet::part(&self.note, 0, told.note),
            line: octet::part(&self.line, 0, told.line),
        }
    }

    // Whether anything past that was touched.
    pub(crate) fn is_spoiled(&self, told: Told) -> bool {
        !(is_filled(&self.reply, told.reply)
            && is_filled(&self.note, told.note)
            && is_filled(&self.line, told.line))
    }
}

// As much of a buffer as the script says.
fn lent_of(buffer: &mut [u8], size: usize) -> &mut [u8]
    ensures { length result.now ≡ min size (length buffer.old) }
{
    let n = size.min(buffer.len());
    &mut buffer[..n]
}

// The message call. What is lent for what stands in its contract: its last buffers are of one type, and so are its two texts.
fn message_call(
    setup: Setup,
    st: State,
    tally: &mut Tally,
    time: &[u8],
    given: &[u8],
    book: &mut [u8; BOOK],
    reply: &mut [u8],
    note: &mut [u8],
) -> Told
    ensures { Messaged setup st tally.old time.now given.now result tally.new
        book.old book.new reply.old reply.new note.old note.new }
{
    receiver::message(setup, st, tally, time, given, book, reply, note)
}

impl World<'_> {
    // Hands the call to the receiver, which is lent as much of each buffer as the script says, and a tally.
    pub(crate) fn hand(
        &mut self,
        setup: Setup,
        ask: Ask<'_>,
        tally: &mut Tally,
        lent: &mut Lent,
    ) -> Told {
        let st = self.state;
        let book = &mut self.book;
        let reply = lent_of(&mut lent.reply, self.sizes.reply);
        let note = lent_of(&mut lent.note, self.sizes.note);
        let line = lent_of(&mut lent.line, self.sizes.line);
        match ask {
            Ask::Own(Own::Open, time) => receiver::open(setup, st, time, reply, note),
            Ask::Own(Own::Beat, time) => receiver::heartbeat(setup, st, time, reply, note),
            Ask::Own(Own::Ask, time) => receiver::test_request(setup, st, time, reply, note),
            Ask::Own(Own::Close, time) => receiver::close(setup, st, time, reply, note),
            Ask::Lost => receiver::line_lost(setup, st),
            Ask::Message(time, given) => {
                message_call(setup, st, tally, time, given, book, reply, note)
            }
            Ask::Offer => receiver::offer(setup, st, book, line),
            Ask::Again => receiver::begin_again(setup, st),
            Ask::Ack(n) => receiver::acknowledge(setup, st, book, n, note),
            Ask::NewDay => receiver::new_day(setup, st, book, note),
            Ask::Restart(notes) => receiver::restart_from(setup, st, book, notes),
        }
    }
}

// The replay program: reads a script of calls on standard input, runs it against one receiver, and writes the transcript, a line for each line; or
// says on standard error why it cannot. docs/REPLAY.md has the language.
#![tactic(auto)]

mod store; // bytes one after another, in memory that is lent
mod code; // bytes, decoded and encoded
mod script; // a line of the script, read
mod transcript; // what is written of a call
mod calls; // a call, handed to the receiver
mod pages; // the totals page, lent rows
mod running; // a line, run on what a script works on
mod reading; // standard input, line by line

use answer::Setup;
use book::BOOK;
use receiver::State;
use store::Store;
use tally::Tally;

// The most bytes of a line of a script, of the journal, and of a buffer that is lent.
const LINE: usize = 300000;

const JOURNAL: usize = 131072;

const LENT: usize = 4096;

// The sizes of the buffers that are lent.
#[derive(Clone, Copy)]
struct Sizes {
    reply: usize,
    note: usize,
    line: usize,
}

// One receiver and what its caller keeps: the book, the tally, the journal of all notes, and what is lent. Before the first `ids` that is not refused
// it has no set-up, and no other line is in the language.
#[derive(Drop)]
struct World<'a> {
    setup: Option<Setup>,
    state: State,
    tally: Tally,
    sizes: Sizes,
    journal: Store<'a>,
    book: [u8; BOOK],
}

pub fn play_input(rt: &(impl Input + Print + Eprint)) {
    let mut journal = [0; JOURNAL];
    let mut world = World::new(Store::new(&mut journal));
    if let Err(why) = reading::run(rt, &mut rt.reader(), &mut world) {
        // Where that cannot be written either, there is nobody to tell.
        let _ = rt.eprint(why);
    }
}

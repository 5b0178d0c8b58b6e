// The session: phase, E and O by value, our own calls, and the judging of a framed message in the paper's order. It knows no book.
#![tactic(auto)]

mod judging;
mod own_calls;
mod reading;

use answer::{Fault, Kind, Outcome, Phase};
pub use judging::word_tag;
pub use own_calls::says;
pub use reading::findings_of;
use wire::Reply;

// The phase, the number expected, the next to send, and the E that a Resend Request was last written for.
#[derive(Clone, Copy)]
pub struct Session {
    pub phase: Phase,
    pub e: u32,
    pub o: u32,
    pub asked: Option<u32>,
}

// Our own calls: open, heartbeat, test request, close.
#[derive(Clone, Copy)]
pub enum Own {
    Open,
    Beat,
    Ask,
    Close,
}

// What a message came to, the session after it, and what is written.
#[derive(Clone, Copy)]
pub struct Judged {
    pub outcome: Outcome,
    pub next: Session,
    pub reply: Reply,
}

// What judging answers: a message that is settled; or a faultless report or correction in its turn, with its number, about which the book is to be asked.
#[derive(Clone, Copy)]
pub enum Verdict {
    Settled(Judged),
    Report(u32),
    Correction(u32),
}

// What the steps read off a message: its type, its number, where it has one, which ID is not the agreed one, what is wrong by steps 5 to 7,
// `43=Y`, `123=Y`, and the numbers of 7, 16 and 36. Each bool is a fact of the message of its own; the three numbers are used where the table has found
// them there.
#[derive(Clone, Copy)]
pub struct Findings {
    pub kind: Kind,
    pub seq: Option<u32>,
    pub ids: Result<(), Fault>,
    pub fault: Result<(), Fault>,
    pub again: bool,
    pub filling: bool,
    pub from: u32,
    pub last: u32,
    pub to: u32,
}

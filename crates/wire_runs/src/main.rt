// Writes one message of each kind, and replies of two messages, each on a line after the count of the numbers it uses; byte 1 is shown as `|`.
// The expected bytes were laid out by hand, apart from the code, and QuickFIX reads each message as written (tests/engine/run).
#![tactic(auto)]

use answer::reasons::{WRONG_FORM, WRONG_TYPE, WRONG_VALUE};
use answer::{BAR, Fault, Id, LARGEST, LAST_SEQUENCE, LAST_TO_SEND, Setup};
use std::io;
use wire::{Reply, Say};

fn id(s: &[u8]) -> Id {
    let mut bytes = [0; 16];
    let fits = octet::copy_into(&mut bytes, 0, s);
    let len = if fits { s.len() } else { 0 };
    Id { bytes, len }
}

// Turns each byte 1 into `|`. framing_runs has the other way: a crate for both would be no plainer.
fn bars(s: &mut [u8]) {
    for b in s.iter_mut() {
        *b = if *b == BAR { b'|' } else { *b };
    }
}

fn show(rt: &impl Print, r: Reply, o: u32, word: &[u8]) -> io::Result<()> {
    let setup = Setup {
        ours: id(b"FIRM"),
        theirs: id(b"SAPPHIRE-DROP-01"),
    };
    let mut reply = [238u8; 512];
    let n = wire::write_reply(setup, o, b"20250108-14:30:01.000", word, r, &mut reply);
    bars(&mut reply);
    let used = wire::used_by(r);
    print!(rt; "{used} ")?;
    rt.write_all(octet::part(&reply, 0, n))?;
    println!(rt; "")
}

// Faults that are none of form.
const OTHER_TYPE: Fault = Fault {
    reason: WRONG_TYPE,
    tag: 0,
    at: 0,
};

const OTHER_TAG: Fault = Fault {
    reason: WRONG_VALUE,
    tag: 371,
    at: 0,
};

// Faults of form, whose Rejects say where: the second with the largest numbers that a call has for it.
const SHORT_PRICE: Fault = Fault {
    reason: WRONG_FORM,
    tag: 31,
    at: 2,
};

const FAR_TEXT: Fault = Fault {
    reason: WRONG_FORM,
    tag: 9021,
    at: 4055,
};

// What is asked to be written: the reply, the number of its first message, and the word that is repeated in it.
type Run = (Reply, u32, &'static [u8]);

static RUNS: [Run; 14] = [
    (Reply::One(Say::Logon), 1, b""),
    (Reply::One(Say::Heartbeat), 2, b""),
    (Reply::One(Say::Test), 10, b""),
    (Reply::One(Say::Logout), LARGEST, b""),
    (Reply::One(Say::Echo), LAST_TO_SEND, b"TEST7"),
    (
        Reply::One(Say::Echo),
        3,
        b"0123456789012345678901234567890123456789",
    ),
    (Reply::One(Say::Resend(5)), 9, b""),
    (Reply::One(Say::Reject(7, OTHER_TYPE)), 99, b"UCC"),
    (Reply::One(Say::GapFill(1, 1000)), 1000, b""),
    (Reply::One(Say::Reject(7, SHORT_PRICE)), 99, b"8"),
    (
        Reply::Two(Say::Reject(LAST_SEQUENCE, FAR_TEXT), Say::Logout),
        LAST_TO_SEND,
        b"UCC",
    ),
    (
        Reply::Two(Say::Reject(7, OTHER_TAG), Say::Logout),
        100,
        b"8",
    ),
    (Reply::Two(Say::GapFill(3, 10), Say::Resend(12)), 10, b""),
    (Reply::Nothing, 10, b""),
];

fn main(rt: HostRuntime) -> io::Result<()> {
    for (reply, o, word) in &RUNS {
        show(&rt, *reply, *o, word)?;
    }
    Ok(())
}

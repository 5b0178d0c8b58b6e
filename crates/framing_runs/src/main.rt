// Runs framing on the lines of standard input, each a label, `~`, and bytes as the paper writes them (`|` is byte 1), and writes for each line
// its label and what stands at the front of the bytes. The expected output is by hand, from the paper's "Finding a message" and its worked cases.
#![tactic(auto)]

use frame::Found;
use std::io;
use std::io::Read;

// The most bytes of input that are read.
const INPUT: usize = 65536;

// Turns each `|` into byte 1. wire_runs has the other way: a crate for both would be no plainer.
fn bars(s: &mut [u8]) {
    for b in s.iter_mut() {
        *b = if *b == b'|' { 1 } else { *b };
    }
}

fn say(rt: &impl Print, s: &[u8]) -> io::Result<()> {
    match frame::find(s) {
        Found::More => println!(rt; "more"),
        Found::Garbled(p) => println!(rt; "garbled, skip {p}"),
        Found::Framed(n) => println!(rt; "framed, {n} bytes"),
    }
}

// A line without a `~` says nothing.
fn line(rt: &impl Print, s: &[u8]) -> io::Result<()> {
    let Some(at) = s.iter().position(|b| *b == b'~') else {
        return Ok(());
    };
    rt.write_all(&s[..at])?;
    rt.write_all(b": ")?;
    say(rt, &s[at + 1..])
}

fn main(rt: HostRuntime) -> io::Result<()> {
    let mut buffer = [0u8; INPUT];
    let n = io::copy(
        &mut rt.reader().take(INPUT as u64),
        &mut buffer.as_mut_slice(),
    )?;
    bars(&mut buffer);
    for s in octet::part(&buffer, 0, n as usize).split(|b| *b == b'\n') {
        line(&rt, s)?;
    }
    Ok(())
}

// The list program and the totals program: "reads notes from standard input" and prints their listing, or their totals, or says on standard error why it cannot.
#![tactic(auto)]

use book::BOOK;
use listing::PAGE;
use std::io;
use std::io::Read;
use totals::TOTALS;

// One byte more than the longest file tells that it is too long.
const INPUT: usize = PAGE + 1;

// What a program says on standard error where it cannot read its notes, or cannot print its page.
#[derive(Clone, Copy)]
struct Complaints {
    unread: &'static str,
    unwritten: &'static str,
}

// Reads until the input ends, or until there is no room for more: then the file is too long, whatever comes. Where a read fails there are no notes:
// a part of a file is no file, and its page would pass for the page of the whole.
fn read_notes<'a, R: Read + Drop>(input: R, notes: &'a mut [u8]) -> io::Result<&'a [u8]> {
    let room = notes.len() as u64;
    let n = io::copy(&mut input.take(room), &mut &mut *notes)?;
    Ok(octet::part(notes, 0, n as usize))
}

// Prints the page that is written of the notes on standard input, in memory for the longest one.
fn print_page<W: FnOnce(&[u8], &mut [u8; BOOK], &mut [u8]) -> usize>(
    rt: &(impl Input + Print),
    page: &mut [u8],
    write: W,
    complaints: Complaints,
) -> Result<(), &'static str>
    requires { W.IsAlwaysCallable write }
{
    let mut notes = [0u8; INPUT];
    let mut book = [0u8; BOOK];
    let notes = read_notes(rt.reader(), &mut notes).map_err(|_| complaints.unread)?;
    let len = write(notes, &mut book, page);
    rt.write_all(octet::part(page, 0, len))
        .map_err(|_| complaints.unwritten)
}

// What went wrong, on standard error. Where that cannot be written either, there is nobody to tell.
fn complain(rt: &impl Eprint, why: &str) {
    let _ = rt.eprint(why);
}

// The two programs: what differs is the page's size, what writes it, and the words.
pub fn list_input(rt: &(impl Input + Print + Eprint)) {
    let complaints = Complaints {
        unread: "list: the notes could not be read\n",
        unwritten: "list: the page could not be written\n",
    };
    if let Err(why) = print_page(rt, &mut [0; PAGE], listing::write_listing, complaints) {
        complain(rt, why);
    }
}

pub fn total_input(rt: &(impl Input + Print + Eprint)) {
    let complaints = Complaints {
        unread: "page: the notes could not be read\n",
        unwritten: "page: the totals could not be written\n",
    };
    if let Err(why) = print_page(rt, &mut [0; TOTALS], totals::write_totals, complaints) {
        complain(rt, why);
    }
}

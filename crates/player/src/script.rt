// A line of the script, read: a verb, and as many words after it as it takes.
use super::code::decode;
use super::pages::ROWS;
use super::{JOURNAL, LENT, LINE, Sizes};
use session::Own;

// A call, as a script asks for it.
#[derive(Clone, Copy)]
pub(crate) enum Ask<'a> {
    Own(Own, &'a [u8]),
    Lost,
    Message(&'a [u8], &'a [u8]),
    Offer,
    Again,
    Ack(u32),
    NewDay,
    Restart(&'a [u8]),
}

// A line of a script.
#[derive(Clone, Copy)]
pub(crate) enum Line<'a> {
    Ids(&'a [u8], &'a [u8]),
    Lend(Sizes),
    Cut(usize),
    Page(usize),
    Call(Ask<'a>),
}

// ---- numbers

// The number that a word of digits is, leading zeros and all.
fn read_number(word: &[u8]) -> Option<u32> {
    if word.is_empty() {
        return None;
    }
    word.iter().try_fold(0u32, |n, b| {
        let digit = char::from(*b).to_digit(10)?;
        n.checked_mul(10)?.checked_add(digit)
    })
}

// A number that is no more than the most.
fn read_size(word: &[u8], most: usize) -> Option<usize> {
    let n = read_number(word)? as usize;
    if n <= most { Some(n) } else { None }
}

// ---- a verb, by how many words come after it

// A verb alone.
fn of_no_words<'a>(verb: &[u8]) -> Option<Line<'a>> {
    match verb {
        b"lost" => Some(Line::Call(Ask::Lost)),
        b"offer" => Some(Line::Call(Ask::Offer)),
        b"again" => Some(Line::Call(Ask::Again)),
        b"newday" => Some(Line::Call(Ask::NewDay)),
        _ => None,
    }
}

// A verb with bytes. A restart with more than the journal has room for is not in the language.
fn of_bytes<'a>(verb: &[u8], bytes: &'a [u8]) -> Option<Line<'a>> {
    match verb {
        b"open" => Some(Line::Call(Ask::Own(Own::Open, bytes))),
        b"heartbeat" => Some(Line::Call(Ask::Own(Own::Beat, bytes))),
        b"test" => Some(Line::Call(Ask::Own(Own::Ask, bytes))),
        b"close" => Some(Line::Call(Ask::Own(Own::Close, bytes))),
        b"restart" if bytes.len() <= JOURNAL => Some(Line::Call(Ask::Restart(bytes))),
        _ => None,
    }
}

// A verb and one word.
fn of_one_word<'a>(verb: &[u8], word: &[u8], room: &'a mut [u8]) -> Option<Line<'a>> {
    match verb {
        b"ack" => Some(Line::Call(Ask::Ack(read_number(word)?))),
        b"cut" => Some(Line::Cut(read_number(word)? as usize)),
        b"page" => Some(Line::Page(read_size(word, ROWS)?)),
        _ => of_bytes(verb, decode(word, room)?.0),
    }
}

// A verb and two words, which are bytes.
fn of_two_words<'a>(
    verb: &[u8],
    first: &[u8],
    second: &[u8],
    room: &'a mut [u8],
) -> Option<Line<'a>> {
    let (first, room) = decode(first, room)?;
    let (second, _) = decode(second, room)?;
    match verb {
        b"ids" => Some(Line::Ids(first, second)),
        b"message" => Some(Line::Call(Ask::Message(first, second))),
        _ => None,
    }
}

// A verb and three words, which are numbers.
fn of_three_words<'a>(verb: &[u8], reply: &[u8], note: &[u8], line: &[u8]) -> Option<Line<'a>> {
    match verb {
        b"lend" => Some(Line::Lend(Sizes {
            reply: read_size(reply, LENT)?,
            note: read_size(note, LENT)?,
            line: read_size(line, LENT)?,
        })),
        _ => None,
    }
}

// Reads a line: a verb, and as many words after it as it takes, each after exactly one space. What it says in bytes is decoded into the room. None: it is
// not in the language.
pub(crate) fn read_line<'a>(line: &[u8], room: &'a mut [u8]) -> Option<Line<'a>> {
    if LINE < line.len() {
        return None;
    }
    let mut words = line.split(|b| *b == b' ');
    let verb = words.next()?;
    match (words.next(), words.next(), words.next(), words.next()) {
        (None, ..) => of_no_words(verb),
        (Some(word), None, ..) => of_one_word(verb, word, room),
        (Some(first), Some(second), None, _) => of_two_words(verb, first, second, room),
        (Some(reply), Some(note), Some(line), None) => of_three_words(verb, reply, note, line),
        _ => None,
    }
}

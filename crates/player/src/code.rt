// The code of bytes: `|` is byte 1, `\hh` the byte of two hex digits, another byte of 33 to 126 itself, and `-` alone no bytes.
ghost use Rattle.std.specs.Prelude.{◌<◌, length, IfSome};

use answer::BAR;
use std::io;
use std::io::Write;

// ---- a word of the script, decoded

// What a hex digit counts: only the lower-case ones are in the code.
fn hex_value(digit: u8) -> Option<u8>
    ensures { IfSome result (λ n. n < 16) }
{
    match digit {
        b'0'..=b'9' => Some(digit - b'0'),
        b'a'..=b'f' => Some(digit - b'a' + 10),
        _ => None,
    }
}

// The first byte that a word codes, and what is left of the word.
fn first_byte(word: &[u8]) -> Option<(u8, &[u8])>
    ensures { IfSome result (λ r. length r.1.now < length word.now) }
{
    match word {
        [b'|', rest @ ..] => Some((BAR, rest)),
        [b'\\', high, low, rest @ ..] => Some((hex_value(*high)? * 16 + hex_value(*low)?, rest)),
        [b'\\', ..] => None,
        [b @ b'!'..=b'~', rest @ ..] => Some((*b, rest)),
        _ => None,
    }
}

// Writes the bytes that a word codes to the front of the room, and says how many they are. Stays a `while`: a step takes one byte of the word or three.
fn put_bytes(word: &[u8], room: &mut [u8]) -> Option<usize> {
    let mut rest = word;
    let mut n = 0;
    while !rest.is_empty() {
        let (b, after) = first_byte(rest)?;
        *room.get_mut(n)? = b;
        n += 1;
        rest = after;
    }
    Some(n)
}

// The bytes that a word codes, written to the front of the room, and the room that is left. A word codes no more bytes than it has, and a line's room is
// for as many as a line has.
pub(crate) fn decode<'a>(word: &[u8], room: &'a mut [u8]) -> Option<(&'a [u8], &'a mut [u8])> {
    let n = match word {
        b"" => return None,
        b"-" => 0,
        _ => put_bytes(word, room)?,
    };
    let (bytes, left) = room.split_at_mut_checked(n)?;
    Some((bytes, left))
}

// ---- bytes for the transcript, encoded

const DIGITS: [u8; 16] = *b"0123456789abcdef";

// A byte as two hex digits.
fn put_hex(out: &mut impl Write, b: u8) -> io::Result<()> {
    out.write_all(&[
        b'\\',
        DIGITS[usize::from(b / 16)],
        DIGITS[usize::from(b % 16)],
    ])
}

// One byte in the code.
fn put_byte(out: &mut impl Write, b: u8) -> io::Result<()> {
    match b {
        BAR => out.write_all(b"|"),
        b'|' | b'\\' => put_hex(out, b),
        b'!'..=b'~' => out.write_all(&[b]),
        _ => put_hex(out, b),
    }
}

// Bytes in the code: `-` for none, and a lone `-` as a hex byte. Byte by byte to what writes, and by no `Display`: with this, and with a line's numbers in
// a `Text`, the gate's script takes 4 in 100 fewer instructions.
pub(crate) fn put_coded(out: &mut impl Write, bytes: &[u8]) -> io::Result<()> {
    match bytes {
        b"" => out.write_all(b"-"),
        b"-" => put_hex(out, b'-'),
        _ => {
            for b in bytes {
                put_byte(out, *b)?;
            }
            Ok(())
        }
    }
}

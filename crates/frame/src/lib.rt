// Finding a message at the front of the bytes that have come: an opening, `9=`, 1 to 4 digits, `|`, a body of that many bytes, `10=`,
// three digits, `|`. One function for each layer of the definition, its tests in the paper's order.
#![tactic(auto)]

ghost use Rattle.std.specs.Prelude.{◌≡◌, ◌≤◌, length};
ghost use Rattle.frame.specs.Finding.{skip_of, trailer_of, type_ok, body_ok, judge_whole, judge_length, judge_digits, begun, judge_opening, found_by, found_in, body_by, body_in};

use answer::BAR;

// What stands at the front: nothing yet, since bytes are missing; no message, with the bytes to skip; a message, with its length. It stays an enum of three:
// each is an answer of its own, and none is the error of another.
#[derive(Clone, Copy)]
pub enum Found {
    More,
    Garbled(usize),
    Framed(usize),
}

// Why no message stands at the front: bytes are missing and nothing failed, or something failed.
#[derive(Clone, Copy, PartialEq, Eq)]
pub enum Unframed {
    Short,
    Failed,
}

// How far the judging came: the length of a whole message, or why there is none.
pub type Standing = Result<usize, Unframed>;

// "`8=FIX.4.2|`".
pub const OPENING: [u8; 10] = *b"8=FIX.4.2\x01";

// "1 to 4 digits"; "BodyLength is 5 to 4,072"; the trailer is `10=`, three digits, `|`.
const MOST_DIGITS: usize = 4;

const LEAST_BODY: usize = 5;

const MOST_BODY: usize = 4072;

const TRAILER_WIDTH: usize = 7;

// The least p of 1 or more such that the bytes of s from p on agree with o as far as both go. Stays two loops: the paper names this form, the inner
// comparison left by its label at the first byte that differs.
fn skip(o: &[u8], s: &[u8]) -> usize
    ensures { result ≡ skip_of o.now s.now }
{
    let mut p = 1;
    let found = 'search: loop {
        let mut i = 0;
        'compare: loop {
            if o.len() <= i || s.len() <= p + i {
                break 'search p;
            }
            if o[i] != s[p + i] {
                break 'compare;
            }
            i += 1;
        }
        p += 1;
    };
    found
}

// The last field of a message whose bytes before it sum to c: seven bytes, for which a Text has 512.
fn trailer(c: u8) -> [u8; TRAILER_WIDTH]
    ensures { result ≡ trailer_of c }
{
    [
        b'1',
        b'0',
        b'=',
        b'0' + c / 100 % 10,
        b'0' + c / 10 % 10,
        b'0' + c % 10,
        BAR,
    ]
}

// Whether what follows begins with 1 to 3 bytes and `|`.
fn type_ok(t: &[u8]) -> bool
    ensures { result ≡ type_ok t.now }
{
    let k = octet::until(t, BAR);
    1 <= k && k <= 3 && k < t.len()
}

// Whether a body begins `35=`, 1 to 3 bytes, `|`, and ends with `|`.
#[tactic(auto, using(crate::proofs::Steps::rests), unfolding(crate::specs::Finding::body_ok))]
fn body_ok(b: &[u8]) -> bool
    requires { 5 ≤ length b.now }
    ensures { result ≡ body_ok b.now }
{
    octet::agree(b"35=", b) && type_ok(&b[3..]) && b[b.len() - 1] == BAR
}

// The rest when the whole message is there: a body of n bytes from `at` on, and the trailer. That `at` lies within s is asked of this and the next two: each
// steps on, and a struct of both would be made anew at every step.
fn judge_whole(s: &[u8], at: usize, n: usize) -> Standing
    requires { (at ≤ length s.now) × ((5 ≤ n) × (n ≤ 4072)) }
    ensures { result ≡ judge_whole at n s.now }
{
    let end = at + n;
    if s.len() < end + TRAILER_WIDTH {
        return Err(Unframed::Short);
    }
    if !body_ok(&s[at..end]) {
        return Err(Unframed::Failed);
    }
    let t = trailer(text::byte_sum(&s[..end]));
    if !octet::agree(&t, &s[end..]) {
        return Err(Unframed::Failed);
    }
    Ok(end + TRAILER_WIDTH)
}

// The length's value n, where the body begins at `at`.
#[tactic(auto, unfolding(crate::specs::Finding::judge_length))]
fn judge_length(s: &[u8], at: usize, n: usize) -> Standing
    requires { at ≤ length s.now }
    ensures { result ≡ judge_length at n s.now }
{
    match n {
        LEAST_BODY..=MOST_BODY => judge_whole(s, at, n),
        _ => Err(Unframed::Failed),
    }
}

// The length's digits from `at` on, and the `|` after them. A fifth digit fails at once, so no more than five are read.
fn judge_digits(s: &[u8], at: usize) -> Standing
    requires { at ≤ length s.now }
    ensures { result ≡ judge_digits at s.now }
{
    let d = text::read_digits(&s[at..], MOST_DIGITS + 1);
    let width = d.len;
    if MOST_DIGITS < width {
        return Err(Unframed::Failed);
    }
    let end = at + width;
    if s.len() <= end {
        return Err(Unframed::Short);
    }
    if width == 0 || s[end] != BAR {
        return Err(Unframed::Failed);
    }
    judge_length(s, end + 1, d.value as usize)
}

// That s begins with o, as far as bytes have come.
fn begins(o: &[u8], s: &[u8]) -> Result<(), Unframed>
    ensures { result ≡ begun o.now s.now }
{
    if !octet::agree(o, s) {
        return Err(Unframed::Failed);
    }
    if s.len() < o.len() {
        return Err(Unframed::Short);
    }
    Ok(())
}

// The opening o and the length's tag, as far as bytes have come, and what follows them.
#[tactic(auto, using(crate::proofs::Steps::openings))]
fn judge_opening(o: &[u8], s: &[u8]) -> Standing
    ensures { result ≡ judge_opening o.now s.now }
{
    begins(o, s)?;
    begins(b"9=", &s[o.len()..])?;
    judge_digits(s, o.len() + 2)
}

// What stands at the front of s, where a message opens with o.
#[tactic(auto, unfolding(crate::specs::Finding::found_by))]
pub fn find_by(o: &[u8], s: &[u8]) -> Found
    ensures { result ≡ found_by o.now s.now }
{
    match judge_opening(o, s) {
        Err(Unframed::Short) => Found::More,
        Err(Unframed::Failed) => Found::Garbled(skip(o, s)),
        Ok(n) => Found::Framed(n),
    }
}

// What stands at the front of s.
pub fn find(s: &[u8]) -> Found
    ensures { result ≡ found_in s.now }
{
    find_by(&OPENING, s)
}

// The body of the message of that length at the front of s, where it opens with o; of anything else, what stands in its place.
pub fn body_by<'o, 's>(o: &'o [u8], s: &'s [u8], length: usize) -> &'s [u8]
    ensures { result.now ≡ body_by o.now length s.now }
{
    let at = o.len() + 2;
    let rest = &s[at.min(s.len())..];
    let begin = at + octet::run_in(rest, b'0', b'9') + 1;
    octet::part(s, begin, length.saturating_sub(begin + TRAILER_WIDTH))
}

// The body of the message of that length at the front of s.
pub fn body(s: &[u8], length: usize) -> &[u8]
    ensures { result.now ≡ body_in length s.now }
{
    body_by(&OPENING, s, length)
}

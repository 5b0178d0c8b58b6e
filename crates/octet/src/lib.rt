// Bytes in lent memory: compared, measured, cut into parts and copied; and in them numbers, high byte first,
// and texts with a length byte and zero padding.
#![tactic(auto)]

ghost use Rattle.std.specs.List.{list_any};
ghost use Rattle.std.specs.Prelude.{◌==◌, not, ◌≡◌, ◌+◌, ◌-◌, ◌≤◌, ◌++◌, length, get_or, replicate, leb};
ghost use Rattle.octet.specs.Bytes.{same, agree, part, until_byte, run_in, all_in};
ghost use Rattle.octet.specs.Places.{word_at, high, big_endian};
ghost use Rattle.octet.specs.Splice.{splice, fits_at};
ghost use Rattle.octet.specs.Padded.{PutsPadded, text_of, padded_ok};

// The byte at place i, 0 past the end.
pub fn byte_at(s: &[u8], i: usize) -> u8
    ensures { result ≡ get_or s.now i 0 }
{
    s.get(i).copied().unwrap_or(0)
}

// Whether o and s agree as far as both go: one of them begins with the other.
pub fn agree(o: &[u8], s: &[u8]) -> bool
    ensures { result ≡ agree o.now s.now }
{
    s.starts_with(o) || o.starts_with(s)
}

// Whether a and b hold the same bytes: as many, and those agree.
pub fn same(a: &[u8], b: &[u8]) -> bool
    ensures { result ≡ same a.now b.now }
{
    a == b
}

// The n bytes from place `at` on, or as many as there are. Stays three ways out: where it is called with a slice of known length the compiler then drops
// two of them. By `min` an acknowledgement of 512 fills took a sixth more instructions.
pub fn part(s: &[u8], at: usize, n: usize) -> &[u8]
    ensures { result.now ≡ part at n s.now }
{
    if s.len() <= at {
        return &s[..0];
    }
    if s.len() - at <= n {
        return &s[at..];
    }
    &s[at..at + n]
}

// The number that the eight bytes at a place are, low byte first, and 0 where there are not eight, as it promises. Texts that differ in it
// are not the same, and it is read at once.
pub fn word_at(s: &[u8], at: usize) -> u64
    ensures { result ≡ word_at at s.now }
{
    match part(s, at, 8).as_array() {
        Some(eight) => u64::from_le_bytes(*eight),
        None => 0,
    }
}

// How many bytes stand before the first b.
pub fn until(s: &[u8], b: u8) -> usize
    ensures { result ≡ until_byte b s.now }
{
    s.iter().position(|x| *x == b).unwrap_or(s.len())
}

// So many bytes are compared at once.
const MANY: usize = 16;

// Whether none of many bytes is b. There is no way out before the last, so that the compiler compares them at once. `contains` would be a call each time,
// wherever other code calls it too.
fn none_of(s: &[u8], b: u8) -> bool
    ensures { result ≡ not (list_any (λ x. x == b) s.now) }
{
    s.iter().fold(true, |none, x| none & (*x != b))
}

// How many bytes stand before the first b, where these may be many: as long as none of them is b they are passed over many at once.
// Stays a `while`: how far it goes is told by what it finds.
pub fn until_far(s: &[u8], b: u8) -> usize
    ensures { result ≡ until_byte b s.now }
{
    let mut rest = s;
    while let Some(many) = rest.first_chunk::<MANY>()
        && none_of(many, b)
    {
        rest = &rest[MANY..];
    }
    s.len() - rest.len() + until(rest, b)
}

// How many bytes at the front are of low to high.
pub fn run_in(s: &[u8], low: u8, high: u8) -> usize
    ensures { result ≡ run_in low high s.now }
{
    s.iter()
        .position(|b| !(low <= *b && *b <= high))
        .unwrap_or(s.len())
}

// Whether many bytes are of low to high, compared at once: again with no way out before the last.
fn many_in(s: &[u8], low: u8, high: u8) -> bool
    ensures { result ≡ all_in low high s.now }
{
    s.iter()
        .fold(true, |all, b| all & (low <= *b) & (*b <= high))
}

// How many bytes at the front are of low to high, where these may be many.
pub fn run_far(s: &[u8], low: u8, high: u8) -> usize
    ensures { result ≡ run_in low high s.now }
{
    if let Some((many, after)) = s.split_first_chunk::<MANY>()
        && many_in(many, low, high)
    {
        return MANY + run_in(after, low, high);
    }
    run_in(s, low, high)
}

// Whether each byte is one of low to high.
pub fn all_in(s: &[u8], low: u8, high: u8) -> bool
    ensures { result ≡ all_in low high s.now }
{
    s.iter().all(|b| low <= *b && *b <= high)
}

// Whether there are n places in dst from place `at` on.
fn has_room(dst: &[u8], at: usize, n: usize) -> bool
    ensures { result ≡ leb (at + n) (length dst.now) }
{
    at <= dst.len() && n <= dst.len() - at
}

// Writes src over dst from place `at` on. Where it does not fit nothing changes, and the answer is false. Byte by byte, since of a `copy_from_slice` that is
// inlined where dst may be anything there stays a call of `memmove`, a name that the archive for C would need from outside.
pub fn copy_into(dst: &mut [u8], at: usize, src: &[u8]) -> bool
    ensures { (result ≡ fits_at dst.old at src.now) × (dst.new ≡ splice dst.old at src.now) }
{
    if !has_room(dst, at, src.len()) {
        return false;
    }
    for (i, b) in src.iter().enumerate() {
        dst[at + i] = *b;
    }
    true
}

// The N bytes at a place: where there are fewer, these, and zeros before them. Where there are so many they are read at once.
fn bytes_at<const N: usize>(s: &[u8], at: usize) -> [u8; N]
    ensures { result ≡ replicate (N - length (part at N s.now)) 0 ++ part at N s.now }
{
    let cut = part(s, at, N);
    if let Some(all) = cut.as_array() {
        return *all;
    }
    let mut bytes = [0; N];
    let low = &mut bytes[..];
    low[N - cut.len()..].copy_from_slice(cut);
    bytes
}

// The number of the four bytes at a place, or of as many as there are. Four and eight bytes have public names, read and written, each a line over what is
// generic.
pub fn four_at(s: &[u8], at: usize) -> u32
    ensures { result ≡ big_endian (part at 4 s.now) }
{
    u32::from_be_bytes(bytes_at(s, at))
}

// The number of the eight bytes at a place, or of as many as there are.
pub fn eight_at(s: &[u8], at: usize) -> u64
    ensures { result ≡ big_endian (part at 8 s.now) }
{
    u64::from_be_bytes(bytes_at(s, at))
}

// Writes n in four bytes.
pub fn put_four(dst: &mut [u8], at: usize, n: u32) -> bool
    ensures { (result ≡ fits_at dst.old at (high 4 n)) × (dst.new ≡ splice dst.old at (high 4 n)) }
{
    copy_into(dst, at, &n.to_be_bytes())
}

// Writes n in eight bytes.
pub fn put_eight(dst: &mut [u8], at: usize, n: u64) -> bool
    ensures { (result ≡ fits_at dst.old at (high 8 n)) × (dst.new ≡ splice dst.old at (high 8 n)) }
{
    copy_into(dst, at, &n.to_be_bytes())
}

// Writes n zeros over dst from place `at` on. Where they do not fit nothing changes, and the answer is false.
pub fn put_zeros(dst: &mut [u8], at: usize, n: usize) -> bool
    ensures { (result ≡ fits_at dst.old at (replicate n 0)) × (dst.new ≡ splice dst.old at (replicate n 0)) }
{
    if !has_room(dst, at, n) {
        return false;
    }
    dst[at..at + n].fill(0);
    true
}

// Writes the text t over dst from place `at` on, as a field of that width: a length byte, the text, zero padding. Where
// the field does not hold the text, or dst not the field, nothing changes, and the answer is false.
pub fn put_padded(dst: &mut [u8], at: usize, width: usize, t: &[u8]) -> bool
    ensures { PutsPadded dst.old at width t.now result dst.new }
{
    let Ok(len) = u8::try_from(t.len()) else {
        return false;
    };
    if width <= t.len() || !has_room(dst, at, width) {
        return false;
    }
    dst[at] = len;
    let text = at + 1;
    copy_into(dst, text, t);
    put_zeros(dst, text + t.len(), width - 1 - t.len());
    true
}

// The text of such a field.
#[tactic(auto, unfolding(crate::specs::Padded::text_of))]
pub fn text_of(f: &[u8]) -> &[u8]
    ensures { result.now ≡ text_of f.now }
{
    part(f, 1, usize::from(byte_at(f, 0)))
}

// Whether f is so formed: a text of `least` bytes or more, each of low to high, and zeros after it.
#[tactic(auto, unfolding(crate::specs::Padded::padded_ok))]
pub fn padded_ok(f: &[u8], least: usize, low: u8, high: u8) -> bool
    ensures { result ≡ padded_ok least low high f.now }
{
    let n = usize::from(byte_at(f, 0));
    least <= n
        && n <= f.len().saturating_sub(1)
        && all_in(text_of(f), low, high)
        && all_in(part(f, n + 1, f.len()), 0, 0)
}

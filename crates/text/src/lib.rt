// Texts: decimal numbers read and written, a text that is being written, fields, and the byte sum.
#![tactic(auto)]

ghost use Rattle.std.specs.Prelude.{◌≡◌, ◌+◌, ◌/◌, ◌%◌, ◌^◌, ◌≤◌, [], ◌∷◌, ◌++◌, length, take, if◌then◌else◌};
ghost use Rattle.octet.specs.Bytes.{bytes_of};
ghost use Rattle.octet.specs.Splice.{splice, fits_at};
ghost use Rattle.text.specs.Decimal.{digits_at_front, Fits, decimal, fixed, price_text, check_sum};
ghost use Rattle.text.specs.Fields.{◌is◌, field_bytes};
ghost use Rattle.text.specs.Writing.{empty, puts, held};

use answer::BAR;
use octet::copy_into;

// How many digits there are at the front, and the number that they write.
#[derive(Clone, Copy)]
pub struct Digits {
    pub len: usize,
    pub value: u32,
}

// A u32 holds any number of so many digits.
const MOST_DIGITS: usize = 9;

// The digits at the front of s, at most `most` of them: the one loop over digits.
pub fn read_digits(s: &[u8], most: usize) -> Digits
    ensures value { result ≡ digits_at_front most s.now }
    ensures fits { Fits most s.now result }
{
    let end = most.min(MOST_DIGITS).min(s.len());
    let mut value = 0;
    for (len, b) in s[..end].iter().enumerate() {
        if !b.is_ascii_digit() {
            return Digits { len, value };
        }
        value = value * 10 + u32::from(*b - b'0');
    }
    Digits { len: end, value }
}

// "CheckSum is the sum of all bytes before `10=`, modulo 256".
pub fn byte_sum(s: &[u8]) -> u8
    ensures { result ≡ check_sum s.now }
{
    s.iter().fold(0, |total: u8, b| total.wrapping_add(*b))
}

// A text has room for so many bytes.
pub const ROOM: usize = 512;

// A text that is being written: the first len of bytes. What does not fit is left out. The bytes stay an array with a length: no memory is taken from
// the heap.
#[derive(Clone, Copy)]
pub struct Text {
    pub bytes: [u8; ROOM],
    pub len: usize,
}

// A price is kept in ten-thousandths, and written with four decimals.
const PARTS: u64 = 10000;

const DECIMALS: usize = 4;

// What puts more to a text is lent it: one array serves many calls, and is not copied.
impl Text {
    #[tactic(auto, unfolding(crate::specs::Writing::empty))]
    pub fn new() -> Text
        ensures { result ≡ empty }
    {
        Text {
            bytes: [0; ROOM],
            len: 0,
        }
    }

    // One byte more. The length is read once, before the byte is written: the compiler cannot tell that the byte is none of
    // the length's, and would read it again.
    #[tactic(auto, unfolding(crate::specs::Writing::puts))]
    pub fn put(&mut self, x: u8)
        ensures { self.new ≡ puts self.old (x ∷ []) }
    {
        let len = self.len;
        if len < ROOM {
            self.bytes[len] = x;
            self.len = len + 1;
        }
    }

    // The bytes of s one by one, as far as there is room.
    #[tactic(auto, using(crate::proofs::Puts::putting))]
    fn each(&mut self, s: &[u8])
        ensures { self.new ≡ puts self.old s.now }
    {
        for x in s {
            self.put(*x);
        }
    }

    // All bytes of s more: at once where there is room for them. The length is read first: the array is lent then.
    pub fn all(&mut self, s: &[u8])
        ensures { self.new ≡ puts self.old s.now }
    {
        let len = self.len;
        if copy_into(&mut self.bytes, len, s) {
            self.len = len + s.len();
        } else {
            self.each(s);
        }
    }

    // The first n bytes of s more, or all of s where it has fewer.
    #[tactic(auto, using(crate::proofs::Puts::fronts))]
    pub fn part(&mut self, s: &[u8], n: usize)
        ensures { self.new ≡ puts self.old (take n s.now) }
    {
        self.all(&s[..n.min(s.len())]);
    }

    // A number of any length: those before its last digit are the digits of n / 10.
    #[tactic(auto, using(crate::proofs::Puts::putting, crate::proofs::Decimals::decimals))]
    fn digits(&mut self, n: u64)
        ensures { self.new ≡ puts self.old (decimal n) }
    {
        if 10 <= n {
            self.digits(n / 10);
        }
        self.put(last_digit(n));
    }

    // A number more, "no leading zeros". A tag, like most numbers, has one to three digits: these are put one by one, so that
    // the compiler knows the digits of each tag that stands in the code.
    #[tactic(auto, using(crate::proofs::Puts::putting, crate::proofs::Decimals::decimals))]
    pub fn decimal(&mut self, n: u64)
        ensures { self.new ≡ puts self.old (decimal n) }
    {
        if 1000 <= n {
            self.digits(n);
            return;
        }
        if 100 <= n {
            self.put(last_digit(n / 100));
        }
        if 10 <= n {
            self.put(last_digit(n / 10));
        }
        self.put(last_digit(n));
    }

    // The lowest `width` digits of a number more, leading zeros among them.
    #[tactic(auto, using(crate::proofs::Puts::putting, crate::proofs::Decimals::fixeds))]
    pub fn fixed(&mut self, width: usize, n: u64)
        ensures { self.new ≡ puts self.old (fixed width n) }
    {
        for left in (0..width).rev() {
            self.put(digit_of(n, left));
        }
    }

    // A "price with four decimals" more, of ten-thousandths.
    #[tactic(auto, using(crate::proofs::Puts::putting), unfolding(crate::specs::Decimal::price_text))]
    pub fn price(&mut self, p: u64)
        ensures { self.new ≡ puts self.old (price_text p) }
    {
        self.decimal(p / PARTS);
        self.put(b'.');
        self.fixed(DECIMALS, p);
    }

    // tag=
    #[tactic(auto, using(crate::proofs::Puts::putting))]
    fn tag(&mut self, tag: u32)
        ensures { self.new ≡ puts self.old (decimal tag ++ bytes_of "=") }
    {
        self.decimal(u64::from(tag));
        self.put(b'=');
    }

    // tag=value|, where the value is the first n bytes of v.
    #[tactic(auto, using(crate::proofs::Puts::putting), unfolding(crate::specs::Fields::field_bytes))]
    pub fn field(&mut self, tag: u32, v: &[u8], n: usize)
        ensures { self.new ≡ puts self.old (field_bytes (tag is take n v.now)) }
    {
        self.tag(tag);
        self.part(v, n);
        self.put(BAR);
    }

    // tag=n|
    #[tactic(auto, using(crate::proofs::Puts::putting), unfolding(crate::specs::Fields::field_bytes))]
    pub fn number(&mut self, tag: u32, n: u32)
        ensures { self.new ≡ puts self.old (field_bytes (tag is decimal n)) }
    {
        self.tag(tag);
        self.decimal(u64::from(n));
        self.put(BAR);
    }

    // tag=x|
    #[tactic(auto, using(crate::proofs::Puts::putting), unfolding(crate::specs::Fields::field_bytes))]
    pub fn letter(&mut self, tag: u32, x: u8)
        ensures { self.new ≡ puts self.old (field_bytes (tag is x ∷ [])) }
    {
        self.tag(tag);
        self.put(x);
        self.put(BAR);
    }

    // What it holds.
    #[tactic(auto, using(crate::proofs::Puts::fronts), unfolding(crate::specs::Writing::held))]
    pub fn held(&self) -> &[u8]
        ensures { result.now ≡ held self.now }
    {
        &self.bytes[..self.len.min(ROOM)]
    }

    // Writes what it holds at a place of dst, and says where that ends; where it does not fit, nothing.
    pub fn place(&self, dst: &mut [u8], at: usize) -> usize
        ensures dst_after { dst.new ≡ splice dst.old at (held self.now) }
        ensures value { result ≡ (if fits_at dst.old at (held self.now) then at + length (held self.now) else at) }
    {
        let held = self.held();
        if copy_into(dst, at, held) {
            return at + held.len();
        }
        at
    }
}

// The digit that a number ends with.
fn last_digit(n: u64) -> u8
    ensures { result ≡ 48 + n % 10 }
{
    b'0' + (n % 10) as u8
}

// The digit of n that has k digits after it: `pow` would loop as often.
#[tactic(auto, using(crate::proofs::Decimals::tenths))]
fn digit_of(n: u64, k: usize) -> u8
    ensures { result ≡ 48 + n / 10 ^ k % 10 }
{
    let mut rest = n;
    for _ in 0..k {
        rest /= 10;
    }
    last_digit(rest)
}

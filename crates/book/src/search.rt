// The slots that a search goes over, from the last to the first or from the first on. A report's time goes here: a slot is told from what is looked
// for at a glance, and nothing but the comparisons stands in the loop.
ghost use Rattle.std.specs.Prelude.{◌≡◌, ◌≤◌, length, eqb};
ghost use Rattle.octet.specs.Bytes.{same};
ghost use Rattle.octet.specs.Places.{word_at};
ghost use Rattle.fill.specs.Slot.{slot_width};
ghost use Rattle.book.specs.Memory.{most_slots, slots_here};

use super::{BOOK, SLOTS, SLOTS_SIZE};
use fill::{ID, SLOT};

// An ID that is looked for, and eight bytes of it by which others are told from it at a glance.
#[derive(Clone, Copy)]
pub(crate) struct Sought<'a> {
    pub(crate) id: &'a [u8],
    at: usize,
    word: u64,
    ghost told: { word ≡ word_at at id.now },
}

impl<'a> Sought<'a> {
    // The eight bytes are the last of the ID's text, as they stand in its field. Which they are decides only how soon others are told from it: the IDs of
    // a day share their front.
    pub(crate) fn new(id: &'a [u8]) -> Sought<'a>
        ensures { result.id.now ≡ id.now }
    {
        let at = usize::from(octet::byte_at(id, 0))
            .saturating_sub(7)
            .min(ID - 8);
        Sought {
            id,
            at,
            word: octet::word_at(id, at),
        }
    }

    // Whether an ID may be this one: it has those eight bytes.
    #[inline(always)]
    pub(crate) fn may_be(&self, id: &[u8]) -> bool
        ensures { result ≡ eqb (word_at self.now.at id.now) self.now.word }
    {
        octet::word_at(id, self.at) == self.word
    }

    // Whether an ID is this one.
    #[inline(always)]
    pub(crate) fn is(&self, id: &[u8]) -> bool
        ensures { result ≡ same self.now.id.now id.now }
    {
        self.may_be(id) && same_id(self.id, id)
    }
}

// Whether two fields of an ID hold the same bytes: three words say it of fields of full width. Stays
// three comparisons: `==` is a call for 21 bytes.
pub(crate) fn same_id(x: &[u8], y: &[u8]) -> bool
    ensures { result ≡ same x.now y.now }
{
    if x.len() != ID || y.len() != ID {
        return octet::same(x, y);
    }
    octet::word_at(x, 0) == octet::word_at(y, 0)
        && octet::word_at(x, 8) == octet::word_at(y, 8)
        && octet::word_at(x, ID - 8) == octet::word_at(y, ID - 8)
}

// So many slots, from the front of those that the lent memory has room for. The memory is bytes, as it is lent: it is cut into slots where one is looked at.
#[derive(Clone, Copy)]
pub(crate) struct Slots<'a> {
    all: &'a [u8],
    count: usize,
    ghost inside: { (count ≤ most_slots) × (length all.now ≡ slots_here.wide) },
}

impl<'a> Slots<'a> {
    ghost use Rattle.std.specs.Prelude.{◌<◌, min};
    ghost use Rattle.std.specs.Fn.{FnReturnsAt};
    ghost use Rattle.book.specs.Memory.{region_of, cell_at};
    ghost use Rattle.book.specs.Seeing.{FindsFirst, FindsLast};

    // The first of the day's slots: those past the end of the memory are empty, and no search looks for one.
    pub(crate) fn of(book: &'a [u8; BOOK], count: usize) -> Slots<'a>
        ensures { (result.all.now ≡ region_of slots_here book.now) × (result.count ≡ min count most_slots) }
    {
        let all = &book[..];
        Slots {
            all: &all[..SLOTS_SIZE],
            count: count.min(SLOTS),
        }
    }

    // The first i of them.
    pub(crate) fn front(&self, i: usize) -> Slots<'a>
        requires { i ≤ self.now.count }
        ensures { (result.all.now ≡ self.now.all.now) × (result.count ≡ i) }
    {
        Slots {
            all: self.all,
            count: i,
        }
    }

    // The i-th of them, from 0.
    pub(crate) fn at(&self, i: usize) -> &'a [u8]
        requires { i < self.now.count }
        ensures { result.now ≡ cell_at slot_width i self.now.all.now }
    {
        &self.all[i * SLOT..i * SLOT + SLOT]
    }

    // The place of the first that passes a test. A `for` here and below: its invariant says what no slot before it passes, and `find` hands out a number alike.
    pub(crate) fn first<F: Fn(&[u8]) -> bool>(&self, passes: F) -> Option<usize>
        requires { F.IsAlwaysCallable passes }
        ensures { FindsFirst (FnReturnsAt F.Fn passes) self.now.all.now self.now.count result }
    {
        for i in 0..self.count {
            if passes(self.at(i)) {
                return Some(i);
            }
        }
        None
    }

    // The place of the last that passes it.
    pub(crate) fn last<F: Fn(&[u8]) -> bool>(&self, passes: F) -> Option<usize>
        requires { F.IsAlwaysCallable passes }
        ensures { FindsLast (FnReturnsAt F.Fn passes) self.now.all.now self.now.count result }
    {
        for i in (0..self.count).rev() {
            if passes(self.at(i)) {
                return Some(i);
            }
        }
        None
    }
}

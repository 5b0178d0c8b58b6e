// An entry among the day's slots: it is known by its key, and looks at entries alone.
ghost use Rattle.std.specs.Prelude.{◌≡◌, true, ◌&&◌, ltb};
ghost use Rattle.octet.specs.Maybe.{find};
ghost use Rattle.fill.specs.Slot.{slot_width, is_entry};
ghost use Rattle.book.specs.Entries.{same_key, entry_room};
ghost use Rattle.book.specs.Memory.{most_slots, slots_here, region_of, cells, slots_in, rows_in};
ghost use Rattle.book.specs.Admitting.{with_entry, stopped, admit_of};
ghost use Rattle.book.specs.Seeing.{found_at};

use super::{Admitted, BOOK, Booking, ENTRIES, Load, SLOTS, Slots, Sought, slot_at};
use answer::{Fault, reasons, tags};

// The place of the first of them that is an entry with the key of slot. Keys are told apart at a glance, as IDs are.
fn find_key(slots: &Slots, slot: &[u8]) -> Option<usize>
    ensures { found_at slots.now.all.now result ≡ find (same_key slot.now) (cells slot_width slots.now.count slots.now.all.now) }
{
    let key = Sought::new(fill::key_of(slot));
    slots.first(|s| key.is(fill::key_of(s)) && fill::is_entry(s))
}

// The same of all that are counted.
fn look_for(book: &[u8; BOOK], count: usize, slot: &[u8]) -> Option<usize>
    ensures { found_at (region_of slots_here book.now) result ≡ find (same_key slot.now) (slots_in count book.now) }
{
    find_key(&Slots::of(book, count), slot)
}

// "call refusal 5 also at 256 such entries", with a slot for one more after the last.
fn has_room(last: usize, entries: u32) -> bool
    ensures { result ≡ ltb last most_slots && entry_room entries }
{
    last < SLOTS && entries < ENTRIES
}

// One entry more.
fn with_entry(load: Load) -> Load
    requires { entry_room load.entries ≡ true }
    ensures { result ≡ stopped (with_entry load) }
{
    Load {
        entries: load.entries + 1,
        ..load
    }
}

// What becomes of an entry among the day's, by one walk over them: "a known key with other contents is Reject 5 naming ExecTransType's tag".
pub(crate) fn admit_entry(book: &[u8; BOOK], last: usize, load: Load, slot: &[u8]) -> Admitted
    requires { is_entry slot.now ≡ true }
    ensures { result ≡ admit_of (slots_in last book.now) (rows_in load.orders book.now) load slot.now }
{
    match look_for(book, last, slot) {
        None if has_room(last, load.entries) => Admitted::New(Booking {
            load: with_entry(load),
            row: 0,
            stepped: false,
        }),
        None => Admitted::Full,
        Some(i) if octet::same(slot, slot_at(book, i)) => Admitted::Already,
        Some(_) => Admitted::Clash(Fault::of(reasons::WRONG_VALUE, tags::TRANSACTION)),
    }
}

// Bytes one after another, at the front of memory that is lent: a line of the script that comes in pieces, and the journal.
// An array with a length: no memory is taken from the heap.
ghost use Rattle.std.specs.Prelude.{◌≤◌, length};

#[derive(Drop)]
pub(crate) struct Store<'a> {
    room: &'a mut [u8],
    len: usize,
    ghost within: { len ≤ length room.now },
}

impl<'a> Store<'a> {
    pub(crate) fn new(room: &'a mut [u8]) -> Store<'a> {
        Store { room, len: 0 }
    }

    pub(crate) fn bytes(&self) -> &[u8] {
        let room = &*self.room;
        &room[..self.len]
    }

    pub(crate) fn clear(&mut self) {
        self.len = 0;
    }

    // Bytes more, where there is room for all of them. It answers whether there is.
    pub(crate) fn add(&mut self, s: &[u8]) -> bool {
        let room = &mut *self.room;
        let Some(left) = room[self.len..].get_mut(..s.len()) else {
            return false;
        };
        left.copy_from_slice(s);
        self.len += s.len();
        true
    }

    // As many of the bytes more as there is room for.
    pub(crate) fn fill(&mut self, s: &[u8]) {
        let n = s.len().min(self.room.len() - self.len);
        self.add(&s[..n]);
    }
}

//! Bytes in memory that was allocated beforehand.
ghost use Rattle.std.specs.Prelude.{◌≡◌, ◌≤◌, ◌-◌, ◌++◌, [], IfOk, min, length, take, vec_capacity};

use crate::NoMemory;

/// Bytes, with memory for `room` bytes in all.
#[derive(Drop)]
pub struct Store {
    pub bytes: Vec<u8>,
    pub room: usize,
    ghost roomy: { room ≤ vec_capacity bytes },
}

impl Store {
    /// Returns these bytes, with memory for `room` bytes. If there are more bytes than that, they are kept, and nothing can be
    /// added.
    pub fn new(bytes: Vec<u8>, room: usize) -> Result<Store, NoMemory>
        ensures bytes { IfOk result (λ store. store.bytes.items ≡ bytes.items) }
        ensures room { IfOk result (λ store. store.room ≡ room) }
    {
        let mut bytes = bytes;
        bytes.reserve_exact(room.saturating_sub(bytes.len()))?;
        Ok(Store { bytes, room })
    }

    /// Appends a prefix of the bytes, at most `piece`, as far as the capacity allows. Allocates no memory.
    pub fn add(&mut self, more: &[u8], piece: usize) -> usize
        ensures count { result ≡ min piece (min (length more.now) (self.old.room - length self.old.bytes.items)) }
        ensures bytes { self.new.bytes.items ≡ self.old.bytes.items ++ take result more.now }
        ensures room { self.new.room ≡ self.old.room }
    {
        let free = self.room.saturating_sub(self.bytes.len());
        let count = piece.min(more.len().min(free));
        self.bytes.extend_from_slice(&more[..count]).unwrap();
        count
    }

    /// Removes the bytes, and keeps the memory.
    pub fn clear(&mut self)
        ensures bytes { self.new.bytes.items ≡ [] }
        ensures room { self.new.room ≡ self.old.room }
    {
        self.bytes.clear();
    }
}

ghost use Rattle.std.specs.Prelude.{◌≡◌, ◌↔◌, ◌≤◌, ◌<◌, ◌++◌, [], length, take, drop, min};

use crate::List;
use std::marker::Model;

/// The bytes that a source in memory has left.
#[derive(Debug, Drop)]
pub struct Remaining {
    bytes: List<u8>,
    /// How many were given.
    given: usize,
}

impl Model for Remaining {
    ghost use Rattle.std.specs.Prelude.{List, ℕ, ◌≤◌, length, drop};

    ghost Value = { List ℕ };

    ghost view = { λ r. drop r.given r.bytes };

    ghost invariant = { λ r. r.given ≤ length r.bytes };
}

impl Remaining {
    pub fn new(bytes: List<u8>) -> Remaining
        ensures { result ≡ bytes }
    {
        Remaining { bytes, given: 0 }
    }

    /// Moves bytes into the front of the room: as many as fit there, and no more than `most`.
    pub fn give(&mut self, most: usize, room: &mut [u8]) -> usize
        ensures amount { result ≡ min most (min (length self.old) (length room.old)) }
        ensures end { 0 < most → 0 < length room.old → (result ≡ 0) ↔ (self.old ≡ []) }
        ensures bytes { self.old ≡ take result room.new ++ self.new }
    {
        let (_, left) = self.bytes.as_slice().split_at(self.given);
        let count = most.min(left.len().min(room.len()));
        room[..count].copy_from_slice(&left[..count]);
        self.given += count;
        count
    }
}

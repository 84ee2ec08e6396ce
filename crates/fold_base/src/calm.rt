// A source and a sink that never fail.
ghost use Rattle.std.specs.Prelude.{◌≡◌, ◌≤◌, ◌<◌, None, Some, Ok, length, min, max, IfOk};
ghost use Rattle.fold_base.specs.Outside.{HasCause, Gives, Gains, MarksEnd, bytes_moved};

use crate::remaining::Remaining;
use crate::{Failed, List, Sink, Source};

/// Gives bytes of its own in pieces, and never fails.
#[derive(Debug, Drop)]
pub struct CalmSource {
    remaining: Remaining,
    piece: u32,
    ghost some: { 0 < piece },
}

impl CalmSource {
    ghost use Rattle.fold_base.specs.Calm.{calm_left, calm_piece};

    /// Gives at most `piece` bytes a call, or one where that is 0.
    pub fn new(bytes: List<u8>, piece: u32) -> CalmSource
        ensures bytes { calm_left result ≡ bytes }
        ensures piece { calm_piece result ≡ max piece 1 }
    {
        CalmSource {
            remaining: Remaining::new(bytes),
            piece: piece.max(1),
        }
    }
}

impl Source for CalmSource {
    ghost use Rattle.fold_base.specs.Calm.{calm_left, calm_piece};

    ghost left = { λ s. Some (calm_left s) };

    ghost faults = { λ _. 0 };

    fn take(&mut self, room: &mut [u8]) -> Result<usize, Failed>
        requires { 0 < length room.old }
        ensures within { IfOk result (λ n. n ≤ length room.new) }
        ensures bytes { Gives (Some (calm_left self.old)) (Some (calm_left self.new)) (bytes_moved result room.new) }
        ensures end { IfOk result (MarksEnd (Some (calm_left self.old))) }
        ensures cause { HasCause 0 0 result }

        // It gives as much as it can.
        ensures amount { result ≡ Ok (min (calm_piece self.old) (min (length (calm_left self.old)) (length room.old))) }
        ensures piece { calm_piece self.new ≡ calm_piece self.old }
    {
        Ok(self.remaining.give(self.piece as usize, room))
    }
}

/// Takes every piece whole, keeps none of its bytes and tells nothing of them. It never fails.
#[derive(Clone, Copy, Debug, Default)]
pub struct CalmSink;

impl CalmSink {
    pub fn new() -> CalmSink {
        CalmSink
    }
}

impl Sink for CalmSink {
    ghost written = { λ _. None };

    ghost faults = { λ _. 0 };

    fn put(&mut self, bytes: &[u8]) -> Result<usize, Failed>
        requires { 0 < length bytes.now }
        ensures some { IfOk result (λ n. 0 < n) }
        ensures within { IfOk result (λ n. n ≤ length bytes.now) }
        ensures bytes { Gains None None (bytes_moved result bytes.now) }
        ensures cause { HasCause 0 0 result }
        ensures whole { result ≡ Ok (length bytes.now) }
    {
        Ok(bytes.len())
    }
}

// What code that is generic over the outside knows of it.
ghost use Rattle.std.specs.Prelude.{◌≡◌, ◌+◌, ◌≤◌, ◌<◌, ◌++◌, List, ℕ, length, IfOk, OnOk};
ghost use Rattle.std.specs.declared.option.Option.{Option};
ghost use Rattle.fold_base.specs.Outside.{HasCause, Gives, Gains, MarksEnd, bytes_moved};

use std::alloc::AllocError;
use thiserror::Error;

/// The most bytes that a text may have.
pub const MOST_BYTES: u32 = 16_777_216;

/// The outside failed: its count of faults has risen, or stands at the last value of a `u64`.
#[derive(Clone, Copy, Debug, PartialEq, Eq, Error)]
#[error("a source or a sink failed")]
pub struct Failed;

/// Where bytes come from.
///
/// After each call, also one that fails, a source tells its bytes exactly where it told them
/// before, and what wasn't taken is left in its order.
pub trait Source {
    /// The bytes that are left, where the source tells them.
    ghost left: { Self → Option (List ℕ) };

    /// A count of faults. It never falls.
    ghost faults: { Self → ℕ };

    /// Moves bytes that are left into the front of the room. `Ok(0)` is the end of input.
    fn take(&mut self, room: &mut [u8]) -> Result<usize, Failed>
        requires { 0 < length room.old }
        ensures within { IfOk result (λ n. n ≤ length room.new) }
        ensures bytes { Gives (left self.old) (left self.new) (bytes_moved result room.new) }
        ensures end { IfOk result (MarksEnd (left self.old)) }
        ensures cause { HasCause (faults self.old) (faults self.new) result };
}

/// Where bytes go.
///
/// After each call, also one that fails, a sink tells its bytes exactly where it told them before,
/// and those written before stand as they were.
pub trait Sink {
    /// The bytes that were written, where the sink tells them.
    ghost written: { Self → Option (List ℕ) };

    /// A count of faults. It never falls.
    ghost faults: { Self → ℕ };

    /// Appends the front of the bytes, at least one of them, and says how many.
    fn put(&mut self, bytes: &[u8]) -> Result<usize, Failed>
        requires { 0 < length bytes.now }
        ensures some { IfOk result (λ n. 0 < n) }
        ensures within { IfOk result (λ n. n ≤ length bytes.now) }
        ensures bytes { Gains (written self.old) (written self.new) (bytes_moved result bytes.now) }
        ensures cause { HasCause (faults self.old) (faults self.new) result };
}

/// What is handed the pieces of a text, one after another. It need not keep them.
pub trait PieceTaker {
    /// How many bytes it has taken.
    ghost count: { Self → ℕ };

    /// It has taken this text.
    ghost has_taken: { Self → List ℕ → Type 0 };

    /// Takes the next piece of each text that it has taken so far. After an error nothing is known of it.
    fn take_piece(&mut self, piece: &[u8]) -> Result<(), AllocError>
        requires { count self.old + length piece.now ≤ MOST_BYTES }
        ensures count { OnOk result (count self.new ≡ count self.old + length piece.now) }
        ensures text { OnOk result ((text : List ℕ) → has_taken self.old text → has_taken self.new (text ++ piece.now)) };
}

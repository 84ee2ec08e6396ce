// A source read to its end, and bytes written whole.
ghost use Rattle.std.specs.Prelude.{◌≡◌, ◌≤◌, ◌<◌, [], ◌++◌, List, ℕ, length, IfOk, IfSome, OnOk, OnErr, Err};
ghost use Rattle.fold_base.specs.Outside.{HasCause, Rose, Gives, Gains, GainsPart, IsSpent};
ghost use Rattle.fold_base.specs.Pieces.{TakesUpTo, TookEach};

use crate::outside::MOST_BYTES;
use crate::{Failed, PieceTaker, Sink, Source};
use std::alloc::AllocError;
use thiserror::Error;

const ROOM: usize = 4096;

/// Why a source wasn't read to its end.
#[derive(Clone, Copy, Debug, PartialEq, Eq, Error)]
pub enum ReadFault {
    #[error("the source failed")]
    Failed,
    /// It gave more than [`MOST_BYTES`] bytes.
    #[error("the source gave more than {MOST_BYTES} bytes")]
    TooLong,
    #[error(transparent)]
    Memory(AllocError),
}

impl From<AllocError> for ReadFault {
    ghost use Rattle.fold_base.specs.declared.pieces.ReadFault.TheVariants.{Memory};

    ghost from_gives = { λ error fault. fault ≡ Memory error };

    fn from(error: AllocError) -> ReadFault {
        ReadFault::Memory(error)
    }
}

/// Reads to the end of input, hands each piece on, and says how many bytes there were.
///
/// It needs no memory of its own. Reading stops at the first byte past [`MOST_BYTES`], which is
/// not handed on.
pub fn read_pieces<S: Source, P: PieceTaker>(
    source: &mut S,
    taker: &mut P,
) -> Result<u32, ReadFault>
    requires nothing { P.has_taken taker.old [] }
    requires none { P.count taker.old ≡ 0 }

    // All that were left were handed on, and the source stands at its end.
    ensures count { IfOk result (λ n. P.count taker.new ≡ n) }
    ensures whole { OnOk result (IfSome (S.left source.old) (P.has_taken taker.new)) }
    ensures end { OnOk result (IsSpent (S.left source.new)) }

    // Whatever the answer is, a front of the bytes was handed on, the rest of what was taken came
    // next, and the others are left in their order.
    ensures taken { (handed : List ℕ) × (rest : List ℕ)
        × Gives (S.left source.old) (S.left source.new) (handed ++ rest)
        × TakesUpTo result handed rest
        × (TookEach result → P.has_taken taker.new handed × (P.count taker.new ≡ length handed)) }

    ensures later { S.faults source.old ≤ S.faults source.new }
    ensures failed { result ≡ Err ReadFault.Failed → Rose (S.faults source.old) (S.faults source.new) }
{
    let mut room = [0u8; ROOM];
    let mut count: u32 = 0;
    loop {
        let want = ROOM.min((MOST_BYTES - count) as usize + 1);
        let Ok(taken) = source.take(&mut room[..want]) else {
            return Err(ReadFault::Failed);
        };
        if taken == 0 {
            return Ok(count);
        }
        if taken > (MOST_BYTES - count) as usize {
            return Err(ReadFault::TooLong);
        }
        taker.take_piece(&room[..taken])?;
        count += taken as u32;
    }
}

/// Puts until nothing is left.
pub fn write_all_bytes<T: Sink>(sink: &mut T, bytes: &[u8]) -> Result<(), Failed>
    ensures whole { OnOk result (Gains (T.written sink.old) (T.written sink.new) bytes.now) }
    ensures part { OnErr result (GainsPart (T.written sink.old) (T.written sink.new) bytes.now) }
    ensures cause { HasCause (T.faults sink.old) (T.faults sink.new) result }
{
    let mut rest = bytes;
    while !rest.is_empty() {
        let count = sink.put(rest)?;
        rest = &rest[count..];
    }
    Ok(())
}

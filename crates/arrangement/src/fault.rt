use std::alloc::{AllocError, AllocFailed};
use thiserror::Error;

/// Why no drawing is given.
#[derive(Debug, Drop, Error)]
pub enum PieceFault {
    #[error("the segments have more than 16,384 vertices")]
    TooMany,
    #[error("no memory for the pieces")]
    Memory(AllocError),
}

impl From<AllocError> for PieceFault {
    ghost use Rattle.std.specs.Prelude.{◌≡◌};
    ghost use Rattle.arrangement.specs.declared.fault.PieceFault.TheVariants.{Memory};

    ghost from_gives = { λ e f. f ≡ Memory e };

    fn from(failed: AllocError) -> PieceFault {
        PieceFault::Memory(failed)
    }
}

use fold_base::Text;
use std::alloc::AllocError;
use thiserror::Error;

/// Why a frame has no lines.
#[derive(Debug, PartialEq, Eq, Drop, Error)]
pub enum LinesFault {
    /// The frame lacks this key.
    #[error("missing {key}")]
    Missing { key: Text },
    /// The third coordinate of this vertex isn't 0.
    #[error("not flat {vertex}")]
    NotFlat { vertex: u32 },
    /// Memory was refused, and nothing is known of the frame.
    #[error(transparent)]
    Memory(AllocError),
}

impl From<AllocError> for LinesFault {
    ghost use Rattle.std.specs.Prelude.{◌≡◌};
    ghost use Rattle.frame_lines.specs.declared.fault.LinesFault.TheVariants.{Memory};

    ghost from_gives = { λ e f. f ≡ Memory e };

    fn from(error: AllocError) -> LinesFault {
        LinesFault::Memory(error)
    }
}

use std::alloc::AllocError;
use thiserror::Error;

/// Why a frame has no effective frame.
#[derive(Clone, Copy, Debug, PartialEq, Eq, Error)]
pub enum FrameFault {
    /// There is no frame of this number.
    #[error("no frame {frame}")]
    NoFrame { frame: u32 },
    /// This frame inherits from one that isn't there.
    #[error("parent range {frame}")]
    ParentRange { frame: u32 },
    /// Of the frames that are met when parents are followed, this is the first that is met again.
    #[error("parent loop {frame}")]
    ParentLoop { frame: u32 },
    /// Memory was refused, and nothing is known of the frame.
    #[error(transparent)]
    Memory(AllocError),
}

impl From<AllocError> for FrameFault {
    ghost use Rattle.std.specs.Prelude.{◌≡◌};
    ghost use Rattle.fold_frames.specs.declared.fault.FrameFault.TheVariants.{Memory};

    ghost from_gives = { λ e f. f ≡ Memory e };

    fn from(error: AllocError) -> FrameFault {
        FrameFault::Memory(error)
    }
}

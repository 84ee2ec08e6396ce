use arrangement::PieceFault;
use face_walks::WalkFault;
use fold_base::List;
use scaled_plane::{Ends, Face, ScaleFault};
use std::alloc::AllocError;
use thiserror::Error;

/// The vertices of a drawing and the pieces between them, and the faces where they were looked for.
#[derive(Drop)]
pub struct Repaired<N> {
    pub ends: Ends<N>,
    pub faces: Option<List<Face>>,
}

/// Which coordinates are too wide: those that were given, or those of the vertices.
#[derive(Clone, Copy, Debug, PartialEq, Eq)]
pub enum Stage {
    Input,
    Drawn,
}

/// Why no drawing is given.
#[derive(Debug, Drop, Error)]
pub enum RepairFault {
    #[error("vertex {vertex} is too wide")]
    TooWide { vertex: u32, stage: Stage },
    #[error("there are more than 16,384 vertices")]
    TooMany,
    /// The least vertex that no pieces join to vertex 0.
    #[error("vertex {vertex} is parted from vertex 0")]
    Parted { vertex: u32 },
    #[error("no memory for the drawing")]
    Memory(AllocError),
}

impl From<AllocError> for RepairFault {
    ghost use Rattle.std.specs.Prelude.{◌≡◌};
    ghost use Rattle.drawing_repair.specs.declared.answer.RepairFault.TheVariants.{Memory};

    ghost from_gives = { λ error fault. fault ≡ Memory error };

    fn from(error: AllocError) -> RepairFault {
        RepairFault::Memory(error)
    }
}

impl From<ScaleFault> for RepairFault {
    ghost use Rattle.std.specs.Prelude.{◌≡◌};
    ghost use Rattle.drawing_repair.specs.Faults.{of_scaling};

    ghost from_gives = { λ error fault. fault ≡ of_scaling error };

    fn from(error: ScaleFault) -> RepairFault {
        match error {
            ScaleFault::TooWide { vertex } => RepairFault::TooWide {
                vertex,
                stage: Stage::Input,
            },
            ScaleFault::Memory(error) => RepairFault::Memory(error),
        }
    }
}

impl From<PieceFault> for RepairFault {
    ghost use Rattle.std.specs.Prelude.{◌≡◌};
    ghost use Rattle.drawing_repair.specs.Faults.{of_cutting};

    ghost from_gives = { λ error fault. fault ≡ of_cutting error };

    fn from(error: PieceFault) -> RepairFault {
        match error {
            PieceFault::TooMany => RepairFault::TooMany,
            PieceFault::Memory(error) => RepairFault::Memory(error),
        }
    }
}

impl From<WalkFault> for RepairFault {
    ghost use Rattle.std.specs.Prelude.{◌≡◌};
    ghost use Rattle.drawing_repair.specs.Faults.{of_walking};

    ghost from_gives = { λ error fault. fault ≡ of_walking error };

    fn from(error: WalkFault) -> RepairFault {
        match error {
            WalkFault::Parted { vertex } => RepairFault::Parted { vertex },
            WalkFault::Memory(error) => RepairFault::Memory(error),
        }
    }
}

use fold_base::Text;
use number_rules::Unread;
use std::alloc::AllocError;
use thiserror::Error;

/// One of the two coordinates.
#[derive(Clone, Copy, Debug, PartialEq, Eq)]
pub enum Axis {
    X,
    Y,
}

/// What a drawing has more of than is computed with.
#[derive(Clone, Copy, Debug, PartialEq, Eq)]
pub enum Counted {
    Vertices,
    Segments,
    Faces,
}

/// Why there are no vertices and edges.
#[derive(Debug, PartialEq, Eq, Drop, Error)]
pub enum InputFault {
    /// The frame lacks this key.
    #[error("missing {key}")]
    Missing {
        key: Text,
    },
    #[error("too many {what:?}")]
    TooMany {
        what: Counted,
    },
    /// The third coordinate of this vertex isn't 0.
    #[error("not flat {vertex}")]
    NotFlat {
        vertex: u32,
    },
    /// A coordinate is no number by the rule, or by its exact text.
    #[error("unread {vertex} {axis:?} {cause:?}")]
    Unread {
        vertex: u32,
        axis: Axis,
        cause: Unread,
    },
    /// A coordinate of this vertex isn't its exact number, rounded to nine decimals.
    #[error("stale {vertex}")]
    Stale {
        vertex: u32,
    },
    /// Memory was refused.
    #[error(transparent)]
    Memory(AllocError),
}

impl From<AllocError> for InputFault {
    ghost use Rattle.std.specs.Prelude.{◌≡◌};
    ghost use Rattle.crease_input.specs.declared.fault.InputFault.TheVariants.{Memory};

    ghost from_gives = { λ e f. f ≡ Memory e };

    fn from(error: AllocError) -> InputFault {
        InputFault::Memory(error)
    }
}

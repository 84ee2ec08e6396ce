use layers::Crossing;
use std::alloc::AllocError;
use thiserror::Error;

/// What the judge finds.
#[derive(Clone, Copy, Debug, PartialEq, Eq)]
pub enum Verdict {
    /// The layers can lie as they are ordered.
    Fits,
    /// They can't, and this is the first crossing.
    Crosses(Crossing),
}

/// Why there's no verdict.
#[derive(Debug, PartialEq, Eq, Drop, Error)]
pub enum JudgeFault {
    /// The orders at these places of the list say opposite things of two faces.
    #[error("order clash {first} {second}")]
    OrderClash { first: u32, second: u32 },
    /// These faces overlap, and no order says which is above.
    #[error("no order {low} {high}")]
    NoOrder { low: u32, high: u32 },
    /// Memory was refused, and nothing is known of the orders.
    #[error(transparent)]
    Memory(AllocError),
}

impl From<AllocError> for JudgeFault {
    ghost use Rattle.std.specs.Prelude.{◌≡◌};
    ghost use Rattle.layer_judge.specs.declared.answer.JudgeFault.TheVariants.{Memory};

    ghost from_gives = { λ e f. f ≡ Memory e };

    fn from(error: AllocError) -> JudgeFault {
        JudgeFault::Memory(error)
    }
}

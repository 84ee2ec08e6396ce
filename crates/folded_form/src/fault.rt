ghost use Rattle.std.specs.Prelude.{◌≡◌};

use flat_fold::FoldFlatFault;
use scaled_plane::SheetFlaw;
use sheet_check::SheetFault;
use std::alloc::AllocError;
use thiserror::Error;

/// Why a drawing has no folded form.
#[derive(Debug, Drop, Error)]
pub enum FormFault {
    /// The common denominator or a part of its coordinates passes its bound, first at this vertex.
    #[error("vertex {vertex} is too wide")]
    TooWide { vertex: u32 },
    /// It isn't a sheet.
    #[error("no sheet: {0:?}")]
    Flaw(SheetFlaw),
    /// The path map of the face overflows, or the place that it gives the vertex.
    #[error("face {face} overflows at {vertex:?}")]
    NumberPast { face: u32, vertex: Option<u32> },
    /// Closed walks of faces don't come back to where they began: the maps of the edge's faces disagree.
    #[error("edge {edge} doesn't close")]
    Unclosed { edge: u32 },
    /// The common denominator or a part of the folded places passes its bound, first at one of this vertex.
    #[error("vertex {vertex} is too wide when folded")]
    FoldedTooWide { vertex: u32 },
    #[error("no memory for the folded form")]
    Memory(AllocError),
}

impl From<AllocError> for FormFault {
    ghost use Rattle.folded_form.specs.declared.fault.FormFault.TheVariants.{Memory};

    ghost from_gives = { λ error fault. fault ≡ Memory error };

    fn from(error: AllocError) -> FormFault {
        FormFault::Memory(error)
    }
}

impl From<SheetFault> for FormFault {
    ghost use Rattle.folded_form.specs.Forms.{of_sheet};

    ghost from_gives = { λ error fault. fault ≡ of_sheet error };

    fn from(error: SheetFault) -> FormFault {
        match error {
            SheetFault::TooWide { vertex } => FormFault::TooWide { vertex },
            SheetFault::Flaw(flaw) => FormFault::Flaw(flaw),
            SheetFault::Memory(error) => FormFault::Memory(error),
        }
    }
}

impl From<FoldFlatFault> for FormFault {
    ghost use Rattle.folded_form.specs.Forms.{of_folding};

    ghost from_gives = { λ error fault. fault ≡ of_folding error };

    fn from(error: FoldFlatFault) -> FormFault {
        match error {
            FoldFlatFault::NumberPast { face, vertex } => FormFault::NumberPast { face, vertex },
            FoldFlatFault::Unclosed { edge } => FormFault::Unclosed { edge },
            FoldFlatFault::TooWide { vertex } => FormFault::FoldedTooWide { vertex },
            FoldFlatFault::Memory(error) => FormFault::Memory(error),
        }
    }
}

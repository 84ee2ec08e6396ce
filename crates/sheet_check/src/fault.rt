use face_walks::WalkFault;
use scaled_plane::{ScaleFault, SheetFlaw};
use std::alloc::AllocError;

/// Why vertices, edges and faces aren't taken for a sheet.
#[derive(Debug, Drop)]
pub enum SheetFault {
    /// The common denominator or a coordinate passes its bound.
    TooWide { vertex: u32 },
    /// The first line of the table of flaws that holds.
    Flaw(SheetFlaw),
    Memory(AllocError),
}

impl From<AllocError> for SheetFault {
    ghost use Rattle.std.specs.Prelude.{◌≡◌};
    ghost use Rattle.sheet_check.specs.declared.fault.SheetFault.TheVariants.{Memory};

    ghost from_gives = { λ error fault. fault ≡ Memory error };

    fn from(error: AllocError) -> SheetFault {
        SheetFault::Memory(error)
    }
}

impl From<SheetFlaw> for SheetFault {
    ghost use Rattle.std.specs.Prelude.{◌≡◌};
    ghost use Rattle.sheet_check.specs.declared.fault.SheetFault.TheVariants.{Flaw};

    ghost from_gives = { λ flaw fault. fault ≡ Flaw flaw };

    fn from(flaw: SheetFlaw) -> SheetFault {
        SheetFault::Flaw(flaw)
    }
}

impl From<ScaleFault> for SheetFault {
    ghost use Rattle.std.specs.Prelude.{◌≡◌};
    ghost use Rattle.sheet_check.specs.Faults.{of_scaling};

    ghost from_gives = { λ error fault. fault ≡ of_scaling error };

    fn from(error: ScaleFault) -> SheetFault {
        match error {
            ScaleFault::TooWide { vertex } => SheetFault::TooWide { vertex },
            ScaleFault::Memory(error) => SheetFault::Memory(error),
        }
    }
}

impl From<WalkFault> for SheetFault {
    ghost use Rattle.std.specs.Prelude.{◌≡◌};
    ghost use Rattle.sheet_check.specs.Faults.{of_walking};

    ghost from_gives = { λ error fault. fault ≡ of_walking error };

    fn from(error: WalkFault) -> SheetFault {
        match error {
            WalkFault::Parted { vertex } => SheetFault::Flaw(SheetFlaw::Parted { vertex }),
            WalkFault::Memory(error) => SheetFault::Memory(error),
        }
    }
}

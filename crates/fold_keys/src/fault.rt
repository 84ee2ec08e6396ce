ghost use Rattle.std.specs.Prelude.{◌≡◌};

use fold_base::Text;
use std::alloc::AllocError;
use std::fmt;
use thiserror::Error;

/// Why a value isn't what its key asks for.
#[derive(Clone, Copy, Debug, PartialEq, Eq)]
pub enum ShapeKind {
    /// It isn't of the kind at all.
    NotKind,
    /// An inner list has another length than the kind states.
    Length,
    /// A version of the format that isn't read.
    Spec,
    /// A word that is no letter.
    Letter,
    /// A side that is a number, and none of 1, -1 and 0.
    Side,
    /// A list of another length than the first list of its prefix.
    Uneven,
    /// An id of something that isn't there.
    IdRange,
}

/// The first place at which a file isn't of FOLD's shape.
#[derive(Debug, PartialEq, Eq, Drop)]
pub struct ShapeFault {
    pub frame: u32,
    /// Empty where the frame itself is no object.
    pub key: Text,
    /// The place of the outer element, 0 for a value that is no list.
    pub index: u32,
    pub cause: ShapeKind,
}

/// Why a tree is read as no file.
#[derive(Debug, PartialEq, Eq, Drop, Error)]
pub enum FoldFault {
    /// The tree isn't of FOLD's shape.
    #[error(transparent)]
    Shape(ShapeFault),
    /// Memory was refused, and nothing is known of the tree.
    #[error(transparent)]
    Memory(AllocError),
}

impl From<AllocError> for FoldFault {
    ghost use Rattle.fold_keys.specs.declared.fault.FoldFault.TheVariants.{Memory};

    ghost from_gives = { λ e f. f ≡ Memory e };

    fn from(error: AllocError) -> FoldFault {
        FoldFault::Memory(error)
    }
}

impl fmt::Display for ShapeKind {
    ghost use Rattle.std.specs.Prelude.{Some};
    ghost use Rattle.fold_keys.specs.FaultText.{cause_words};

    ghost output = { λ cause. Some (cause_words cause) };

    fn fmt<W: fmt::Write>(&self, f: &mut fmt::Formatter<W>) -> fmt::Result {
        f.write_str(match self {
            ShapeKind::NotKind => "not kind",
            ShapeKind::Length => "length",
            ShapeKind::Spec => "spec",
            ShapeKind::Letter => "letter",
            ShapeKind::Side => "side",
            ShapeKind::Uneven => "uneven",
            ShapeKind::IdRange => "id range",
        })
    }
}

/// An empty key is shown as nothing, so two blanks stand after the word `key`.
impl fmt::Display for ShapeFault {
    ghost use Rattle.std.specs.Prelude.{Some};
    ghost use Rattle.fold_keys.specs.FaultText.{fault_text};

    ghost output = { λ fault. Some (fault_text fault) };

    fn fmt<W: fmt::Write>(&self, f: &mut fmt::Formatter<W>) -> fmt::Result {
        let ShapeFault {
            frame,
            key,
            index,
            cause,
        } = self;
        write!(f, "frame {frame} key {key} index {index}: {cause}")
    }
}

impl std::error::Error for ShapeFault {}

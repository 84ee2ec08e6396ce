// Drawings that can be written.
ghost use Rattle.std.specs.Prelude.{ℕ, Option, List};
ghost use Rattle.fold_commands.specs.Narrow.{NarrowVerticesAreWritable, RefusesNoNarrow};
ghost use Rattle.fold_commands.specs.Outcome.{HasOutcome};

use crate::status::Status;
use drawing_repair::vertices_can_be_written;
use rational::Rational;
use root_two::{RootThree, RootTwo};

/// No vertex of a drawing is too wide to write over the rationals, nor where its coordinates are narrow.
pub fn narrow_vertices_are_writable()
    ensures { NarrowVerticesAreWritable }
{
    vertices_can_be_written::<Rational>();
    vertices_can_be_written::<RootTwo>();
    vertices_can_be_written::<RootThree>();
}

/// By the outcome that `run` keeps to, `repair` refuses no drawing over the rationals as too wide to write, nor one whose
/// coordinates are narrow.
pub fn narrow_drawings_can_be_written()
    ensures { (words : List (List ℕ)) (left before after : Option (List ℕ)) (status : Status) →
        HasOutcome words left before after status → RefusesNoNarrow words left status }
{
    narrow_vertices_are_writable();
}

// What is said of values of other crates.
use layers::{Crossing, Strand};
use scaled_plane::SheetFlaw;
use std::fmt;

/// A crossing in words.
#[derive(Clone, Copy)]
pub struct CrossingWords {
    pub crossing: Crossing,
}

impl fmt::Display for CrossingWords {
    ghost use Rattle.std.specs.Prelude.{Some};
    ghost use Rattle.fold_commands.specs.Crossings.{crossing_words};

    ghost output = { λ words. Some (crossing_words words.crossing) };

    fn fmt<W: fmt::Write>(&self, f: &mut fmt::Formatter<W>) -> fmt::Result {
        match self.crossing {
            Crossing::Cycle(first, second, third) => write!(f, "cycle {first} {second} {third}"),
            Crossing::Through(edge, strand) => {
                let strand = StrandWords { strand };
                write!(f, "through edge {edge} {strand}")
            }
            Crossing::Creases(edge, other) => write!(f, "creases {edge} {other}"),
            Crossing::Joined(edge, strand) => {
                let strand = StrandWords { strand };
                write!(f, "joined edge {edge} {strand}")
            }
            Crossing::Letter(edge) => write!(f, "letter {edge}"),
        }
    }
}

/// What lies across an edge, in words.
#[derive(Clone, Copy)]
struct StrandWords {
    strand: Strand,
}

impl fmt::Display for StrandWords {
    ghost use Rattle.std.specs.Prelude.{Some};
    ghost use Rattle.fold_commands.specs.Crossings.{strand_words};

    ghost output = { λ words. Some (strand_words words.strand) };

    fn fmt<W: fmt::Write>(&self, f: &mut fmt::Formatter<W>) -> fmt::Result {
        match self.strand {
            Strand::Face(face) => write!(f, "face {face}"),
            Strand::Edge(edge) => write!(f, "edge {edge}"),
        }
    }
}

/// What keeps a drawing from being a sheet, in words.
#[derive(Clone, Copy)]
pub struct FlawWords {
    pub flaw: SheetFlaw,
}

impl fmt::Display for FlawWords {
    ghost use Rattle.std.specs.Prelude.{Some};
    ghost use Rattle.fold_commands.specs.Notes.{flaw_message};

    ghost output = { λ words. Some (flaw_message words.flaw) };

    fn fmt<W: fmt::Write>(&self, f: &mut fmt::Formatter<W>) -> fmt::Result {
        match self.flaw {
            SheetFlaw::SameVertex { low, high } => write!(f, "same vertex {low} {high}"),
            SheetFlaw::Loose { vertex } => write!(f, "loose {vertex}"),
            SheetFlaw::NotPlane { low, high } => write!(f, "not plane {low} {high}"),
            SheetFlaw::Parted { vertex } => write!(f, "parted {vertex}"),
            SheetFlaw::EmptySheet => f.write_str("empty sheet"),
            SheetFlaw::FaceWrong { face } => write!(f, "face wrong {face}"),
            SheetFlaw::FaceMissing { from, to } => write!(f, "face missing {from} {to}"),
            SheetFlaw::NotConvex { face, vertex } => write!(f, "not convex {face} {vertex}"),
            SheetFlaw::BorderWrong { edge } => write!(f, "border wrong {edge}"),
            SheetFlaw::Pinched { vertex } => write!(f, "pinched {vertex}"),
            SheetFlaw::Severed { face } => write!(f, "severed {face}"),
        }
    }
}

ghost use Rattle.std.specs.Prelude.{◌≡◌, ◌≤◌, ◌⊎◌, ℕ, List, length, All, IfOk};
ghost use Rattle.cp_lines.specs.CpText.{CpText};
ghost use Rattle.std.specs.List.{AllByRecursion};
ghost use Rattle.cp_lines.specs.Short.{HasNumbersUpTo};
ghost use Rattle.cp_lines.specs.Reads.{NamesFirstFault, Reads, IsReading, LacksMemory};
ghost use Rattle.cp_lines.specs.declared.line.CpLine.{CpLine};
ghost use Rattle.cp_lines.specs.declared.fault.CpFault.{CpFault};

use crate::fault::{CpCause, CpFault, CpReadFault};
use crate::line::CpLine;
use crate::reader::Reader;
use fold_base::{List, MOST_BYTES};
use std::alloc::{AllocError, Global};

#[derive(Drop)]
enum Reading {
    Lines(List<CpLine>),
    /// The place of the first fault, counted in bytes from 0.
    Stopped(usize, CpCause),
}

/// The lines that the text spells, or its first fault.
pub fn read_cp(alloc: Global, text: &[u8]) -> Result<List<CpLine>, CpReadFault>
    requires { length text.now ≤ MOST_BYTES }

    // Lines are those that the text spells, and a fault of the text is its first.
    ensures answer { Reads text.now result }
    ensures kinds { IfOk result (All (λ line. line.kind ≤ 4)) }

    // A text that spells lines gives them, and one with a fault gives it, unless memory is wanting.
    ensures accepted { (lines : List CpLine) → CpText text.now lines → (result ≡ Ok lines) ⊎ LacksMemory result }
    ensures refused { (fault : CpFault) → NamesFirstFault text.now fault → (result ≡ Err (CpReadFault.Text fault)) ⊎ LacksMemory result }
{
    match read_text(alloc, text)? {
        Reading::Lines(lines) => Ok(lines),
        Reading::Stopped(place, cause) => Err(CpReadFault::Text(CpFault::at(text, place, cause))),
    }
}

/// A text spells one list of lines or has one first fault, and not both.
pub fn one_reading()
    ensures lines { (text : List ℕ) (v w : List CpLine) → CpText text v → CpText text w → v ≡ w }
    ensures fault { (text : List ℕ) (f g : CpFault) → NamesFirstFault text f → NamesFirstFault text g → f ≡ g }
    ensures either { (text : List ℕ) (v : List CpLine) (f : CpFault) → CpText text v → NamesFirstFault text f → ⊥ }
    ensures some { (text : List ℕ) → ((lines : List CpLine) × CpText text lines) ⊎ ((fault : CpFault) × NamesFirstFault text fault) }
{}

/// A text spells no more lines than it has bytes, and no number in them is longer than the text.
pub fn short_lines()
    ensures count { (text : List ℕ) (lines : List CpLine) → CpText text lines → length lines ≤ length text }
    ensures numbers { (text : List ℕ) (lines : List CpLine) → CpText text lines → AllByRecursion (HasNumbersUpTo (length text)) lines }
{}

fn read_text(alloc: Global, text: &[u8]) -> Result<Reading, AllocError>
    ensures { IfOk result (IsReading text.now) }
{
    let mut reader = Reader::new(alloc);
    for (place, byte) in text.iter().enumerate() {
        if !reader.step(alloc, *byte)? {
            return Ok(Reading::Stopped(place, CpCause::Byte));
        }
    }
    Ok(match reader.finish(alloc)? {
        Some(lines) => Reading::Lines(lines),
        None => Reading::Stopped(text.len(), CpCause::Ended),
    })
}

// What a command reads.
ghost use Rattle.std.specs.Prelude.{◌≡◌, ◌≤◌, ◌<◌, [], List, ℕ, Ok, Err, length, IfOk, IfErr, IfSome, OnOk};
ghost use Rattle.fold_base.specs.Outside.{Rose, Gives, IsSpent};
ghost use Rattle.fold_commands.specs.Status.{of_read, status_of};
ghost use Rattle.fold_commands.specs.Outcome.{AreLeft, HasFormat, IsReading, IsSound};
ghost use Rattle.fold_commands.specs.Outside.{Takes, TakesAll};

use crate::status::Status;
use crate::words::Format;
use cp_lines::{CpLine, read_cp, short_lines};
use fold_base::{List, MOST_BYTES, PieceTaker, ReadFault, Source, read_pieces};
use fold_keys::read_trees_are_readable;
use json_read::JsonReader;
use json_tree::Json;
use std::alloc::Global;

/// A text as it was read.
#[derive(Debug, Drop)]
pub enum Input {
    Fold(Json),
    Cp(List<CpLine>),
}

/// What the bytes spell that the source has left.
pub fn read_input<S: Source>(alloc: Global, format: Format, source: &mut S) -> Result<Input, Status>
    ensures answer { (bytes : List ℕ) × AreLeft (S.left source.old) bytes
        × IsReading format bytes result }
    ensures format { IfOk result (HasFormat format) }
    ensures sound { IfOk result IsSound }
    ensures read { result ≡ Err Status.Read → Rose (S.faults source.old) (S.faults source.new) }
    ensures taken { (bytes : List ℕ) × Gives (S.left source.old) (S.left source.new) bytes
        × Takes (status_of result) (length bytes) }
    ensures end { TakesAll (status_of result) → IsSpent (S.left source.new) }
{
    match format {
        Format::Fold => {
            read_trees_are_readable();
            let reader = read_whole(source, JsonReader::new(alloc))?;
            Ok(Input::Fold(reader.finish()?))
        }
        Format::Cp => {
            short_lines();
            let bytes = read_whole(source, List::new(alloc))?;
            Ok(Input::Cp(read_cp(alloc, bytes.as_slice())?))
        }
    }
}

/// The taker, once it has taken all the bytes that the source has left.
fn read_whole<S: Source, P: PieceTaker + Drop>(source: &mut S, taker: P) -> Result<P, ReadFault>
    requires nothing { P.has_taken taker [] }
    requires none { P.count taker ≡ 0 }
    ensures all { IfOk result (λ taker. (text : List ℕ) × AreLeft (S.left source.old) text
        × P.has_taken taker text × (length text ≤ MOST_BYTES)) }
    ensures too_long { result ≡ Err ReadFault.TooLong →
        IfSome (S.left source.old) (λ bytes. MOST_BYTES < length bytes) }
    ensures failed { result ≡ Err ReadFault.Failed →
        Rose (S.faults source.old) (S.faults source.new) }
    ensures taken { (bytes : List ℕ) × Gives (S.left source.old) (S.left source.new) bytes
        × OnOk result (length bytes ≤ MOST_BYTES)
        × IfErr result (λ fault. Takes (of_read fault) (length bytes)) }
    ensures end { OnOk result (IsSpent (S.left source.new)) }
{
    let mut taker = taker;
    read_pieces(source, &mut taker)?;
    Ok(taker)
}

// What is said of a refusal or a failure.
ghost use Rattle.fold_base.specs.Outside.{Rose, Gains};
ghost use Rattle.fold_commands.specs.Notes.{GainsFront, IsNoted};

use crate::status::Status;
use fold_base::{Sink, write_all_bytes};
use std::alloc::Global;

/// Puts one line on a status that is no answer. The sink's faults are ignored, and a line that
/// memory is wanting for is left out.
pub fn note<E: Sink>(alloc: Global, status: &Status, notes: &mut E)
    ensures { IsNoted E.written E.faults notes.old notes.new status.now }
{
    match status {
        Status::Done | Status::No(_) => {}
        // No memory is asked for to say that there is none.
        Status::Memory => put_line(notes, "fold_program: memory\n"),
        _ => {
            if let Ok(line) = format!(in alloc; "fold_program: {status}\n") {
                put_line(notes, line.as_str());
            }
        }
    }
}

fn put_line<E: Sink>(notes: &mut E, line: &str)
    ensures front { GainsFront (E.written notes.old) (E.written notes.new) line.now }
    ensures whole { ¬ (Rose (E.faults notes.old) (E.faults notes.new)) →
        Gains (E.written notes.old) (E.written notes.new) line.now }
{
    let _ = write_all_bytes(notes, line.as_bytes());
}

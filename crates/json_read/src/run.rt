ghost use Rattle.std.specs.Prelude.{◌≡◌, IfOk, MatchOption, Some};
ghost use Rattle.first_fault.specs.Machine.{steps};
ghost use Rattle.json_machine.specs.Machine.{step};
ghost use Rattle.json_read.specs.Stops.{IsStop};
ghost use Rattle.json_read.specs.Views.{state_of};

use crate::fault::JsonCause;
use crate::machine::Machine;
use std::alloc::AllocError;

/// Lets the machine read a piece, up to the first byte that can't stand there: its place in the piece, and why.
pub fn run(machine: &mut Machine, piece: &[u8]) -> Result<Option<(usize, JsonCause)>, AllocError>
    ensures { IfOk result (λ stop. MatchOption stop (steps step (state_of machine.old) piece.now ≡ Some (state_of machine.new))
        (λ at. IsStop (state_of machine.old) piece.now at.0 at.1)) }
{
    let mut place = 0;
    loop {
        place += machine.take_word(&piece[place..])?;
        if place == piece.len() {
            return Ok(None);
        }
        let byte = piece[place];
        let cause = machine.cause(byte);
        if !machine.step(byte)? {
            return Ok(Some((place, cause)));
        }
        place += 1;
    }
}

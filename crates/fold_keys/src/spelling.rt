ghost use Rattle.std.specs.Prelude.{◌≡◌, IfOk};
ghost use Rattle.std.specs.Fmt.{decimal, signed_decimal};
ghost use Rattle.json_tree.specs.Number.{IsNumber};

use json_tree::{NumberReadFault, NumberText};
use std::alloc::{AllocError, Global};

/// The text of an id: its digits, with no zero in front.
pub fn spelled_id(alloc: Global, id: u32) -> Result<NumberText, AllocError>
    ensures { IfOk result (λ text. text ≡ decimal id) }
{
    number_in(alloc, format!(in alloc; "{id}")?.as_str())
}

/// The text of a side.
pub fn spelled_side(alloc: Global, side: i8) -> Result<NumberText, AllocError>
    ensures { IfOk result (λ text. text ≡ signed_decimal side) }
{
    number_in(alloc, format!(in alloc; "{side}")?.as_str())
}

fn number_in(alloc: Global, text: &str) -> Result<NumberText, AllocError>
    requires { IsNumber text.now }
    ensures { IfOk result (λ number. number ≡ text.now) }
{
    match NumberText::read(alloc, text) {
        Ok(number) => Ok(number),
        Err(NumberReadFault::Memory(error)) => Err(error),
        Err(NumberReadFault::NoNumber) => unreachable!(),
    }
}

// What `drill` does.
ghost use Rattle.std.specs.Prelude.{◌≤◌, IfOk, ◌≡◌};
ghost use Rattle.fold_commands.specs.Drills.{Drills, IsStripText, strip_line};
ghost use Rattle.fold_commands.specs.Outcome.{HasFormat, IsSound};
ghost use Rattle.fold_commands.specs.Steps.{Follows};
ghost use Rattle.fold_commands.specs.declared.words.Format.TheVariants.{Fold};

use crate::drawing::line_of_file;
use crate::input::Input;
use crate::judge::judge;
use crate::number_option::NumberChoice;
use crate::status::Status;
use crate::words::{DrillOptions, JudgeOptions};
use crease_input::make_strips;
use fold_base::Text;
use std::alloc::{AllocError, Global};

/// What `judge` makes of the strip that was read, with a line on the strip in place of yes.
pub fn drill(alloc: Global, options: &DrillOptions, input: Input) -> Result<Text, Status>
    requires format { HasFormat Fold input }
    requires sound { IsSound input }
    ensures { Follows (Drills options.now input) result }
{
    let plainly = JudgeOptions {
        frame: 0,
        number: NumberChoice::Exact,
        orders: 0,
    };
    let _yes = judge(alloc, &plainly, input)?;
    Ok(strip_line(alloc, options.count)?)
}

/// How many faces, creases and orders a strip has, and the verdict.
fn strip_line(alloc: Global, count: u32) -> Result<Text, AllocError>
    ensures { IfOk result (λ line. line ≡ strip_line count) }
{
    let faces = u64::from(count);
    let creases = faces.saturating_sub(1);
    let orders = faces * creases / 2;
    let line = format!(in alloc; "faces {faces} creases {creases} orders {orders} verdict yes\n")?;
    Ok(Text::from_string(line))
}

/// The text of the file of a strip.
pub fn strip_text(alloc: Global, count: u32) -> Result<Text, AllocError>
    requires some { 1 ≤ count }
    requires few { count ≤ 500 }
    ensures { IfOk result (IsStripText count) }
{
    let file = make_strips(alloc, count)?;
    line_of_file(alloc, &file)
}

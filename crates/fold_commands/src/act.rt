// What the commands do.
ghost use Rattle.fold_commands.specs.Steps.{Follows, Steps};
ghost use Rattle.fold_commands.specs.Outcome.{HasFormat, HasMisfit, IsReadFrom, IsSound, IsSoundTree, Makes, Shows, ShowsTree, format_of};

use crate::convert::convert;
use crate::drill::drill;
use crate::fold::fold;
use crate::input::Input;
use crate::judge::judge;
use crate::repair::repair;
use crate::status::Status;
use crate::words::Command;
use cp_lines::print_cp;
use fold_base::Text;
use fold_keys::{FoldFile, from_json};
use json_tree::{Json, print};
use std::alloc::Global;

/// The text that the command makes of what was read.
pub fn act(alloc: Global, command: &Command, input: Input) -> Result<Text, Status>
    requires format { HasFormat (format_of command.now) input }
    requires sound { IsSound input }
    ensures { Follows (Makes command.now input) result }
{
    match command {
        Command::Show(_) => show(alloc, input),
        Command::Convert(options) => convert(alloc, options, input),
        Command::Repair(options) => repair(alloc, options, input),
        Command::Fold(options) => fold(alloc, options, input),
        Command::Judge(options) => judge(alloc, options, input),
        Command::Drill(options) => drill(alloc, options, input),
    }
}

/// The printed form of what was read.
fn show(alloc: Global, input: Input) -> Result<Text, Status>
    requires { IsSound input }
    ensures { Follows (Shows input) result }
{
    match input {
        Input::Fold(tree) => show_tree(alloc, tree),
        Input::Cp(lines) => Ok(print_cp(alloc, &lines)?),
    }
}

/// The printed form of a file, in a line. The tree of a file that is read is the tree that it is read from, so the text is
/// made first, and reading the file, which takes the tree apart, decides whether it is the answer.
fn show_tree(alloc: Global, tree: Json) -> Result<Text, Status>
    requires { IsSoundTree tree }
    ensures { Follows (ShowsTree tree) result }
{
    let mut text = print(alloc, &tree)?;
    text.push('\n')?;
    read_file(alloc, tree)?;
    Ok(text)
}

/// FOLD's keys: the file that the tree is, or its first misfit.
pub fn read_file(alloc: Global, tree: Json) -> Result<FoldFile, Status>
    requires { IsSoundTree tree }
    ensures { Steps (HasMisfit tree) (IsReadFrom tree) result }
{
    Ok(from_json(alloc, tree)?)
}

// What `fold` does.
ghost use Rattle.std.specs.List.{AllByRecursion};
ghost use Rattle.crease_input.specs.Frames.{IsReadablePoint};
ghost use Rattle.fold_keys.specs.Trees.{tree_of_file};
ghost use Rattle.fold_keys.specs.Writable.{IsWritable};
ghost use Rattle.frame_lines.specs.Lines.{points_of};
ghost use Rattle.fold_commands.specs.Folds.{Folds, FoldsFile, FoldsFrame, FoldsTree};
ghost use Rattle.fold_commands.specs.Outcome.{HasFormat, HasShortTexts, IsSound, IsSoundTree};
ghost use Rattle.fold_commands.specs.Steps.{Follows};
ghost use Rattle.fold_commands.specs.declared.words.Format.TheVariants.{Fold};

use crate::act::read_file;
use crate::aim::Aim;
use crate::convert::{counts_of, effective_frame};
use crate::folded::{fold_with, orders_of};
use crate::input::Input;
use crate::number_option::NumberChoice;
use crate::status::Status;
use crate::words::FoldOptions;
use fold_base::Text;
use fold_frames::{Effective, coordinates_are_short};
use fold_keys::FoldFile;
use json_tree::Json;
use std::alloc::Global;

/// The folded form of a frame that is a sheet.
pub fn fold(alloc: Global, options: &FoldOptions, input: Input) -> Result<Text, Status>
    requires format { HasFormat Fold input }
    requires sound { IsSound input }
    ensures { Follows (Folds options.now input) result }
{
    match input {
        Input::Fold(tree) => fold_tree(alloc, options, tree),
        Input::Cp(_) => unreachable!(),
    }
}

/// FOLD's keys, and then the frame that is chosen.
fn fold_tree(alloc: Global, options: &FoldOptions, tree: Json) -> Result<Text, Status>
    requires { IsSoundTree tree }
    ensures { Follows (FoldsTree options.now tree) result }
{
    let file = read_file(alloc, tree)?;
    fold_file(alloc, options, &file)
}

fn fold_file(alloc: Global, options: &FoldOptions, file: &FoldFile) -> Result<Text, Status>
    requires writable { IsWritable file.now }
    requires short { HasShortTexts (tree_of_file file.now) }
    ensures { Follows (FoldsFile options.now file.now) result }
{
    coordinates_are_short();
    let frame = effective_frame(alloc, file, options.frame)?;
    fold_frame(alloc, options.number, &frame)
}

/// The folded form of a frame whose lists agree.
fn fold_frame(alloc: Global, number: NumberChoice, frame: &Effective) -> Result<Text, Status>
    requires { AllByRecursion IsReadablePoint (points_of frame.now.entries) }
    ensures { Follows (FoldsFrame number frame.now) result }
{
    counts_of(alloc, frame)?;
    fold_with(alloc, Aim::Form, orders_of(frame), number, frame)
}

// What `judge` does.
ghost use Rattle.std.specs.Prelude.{◌≡◌, None};
ghost use Rattle.std.specs.Bool.{Decides};
ghost use Rattle.std.specs.List.{AllByRecursion};
ghost use Rattle.crease_input.specs.Frames.{IsReadablePoint};
ghost use Rattle.fold_frames.specs.Counts.{misfit_in_effect};
ghost use Rattle.fold_keys.specs.Trees.{tree_of_file};
ghost use Rattle.fold_keys.specs.Writable.{IsWritable};
ghost use Rattle.frame_lines.specs.Lines.{points_of};
ghost use Rattle.fold_commands.specs.Judges.{HaveSameFaces, Judges, JudgesFile, JudgesFrames, JudgesOrdered, JudgesTree};
ghost use Rattle.fold_commands.specs.Outcome.{HasFormat, HasShortTexts, IsSound, IsSoundTree};
ghost use Rattle.fold_commands.specs.Steps.{Follows};
ghost use Rattle.fold_commands.specs.declared.words.Format.TheVariants.{Fold};

use crate::act::read_file;
use crate::aim::Aim;
use crate::convert::{counts_of, effective_frame};
use crate::folded::{faces_of, fold_with, orders_of};
use crate::input::Input;
use crate::number_option::NumberChoice;
use crate::status::{ShapeCause, Status};
use crate::words::JudgeOptions;
use fold_base::{List, Text};
use fold_frames::{Effective, coordinates_are_short};
use fold_keys::FoldFile;
use json_tree::Json;
use std::alloc::Global;

/// Whether a frame that is a sheet folds flat with its layers as they are ordered.
pub fn judge(alloc: Global, options: &JudgeOptions, input: Input) -> Result<Text, Status>
    requires format { HasFormat Fold input }
    requires sound { IsSound input }
    ensures { Follows (Judges options.now input) result }
{
    match input {
        Input::Fold(tree) => judge_tree(alloc, options, tree),
        Input::Cp(_) => unreachable!(),
    }
}

/// FOLD's keys, and then the frame that is chosen and the one with the orders.
fn judge_tree(alloc: Global, options: &JudgeOptions, tree: Json) -> Result<Text, Status>
    requires { IsSoundTree tree }
    ensures { Follows (JudgesTree options.now tree) result }
{
    let file = read_file(alloc, tree)?;
    judge_file(alloc, options, &file)
}

fn judge_file(alloc: Global, options: &JudgeOptions, file: &FoldFile) -> Result<Text, Status>
    requires writable { IsWritable file.now }
    requires short { HasShortTexts (tree_of_file file.now) }
    ensures { Follows (JudgesFile options.now file.now) result }
{
    coordinates_are_short();
    let frame = effective_frame(alloc, file, options.frame)?;
    let ordered = effective_frame(alloc, file, options.orders)?;
    judge_frames(alloc, options.number, &frame, &ordered)
}

/// A frame by the orders of another, where the lists of both agree.
fn judge_frames(
    alloc: Global,
    number: NumberChoice,
    frame: &Effective,
    ordered: &Effective,
) -> Result<Text, Status>
    requires { AllByRecursion IsReadablePoint (points_of frame.now.entries) }
    ensures { Follows (JudgesFrames number frame.now ordered.now) result }
{
    counts_of(alloc, frame)?;
    counts_of(alloc, ordered)?;
    judge_ordered(alloc, number, frame, ordered)
}

/// The same, where both have the same faces.
fn judge_ordered(
    alloc: Global,
    number: NumberChoice,
    frame: &Effective,
    ordered: &Effective,
) -> Result<Text, Status>
    requires readable { AllByRecursion IsReadablePoint (points_of frame.now.entries) }
    requires agree { misfit_in_effect frame.now ≡ None }
    requires orders_agree { misfit_in_effect ordered.now ≡ None }
    ensures { Follows (JudgesOrdered number frame.now ordered.now) result }
{
    if !have_same_faces(frame, ordered) {
        return Err(Status::Shape(ShapeCause::OrdersDiffer));
    }
    fold_with(alloc, Aim::Verdict, orders_of(ordered), number, frame)
}

/// Whether two frames have the same faces, or both none.
fn have_same_faces(frame: &Effective, ordered: &Effective) -> bool
    ensures { Decides result (HaveSameFaces frame.now ordered.now) }
{
    match (faces_of(frame), faces_of(ordered)) {
        (None, None) => true,
        (Some(faces), Some(others)) => are_same_lists(faces, others),
        _ => false,
    }
}

fn are_same_lists(lists: &[List<Option<u32>>], others: &[List<Option<u32>>]) -> bool
    ensures { Decides result (lists.now ≡ others.now) }
{
    if lists.len() != others.len() {
        return false;
    }
    for (place, list) in lists.iter().enumerate() {
        if !are_same_ids(list.as_slice(), others[place].as_slice()) {
            return false;
        }
    }
    true
}

fn are_same_ids(ids: &[Option<u32>], others: &[Option<u32>]) -> bool
    ensures { Decides result (ids.now ≡ others.now) }
{
    ids == others
}

// A drawing as a text.
ghost use Rattle.std.specs.Prelude.{◌≡◌, ◌∷◌, ◌++◌, [], IfOk, None, codes, length};
ghost use Rattle.std.specs.List.{AllByRecursion};
ghost use Rattle.std.specs.Option.{option_copied};
ghost use Rattle.json_tree.specs.PrintedForm.{printed_form};
ghost use Rattle.fold_keys.specs.Trees.{tree_of_file};
ghost use Rattle.fold_keys.specs.Writable.{IsWritable};
ghost use Rattle.crease_input.specs.Files.{HasShortParts, IsFileable};
ghost use Rattle.crease_input.specs.Lines.{IsEdgeWithin};
ghost use Rattle.fold_commands.specs.Steps.{Follows};
ghost use Rattle.fold_commands.specs.Drawings.{WritesFile};
ghost use Rattle.fold_commands.specs.Repairs.{WritesEdges};

use crate::status::Status;
use cp_lines::print_cp;
use crease_input::{drawing_file, drawing_lines, pattern_text};
use exact_number::Exact;
use fold_base::{List, Text};
use fold_keys::{FaceOrder, FoldFile, to_json};
use json_tree::print;
use scaled_plane::{Ends, Face};
use std::alloc::{AllocError, Global};

/// The file of a drawing of this class, in a line.
pub fn write_drawing<N: Exact>(
    alloc: Global,
    class: &str,
    ends: &Ends<N>,
    faces: Option<&List<Face>>,
    orders: Option<&List<FaceOrder>>,
) -> Result<Text, Status>
    requires { IsFileable N.parts ends.now (option_copied faces) (option_copied orders) }
    ensures { Follows (WritesFile N.ROOT N.parts class.now ends.now
        (option_copied faces.entry) (option_copied orders.entry)) result }
{
    let file = drawing_file(alloc, class, ends, faces, orders)?;
    Ok(line_of_file(alloc, &file)?)
}

/// The file of a crease pattern without faces, in a line.
pub fn write_pattern<N: Exact>(alloc: Global, ends: &Ends<N>) -> Result<Text, Status>
    requires { IsFileable N.parts ends.now None None }
    ensures { Follows (WritesFile N.ROOT N.parts (codes "creasePattern") ends.now None None) result }
{
    Ok(pattern_text(alloc, ends)?)
}

/// The printed form of a file, in a line.
pub fn line_of_file(alloc: Global, file: &FoldFile) -> Result<Text, AllocError>
    requires { IsWritable file.now }
    ensures { IfOk result (λ text. text ≡ printed_form (tree_of_file file.now) ++ 10 ∷ []) }
{
    let mut text = print(alloc, &to_json(alloc, file)?)?;
    text.push('\n').map_err(AllocError::from)?;
    Ok(text)
}

/// A line for each edge of a drawing.
pub fn write_edges<N: Exact>(alloc: Global, ends: &Ends<N>) -> Result<Text, Status>
    requires coords { AllByRecursion (HasShortParts N.parts) ends.now.coords }
    requires edges { AllByRecursion (IsEdgeWithin (length ends.now.coords)) ends.now.edges }
    ensures { Follows (WritesEdges N.ROOT N.parts ends.now) result }
{
    let lines = drawing_lines(alloc, ends)?;
    Ok(print_cp(alloc, &lines)?)
}

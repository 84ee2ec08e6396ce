// What `repair` does.
ghost use Rattle.std.specs.Prelude.{◌≡◌, ◌⊎◌, ℕ, ◌<◌, ◌≤◌, ◌^◌, None, length, IfOk};
ghost use Rattle.std.specs.List.{AllByRecursion};
ghost use Rattle.crease_input.specs.Files.{IsFileable};
ghost use Rattle.crease_input.specs.Frames.{IsReadablePoint};
ghost use Rattle.drawing_repair.specs.Kept.{AreInRange};
ghost use Rattle.fold_keys.specs.Trees.{tree_of_file};
ghost use Rattle.fold_keys.specs.Writable.{IsWritable};
ghost use Rattle.frame_lines.specs.Lines.{points_of};
ghost use Rattle.number_rules.specs.Kept.{KeepsItsRow};
ghost use Rattle.fold_commands.specs.Outcome.{HasShortTexts, IsSound, IsSoundTree};
ghost use Rattle.fold_commands.specs.Repairs.{HasEnds, HaveDrawing, IsReadyAt, IsRepairedOnce, LackDrawing, LacksEnds, Repairs, RepairsBy, RepairsEnds, RepairsFile, RepairsFrame, RepairsOver, RepairsRead, RepairsTree, WritesRepaired, end_of, faces_for, name_in, named_by};
ghost use Rattle.fold_commands.specs.Steps.{Follows, Steps};
ghost use Rattle.fold_commands.specs.declared.given.Given.TheVariants.{Frame as OfFrame, Lines as OfLines};

use crate::act::read_file;
use crate::convert::{counts_of, effective_frame};
use crate::drawing::{write_drawing, write_edges};
use crate::given::Given;
use crate::input::Input;
use crate::number_option::NumberChoice;
use crate::status::Status;
use crate::words::{Format, RepairOptions};
use cp_lines::CpLine;
use crease_input::{frame_ends, frame_root, lines_ends, one_file, one_list_of_lines};
use drawing_repair::{Faces, RepairFault, Repaired, Stage, repair_ends};
use exact_number::Exact;
use fold_base::{List, Text};
use fold_frames::{Effective, coordinates_are_short};
use fold_keys::FoldFile;
use json_tree::Json;
use number_rules::{
    Decimal, NumberRule, Unread, exact_rule, grid_rule, read_exact, read_grid, read_root_three,
    read_root_two, root_three_rule, root_two_rule,
};
use rational::Rational;
use root_two::{RootThree, RootTwo};
use scaled_plane::{Edge, Ends};
use std::alloc::Global;

/// The segments that were read as a drawing: its vertices, the pieces between them, and its faces.
pub fn repair(alloc: Global, options: &RepairOptions, input: Input) -> Result<Text, Status>
    requires { IsSound input }
    ensures { Follows (Repairs options.now input) result }
{
    match input {
        Input::Fold(tree) => repair_tree(alloc, options, tree),
        Input::Cp(lines) => repair_by(alloc, options, &Given::Lines(lines)),
    }
}

/// FOLD's keys, and then the frame that is chosen.
fn repair_tree(alloc: Global, options: &RepairOptions, tree: Json) -> Result<Text, Status>
    requires { IsSoundTree tree }
    ensures { Follows (RepairsTree options.now tree) result }
{
    let file = read_file(alloc, tree)?;
    repair_file(alloc, options, &file)
}

fn repair_file(alloc: Global, options: &RepairOptions, file: &FoldFile) -> Result<Text, Status>
    requires writable { IsWritable file.now }
    requires short { HasShortTexts (tree_of_file file.now) }
    ensures { Follows (RepairsFile options.now file.now) result }
{
    coordinates_are_short();
    let frame = effective_frame(alloc, file, options.frame)?;
    repair_frame(alloc, options, frame)
}

/// A frame whose lists agree: exact texts are numbers over their own root, and all others are read by the rule that is chosen.
fn repair_frame(alloc: Global, options: &RepairOptions, frame: Effective) -> Result<Text, Status>
    requires { AllByRecursion IsReadablePoint (points_of frame.entries) }
    ensures { Follows (RepairsFrame options.now frame) result }
{
    counts_of(alloc, &frame)?;
    match frame_root(&frame) {
        None => repair_by(alloc, options, &Given::Frame(frame)),
        Some(root) => repair_over(alloc, options, root, &Given::Frame(frame)),
    }
}

/// By the rule that is chosen, over the numbers that it gives.
fn repair_by(alloc: Global, options: &RepairOptions, given: &Given) -> Result<Text, Status>
    requires { (k : ℕ) → IsReadyAt k given.now }
    ensures { Follows (RepairsBy options.now.number options.now given.now) result }
{
    match options.number {
        NumberChoice::Exact => {
            let rule = exact_rule(|value: Decimal| read_exact::<Rational>(value));
            repair_read(alloc, options, &rule, given)
        }
        NumberChoice::Grid(n) => {
            let rule = grid_rule(n.value, |value: Decimal| {
                read_grid::<Rational>(n.value, value)
            });
            repair_read(alloc, options, &rule, given)
        }
        NumberChoice::RootTwo(n) => {
            let rule = root_two_rule(n.value, |value: Decimal| read_root_two(n.value, value));
            repair_read(alloc, options, &rule, given)
        }
        NumberChoice::RootThree(n) => {
            let rule = root_three_rule(n.value, |value: Decimal| read_root_three(n.value, value));
            repair_read(alloc, options, &rule, given)
        }
    }
}

/// By exact texts over this root. Beside these no rule is used.
fn repair_over(
    alloc: Global,
    options: &RepairOptions,
    root: u32,
    given: &Given,
) -> Result<Text, Status>
    requires root { (root ≡ 2) ⊎ (root ≡ 3) }
    requires ready { IsReadyAt root given.now }
    ensures { Follows (RepairsOver root options.now given.now) result }
{
    if root == 3 {
        let rule = exact_rule(|value: Decimal| read_exact::<RootThree>(value));
        repair_read(alloc, options, &rule, given)
    } else {
        let rule = exact_rule(|value: Decimal| read_exact::<RootTwo>(value));
        repair_read(alloc, options, &rule, given)
    }
}

/// The vertices and edges as numbers, and then their drawing.
fn repair_read<N: Exact, F: Fn(Decimal) -> Result<N, Unread>>(
    alloc: Global,
    options: &RepairOptions,
    rule: &NumberRule<N, F>,
    given: &Given,
) -> Result<Text, Status>
    requires keeps { KeepsItsRow N.ROOT N.parts rule.now.row (F.pre rule.now.call) (F.post rule.now.call) }
    requires ready { IsReadyAt N.ROOT given.now }
    ensures { Follows (RepairsRead N.ROOT N.parts N.Ring.numbers options.now rule.now.row given.now) result }
{
    let ends = ends_of(alloc, rule, given)?;
    repair_read_ends(alloc, options, given, &ends)
}

/// The drawing of segments, as a text.
fn repair_read_ends<N: Exact>(
    alloc: Global,
    options: &RepairOptions,
    given: &Given,
    ends: &Ends<N>,
) -> Result<Text, Status>
    requires few { length ends.now.coords < 2 ^ 32 }
    requires few_edges { length ends.now.edges ≤ 2048 }
    requires in_range { AreInRange ends.now.coords ends.now.edges }
    ensures { Follows (RepairsEnds N.ROOT N.parts N.Ring.numbers options.now given.now ends.now) result }
{
    let repaired = drawing_of(alloc, options, given, ends)?;
    write_repaired(alloc, options.to, &repaired)
}

/// The vertices and edges of what was read, or why it has none.
fn ends_of<N: Exact, F: Fn(Decimal) -> Result<N, Unread>>(
    alloc: Global,
    rule: &NumberRule<N, F>,
    given: &Given,
) -> Result<Ends<N>, Status>
    requires keeps { KeepsItsRow N.ROOT N.parts rule.now.row (F.pre rule.now.call) (F.post rule.now.call) }
    requires ready { IsReadyAt N.ROOT given.now }
    ensures ends { Steps (LacksEnds N.ROOT N.parts rule.now.row given.now)
        (HasEnds N.ROOT N.parts rule.now.row given.now) result }
    ensures few { IfOk result (λ ends. length ends.coords < 2 ^ 32) }
    ensures few_edges { IfOk result (λ ends. length ends.edges ≤ 2048) }
    ensures in_range { IfOk result (λ ends. AreInRange ends.coords ends.edges) }
{
    match given {
        Given::Lines(lines) => ends_of_lines(alloc, rule, lines),
        Given::Frame(frame) => ends_of_frame(alloc, rule, frame),
    }
}

fn ends_of_lines<N: Exact, F: Fn(Decimal) -> Result<N, Unread>>(
    alloc: Global,
    rule: &NumberRule<N, F>,
    lines: &List<CpLine>,
) -> Result<Ends<N>, Status>
    requires keeps { KeepsItsRow N.ROOT N.parts rule.now.row (F.pre rule.now.call) (F.post rule.now.call) }
    requires ready { IsReadyAt N.ROOT (OfLines lines.now) }
    ensures ends { Steps (LacksEnds N.ROOT N.parts rule.now.row (OfLines lines.now))
        (HasEnds N.ROOT N.parts rule.now.row (OfLines lines.now)) result }
    ensures few { IfOk result (λ ends. length ends.coords < 2 ^ 32) }
    ensures few_edges { IfOk result (λ ends. length ends.edges ≤ 2048) }
    ensures in_range { IfOk result (λ ends. AreInRange ends.coords ends.edges) }
{
    Ok(lines_ends(alloc, lines.as_slice(), rule)?)
}

fn ends_of_frame<N: Exact, F: Fn(Decimal) -> Result<N, Unread>>(
    alloc: Global,
    rule: &NumberRule<N, F>,
    frame: &Effective,
) -> Result<Ends<N>, Status>
    requires keeps { KeepsItsRow N.ROOT N.parts rule.now.row (F.pre rule.now.call) (F.post rule.now.call) }
    requires ready { IsReadyAt N.ROOT (OfFrame frame.now) }
    ensures ends { Steps (LacksEnds N.ROOT N.parts rule.now.row (OfFrame frame.now))
        (HasEnds N.ROOT N.parts rule.now.row (OfFrame frame.now)) result }
    ensures few { IfOk result (λ ends. length ends.coords < 2 ^ 32) }
    ensures few_edges { IfOk result (λ ends. length ends.edges ≤ 2048) }
    ensures in_range { IfOk result (λ ends. AreInRange ends.coords ends.edges) }
{
    let (ends, _) = frame_ends(alloc, frame, rule, false)?;
    Ok(ends)
}

/// The drawing of the segments between ends, or why they have none.
fn drawing_of<N: Exact>(
    alloc: Global,
    options: &RepairOptions,
    given: &Given,
    ends: &Ends<N>,
) -> Result<Repaired<N>, Status>
    requires few { length ends.now.coords < 2 ^ 32 }
    requires few_edges { length ends.now.edges ≤ 2048 }
    requires in_range { AreInRange ends.now.coords ends.now.edges }
    ensures drawing { Steps (LackDrawing N.ROOT N.parts N.Ring.numbers options.now given.now ends.now)
        (HaveDrawing N.ROOT N.parts N.Ring.numbers options.now ends.now) result }
    ensures fileable { IfOk result (λ r. IsFileable N.parts r.ends r.faces None) }
{
    let faces = faces_for(options.to, options.faces);
    match repair_ends(alloc, ends, options.flat, faces) {
        Ok(repaired) => Ok(repaired),
        Err(fault) => Err(Status::from(named_by(given, ends.edges.as_slice(), fault))),
    }
}

/// The fault, with the vertex told as what was read tells its own.
fn named_by(given: &Given, edges: &[Edge], fault: RepairFault) -> RepairFault
    requires { length edges.now ≤ 2048 }
    ensures { result ≡ named_by given.now edges.now fault }
{
    match fault {
        RepairFault::TooWide { vertex, stage } => RepairFault::TooWide {
            vertex: name_in(given, edges, stage, vertex),
            stage,
        },
        RepairFault::TooMany => RepairFault::TooMany,
        RepairFault::Parted { vertex } => RepairFault::Parted { vertex },
        RepairFault::Memory(error) => RepairFault::Memory(error),
    }
}

/// A vertex of lines by its first end, while their coordinates are still those that were given.
fn name_in(given: &Given, edges: &[Edge], stage: Stage, vertex: u32) -> u32
    requires { length edges.now ≤ 2048 }
    ensures { result ≡ name_in given.now edges.now stage vertex }
{
    match given {
        Given::Lines(_) => match stage {
            Stage::Input => end_of(edges, vertex),
            Stage::Drawn => vertex,
        },
        Given::Frame(_) => vertex,
    }
}

/// The number of the first end that is this vertex, two for each edge.
fn end_of(edges: &[Edge], vertex: u32) -> u32
    requires { length edges.now ≤ 2048 }
    ensures { result ≡ end_of edges.now vertex }
{
    let mut end = 0;
    for edge in edges {
        if edge.from == vertex {
            return end;
        }
        if edge.to == vertex {
            return end + 1;
        }
        end += 2;
    }
    end
}

/// Faces are looked for where they are written.
fn faces_for(to: Format, faces: Faces) -> Faces
    ensures { result ≡ faces_for to faces }
{
    match to {
        Format::Fold => faces,
        Format::Cp => Faces::Skip,
    }
}

/// A repaired drawing, as a file or as lines.
fn write_repaired<N: Exact>(
    alloc: Global,
    to: Format,
    repaired: &Repaired<N>,
) -> Result<Text, Status>
    requires { IsFileable N.parts repaired.now.ends repaired.now.faces None }
    ensures { Follows (WritesRepaired N.ROOT N.parts to repaired.now) result }
{
    let Repaired { ends, faces } = repaired;
    match to {
        Format::Fold => write_drawing(alloc, "creasePattern", ends, faces.as_ref(), None),
        Format::Cp => write_edges(alloc, ends),
    }
}

/// What was read is repaired in one way at most.
pub fn one_repair<N: Exact>()
    ensures { IsRepairedOnce N.ROOT N.parts N.Ring.numbers }
{
    crease_input::one_reading::<N>();
    crease_input::one_drawing::<N>();
    one_file::<N>();
    one_list_of_lines::<N>();
    drawing_repair::one_drawing::<N>();
}

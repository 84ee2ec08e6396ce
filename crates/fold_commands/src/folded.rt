// From a frame to what is made of it once it is folded.
ghost use Rattle.std.specs.Prelude.{◌≡◌, ◌⊎◌, ◌∷◌, ◌++◌, [], ℕ, None, Some, true, codes, IfOk, length, option_map};
ghost use Rattle.std.specs.List.{AllByRecursion};
ghost use Rattle.std.specs.Option.{option_copied};
ghost use Rattle.algebra.specs.WholeSurds.{SurdNumbers};
ghost use Rattle.crease_input.specs.Files.{AreOrdersWithin};
ghost use Rattle.crease_input.specs.Frames.{AreWithin, IsReadablePoint};
ghost use Rattle.crease_input.specs.Readings.{HasDrawing};
ghost use Rattle.crease_input.specs.Roots.{root_of};
ghost use Rattle.fold_frames.specs.Counts.{misfit_in_effect};
ghost use Rattle.fold_frames.specs.Parents.{value_at};
ghost use Rattle.fold_keys.specs.Writable.{IsWritableEntry};
ghost use Rattle.fold_keys.specs.declared.value.Value.TheVariants as values;
ghost use Rattle.frame_lines.specs.Lines.{points_of};
ghost use Rattle.number_rules.specs.Kept.{KeepsItsRow};
ghost use Rattle.fold_commands.specs.FoldedFrames.{AreOfFaces, FoldsBy, FoldsDrawing, FoldsOver, FoldsRead, FoldsWith, HasLayout, HaveVerdict, IsFoldedOnce, JudgesLayers, LackOrder, LacksDrawing, LacksForm, MakesOf, WritesForm, given_orders, orders_of};
ghost use Rattle.fold_commands.specs.Headline.{HasTrueVerdicts};
ghost use Rattle.fold_commands.specs.Repairs.{IsReadyAt};
ghost use Rattle.fold_commands.specs.Steps.{Follows, Steps};
ghost use Rattle.fold_commands.specs.declared.given.Given.TheVariants.{Frame as OfFrame};

use crate::aim::Aim;
use crate::drawing::line_of_file;
use crate::number_option::NumberChoice;
use crate::status::{NoCause, Status};
use crease_input::{frame_ends, frame_root, one_drawing};
use exact_number::Exact;
use flat_fold::Folded;
use fold_base::{List, Text};
use fold_frames::Effective;
use fold_keys::{FaceOrder, Value};
use folded_form::{fold_ends, one_layout};
use folded_layers::{FoldedLayers, folded_sheets_have_layers};
use form_file::{folded_file, one_form};
use layer_judge::{Verdict, judge, one_verdict};
use layers::list_decides_points;
use number_rules::{
    Decimal, NumberRule, Unread, exact_rule, grid_rule, read_exact, read_grid, read_root_three,
    read_root_two, root_three_rule, root_two_rule,
};
use rational::Rational;
use root_two::{RootThree, RootTwo};
use scaled_plane::{Ends, Face};
use std::alloc::Global;

/// The faces of a frame by their corners, where it has them.
pub fn faces_of(frame: &Effective) -> Option<&[List<Option<u32>>]>
    ensures { option_map (λ lists. values.IdLists lists.now) result
        ≡ value_at frame.now.entries (codes "faces_vertices") }
{
    match frame.get(b"faces_vertices") {
        Some(Value::IdLists(lists)) => Some(lists.as_slice()),
        Some(_) => unreachable!(),
        None => None,
    }
}

/// The orders of its faces, where the frame has them.
pub fn orders_of(frame: &Effective) -> Option<&List<FaceOrder>>
    requires { misfit_in_effect frame.now ≡ None }
    ensures orders { option_copied result ≡ orders_of frame.now.entries }
    ensures of_faces { AreOfFaces frame.now.entries (orders_of frame.now.entries) }
{
    faces_of(frame);
    match frame.get(b"faceOrders") {
        Some(Value::Orders(orders)) => Some(orders),
        Some(_) => unreachable!(),
        None => None,
    }
}

/// What is made of a frame: exact texts are numbers over their own root, and all others are read by
/// the rule that is chosen.
pub fn fold_with(
    alloc: Global,
    aim: Aim,
    orders: Option<&List<FaceOrder>>,
    number: NumberChoice,
    frame: &Effective,
) -> Result<Text, Status>
    requires readable { AllByRecursion IsReadablePoint (points_of frame.now.entries) }
    requires agree { misfit_in_effect frame.now ≡ None }
    requires of_faces { AreOfFaces frame.now.entries (option_copied orders) }
    ensures { Follows (FoldsWith aim (option_copied orders.entry) (root_of frame.now.entries) number frame.now) result }
{
    match frame_root(frame) {
        None => fold_by(alloc, aim, orders, number, frame),
        Some(root) => fold_over(alloc, aim, orders, root, frame),
    }
}

/// By the rule that is chosen, over the numbers that it gives.
fn fold_by(
    alloc: Global,
    aim: Aim,
    orders: Option<&List<FaceOrder>>,
    number: NumberChoice,
    frame: &Effective,
) -> Result<Text, Status>
    requires ready { (k : ℕ) → IsReadyAt k (OfFrame frame.now) }
    requires of_faces { AreOfFaces frame.now.entries (option_copied orders) }
    ensures { Follows (FoldsBy aim (option_copied orders.entry) number frame.now) result }
{
    match number {
        NumberChoice::Exact => {
            let rule = exact_rule(|value: Decimal| read_exact::<Rational>(value));
            fold_read(alloc, aim, orders, &rule, frame)
        }
        NumberChoice::Grid(n) => {
            let rule = grid_rule(n.value, |value: Decimal| {
                read_grid::<Rational>(n.value, value)
            });
            fold_read(alloc, aim, orders, &rule, frame)
        }
        NumberChoice::RootTwo(n) => {
            let rule = root_two_rule(n.value, |value: Decimal| read_root_two(n.value, value));
            fold_read(alloc, aim, orders, &rule, frame)
        }
        NumberChoice::RootThree(n) => {
            let rule = root_three_rule(n.value, |value: Decimal| read_root_three(n.value, value));
            fold_read(alloc, aim, orders, &rule, frame)
        }
    }
}

/// By exact texts over this root. Beside these no rule is used.
fn fold_over(
    alloc: Global,
    aim: Aim,
    orders: Option<&List<FaceOrder>>,
    root: u32,
    frame: &Effective,
) -> Result<Text, Status>
    requires root { (root ≡ 2) ⊎ (root ≡ 3) }
    requires ready { IsReadyAt root (OfFrame frame.now) }
    requires of_faces { AreOfFaces frame.now.entries (option_copied orders) }
    ensures { Follows (FoldsOver aim (option_copied orders.entry) root frame.now) result }
{
    if root == 3 {
        let rule = exact_rule(|value: Decimal| read_exact::<RootThree>(value));
        fold_read(alloc, aim, orders, &rule, frame)
    } else {
        let rule = exact_rule(|value: Decimal| read_exact::<RootTwo>(value));
        fold_read(alloc, aim, orders, &rule, frame)
    }
}

/// The vertices, edges and faces as numbers, and then what is made of them.
fn fold_read<N: Exact, F: Fn(Decimal) -> Result<N, Unread>>(
    alloc: Global,
    aim: Aim,
    orders: Option<&List<FaceOrder>>,
    rule: &NumberRule<N, F>,
    frame: &Effective,
) -> Result<Text, Status>
    requires keeps { KeepsItsRow N.ROOT N.parts rule.now.row (F.pre rule.now.call) (F.post rule.now.call) }
    requires ready { IsReadyAt N.ROOT (OfFrame frame.now) }
    requires of_faces { AreOfFaces frame.now.entries (option_copied orders) }
    ensures { Follows (FoldsRead N.ROOT N.parts N.numbers N.Ring.numbers aim (option_copied orders.entry) rule.now.row frame.now) result }
{
    let drawing = drawing_of(alloc, rule, frame)?;
    fold_drawing(alloc, aim, orders, drawing)
}

/// The vertices, edges and faces of a frame, or why it has none.
fn drawing_of<N: Exact, F: Fn(Decimal) -> Result<N, Unread>>(
    alloc: Global,
    rule: &NumberRule<N, F>,
    frame: &Effective,
) -> Result<(Ends<N>, List<Face>), Status>
    requires keeps { KeepsItsRow N.ROOT N.parts rule.now.row (F.pre rule.now.call) (F.post rule.now.call) }
    requires ready { IsReadyAt N.ROOT (OfFrame frame.now) }
    ensures drawing { Steps (LacksDrawing N.ROOT N.parts rule.now.row frame.now)
        (HasDrawing N.ROOT N.parts rule.now.row true frame.now.entries) result }
    ensures within { IfOk result AreWithin }
{
    Ok(frame_ends(alloc, frame, rule, true)?)
}

/// What is made of a drawing.
fn fold_drawing<N: Exact>(
    alloc: Global,
    aim: Aim,
    orders: Option<&List<FaceOrder>>,
    drawing: (Ends<N>, List<Face>),
) -> Result<Text, Status>
    requires within { AreWithin drawing }
    requires orders { AreOrdersWithin (length drawing.1) (option_copied orders) }
    ensures { Follows (FoldsDrawing N.ROOT N.parts N.numbers N.Ring.numbers aim (option_copied orders.entry) drawing) result }
{
    let folded = folded_of(alloc, drawing)?;
    make_of(alloc, aim, orders, &folded)
}

/// A drawing folded flat, or why it doesn't fold.
fn folded_of<N: Exact>(alloc: Global, drawing: (Ends<N>, List<Face>)) -> Result<Folded<N>, Status>
    requires { AreWithin drawing }
    ensures layout { Steps (LacksForm N.ROOT N.parts N.numbers N.Ring.numbers drawing)
        (HasLayout N.ROOT N.parts N.numbers N.Ring.numbers drawing) result }
    ensures faces { IfOk result (λ folded. folded.sheet.faces ≡ drawing.1) }
{
    let (ends, faces) = drawing;
    Ok(fold_ends(alloc, ends, faces)?)
}

/// What is made of a folded sheet.
fn make_of<N: Exact>(
    alloc: Global,
    aim: Aim,
    orders: Option<&List<FaceOrder>>,
    folded: &Folded<N>,
) -> Result<Text, Status>
    requires { AreOrdersWithin (length folded.now.sheet.faces) (option_copied orders) }
    ensures { Follows (MakesOf N.ROOT N.parts N.numbers N.Ring.numbers aim (option_copied orders.entry) folded.now) result }
{
    match aim {
        Aim::Form => write_form(alloc, orders, folded),
        Aim::Verdict => match orders {
            Some(orders) => judge_layers(alloc, orders.as_slice(), folded),
            None => judge_layers(alloc, &[], folded),
        },
    }
}

/// The folded form of a sheet, in a line.
fn write_form<N: Exact>(
    alloc: Global,
    orders: Option<&List<FaceOrder>>,
    folded: &Folded<N>,
) -> Result<Text, Status>
    requires { AreOrdersWithin (length folded.now.sheet.faces) (option_copied orders) }
    ensures { Follows (WritesForm N.ROOT N.parts N.numbers N.Ring.numbers (option_copied orders.entry) folded.now) result }
{
    let file = folded_file(alloc, folded, orders)?;
    Ok(line_of_file(alloc, &file)?)
}

/// Whether the layers can lie as the faces are ordered: yes, or else the first crossing.
fn judge_layers<N: Exact>(
    alloc: Global,
    orders: &[FaceOrder],
    folded: &Folded<N>,
) -> Result<Text, Status>
    requires { AreOrdersWithin (length folded.now.sheet.faces) (Some orders.now) }
    ensures { Follows (JudgesLayers N.ROOT N.parts N.numbers N.Ring.numbers orders.now folded.now) result }
{
    match verdict_on(alloc, orders, folded)? {
        Verdict::Fits => Ok(Text::from_text(alloc, "yes\n")?),
        Verdict::Crosses(crossing) => Err(Status::No(NoCause::Crossing(crossing))),
    }
}

/// How the layers lie by these orders, or why the orders don't say it.
fn verdict_on<N: Exact>(
    alloc: Global,
    orders: &[FaceOrder],
    folded: &Folded<N>,
) -> Result<Verdict, Status>
    requires { AreOrdersWithin (length folded.now.sheet.faces) (Some orders.now) }
    ensures { Steps (LackOrder N.ROOT N.parts N.numbers N.Ring.numbers orders.now folded.now)
        (HaveVerdict N.ROOT N.parts N.numbers N.Ring.numbers orders.now folded.now) result }
{
    let sheet = FoldedLayers::new(folded);
    Ok(judge(alloc, &sheet, orders)?)
}

/// What is made of a frame is one thing at most.
pub fn one_fold<N: Exact>()
    ensures { IsFoldedOnce N.ROOT N.parts N.numbers N.Ring.numbers }
{
    one_drawing::<N>();
    one_layout::<N>();
    one_form::<N>();
    one_verdict::<N::Ring>();
}

/// That layers fit is a verdict exactly where they lie as they are ordered.
pub fn true_verdicts<N: Exact>()
    ensures { HasTrueVerdicts N.ROOT N.parts N.numbers N.Ring.numbers }
{
    list_decides_points::<N::Ring>();
    folded_sheets_have_layers::<N>();
}

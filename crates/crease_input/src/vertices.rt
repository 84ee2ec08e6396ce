// The vertices of a frame.
ghost use Rattle.std.specs.Prelude.{◌≡◌, ◌↔◌, ◌⊎◌, ◌<◌, ◌≤◌, ◌^◌, length, slice_get, All, IsTrue, IfSome, Some};
ghost use Rattle.std.specs.List.{AllByRecursion};
ghost use Rattle.std.specs.Option.{option_copied, option_and_then};
ghost use Rattle.number_rules.specs.ExactText.{AreShort};
ghost use Rattle.number_rules.specs.Kept.{KeepsItsRow};
ghost use Rattle.crease_input.specs.Files.{HasShortParts};
ghost use Rattle.crease_input.specs.Lines.{Answers};
ghost use Rattle.crease_input.specs.Frames.{HasRoundedValue, IsReadablePoint, AnswersVertex, AnswersVertices, spelled, vertices_in};

use crate::exact::exact_point;
use crate::fault::InputFault;
use crate::reading::read_point;
use exact_number::Exact;
use fold_base::{List, Text};
use frame_lines::is_flat;
use json_tree::NumberText;
use number_rules::{
    Decimal, NumberRule, Unread, has_billionths, nine_texts, one_nine, round_to_nine,
};
use scaled_plane::Pair;
use std::alloc::{AllocError, Global};

/// Whether the text has the value of the number, rounded to nine decimals.
fn has_rounded_value<N: Exact>(value: N, text: &NumberText) -> bool
    requires short { AreShort (N.parts value) }
    requires readable { length text.now ≤ 16777216 }
    ensures { IsTrue result ↔ HasRoundedValue N.ROOT (N.parts value) text.now }
{
    nine_texts();
    one_nine();
    has_billionths(text, round_to_nine(value).near)
}

/// Whether the coordinates of a vertex have the values of its exact numbers, rounded to nine decimals.
fn is_fresh<N: Exact>(number: Pair<N>, point: &[NumberText]) -> bool
    requires short { HasShortParts N.parts number }
    requires axes { 2 ≤ length point.now }
    requires readable { IsReadablePoint point.now }
    ensures { IsTrue result ↔ (HasRoundedValue N.ROOT (N.parts number.x) (spelled point.now 0)
        × HasRoundedValue N.ROOT (N.parts number.y) (spelled point.now 1)) }
{
    has_rounded_value(number.x, &point[0]) && has_rounded_value(number.y, &point[1])
}

/// A vertex by its exact texts where it has these, else by the rule.
fn read_vertex<N: Exact, F: Fn(Decimal) -> Result<N, Unread>>(
    rule: &NumberRule<N, F>,
    point: &List<NumberText>,
    exact: Option<&(Text, Text)>,
    vertex: u32,
) -> Result<Pair<N>, InputFault>
    requires keeps { KeepsItsRow N.ROOT N.parts rule.now.row (F.pre rule.now.call) (F.post rule.now.call) }
    requires root { IfSome exact (λ texts. (N.ROOT ≡ 2) ⊎ (N.ROOT ≡ 3)) }
    requires axes { 2 ≤ length point.now }
    requires readable { IsReadablePoint point.now }
    ensures { AnswersVertex N.ROOT N.parts (Answers N.ROOT N.parts rule.now.row (F.post rule.now.call))
        (record { point = point.now; exact = option_copied exact.entry }) vertex result }
{
    let point = point.as_slice();
    if !is_flat(point) {
        return Err(InputFault::NotFlat { vertex });
    }
    match exact {
        None => read_point(rule, &point[0], &point[1], vertex),
        Some((x, y)) => {
            let number = exact_point(x, y, vertex)?;
            if is_fresh(number, point) {
                Ok(number)
            } else {
                Err(InputFault::Stale { vertex })
            }
        }
    }
}

/// The exact texts at this place, where there are any.
fn texts_at<'a>(exact: Option<&'a [(Text, Text)]>, place: usize) -> Option<&'a (Text, Text)>
    ensures { option_copied result ≡ option_and_then (λ texts. slice_get texts place) (option_copied exact.entry) }
{
    exact?.get(place)
}

/// The vertices, in their order.
pub(crate) fn read_vertices<N: Exact, F: Fn(Decimal) -> Result<N, Unread>>(
    alloc: Global,
    rule: &NumberRule<N, F>,
    points: &[List<NumberText>],
    exact: Option<&[(Text, Text)]>,
) -> Result<List<Pair<N>>, InputFault>
    requires keeps { KeepsItsRow N.ROOT N.parts rule.now.row (F.pre rule.now.call) (F.post rule.now.call) }
    requires root { IfSome exact (λ texts. (N.ROOT ≡ 2) ⊎ (N.ROOT ≡ 3)) }
    requires even { IfSome (option_copied exact) (λ texts. length texts ≡ length points.now) }
    requires few { length points.now < 2 ^ 32 }
    requires axes { All (λ point. 2 ≤ length point) points.now }
    requires readable { AllByRecursion IsReadablePoint points.now }
    ensures { AnswersVertices N.ROOT N.parts (Answers N.ROOT N.parts rule.now.row (F.post rule.now.call))
        (vertices_in points.now (option_copied exact.entry)) result }
{
    let mut coords = List::with_room(alloc, points.len())?;
    for (vertex, point) in points.iter().enumerate() {
        let number = read_vertex(rule, point, texts_at(exact, vertex), vertex as u32)?;
        coords.push(number).map_err(AllocError::from)?;
    }
    Ok(coords)
}

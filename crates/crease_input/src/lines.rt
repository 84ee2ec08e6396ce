// The vertices and edges of lines.
ghost use Rattle.std.specs.Prelude.{◌≡◌, ◌+◌, ◌*◌, ◌<◌, ◌≤◌, ◌^◌, length, map, IfOk, OnOk, Err};
ghost use Rattle.std.specs.List.{AllByRecursion};
ghost use Rattle.number_rules.specs.Kept.{KeepsItsRow};
ghost use Rattle.crease_input.specs.Lines.{IsReadable, Answers, AnswersEnds, IsWithin, edge_in};
ghost use Rattle.crease_input.specs.Files.{HasShortParts};
ghost use Rattle.crease_input.specs.Readings.{ReadsEnds};
ghost use Rattle.crease_input.specs.Points.{place_in, with_point};
ghost use Rattle.crease_input.specs.declared.fault.Counted.TheVariants.{Segments};
ghost use Rattle.crease_input.specs.declared.fault.InputFault.TheVariants.{TooMany};

use crate::corner::Corner;
use crate::crease::Crease;
use crate::fault::{Counted, InputFault};
use crate::reading::read_line;
use cp_lines::CpLine;
use exact_number::Exact;
use fold_base::List;
use indexmap::IndexSet;
use number_rules::{Decimal, NumberRule, Unread};
use scaled_plane::{Edge, Ends, Pair};
use std::alloc::{AllocError, Global};

/// The most segments that are computed with.
const MOST_SEGMENTS: usize = 2048;

/// The place of the point among the vertices, the last of which it becomes where it's none of them.
fn vertex_at<N: Exact>(corners: &mut IndexSet<Corner<N>>, point: Pair<N>) -> Result<u32, AllocError>
    requires few { length corners.old.keys < 2 ^ 32 }
    ensures place { IfOk result (λ vertex. vertex ≡ place_in N.parts (map (λ c. c.point) corners.old.keys) point) }
    ensures points { OnOk result (map (λ c. c.point) corners.new.keys
        ≡ with_point N.parts (map (λ c. c.point) corners.old.keys) point) }
{
    match corners.insert_full(Corner { point }) {
        Ok((place, _)) => Ok(place as u32),
        Err(failed) => Err(AllocError::from(failed)),
    }
}

/// The edge of the crease between vertices, to which its ends are put.
fn edge_of<N: Exact>(
    corners: &mut IndexSet<Corner<N>>,
    crease: Crease<N>,
) -> Result<Edge, AllocError>
    requires few { length corners.old.keys + 1 < 2 ^ 32 }
    ensures points { OnOk result (map (λ c. c.point) corners.new.keys
        ≡ with_point N.parts (with_point N.parts (map (λ c. c.point) corners.old.keys) crease.from) crease.to) }
    ensures edge { IfOk result (λ edge. edge ≡ edge_in N.parts (map (λ c. c.point) corners.new.keys) crease) }
{
    let from = vertex_at(corners, crease.from)?;
    let to = vertex_at(corners, crease.to)?;
    Ok(Edge {
        from,
        to,
        letter: crease.letter,
    })
}

fn points_of<N: Exact>(
    alloc: Global,
    corners: &IndexSet<Corner<N>>,
) -> Result<List<Pair<N>>, AllocError>
    ensures { IfOk result (λ points. points ≡ map (λ c. c.point) corners.now.keys) }
{
    let mut points = List::with_room(alloc, corners.len())?;
    for corner in corners.as_slice() {
        points.push(corner.point)?;
    }
    Ok(points)
}

/// The vertices and edges of any number of lines: the vertices are the distinct ends in the order in which each first comes,
/// the edges the lines in their order. An end is told by its number, two for each line.
pub fn all_lines_ends<N: Exact, F: Fn(Decimal) -> Result<N, Unread>>(
    alloc: Global,
    lines: &[CpLine],
    rule: &NumberRule<N, F>,
) -> Result<Ends<N>, InputFault>
    requires keeps { KeepsItsRow N.ROOT N.parts rule.now.row (F.pre rule.now.call) (F.post rule.now.call) }
    requires readable { AllByRecursion IsReadable lines.now }
    requires few { length lines.now < 2 ^ 31 }
    ensures ends { AnswersEnds N.parts (Answers N.ROOT N.parts rule.now.row (F.post rule.now.call)) lines.now result }
    ensures row { ReadsEnds N.ROOT N.parts rule.now.row lines.now result }
    ensures within { IfOk result (λ ends. IsWithin lines.now ends) }
    ensures short { IfOk result (λ ends. AllByRecursion (HasShortParts N.parts) ends.coords) }
{
    let mut corners = IndexSet::new(alloc);
    let mut edges = List::with_room(alloc, lines.len())?;
    for (number, line) in lines.iter().enumerate() {
        let crease = read_line(rule, line, number as u32)?;
        let edge = edge_of(&mut corners, crease)?;
        edges.push(edge).map_err(AllocError::from)?;
    }
    let coords = points_of(alloc, &corners)?;
    Ok(Ends { coords, edges })
}

/// The vertices and edges of at most 2,048 lines: each different end is a vertex, in the order in which they first come, and
/// each line an edge with the letter of its kind.
///
/// More lines are [`InputFault::TooMany`]. Else the first coordinate that isn't read is the error, in the order of the lines, and
/// of each x before y and the first end before the second; its vertex counts the ends before it, two for each line.
pub fn lines_ends<N: Exact, F: Fn(Decimal) -> Result<N, Unread>>(
    alloc: Global,
    lines: &[CpLine],
    rule: &NumberRule<N, F>,
) -> Result<Ends<N>, InputFault>
    requires keeps { KeepsItsRow N.ROOT N.parts rule.now.row (F.pre rule.now.call) (F.post rule.now.call) }
    requires readable { AllByRecursion IsReadable lines.now }
    ensures ends { length lines.now ≤ 2048
        → AnswersEnds N.parts (Answers N.ROOT N.parts rule.now.row (F.post rule.now.call)) lines.now result }
    ensures row { length lines.now ≤ 2048 → ReadsEnds N.ROOT N.parts rule.now.row lines.now result }
    ensures too_many { 2048 < length lines.now → result ≡ Err (TooMany Segments) }
    ensures within { IfOk result (λ ends. IsWithin lines.now ends) }
    ensures short { IfOk result (λ ends. AllByRecursion (HasShortParts N.parts) ends.coords) }
{
    if lines.len() > MOST_SEGMENTS {
        return Err(InputFault::TooMany {
            what: Counted::Segments,
        });
    }
    all_lines_ends(alloc, lines, rule)
}

ghost use Rattle.std.specs.Prelude.{◌≡◌, ◌⊎◌, ◌∷◌, ◌++◌, [], ℕ, ◌+◌, ◌<◌, ◌≤◌, length, map, Contains, IfOk, OnOk, List as Listed};
ghost use Rattle.std.specs.List.Sorted.{IsStrictlySortedBy};
ghost use Rattle.std.specs.Ordering.{is_eq};
ghost use Rattle.plane.specs.Points.{IsPoint, point_order};
ghost use Rattle.plane.specs.Lines.{line, value};
ghost use Rattle.scaled_plane.specs.declared.point.Segment.{Segment as AnySegment};
ghost use Rattle.scaled_plane.specs.Drawn.{IsScaledSegment};
ghost use Rattle.scaled_plane.specs.Pieces.{IsProper};
ghost use Rattle.scaled_plane.specs.Sizes.{IsDrawnSize, IsLineSize};
ghost use Rattle.arrangement.specs.Covers.{HasCovers, HasCoversBefore, HasEndsAt, IsLastOn, IsPlaceOf};
ghost use Rattle.arrangement.specs.Found.{Has, HasEnds, IsUsable};

use crate::covering::cover_piece;
use crate::covers::Covers;
use crate::span::is_proper;
use crate::vertex::{Vertex, vertex_at};
use exact_number::Whole;
use plane::{Line, Point};
use scaled_plane::{Segment, line_through};
use std::alloc::{AllocError, Global};
use std::collections::BTreeMap;

/// A segment that is cut, its line, and the places of its ends, the lesser first.
#[derive(Clone, Copy)]
struct Cut<W> {
    segment: Segment<W>,
    line: Line<W>,
    ends: (u32, u32),
}

/// The place of a point among the vertices.
fn place_of<W: Whole>(vertices: &[Vertex<W>], point: Point<W>) -> u32
    requires point { IsPoint W.numbers.ring point }
    requires within { IsDrawnSize W.pair point }
    requires few { length vertices.now ≤ 16384 }
    requires sorted { IsStrictlySortedBy (point_order W.numbers.ring) (map (λ v. v.point) vertices.now) }
    requires has { Has W.numbers.ring (map (λ v. v.point) vertices.now) point }
    ensures { IsPlaceOf W.numbers.ring (map (λ v. v.point) vertices.now) point result }
{
    match vertices.binary_search(&vertex_at(point)) {
        Ok(place) => place as u32,
        Err(_) => unreachable!(),
    }
}

/// Whether a line goes through a point.
fn goes_through<W: Whole>(line: Line<W>, point: Point<W>) -> bool
    requires line { IsLineSize W.pair line }
    requires point { IsDrawnSize W.pair point }
    ensures { result ≡ is_eq (W.numbers.sign (value W.numbers.ops line point)) }
{
    let by_x = line.a.mul(point.x);
    let by_y = line.b.mul(point.y);
    let by_w = line.c.mul(point.w);
    by_x.add(by_y).add(by_w).sign().is_eq()
}

/// Notes the piece of a segment that ends in a vertex, if the vertex lies on the segment. Gives the last vertex on it so far.
fn cut_at<W: Whole>(
    covers: &mut Covers,
    cut: &Cut<W>,
    last: u32,
    place: u32,
    vertices: &[Vertex<W>],
) -> Result<u32, AllocError>
    requires usable { IsUsable W.numbers cut.now.segment }
    requires line { cut.now.line ≡ line W.numbers.ops cut.now.segment.from cut.now.segment.to }
    requires sizes { IsLineSize W.pair cut.now.line }
    requires ends { HasEndsAt W.numbers.ring (map (λ v. v.point) vertices.now) cut.now.segment cut.now.ends }
    requires sorted { IsStrictlySortedBy (point_order W.numbers.ring) (map (λ v. v.point) vertices.now) }
    requires begun { cut.now.ends.0 < place }
    requires within { place ≤ cut.now.ends.1 }
    requires in_range { place < length vertices.now }
    requires last { IsLastOn W.numbers.ring (map (λ v. v.point) vertices.now) cut.now.segment place last }
    ensures last { IfOk result (λ r. IsLastOn W.numbers.ring (map (λ v. v.point) vertices.now) cut.now.segment (place + 1) r) }
    ensures covers { OnOk result ((segments : Listed (AnySegment W))
        → HasCoversBefore W.numbers.ring (map (λ v. v.point) vertices.now) segments cut.now.segment place covers.old
        → HasCoversBefore W.numbers.ring (map (λ v. v.point) vertices.now) segments cut.now.segment (place + 1) covers.new) }
{
    if !goes_through(cut.line, vertices[place as usize].point) {
        return Ok(last);
    }
    cover_piece(covers, (last, place), cut.ends, cut.segment.letter)?;
    Ok(place)
}

/// A proper segment with its line and the places of its ends.
fn cut_of<W: Whole>(s: Segment<W>, vertices: &[Vertex<W>]) -> Cut<W>
    requires usable { IsUsable W.numbers s }
    requires few { length vertices.now ≤ 16384 }
    requires sorted { IsStrictlySortedBy (point_order W.numbers.ring) (map (λ v. v.point) vertices.now) }
    requires has { HasEnds W.numbers.ring (map (λ v. v.point) vertices.now) s }
    ensures segment { result.segment ≡ s }
    ensures line { result.line ≡ line W.numbers.ops s.from s.to }
    ensures sizes { IsLineSize W.pair result.line }
    ensures ends { HasEndsAt W.numbers.ring (map (λ v. v.point) vertices.now) s result.ends }
{
    let from = place_of(vertices, s.from);
    let to = place_of(vertices, s.to);
    Cut {
        segment: s,
        line: line_through(s.from, s.to),
        ends: (from.min(to), from.max(to)),
    }
}

/// Notes the pieces of a segment.
fn cut_segment<W: Whole>(
    covers: &mut Covers,
    s: Segment<W>,
    vertices: &[Vertex<W>],
) -> Result<(), AllocError>
    requires usable { IsUsable W.numbers s }
    requires few { length vertices.now ≤ 16384 }
    requires sorted { IsStrictlySortedBy (point_order W.numbers.ring) (map (λ v. v.point) vertices.now) }
    requires has { HasEnds W.numbers.ring (map (λ v. v.point) vertices.now) s }
    ensures { OnOk result ((segments : Listed (AnySegment W))
        → HasCovers W.numbers.ring (map (λ v. v.point) vertices.now) segments covers.old
        → HasCovers W.numbers.ring (map (λ v. v.point) vertices.now) (segments ++ s ∷ []) covers.new) }
{
    let cut = cut_of(s, vertices);
    let mut last = cut.ends.0;
    for place in cut.ends.0 + 1..cut.ends.1 + 1 {
        last = cut_at(covers, &cut, last, place, vertices)?;
    }
    Ok(())
}

/// Notes the pieces of a segment, if it has any.
fn cut_proper<W: Whole>(
    covers: &mut Covers,
    s: Segment<W>,
    vertices: &[Vertex<W>],
) -> Result<(), AllocError>
    requires scaled { IsScaledSegment W.numbers s }
    requires few { length vertices.now ≤ 16384 }
    requires sorted { IsStrictlySortedBy (point_order W.numbers.ring) (map (λ v. v.point) vertices.now) }
    requires has { IsProper W.numbers.ring s → HasEnds W.numbers.ring (map (λ v. v.point) vertices.now) s }
    ensures { OnOk result ((segments : Listed (AnySegment W))
        → HasCovers W.numbers.ring (map (λ v. v.point) vertices.now) segments covers.old
        → HasCovers W.numbers.ring (map (λ v. v.point) vertices.now) (segments ++ s ∷ []) covers.new) }
{
    if is_proper(s) {
        cut_segment(covers, s, vertices)
    } else {
        Ok(())
    }
}

/// What covers each piece of the segments.
pub fn cut_all<W: Whole>(
    alloc: Global,
    segments: &[Segment<W>],
    vertices: &[Vertex<W>],
) -> Result<Covers, AllocError>
    requires scaled { (s : AnySegment W) → Contains segments.now s → IsScaledSegment W.numbers s }
    requires few { length vertices.now ≤ 16384 }
    requires sorted { IsStrictlySortedBy (point_order W.numbers.ring) (map (λ v. v.point) vertices.now) }
    requires has { (s : AnySegment W) → Contains segments.now s → IsProper W.numbers.ring s
        → HasEnds W.numbers.ring (map (λ v. v.point) vertices.now) s }
    ensures { IfOk result (HasCovers W.numbers.ring (map (λ v. v.point) vertices.now) segments.now) }
{
    let mut covers = BTreeMap::new(alloc);
    for segment in segments {
        cut_proper(&mut covers, *segment, vertices)?;
    }
    Ok(covers)
}

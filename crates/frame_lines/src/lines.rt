ghost use Rattle.std.specs.Prelude.{◌≡◌, ◌<◌, ◌≤◌, true, None, Some, not, length, map, zip, codes, All, IfOk, MatchResult};
ghost use Rattle.std.specs.List.{position};
ghost use Rattle.fold_frames.specs.Counts.{misfit_in_effect};
ghost use Rattle.fold_frames.specs.Parents.{value_at};
ghost use Rattle.fold_keys.specs.Writable.{IsWritableEntry};
ghost use Rattle.fold_keys.specs.declared.value.Value.TheVariants as values;
ghost use Rattle.frame_lines.specs.Lines.{AnswersLines, IsLacking, IsMissing, coordinate, is_flat, kind_of, letters_in, line_of};

use crate::fault::LinesFault;
use crate::zero::is_zero;
use cp_lines::CpLine;
use fold_base::{Letter, List, Text};
use fold_frames::Effective;
use fold_keys::Value;
use json_tree::NumberText;
use std::alloc::{AllocError, Global};

/// The lines of the frame's edges, in their order, or why it has none.
pub fn frame_lines(alloc: Global, frame: &Effective) -> Result<List<CpLine>, LinesFault>
    requires { misfit_in_effect frame.now ≡ None }
    ensures answer { AnswersLines frame.now.entries result }
    ensures kinds { IfOk result (All (λ line. line.kind ≤ 4)) }
{
    let points = points_of(alloc, frame)?;
    let edges = edges_of(alloc, frame)?;
    if let Some(vertex) = first_steep(points) {
        return Err(LinesFault::NotFlat {
            vertex: vertex as u32,
        });
    }
    let letters = letters_of(alloc, frame, edges.len())?;
    Ok(lines_of(alloc, points, edges, letters.as_slice())?)
}

/// The coordinates of the frame's vertices.
fn points_of<'a>(alloc: Global, frame: &'a Effective) -> Result<&'a [List<NumberText>], LinesFault>
    ensures { MatchResult result
        (λ points. (value_at frame.now.entries (codes "vertices_coords") ≡ Some (values.Coords points.now))
        × IsWritableEntry true (record { key = codes "vertices_coords"; value = values.Coords points.now }))
        (IsLacking frame.now.entries (codes "vertices_coords")) }
{
    match frame.get(b"vertices_coords") {
        Some(Value::Coords(points)) => Ok(points.as_slice()),
        Some(_) => unreachable!(),
        None => Err(missing(alloc, "vertices_coords")),
    }
}

/// The vertices of the frame's edges.
fn edges_of<'a>(alloc: Global, frame: &'a Effective) -> Result<&'a [(u32, u32)], LinesFault>
    ensures { MatchResult result
        (λ edges. value_at frame.now.entries (codes "edges_vertices") ≡ Some (values.Pairs edges.now))
        (IsLacking frame.now.entries (codes "edges_vertices")) }
{
    match frame.get(b"edges_vertices") {
        Some(Value::Pairs(edges)) => Ok(edges.as_slice()),
        Some(_) => unreachable!(),
        None => Err(missing(alloc, "edges_vertices")),
    }
}

/// The letters of so many edges: nobody has chosen how they are folded where the frame has none.
pub fn letters_of(
    alloc: Global,
    frame: &Effective,
    edges: usize,
) -> Result<List<Letter>, AllocError>
    ensures { IfOk result (λ letters.
        letters ≡ letters_in edges (value_at frame.now.entries (codes "edges_assignment"))) }
{
    match frame.get(b"edges_assignment") {
        Some(Value::Letters(letters)) => List::from_slice(alloc, letters.as_slice()),
        Some(_) => unreachable!(),
        None => Ok(List::from_vec(vec![in alloc; Letter::Unassigned; edges]?)),
    }
}

/// That the frame lacks the key, or that memory is wanting to say so.
fn missing(alloc: Global, key: &str) -> LinesFault
    ensures { IsMissing key.now result }
{
    match Text::from_text(alloc, key) {
        Ok(key) => LinesFault::Missing { key },
        Err(error) => LinesFault::Memory(error),
    }
}

/// The place of the first vertex whose third coordinate isn't 0.
fn first_steep(points: &[List<NumberText>]) -> Option<usize>
    ensures { result ≡ position (λ point. not (is_flat point)) points.now }
{
    points.iter().position(|point| !is_flat(point.as_slice()))
}

/// Whether the value of a third coordinate, if there is one, is 0.
pub fn is_flat(point: &[NumberText]) -> bool
    ensures { result ≡ is_flat point.now }
{
    match point {
        [_, _, z, ..] => is_zero(z.bytes()),
        _ => true,
    }
}

/// A line for each edge: the coordinates of its two ends, and the kind of its letter.
pub fn lines_of(
    alloc: Global,
    points: &[List<NumberText>],
    edges: &[(u32, u32)],
    letters: &[Letter],
) -> Result<List<CpLine>, AllocError>
    requires axes { All (λ point. 2 ≤ length point) points.now }
    requires within { All (λ edge. (edge.0 < length points.now) × (edge.1 < length points.now)) edges.now }
    requires letters { length letters.now ≡ length edges.now }
    ensures lines { IfOk result (λ lines. lines ≡ map (line_of points.now) (zip edges.now letters.now)) }
{
    let mut lines = List::with_room(alloc, edges.len())?;
    for (place, edge) in edges.iter().enumerate() {
        lines
            .push(line_of(alloc, points, *edge, letters[place])?)
            .map_err(AllocError::from)?;
    }
    Ok(lines)
}

fn line_of(
    alloc: Global,
    points: &[List<NumberText>],
    edge: (u32, u32),
    letter: Letter,
) -> Result<CpLine, AllocError>
    requires axes { All (λ point. 2 ≤ length point) points.now }
    requires first { edge.0 < length points.now }
    requires second { edge.1 < length points.now }
    ensures { IfOk result (λ line. line ≡ line_of points.now (edge, letter)) }
{
    let (first, second) = edge;
    Ok(CpLine {
        kind: kind_of(letter),
        x1: coordinate(alloc, points, first, 0)?,
        y1: coordinate(alloc, points, first, 1)?,
        x2: coordinate(alloc, points, second, 0)?,
        y2: coordinate(alloc, points, second, 1)?,
    })
}

fn coordinate(
    alloc: Global,
    points: &[List<NumberText>],
    vertex: u32,
    axis: usize,
) -> Result<NumberText, AllocError>
    requires axes { All (λ point. 2 ≤ length point) points.now }
    requires vertex { vertex < length points.now }
    requires axis { axis < 2 }
    ensures { IfOk result (λ text. text ≡ coordinate points.now vertex axis) }
{
    points[vertex as usize].as_slice()[axis].copy(alloc)
}

/// The kind that stands for a letter.
fn kind_of(letter: Letter) -> u8
    ensures { result ≡ kind_of letter }
{
    match letter {
        Letter::Border | Letter::Cut => 1,
        Letter::Mountain => 2,
        Letter::Valley => 3,
        Letter::Flat | Letter::Unassigned | Letter::Join => 4,
    }
}

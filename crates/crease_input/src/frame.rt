// The vertices, edges and faces of a frame.
ghost use Rattle.std.specs.Prelude.{◌≡◌, true, Some, None, All, IsSome, length, map, zip, codes, IfOk, IfSome, MatchResult};
ghost use Rattle.std.specs.List.{AllByRecursion, filter_map};
ghost use Rattle.std.specs.Option.{option_copied};
ghost use Rattle.fold_frames.specs.Counts.{misfit_in_effect};
ghost use Rattle.fold_frames.specs.Parents.{value_at};
ghost use Rattle.fold_keys.specs.Writable.{IsWritableEntry};
ghost use Rattle.fold_keys.specs.declared.value.Value.TheVariants as values;
ghost use Rattle.frame_lines.specs.Lines.{points_of};
ghost use Rattle.number_rules.specs.Kept.{KeepsItsRow};
ghost use Rattle.crease_input.specs.Lines.{Answers};
ghost use Rattle.crease_input.specs.Roots.{root_of};
ghost use Rattle.crease_input.specs.Files.{HasShortParts};
ghost use Rattle.crease_input.specs.Readings.{ReadsFrame};
ghost use Rattle.crease_input.specs.Frames.{AnswersFrame, AreWithin, HasCorners, IsLacking, IsMissing, IsReadablePoint, LacksCorners, edge_of, exact_of, excess, face_of};

use crate::fault::{Counted, InputFault};
use crate::vertices::read_vertices;
use exact_number::Exact;
use fold_base::{Letter, List, Text};
use fold_frames::Effective;
use fold_keys::Value;
use frame_lines::letters_of;
use json_tree::NumberText;
use number_rules::{Decimal, NumberRule, Unread};
use scaled_plane::{Edge, Ends, Face};
use std::alloc::{AllocError, Global};

/// The most vertices that are computed with.
const MOST_VERTICES: usize = 16_384;

/// The most segments that are computed with.
const MOST_SEGMENTS: usize = 2048;

/// The most faces that are computed with.
const MOST_FACES: usize = 512;

/// That the frame lacks the key, or that memory is wanting to say so.
fn missing(alloc: Global, key: &str) -> InputFault
    ensures { IsMissing key.now result }
{
    match Text::from_text(alloc, key) {
        Ok(key) => InputFault::Missing { key },
        Err(error) => InputFault::Memory(error),
    }
}

/// The coordinates of the frame's vertices.
fn points_of<'a>(alloc: Global, frame: &'a Effective) -> Result<&'a [List<NumberText>], InputFault>
    ensures { MatchResult result
        (λ points. (value_at frame.now.entries (codes "vertices_coords") ≡ Some (values.Coords points.now))
        × IsWritableEntry true (record { key = codes "vertices_coords"; value = values.Coords points.now }))
        (IsLacking frame.now.entries (codes "vertices_coords")) }
{
    match frame.get(b"vertices_coords") {
        Some(Value::Coords(points)) => Ok(points.as_slice()),
        Some(_) => unreachable!(),
        None => Err(missing(alloc, "vertices_coords")),
    }
}

/// The exact texts of its vertices, where it has them.
fn exact_of(frame: &Effective) -> Option<&[(Text, Text)]>
    ensures { option_copied result ≡ exact_of frame.now.entries }
{
    match frame.get(b"fx:vertices_coords") {
        Some(Value::Exact(texts)) => Some(texts.as_slice()),
        Some(_) => unreachable!(),
        None => None,
    }
}

/// The vertices of its edges.
fn pairs_of<'a>(alloc: Global, frame: &'a Effective) -> Result<&'a [(u32, u32)], InputFault>
    ensures { MatchResult result
        (λ pairs. value_at frame.now.entries (codes "edges_vertices") ≡ Some (values.Pairs pairs.now))
        (IsLacking frame.now.entries (codes "edges_vertices")) }
{
    match frame.get(b"edges_vertices") {
        Some(Value::Pairs(pairs)) => Ok(pairs.as_slice()),
        Some(_) => unreachable!(),
        None => Err(missing(alloc, "edges_vertices")),
    }
}

/// What there is too much of.
fn excess(with_faces: bool, vertices: usize, edges: usize, faces: usize) -> Option<Counted>
    ensures { result ≡ excess with_faces vertices edges faces }
{
    if vertices > MOST_VERTICES {
        Some(Counted::Vertices)
    } else if edges > MOST_SEGMENTS {
        Some(Counted::Segments)
    } else if with_faces && faces > MOST_FACES {
        Some(Counted::Faces)
    } else {
        None
    }
}

fn edge_of(pair: (u32, u32), letter: Letter) -> Edge
    ensures { result ≡ edge_of (pair, letter) }
{
    let (from, to) = pair;
    Edge { from, to, letter }
}

/// The edges with their letters.
fn edges_of(
    alloc: Global,
    pairs: &[(u32, u32)],
    letters: &[Letter],
) -> Result<List<Edge>, AllocError>
    requires { length letters.now ≡ length pairs.now }
    ensures { IfOk result (λ edges. edges ≡ map edge_of (zip pairs.now letters.now)) }
{
    let mut edges = List::with_room(alloc, pairs.len())?;
    for (place, pair) in pairs.iter().enumerate() {
        edges
            .push(edge_of(*pair, letters[place]))
            .map_err(AllocError::from)?;
    }
    Ok(edges)
}

/// The ids that are there.
fn ids_of(alloc: Global, ids: &[Option<u32>]) -> Result<Vec<u32>, AllocError>
    ensures { IfOk result (λ found. found.items ≡ filter_map (λ id. id) ids.now) }
{
    ids.iter().filter_map(|id| *id).collect(alloc)
}

/// The faces with these corners.
fn faces_of(alloc: Global, lists: &[List<Option<u32>>]) -> Result<List<Face>, AllocError>
    ensures { IfOk result (λ faces. faces ≡ map face_of lists.now) }
{
    let mut faces = List::with_room(alloc, lists.len())?;
    for ids in lists {
        let corners = List::from_vec(ids_of(alloc, ids.as_slice())?);
        faces.push(Face { corners }).map_err(AllocError::from)?;
    }
    Ok(faces)
}

/// The corners of its faces, where they are asked for.
fn corners_of<'a>(
    alloc: Global,
    frame: &'a Effective,
    faces: bool,
) -> Result<&'a [List<Option<u32>>], InputFault>
    ensures { MatchResult result (λ lists. HasCorners faces frame.now.entries lists.now) (LacksCorners faces frame.now.entries) }
{
    if !faces {
        return Ok(&[]);
    }
    if frame.get(b"edges_assignment").is_none() {
        return Err(missing(alloc, "edges_assignment"));
    }
    match frame.get(b"faces_vertices") {
        Some(Value::IdLists(lists)) => Ok(lists.as_slice()),
        Some(_) => unreachable!(),
        None => Err(missing(alloc, "faces_vertices")),
    }
}

/// The vertices, edges and faces of a frame, the faces only where they are asked for.
///
/// Where the frame has exact texts these are read, and the rule isn't used. Errors come in this order: a key that the frame
/// lacks; more than 16,384 vertices, 2,048 edges or 512 faces; and then vertex by vertex a third coordinate that isn't 0, one
/// that isn't read, or one that isn't its exact number rounded to nine decimals.
pub fn frame_ends<N: Exact, F: Fn(Decimal) -> Result<N, Unread>>(
    alloc: Global,
    frame: &Effective,
    rule: &NumberRule<N, F>,
    faces: bool,
) -> Result<(Ends<N>, List<Face>), InputFault>
    requires agree { misfit_in_effect frame.now ≡ None }
    requires root { IfSome (root_of frame.now.entries) (λ root. root ≡ N.ROOT) }
    requires keeps { KeepsItsRow N.ROOT N.parts rule.now.row (F.pre rule.now.call) (F.post rule.now.call) }
    requires readable { AllByRecursion IsReadablePoint (points_of frame.now.entries) }
    ensures answer { AnswersFrame N.ROOT N.parts (Answers N.ROOT N.parts rule.now.row (F.post rule.now.call)) faces frame.now.entries result }
    ensures row { ReadsFrame N.ROOT N.parts rule.now.row faces frame.now.entries result }
    ensures within { IfOk result AreWithin }
    ensures short { IfOk result (λ drawn. AllByRecursion (HasShortParts N.parts) drawn.0.coords) }
{
    let points = points_of(alloc, frame)?;
    let pairs = pairs_of(alloc, frame)?;
    let corners = corners_of(alloc, frame, faces)?;
    if let Some(what) = excess(faces, points.len(), pairs.len(), corners.len()) {
        return Err(InputFault::TooMany { what });
    }
    let coords = read_vertices(alloc, rule, points, exact_of(frame))?;
    let letters = letters_of(alloc, frame, pairs.len())?;
    let edges = edges_of(alloc, pairs, letters.as_slice())?;
    let faces = faces_of(alloc, corners)?;
    Ok((Ends { coords, edges }, faces))
}

ghost use Rattle.std.specs.Prelude.{IsTrue};
ghost use Rattle.std.specs.List.{AllByRecursion};
ghost use Rattle.frame_lines.specs.Lines.{points_of};
ghost use Rattle.crease_input.specs.Frames.{IsReadablePoint};

use crate::frames::file_of;
use crease_input::{InputFault, frame_ends, frame_root};
use exact_number::Exact;
use fold_base::List;
use fold_frames::{Effective, FrameFault, effective};
use fold_keys::Value;
use json_tree::NumberText;
use number_rules::{Decimal, read_root_two, root_two_rule};
use root_two::RootTwo;
use scaled_plane::{Ends, Face};
use std::alloc::{AllocError, Global};
use std::test::Fail;

/// The most bytes of a number that is read by its value.
const MOST: usize = 16_777_216;

fn is_point_readable(point: &[NumberText]) -> bool
    ensures { IsTrue result → IsReadablePoint point.now }
{
    for text in point {
        if text.bytes().len() > MOST {
            return false;
        }
    }
    true
}

fn are_points_readable(points: &[List<NumberText>]) -> bool
    ensures { IsTrue result → AllByRecursion IsReadablePoint points.now }
{
    for point in points {
        if !is_point_readable(point.as_slice()) {
            return false;
        }
    }
    true
}

/// Whether the numbers of a frame's vertices are short enough to be read by their values.
fn is_readable(frame: &Effective) -> bool
    ensures { IsTrue result → AllByRecursion IsReadablePoint (points_of frame.now.entries) }
{
    match frame.get(b"vertices_coords") {
        Some(Value::Coords(points)) => are_points_readable(points.as_slice()),
        Some(_) => unreachable!(),
        None => true,
    }
}

/// The parts of the first vertex's x, the letters of the edges, and how many corners each face has.
fn shown(alloc: Global, ends: &Ends<RootTwo>, faces: &List<Face>) -> Result<String, AllocError> {
    let mut text = String::new(alloc);
    if let Some(point) = ends.coords.as_slice().first() {
        let (a, b, q) = point.x.parts();
        text.push_str(format!(in alloc; "({a},{b},{q})")?.as_str())?;
    }
    for edge in ends.edges.as_slice() {
        text.push_str(format!(in alloc; " {:?}", edge.letter)?.as_str())?;
    }
    for face in faces.as_slice() {
        text.push_str(format!(in alloc; " {}", face.corners.len())?.as_str())?;
    }
    Ok(text)
}

/// The drawing of the file's first frame over the root of 2, or why it has none.
fn drawing_of(alloc: Global, text: &str, faces: bool) -> Result<String, Fail> {
    let file = file_of(alloc, text)?;
    let frame = match effective(alloc, &file, 0) {
        Ok(frame) => frame,
        Err(FrameFault::Memory(error)) => return Err(error.into()),
        Err(_) => return Err("no frame".into()),
    };
    match frame.counts(alloc) {
        Ok(_) => {}
        Err(_) => return Err("uneven".into()),
    }
    match frame_root(&frame) {
        Some(root) if root != RootTwo::ROOT => return Err("over another root".into()),
        _ => {}
    }
    if !is_readable(&frame) {
        return Err("long numbers".into());
    }
    let rule = root_two_rule(1, |value: Decimal| read_root_two(1, value));
    match frame_ends(alloc, &frame, &rule, faces) {
        Ok((ends, faces)) => Ok(shown(alloc, &ends, &faces)?),
        Err(InputFault::Memory(error)) => Err(error.into()),
        Err(fault) => Ok(format!(in alloc; "{fault}")?),
    }
}

#[test]
fn drawings(rt: HostRuntime) -> Result<(), Fail> {
    let alloc = rt.alloc();
    for (text, faces, answer) in [
        ("{}", true, "missing vertices_coords"),
        (
            "{\"vertices_coords\":[],\"edges_vertices\":[]}",
            true,
            "missing edges_assignment",
        ),
        (
            "{\"vertices_coords\":[[1,0],[0,0,0.0],[0,1]],\"edges_vertices\":[[0,1],[1,2]]}",
            false,
            "(1,0,1) Unassigned Unassigned",
        ),
        (
            "{\"vertices_coords\":[[1,0],[0,0],[0,1]],\"edges_vertices\":[[0,1]],\"edges_assignment\":[\"V\"],\
             \"faces_vertices\":[[0,1,2]]}",
            true,
            "(1,0,1) Valley 3",
        ),
        (
            "{\"vertices_coords\":[[0.5,0],[0,0,0.5]],\"edges_vertices\":[]}",
            false,
            "unread 0 X NoRoot",
        ),
        (
            "{\"vertices_coords\":[[1,0],[0,0,0.5]],\"edges_vertices\":[]}",
            false,
            "not flat 1",
        ),
        (
            "{\"vertices_coords\":[[4142135620e-10,0]],\"fx:vertices_coords\":[[\"-1,1,1\",\"0,0,1\"]],\
             \"edges_vertices\":[]}",
            false,
            "(-1,1,1)",
        ),
        (
            "{\"vertices_coords\":[[0.414213562373,0]],\"fx:vertices_coords\":[[\"-1,1,1\",\"0,0,1\"]],\
             \"edges_vertices\":[]}",
            false,
            "stale 0",
        ),
        // A number past 2^62.
        (
            "{\"vertices_coords\":[[4951760157141521099596496896,0]],\
             \"fx:vertices_coords\":[[\"4951760157141521099596496896,0,1\",\"0,0,1\"]],\"edges_vertices\":[]}",
            false,
            "(4951760157141521099596496896,0,1)",
        ),
    ] {
        assert_eq!(rt; drawing_of(alloc, text, faces)?.as_str(), answer, "{text}");
    }
    Ok(())
}

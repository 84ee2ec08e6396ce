ghost use Rattle.std.specs.Prelude.{◌≡◌, ◌<◌, ℕ, [], true, IfOk, MatchOption, length, slice_set};
ghost use Rattle.scaled_plane.specs.Scaling.{IsFirstOf};
ghost use Rattle.sheet_check.specs.Passed.{IsLoose};
ghost use Rattle.sheet_check.specs.Used.{AreUsed, MarksEnds};

use crate::listing::first_unmarked;
use scaled_plane::Edge;
use std::alloc::{AllocError, Global};

/// Marks a vertex, if it has a mark.
fn mark(marks: &mut [bool], vertex: u32)
    ensures { marks.new ≡ slice_set marks.old vertex true }
{
    let vertex = vertex as usize;
    if vertex < marks.len() {
        marks[vertex] = true;
    }
}

fn mark_ends(marks: &mut [bool], edge: Edge)
    ensures { MarksEnds edge marks.old marks.new }
{
    mark(marks, edge.from);
    mark(marks, edge.to);
}

/// Marks the ends of all edges.
fn mark_used(marks: &mut [bool], edges: &[Edge])
    requires { AreUsed [] marks.old }
    ensures long { length marks.new ≡ length marks.old }
    ensures used { AreUsed edges.now marks.new }
{
    for edge in edges {
        mark_ends(marks, *edge);
    }
}

/// The least vertex that is the end of no edge.
pub fn first_loose(alloc: Global, edges: &[Edge], count: u32) -> Result<Option<u32>, AllocError>
    ensures { IfOk result (λ found. MatchOption found
        ((v : ℕ) → v < count → ¬ IsLoose edges.now v)
        (IsFirstOf (λ v. (v < count) × IsLoose edges.now v))) }
{
    let mut marks = vec![in alloc; false; count as usize]?;
    mark_used(marks.as_mut_slice(), edges);
    match first_unmarked(marks.as_slice()) {
        Some(vertex) => Ok(Some(vertex as u32)),
        None => Ok(None),
    }
}

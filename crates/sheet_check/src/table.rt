ghost use Rattle.std.specs.Prelude.{◌≡◌, ◌≤◌, List as Listed, All, IfErr, OnOk, length};
ghost use Rattle.scaled_plane.specs.declared.drawing.Edge.{Edge as AnyEdge};
ghost use Rattle.scaled_plane.specs.declared.drawing.Face.{Face as AnyFace};
ghost use Rattle.scaled_plane.specs.Drawn.{IsScaledPoint};
ghost use Rattle.sheet_check.specs.Passed.{HasNoneBefore, IsRefusal};
ghost use Rattle.sheet_check.specs.Spans.{AreInRange};

use crate::fault::SheetFault;
use crate::least::least_meeting;
use crate::loose::first_loose;
use crate::same::least_same;
use exact_number::Whole;
use plane::Point;
use scaled_plane::{Edge, SheetFlaw};
use std::alloc::Global;

/// Whether vertices are different.
fn check_different<W: Whole>(alloc: Global, vertices: &[Point<W>]) -> Result<(), SheetFault>
    requires scaled { All (IsScaledPoint W.numbers) vertices.now }
    requires few { length vertices.now ≤ 16384 }
    ensures passed { OnOk result ((edges : Listed AnyEdge) (faces : Listed AnyFace) → HasNoneBefore W.numbers.ring vertices.now edges faces 1) }
    ensures refused { IfErr result (λ e. (edges : Listed AnyEdge) (faces : Listed AnyFace) → IsRefusal W.numbers.ring vertices.now edges faces e) }
{
    let same = least_same(alloc, vertices)?;
    match same {
        Some((low, high)) => Err(SheetFault::Flaw(SheetFlaw::SameVertex { low, high })),
        None => Ok(()),
    }
}

/// Whether each vertex is the end of an edge.
fn check_used<W: Whole>(
    alloc: Global,
    vertices: &[Point<W>],
    edges: &[Edge],
) -> Result<(), SheetFault>
    requires few { length vertices.now ≤ 16384 }
    requires before { (faces : Listed AnyFace) → HasNoneBefore W.numbers.ring vertices.now edges.now faces 1 }
    ensures passed { OnOk result ((faces : Listed AnyFace) → HasNoneBefore W.numbers.ring vertices.now edges.now faces 2) }
    ensures refused { IfErr result (λ e. (faces : Listed AnyFace) → IsRefusal W.numbers.ring vertices.now edges.now faces e) }
{
    let loose = first_loose(alloc, edges, vertices.len() as u32)?;
    match loose {
        Some(vertex) => Err(SheetFault::Flaw(SheetFlaw::Loose { vertex })),
        None => Ok(()),
    }
}

/// Whether edges meet only in common ends.
fn check_meetings<W: Whole>(
    alloc: Global,
    vertices: &[Point<W>],
    edges: &[Edge],
) -> Result<(), SheetFault>
    requires scaled { All (IsScaledPoint W.numbers) vertices.now }
    requires ends { AreInRange (length vertices.now) edges.now }
    requires few { length edges.now ≤ 2048 }
    requires before { (faces : Listed AnyFace) → HasNoneBefore W.numbers.ring vertices.now edges.now faces 2 }
    ensures passed { OnOk result ((faces : Listed AnyFace) → HasNoneBefore W.numbers.ring vertices.now edges.now faces 3) }
    ensures refused { IfErr result (λ e. (faces : Listed AnyFace) → IsRefusal W.numbers.ring vertices.now edges.now faces e) }
{
    let meeting = least_meeting(alloc, vertices, edges)?;
    match meeting {
        Some((low, high)) => Err(SheetFault::Flaw(SheetFlaw::NotPlane { low, high })),
        None => Ok(()),
    }
}

/// Whether vertices are different and each the end of an edge, and the edges meet only in common ends.
pub fn check_plane<W: Whole>(
    alloc: Global,
    vertices: &[Point<W>],
    edges: &[Edge],
) -> Result<(), SheetFault>
    requires scaled { All (IsScaledPoint W.numbers) vertices.now }
    requires ends { AreInRange (length vertices.now) edges.now }
    requires few_vertices { length vertices.now ≤ 16384 }
    requires few_edges { length edges.now ≤ 2048 }
    ensures passed { OnOk result ((faces : Listed AnyFace) → HasNoneBefore W.numbers.ring vertices.now edges.now faces 3) }
    ensures refused { IfErr result (λ e. (faces : Listed AnyFace) → IsRefusal W.numbers.ring vertices.now edges.now faces e) }
{
    check_different(alloc, vertices)?;
    check_used(alloc, vertices, edges)?;
    check_meetings(alloc, vertices, edges)
}

ghost use Rattle.std.specs.Prelude.{◌≡◌, ◌≤◌, List as Listed, All, IfErr, IfOk, OnOk, length};
ghost use Rattle.scaled_plane.specs.declared.drawing.Face.{Face as AnyFace};
ghost use Rattle.scaled_plane.specs.Drawn.{IsScaledPoint};
ghost use Rattle.scaled_plane.specs.Sheets.{IsSheet};
ghost use Rattle.scaled_plane.specs.WellSet.{IsWellSet};
ghost use Rattle.flat_fold.specs.Sheets.{FormSheet};
ghost use Rattle.sheet_check.specs.Passed.{HasNoneBefore, IsRefusal};
ghost use Rattle.sheet_check.specs.Refused.{AreSheetSizes, RefusesSheet};
ghost use Rattle.sheet_check.specs.Spans.{AreInRange};

use crate::faces::check_faces;
use crate::fault::SheetFault;
use crate::joined::{drawing_with, walks_joined};
use crate::table::check_plane;
use exact_number::{Exact, Whole};
use flat_fold::Sheet;
use fold_base::List;
use plane::Point;
use scaled_plane::{Drawing, Edge, Ends, Face, scale_all};
use std::alloc::Global;

/// Whether a plane drawing and faces are a sheet.
fn check_drawing<W: Whole>(
    alloc: Global,
    drawing: &Drawing<W>,
    faces: &[Face],
) -> Result<(), SheetFault>
    requires scaled { All (IsScaledPoint W.numbers) drawing.now.vertices }
    requires ends { AreInRange (length drawing.now.vertices) drawing.now.edges }
    requires few_edges { length drawing.now.edges ≤ 2048 }
    requires few_faces { length faces.now ≤ 512 }
    requires well_set { IsWellSet W.numbers drawing.now }
    requires before { (faces : Listed AnyFace) → HasNoneBefore W.numbers.ring drawing.now.vertices drawing.now.edges faces 3 }
    ensures passed { OnOk result (HasNoneBefore W.numbers.ring drawing.now.vertices drawing.now.edges faces.now 11) }
    ensures refused { IfErr result (IsRefusal W.numbers.ring drawing.now.vertices drawing.now.edges faces.now) }
{
    let walks = walks_joined(alloc, drawing)?;
    let vertices = drawing.vertices.as_slice();
    check_faces(alloc, vertices, drawing.edges.as_slice(), faces, &walks)
}

/// Whether scaled vertices, edges and faces are a sheet.
fn check_scaled<W: Whole>(
    alloc: Global,
    points: List<Point<W>>,
    edges: &[Edge],
    faces: &[Face],
) -> Result<(), SheetFault>
    requires scaled { All (IsScaledPoint W.numbers) points }
    requires ends { AreInRange (length points) edges.now }
    requires few_vertices { length points ≤ 16384 }
    requires few_edges { length edges.now ≤ 2048 }
    requires few_faces { length faces.now ≤ 512 }
    ensures passed { OnOk result (IsSheet W.numbers.ring points edges.now faces.now) }
    ensures refused { IfErr result (IsRefusal W.numbers.ring points edges.now faces.now) }
{
    check_plane(alloc, points.as_slice(), edges)?;
    let drawing = drawing_with(alloc, points, edges)?;
    check_drawing(alloc, &drawing, faces)
}

/// The sheet of paper that vertices, edges and faces make up, or what keeps them from being one.
pub fn check_sheet<N: Exact>(
    alloc: Global,
    ends: Ends<N>,
    faces: List<Face>,
) -> Result<Sheet<N>, SheetFault>
    requires { AreSheetSizes ends faces }
    ensures ends { IfOk result (λ sheet. sheet.ends ≡ ends) }
    ensures faces { IfOk result (λ sheet. sheet.faces ≡ faces) }
    ensures sheet { IfOk result (λ sheet. FormSheet N.parts N.Ring.numbers sheet.ends sheet.faces) }
    ensures refused { IfErr result (RefusesSheet N.parts N.Ring.numbers ends faces) }
{
    let scaled = scale_all(alloc, &ends.coords)?;
    check_scaled(
        alloc,
        scaled.points,
        ends.edges.as_slice(),
        faces.as_slice(),
    )?;
    Ok(Sheet::new(ends, faces))
}

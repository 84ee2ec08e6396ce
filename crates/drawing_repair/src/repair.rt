ghost use Rattle.std.specs.Prelude.{◌≡◌, ◌⊎◌, ℕ, ◌<◌, ◌^◌, Some, length, IfOk, IfErr, List as Listed};
ghost use Rattle.regions.specs.Faces.{AreBoundedRegions};
ghost use Rattle.scaled_plane.specs.declared.drawing.Face.{Face as AnyFace};
ghost use Rattle.scaled_plane.specs.Walks.{IsFirstParted};
ghost use Rattle.scaled_plane.specs.WellSet.{IsWellSet};
ghost use Rattle.drawing_repair.specs.Kept.{AreInRange};
ghost use Rattle.drawing_repair.specs.Narrow.{AreNarrow};
ghost use Rattle.drawing_repair.specs.Repaired.{AreFacesOf, AreFoundWithin, HasBoundedRegions, IsMemory, IsRefusal, IsRepaired};
ghost use Rattle.drawing_repair.specs.declared.answer.Stage.TheVariants.{Drawn};
ghost use Rattle.drawing_repair.specs.declared.options.Faces.TheVariants.{Find};

use crate::answer::{RepairFault, Repaired};
use crate::coordinates::exact_points;
use crate::cutting::cut_ends;
use crate::laws::vertices_can_be_written;
use crate::options::{Faces, Flat};
use exact_number::{Exact, Whole};
use face_walks::walks;
use fold_base::List;
use scaled_plane::{Drawing, Ends, Face};
use std::alloc::Global;

/// The faces of a drawing, if they are looked for.
fn faces_of<W: Whole>(
    alloc: Global,
    drawing: &Drawing<W>,
    faces: Faces,
) -> Result<Option<List<Face>>, RepairFault>
    requires { IsWellSet W.numbers drawing.now }
    ensures faces { IfOk result (AreFacesOf W.numbers.ring drawing.now.vertices drawing.now.edges faces) }
    ensures regions { IfOk result (λ found. (listed : Listed AnyFace) → found ≡ Some listed
        → AreBoundedRegions W.numbers.ring drawing.now.vertices drawing.now.edges listed) }
    ensures within { IfOk result (AreFoundWithin (length drawing.now.vertices)) }
    ensures parted { IfErr result (λ e. IsMemory e ⊎ ((v : ℕ) × (e ≡ RepairFault.Parted v) × (faces ≡ Find)
        × IsFirstParted drawing.now.edges (length drawing.now.vertices) v)) }
{
    match faces {
        Faces::Skip => Ok(None),
        Faces::Find => {
            let walks = walks(alloc, drawing)?;
            Ok(Some(walks.faces))
        }
    }
}

/// The drawing of the segments between the ends, cut where they meet or cross: its vertices by exact coordinates, its pieces
/// with their letters, and its faces if they are looked for.
///
/// All coordinates are scaled, also those that no segment that is kept uses.
pub fn repair_ends<N: Exact>(
    alloc: Global,
    ends: &Ends<N>,
    flat: Flat,
    faces: Faces,
) -> Result<Repaired<N>, RepairFault>
    requires few { length ends.now.coords < 2 ^ 32 }
    requires in_range { AreInRange ends.now.coords ends.now.edges }
    ensures repaired { IfOk result (IsRepaired N.parts N.Ring.numbers flat ends.now faces) }

    // the first reason that holds why there is no drawing, or want of memory
    ensures refused { IfErr result (λ e. IsMemory e ⊎ IsRefusal N.parts N.Ring.numbers flat ends.now faces e) }
    ensures regions { IfOk result (HasBoundedRegions N.parts N.Ring.numbers flat ends.now) }
    ensures within { IfOk result (λ r. AreFoundWithin (length r.ends.coords) r.faces) }
    ensures rational { N.ROOT ≡ 1 → IfErr result (λ e. (v : ℕ) → ¬ (e ≡ RepairFault.TooWide v Drawn)) }
    ensures narrow { AreNarrow N.parts ends.now.coords → IfErr result (λ e. (v : ℕ) → ¬ (e ≡ RepairFault.TooWide v Drawn)) }
{
    vertices_can_be_written::<N>();
    let (scaled, drawing) = cut_ends(alloc, ends, flat)?;
    let coords = exact_points(alloc, drawing.vertices.as_slice(), scaled.common)?;
    let faces = faces_of(alloc, &drawing, faces)?;
    let ends = Ends {
        coords,
        edges: drawing.edges,
    };
    Ok(Repaired { ends, faces })
}

ghost use Rattle.std.specs.Prelude.{◌≡◌, ◌⊎◌, ℕ, pos, ◌<◌, ◌≤◌, ◌^◌, ◌<ℤ◌, ◌≤ℤ◌, length, Contains, IfOk, IfErr};
ghost use Rattle.plane.specs.declared.point.Point.{Point as AnyPoint};
ghost use Rattle.scaled_plane.specs.Drawn.{IsDrawn};
ghost use Rattle.scaled_plane.specs.Scaling.{IsFirstOf};
ghost use Rattle.drawing_repair.specs.Repaired.{AreExact, IsMemory, IsWideDrawn};
ghost use Rattle.drawing_repair.specs.declared.answer.Stage.TheVariants.{Drawn};

use crate::answer::{RepairFault, Stage};
use exact_number::Exact;
use fold_base::List;
use plane::Point;
use scaled_plane::{Pair, exact_point};
use std::alloc::{AllocError, Global};

/// The points by their exact coordinates over a common denominator, or the first point that has none.
pub fn exact_points<N: Exact>(
    alloc: Global,
    points: &[Point<N::Ring>],
    common: i128,
) -> Result<List<Pair<N>>, RepairFault>
    requires few { length points.now ≤ 16384 }
    requires drawn { (p : AnyPoint N.Ring) → Contains points.now p → IsDrawn N.Ring.numbers p }
    requires positive { pos 0 <ℤ common }
    requires within { common ≤ℤ pos (2 ^ 24) }
    ensures coords { IfOk result (AreExact N.parts N.Ring.numbers points.now common) }
    ensures too_wide { IfErr result (λ e. IsMemory e ⊎ ((v : ℕ) × (e ≡ RepairFault.TooWide v Drawn)
        × IsFirstOf (IsWideDrawn N.Ring.numbers points.now common) v)) }
    ensures rational { N.ROOT ≡ 1 → IfErr result IsMemory }
{
    let mut coords = List::with_room(alloc, points.len())?;
    for vertex in 0..points.len() {
        match exact_point(points[vertex], common) {
            Some(exact) => match coords.push(exact) {
                Ok(()) => {}
                Err(failed) => return Err(RepairFault::Memory(AllocError::from(failed))),
            },
            None => {
                return Err(RepairFault::TooWide {
                    vertex: vertex as u32,
                    stage: Stage::Drawn,
                });
            }
        }
    }
    Ok(coords)
}

ghost use Rattle.std.specs.Prelude.{◌<◌, ◌↔◌, IsTrue, length};
ghost use Rattle.layers.specs.Sheets.{IsCrease};
ghost use Rattle.layers.specs.Orders.{Above, OneBetween};
ghost use Rattle.layers.specs.Folded.{IsFolded};
ghost use Rattle.layers.specs.Listing.{CreasesListed};
ghost use Rattle.layer_judge.specs.First.{IsFirst, IsFirstPair};
ghost use Rattle.layer_judge.specs.Judging.{layer_orders};
ghost use Rattle.layer_judge.specs.Rankings.{IsLettered, IsUncut};

use crate::judged::{EdgeFaces, Judged};
use crate::through::is_between;
use half_planes::{SheetView, are_beside, edges_run_together};
use layers::crossings_by_faces;

/// Whether exactly one face of an edge is between those of a crease.
fn one_between<S: SheetView>(judged: &Judged<S>, crease: EdgeFaces, other: EdgeFaces) -> bool
    requires crease { IsUncut S.Ring.numbers.ring (S.sheet judged.now.sheet.now) crease.edge crease.first crease.second }
    requires other { IsUncut S.Ring.numbers.ring (S.sheet judged.now.sheet.now) other.edge other.first other.second }
    ensures { IsTrue result ↔ OneBetween (Above (S.sheet judged.now.sheet.now) (layer_orders judged.now.orders.now)) other.first other.second crease.first crease.second }
{
    if is_between(judged, other.first, crease.first, crease.second) {
        return !is_between(judged, other.second, crease.first, crease.second);
    }
    is_between(judged, other.second, crease.first, crease.second)
}

/// Whether a later crease runs along a crease on the same side, and exactly one of its faces is between the other's.
fn creases_cross<S: SheetView>(judged: &Judged<S>, crease: EdgeFaces, edge: u32) -> bool
    requires folded { IsFolded S.Ring.numbers.ring (S.sheet judged.now.sheet.now) }
    requires crease { IsLettered S.Ring.numbers.ring (S.sheet judged.now.sheet.now) IsCrease crease.edge crease.first crease.second }
    requires ordered { crease.edge < edge }
    requires edge { edge < length (S.sheet judged.now.sheet.now).edges }
    ensures { IsTrue result ↔ CreasesListed S.Ring.numbers.ring (S.sheet judged.now.sheet.now) (Above (S.sheet judged.now.sheet.now) (layer_orders judged.now.orders.now)) crease.edge edge }
{
    crossings_by_faces::<S::Ring>();
    match judged.crease(edge) {
        None => false,
        Some(other) => {
            if !one_between(judged, crease, other) {
                return false;
            }
            if !edges_run_together(judged.sheet, crease.edge, edge) {
                return false;
            }
            are_beside(judged.sheet, crease.edge, crease.first, other.first)
        }
    }
}

/// The first later crease that crosses a crease.
fn crease_with<S: SheetView>(judged: &Judged<S>, crease: EdgeFaces) -> Option<u32>
    requires folded { IsFolded S.Ring.numbers.ring (S.sheet judged.now.sheet.now) }
    requires crease { IsLettered S.Ring.numbers.ring (S.sheet judged.now.sheet.now) IsCrease crease.edge crease.first crease.second }
    ensures { IsFirst (CreasesListed S.Ring.numbers.ring (S.sheet judged.now.sheet.now) (Above (S.sheet judged.now.sheet.now) (layer_orders judged.now.orders.now)) crease.edge) result }
{
    let count = judged.sheet.edge_count();
    for edge in crease.edge + 1..count {
        if creases_cross(judged, crease, edge) {
            return Some(edge);
        }
    }
    None
}

/// The first two creases of which exactly one face of the second is between the faces of the first.
pub(crate) fn first_creases<S: SheetView>(judged: &Judged<S>) -> Option<(u32, u32)>
    requires { IsFolded S.Ring.numbers.ring (S.sheet judged.now.sheet.now) }
    ensures { IsFirstPair (CreasesListed S.Ring.numbers.ring (S.sheet judged.now.sheet.now) (Above (S.sheet judged.now.sheet.now) (layer_orders judged.now.orders.now))) result }
{
    for edge in 0..judged.sheet.edge_count() {
        if let Some(crease) = judged.crease(edge) {
            if let Some(other) = crease_with(judged, crease) {
                return Some((edge, other));
            }
        }
    }
    None
}

ghost use Rattle.std.specs.Prelude.{◌<◌, ◌↔◌, ◌⊎◌, IsTrue, length};
ghost use Rattle.layers.specs.Sheets.{IsCrease};
ghost use Rattle.layers.specs.Orders.{Above, LiesBetween};
ghost use Rattle.layers.specs.Folded.{IsFolded};
ghost use Rattle.layers.specs.declared.crossing.Crossing.TheVariants.{Through};
ghost use Rattle.layers.specs.Listing.{AreBeside, EdgeEnters, IsListed, ThroughListed};
ghost use Rattle.layer_judge.specs.First.{IsFirst, IsFirstOfEdges, IsFirstStrand};
ghost use Rattle.layer_judge.specs.Judging.{layer_orders};
ghost use Rattle.layer_judge.specs.Rankings.{IsLettered, IsUncut};

use crate::judged::{EdgeFaces, Judged};
use half_planes::{SheetView, are_beside, edge_enters, edges_run_together};
use layers::{Strand, crossings_by_faces};

/// Whether a face is above one of two and below the other.
pub(crate) fn is_between<S: SheetView>(
    judged: &Judged<S>,
    face: u32,
    first: u32,
    second: u32,
) -> bool
    requires face { face < length (S.sheet judged.now.sheet.now).faces }
    requires first { first < length (S.sheet judged.now.sheet.now).faces }
    requires second { second < length (S.sheet judged.now.sheet.now).faces }
    ensures { IsTrue result ↔ LiesBetween (Above (S.sheet judged.now.sheet.now) (layer_orders judged.now.orders.now)) face first second }
{
    if judged.is_above(face, first) && judged.is_above(second, face) {
        return true;
    }
    judged.is_above(face, second) && judged.is_above(first, face)
}

/// Whether an edge enters a face that is between its two.
fn enters_between<S: SheetView>(judged: &Judged<S>, fold: EdgeFaces, face: u32) -> bool
    requires fold { IsUncut S.Ring.numbers.ring (S.sheet judged.now.sheet.now) fold.edge fold.first fold.second }
    requires face { face < length (S.sheet judged.now.sheet.now).faces }
    ensures { IsTrue result ↔ (EdgeEnters S.Ring.numbers.ring (S.sheet judged.now.sheet.now) fold.edge face × LiesBetween (Above (S.sheet judged.now.sheet.now) (layer_orders judged.now.orders.now)) face fold.first fold.second) }
{
    is_between(judged, face, fold.first, fold.second) && edge_enters(judged.sheet, fold.edge, face)
}

/// The first face between the two of an edge that the edge enters.
pub(crate) fn face_between<S: SheetView>(judged: &Judged<S>, fold: EdgeFaces) -> Option<u32>
    requires { IsUncut S.Ring.numbers.ring (S.sheet judged.now.sheet.now) fold.edge fold.first fold.second }
    ensures { IsFirst (λ h. EdgeEnters S.Ring.numbers.ring (S.sheet judged.now.sheet.now) fold.edge h × LiesBetween (Above (S.sheet judged.now.sheet.now) (layer_orders judged.now.orders.now)) h fold.first fold.second) result }
{
    for face in 0..judged.sheet.face_count() {
        if enters_between(judged, fold, face) {
            return Some(face);
        }
    }
    None
}

/// Whether a face lies beside the first face of a crease, and between the crease's two.
fn beside_between<S: SheetView>(judged: &Judged<S>, crease: EdgeFaces, face: u32) -> bool
    requires crease { IsUncut S.Ring.numbers.ring (S.sheet judged.now.sheet.now) crease.edge crease.first crease.second }
    requires face { face < length (S.sheet judged.now.sheet.now).faces }
    ensures { IsTrue result ↔ (AreBeside S.Ring.numbers.ring (S.sheet judged.now.sheet.now) crease.edge crease.first face × LiesBetween (Above (S.sheet judged.now.sheet.now) (layer_orders judged.now.orders.now)) face crease.first crease.second) }
{
    is_between(judged, face, crease.first, crease.second)
        && are_beside(judged.sheet, crease.edge, crease.first, face)
}

/// Whether either face of a join does.
fn either_between<S: SheetView>(judged: &Judged<S>, crease: EdgeFaces, join: EdgeFaces) -> bool
    requires crease { IsUncut S.Ring.numbers.ring (S.sheet judged.now.sheet.now) crease.edge crease.first crease.second }
    requires join { IsUncut S.Ring.numbers.ring (S.sheet judged.now.sheet.now) join.edge join.first join.second }
    ensures { IsTrue result
        ↔ ((AreBeside S.Ring.numbers.ring (S.sheet judged.now.sheet.now) crease.edge crease.first join.first × LiesBetween (Above (S.sheet judged.now.sheet.now) (layer_orders judged.now.orders.now)) join.first crease.first crease.second)
        ⊎ (AreBeside S.Ring.numbers.ring (S.sheet judged.now.sheet.now) crease.edge crease.first join.second × LiesBetween (Above (S.sheet judged.now.sheet.now) (layer_orders judged.now.orders.now)) join.second crease.first crease.second)) }
{
    if beside_between(judged, crease, join.first) {
        return true;
    }
    beside_between(judged, crease, join.second)
}

/// Whether a join runs along a crease, and its face on the crease's side is between the crease's two.
fn join_crosses<S: SheetView>(judged: &Judged<S>, crease: EdgeFaces, edge: u32) -> bool
    requires folded { IsFolded S.Ring.numbers.ring (S.sheet judged.now.sheet.now) }
    requires crease { IsLettered S.Ring.numbers.ring (S.sheet judged.now.sheet.now) IsCrease crease.edge crease.first crease.second }
    requires edge { edge < length (S.sheet judged.now.sheet.now).edges }
    ensures { IsTrue result ↔ ThroughListed S.Ring.numbers.ring (S.sheet judged.now.sheet.now) (Above (S.sheet judged.now.sheet.now) (layer_orders judged.now.orders.now)) crease.edge edge }
{
    crossings_by_faces::<S::Ring>();
    match judged.join(edge) {
        None => false,
        Some(join) => {
            if !either_between(judged, crease, join) {
                return false;
            }
            edges_run_together(judged.sheet, crease.edge, edge)
        }
    }
}

/// The first join that goes through a crease.
fn join_between<S: SheetView>(judged: &Judged<S>, crease: EdgeFaces) -> Option<u32>
    requires folded { IsFolded S.Ring.numbers.ring (S.sheet judged.now.sheet.now) }
    requires crease { IsLettered S.Ring.numbers.ring (S.sheet judged.now.sheet.now) IsCrease crease.edge crease.first crease.second }
    ensures { IsFirst (ThroughListed S.Ring.numbers.ring (S.sheet judged.now.sheet.now) (Above (S.sheet judged.now.sheet.now) (layer_orders judged.now.orders.now)) crease.edge) result }
{
    for edge in 0..judged.sheet.edge_count() {
        if join_crosses(judged, crease, edge) {
            return Some(edge);
        }
    }
    None
}

/// The first strand that goes through a crease.
fn strand_through<S: SheetView>(judged: &Judged<S>, crease: EdgeFaces) -> Option<Strand>
    requires folded { IsFolded S.Ring.numbers.ring (S.sheet judged.now.sheet.now) }
    requires crease { IsLettered S.Ring.numbers.ring (S.sheet judged.now.sheet.now) IsCrease crease.edge crease.first crease.second }
    ensures { IsFirstStrand (λ s. IsListed S.Ring.numbers.ring (S.sheet judged.now.sheet.now) (Above (S.sheet judged.now.sheet.now) (layer_orders judged.now.orders.now)) (Through crease.edge s)) result }
{
    crossings_by_faces::<S::Ring>();
    if let Some(face) = face_between(judged, crease) {
        return Some(Strand::Face(face));
    }
    match join_between(judged, crease) {
        Some(edge) => Some(Strand::Edge(edge)),
        None => None,
    }
}

/// The first crease with the first strand that goes through it.
pub(crate) fn first_through<S: SheetView>(judged: &Judged<S>) -> Option<(u32, Strand)>
    requires { IsFolded S.Ring.numbers.ring (S.sheet judged.now.sheet.now) }
    ensures { IsFirstOfEdges (λ e s. IsListed S.Ring.numbers.ring (S.sheet judged.now.sheet.now) (Above (S.sheet judged.now.sheet.now) (layer_orders judged.now.orders.now)) (Through e s)) result }
{
    for edge in 0..judged.sheet.edge_count() {
        if let Some(crease) = judged.crease(edge) {
            if let Some(strand) = strand_through(judged, crease) {
                return Some((edge, strand));
            }
        }
    }
    None
}

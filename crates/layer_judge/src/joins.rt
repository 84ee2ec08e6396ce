ghost use Rattle.std.specs.Prelude.{◌<◌, ◌↔◌, ◌⊎◌, IsTrue, length};
ghost use Rattle.layers.specs.Sheets.{IsJoin};
ghost use Rattle.layers.specs.Orders.{Above};
ghost use Rattle.layers.specs.Folded.{IsFolded};
ghost use Rattle.layers.specs.declared.crossing.Crossing.TheVariants.{Joined};
ghost use Rattle.layers.specs.Listing.{AreBeside, Changes, IsListed, JoinedListed};
ghost use Rattle.layer_judge.specs.First.{IsFirst, IsFirstOfEdges, IsFirstStrand};
ghost use Rattle.layer_judge.specs.Judging.{layer_orders};
ghost use Rattle.layer_judge.specs.Rankings.{IsLettered, IsUncut};

use crate::judged::{EdgeFaces, Judged};
use crate::through::face_between;
use half_planes::{SheetView, are_beside, edges_run_together};
use layers::{Strand, crossings_by_faces};

/// Whether the first face of a join is above one face and its second below another, or the other way round.
fn changes<S: SheetView>(judged: &Judged<S>, join: EdgeFaces, near: u32, far: u32) -> bool
    requires join { IsUncut S.Ring.numbers.ring (S.sheet judged.now.sheet.now) join.edge join.first join.second }
    requires near { near < length (S.sheet judged.now.sheet.now).faces }
    requires far { far < length (S.sheet judged.now.sheet.now).faces }
    ensures { IsTrue result ↔ Changes S.Ring.numbers.ring (S.sheet judged.now.sheet.now) (Above (S.sheet judged.now.sheet.now) (layer_orders judged.now.orders.now)) join.first join.second near far }
{
    if judged.is_above(join.first, near) && judged.is_above(far, join.second) {
        return true;
    }
    judged.is_above(near, join.first) && judged.is_above(join.second, far)
}

/// Whether it does so with faces of which the near one lies beside its first.
fn beside_changes<S: SheetView>(judged: &Judged<S>, join: EdgeFaces, near: u32, far: u32) -> bool
    requires join { IsUncut S.Ring.numbers.ring (S.sheet judged.now.sheet.now) join.edge join.first join.second }
    requires near { near < length (S.sheet judged.now.sheet.now).faces }
    requires far { far < length (S.sheet judged.now.sheet.now).faces }
    ensures { IsTrue result ↔ (AreBeside S.Ring.numbers.ring (S.sheet judged.now.sheet.now) join.edge join.first near × Changes S.Ring.numbers.ring (S.sheet judged.now.sheet.now) (Above (S.sheet judged.now.sheet.now) (layer_orders judged.now.orders.now)) join.first join.second near far) }
{
    changes(judged, join, near, far) && are_beside(judged.sheet, join.edge, join.first, near)
}

/// Whether it does so with the faces of another join, either of which may be the near one.
fn either_changes<S: SheetView>(judged: &Judged<S>, join: EdgeFaces, other: EdgeFaces) -> bool
    requires join { IsUncut S.Ring.numbers.ring (S.sheet judged.now.sheet.now) join.edge join.first join.second }
    requires other { IsUncut S.Ring.numbers.ring (S.sheet judged.now.sheet.now) other.edge other.first other.second }
    ensures { IsTrue result
        ↔ ((AreBeside S.Ring.numbers.ring (S.sheet judged.now.sheet.now) join.edge join.first other.first × Changes S.Ring.numbers.ring (S.sheet judged.now.sheet.now) (Above (S.sheet judged.now.sheet.now) (layer_orders judged.now.orders.now)) join.first join.second other.first other.second)
        ⊎ (AreBeside S.Ring.numbers.ring (S.sheet judged.now.sheet.now) join.edge join.first other.second × Changes S.Ring.numbers.ring (S.sheet judged.now.sheet.now) (Above (S.sheet judged.now.sheet.now) (layer_orders judged.now.orders.now)) join.first join.second other.second other.first)) }
{
    if beside_changes(judged, join, other.first, other.second) {
        return true;
    }
    beside_changes(judged, join, other.second, other.first)
}

/// Whether a later join runs along a join, and they change places.
fn joins_cross<S: SheetView>(judged: &Judged<S>, join: EdgeFaces, edge: u32) -> bool
    requires folded { IsFolded S.Ring.numbers.ring (S.sheet judged.now.sheet.now) }
    requires join { IsLettered S.Ring.numbers.ring (S.sheet judged.now.sheet.now) IsJoin join.edge join.first join.second }
    requires ordered { join.edge < edge }
    requires edge { edge < length (S.sheet judged.now.sheet.now).edges }
    ensures { IsTrue result ↔ JoinedListed S.Ring.numbers.ring (S.sheet judged.now.sheet.now) (Above (S.sheet judged.now.sheet.now) (layer_orders judged.now.orders.now)) join.edge edge }
{
    crossings_by_faces::<S::Ring>();
    match judged.join(edge) {
        None => false,
        Some(other) => {
            if !either_changes(judged, join, other) {
                return false;
            }
            edges_run_together(judged.sheet, join.edge, edge)
        }
    }
}

/// The first later join that changes places with a join.
fn join_across<S: SheetView>(judged: &Judged<S>, join: EdgeFaces) -> Option<u32>
    requires folded { IsFolded S.Ring.numbers.ring (S.sheet judged.now.sheet.now) }
    requires join { IsLettered S.Ring.numbers.ring (S.sheet judged.now.sheet.now) IsJoin join.edge join.first join.second }
    ensures { IsFirst (JoinedListed S.Ring.numbers.ring (S.sheet judged.now.sheet.now) (Above (S.sheet judged.now.sheet.now) (layer_orders judged.now.orders.now)) join.edge) result }
{
    let count = judged.sheet.edge_count();
    for edge in join.edge + 1..count {
        if joins_cross(judged, join, edge) {
            return Some(edge);
        }
    }
    None
}

/// The first strand across that changes places with a join.
fn strand_joined<S: SheetView>(judged: &Judged<S>, join: EdgeFaces) -> Option<Strand>
    requires folded { IsFolded S.Ring.numbers.ring (S.sheet judged.now.sheet.now) }
    requires join { IsLettered S.Ring.numbers.ring (S.sheet judged.now.sheet.now) IsJoin join.edge join.first join.second }
    ensures { IsFirstStrand (λ s. IsListed S.Ring.numbers.ring (S.sheet judged.now.sheet.now) (Above (S.sheet judged.now.sheet.now) (layer_orders judged.now.orders.now)) (Joined join.edge s)) result }
{
    crossings_by_faces::<S::Ring>();
    if let Some(face) = face_between(judged, join) {
        return Some(Strand::Face(face));
    }
    match join_across(judged, join) {
        Some(edge) => Some(Strand::Edge(edge)),
        None => None,
    }
}

/// The first join with the first strand across that it changes places with.
pub(crate) fn first_joined<S: SheetView>(judged: &Judged<S>) -> Option<(u32, Strand)>
    requires { IsFolded S.Ring.numbers.ring (S.sheet judged.now.sheet.now) }
    ensures { IsFirstOfEdges (λ e s. IsListed S.Ring.numbers.ring (S.sheet judged.now.sheet.now) (Above (S.sheet judged.now.sheet.now) (layer_orders judged.now.orders.now)) (Joined e s)) result }
{
    for edge in 0..judged.sheet.edge_count() {
        if let Some(join) = judged.join(edge) {
            if let Some(strand) = strand_joined(judged, join) {
                return Some((edge, strand));
            }
        }
    }
    None
}

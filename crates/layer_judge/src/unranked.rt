ghost use Rattle.std.specs.Prelude.{◌<◌, ◌↔◌, IsTrue, length};
ghost use Rattle.layers.specs.Orders.{Above, Unranked};
ghost use Rattle.layer_judge.specs.First.{IsFirst, IsFirstPair};
ghost use Rattle.layer_judge.specs.Judging.{layer_orders};

use crate::judged::Judged;
use half_planes::{SheetView, faces_overlap};

fn is_unranked<S: SheetView>(judged: &Judged<S>, low: u32, high: u32) -> bool
    requires ordered { low < high }
    requires within { high < length (S.sheet judged.now.sheet.now).faces }
    ensures { IsTrue result ↔ Unranked S.Ring.numbers.ring (S.sheet judged.now.sheet.now) (Above (S.sheet judged.now.sheet.now) (layer_orders judged.now.orders.now)) low high }
{
    if judged.is_above(low, high) {
        return false;
    }
    if judged.is_above(high, low) {
        return false;
    }
    faces_overlap(judged.sheet, low, high)
}

/// The first face past this one that overlaps it without an order.
fn unranked_with<S: SheetView>(judged: &Judged<S>, low: u32) -> Option<u32>
    requires { low < length (S.sheet judged.now.sheet.now).faces }
    ensures { IsFirst (Unranked S.Ring.numbers.ring (S.sheet judged.now.sheet.now) (Above (S.sheet judged.now.sheet.now) (layer_orders judged.now.orders.now)) low) result }
{
    let count = judged.sheet.face_count();
    for high in low + 1..count {
        if is_unranked(judged, low, high) {
            return Some(high);
        }
    }
    None
}

/// The first two faces that overlap without an order.
pub(crate) fn first_unranked<S: SheetView>(judged: &Judged<S>) -> Option<(u32, u32)>
    ensures { IsFirstPair (Unranked S.Ring.numbers.ring (S.sheet judged.now.sheet.now) (Above (S.sheet judged.now.sheet.now) (layer_orders judged.now.orders.now))) result }
{
    for low in 0..judged.sheet.face_count() {
        if let Some(high) = unranked_with(judged, low) {
            return Some((low, high));
        }
    }
    None
}

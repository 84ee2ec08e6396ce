ghost use Rattle.std.specs.Prelude.{◌<◌, ◌↔◌, IsTrue, length};
ghost use Rattle.layers.specs.Orders.{Above};
ghost use Rattle.layers.specs.Listing.{CycleListed};
ghost use Rattle.layer_judge.specs.First.{IsFirst, IsFirstPair, IsFirstTriple};
ghost use Rattle.layer_judge.specs.Judging.{layer_orders};

use crate::judged::Judged;
use half_planes::{SheetView, three_overlap};

fn is_cycle<S: SheetView>(judged: &Judged<S>, first: u32, second: u32, third: u32) -> bool
    requires second { first < second }
    requires third { first < third }
    requires second_within { second < length (S.sheet judged.now.sheet.now).faces }
    requires third_within { third < length (S.sheet judged.now.sheet.now).faces }
    ensures { IsTrue result ↔ CycleListed S.Ring.numbers.ring (S.sheet judged.now.sheet.now) (Above (S.sheet judged.now.sheet.now) (layer_orders judged.now.orders.now)) first second third }
{
    judged.is_above(first, second)
        && judged.is_above(second, third)
        && judged.is_above(third, first)
        && three_overlap(judged.sheet, first, second, third)
}

/// The first face that closes a cycle after two.
fn third_of_cycle<S: SheetView>(judged: &Judged<S>, first: u32, second: u32) -> Option<u32>
    requires ordered { first < second }
    requires within { second < length (S.sheet judged.now.sheet.now).faces }
    ensures { IsFirst (λ h. CycleListed S.Ring.numbers.ring (S.sheet judged.now.sheet.now) (Above (S.sheet judged.now.sheet.now) (layer_orders judged.now.orders.now)) first second h) result }
{
    let count = judged.sheet.face_count();
    for third in first + 1..count {
        if is_cycle(judged, first, second, third) {
            return Some(third);
        }
    }
    None
}

/// The first two faces that close a cycle after one.
fn rest_of_cycle<S: SheetView>(judged: &Judged<S>, first: u32) -> Option<(u32, u32)>
    requires { first < length (S.sheet judged.now.sheet.now).faces }
    ensures { IsFirstPair (CycleListed S.Ring.numbers.ring (S.sheet judged.now.sheet.now) (Above (S.sheet judged.now.sheet.now) (layer_orders judged.now.orders.now)) first) result }
{
    let count = judged.sheet.face_count();
    for second in first + 1..count {
        if judged.is_above(first, second) {
            if let Some(third) = third_of_cycle(judged, first, second) {
                return Some((second, third));
            }
        }
    }
    None
}

/// The first three faces of which each is above the next, and the last above the first, where their insides share a point.
pub(crate) fn first_cycle<S: SheetView>(judged: &Judged<S>) -> Option<(u32, u32, u32)>
    ensures { IsFirstTriple (CycleListed S.Ring.numbers.ring (S.sheet judged.now.sheet.now) (Above (S.sheet judged.now.sheet.now) (layer_orders judged.now.orders.now))) result }
{
    for first in 0..judged.sheet.face_count() {
        if let Some((second, third)) = rest_of_cycle(judged, first) {
            return Some((first, second, third));
        }
    }
    None
}

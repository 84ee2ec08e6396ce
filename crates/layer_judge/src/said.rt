ghost use Rattle.std.specs.Prelude.{◌≡◌, ◌↔◌, IsTrue, length};
ghost use Rattle.std.specs.Option.{MatchOption};
ghost use Rattle.layers.specs.Orders.{Says, seen_from_above};
ghost use Rattle.layer_judge.specs.Judging.{IsOrderOf, as_layer_order};
ghost use Rattle.layer_judge.specs.Rankings.{AreOpposed, IsSaid, SaysNothing};

use fold_keys::FaceOrder;
use half_planes::SheetView;
use std::cmp::Ordering;

/// A side of a face as it's seen from above.
fn from_above(turned: bool, side: Ordering) -> Ordering
    ensures { result ≡ seen_from_above turned side }
{
    if turned { side.reverse() } else { side }
}

/// The upper and the lower face of an order that says something.
pub(crate) fn said<S: SheetView>(sheet: &S, order: FaceOrder) -> Option<(u32, u32)>
    requires { IsOrderOf (length (S.sheet sheet.now).faces) order }
    ensures { MatchOption result (SaysNothing (S.sheet sheet.now) (as_layer_order order))
        (IsSaid (S.sheet sheet.now) (as_layer_order order)) }
{
    if order.first == order.second {
        return None;
    }
    match from_above(sheet.is_turned(order.second), order.side.cmp(&0)) {
        Ordering::Less => Some((order.second, order.first)),
        Ordering::Equal => None,
        Ordering::Greater => Some((order.first, order.second)),
    }
}

/// Whether the one pair is the other turned round.
fn are_turned(pair: (u32, u32), other: (u32, u32)) -> bool
    ensures { IsTrue result ↔ ((pair.0 ≡ other.1) × (pair.1 ≡ other.0)) }
{
    pair.0 == other.1 && pair.1 == other.0
}

/// Whether an order says the opposite of what is said of two faces, the upper first.
fn opposes<S: SheetView>(sheet: &S, pair: (u32, u32), order: FaceOrder) -> bool
    requires { IsOrderOf (length (S.sheet sheet.now).faces) order }
    ensures { IsTrue result ↔ Says (S.sheet sheet.now) (as_layer_order order) pair.1 pair.0 }
{
    match said(sheet, order) {
        None => false,
        Some(other) => are_turned(pair, other),
    }
}

/// Whether two orders say opposite things of two faces.
pub(crate) fn are_opposed<S: SheetView>(sheet: &S, one: FaceOrder, other: FaceOrder) -> bool
    requires one { IsOrderOf (length (S.sheet sheet.now).faces) one }
    requires other { IsOrderOf (length (S.sheet sheet.now).faces) other }
    ensures { IsTrue result ↔ AreOpposed (S.sheet sheet.now) (as_layer_order one) (as_layer_order other) }
{
    match said(sheet, one) {
        None => false,
        Some(pair) => opposes(sheet, pair, other),
    }
}

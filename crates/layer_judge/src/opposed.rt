ghost use Rattle.std.specs.Prelude.{ℕ, ◌<◌, ◌^◌, All, length};
ghost use Rattle.layers.specs.Orders.{Opposed};
ghost use Rattle.layer_judge.specs.Judging.{IsOrderOf, layer_orders};

use crate::said::are_opposed;
use fold_keys::FaceOrder;
use half_planes::SheetView;

/// The first order that says the opposite of the one at a place.
pub(crate) fn first_opposed<S: SheetView>(sheet: &S, orders: &[FaceOrder], second: u32) -> u32
    requires named { All (IsOrderOf (length (S.sheet sheet.now).faces)) orders.now }
    requires second { second < length orders.now }
    requires some { (i : ℕ) × (i < second) × Opposed (S.sheet sheet.now) (layer_orders orders.now) i second }
    ensures before { result < second }
    ensures opposed { Opposed (S.sheet sheet.now) (layer_orders orders.now) result second }
    ensures none_earlier { (k : ℕ) → k < result → ¬ Opposed (S.sheet sheet.now) (layer_orders orders.now) k second }
{
    for first in 0..second {
        if are_opposed(sheet, orders[first as usize], orders[second as usize]) {
            return first;
        }
    }
    unreachable!()
}

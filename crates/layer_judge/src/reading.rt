ghost use Rattle.std.specs.Prelude.{◌≡◌, ◌↔◌, ℕ, ◌<◌, ◌^◌, All, IfErr, IfOk, IsTrue, length};
ghost use Rattle.layers.specs.Orders.{Opposed};
ghost use Rattle.layer_judge.specs.Judging.{IsOrderOf, RefusesOrders, as_layer_order, layer_orders};
ghost use Rattle.layer_judge.specs.Rankings.{Contradicts, IsMarked, TakesUp, Tells};

use crate::answer::JudgeFault;
use crate::opposed::first_opposed;
use crate::said::said;
use crate::table::Ranking;
use fold_keys::FaceOrder;
use half_planes::SheetView;

/// Marks what an order says, and tells whether it could: not if the opposite is marked.
fn take_up<S: SheetView>(ranking: &mut Ranking, sheet: &S, order: FaceOrder) -> bool
    requires count { ranking.old.count ≡ length (S.sheet sheet.now).faces }
    requires order { IsOrderOf (length (S.sheet sheet.now).faces) order }
    ensures count { ranking.new.count ≡ ranking.old.count }
    ensures taken { IsTrue result → TakesUp (S.sheet sheet.now) ranking.old.count ranking.old.cells.items (as_layer_order order)
        ranking.new.cells.items }
    ensures refused { ¬ IsTrue result
        → Contradicts (S.sheet sheet.now) ranking.old.count ranking.old.cells.items (as_layer_order order) }
{
    match said(sheet, order) {
        None => true,
        Some((upper, lower)) => {
            if ranking.is_above(lower, upper) {
                return false;
            }
            ranking.put_above(upper, lower);
            true
        }
    }
}

/// Marks in an empty table what orders say, which are of faces of the sheet.
pub(crate) fn take_up_all<S: SheetView>(
    ranking: &mut Ranking,
    sheet: &S,
    orders: &[FaceOrder],
) -> Result<(), JudgeFault>
    requires few { length orders.now < 2 ^ 32 }
    requires named { All (IsOrderOf (length (S.sheet sheet.now).faces)) orders.now }
    requires count { ranking.old.count ≡ length (S.sheet sheet.now).faces }
    requires empty { (f g : ℕ) → ¬ IsMarked ranking.old.count ranking.old.cells.items f g }
    ensures count { ranking.new.count ≡ ranking.old.count }
    ensures tells { IfOk result (λ _. Tells (S.sheet sheet.now) ranking.new.count ranking.new.cells.items (layer_orders orders.now)) }
    ensures agrees { IfOk result (λ _. (i j : ℕ) → i < j → ¬ Opposed (S.sheet sheet.now) (layer_orders orders.now) i j) }
    ensures refused { IfErr result (RefusesOrders S.Ring.numbers.ring (S.sheet sheet.now) (layer_orders orders.now)) }
{
    let count = orders.len() as u32;
    for place in 0..count {
        if !take_up(ranking, sheet, orders[place as usize]) {
            return Err(JudgeFault::OrderClash {
                first: first_opposed(sheet, orders, place),
                second: place,
            });
        }
    }
    Ok(())
}

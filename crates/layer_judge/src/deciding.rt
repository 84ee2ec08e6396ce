ghost use Rattle.std.specs.Prelude.{◌≡◌, ◌↔◌, ◌<◌, ◌^◌, All, IfErr, IfOk, length};
ghost use Rattle.layers.specs.Orders.{Above};
ghost use Rattle.layers.specs.Points.{IsLayered};
ghost use Rattle.layer_judge.specs.declared.answer.Verdict.TheVariants.{Fits};
ghost use Rattle.layer_judge.specs.Judging.{IsOrderOf, IsVerdict, RefusesOrders, layer_orders};

use crate::answer::{JudgeFault, Verdict};
use crate::crossings::first_crossing;
use crate::judged::Judged;
use crate::reading::take_up_all;
use crate::table::Ranking;
use crate::unranked::first_unranked;
use fold_keys::FaceOrder;
use half_planes::SheetView;
use layers::{list_decides_points, orders_rank_faces};
use std::alloc::Global;

/// Whether the layers of a folded sheet can lie as its faces are ordered. They can't if they cross; there's no verdict if two
/// orders say opposite things, or none says which of two faces that overlap is above.
pub fn judge<S: SheetView>(
    alloc: Global,
    sheet: &S,
    orders: &[FaceOrder],
) -> Result<Verdict, JudgeFault>
    requires few { length orders.now < 2 ^ 32 }
    requires named { All (IsOrderOf (length (S.sheet sheet.now).faces)) orders.now }
    ensures verdict { IfOk result (IsVerdict S.Ring.numbers.ring (S.sheet sheet.now) (layer_orders orders.now)) }
    ensures fits { IfOk result (λ v. v ≡ Fits ↔ IsLayered S.Ring.numbers.ring (S.sheet sheet.now)
        (Above (S.sheet sheet.now) (layer_orders orders.now))) }
    ensures refused { IfErr result (RefusesOrders S.Ring.numbers.ring (S.sheet sheet.now) (layer_orders orders.now)) }
{
    list_decides_points::<S::Ring>();
    orders_rank_faces::<S::Ring>();
    let mut ranking = Ranking::empty(alloc, sheet.face_count())?;
    take_up_all(&mut ranking, sheet, orders)?;
    let judged = Judged {
        sheet,
        orders,
        ranking: &ranking,
    };
    if let Some((low, high)) = first_unranked(&judged) {
        return Err(JudgeFault::NoOrder { low, high });
    }
    match first_crossing(&judged) {
        None => Ok(Verdict::Fits),
        Some(crossing) => Ok(Verdict::Crosses(crossing)),
    }
}

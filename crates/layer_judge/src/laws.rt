ghost use Rattle.std.specs.Prelude.{◌≡◌, List};
ghost use Rattle.algebra.specs.OrderedRing.{OrderedRing};
ghost use Rattle.layers.specs.Sheets.{FoldedSheet};
ghost use Rattle.layers.specs.Orders.{LayerOrder};
ghost use Rattle.layer_judge.specs.declared.answer.Verdict.{Verdict as AnyVerdict};
ghost use Rattle.layer_judge.specs.declared.answer.JudgeFault.{JudgeFault as AnyFault};
ghost use Rattle.layer_judge.specs.Judging.{IsOfOrders, IsVerdict, RefusesOrders};

use layers::{crossings_in_order, orders_rank_faces};

/// Orders of a folded sheet's faces have at most one verdict, or at most one fault of theirs, and not both.
pub fn one_verdict<T>()
    ensures verdict { (K : OrderedRing T) (sheet : FoldedSheet T) (orders : List LayerOrder) (v w : AnyVerdict)
        → IsVerdict K sheet orders v → IsVerdict K sheet orders w → v ≡ w }
    ensures refusal { (K : OrderedRing T) (sheet : FoldedSheet T) (orders : List LayerOrder) (e d : AnyFault)
        → IsOfOrders e → IsOfOrders d → RefusesOrders K sheet orders e → RefusesOrders K sheet orders d → e ≡ d }
    ensures not_both { (K : OrderedRing T) (sheet : FoldedSheet T) (orders : List LayerOrder) (v : AnyVerdict) (e : AnyFault)
        → IsVerdict K sheet orders v → IsOfOrders e → ¬ RefusesOrders K sheet orders e }
{
    crossings_in_order();
    orders_rank_faces::<T>();
}

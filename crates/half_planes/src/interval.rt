ghost use Rattle.std.proofs.Props.{props};
ghost use Rattle.half_planes.specs.Bounds.{LeaveRoom};
ghost use Rattle.half_planes.specs.Sizes.{AreSmall};

use crate::bound::Bound;
use exact_number::Whole;

/// The numbers between a lower and an upper bound, either of which may be absent. There are some.
#[derive(Drop)]
pub struct Interval<W: Whole> {
    pub lower: Option<Bound<W>>,
    pub upper: Option<Bound<W>>,
    pub ghost room: { LeaveRoom W.numbers.ring lower upper } by { Prim.hlevel props },
    pub ghost small: { AreSmall W.pair lower upper } by { Prim.hlevel props },
}

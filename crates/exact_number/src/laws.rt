ghost use Rattle.std.specs.Prelude.{◌≡◌, ℤ, ◌+◌, ◌*◌, ◌<◌, ◌^◌, ◌⊎◌};
ghost use Rattle.algebra.specs.Size.{IsSize};
ghost use Rattle.exact_number.specs.Scaling.{IsScalable, IsWhole, scaled};
ghost use Rattle.exact_number.specs.Sizes.{whole_size};
ghost use Rattle.exact_number.specs.WideForms.{AllFit, whole_sum, whole_difference, whole_product};

use crate::exact::Exact;
use crate::whole::Whole;

/// The root is that of 1, of 2 or of 3.
pub fn root_laws<N: Exact, W: Whole>()
    ensures numbers { (N.ROOT ≡ 1) ⊎ ((N.ROOT ≡ 2) ⊎ (N.ROOT ≡ 3)) }
    ensures whole { (W.ROOT ≡ 1) ⊎ ((W.ROOT ≡ 2) ⊎ (W.ROOT ≡ 3)) }
{}

/// The size |a| + 2·|b| of a whole number a+b√K bounds sums and products before they're computed: where the sum, or the
/// product, of two sizes is below 2^127, all that the operation forms is in range.
pub fn size_laws<W: Whole>()
    ensures sized { IsSize W.numbers.ops (λ x. whole_size (W.pair x)) }
    ensures sum { (x y : W) → whole_size (W.pair x) + whole_size (W.pair y) < 2 ^ 127 → AllFit (whole_sum (W.pair x) (W.pair y)) }
    ensures difference { (x y : W) → whole_size (W.pair x) + whole_size (W.pair y) < 2 ^ 127
        → AllFit (whole_difference (W.pair x) (W.pair y)) }
    ensures product { (x y : W) → whole_size (W.pair x) * whole_size (W.pair y) < 2 ^ 127
        → AllFit (whole_product W.ROOT (W.pair x) (W.pair y)) }
{}

/// The whole numbers a+b√K are numbers: they add, multiply and have their signs as these do. A number that is scaled is the
/// whole number that it comes to when it's multiplied by the common denominator.
pub fn scaling_laws<N: Exact>()
    ensures exists { (w : N.Ring) → (x : N) × IsWhole (N.parts x) (N.Ring.pair w) }
    ensures sum { (x y : N) (v w : N.Ring) → IsWhole (N.parts x) (N.Ring.pair v) → IsWhole (N.parts y) (N.Ring.pair w)
        → IsWhole (N.parts (N.numbers.add x y)) (N.Ring.pair (N.Ring.numbers.add v w)) }
    ensures difference { (x y : N) (v w : N.Ring) → IsWhole (N.parts x) (N.Ring.pair v) → IsWhole (N.parts y) (N.Ring.pair w)
        → IsWhole (N.parts (N.numbers.sub x y)) (N.Ring.pair (N.Ring.numbers.sub v w)) }
    ensures product { (x y : N) (v w : N.Ring) → IsWhole (N.parts x) (N.Ring.pair v) → IsWhole (N.parts y) (N.Ring.pair w)
        → IsWhole (N.parts (N.numbers.mul x y)) (N.Ring.pair (N.Ring.numbers.mul v w)) }
    ensures sign { (x : N) (w : N.Ring) → IsWhole (N.parts x) (N.Ring.pair w) → N.numbers.sign x ≡ N.Ring.numbers.sign w }
    ensures scaled { (x : N) (common : ℤ) → IsScalable (N.parts x) common
        → IsWhole (N.parts (N.numbers.mul x (N.numbers.int common))) (scaled (N.parts x) common) }
{}

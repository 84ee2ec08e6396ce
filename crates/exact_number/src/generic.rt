ghost use Rattle.std.specs.Prelude.{◌≡◌, pos, ◌^◌, ◌<ℤ◌, ◌≤ℤ◌, IfOk, IfErr, IsSome, IfSome, ◌↔◌};
ghost use Rattle.std.specs.Result.{OkIff};
ghost use Rattle.algebra.specs.NumberFormulas.{whole_parts};
ghost use Rattle.exact_number.specs.declared.overflow.Op.TheVariants.{Add, Div};
ghost use Rattle.exact_number.specs.Scaling.{IsWhole, IsScalable};
ghost use Rattle.exact_number.specs.WideForms.{AllFit, wide_sum, wide_quotient};

use crate::exact::Exact;
use crate::laws::scaling_laws;
use crate::overflow::Overflow;
use crate::whole::Whole;

/// A whole number.
pub fn whole_number<N: Exact>(n: i128) -> N
    ensures { result ≡ N.numbers.int n }
{
    match N::from_parts(n, 0, 1) {
        Some(number) => number,
        None => unreachable!(),
    }
}

/// The number halfway from `x` to `y`: half of their sum.
pub fn midpoint<N: Exact>(x: N, y: N) -> Result<N, Overflow>
    ensures answer { let total = N.numbers.add x y in OkIff result
        (AllFit (wide_sum N.ROOT (N.parts x) (N.parts y)) × AllFit (wide_quotient N.ROOT (N.parts total) (whole_parts (pos 2))))
        (N.numbers.div total (N.numbers.int (pos 2))) }
    ensures halfway { IfOk result (λ m. N.numbers.add m m ≡ N.numbers.add x y) }
    ensures sum_overflows { IfErr result (λ e. ¬ AllFit (wide_sum N.ROOT (N.parts x) (N.parts y)) → e.op ≡ Add) }
    ensures half_overflows { IfErr result (λ e. AllFit (wide_sum N.ROOT (N.parts x) (N.parts y)) → e.op ≡ Div) }
{
    let two: N = whole_number(2);
    x.add(y)?.div(two)
}

/// The number that a whole number a+b√K is.
pub fn number_of<N: Exact>(w: N::Ring) -> N
    ensures { IsWhole (N.parts result) (N.Ring.pair w) }
{
    let (a, b) = w.pair();
    match N::from_parts(a, b, 1) {
        Some(number) => number,
        None => unreachable!(),
    }
}

/// A number times a common denominator from 1 to 2^24, as the whole number that this is. There's none where the product
/// isn't whole, or one of its two parts is larger in size than 2^22.
pub fn scaled_whole<N: Exact>(x: N, common: i128) -> Option<N::Ring>
    requires positive { pos 0 <ℤ common }
    requires within { common ≤ℤ pos (2 ^ 24) }
    ensures some { IsSome result ↔ IsScalable (N.parts x) common }
    ensures value { IfSome result (λ w. IsWhole (N.parts (N.numbers.mul x (N.numbers.int common))) (N.Ring.pair w)) }
{
    scaling_laws::<N>();
    x.scale(common)
}

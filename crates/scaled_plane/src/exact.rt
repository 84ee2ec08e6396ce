ghost use Rattle.std.specs.Prelude.{◌≡◌, pos, ◌<ℤ◌, ◌≤ℤ◌, ◌≤◌, ◌*◌, ◌^◌, ◌↔◌, IsTrue, IsSome, MatchOption, unsigned_abs};
ghost use Rattle.std.specs.declared.cmp.Ordering.TheVariants.{Greater};
ghost use Rattle.algebra.specs.LowestTerms.{Parts, IsReduced};
ghost use Rattle.exact_number.specs.Sizes.{whole_size};
ghost use Rattle.scaled_plane.specs.Drawn.{IsDrawn, IsDrawnWithin};
ghost use Rattle.scaled_plane.specs.Exact.{IsConjugate, IsExactPoint, IsNarrow, IsQuotient, IsTooWideExact};

use crate::point::Pair;
use exact_number::{Exact, Whole};
use plane::Point;
use std::cmp::Ordering;

/// No part of an exact point is larger in size.
pub const MOST_EXACT: u128 = 1 << 92;

/// a+b√K, where b is 0 if K is 1.
fn whole<W: Whole>(a: i128, b: i128) -> W
    requires { W.ROOT ≡ 1 → b ≡ pos 0 }
    ensures { W.pair result ≡ record { a = a; b = b } }
{
    match W::from_pair(a, b) {
        Some(number) => number,
        None => unreachable!(),
    }
}

/// The conjugate of a number above zero, or the opposite of that, whichever is above zero.
fn positive_conjugate<W: Whole>(w: W) -> W
    requires positive { W.numbers.sign w ≡ Greater }
    requires small { whole_size (W.pair w) ≤ 9 * 2 ^ 47 }
    ensures positive { W.numbers.sign result ≡ Greater }
    ensures conjugate { IsConjugate (W.pair w) (W.pair result) }
{
    let (a, b) = w.pair();
    let conjugate: W = whole(a, -b);
    match conjugate.sign() {
        Ordering::Greater => conjugate,
        Ordering::Less | Ordering::Equal => whole(-a, b),
    }
}

/// The product of a number with its conjugate, or with the opposite of that: a whole number without a root.
fn rational_product<W: Whole>(w: W, conjugate: W) -> i128
    requires small { whole_size (W.pair w) ≤ 9 * 2 ^ 47 }
    requires conjugate { IsConjugate (W.pair w) (W.pair conjugate) }
    ensures is { W.numbers.mul w conjugate ≡ W.numbers.int result }
    ensures within { unsigned_abs result ≤ 81 * 2 ^ 94 }
{
    let (norm, _) = w.mul(conjugate).pair();
    norm
}

/// Whether no part of a number is larger in size than `MOST_EXACT`.
fn is_narrow<N: Exact>(x: N) -> bool
    ensures { IsTrue result ↔ IsNarrow (N.parts x) }
{
    let (a, b, q) = x.parts();
    a.unsigned_abs() <= MOST_EXACT
        && b.unsigned_abs() <= MOST_EXACT
        && q.unsigned_abs() <= MOST_EXACT
}

/// A whole number over a denominator, where no part of it is larger in size than `MOST_EXACT`.
fn quotient<N: Exact>(x: N::Ring, denominator: i128) -> Option<N>
    requires { pos 0 <ℤ denominator }
    ensures { let p : Parts = record { a = (N.Ring.pair x).a; b = (N.Ring.pair x).b; q = denominator } in MatchOption result
        ((r : Parts) × IsReduced p r × ¬ IsNarrow r)
        (λ n. IsReduced p (N.parts n) × IsNarrow (N.parts n)) }
{
    let (a, b) = x.pair();
    let number = match N::from_parts(a, b, denominator) {
        Some(number) => number,
        None => unreachable!(),
    };
    if is_narrow(number) {
        Some(number)
    } else {
        None
    }
}

/// x / (w·common) in lowest terms, where no part of it is larger in size than `MOST_EXACT`: x and w times the conjugate of w
/// are a whole number over one without a root.
fn coordinate<N: Exact>(x: N::Ring, w: N::Ring, common: i128) -> Option<N>
    requires above_zero { N.Ring.numbers.sign w ≡ Greater }
    requires x_small { whole_size (N.Ring.pair x) ≤ 27 * 2 ^ 69 }
    requires w_small { whole_size (N.Ring.pair w) ≤ 9 * 2 ^ 47 }
    requires positive { pos 0 <ℤ common }
    requires within { common ≤ℤ pos (2 ^ 24) }
    ensures answer { MatchOption result
        ((r : Parts) × IsQuotient N.ROOT (N.Ring.pair x) (N.Ring.pair w) common r × ¬ IsNarrow r)
        (λ n. IsQuotient N.ROOT (N.Ring.pair x) (N.Ring.pair w) common (N.parts n) × IsNarrow (N.parts n)) }
    ensures rational { N.ROOT ≡ 1 → IsSome result }
    ensures small { whole_size (N.Ring.pair x) ≤ 27 * 2 ^ 48 → whole_size (N.Ring.pair w) ≤ 9 * 2 ^ 33
        → common ≤ℤ pos (2 ^ 12) → IsSome result }
{
    let conjugate = positive_conjugate(w);
    let denominator = rational_product(w, conjugate) * common;
    quotient(x.mul(conjugate), denominator)
}

/// A drawn point by its exact coordinates, over a common denominator. There's none where a part of one of them is larger in
/// size than `MOST_EXACT`: never for the rationals, nor where scaled parts are at most 2^15 and the denominator at most 2^12.
pub fn exact_point<N: Exact>(p: Point<N::Ring>, common: i128) -> Option<Pair<N>>
    requires drawn { IsDrawn N.Ring.numbers p }
    requires positive { pos 0 <ℤ common }
    requires within { common ≤ℤ pos (2 ^ 24) }
    ensures answer { MatchOption result
        (IsTooWideExact N.ROOT N.Ring.pair p common)
        (λ c. IsExactPoint N.ROOT N.Ring.pair p common N.parts c) }
    ensures rational { N.ROOT ≡ 1 → IsSome result }
    ensures small { IsDrawnWithin N.Ring.numbers (2 ^ 15) p → common ≤ℤ pos (2 ^ 12) → IsSome result }
{
    let x = coordinate(p.x, p.w, common)?;
    let y = coordinate(p.y, p.w, common)?;
    Some(Pair { x, y })
}

ghost use Rattle.std.specs.Prelude.{◌≡◌, ℕ, ℤ, pos, ◌≤◌, ◌^◌, ◌<ℤ◌, ◌≤ℤ◌, IsSome, IfSome, IfErr, ◌↔◌};
ghost use Rattle.std.specs.Result.{OkIff};
ghost use Rattle.std.specs.declared.cmp.Ordering.TheVariants.{Equal};
ghost use Rattle.algebra.specs.LowestTerms.{Parts, IsReduced};
ghost use Rattle.algebra.specs.NumberField.{NumberField, HoldsNumbers, IsRadicand};
ghost use Rattle.algebra.specs.Comparison.{compare};
ghost use Rattle.exact_number.specs.declared.overflow.Op.TheVariants.{Add, Sub, Mul, Div, Compare};
ghost use Rattle.exact_number.specs.WideForms.{AllFit, wide_sum, wide_difference, wide_product, wide_quotient};
ghost use Rattle.exact_number.specs.Scaling.{scaled, IsScalable};

use crate::overflow::{Op, Overflow};
use crate::whole::Whole;
use std::cmp::Ordering;

/// The numbers (a+b√K)/q, where K is `ROOT`: an ordered field. A value holds a, b and q in 128 bits each, in lowest terms
/// with q above zero, and b is 0 where K is 1.
///
/// An operation forms its answer from whole numbers, those of its wide form. It gives the exact number where each of them
/// is in -2^127..2^127-1, and else an `Overflow` that names the operation.
pub trait Exact: Copy {
    const ROOT: u32;

    /// The whole numbers a+b√K, which numbers become when they're scaled.
    type Ring: Whole;

    ghost ROOT: { ℕ };

    // a, b and q
    ghost parts: { Self → Parts };

    // the ordered field that the numbers are, without bounds
    ghost numbers: { NumberField ROOT parts };

    /// (a+b√K)/q, brought to lowest terms. There's none where K is 1 and b isn't 0.
    fn from_parts(a: i128, b: i128, q: i128) -> Option<Self>
        requires { pos 0 <ℤ q }
        ensures some { IsSome result ↔ (ROOT ≡ 1 → b ≡ pos 0) }
        ensures value { IfSome result (λ x. IsReduced (record { a = a; b = b; q = q }) (parts x)) };

    /// a, b and q.
    fn parts(self) -> (i128, i128, i128)
        ensures { record { a = result.0; b = result.1; q = result.2 } ≡ parts self };

    /// The sum.
    fn add(self, other: Self) -> Result<Self, Overflow>
        ensures answer { OkIff result (AllFit (wide_sum ROOT (parts self) (parts other))) (numbers.add self other) }
        ensures overflow { IfErr result (λ e. e.op ≡ Add) };

    /// The difference.
    fn sub(self, other: Self) -> Result<Self, Overflow>
        ensures answer { OkIff result (AllFit (wide_difference ROOT (parts self) (parts other))) (numbers.sub self other) }
        ensures overflow { IfErr result (λ e. e.op ≡ Sub) };

    /// The product.
    fn mul(self, other: Self) -> Result<Self, Overflow>
        ensures answer { OkIff result (AllFit (wide_product ROOT (parts self) (parts other))) (numbers.mul self other) }
        ensures overflow { IfErr result (λ e. e.op ≡ Mul) };

    /// The quotient by a number that isn't zero.
    fn div(self, other: Self) -> Result<Self, Overflow>
        requires { ¬ (numbers.sign other ≡ Equal) }
        ensures answer { OkIff result (AllFit (wide_quotient ROOT (parts self) (parts other))) (numbers.div self other) }
        ensures overflow { IfErr result (λ e. e.op ≡ Div) };

    /// `Less` where this number is the lesser. It forms the numbers of the difference.
    fn compare(self, other: Self) -> Result<Ordering, Overflow>
        ensures answer { OkIff result (AllFit (wide_difference ROOT (parts self) (parts other)))
            (compare numbers.ring self other) }
        ensures overflow { IfErr result (λ e. e.op ≡ Compare) };

    /// `Less` below zero, `Equal` at zero, `Greater` above.
    fn sign(self) -> Ordering
        ensures { result ≡ numbers.sign self };

    /// This number times a common denominator from 1 to 2^24. There's none where the product isn't whole, or one of its two
    /// parts is larger in size than 2^22.
    fn scale(self, common: i128) -> Option<Self::Ring>
        requires positive { pos 0 <ℤ common }
        requires within { common ≤ℤ pos (2 ^ 24) }
        ensures some { IsSome result ↔ IsScalable (parts self) common }
        ensures value { IfSome result (λ x. Self.Ring.pair x ≡ scaled (parts self) common) };

    ghost holds: { HoldsNumbers ROOT parts };

    ghost radicand: { IsRadicand ROOT };

    ghost at_most_three: { ROOT ≤ 3 };

    ghost same_root: { Self.Ring.ROOT ≡ ROOT };
}

ghost use Rattle.std.specs.Prelude.{◌≡◌, ℕ, ℤ, pos, ◌≤◌, IsSome, IfSome, ◌↔◌};
ghost use Rattle.algebra.specs.Surd.{Surd};
ghost use Rattle.algebra.specs.NumberField.{IsRadicand};
ghost use Rattle.algebra.specs.WholeSurds.{SurdNumbers, HoldsSurds};
ghost use Rattle.exact_number.specs.WideForms.{AllFit, whole_sum, whole_difference, whole_product};

use std::cmp::Ordering;

/// The numbers a+b√K with whole a and b, where K is `ROOT`. A value holds a and b in 128 bits each, and b is 0 where K is 1.
pub trait Whole: Copy {
    const ROOT: u32;

    ghost ROOT: { ℕ };

    // a and b
    ghost pair: { Self → Surd ℤ };

    // the ordered ring that the numbers are, without bounds
    ghost numbers: { SurdNumbers ROOT pair };

    /// a+b√K. There's none where K is 1 and b isn't 0.
    fn from_pair(a: i128, b: i128) -> Option<Self>
        ensures some { IsSome result ↔ (ROOT ≡ 1 → b ≡ pos 0) }
        ensures value { IfSome result (λ x. pair x ≡ record { a = a; b = b }) };

    /// a and b.
    fn pair(self) -> (i128, i128)
        ensures { record { a = result.0; b = result.1 } ≡ pair self };

    /// The sum.
    fn add(self, other: Self) -> Self
        requires { AllFit (whole_sum (pair self) (pair other)) }
        ensures { result ≡ numbers.add self other };

    /// The difference.
    fn sub(self, other: Self) -> Self
        requires { AllFit (whole_difference (pair self) (pair other)) }
        ensures { result ≡ numbers.sub self other };

    /// The product.
    fn mul(self, other: Self) -> Self
        requires { AllFit (whole_product ROOT (pair self) (pair other)) }
        ensures { result ≡ numbers.mul self other };

    /// `Less` below zero, `Equal` at zero, `Greater` above.
    fn sign(self) -> Ordering
        ensures { result ≡ numbers.sign self };

    ghost holds: { HoldsSurds ROOT pair };

    ghost radicand: { IsRadicand ROOT };

    ghost at_most_three: { ROOT ≤ 3 };
}

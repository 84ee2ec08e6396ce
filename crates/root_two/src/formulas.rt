ghost use Rattle.std.specs.Prelude.{◌≡◌, pos, ◌+ℤ◌, ◌-ℤ◌, ◌*ℤ◌, List, [], ◌∷◌, IfErr};
ghost use Rattle.std.specs.Result.{OkIff};
ghost use Rattle.exact_number.specs.WideForms.{AllFit};

use crate::radicand::{Radicand, square};
use exact_number::{Op, Overflow};

/// a·d + b·c.
pub fn cross_sum(op: Op, a: i128, d: i128, b: i128, c: i128) -> Result<i128, Overflow>
    ensures answer { OkIff result (AllFit ((a *ℤ d) ∷ (b *ℤ c) ∷ (a *ℤ d +ℤ b *ℤ c) ∷ [])) (a *ℤ d +ℤ b *ℤ c) }
    ensures overflow { IfErr result (λ e. e.op ≡ op) }
{
    let first = op.product(a, d)?;
    let second = op.product(b, c)?;
    op.sum(first, second)
}

/// a·d - b·c.
pub fn cross_difference(op: Op, a: i128, d: i128, b: i128, c: i128) -> Result<i128, Overflow>
    ensures answer { OkIff result (AllFit ((a *ℤ d) ∷ (b *ℤ c) ∷ (a *ℤ d -ℤ b *ℤ c) ∷ [])) (a *ℤ d -ℤ b *ℤ c) }
    ensures overflow { IfErr result (λ e. e.op ≡ op) }
{
    let first = op.product(a, d)?;
    let second = op.product(b, c)?;
    op.difference(first, second)
}

/// a·c + k·(b·d), the rational part of (a+b√k)(c+d√k).
pub fn rational_sum<R: Radicand>(
    op: Op,
    a: i128,
    c: i128,
    b: i128,
    d: i128,
) -> Result<i128, Overflow>
    ensures answer { OkIff result (AllFit ((a *ℤ c) ∷ (b *ℤ d) ∷ (pos R.K *ℤ (b *ℤ d)) ∷ (a *ℤ c +ℤ pos R.K *ℤ (b *ℤ d)) ∷ []))
        (a *ℤ c +ℤ pos R.K *ℤ (b *ℤ d)) }
    ensures overflow { IfErr result (λ e. e.op ≡ op) }
{
    let rational = op.product(a, c)?;
    let irrational = op.product(b, d)?;
    let squared = op.product(square::<R>(), irrational)?;
    op.sum(rational, squared)
}

/// a·c - k·(b·d), the rational part of (a+b√k)(c-d√k).
pub fn rational_difference<R: Radicand>(
    op: Op,
    a: i128,
    c: i128,
    b: i128,
    d: i128,
) -> Result<i128, Overflow>
    ensures answer { OkIff result (AllFit ((a *ℤ c) ∷ (b *ℤ d) ∷ (pos R.K *ℤ (b *ℤ d)) ∷ (a *ℤ c -ℤ pos R.K *ℤ (b *ℤ d)) ∷ []))
        (a *ℤ c -ℤ pos R.K *ℤ (b *ℤ d)) }
    ensures overflow { IfErr result (λ e. e.op ≡ op) }
{
    let rational = op.product(a, c)?;
    let irrational = op.product(b, d)?;
    let squared = op.product(square::<R>(), irrational)?;
    op.difference(rational, squared)
}

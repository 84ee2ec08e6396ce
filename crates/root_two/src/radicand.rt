ghost use Rattle.std.specs.Prelude.{◌≡◌, ◌⊎◌, ℕ, pos, refl};
ghost use Rattle.std.proofs.Common.{inl, inr};

/// What the root is taken of: `Two` or `Three`.
pub trait Radicand: Copy {
    const K: u32;

    ghost K: { ℕ };

    ghost two_or_three: { (K ≡ 2) ⊎ (K ≡ 3) };
}

/// 2, as a type.
#[derive(Clone, Copy, PartialEq, Eq, Debug)]
pub struct Two;

/// 3, as a type.
#[derive(Clone, Copy, PartialEq, Eq, Debug)]
pub struct Three;

impl Radicand for Two {
    const K: u32 = 2;

    ghost K = { 2 };

    ghost two_or_three = { inl refl };
}

impl Radicand for Three {
    const K: u32 = 3;

    ghost K = { 3 };

    ghost two_or_three = { inr refl };
}

/// K, as the parts of numbers are held.
pub(crate) fn square<R: Radicand>() -> i128
    ensures { result ≡ pos R.K }
{
    i128::from(R::K)
}

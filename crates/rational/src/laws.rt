ghost use Rattle.std.specs.Prelude.{◌≡◌};

use crate::rational::Rational;
use crate::whole::RationalRing;
use exact_number::{Exact, Whole};

/// The rationals and their whole numbers are the numbers for K = 1.
pub fn rational_root()
    ensures numbers { ⟦<Rational as Exact>⟧.ROOT ≡ 1 }
    ensures whole { ⟦<RationalRing as Whole>⟧.ROOT ≡ 1 }
{}

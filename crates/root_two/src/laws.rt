ghost use Rattle.std.specs.Prelude.{◌≡◌};

use crate::number::{RootThree, RootTwo};
use crate::whole::{RootThreeRing, RootTwoRing};
use exact_number::{Exact, Whole};

/// These are the numbers and the whole numbers for K = 2 and for K = 3.
pub fn roots()
    ensures root_of_two { ⟦<RootTwo as Exact>⟧.ROOT ≡ 2 }
    ensures ring_of_two { ⟦<RootTwoRing as Whole>⟧.ROOT ≡ 2 }
    ensures root_of_three { ⟦<RootThree as Exact>⟧.ROOT ≡ 3 }
    ensures ring_of_three { ⟦<RootThreeRing as Whole>⟧.ROOT ≡ 3 }
{}

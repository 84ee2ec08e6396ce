ghost use Rattle.std.specs.Prelude.{refl};
ghost use Rattle.std.proofs.Common.{arith, inl};
ghost use Rattle.rational.specs.WholeNumbers.{whole_pair, whole_numbers, whole_holds};

use crate::whole::RationalRing;
use exact_number::Whole;
use std::cmp::Ordering;

impl Whole for RationalRing {
    const ROOT: u32 = 1;

    ghost ROOT = { 1 };

    ghost pair = { whole_pair };

    ghost numbers = { whole_numbers };

    fn from_pair(a: i128, b: i128) -> Option<RationalRing> {
        if b == 0 {
            Some(RationalRing { a })
        } else {
            None
        }
    }

    fn pair(self) -> (i128, i128) {
        (self.a, 0)
    }

    fn add(self, other: RationalRing) -> RationalRing {
        RationalRing {
            a: self.a + other.a,
        }
    }

    fn sub(self, other: RationalRing) -> RationalRing {
        RationalRing {
            a: self.a - other.a,
        }
    }

    fn mul(self, other: RationalRing) -> RationalRing {
        RationalRing {
            a: self.a * other.a,
        }
    }

    fn sign(self) -> Ordering {
        self.a.cmp(&0)
    }

    ghost holds = { whole_holds };

    ghost radicand = { inl refl };

    ghost at_most_three = { Prim.omega arith };
}

#[cfg(test)]
mod tests {
    use super::*;

    #[test]
    fn whole_numbers(rt: HostRuntime) {
        let x = RationalRing { a: 3 };
        let y = RationalRing { a: -4 };
        let parts = [x.add(y).pair(), x.sub(y).pair(), x.mul(y).pair()];
        assert_eq!(rt; parts, [(-1, 0), (7, 0), (-12, 0)]);
        assert_eq!(rt; y.sign(), Ordering::Less);
        let negative = RationalRing::from_pair(-4, 0).expect(&rt, "no root");
        assert_eq!(rt; negative.pair(), y.pair());
        assert!(rt; RationalRing::from_pair(3, 1).is_none());
    }
}

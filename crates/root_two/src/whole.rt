use crate::descent::sign_of;
use crate::radicand::{Radicand, Three, Two, square};
use exact_number::Whole;
use std::cmp::Ordering;
use std::marker::PhantomData;

/// A whole number a+b√K.
#[derive(Clone, Copy, PartialEq, Eq, Debug)]
pub struct RootRing<R: Radicand> {
    pub a: i128,
    pub b: i128,
    of: PhantomData<R>,
}

pub type RootTwoRing = RootRing<Two>;

pub type RootThreeRing = RootRing<Three>;

impl<R: Radicand> RootRing<R> {
    ghost use Rattle.std.specs.Prelude.{◌≡◌};

    pub(crate) fn new(a: i128, b: i128) -> RootRing<R>
        ensures a { result.a ≡ a }
        ensures b { result.b ≡ b }
    {
        RootRing {
            a,
            b,
            of: PhantomData,
        }
    }
}

impl<R: Radicand> Whole for RootRing<R> {
    ghost use Rattle.std.proofs.Common.{inr};
    ghost use Rattle.root_two.specs.Roots.{nonsquare, at_most_three, whole_pair, whole_holds, whole_numbers};

    const ROOT: u32 = R::K;

    ghost ROOT = { R.K };

    ghost pair = { whole_pair };

    ghost numbers = { whole_numbers R.Radicand };

    fn from_pair(a: i128, b: i128) -> Option<RootRing<R>> {
        Some(RootRing::new(a, b))
    }

    fn pair(self) -> (i128, i128) {
        (self.a, self.b)
    }

    fn add(self, other: RootRing<R>) -> RootRing<R> {
        RootRing::new(self.a + other.a, self.b + other.b)
    }

    fn sub(self, other: RootRing<R>) -> RootRing<R> {
        RootRing::new(self.a - other.a, self.b - other.b)
    }

    fn mul(self, other: RootRing<R>) -> RootRing<R> {
        RootRing::new(
            self.a * other.a + square::<R>() * (self.b * other.b),
            self.a * other.b + self.b * other.a,
        )
    }

    fn sign(self) -> Ordering {
        sign_of::<R>(self.a, self.b)
    }

    ghost holds = { whole_holds R.Radicand };

    ghost radicand = { inr (nonsquare R.Radicand) };

    ghost at_most_three = { at_most_three R.Radicand };
}

#[cfg(test)]
mod tests {
    use super::*;

    #[test]
    fn operations(rt: HostRuntime) {
        let x = RootTwoRing::new(1, 2);
        let y = RootTwoRing::new(3, -5);
        assert_eq!(rt; x.add(y), RootTwoRing::new(4, -3));
        assert_eq!(rt; x.sub(y), RootTwoRing::new(-2, 7));
        assert_eq!(rt; x.mul(y), RootTwoRing::new(-17, 1));
        assert_eq!(rt; RootTwoRing::from_pair(3, -5), Some(y));
        assert_eq!(rt; y.pair(), (3, -5));

        let x = RootThreeRing::new(1, 2);
        let y = RootThreeRing::new(3, -5);
        assert_eq!(rt; x.mul(y), RootThreeRing::new(-27, 1));
    }

    #[test]
    fn signs_for_two(rt: HostRuntime) {
        for (a, b, want) in [
            (0, 0, Ordering::Equal),
            (99, -70, Ordering::Greater),
            (-99, 70, Ordering::Less),
            (7, -5, Ordering::Less),
            (-7, 5, Ordering::Greater),
            // a² - 2b² is 1 here, and -1 in the next
            (
                94_741_125_149_636_933_417_873_079_920_900_017_937,
                -66_992_092_050_551_637_663_438_906_713_182_313_772,
                Ordering::Greater,
            ),
            (
                39_243_058_951_466_341_909_004_733_505_464_609_607,
                -27_749_033_099_085_295_754_434_173_207_717_704_165,
                Ordering::Less,
            ),
            (
                -39_243_058_951_466_341_909_004_733_505_464_609_607,
                27_749_033_099_085_295_754_434_173_207_717_704_165,
                Ordering::Greater,
            ),
            // 2^127 over √2 lies between these two
            (
                i128::MIN,
                120_307_984_584_002_255_772_516_886_238_812_528_463,
                Ordering::Less,
            ),
            (
                i128::MIN,
                120_307_984_584_002_255_772_516_886_238_812_528_464,
                Ordering::Greater,
            ),
            (i128::MAX, i128::MIN, Ordering::Less),
            (i128::MIN, i128::MIN, Ordering::Less),
            (i128::MIN, 0, Ordering::Less),
            (1, i128::MIN, Ordering::Less),
        ] {
            assert_eq!(rt; RootTwoRing::new(a, b).sign(), want, "{a}+{b}√2");
        }
    }

    #[test]
    fn signs_for_three(rt: HostRuntime) {
        for (a, b, want) in [
            (0, 0, Ordering::Equal),
            (7, -4, Ordering::Greater),
            (-7, 4, Ordering::Less),
            (5, -3, Ordering::Less),
            (-5, 3, Ordering::Greater),
            (1, -1, Ordering::Less),
            (2, -1, Ordering::Greater),
            // a² - 3b² is 1 here, and -2 in the next
            (
                104_581_698_064_305_799_637_417_536_815_546_412_442,
                -60_380_271_529_735_117_168_032_069_763_914_570_511,
                Ordering::Greater,
            ),
            (
                76_559_116_524_899_551_866_678_672_476_197_299_091,
                -44_201_426_534_570_682_469_385_467_051_631_841_931,
                Ordering::Less,
            ),
            // 2^127 over √3 lies between these two
            (
                i128::MIN,
                98_231_058_071_143_413_794_695_818_561_922_359_105,
                Ordering::Less,
            ),
            (
                i128::MIN,
                98_231_058_071_143_413_794_695_818_561_922_359_106,
                Ordering::Greater,
            ),
            (i128::MAX, i128::MIN, Ordering::Less),
            (i128::MIN, 0, Ordering::Less),
        ] {
            assert_eq!(rt; RootThreeRing::new(a, b).sign(), want, "{a}+{b}√3");
        }
    }
}

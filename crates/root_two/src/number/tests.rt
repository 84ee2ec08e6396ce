ghost use Rattle.std.specs.Prelude.{pos, ◌<ℤ◌};

use super::*;
use crate::whole::RootTwoRing;
use exact_number::{Whole, midpoint};
use std::process::Abort;

const HALF: i128 = 1 << 126;

fn number(rt: &impl Abort, a: i128, b: i128, q: i128) -> RootTwo
    requires { pos 0 <ℤ q }
{
    RootTwo::from_parts(a, b, q).expect(rt, "any three parts are a number")
}

fn number_over_three(rt: &impl Abort, a: i128, b: i128, q: i128) -> RootThree
    requires { pos 0 <ℤ q }
{
    RootThree::from_parts(a, b, q).expect(rt, "any three parts are a number")
}

fn quotient(rt: &impl Abort, x: RootTwo, y: RootTwo) -> Result<RootTwo, Overflow> {
    assert_ne!(rt; y.sign(), Ordering::Equal);
    x.div(y)
}

#[test]
fn operations(rt: HostRuntime) {
    let x = number(&rt, 2, 4, 6);
    let y = number(&rt, 1, -1, 6);
    assert_eq!(rt; x.parts(), (1, 2, 3));
    assert_eq!(rt; x.add(y), Ok(number(&rt, 1, 1, 2)));
    assert_eq!(rt; x.sub(y), Ok(number(&rt, 1, 5, 6)));
    assert_eq!(rt; x.mul(y), Ok(number(&rt, -3, 1, 18)));
    assert_eq!(rt; midpoint(x, y), Ok(number(&rt, 1, 1, 4)));
    assert_eq!(rt; x.compare(y), Ok(Ordering::Greater));
    assert_eq!(rt; x.scale(6), Some(RootTwoRing::new(2, 4)));
    assert_eq!(rt; x.scale(4), None);

    let one = number(&rt, 1, 0, 1);
    assert_eq!(rt;
        quotient(&rt, one, number(&rt, 1, 1, 1)),
        Ok(number(&rt, -1, 1, 1))
    );
    assert_eq!(rt;
        quotient(&rt, one, number(&rt, 3, 1, 1)),
        Ok(number(&rt, 3, -1, 7))
    );
}

#[test]
fn limits(rt: HostRuntime) {
    let half = number(&rt, HALF, 0, 1);
    let opposite = number(&rt, -HALF, 0, 1);
    let below = number(&rt, HALF - 1, 0, 1);
    assert_eq!(rt; half.add(half), Err(Overflow { op: Op::Add }));
    assert_eq!(rt; half.add(below), Ok(number(&rt, i128::MAX, 0, 1)));
    assert_eq!(rt; half.sub(opposite), Err(Overflow { op: Op::Sub }));
    assert_eq!(rt; opposite.sub(half), Ok(number(&rt, i128::MIN, 0, 1)));
    assert_eq!(rt; half.compare(opposite), Err(Overflow { op: Op::Compare }));

    // the product is 2^126, and 2·b·b isn't in range
    let sum = number(&rt, 1 << 63, 1 << 63, 1);
    let conjugate = number(&rt, -(1 << 63), 1 << 63, 1);
    assert_eq!(rt; sum.mul(conjugate), Err(Overflow { op: Op::Mul }));

    // -2^127 over the norm -1
    let x = number(&rt, -HALF, 1 << 125, 1);
    assert_eq!(rt;
        quotient(&rt, x, number(&rt, 1, 1, 1)),
        Err(Overflow { op: Op::Div })
    );

    assert_eq!(rt;
        number(&rt, 0, 1 << 21, 1).scale(2),
        Some(RootTwoRing::new(0, 1 << 22))
    );
    assert_eq!(rt; number(&rt, 0, (1 << 22) + 1, 1).scale(1), None);
}

#[test]
fn over_the_root_of_three(rt: HostRuntime) {
    let x = number_over_three(&rt, 1, 1, 1);
    let y = number_over_three(&rt, 2, -1, 3);
    assert_eq!(rt; x.add(y), Ok(number_over_three(&rt, 5, 2, 3)));
    assert_eq!(rt; x.mul(y), Ok(number_over_three(&rt, -1, 1, 3)));
    assert_eq!(rt; x.compare(y), Ok(Ordering::Greater));
    assert_ne!(rt; x.sign(), Ordering::Equal);
    assert_eq!(rt; y.div(x), Ok(number_over_three(&rt, -5, 3, 6)));
    assert_eq!(rt; x.scale(2).map(|whole| whole.pair()), Some((2, 2)));
}

ghost use Rattle.std.specs.Prelude.{◌≡◌, refl, pos, ◌<ℤ◌, ◌-ℤ◌, ◌*ℤ◌, IfErr};
ghost use Rattle.std.specs.Result.{OkIff};
ghost use Rattle.std.proofs.Common.{arith, inl};
ghost use Rattle.algebra.specs.LowestTerms.{IsReduced};
ghost use Rattle.exact_number.specs.WideForms.{AllFit, rational_difference};
ghost use Rattle.rational.specs.Rationals.{rational_parts, rational_numbers, rational_holds};

use crate::rational::Rational;
use crate::whole::RationalRing;
use exact_number::{Exact, Op, Overflow, lowest_terms, scaled_part};
use std::cmp::Ordering;

/// a/q brought to lowest terms.
fn reduced(a: i128, q: i128) -> Rational
    requires { pos 0 <ℤ q }
    ensures { IsReduced (record { a = a; b = pos 0; q = q }) (rational_parts result) }
{
    let (numerator, _, denominator) = lowest_terms(a, 0, q);
    Rational {
        a: numerator,
        q: denominator,
    }
}

/// The numerator and the denominator of a difference, before lowest terms.
fn difference(x: Rational, y: Rational, op: Op) -> Result<(i128, i128), Overflow>
    ensures answer { OkIff result (AllFit (rational_difference (rational_parts x) (rational_parts y)))
        (record { 0 = x.a *ℤ y.q -ℤ y.a *ℤ x.q; 1 = x.q *ℤ y.q }) }
    ensures overflow { IfErr result (λ e. e.op ≡ op) }
{
    let a = op.difference(op.product(x.a, y.q)?, op.product(y.a, x.q)?)?;
    let q = op.product(x.q, y.q)?;
    Ok((a, q))
}

impl Exact for Rational {
    const ROOT: u32 = 1;

    type Ring = RationalRing;

    ghost ROOT = { 1 };

    ghost parts = { rational_parts };

    ghost numbers = { rational_numbers };

    fn from_parts(a: i128, b: i128, q: i128) -> Option<Rational> {
        if b == 0 { Some(reduced(a, q)) } else { None }
    }

    fn parts(self) -> (i128, i128, i128) {
        (self.a, 0, self.q)
    }

    fn add(self, other: Rational) -> Result<Rational, Overflow> {
        let op = Op::Add;
        let a = op.sum(op.product(self.a, other.q)?, op.product(other.a, self.q)?)?;
        let q = op.product(self.q, other.q)?;
        Ok(reduced(a, q))
    }

    fn sub(self, other: Rational) -> Result<Rational, Overflow> {
        let (a, q) = difference(self, other, Op::Sub)?;
        Ok(reduced(a, q))
    }

    fn mul(self, other: Rational) -> Result<Rational, Overflow> {
        let a = Op::Mul.product(self.a, other.a)?;
        let q = Op::Mul.product(self.q, other.q)?;
        Ok(reduced(a, q))
    }

    fn div(self, other: Rational) -> Result<Rational, Overflow> {
        let op = Op::Div;
        let a = op.product(self.a, other.q)?;
        let q = op.product(self.q, other.a)?;
        if other.a < 0 {
            Ok(reduced(op.negation(a)?, op.negation(q)?))
        } else {
            Ok(reduced(a, q))
        }
    }

    fn compare(self, other: Rational) -> Result<Ordering, Overflow> {
        let (a, _) = difference(self, other, Op::Compare)?;
        Ok(a.cmp(&0))
    }

    fn sign(self) -> Ordering {
        self.a.cmp(&0)
    }

    fn scale(self, common: i128) -> Option<RationalRing> {
        let a = scaled_part(self.a, self.q, common)?;
        Some(RationalRing { a })
    }

    ghost holds = { rational_holds };

    ghost radicand = { inl refl };

    ghost at_most_three = { Prim.omega arith };

    ghost same_root = { refl };
}

#[cfg(test)]
mod tests {
    use super::*;
    use exact_number::{Whole, midpoint, whole_number};
    use std::process::Abort;
    use std::test::Fail;

    const LEAST: i128 = i128::MIN;

    const MOST: i128 = i128::MAX;

    type Row = ((i128, i128), (i128, i128), Result<(i128, i128, i128), Op>);

    fn number(rt: &impl Abort, a: i128, q: i128) -> Rational {
        assert!(rt; q > 0);
        Rational::from_parts(a, 0, q).expect(rt, "no root")
    }

    fn answer(number: Result<Rational, Overflow>) -> Result<(i128, i128, i128), Op> {
        match number {
            Ok(number) => Ok(number.parts()),
            Err(overflow) => Err(overflow.op),
        }
    }

    fn quotient(x: Rational, y: Rational) -> Option<Result<Rational, Overflow>> {
        match y.sign() {
            Ordering::Equal => None,
            _ => Some(x.div(y)),
        }
    }

    #[test]
    fn sums_and_differences(rt: HostRuntime) {
        let sums: [Row; 4] = [
            ((1 << 126, 1), (1 << 126, 1), Err(Op::Add)),
            ((1 << 126, 1), ((1 << 126) - 1, 1), Ok((MOST, 0, 1))),
            ((1, 6), (1, 3), Ok((1, 0, 2))),
            // The sum is 1, and its denominator before lowest terms 2^128.
            ((1, 1 << 64), ((1 << 64) - 1, 1 << 64), Err(Op::Add)),
        ];
        for ((a, q), (b, r), sum) in sums {
            let x = number(&rt, a, q);
            let y = number(&rt, b, r);
            assert_eq!(rt; answer(x.add(y)), sum, "{a}/{q} + {b}/{r}");
        }
        let differences: [Row; 3] = [
            ((-1, 1), (MOST, 1), Ok((LEAST, 0, 1))),
            ((-2, 1), (MOST, 1), Err(Op::Sub)),
            ((0, 1), (LEAST, 1), Err(Op::Sub)),
        ];
        for ((a, q), (b, r), difference) in differences {
            let x = number(&rt, a, q);
            let y = number(&rt, b, r);
            assert_eq!(rt; answer(x.sub(y)), difference, "{a}/{q} - {b}/{r}");
        }
    }

    #[test]
    fn products_and_quotients(rt: HostRuntime) -> Result<(), Fail> {
        let products: [Row; 3] = [
            ((2, 3), (-3, 8), Ok((-1, 0, 4))),
            ((LEAST, 1), (-1, 1), Err(Op::Mul)),
            // The numerator fits, and the denominator is 2^127.
            ((1, 1 << 64), (1, 1 << 63), Err(Op::Mul)),
        ];
        for ((a, q), (b, r), product) in products {
            let x = number(&rt, a, q);
            let y = number(&rt, b, r);
            assert_eq!(rt; answer(x.mul(y)), product, "{a}/{q} * {b}/{r}");
        }
        let quotients: [Row; 3] = [
            ((3, 4), (-9, 8), Ok((-2, 0, 3))),
            ((LEAST, 1), (-1, 1), Err(Op::Div)),
            ((1, 1), (LEAST, 1), Err(Op::Div)),
        ];
        for ((a, q), (b, r), expected) in quotients {
            let x = number(&rt, a, q);
            let y = number(&rt, b, r);
            let found = quotient(x, y).ok_or("a divisor is zero")?;
            assert_eq!(rt; answer(found), expected, "{a}/{q} over {b}/{r}");
        }
        Ok(())
    }

    #[test]
    fn order_and_scale(rt: HostRuntime) {
        let x = number(&rt, 2, 4);
        let y = number(&rt, -2, 3);
        assert_eq!(rt; x.parts(), (1, 0, 2));
        assert_eq!(rt; (x.sign(), y.sign()), (Ordering::Greater, Ordering::Less));
        assert_eq!(rt; x.compare(y), Ok(Ordering::Greater));
        assert_eq!(rt; y.compare(x), Ok(Ordering::Less));
        let least = number(&rt, LEAST, 1);
        assert_eq!(rt; least.compare(x), Err(Overflow { op: Op::Compare }));
        let scaled = y.scale(12).expect(&rt, "3 divides 12");
        assert_eq!(rt; scaled.pair(), (-8, 0));
        assert!(rt; y.scale(4).is_none());
        assert!(rt; number(&rt, 1 << 21, 1).scale(2).is_some());
        assert!(rt; number(&rt, (1 << 21) + 1, 1).scale(2).is_none());
        assert!(rt; Rational::from_parts(2, 1, 4).is_none());
    }

    #[test]
    fn generic_functions(rt: HostRuntime) {
        let three: Rational = whole_number(3);
        assert_eq!(rt; answer(midpoint(three, number(&rt, 1, 3))), Ok((5, 0, 3)));
    }
}

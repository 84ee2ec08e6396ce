ghost use Rattle.std.specs.Prelude.{◌≡◌, pos, ◌*ℤ◌, ◌<ℤ◌, unsigned_abs};
ghost use Rattle.std.specs.Int.{IsGcd};
ghost use Prim.Native.Nat.{◌∣◌};
ghost use Rattle.algebra.specs.LowestTerms.{IsReduced, IsGcdOfParts};

/// (a+b√K)/q brought to lowest terms, for any K.
pub fn lowest_terms(a: i128, b: i128, q: i128) -> (i128, i128, i128)
    requires { pos 0 <ℤ q }
    ensures { IsReduced (record { a = a; b = b; q = q }) (record { a = result.0; b = result.1; q = result.2 }) }
{
    let factor = common_factor(a, b, q);
    (
        exact_part(a, factor),
        exact_part(b, factor),
        exact_part(q, factor),
    )
}

/// The greatest common divisor of the three parts.
fn common_factor(a: i128, b: i128, q: i128) -> i128
    requires { pos 0 <ℤ q }
    ensures positive { pos 0 <ℤ result }
    ensures greatest { IsGcdOfParts (record { a = a; b = b; q = q }) (unsigned_abs result) }
{
    let numerator = gcd(a.unsigned_abs(), b.unsigned_abs());
    gcd(numerator, q.unsigned_abs()) as i128
}

/// The greatest common divisor, by Euclid's steps.
pub fn gcd(a: u128, b: u128) -> u128
    ensures { IsGcd a b result }
{
    let mut x = a;
    let mut y = b;
    while y != 0 {
        let rest = x % y;
        x = y;
        y = rest;
    }
    x
}

/// `a` over one of its divisors.
fn exact_part(a: i128, factor: i128) -> i128
    requires positive { pos 0 <ℤ factor }
    requires divides { unsigned_abs factor ∣ unsigned_abs a }
    ensures { a ≡ result *ℤ factor }
{
    a / factor
}

#[cfg(test)]
mod tests {
    use super::*;

    const LEAST: i128 = i128::MIN;

    #[test]
    fn lowest_terms_of_parts(rt: HostRuntime) {
        let rows = [
            ((2, 4, 6), (1, 2, 3)),
            ((0, 0, 5), (0, 0, 1)),
            ((-6, 10, 15), (-6, 10, 15)),
            ((LEAST, LEAST, 1 << 126), (-2, -2, 1)),
            ((LEAST, 0, i128::MAX), (LEAST, 0, i128::MAX)),
        ];
        for ((a, b, q), lowest) in rows {
            assert!(rt; q > 0);
            assert_eq!(rt; lowest_terms(a, b, q), lowest, "{a}, {b}, {q}");
        }
    }
}

ghost use Rattle.std.specs.Prelude.{pos, ◌*ℤ◌, ◌<ℤ◌, ◌≤◌, ◌^◌, unsigned_abs, int_div};
ghost use Rattle.std.specs.Option.{SomeIff};
ghost use Prim.Native.Nat.{◌∣◌};

/// The largest size of a scaled part.
pub const MOST_SCALED: u128 = 1 << 22;

/// A part of a number with the denominator `q`, times a common denominator. There's none where `q` doesn't divide the common
/// denominator, or the scaled part is larger in size than `MOST_SCALED`.
pub fn scaled_part(part: i128, q: i128, common: i128) -> Option<i128>
    requires q_positive { pos 0 <ℤ q }
    requires common_positive { pos 0 <ℤ common }
    ensures { SomeIff result
        ((unsigned_abs q ∣ unsigned_abs common) × (unsigned_abs (part *ℤ int_div common q) ≤ 2 ^ 22))
        (part *ℤ int_div common q) }
{
    if common % q != 0 {
        return None;
    }
    let scaled = part.checked_mul(common / q)?;
    if scaled.unsigned_abs() <= MOST_SCALED {
        Some(scaled)
    } else {
        None
    }
}

#[cfg(test)]
mod tests {
    use super::*;

    #[test]
    fn scaled_parts(rt: HostRuntime) {
        let rows = [
            ((-3, 4, 8), Some(-6)),
            ((3, 4, 6), None),
            ((1 << 22, 1, 1), Some(1 << 22)),
            (((1 << 22) + 1, 1, 1), None),
            ((i128::MIN, 1, 2), None),
        ];
        for ((part, q, common), scaled) in rows {
            assert!(rt; q > 0 && common > 0);
            assert_eq!(rt;
                scaled_part(part, q, common),
                scaled,
                "{part} * {common}/{q}"
            );
        }
    }
}

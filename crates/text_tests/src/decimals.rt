// The values of number texts, in steps of 10^-18 and in billionths.
use json_tree::NumberText;
use number_rules::{Decimal, has_billionths, read_decimal};
use std::test::Fail;

const ONE: i128 = 1_000_000_000_000_000_000;

const LIMIT: i128 = (1 << 62) * ONE;

fn far() -> Decimal {
    Decimal {
        far: true,
        near: 0,
        exact: false,
    }
}

fn near(near: i128, exact: bool) -> Decimal {
    Decimal {
        far: false,
        near,
        exact,
    }
}

#[test]
fn decimals(rt: HostRuntime) -> Result<(), Fail> {
    for (text, decimal) in [
        ("-0", near(0, true)),
        ("12", near(12 * ONE, true)),
        ("1.20e1", near(12 * ONE, true)),
        ("-125E-2", near(-ONE - ONE / 4, true)),
        (
            "0.4142135623730950488",
            near(414_213_562_373_095_049, false),
        ),
        // half a step is rounded up
        ("0.5e-18", near(1, false)),
        ("-0.5e-18", near(0, false)),
        ("-0.51e-18", near(-1, false)),
        ("-1.5e-18", near(-1, false)),
        (
            "1.4999999999999999999999999999999999999999999e-18",
            near(1, false),
        ),
        // 2^62 is the largest size, after rounding
        ("4611686018427387904", near(LIMIT, true)),
        (
            "4611686018427387904.0000000000000000004",
            near(LIMIT, false),
        ),
        ("4611686018427387904.0000000000000000005", far()),
        (
            "-4611686018427387904.0000000000000000005",
            near(-LIMIT, false),
        ),
        ("-4611686018427387904.0000000000000000006", far()),
        (
            "46116860184273879040000000000000000000e-19",
            near(LIMIT, true),
        ),
        // exponents that no word holds
        ("1e999999999999999999999999", far()),
        ("-1e-999999999999999999999999", near(0, false)),
        ("0.00e999999999999999999999999", near(0, true)),
        ("-0e-999999999999999999999999", near(0, true)),
    ] {
        let number = NumberText::read(rt.alloc(), text)?;
        assert!(rt; number.bytes().len() <= 16_777_216);
        assert_eq!(rt; read_decimal(&number), decimal, "{text}");
    }
    Ok(())
}

#[test]
fn billionths(rt: HostRuntime) -> Result<(), Fail> {
    const LARGE: i128 = 13_528_000_000_000_000_000_000_000_000_000_000_001;
    for (text, count, has) in [
        ("0.414213562", 414_213_562, true),
        ("0.4142135620", 414_213_562, true),
        ("414213562e-9", 414_213_562, true),
        ("0.4142135621", 414_213_562, false),
        ("-0.414213562", 414_213_562, false),
        ("-0.414213562", -414_213_562, true),
        ("-0", 0, true),
        ("0e999999999999999999999", 0, true),
        ("1e999999999999999999999", 0, false),
        ("1e-999999999999999999999", 0, false),
        ("13528000000000000000000000000.000000001", LARGE, true),
        ("13528000000000000000000000000.0000000010", LARGE, true),
        ("13528000000000000000000000000.0000000011", LARGE, false),
        ("13528000000000000000000000000.000000002", LARGE, false),
        ("13528000000000000000000000000000000000001", LARGE, false),
    ] {
        let number = NumberText::read(rt.alloc(), text)?;
        assert!(rt; number.bytes().len() <= 16_777_216);
        assert!(rt; count.unsigned_abs() <= LARGE.unsigned_abs());
        assert_eq!(rt; has_billionths(&number, count), has, "{text}");
    }
    Ok(())
}

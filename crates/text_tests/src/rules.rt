// Decimals as exact numbers, by each rule.
use exact_number::Exact;
use json_tree::NumberText;
use number_rules::{
    Decimal, Unread, exact_rule, grid_rule, read_exact, read_grid, read_root_three, read_root_two,
    root_three_rule, root_two_rule,
};
use rational::Rational;
use std::test::Fail;

/// 1, in steps.
const ONE: i128 = 1_000_000_000_000_000_000;

fn decimal(near: i128, exact: bool) -> Decimal {
    Decimal {
        far: false,
        near,
        exact,
    }
}

#[test]
fn exact_and_grid(rt: HostRuntime) {
    let far = Decimal {
        far: true,
        near: 0,
        exact: false,
    };
    for (value, number) in [
        (far, Err(Unread::Far)),
        (decimal(ONE / 2, false), Err(Unread::Fine)),
        (decimal(-ONE / 4, true), Ok((-1, 0, 4))),
        (decimal((1 << 62) * ONE, true), Ok((1 << 62, 0, 1))),
        // half of a numerator that is larger than 2^62
        (decimal((1 << 62) * ONE - ONE / 2, true), Err(Unread::Far)),
    ] {
        let read = read_exact::<Rational>(value);
        assert_eq!(rt; read.map(|x| x.parts()), number);
    }
    for (n, value, number) in [
        (1, far, Err(Unread::Far)),
        (1, decimal(3 * ONE / 2, true), Ok((2, 0, 1))),
        (1, decimal(-3 * ONE / 2, false), Ok((-1, 0, 1))),
        (
            1000,
            decimal(3335 * (ONE / 10_000), true),
            Ok((167, 0, 500)),
        ),
        (
            1_000_000,
            decimal((1 << 30) * ONE, true),
            Ok((1 << 30, 0, 1)),
        ),
        (1, decimal((1 << 30) * ONE + 1, true), Err(Unread::Far)),
    ] {
        assert!(rt; 0 < n && n <= 1_000_000);
        let read = read_grid::<Rational>(n, value);
        assert_eq!(rt; read.map(|x| x.parts()), number);
    }
}

#[test]
fn roots(rt: HostRuntime) {
    const ROOT_OF_TWO: i128 = 1_414_213_562_373_095_048;
    for (n, near, number) in [
        (1, 414_213_562_373_100_000, Ok((-1, 1, 1))),
        (2, 7 * ONE / 2, Ok((7, 0, 2))),
        (6, ONE / 3 + 123, Ok((1, 0, 3))),
        (1, ONE / 2, Err(Unread::NoRoot)),
        // exactly 10^-7, and a step more
        (1, 3 * ONE + 100_000_000_000, Ok((3, 0, 1))),
        (1, 3 * ONE + 100_000_000_001, Err(Unread::NoRoot)),
        (1, 7 * ONE + 1024 * ROOT_OF_TWO, Ok((7, 1024, 1))),
        (1, -1024 * ROOT_OF_TWO, Ok((0, -1024, 1))),
        (1, 1025 * ROOT_OF_TWO, Err(Unread::NoRoot)),
        (1, (1 << 30) * ONE + 1, Err(Unread::Far)),
    ] {
        assert!(rt; 0 < n && n <= 1_000_000);
        let read = read_root_two(n, decimal(near, false));
        assert_eq!(rt; read.map(|x| x.parts()), number, "{near}");
    }
    let three = read_root_three(1, decimal(732_050_807_568_880_000, false));
    assert_eq!(rt; three.map(|x| x.parts()), Ok((-1, 1, 1)));
    let none = read_root_three(1, decimal(ONE / 2, true));
    assert_eq!(rt; none.map(|x| x.parts()), Err(Unread::NoRoot));
}

#[test]
fn by_exact(rt: HostRuntime) -> Result<(), Fail> {
    let rule = exact_rule(|value: Decimal| read_exact::<Rational>(value));
    assert_eq!(rt; rule.tolerance(), 0);
    for (text, parts) in [
        ("-12.50", Ok((-25, 0, 2))),
        ("0e999999999999", Ok((0, 0, 1))),
        ("1.4210854715202004E-14", Err(Unread::Fine)),
        ("1e-999999999999", Err(Unread::Fine)),
        ("1e30", Err(Unread::Far)),
        ("1e999999999999", Err(Unread::Far)),
    ] {
        let number = NumberText::read(rt.alloc(), text)?;
        assert!(rt; number.bytes().len() <= 16_777_216);
        let read = rule.apply(&number);
        assert_eq!(rt; read.map(|x| x.parts()), parts, "{text}");
    }
    Ok(())
}

#[test]
fn by_a_grid(rt: HostRuntime) -> Result<(), Fail> {
    let rule = grid_rule(1000, |value: Decimal| read_grid::<Rational>(1000, value));
    assert_eq!(rt; rule.tolerance(), 500_000_000_000_001);
    for (text, parts) in [
        ("0.3335", Ok((167, 0, 500))),
        ("200.0", Ok((200, 0, 1))),
        ("1.4210854715202004E-14", Ok((0, 0, 1))),
        ("1e-999999999999", Ok((0, 0, 1))),
        ("1e999999999999", Err(Unread::Far)),
    ] {
        let number = NumberText::read(rt.alloc(), text)?;
        assert!(rt; number.bytes().len() <= 16_777_216);
        let read = rule.apply(&number);
        assert_eq!(rt; read.map(|x| x.parts()), parts, "{text}");
    }
    Ok(())
}

#[test]
fn by_roots(rt: HostRuntime) -> Result<(), Fail> {
    let two = root_two_rule(1, |value: Decimal| read_root_two(1, value));
    let three = root_three_rule(1, |value: Decimal| read_root_three(1, value));
    assert_eq!(rt; two.tolerance(), 100_000_000_001);
    let none = Err(Unread::NoRoot);
    for (text, over_two, over_three) in [
        ("0.41421356237310", Ok((-1, 1, 1)), none),
        ("0.73205080756888", none, Ok((-1, 1, 1))),
        ("1", Ok((1, 0, 1)), Ok((1, 0, 1))),
        ("0.5", none, none),
    ] {
        let number = NumberText::read(rt.alloc(), text)?;
        assert!(rt; number.bytes().len() <= 16_777_216);
        let read = two.apply(&number);
        assert_eq!(rt; read.map(|x| x.parts()), over_two, "{text}");
        let read = three.apply(&number);
        assert_eq!(rt; read.map(|x| x.parts()), over_three, "{text}");
    }
    Ok(())
}

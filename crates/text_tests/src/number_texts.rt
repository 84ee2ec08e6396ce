// Exact numbers as texts: with nine decimals, and exact.
use exact_number::Exact;
use fold_base::Text;
use number_rules::{Unread, exact_text, print9, read_exact_text};
use rational::Rational;
use root_two::{RootThree, RootTwo, Three, Two};
use std::process::Abort;
use std::test::Fail;

const FAR: i128 = 1 << 92;

/// Compares the text of (a+b√K)/q.
fn writes<N: Exact>(rt: &impl Abort, a: i128, b: i128, q: i128, text: &str) {
    assert!(rt; q > 0);
    let number = N::from_parts(a, b, q).expect(rt, "parts of a number");
    let (a, b, q) = number.parts();
    assert!(rt; a.unsigned_abs() <= 1 << 92);
    assert!(rt; b.unsigned_abs() <= 1 << 92);
    assert!(rt; q.unsigned_abs() <= 1 << 92);
    let mut room = [0u8; 48];
    let count = print9(number, &mut room);
    assert_eq!(rt; &room[..count], text.as_bytes(), "{text}");
}

#[test]
fn rationals(rt: HostRuntime) {
    for (a, q, text) in [
        (0, 1, "0"),
        (10, 1, "10"),
        (-1, 2, "-0.5"),
        (-3, 8, "-0.375"),
        (1, 3, "0.333333333"),
        (-2, 3, "-0.666666667"),
        (1, 1_000_000_000, "0.000000001"),
        // half a billionth is rounded up
        (1, 2_000_000_000, "0.000000001"),
        (-1, 2_000_000_000, "0"),
        (-3, 2_000_000_000, "-0.000000001"),
        (FAR, 1, "4951760157141521099596496896"),
        (-FAR, 3, "-1650586719047173699865498965.333333333"),
        (-1, FAR, "0"),
    ] {
        writes::<Rational>(&rt, a, 0, q, text);
    }
}

#[test]
fn with_roots(rt: HostRuntime) {
    for (a, b, q, text) in [
        (-1, 1, 1, "0.414213562"),
        (1, -1, 1, "-0.414213562"),
        (1, 2, 3, "1.276142375"),
        (-99, 70, 1, "-0.005050634"),
        (FAR, FAR, 1, "11954606528989788589437989174.43227147"),
        (FAR, -FAR, 7, "-293012316386678055749285054.633181639"),
        (1, 1, FAR, "0"),
    ] {
        writes::<RootTwo>(&rt, a, b, q, text);
    }
    writes::<RootThree>(&rt, -1, 1, 1, "0.732050808");
    writes::<RootThree>(&rt, 5, -3, 2, "-0.098076211");
}

#[test]
fn exact_texts_are_read(rt: HostRuntime) -> Result<(), Fail> {
    let alloc = rt.alloc();
    let refused = Err(Unread::ExactText);
    for (text, two, three) in [
        ("1,-2,3", Ok((1, -2, 3)), refused),
        ("0,0,1", Ok((0, 0, 1)), refused),
        ("1,-2,3,3", refused, Ok((1, -2, 3))),
        ("1,-2,3,2", refused, refused),
        ("1,-2,3,", refused, refused),
        ("1,-2,3,3,3", refused, refused),
        ("1,-2", refused, refused),
        ("", refused, refused),
        ("2,4,6", refused, refused),
        ("0,0,2", refused, refused),
        ("-0,0,1", refused, refused),
        ("01,0,1", refused, refused),
        ("+1,0,1", refused, refused),
        (" 1,0,1", refused, refused),
        ("-,0,1", refused, refused),
        ("1,0,0", refused, refused),
        ("1,0,-1", refused, refused),
        ("4951760157141521099596496896,0,1", Ok((FAR, 0, 1)), refused),
        (
            "-4951760157141521099596496896,0,1",
            Ok((-FAR, 0, 1)),
            refused,
        ),
        ("4951760157141521099596496897,0,1", refused, refused),
        ("1,0,4951760157141521099596496897", refused, refused),
    ] {
        let text = Text::from_text(alloc, text)?;
        let read = read_exact_text::<Two>(&text);
        assert_eq!(rt; read.map(|x| x.parts()), two, "{text}");
        let read = read_exact_text::<Three>(&text);
        assert_eq!(rt; read.map(|x| x.parts()), three, "{text}");
    }
    Ok(())
}

#[test]
fn exact_texts_are_written(rt: HostRuntime) -> Result<(), Fail> {
    let alloc = rt.alloc();
    let third = Rational::from_parts(-1, 0, 3).ok_or("rational")?;
    assert_eq!(rt; exact_text(alloc, third)?.as_str(), "-1,0,3");
    let two = RootTwo::from_parts(2, -4, 6).ok_or("over the root of 2")?;
    assert_eq!(rt; exact_text(alloc, two)?.as_str(), "1,-2,3");
    let three = RootThree::from_parts(2, -4, 6).ok_or("over the root of 3")?;
    assert_eq!(rt; exact_text(alloc, three)?.as_str(), "1,-2,3,3");
    Ok(())
}

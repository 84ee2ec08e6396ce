ghost use Rattle.std.specs.Prelude.{◌≡◌, ◌↔◌, ℕ, ℤ, pos, ◌+◌, ◌*◌, ◌^◌, ◌<◌, ◌≤◌, ◌+ℤ◌, ◌-ℤ◌, ◌*ℤ◌, neg_ℤ, unsigned_abs, IsTrue};
ghost use Rattle.std.specs.Ordering.{is_ge, is_le};
ghost use Rattle.algebra.specs.LowestTerms.{IsReduced};
ghost use Rattle.number_rules.specs.Rounded.{steps_of_one};
ghost use Rattle.number_rules.specs.Rows.{IsNear, sign_over};
ghost use Rattle.number_rules.specs.Search.{IsFractionOfRoot, IsRest, StandsAt, StandsAtSize, StandsFirst, multiple_of, start};
ghost use Rattle.root_two.specs.Roots.{root_parts};

use exact_number::{Exact, Whole};
use root_two::{Radicand, Root, RootRing};
use std::cmp::Ordering;

/// 1, in steps.
const ONE: u64 = 1_000_000_000_000_000_000;

const STEPS: i128 = 1_000_000_000_000_000_000;

/// 10^-7, in steps.
const REACH: u64 = 100_000_000_000;

/// The fraction of √K, in steps.
fn fraction_of_root<R: Radicand>() -> u64
    ensures { IsFractionOfRoot R.K result }
{
    if R::K == 2 {
        414_213_562_373_095_048
    } else {
        732_050_807_568_877_293
    }
}

/// What z - (1 + fraction) leaves, where z leaves `rest`.
fn rest_before(rest: u64, fraction: u64) -> u64
    requires rest { rest < steps_of_one }
    requires fraction { fraction < steps_of_one }
    ensures within { result < steps_of_one }
    ensures value { (z : ℤ) → IsRest z rest → IsRest (z -ℤ pos (steps_of_one + fraction)) result }
{
    if rest >= fraction {
        rest - fraction
    } else {
        rest + (ONE - fraction)
    }
}

/// What z + (1 + fraction) leaves, where z leaves `rest`.
fn rest_behind(rest: u64, fraction: u64) -> u64
    requires rest { rest < steps_of_one }
    requires fraction { fraction < steps_of_one }
    ensures within { result < steps_of_one }
    ensures value { (z : ℤ) → IsRest z rest → IsRest (z +ℤ pos (steps_of_one + fraction)) result }
{
    let left = ONE - fraction;
    if rest >= left {
        rest - left
    } else {
        rest + fraction
    }
}

/// How many steps n times 10^-7 are.
fn reach_of(n: u32) -> i128
    requires { n ≤ 1000000 }
    ensures value { result ≡ pos (n * 100000000000) }
    ensures within { unsigned_abs result ≤ 2 ^ 62 }
{
    i128::from(u64::from(n) * REACH)
}

/// n·near.
fn times_near(n: u32, near: i128) -> i128
    requires number { n ≤ 1000000 }
    requires near { unsigned_abs near ≤ 2 ^ 30 * steps_of_one }
    ensures value { result ≡ pos n *ℤ near }
    ensures within { unsigned_abs result ≤ 2 ^ 111 }
{
    i128::from(n) * near
}

/// n·near, made larger by what is near enough and by what b√K may be off.
fn start_of(n: u32, near: i128) -> i128
    requires number { n ≤ 1000000 }
    requires near { unsigned_abs near ≤ 2 ^ 30 * steps_of_one }
    ensures value { result ≡ start n near }
    ensures within { unsigned_abs result ≤ 2 ^ 112 }
{
    times_near(n, near) + reach_of(n) + 1024
}

/// What whole numbers leave of it.
fn first_rest(n: u32, near: i128) -> u64
    requires number { n ≤ 1000000 }
    requires near { unsigned_abs near ≤ 2 ^ 30 * steps_of_one }
    ensures within { result < steps_of_one }
    ensures value { IsRest (start n near) result }
{
    start_of(n, near).rem_euclid(STEPS) as u64
}

/// A whole number in steps.
fn in_steps(whole: i128) -> i128
    requires { unsigned_abs whole ≤ 2 ^ 62 }
    ensures value { result ≡ whole *ℤ pos steps_of_one }
    ensures within { unsigned_abs result ≤ 2 ^ 122 }
{
    whole * STEPS
}

/// b√K in steps, but for less than |b|.
fn multiple(fraction: u64, b: i128) -> i128
    requires fraction { fraction < steps_of_one }
    requires b { unsigned_abs b ≤ 1024 }
    ensures value { result ≡ multiple_of fraction b }
    ensures within { unsigned_abs result ≤ 2 ^ 72 }
{
    b * i128::from(ONE + fraction)
}

/// What is left for a at b.
fn left_at(n: u32, near: i128, fraction: u64, b: i128) -> i128
    requires number { n ≤ 1000000 }
    requires near { unsigned_abs near ≤ 2 ^ 30 * steps_of_one }
    requires fraction { fraction < steps_of_one }
    requires b { unsigned_abs b ≤ 1024 }
    ensures value { result ≡ start n near -ℤ multiple_of fraction b }
    ensures within { unsigned_abs result ≤ 2 ^ 113 }
{
    start_of(n, near) - multiple(fraction, b)
}

/// The only a that may be near enough at b.
fn only_a(n: u32, near: i128, fraction: u64, b: i128) -> i128
    requires number { n ≤ 1000000 }
    requires near { unsigned_abs near ≤ 2 ^ 30 * steps_of_one }
    requires fraction { fraction < steps_of_one }
    requires b { unsigned_abs b ≤ 1024 }
    ensures within { unsigned_abs result ≤ 2 ^ 62 }
    ensures value { (rest : ℕ)
        × ((start n near -ℤ multiple_of fraction b ≡ result *ℤ pos steps_of_one +ℤ pos rest) × (rest < steps_of_one)) }
{
    left_at(n, near, fraction, b).div_euclid(STEPS)
}

/// a in steps, less n·near.
fn distance(n: u32, near: i128, a: i128) -> i128
    requires number { n ≤ 1000000 }
    requires near { unsigned_abs near ≤ 2 ^ 30 * steps_of_one }
    requires a { unsigned_abs a ≤ 2 ^ 62 }
    ensures value { result ≡ a *ℤ pos steps_of_one -ℤ pos n *ℤ near }
    ensures within { unsigned_abs result ≤ 2 ^ 123 }
{
    in_steps(a) - times_near(n, near)
}

/// Whether (a+b√K)/n is at most 10^-7 below `near` steps.
fn is_not_below<R: Radicand>(n: u32, near: i128, a: i128, b: i128) -> bool
    requires number { n ≤ 1000000 }
    requires near { unsigned_abs near ≤ 2 ^ 30 * steps_of_one }
    requires a { unsigned_abs a ≤ 2 ^ 62 }
    requires b { unsigned_abs b ≤ 1024 }
    ensures { result ≡ is_ge (sign_over R.K ((a *ℤ pos steps_of_one -ℤ pos n *ℤ near) +ℤ pos (n * 100000000000)) (b *ℤ pos steps_of_one)) }
{
    sign::<R>(distance(n, near, a) + reach_of(n), in_steps(b)).is_ge()
}

/// Whether it's at most 10^-7 above.
fn is_not_above<R: Radicand>(n: u32, near: i128, a: i128, b: i128) -> bool
    requires number { n ≤ 1000000 }
    requires near { unsigned_abs near ≤ 2 ^ 30 * steps_of_one }
    requires a { unsigned_abs a ≤ 2 ^ 62 }
    requires b { unsigned_abs b ≤ 1024 }
    ensures { result ≡ is_le (sign_over R.K ((a *ℤ pos steps_of_one -ℤ pos n *ℤ near) -ℤ pos (n * 100000000000)) (b *ℤ pos steps_of_one)) }
{
    sign::<R>(distance(n, near, a) - reach_of(n), in_steps(b)).is_le()
}

/// Whether it's within 10^-7.
fn is_near<R: Radicand>(n: u32, near: i128, a: i128, b: i128) -> bool
    requires number { n ≤ 1000000 }
    requires near { unsigned_abs near ≤ 2 ^ 30 * steps_of_one }
    requires a { unsigned_abs a ≤ 2 ^ 62 }
    requires b { unsigned_abs b ≤ 1024 }
    ensures { IsTrue result ↔ IsNear R.K n near a b }
{
    is_not_below::<R>(n, near, a, b) && is_not_above::<R>(n, near, a, b)
}

/// The sign of x+y√K.
fn sign<R: Radicand>(x: i128, y: i128) -> Ordering
    ensures { result ≡ sign_over R.K x y }
{
    match RootRing::<R>::from_pair(x, y) {
        Some(number) => number.sign(),
        None => unreachable!(),
    }
}

/// (a+b√K)/n, in lowest terms.
fn root_over<R: Radicand>(n: u32, a: i128, b: i128) -> Root<R>
    requires { 0 < n }
    ensures { IsReduced (record { a = a; b = b; q = pos n }) (root_parts result) }
{
    match Root::from_parts(a, b, i128::from(n)) {
        Some(number) => number,
        None => unreachable!(),
    }
}

/// The number at b, where one is near enough.
fn root_at<R: Radicand>(n: u32, near: i128, fraction: u64, b: i128) -> Option<Root<R>>
    requires number { (0 < n) × (n ≤ 1000000) }
    requires near { unsigned_abs near ≤ 2 ^ 30 * steps_of_one }
    requires fraction { IsFractionOfRoot R.K fraction }
    requires b { unsigned_abs b ≤ 1024 }
    ensures { StandsAt R.K n near root_parts b result }
{
    let a = only_a(n, near, fraction, b);
    if is_near::<R>(n, near, a, b) {
        Some(root_over(n, a, b))
    } else {
        None
    }
}

/// The same, given what is left at b: most of the time that alone shows that there's none.
fn root_at_rest<R: Radicand>(
    n: u32,
    near: i128,
    fraction: u64,
    b: i128,
    rest: u64,
) -> Option<Root<R>>
    requires number { (0 < n) × (n ≤ 1000000) }
    requires near { unsigned_abs near ≤ 2 ^ 30 * steps_of_one }
    requires fraction { IsFractionOfRoot R.K fraction }
    requires b { unsigned_abs b ≤ 1024 }
    requires rest { IsRest (start n near -ℤ multiple_of fraction b) rest }
    ensures { StandsAt R.K n near root_parts b result }
{
    if rest > 2 * (u64::from(n) * REACH + 1024) {
        return None;
    }
    root_at(n, near, fraction, b)
}

/// The number at the first of a size and its opposite.
fn root_at_size<R: Radicand>(
    n: u32,
    near: i128,
    fraction: u64,
    size: u32,
    up: u64,
    down: u64,
) -> Option<Root<R>>
    requires number { (0 < n) × (n ≤ 1000000) }
    requires near { unsigned_abs near ≤ 2 ^ 30 * steps_of_one }
    requires fraction { IsFractionOfRoot R.K fraction }
    requires size { size ≤ 1024 }
    requires up { IsRest (start n near -ℤ multiple_of fraction (pos size)) up }
    requires down { IsRest (start n near -ℤ multiple_of fraction (neg_ℤ (pos size))) down }
    ensures { StandsAtSize R.K n near root_parts size result }
{
    let b = i128::from(size);
    match root_at_rest(n, near, fraction, b, up) {
        Some(number) => Some(number),
        None => root_at_rest(n, near, fraction, -b, down),
    }
}

/// The number at the first b of 0, 1, -1, 2, -2, .. up to 1024 in size that has one.
pub fn first_root<R: Radicand>(n: u32, near: i128) -> Option<Root<R>>
    requires number { (0 < n) × (n ≤ 1000000) }
    requires near { unsigned_abs near ≤ 2 ^ 30 * steps_of_one }
    ensures { StandsFirst R.K n near root_parts result }
{
    let fraction = fraction_of_root::<R>();
    let mut up = first_rest(n, near);
    let mut down = up;
    for size in 0..1025u32 {
        match root_at_size(n, near, fraction, size, up, down) {
            Some(number) => return Some(number),
            None => {}
        }
        up = rest_before(up, fraction);
        down = rest_behind(down, fraction);
    }
    None
}

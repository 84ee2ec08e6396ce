ghost use Rattle.std.specs.Prelude.{◌≡◌, ◌↔◌, ℤ, pos, ◌+◌, ◌*◌, ◌^◌, ◌<◌, ◌≤◌, ◌+ℤ◌, ◌-ℤ◌, ◌*ℤ◌, ◌<ℤ◌, neg_ℤ, unsigned_abs, IsTrue, false};
ghost use Rattle.std.specs.Ordering.{is_ge};
ghost use Rattle.number_rules.specs.Rows.{sign_over};
ghost use Rattle.number_rules.specs.ExactText.{AreShort};
ghost use Rattle.number_rules.specs.Nine.{IsNine, IsExactlyNine, IsInReach, sign_past};

use exact_number::{Exact, Whole};
use std::cmp::Ordering;

/// A number in billionths, 10^-9, rounded half up.
#[derive(Clone, Copy, PartialEq, Eq, Debug)]
pub struct Nine {
    /// The rounded value times 10^9.
    pub near: i128,
    /// Whether rounding has changed nothing.
    pub exact: bool,
}

const BILLION: i128 = 1_000_000_000;

/// What a whole number times q may be.
const MOST: i128 = 1 << 125;

const STEPS: u128 = 1 << 62;

/// A number rounded to nine decimals.
pub fn round_to_nine<N: Exact>(value: N) -> Nine
    requires { AreShort (N.parts value) }
    ensures near { IsNine N.ROOT (N.parts value) result.near }
    ensures exact { IsTrue result.exact ↔ IsExactlyNine (N.parts value) result.near }
{
    let near = nearest(value);
    let (a, b, q) = value.parts();
    Nine {
        near,
        exact: b == 0 && is_multiple(a, near, q),
    }
}

/// Whether 10^9·a is m·q.
fn is_multiple(a: i128, m: i128, q: i128) -> bool
    requires a { unsigned_abs a ≤ 2 ^ 92 }
    requires product { unsigned_abs m * unsigned_abs q ≤ 2 ^ 125 }
    ensures { IsTrue result ↔ (pos 1000000000 *ℤ a ≡ m *ℤ q) }
{
    BILLION * a == m * q
}

/// The whole number that is nearest to 10^9·x, the larger one of two: a guess, which two signs confirm, or where they don't,
/// by halving what is left.
fn nearest<N: Exact>(value: N) -> i128
    requires { AreShort (N.parts value) }
    ensures nine { IsNine N.ROOT (N.parts value) result }
    ensures within { IsInReach (N.parts value) result }
{
    let most = farthest(value);
    let guess = guess(value).clamp(-most, most - 1);
    if !reaches(value, guess) {
        last_reached(value, -most, guess)
    } else if reaches(value, guess + 1) {
        last_reached(value, guess + 1, most)
    } else {
        guess
    }
}

/// More than 10^9·x is in size, by a half at least, yet small enough to compute with.
fn farthest<N: Exact>(value: N) -> i128
    requires { AreShort (N.parts value) }
    ensures positive { pos 0 <ℤ result }
    ensures within { IsInReach (N.parts value) result }
    ensures below { IsTrue (is_ge (sign_past N.ROOT (N.parts value) (pos 2 *ℤ neg_ℤ result -ℤ pos 1))) }
    ensures above { is_ge (sign_past N.ROOT (N.parts value) (pos 2 *ℤ result -ℤ pos 1)) ≡ false }
{
    let (_, _, q) = value.parts();
    MOST / q
}

/// The last whole number that 10^9·x reaches but for a half, between one that it reaches and one that it doesn't.
fn last_reached<N: Exact>(value: N, mut low: i128, mut high: i128) -> i128
    requires parts { AreShort (N.parts value) }
    requires between { low <ℤ high }
    requires low_within { IsInReach (N.parts value) low }
    requires high_within { IsInReach (N.parts value) high }
    requires reached { IsTrue (is_ge (sign_past N.ROOT (N.parts value) (pos 2 *ℤ low -ℤ pos 1))) }
    requires not_reached { is_ge (sign_past N.ROOT (N.parts value) (pos 2 *ℤ high -ℤ pos 1)) ≡ false }
    ensures nine { IsNine N.ROOT (N.parts value) result }
    ensures within { IsInReach (N.parts value) result }
{
    while are_apart(low, high) {
        let middle = halfway(low, high);
        if reaches(value, middle) {
            low = middle;
        } else {
            high = middle;
        }
    }
    low
}

/// Whether a whole number lies between.
fn are_apart(low: i128, high: i128) -> bool
    requires { (unsigned_abs low ≤ 2 ^ 125) × (unsigned_abs high ≤ 2 ^ 125) }
    ensures { IsTrue result ↔ ((low +ℤ pos 1) <ℤ high) }
{
    low + 1 < high
}

/// A whole number between, about halfway.
fn halfway(low: i128, high: i128) -> i128
    requires size { (unsigned_abs low ≤ 2 ^ 125) × (unsigned_abs high ≤ 2 ^ 125) }
    requires apart { (low +ℤ pos 1) <ℤ high }
    ensures above { low <ℤ result }
    ensures below { result <ℤ high }
{
    low + (high - low) / 2
}

/// Whether 10^9·x is at least m - 1/2.
fn reaches<N: Exact>(value: N, m: i128) -> bool
    requires parts { AreShort (N.parts value) }
    requires within { IsInReach (N.parts value) m }
    ensures { result ≡ is_ge (sign_past N.ROOT (N.parts value) (pos 2 *ℤ m -ℤ pos 1)) }
{
    let (a, b, q) = value.parts();
    sign::<N::Ring>(doubled(a) - halves(m, q), doubled(b)).is_ge()
}

/// 2·10^9 times a part.
fn doubled(part: i128) -> i128
    requires { unsigned_abs part ≤ 2 ^ 92 }
    ensures value { result ≡ pos 2000000000 *ℤ part }
    ensures within { unsigned_abs result ≤ 2 ^ 123 }
{
    2 * BILLION * part
}

/// (2m - 1)·q.
fn halves(m: i128, q: i128) -> i128
    requires q { (pos 0 <ℤ q) × (unsigned_abs q ≤ 2 ^ 92) }
    requires m { unsigned_abs m * unsigned_abs q ≤ 2 ^ 125 }
    ensures value { result ≡ (pos 2 *ℤ m -ℤ pos 1) *ℤ q }
    ensures within { unsigned_abs result ≤ 2 ^ 126 + 2 ^ 92 }
{
    (2 * m - 1) * q
}

/// The sign of x+y√K.
fn sign<W: Whole>(x: i128, y: i128) -> Ordering
    requires { W.ROOT ≡ 1 → y ≡ pos 0 }
    ensures { result ≡ sign_over W.ROOT x y }
{
    match W::from_pair(x, y) {
        Some(number) => number.sign(),
        None => unreachable!(),
    }
}

/// About 10^9·x. It's the nearest whole number nearly always, but nothing rests on that but speed.
fn guess<N: Exact>(value: N) -> i128
    requires { AreShort (N.parts value) }
{
    let (a, b, q) = value.parts();
    (doubled(a) + times_root::<N>(doubled(b)) + q).div_euclid(2 * q)
}

/// About y√K.
fn times_root<N: Exact>(y: i128) -> i128
    requires { unsigned_abs y ≤ 2 ^ 123 }
    ensures { unsigned_abs result ≤ 2 ^ 126 }
{
    let (first, second) = root_digits(N::ROOT);
    let size = size_times_root(y.unsigned_abs(), first, second) as i128;
    if y < 0 { -size - 1 } else { size }
}

/// √2 or √3 in steps of 2^-62, and what is left of it in steps of 2^-124.
fn root_digits(root: u32) -> (u64, u64)
    ensures { (result.0 < 2 ^ 63) × (result.1 < 2 ^ 63) }
{
    if root == 2 {
        (6_521_908_912_666_391_106, 806_057_705_665_550_291)
    } else {
        (7_987_674_492_471_257_550, 3_627_441_516_182_209_464)
    }
}

/// A size times such a root, but for less than one.
fn size_times_root(size: u128, first: u64, second: u64) -> u128
    requires size { size ≤ 2 ^ 123 }
    requires root { (first < 2 ^ 63) × (second < 2 ^ 63) }
    ensures { result < 2 ^ 126 }
{
    let high = (size / STEPS) as u64;
    let low = (size % STEPS) as u64;
    let rest = product(high, second) + product(low, first) + product(low, second) / STEPS;
    product(high, first) + rest / STEPS
}

fn product(x: u64, y: u64) -> u128
    requires { (x < 2 ^ 62) × (y < 2 ^ 63) }
    ensures value { result ≡ x * y }
    ensures within { result < 2 ^ 125 }
{
    u128::from(x) * u128::from(y)
}

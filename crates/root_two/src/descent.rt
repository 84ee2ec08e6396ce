ghost use Rattle.std.specs.Prelude.{◌≡◌, ◌+◌, ◌<◌, pos};
ghost use Rattle.algebra.specs.Order.{int_sign};
ghost use Rattle.algebra.specs.Integers.{int_ops};
ghost use Rattle.algebra.specs.Surd.{surd_sign};
ghost use Rattle.root_two.specs.Descent.{against_root, Tells};

use crate::radicand::Radicand;
use std::cmp::Ordering;

/// What a step of the descent says of x and y√k.
pub enum Step {
    /// How x stands to y√k.
    Settled(Ordering),
    /// A smaller pair, s and t: x stands to y√k as t√k stands to s.
    Turned(u128, u128),
}

/// A step for √2 from x and y, which aren't both 0. Either 5/4 < √2 < 3/2 settles how x stands to y√2, or x is from y to 2y.
/// Then x-y√2 times the unit 1+√2, which is -(2y-x)+(x-y)√2, has its sign and is smaller.
fn step_of_two(x: u128, y: u128) -> Step
    requires { 0 < x + y }
    ensures { Tells 2 x y result }
{
    let rest = x.saturating_sub(y);
    if rest > y / 2 {
        return Step::Settled(Ordering::Greater);
    }
    if rest <= y / 4 {
        return Step::Settled(Ordering::Less);
    }
    Step::Turned(y - rest, rest)
}

/// A step for √3 from x and y, which aren't both 0. Either 5/3 < √3 < 9/5 settles how x stands to y√3, or x-y√3 times
/// 5+3√3, of norm -2, has its sign: it's -((9y-5x)-(3x-5y)√3), and these two add up to at most half as much.
fn step_of_three(x: u128, y: u128) -> Step
    requires { 0 < x + y }
    ensures { Tells 3 x y result }
{
    let rest = x.saturating_sub(y);
    if rest > y {
        return Step::Settled(Ordering::Greater);
    }
    let gap = y - rest;
    if rest / 2 < gap {
        return Step::Settled(Ordering::Less);
    }
    let twice = 2 * gap;
    let smaller_y = rest - twice;
    if smaller_y > twice {
        return Step::Settled(Ordering::Greater);
    }
    Step::Turned(twice - smaller_y, smaller_y)
}

fn next_step<R: Radicand>(x: u128, y: u128) -> Step
    requires { 0 < x + y }
    ensures { Tells R.K x y result }
{
    if R::K == 2 {
        step_of_two(x, y)
    } else {
        step_of_three(x, y)
    }
}

/// The sign of a+b√k.
pub fn sign_of<R: Radicand>(a: i128, b: i128) -> Ordering
    ensures { result ≡ surd_sign int_ops (pos R.K) int_sign (record { a = a; b = b }) }
{
    if a == 0 {
        return b.cmp(&0);
    }
    if b == 0 || (a < 0) == (b < 0) {
        return a.cmp(&0);
    }
    let order = compare_with_root::<R>(a.unsigned_abs(), b.unsigned_abs());
    if a < 0 { order.reverse() } else { order }
}

/// Each step halves x + y at least, and at first that is below 2^129.
const STEPS: u32 = 129;

/// How x stands to y√k.
fn compare_with_root<R: Radicand>(mut x: u128, mut y: u128) -> Ordering
    requires { 0 < x + y }
    ensures { result ≡ against_root R.K x y }
{
    let mut turned = false;
    for _ in 0..STEPS {
        match next_step::<R>(x, y) {
            Step::Settled(order) => return if turned { order.reverse() } else { order },
            Step::Turned(smaller_x, smaller_y) => {
                x = smaller_x;
                y = smaller_y;
                turned = !turned;
            }
        }
    }
    unreachable!()
}

ghost use Rattle.std.specs.Prelude.{◌≡◌, ◌+ℤ◌, ◌*ℤ◌, pos, ◌*◌, ◌^◌, ◌<◌, ◌≤◌, IsTrue, ◌↔◌, unsigned_abs};
ghost use Rattle.number_rules.specs.Rounded.{IsRounded, steps_of_one};
ghost use Rattle.number_rules.specs.Rows.{IsPast, IsWithinWords, Reads};
ghost use Rattle.number_rules.specs.declared.unread.Row.TheVariants.{Exact, Grid, Root};
ghost use Rattle.root_two.specs.Roots.{root_parts};

use crate::decimal::Decimal;
use crate::search::first_root;
use crate::unread::Unread;
use exact_number::Exact as ExactNumber;
use root_two::{Radicand, Root as Number, RootThree, RootTwo};

/// 1, in steps.
const ONE: i128 = 1_000_000_000_000_000_000;

/// The decimal as it stands.
pub fn read_exact<N: ExactNumber>(value: Decimal) -> Result<N, Unread>
    ensures { Reads N.ROOT N.parts Exact value result }
{
    if value.far {
        return Err(Unread::Far);
    }
    if !value.exact {
        return Err(Unread::Fine);
    }
    match N::from_parts(value.near, 0, ONE) {
        Some(number) => within_words(number),
        None => unreachable!(),
    }
}

/// A number whose numerator is at most 2^62 in size.
fn within_words<N: ExactNumber>(number: N) -> Result<N, Unread>
    ensures { IsWithinWords N.parts number result }
{
    let (a, _, _) = number.parts();
    if a.unsigned_abs() <= 1 << 62 {
        Ok(number)
    } else {
        Err(Unread::Far)
    }
}

/// The nearest multiple of 1/n, the larger one of two.
pub fn read_grid<N: ExactNumber>(n: u32, value: Decimal) -> Result<N, Unread>
    requires { (0 < n) × (n ≤ 1000000) }
    ensures { Reads N.ROOT N.parts (Grid n) value result }
{
    if is_past(value) {
        return Err(Unread::Far);
    }
    match N::from_parts(nearest_multiple(n, value.near), 0, i128::from(n)) {
        Some(number) => Ok(number),
        None => unreachable!(),
    }
}

/// The number (a+b√2)/n within 10^-7 of the decimal, for the first b of 0, 1, -1, 2, -2, .., 1024, -1024 that has one.
pub fn read_root_two(n: u32, value: Decimal) -> Result<RootTwo, Unread>
    requires { (0 < n) × (n ≤ 1000000) }
    ensures { Reads 2 root_parts (Root n) value result }
{
    read_root(n, value)
}

/// The same over √3.
pub fn read_root_three(n: u32, value: Decimal) -> Result<RootThree, Unread>
    requires { (0 < n) × (n ≤ 1000000) }
    ensures { Reads 3 root_parts (Root n) value result }
{
    read_root(n, value)
}

fn read_root<R: Radicand>(n: u32, value: Decimal) -> Result<Number<R>, Unread>
    requires { (0 < n) × (n ≤ 1000000) }
    ensures { Reads R.K root_parts (Root n) value result }
{
    if is_past(value) {
        return Err(Unread::Far);
    }
    match first_root(n, value.near) {
        Some(number) => Ok(number),
        None => Err(Unread::NoRoot),
    }
}

/// Whether a decimal is too far for a grid or a root.
fn is_past(value: Decimal) -> bool
    ensures { IsTrue result ↔ IsPast value }
{
    value.far || value.near.unsigned_abs() > (1 << 30) * ONE.unsigned_abs()
}

/// The whole number that is nearest to n times `near` steps, the larger one of two.
fn nearest_multiple(n: u32, near: i128) -> i128
    requires number { n ≤ 1000000 }
    requires near { unsigned_abs near ≤ 2 ^ 30 * steps_of_one }
    ensures { IsRounded (pos n *ℤ near) steps_of_one result }
{
    (i128::from(n) * near + ONE / 2).div_euclid(ONE)
}

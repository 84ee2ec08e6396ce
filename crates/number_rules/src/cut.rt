ghost use Rattle.std.specs.Prelude.{◌≡◌, ◌↔◌, IsTrue, ℕ, ℤ, pos, ◌+◌, ◌*◌, ◌^◌, ◌<◌, ◌≤◌, min, ◌-ℤ◌};
ghost use Rattle.number_rules.specs.Value.{spelled, with_digit, with_count, count_digits, begins_with_minus, with_sign, above_zero, below_zero};
ghost use Rattle.number_rules.specs.Cut.{IsTail, Shows, rounded, is_exact};
ghost use Rattle.number_rules.specs.Rounded.{IsSteps};
ghost use Rattle.number_rules.specs.Billionths.{IsSize};

use crate::decimal::Decimal;
use crate::scan::is_negative;

/// How the digits that were cut off stand to half a step.
#[derive(Clone, Copy, PartialEq, Eq, Debug)]
pub(crate) enum Tail {
    /// No digit was cut off.
    Nothing,
    /// Zeros alone.
    Zero,
    BelowHalf,
    Half,
    AboveHalf,
}

impl Tail {
    /// After one more digit.
    fn next(self, digit: u8) -> Tail
        requires { digit < 10 }
        ensures { (rest d : ℕ) → IsTail rest d self → IsTail (10 * rest + digit) (10 * d) result }
    {
        match self {
            Tail::Nothing => {
                if digit == 0 {
                    Tail::Zero
                } else if digit < 5 {
                    Tail::BelowHalf
                } else if digit == 5 {
                    Tail::Half
                } else {
                    Tail::AboveHalf
                }
            }
            Tail::Zero => {
                if digit == 0 {
                    Tail::Zero
                } else {
                    Tail::BelowHalf
                }
            }
            Tail::BelowHalf => Tail::BelowHalf,
            Tail::Half => {
                if digit == 0 {
                    Tail::Half
                } else {
                    Tail::AboveHalf
                }
            }
            Tail::AboveHalf => Tail::AboveHalf,
        }
    }

    /// A size with what is cut off, rounded.
    fn rounded(self, negative: bool, size: u128) -> u128
        requires { size ≤ 10 ^ 38 }
        ensures { result ≡ rounded negative self size }
    {
        match self {
            Tail::Nothing => size,
            Tail::Zero => size,
            Tail::BelowHalf => size,
            Tail::Half => if negative { size } else { size + 1 },
            Tail::AboveHalf => size + 1,
        }
    }

    /// Whether nothing but zeros is cut off.
    fn is_exact(self) -> bool
        ensures { result ≡ is_exact self }
    {
        matches!(self, Tail::Nothing | Tail::Zero)
    }
}

/// Past every number of steps that is read, and past every number of billionths that a text is compared with: 10^38.
const CAP: u128 = 100_000_000_000_000_000_000_000_000_000_000_000_000;

/// A number that is kept up to `CAP`, with one more digit.
fn with_capped_digit(whole: u128, digit: u8) -> u128
    requires digit { digit < 10 }
    requires below { whole ≤ 10 ^ 38 }
    ensures { result ≡ min (10 * whole + digit) (10 ^ 38) }
{
    if whole < CAP / 10 {
        10 * whole + digit as u128
    } else {
        CAP
    }
}

/// A number of steps while its digits are taken, from the first on.
#[derive(Clone, Copy, PartialEq, Eq, Debug)]
pub(crate) struct Cut {
    /// How many more digits belong to whole steps.
    left: u64,
    whole: u128,
    tail: Tail,
}

impl Cut {
    /// A number of which so many digits belong to whole steps; below zero: so many zeros stand before its first digit.
    fn new(kept: i64) -> Cut
        ensures below { result.whole ≤ 10 ^ 38 }
        ensures shows { Shows 0 0 kept result }
    {
        if kept < 0 {
            Cut {
                left: 0,
                whole: 0,
                tail: Tail::Zero,
            }
        } else {
            Cut {
                left: kept as u64,
                whole: 0,
                tail: Tail::Nothing,
            }
        }
    }

    fn take(&mut self, digit: u8)
        requires digit { digit < 10 }
        requires below { self.old.whole ≤ 10 ^ 38 }
        ensures below { self.new.whole ≤ 10 ^ 38 }
        ensures more { (n count : ℕ) → (before : ℤ) → Shows n count before self.old → Shows (10 * n + digit) (count + 1) before self.new }
    {
        if self.left > 0 {
            self.left -= 1;
            self.whole = with_capped_digit(self.whole, digit);
        } else {
            self.tail = self.tail.next(digit);
        }
    }

    /// Takes a byte; only digits count.
    fn take_byte(&mut self, byte: u8)
        requires { self.old.whole ≤ 10 ^ 38 }
        ensures below { self.new.whole ≤ 10 ^ 38 }
        ensures more { (n count : ℕ) → (before : ℤ) → Shows n count before self.old → Shows (with_digit n byte) (with_count count byte) before self.new }
    {
        if byte.is_ascii_digit() {
            self.take(byte - b'0');
        }
    }

    /// The whole number with a zero for each digit that is left, or `CAP` where it is past that.
    fn steps(&self) -> u128
        requires { self.now.whole ≤ 10 ^ 38 }
        ensures { result ≡ min (self.now.whole * 10 ^ min self.now.left 38) (10 ^ 38) }
    {
        let mut whole = self.whole;
        for _ in 0..self.left.min(38) {
            whole = with_capped_digit(whole, 0);
        }
        whole
    }

    /// The number, rounded to whole steps.
    fn decimal(&self, negative: bool) -> Decimal
        requires { self.now.whole ≤ 10 ^ 38 }
        ensures { (n count : ℕ) → (before : ℤ) → Shows n count before self.now → (f : ℕ) → 0 < f
            → IsSteps (with_sign negative (n * 10 ^ above_zero (before -ℤ pos count) * f)) (10 ^ below_zero (before -ℤ pos count) * f) result }
    {
        let size = self.tail.rounded(negative, self.steps());
        Decimal::of_size(negative, size, self.tail.is_exact())
    }

    /// Whether it's this whole number.
    fn is_size(&self, size: u128) -> bool
        requires below { self.now.whole ≤ 10 ^ 38 }
        requires size { size < 10 ^ 38 }
        ensures { (n count : ℕ) → (before : ℤ) → Shows n count before self.now
            → (IsTrue result ↔ IsSize n (before -ℤ pos count) size) }
    {
        self.tail.is_exact() && self.steps() == size
    }
}

/// The digits among these bytes, with the point behind so many of them.
fn cut_of_digits(bytes: &[u8], before: i64) -> Cut
    ensures below { result.whole ≤ 10 ^ 38 }
    ensures shows { Shows (spelled bytes.now) (count_digits bytes.now) before result }
{
    let mut cut = Cut::new(before);
    for byte in bytes {
        cut.take_byte(*byte);
    }
    cut
}

/// The number that the digits among these bytes spell, with the point behind so many of them, rounded to a whole number of
/// steps.
pub fn decimal_of_digits(bytes: &[u8], before: i64) -> Decimal
    ensures { let place = before -ℤ pos (count_digits bytes.now) in (f : ℕ) → 0 < f
        → IsSteps (with_sign (begins_with_minus bytes.now) (spelled bytes.now * 10 ^ above_zero place * f)) (10 ^ below_zero place * f) result }
{
    cut_of_digits(bytes, before).decimal(is_negative(bytes))
}

/// Whether the number that the digits among these bytes spell, with the point behind so many of them, is this whole number.
pub fn have_size(bytes: &[u8], before: i64, size: u128) -> bool
    requires { size < 10 ^ 38 }
    ensures { IsTrue result ↔ IsSize (spelled bytes.now) (before -ℤ pos (count_digits bytes.now)) size }
{
    cut_of_digits(bytes, before).is_size(size)
}

ghost use Rattle.std.specs.Prelude.{◌≡◌, pos, true, false, ◌*◌, ◌^◌, ◌<◌, ◌≤◌, length};
ghost use Rattle.number_rules.specs.Value.{with_sign};
ghost use Rattle.number_rules.specs.Rounded.{steps_of_one, IsDecimal, IsReadable};

use crate::cut::decimal_of_digits;
use crate::scan::{mantissa_and_exponent, whole_digits};
use json_tree::NumberText;

/// The value of a number text in steps of 10^-18, rounded half up.
#[derive(Clone, Copy, PartialEq, Eq, Debug)]
pub struct Decimal {
    /// Whether the rounded value is larger in size than 2^62; `near` is then 0, and `exact` false.
    pub far: bool,
    /// The rounded value times 10^18.
    pub near: i128,
    /// Whether rounding has changed nothing.
    pub exact: bool,
}

/// 2^62, in steps.
const FAR: u128 = (1 << 62) * 1_000_000_000_000_000_000;

impl Decimal {
    /// The decimal of a number of steps, given by its sign and its size.
    pub(crate) fn of_size(negative: bool, size: u128, exact: bool) -> Decimal
        ensures far { 2 ^ 62 * steps_of_one < size → result ≡ record { far = true; near = pos 0; exact = false } }
        ensures near { size ≤ 2 ^ 62 * steps_of_one
            → result ≡ record { far = false; near = with_sign negative size; exact = exact } }
    {
        if size > FAR {
            return Decimal {
                far: true,
                near: 0,
                exact: false,
            };
        }
        let near = size as i128;
        Decimal {
            far: false,
            near: if negative { -near } else { near },
            exact,
        }
    }
}

/// The value of a number text as a decimal, for every exponent. It takes no memory, and goes over the bytes a few times: for
/// the `e`, for the exponent, for the point, and for the digits.
pub fn read_decimal(text: &NumberText) -> Decimal
    requires { length text.now ≤ 16777216 }
    ensures value { IsDecimal text.now result }
    ensures readable { IsReadable result }
{
    let (mantissa, exponent) = mantissa_and_exponent(text.bytes());
    decimal_of_digits(mantissa, whole_digits(18, mantissa, exponent))
}

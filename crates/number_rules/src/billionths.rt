ghost use Rattle.std.specs.Prelude.{◌≡◌, ◌↔◌, IsTrue, ◌^◌, ◌<◌, ◌≤◌, length, unsigned_abs};
ghost use Rattle.number_rules.specs.Billionths.{HasBillionths};
ghost use Rattle.number_rules.specs.Value.{with_sign};

use crate::cut::have_size;
use crate::scan::{is_negative, mantissa_and_exponent, whole_digits};
use json_tree::NumberText;

/// Whether the value of a number text is this many billionths: exactly that, for every exponent and any number of digits.
pub fn has_billionths(text: &NumberText, count: i128) -> bool
    requires length { length text.now ≤ 16777216 }
    requires count { unsigned_abs count < 10 ^ 38 }
    ensures { IsTrue result ↔ HasBillionths text.now count }
{
    let (mantissa, exponent) = mantissa_and_exponent(text.bytes());
    let before = whole_digits(9, mantissa, exponent);
    have_size(mantissa, before, count.unsigned_abs()) && has_sign(is_negative(mantissa), count)
}

/// Whether the count is not above zero, or else not below it.
fn has_sign(negative: bool, count: i128) -> bool
    ensures { IsTrue result ↔ (count ≡ with_sign negative (unsigned_abs count)) }
{
    if negative { count <= 0 } else { count >= 0 }
}

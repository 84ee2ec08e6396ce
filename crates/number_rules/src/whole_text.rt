ghost use Rattle.std.specs.Prelude.{◌≡◌, ℕ, ℤ, ◌≤◌, ◌+◌, ◌<◌, length, take, drop, unsigned_abs, Some, None, IfSome, IfNone};
ghost use Rattle.std.specs.Fmt.{decimal, signed_decimal};
ghost use Rattle.number_rules.specs.WholeText.{most, IsKept, number_up_to_most, with_byte, with_bytes, before_comma, behind_comma};
ghost use Rattle.number_rules.specs.declared.whole_text.Digits.TheVariants.{Nothing, Number, Other};

use crate::scan::is_negative;

/// The largest size of a whole number.
const MOST: u128 = 1 << 92;

/// What bytes are, as the plain digits of a number that is at most 2^92.
#[derive(Clone, Copy)]
enum Digits {
    Nothing,
    Number(u128),
    Other,
}

impl Digits {
    /// These digits with one more byte behind them.
    fn with_byte(self, byte: u8) -> Digits
        requires { IsKept self }
        ensures value { result ≡ with_byte self byte }
        ensures kept { IsKept result }
    {
        if !byte.is_ascii_digit() {
            return Digits::Other;
        }
        let digit = u128::from(byte - b'0');
        match self {
            Digits::Nothing => Digits::Number(digit),
            Digits::Number(0) => Digits::Other,
            Digits::Number(number) => up_to_most(10 * number + digit),
            Digits::Other => Digits::Other,
        }
    }
}

/// A number, unless it's too large.
fn up_to_most(number: u128) -> Digits
    ensures value { result ≡ number_up_to_most number }
    ensures kept { IsKept result }
{
    if number <= MOST {
        Digits::Number(number)
    } else {
        Digits::Other
    }
}

/// The number that bytes spell in plain digits: no zero before others, and at most 2^92.
fn read_digits(bytes: &[u8]) -> Option<u128>
    ensures some { IfSome result (λ n. (bytes.now ≡ decimal n) × (n ≤ most)) }
    ensures each { (n : ℕ) → n ≤ most → bytes.now ≡ decimal n → result ≡ Some n }
{
    let mut digits = Digits::Nothing;
    for byte in bytes {
        digits = digits.with_byte(*byte);
    }
    match digits {
        Digits::Number(number) => Some(number),
        _ => None,
    }
}

/// The number that bytes spell, with a minus where it's below zero.
pub fn read_whole(bytes: &[u8]) -> Option<i128>
    ensures some { IfSome result (λ z. (bytes.now ≡ signed_decimal z) × (unsigned_abs z ≤ most)) }
    ensures each { (z : ℤ) → unsigned_abs z ≤ most → bytes.now ≡ signed_decimal z → result ≡ Some z }
{
    if !is_negative(bytes) {
        return Some(read_digits(bytes)? as i128);
    }
    match read_digits(&bytes[1..])? {
        0 => None,
        size => Some(-(size as i128)),
    }
}

/// Where the first comma stands.
fn first_comma(bytes: &[u8]) -> Option<usize>
    ensures some { IfSome result (λ i. (i < length bytes.now) × (before_comma bytes.now ≡ take i bytes.now)
        × (behind_comma bytes.now ≡ Some (drop (i + 1) bytes.now))) }
    ensures none { IfNone result (behind_comma bytes.now ≡ None) }
{
    for (i, byte) in bytes.iter().enumerate() {
        if *byte == b',' {
            return Some(i);
        }
    }
    None
}

/// The bytes before the first comma, and those behind it.
pub fn split_at_comma(bytes: &[u8]) -> Option<(&[u8], &[u8])>
    ensures some { IfSome result (λ p. (before_comma bytes.now ≡ p.0.now) × (behind_comma bytes.now ≡ Some p.1.now)) }
    ensures none { IfNone result (behind_comma bytes.now ≡ None) }
{
    let i = first_comma(bytes)?;
    Some((&bytes[..i], &bytes[i + 1..]))
}

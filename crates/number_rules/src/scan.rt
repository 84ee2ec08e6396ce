ghost use Rattle.std.specs.Prelude.{◌≡◌, ℕ, ℤ, pos, ◌+◌, ◌≤◌, length, take, drop, min, ◌-ℤ◌, ◌+ℤ◌};
ghost use Rattle.number_rules.specs.Value.{mantissa, exponent, spelled, with_digit, count_digits, places as places_of, begins_with_minus, with_sign};

/// How many bytes stand before the `e`.
fn mantissa_length(bytes: &[u8]) -> usize
    ensures within { result ≤ length bytes.now }
    ensures before { mantissa bytes.now ≡ take result bytes.now }
    ensures behind { exponent bytes.now ≡ drop (result + 1) bytes.now }
{
    for (i, byte) in bytes.iter().enumerate() {
        if *byte == b'e' || *byte == b'E' {
            return i;
        }
    }
    bytes.len()
}

/// The bytes before the `e`, and those behind it.
pub fn mantissa_and_exponent(bytes: &[u8]) -> (&[u8], &[u8])
    ensures within { length result.0.now ≤ length bytes.now }
    ensures before { mantissa bytes.now ≡ result.0.now }
    ensures behind { exponent bytes.now ≡ result.1.now }
{
    let end = mantissa_length(bytes);
    if end < bytes.len() {
        (&bytes[..end], &bytes[end + 1..])
    } else {
        (bytes, &bytes[end..])
    }
}

pub fn is_negative(bytes: &[u8]) -> bool
    ensures { result ≡ begins_with_minus bytes.now }
{
    match bytes.first() {
        Some(byte) => *byte == b'-',
        None => false,
    }
}

/// Past every exponent that the digits of a text can undo.
const MOST: u64 = 1_000_000_000;

/// The number that the digits spell, or `MOST` where it's past that.
fn capped_size(bytes: &[u8]) -> u64
    ensures { result ≡ min (spelled bytes.now) 1000000000 }
{
    let mut size = 0;
    for byte in bytes {
        size = with_capped_digit(size, *byte);
    }
    size
}

/// A number that is kept up to `MOST`, with one more digit.
fn with_capped_digit(size: u64, byte: u8) -> u64
    requires { size ≤ 1000000000 }
    ensures within { result ≤ 1000000000 }
    ensures value { (n : ℕ) → size ≡ min n 1000000000 → result ≡ min (with_digit n byte) 1000000000 }
{
    if byte.is_ascii_digit() {
        (10 * size + (byte - b'0') as u64).min(MOST)
    } else {
        size
    }
}

/// The number that an exponent's bytes spell, or the nearest one that isn't larger in size than `MOST`.
fn capped_exponent(bytes: &[u8]) -> i64
    ensures { result ≡ with_sign (begins_with_minus bytes.now) (min (spelled bytes.now) 1000000000) }
{
    let size = capped_size(bytes) as i64;
    if is_negative(bytes) { -size } else { size }
}

/// How many digits stand before the point.
fn digits_before_point(bytes: &[u8]) -> usize
    ensures within { result ≤ length bytes.now }
    ensures behind { count_digits bytes.now ≡ result + places_of bytes.now }
{
    let mut count = 0;
    for byte in bytes {
        if *byte == b'.' {
            return count;
        }
        if byte.is_ascii_digit() {
            count += 1;
        }
    }
    count
}

/// How many digits of the value in steps of 10^-`places` stand before the point, or, below zero, how many zeros stand behind
/// it before the first digit. An exponent past `MOST` counts as that.
pub fn whole_digits(places: u8, mantissa: &[u8], exponent: &[u8]) -> i64
    requires { length mantissa.now ≤ 16777216 }
    ensures { let power = with_sign (begins_with_minus exponent.now) (min (spelled exponent.now) 1000000000) in
        result -ℤ pos (count_digits mantissa.now) ≡ (pos places +ℤ power) -ℤ pos (places_of mantissa.now) }
{
    digits_before_point(mantissa) as i64 + i64::from(places) + capped_exponent(exponent)
}

ghost use Rattle.std.specs.Prelude.{◌≡◌, ◌+◌, ◌<◌, ◌≤◌, ◌∷◌, [], ◌++◌, length, take};
ghost use Rattle.number_rules.specs.ExactText.{AreShort};
ghost use Rattle.number_rules.specs.Nine.{IsNineText, nine_text, size_text, fraction_text, digits_behind};

use crate::nine::round_to_nine;
use exact_number::Exact;
use itoa::Buffer;

const BILLION: u64 = 1_000_000_000;

/// Writes the text of a number, rounded to nine decimals, and gives its length: a minus where the rounded number is below
/// zero, its whole part, and where it isn't whole a point and its decimals without zeros at their end.
pub fn print9<N: Exact>(value: N, room: &mut [u8; 48]) -> usize
    requires { AreShort (N.parts value) }
    ensures within { result ≤ 48 }
    ensures text { IsNineText N.ROOT (N.parts value) (take result room.new) }
{
    put_nine(room, round_to_nine(value).near)
}

/// So many billionths as a text.
fn put_nine(room: &mut [u8; 48], billionths: i128) -> usize
    ensures within { result ≤ 48 }
    ensures text { take result room.new ≡ nine_text billionths }
{
    let size = billionths.unsigned_abs();
    if billionths < 0 {
        room[0] = b'-';
        put_size(room, 1, size)
    } else {
        put_size(room, 0, size)
    }
}

/// The same behind so many bytes.
fn put_size(room: &mut [u8; 48], count: usize, size: u128) -> usize
    requires room { count ≤ 1 }
    ensures within { result ≤ 48 }
    ensures text { take result room.new ≡ take count room.old ++ size_text size }
{
    let mut digits = Buffer::new();
    let end = put_all(
        room,
        count,
        digits.format(size / u128::from(BILLION)).as_bytes(),
    );
    put_fraction(room, end, (size % u128::from(BILLION)) as u32)
}

/// The point and the decimals of `rest` billionths, where there are any.
fn put_fraction(room: &mut [u8; 48], count: usize, rest: u32) -> usize
    requires room { count ≤ 38 }
    requires rest { rest < 1000000000 }
    ensures within { result ≤ 48 }
    ensures text { take result room.new ≡ take count room.old ++ fraction_text rest }
{
    if rest == 0 {
        return count;
    }
    room[count] = b'.';
    put_digits(room, count + 1, rest)
}

/// The decimals of `rest` billionths, until nothing is left.
fn put_digits(room: &mut [u8; 48], start: usize, rest: u32) -> usize
    requires room { start ≤ 39 }
    requires rest { rest < 1000000000 }
    ensures within { result ≤ 48 }
    ensures text { take result room.new ≡ take start room.old ++ digits_behind 9 rest }
{
    let mut left = u64::from(rest);
    let mut count = start;
    for _ in 0..9u32 {
        if left == 0 {
            return count;
        }
        room[count] = b'0' + (10 * left / BILLION) as u8;
        left = 10 * left % BILLION;
        count += 1;
    }
    count
}

/// These bytes behind so many others.
fn put_all(room: &mut [u8; 48], count: usize, bytes: &[u8]) -> usize
    requires { count + length bytes.now ≤ 48 }
    ensures end { result ≡ count + length bytes.now }
    ensures text { take result room.new ≡ take count room.old ++ bytes.now }
{
    let end = count + bytes.len();
    room[count..end].copy_from_slice(bytes);
    end
}

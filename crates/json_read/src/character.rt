ghost use Rattle.std.specs.Prelude.{◌≡◌, ◌⊎◌, ℕ, ◌+◌, ◌<◌, ◌≤◌, ◌==◌, Some, None, option_map, IfSome, SomeIff, if◌then◌else◌};
ghost use Rattle.std.specs.Char.{digit_value};
ghost use Rattle.std.specs.Int.{IsInRange};
ghost use Rattle.json_tree.specs.Word.{IsHighSurrogate, IsLowSurrogate, escaped_by};
ghost use Rattle.json_machine.specs.WordScan.{WordState, at_escape, between, by_part, lead, paired, with_code, with_low_one, with_low_two, with_two, with_unit};
ghost use Rattle.json_read.specs.WordView.{IsSound, IsSoundStep, LeadsToScalars, shown, stepped};
ghost use Rattle.json_read.specs.declared.character.Part.TheVariants.{Encoded};
ghost use Rattle.json_read.specs.declared.character.Step.TheVariants.{More};

/// How far a character of a word has been read.
#[derive(Clone, Copy, Debug)]
pub enum Part {
    /// Nothing of it.
    Between,
    /// A part of its UTF-8: the next byte is one from `low` to `high`, `later` more come after it, and `code` is the
    /// value of the bytes so far.
    Encoded {
        later: u8,
        low: u8,
        high: u8,
        code: u32,
    },
    /// A backslash.
    Escape,
    /// `\u`.
    Unit0,
    /// `\u` and one hexadecimal digit, with its value.
    Unit1(u32),
    /// `\u` and two.
    Unit2(u32),
    /// `\u` and three.
    Unit3(u32),
    /// The first half of a surrogate pair, with its value, as in all that follow.
    High(u32),
    /// And a backslash.
    LowEscape(u32),
    /// And `\u`.
    Low0(u32),
    /// And one digit of the second half, which is a D.
    Low1(u32),
    /// And two, with their value.
    Low2 {
        high: u32,
        low: u32,
    },
    /// And three.
    Low3 {
        high: u32,
        low: u32,
    },
}

/// What one more byte makes of a character.
#[derive(Clone, Copy)]
pub enum Step {
    /// It goes on.
    More(Part),
    /// It is whole.
    Whole(char),
}

impl Part {
    /// What one more byte makes of the character. None: it can't stand here.
    pub fn next(self, byte: u8) -> Option<Step>
        requires { IsSound self }
        ensures step { (w : WordState) → stepped w result ≡ by_part w (shown self) byte }
        ensures sound { IfSome result IsSoundStep }
    {
        match self {
            Part::Between => first_byte(byte),
            Part::Encoded {
                later,
                low,
                high,
                code,
            } => {
                if byte < low || high < byte {
                    return None;
                }
                Some(encoded(later, code * 64 + u32::from(byte - 128)))
            }
            Part::Escape => escape(byte),
            Part::Unit0 => Some(Step::More(Part::Unit1(hexadecimal(byte)?))),
            Part::Unit1(value) => two_digits(value * 16 + hexadecimal(byte)?),
            Part::Unit2(value) => Some(Step::More(Part::Unit3(value * 16 + hexadecimal(byte)?))),
            Part::Unit3(value) => Some(four_digits(value * 16 + hexadecimal(byte)?)),
            Part::High(high) => expected(b'\\', byte, Part::LowEscape(high)),
            Part::LowEscape(high) => expected(b'u', byte, Part::Low0(high)),
            Part::Low0(high) => low_begins(high, hexadecimal(byte)?),
            Part::Low1(high) => low_goes_on(high, hexadecimal(byte)?),
            Part::Low2 { high, low } => {
                let low = low * 16 + hexadecimal(byte)?;
                Some(Step::More(Part::Low3 { high, low }))
            }
            Part::Low3 { high, low } => {
                let low = low * 16 + hexadecimal(byte)?;
                Some(Step::Whole(paired(high, low)))
            }
        }
    }
}

fn first_byte(byte: u8) -> Option<Step>
    ensures step { (w : WordState) → stepped w result ≡ between w byte }
    ensures sound { IfSome result IsSoundStep }
{
    match byte {
        b'\\' => Some(Step::More(Part::Escape)),
        b'"' => None,
        0..=0x1F => None,
        0x20..=0x7F => Some(Step::Whole(char::from(byte))),
        _ => Some(Step::More(lead(byte)?)),
    }
}

/// After the first byte of several. The bounds of the second leave out longer forms, surrogates and what is past
/// U+10FFFF.
fn lead(byte: u8) -> Option<Part>
    ensures step { (w : WordState) → stepped w (option_map (λ p. More p) result) ≡ lead w byte }
    ensures sound { IfSome result IsSound }
{
    match byte {
        0xC2..=0xDF => Some(encoding(0, 0x80, 0xBF, byte - 0xC0)),
        0xE0 => Some(encoding(1, 0xA0, 0xBF, 0)),
        0xED => Some(encoding(1, 0x80, 0x9F, 0xD)),
        0xE1..=0xEF => Some(encoding(1, 0x80, 0xBF, byte - 0xE0)),
        0xF0 => Some(encoding(2, 0x90, 0xBF, 0)),
        0xF4 => Some(encoding(2, 0x80, 0x8F, 4)),
        0xF1..=0xF3 => Some(encoding(2, 0x80, 0xBF, byte - 0xF0)),
        _ => None,
    }
}

/// After a first byte that gives these bits of the character's code.
fn encoding(later: u8, low: u8, high: u8, bits: u8) -> Part
    ensures { result ≡ Encoded later low high bits }
{
    Part::Encoded {
        later,
        low,
        high,
        code: u32::from(bits),
    }
}

/// After bytes of this value, with so many due.
fn encoded(later: u8, code: u32) -> Step
    requires { LeadsToScalars later code (code + 1) }
    ensures step { (w : WordState) → stepped w (Some result) ≡ Some (with_code w later code) }
    ensures sound { IsSoundStep result }
{
    if later == 0 {
        Step::Whole(char::from_u32(code).unwrap())
    } else {
        Step::More(Part::Encoded {
            later: later - 1,
            low: 0x80,
            high: 0xBF,
            code,
        })
    }
}

fn escape(byte: u8) -> Option<Step>
    ensures step { (w : WordState) → stepped w result ≡ at_escape w byte }
    ensures sound { IfSome result IsSoundStep }
{
    if byte == b'u' {
        return Some(Step::More(Part::Unit0));
    }
    Some(Step::Whole(escaped_by(byte)?))
}

/// The character that a backslash and this letter stand for.
fn escaped_by(letter: u8) -> Option<char>
    ensures { result ≡ escaped_by letter }
{
    match letter {
        b'"' => Some('"'),
        b'\\' => Some('\\'),
        b'/' => Some('/'),
        b'b' => Some('\u{8}'),
        b'f' => Some('\u{c}'),
        b'n' => Some('\n'),
        b'r' => Some('\r'),
        b't' => Some('\t'),
        _ => None,
    }
}

/// The value of a hexadecimal digit.
fn hexadecimal(byte: u8) -> Option<u32>
    ensures { SomeIff result (digit_value byte < 16) (digit_value byte) }
{
    char::from(byte).to_digit(16)
}

/// After two digits of a unit. DC to DF begin the second half of a surrogate pair, which can't come first.
fn two_digits(value: u32) -> Option<Step>
    requires { value < 256 }
    ensures step { (w : WordState) → stepped w result ≡ with_two w value }
    ensures sound { IfSome result IsSoundStep }
{
    match value {
        0xDC..=0xDF => None,
        _ => Some(Step::More(Part::Unit2(value))),
    }
}

/// After the four digits of a unit.
fn four_digits(unit: u32) -> Step
    requires { (unit < 56320) ⊎ IsInRange 57344 65535 unit }
    ensures step { (w : WordState) → stepped w (Some result) ≡ with_unit w unit }
    ensures sound { IsSoundStep result }
{
    match unit {
        0xD800..=0xDBFF => Step::More(Part::High(unit)),
        _ => Step::Whole(char::from_u32(unit).unwrap()),
    }
}

/// After the first digit of a second half, which is DC00 to DFFF.
fn low_begins(high: u32, digit: u32) -> Option<Step>
    requires { IsHighSurrogate high }
    ensures step { (w : WordState) → stepped w result ≡ with_low_one w high digit }
    ensures sound { IfSome result IsSoundStep }
{
    match digit {
        0xD => Some(Step::More(Part::Low1(high))),
        _ => None,
    }
}

/// After the second.
fn low_goes_on(high: u32, digit: u32) -> Option<Step>
    requires high { IsHighSurrogate high }
    requires digit { digit < 16 }
    ensures step { (w : WordState) → stepped w result ≡ with_low_two w high digit }
    ensures sound { IfSome result IsSoundStep }
{
    match digit {
        0..=0xB => None,
        _ => Some(Step::More(Part::Low2 {
            high,
            low: 0xD0 + digit,
        })),
    }
}

/// The part that comes after the one byte that is due.
fn expected(due: u8, byte: u8, part: Part) -> Option<Step>
    ensures { result ≡ (if byte == due then Some (More part) else None) }
{
    if byte == due {
        Some(Step::More(part))
    } else {
        None
    }
}

/// The character of a surrogate pair.
fn paired(high: u32, low: u32) -> char
    requires high { IsHighSurrogate high }
    requires low { IsLowSurrogate low }
    ensures { result ≡ paired high low }
{
    char::from_u32(0x10000 + (high - 0xD800) * 0x400 + (low - 0xDC00)).unwrap()
}

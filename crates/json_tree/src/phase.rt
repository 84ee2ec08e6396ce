ghost use Rattle.std.specs.Prelude.{◌≡◌};
ghost use Rattle.json_tree.specs.Scan.{next, is_whole};

/// How far the text of a number has been read.
#[derive(Clone, Copy, Debug, PartialEq, Eq)]
pub enum Phase {
    /// Nothing yet.
    Start,
    /// The minus.
    Minus,
    /// A `0`, which no digit can follow.
    Zero,
    /// A digit 1 to 9, and digits after it.
    Digits,
    /// The point, which a digit has to follow.
    Point,
    /// A digit after the point.
    Fraction,
    /// The `e`, which a sign or a digit has to follow.
    Exponent,
    /// The sign of the exponent, which a digit has to follow.
    Sign,
    /// A digit of the exponent.
    ExponentDigits,
}

impl Phase {
    /// The phase after one more byte, or none where the byte can't stand there.
    pub fn next(self, byte: u8) -> Option<Phase>
        ensures { result ≡ next self byte }
    {
        match (self, byte) {
            (Phase::Start, b'-') => Some(Phase::Minus),
            (Phase::Start | Phase::Minus, b'0') => Some(Phase::Zero),
            (Phase::Start | Phase::Minus, b'1'..=b'9') => Some(Phase::Digits),
            (Phase::Digits, b'0'..=b'9') => Some(Phase::Digits),
            (Phase::Zero | Phase::Digits, b'.') => Some(Phase::Point),
            (Phase::Point | Phase::Fraction, b'0'..=b'9') => Some(Phase::Fraction),
            (Phase::Zero | Phase::Digits | Phase::Fraction, b'e' | b'E') => Some(Phase::Exponent),
            (Phase::Exponent, b'-' | b'+') => Some(Phase::Sign),
            (Phase::Exponent | Phase::Sign | Phase::ExponentDigits, b'0'..=b'9') => {
                Some(Phase::ExponentDigits)
            }
            _ => None,
        }
    }

    /// Whether the text may end here.
    pub fn is_whole(self) -> bool
        ensures { result ≡ is_whole self }
    {
        matches!(
            self,
            Phase::Zero | Phase::Digits | Phase::Fraction | Phase::ExponentDigits
        )
    }
}

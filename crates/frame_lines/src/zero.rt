ghost use Rattle.std.specs.Prelude.{◌≡◌};
ghost use Rattle.number_rules.specs.Value.{is_e};
ghost use Rattle.frame_lines.specs.Zero.{is_zero};

/// Whether the value of the number is 0.
pub fn is_zero(text: &[u8]) -> bool
    ensures { result ≡ is_zero text.now }
{
    for byte in text {
        if is_e(*byte) {
            return true;
        }
        if *byte >= b'1' && *byte <= b'9' {
            return false;
        }
    }
    true
}

fn is_e(byte: u8) -> bool
    ensures { result ≡ is_e byte }
{
    byte == b'e' || byte == b'E'
}

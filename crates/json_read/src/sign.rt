ghost use Rattle.std.specs.Prelude.{◌≡◌};
ghost use Rattle.json_machine.specs.Machine.{sign_of};
ghost use Rattle.json_read.specs.Signs.{sign_in};

/// What a byte is between values.
#[derive(Clone, Copy, Debug, PartialEq, Eq)]
pub enum Sign {
    Blank,
    Quote,
    Open,
    Close,
    OpenBrace,
    CloseBrace,
    Comma,
    Colon,
    Other,
}

impl Sign {
    pub fn of(byte: u8) -> Sign
        ensures { sign_in result ≡ sign_of byte }
    {
        match byte {
            b' ' | b'\t' | b'\n' | b'\r' => Sign::Blank,
            b'"' => Sign::Quote,
            b'[' => Sign::Open,
            b']' => Sign::Close,
            b'{' => Sign::OpenBrace,
            b'}' => Sign::CloseBrace,
            b',' => Sign::Comma,
            b':' => Sign::Colon,
            _ => Sign::Other,
        }
    }
}

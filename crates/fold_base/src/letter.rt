ghost use Rattle.std.specs.Prelude.{◌≡◌, ◌≢◌, MatchOption};

/// What a crease is assigned to be.
#[derive(Clone, Copy, Debug, PartialEq, Eq, Hash)]
pub enum Letter {
    /// The sheet ends here.
    Border,
    Mountain,
    Valley,
    /// A crease that stays unfolded.
    Flat,
    /// A crease whose fold nobody has chosen.
    Unassigned,
    /// The sheet is slit here.
    Cut,
    /// No crease: two faces of the sheet meet here.
    Join,
}

impl Letter {
    ghost use Rattle.fold_base.specs.Letter.{spelling};
    ghost use Rattle.fold_base.specs.declared.letter.Letter.{Letter as AnyLetter};

    /// The ASCII letter of the FOLD format.
    pub fn spelling(self) -> u8
        ensures { result ≡ spelling self }
    {
        match self {
            Letter::Border => b'B',
            Letter::Mountain => b'M',
            Letter::Valley => b'V',
            Letter::Flat => b'F',
            Letter::Unassigned => b'U',
            Letter::Cut => b'C',
            Letter::Join => b'J',
        }
    }

    /// The letter that the byte spells, if it spells one.
    pub fn from_spelling(byte: u8) -> Option<Letter>
        ensures { MatchOption result ((letter : AnyLetter) → spelling letter ≢ byte) (λ letter. spelling letter ≡ byte) }
    {
        match byte {
            b'B' => Some(Letter::Border),
            b'M' => Some(Letter::Mountain),
            b'V' => Some(Letter::Valley),
            b'F' => Some(Letter::Flat),
            b'U' => Some(Letter::Unassigned),
            b'C' => Some(Letter::Cut),
            b'J' => Some(Letter::Join),
            _ => None,
        }
    }
}

ghost use Rattle.std.specs.Prelude.{◌≡◌, ◌⊎◌, ◌↔◌, IsTrue};

use fold_base::Letter;

/// A set of letters.
#[derive(Clone, Copy)]
pub struct Letters {
    pub border: bool,
    pub mountain: bool,
    pub valley: bool,
    pub flat: bool,
    pub unassigned: bool,
    pub cut: bool,
    pub join: bool,
}

impl Letters {
    ghost use Rattle.fold_base.specs.declared.letter.Letter.{Letter as AnyLetter};
    ghost use Rattle.scaled_plane.specs.Pieces.{IsMerged};
    ghost use Rattle.arrangement.specs.Letters.{has};

    /// The set of one letter.
    pub fn only(letter: Letter) -> Letters
        ensures { (l : AnyLetter) → IsTrue (has result l) ↔ (l ≡ letter) }
    {
        Letters {
            border: letter == Letter::Border,
            mountain: letter == Letter::Mountain,
            valley: letter == Letter::Valley,
            flat: letter == Letter::Flat,
            unassigned: letter == Letter::Unassigned,
            cut: letter == Letter::Cut,
            join: letter == Letter::Join,
        }
    }

    /// Whether the set has the letter.
    pub fn has(self, letter: Letter) -> bool
        ensures { result ≡ has self letter }
    {
        match letter {
            Letter::Border => self.border,
            Letter::Mountain => self.mountain,
            Letter::Valley => self.valley,
            Letter::Flat => self.flat,
            Letter::Unassigned => self.unassigned,
            Letter::Cut => self.cut,
            Letter::Join => self.join,
        }
    }

    /// The set with one letter more.
    pub fn with(self, letter: Letter) -> Letters
        ensures { (l : AnyLetter) → IsTrue (has result l) ↔ (IsTrue (has self l) ⊎ (l ≡ letter)) }
    {
        match letter {
            Letter::Border => Letters {
                border: true,
                ..self
            },
            Letter::Mountain => Letters {
                mountain: true,
                ..self
            },
            Letter::Valley => Letters {
                valley: true,
                ..self
            },
            Letter::Flat => Letters { flat: true, ..self },
            Letter::Unassigned => Letters {
                unassigned: true,
                ..self
            },
            Letter::Cut => Letters { cut: true, ..self },
            Letter::Join => Letters { join: true, ..self },
        }
    }

    /// The letter that is left of them all, if there is any.
    pub fn merged(self) -> Letter
        ensures { (l : AnyLetter) → IsTrue (has self l) → IsMerged (λ l. IsTrue (has self l)) result }
    {
        if self.border {
            Letter::Border
        } else if self.cut {
            Letter::Cut
        } else if self.mountain && self.valley {
            Letter::Unassigned
        } else if self.mountain {
            Letter::Mountain
        } else if self.valley {
            Letter::Valley
        } else if self.unassigned {
            Letter::Unassigned
        } else if self.flat {
            Letter::Flat
        } else {
            Letter::Join
        }
    }
}

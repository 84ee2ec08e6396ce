ghost use Rattle.std.specs.Prelude.{◌≡◌};
ghost use Rattle.drawing_repair.specs.Kept.{is_kept};

use fold_base::Letter;

/// What becomes of the segments with the letter F.
#[derive(Clone, Copy, Debug, PartialEq, Eq)]
pub enum Flat {
    Keep,
    Drop,
}

/// Whether the faces are looked for.
#[derive(Clone, Copy, Debug, PartialEq, Eq)]
pub enum Faces {
    Find,
    Skip,
}

impl Flat {
    /// Whether segments with the letter are kept.
    pub fn keeps(self, letter: Letter) -> bool
        ensures { result ≡ is_kept self letter }
    {
        match self {
            Flat::Keep => true,
            Flat::Drop => match letter {
                Letter::Flat => false,
                Letter::Border => true,
                Letter::Mountain => true,
                Letter::Valley => true,
                Letter::Unassigned => true,
                Letter::Cut => true,
                Letter::Join => true,
            },
        }
    }
}

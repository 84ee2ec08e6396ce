ghost use Rattle.std.specs.Prelude.{◌≡◌};
ghost use Rattle.json_read.specs.Views.{literal_tree};

use json_tree::Json;

/// What may come next.
#[derive(Clone, Copy, Debug)]
pub enum Phase {
    ValueDue,
    /// A value, or the end of a list that is empty so far.
    FirstValueDue,
    KeyDue,
    /// A key, or the end of an object that is empty so far.
    FirstKeyDue,
    ColonDue,
    /// More of a word that is a value.
    InWord,
    InKey,
    InNumber,
    /// These bytes of `null`, `true` or `false`.
    InLiteral(&'static [u8], Literal),
    AfterValue,
}

#[derive(Clone, Copy, Debug)]
pub enum Literal {
    Null,
    Truth(bool),
}

impl Literal {
    pub fn tree(self) -> Json
        ensures { result ≡ literal_tree self }
    {
        match self {
            Literal::Null => Json::Null,
            Literal::Truth(is) => Json::Truth(is),
        }
    }
}

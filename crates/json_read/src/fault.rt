ghost use Rattle.std.specs.Prelude.{◌≡◌};

use std::alloc::AllocError;
use std::fmt;
use thiserror::Error;

/// Where a text stops being JSON text, and why.
#[derive(Clone, Copy, Debug, PartialEq, Eq)]
pub struct JsonFault {
    /// Counted in bytes from 0.
    pub place: u32,
    pub cause: JsonCause,
}

/// Why a text stops being JSON text.
#[derive(Clone, Copy, Debug, PartialEq, Eq)]
pub enum JsonCause {
    /// The byte there can't stand there, whatever follows.
    Byte,
    /// The text ends there, too early.
    Ended,
    /// The quote there ends a key that an earlier member of its object has.
    KeyTwice,
    /// The bracket or brace there opens a list or an object inside of 64 others.
    Deep,
}

/// Why a reader gives no tree.
#[derive(Clone, Copy, Debug, PartialEq, Eq, Error)]
pub enum JsonReadFault {
    /// The text is no JSON text.
    #[error(transparent)]
    Text(JsonFault),
    /// Memory was refused, and nothing is known of the text.
    #[error(transparent)]
    Memory(AllocError),
}

impl From<AllocError> for JsonReadFault {
    ghost use Rattle.json_read.specs.declared.fault.JsonReadFault.TheVariants.{Memory};

    ghost from_gives = { λ e f. f ≡ Memory e };

    fn from(error: AllocError) -> JsonReadFault {
        JsonReadFault::Memory(error)
    }
}

impl fmt::Display for JsonCause {
    ghost use Rattle.std.specs.Prelude.{Some};
    ghost use Rattle.json_read.specs.FaultText.{cause_words};

    ghost output = { λ cause. Some (cause_words cause) };

    fn fmt<W: fmt::Write>(&self, f: &mut fmt::Formatter<W>) -> fmt::Result {
        f.write_str(match self {
            JsonCause::Byte => "byte",
            JsonCause::Ended => "ended",
            JsonCause::KeyTwice => "key twice",
            JsonCause::Deep => "deep",
        })
    }
}

impl fmt::Display for JsonFault {
    ghost use Rattle.std.specs.Prelude.{Some};
    ghost use Rattle.json_read.specs.FaultText.{fault_text};

    ghost output = { λ fault. Some (fault_text fault) };

    fn fmt<W: fmt::Write>(&self, f: &mut fmt::Formatter<W>) -> fmt::Result {
        let JsonFault { place, cause } = *self;
        write!(f, "json fault at {place}: {cause}")
    }
}

impl std::error::Error for JsonFault {}

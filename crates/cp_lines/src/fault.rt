ghost use Rattle.std.specs.Prelude.{◌≡◌, ◌≤◌, ◌+◌, length, take};
ghost use Rattle.cp_lines.specs.Place.{line_at, column_at};

use fold_base::MOST_BYTES;
use std::alloc::AllocError;
use std::fmt;
use thiserror::Error;

/// Where a text stops being CP text, and why.
#[derive(Clone, Copy, Debug, PartialEq, Eq)]
pub struct CpFault {
    /// Counted from 1.
    pub line: u32,
    /// Counted from 1, in bytes.
    pub column: u32,
    pub cause: CpCause,
}

#[derive(Clone, Copy, Debug, PartialEq, Eq)]
pub enum CpCause {
    /// The byte there can't stand there, whatever follows.
    Byte,
    /// The text ends there, too early.
    Ended,
}

/// Why a text gives no lines.
#[derive(Clone, Copy, Debug, PartialEq, Eq, Error)]
pub enum CpReadFault {
    /// The text is no CP text.
    #[error(transparent)]
    Text(CpFault),
    /// Memory was refused, and nothing is known of the text.
    #[error(transparent)]
    Memory(AllocError),
}

impl From<AllocError> for CpReadFault {
    ghost use Rattle.cp_lines.specs.declared.fault.CpReadFault.TheVariants.{Memory};

    ghost from_gives = { λ e f. f ≡ Memory e };

    fn from(error: AllocError) -> CpReadFault {
        CpReadFault::Memory(error)
    }
}

impl fmt::Display for CpCause {
    ghost use Rattle.std.specs.Prelude.{Some};
    ghost use Rattle.cp_lines.specs.FaultText.{cause_word};

    ghost output = { λ cause. Some (cause_word cause) };

    fn fmt<W: fmt::Write>(&self, f: &mut fmt::Formatter<W>) -> fmt::Result {
        f.write_str(match self {
            CpCause::Byte => "byte",
            CpCause::Ended => "ended",
        })
    }
}

impl fmt::Display for CpFault {
    ghost use Rattle.std.specs.Prelude.{Some};
    ghost use Rattle.cp_lines.specs.FaultText.{fault_text};

    ghost output = { λ fault. Some (fault_text fault) };

    fn fmt<W: fmt::Write>(&self, f: &mut fmt::Formatter<W>) -> fmt::Result {
        let CpFault {
            line,
            column,
            cause,
        } = *self;
        write!(f, "cp fault at line {line} column {column}: {cause}")
    }
}

impl std::error::Error for CpFault {}

impl CpFault {
    /// The fault at a place of the text, counted in bytes from 0.
    pub(crate) fn at(text: &[u8], place: usize, cause: CpCause) -> CpFault
        requires within { place ≤ length text.now }
        requires fits { length text.now ≤ MOST_BYTES }
        ensures line { result.line ≡ line_at (take place text.now) }
        ensures column { result.column ≡ column_at (take place text.now) }
        ensures cause { result.cause ≡ cause }
    {
        let front = &text[..place];
        CpFault {
            line: line_at(front) as u32,
            column: column_at(front) as u32,
            cause,
        }
    }
}

fn line_at(front: &[u8]) -> usize
    ensures line { result ≡ line_at front.now }
    ensures small { result ≤ length front.now + 1 }
{
    front.iter().filter(|b| **b == b'\n').count() + 1
}

#[tactic(auto, using(crate::proofs::Places::column_more))]
fn column_at(front: &[u8]) -> usize
    ensures column { result ≡ column_at front.now }
    ensures small { result ≤ length front.now + 1 }
{
    let mut column = 1;
    for byte in front {
        if *byte == b'\n' {
            column = 1;
        } else {
            column += 1;
        }
    }
    column
}

ghost use Rattle.std.specs.Prelude.{◌≡◌, ◌≢◌, ◌↔◌, IsTrue, IfOk};
ghost use Rattle.json_tree.specs.Number.{IsNumber};

use crate::phase::Phase;
use fold_base::Text;
use std::alloc::{AllocError, Global};
use std::marker::Model;
use thiserror::Error;

/// A text that spells a JSON number (RFC 8259, section 6). It is kept as it was spelled: `-0` and `0` are two of them, and
/// so are `1.5` and `1.50`. One of at most 22 bytes takes no memory of its own.
#[derive(Debug, Drop)]
pub struct NumberText {
    form: Form,
}

/// Why a text makes no number.
#[derive(Clone, Copy, Debug, PartialEq, Eq, Error)]
pub enum NumberReadFault {
    #[error("the text spells no number")]
    NoNumber,
    #[error(transparent)]
    Memory(AllocError),
}

/// The bytes of a short text are kept in place.
const SHORT: usize = 22;

#[derive(Debug, Drop)]
enum Form {
    /// The text is the first so many of the bytes.
    Short { count: u8, bytes: [u8; SHORT] },
    Long(Box<Text>),
}

impl Model for NumberText {
    ghost use Rattle.std.specs.Prelude.{List, ℕ};
    ghost use Rattle.json_tree.specs.NumberForm.{text_of, IsNumberForm};

    ghost Value = { List ℕ };

    ghost view = { λ n. text_of n.form };

    ghost invariant = { λ n. IsNumberForm n.form };
}

impl NumberText {
    /// The number that the text spells.
    pub fn read(alloc: Global, text: &str) -> Result<NumberText, NumberReadFault>
        ensures same { IfOk result (λ number. number ≡ text.now) }

        // Exactly the texts that spell no number are refused as such.
        ensures number { result ≢ Err NumberReadFault.NoNumber → IsNumber text.now }
        ensures no_number { result ≡ Err NumberReadFault.NoNumber → ¬ (IsNumber text.now) }
    {
        if spells_number(text.as_bytes()) {
            NumberText::from_scanned(alloc, text).map_err(NumberReadFault::Memory)
        } else {
            Err(NumberReadFault::NoNumber)
        }
    }

    pub fn bytes(&self) -> &[u8]
        ensures same { result.now ≡ self.now }
        ensures number { IsNumber self.now }
    {
        self.form.bytes()
    }

    pub fn as_str(&self) -> &str
        ensures same { result.now ≡ self.now }
        ensures number { IsNumber self.now }
    {
        unsafe { std::str::from_utf8_unchecked(self.form.bytes()) }
    }

    pub fn copy(&self, alloc: Global) -> Result<NumberText, AllocError>
        ensures { IfOk result (λ number. number ≡ self.now) }
    {
        NumberText::from_scanned(alloc, self.as_str())
    }

    /// The number of a text that was found to spell one.
    pub(crate) fn from_scanned(alloc: Global, text: &str) -> Result<NumberText, AllocError>
        requires { IsNumber text.now }
        ensures { IfOk result (λ number. number ≡ text.now) }
    {
        let form = Form::new(alloc, text)?;
        Ok(NumberText { form })
    }
}

impl Form {
    ghost use Rattle.json_tree.specs.NumberForm.{text_of, IsWithinRoom};

    fn new(alloc: Global, text: &str) -> Result<Form, AllocError>
        ensures text { IfOk result (λ form. text_of form ≡ text.now) }
        ensures room { IfOk result IsWithinRoom }
    {
        let count = text.len();
        if count > SHORT {
            let text = Text::from_text(alloc, text)?;
            return Ok(Form::Long(Box::new(alloc, text)?));
        }
        let mut bytes = [0; SHORT];
        bytes[..count].copy_from_slice(text.as_bytes());
        Ok(Form::Short {
            count: count as u8,
            bytes,
        })
    }

    fn bytes(&self) -> &[u8]
        requires { IsWithinRoom self.now }
        ensures { result.now ≡ text_of self.now }
    {
        match self {
            Form::Short { count, bytes } => &bytes[..*count as usize],
            Form::Long(text) => text.bytes(),
        }
    }
}

fn spells_number(bytes: &[u8]) -> bool
    ensures { IsTrue result ↔ IsNumber bytes.now }
{
    let mut phase = Phase::Start;
    for byte in bytes {
        match phase.next(*byte) {
            Some(next) => phase = next,
            None => return false,
        }
    }
    phase.is_whole()
}

ghost use Rattle.std.specs.Prelude.{◌≡◌, ◌↔◌, [], ◌∷◌, ◌++◌, IsTrue, IfOk, OnOk, OnErr, if◌then◌else◌};
ghost use Rattle.json_tree.specs.Number.{IsNumber, BeginsNumber};
ghost use Rattle.json_tree.specs.Scan.{is_number, begins_number};

use crate::NumberText;
use crate::phase::Phase;
use std::alloc::{AllocError, Global};
use std::marker::Model;

/// The text of a number while it is read byte by byte, for a reader of a larger format. Its bytes are those that it has
/// taken since it was made, began anew or last gave a number. One scanner serves for many numbers and keeps its room.
#[derive(Debug, Drop)]
pub struct NumberScanner {
    text: String,
    phase: Phase,
}

impl Model for NumberScanner {
    ghost use Rattle.std.specs.Prelude.{◌≡◌, List, ℕ, Some, string_bytes};
    ghost use Rattle.json_tree.specs.Scan.{phase_after};

    ghost Value = { List ℕ };

    ghost view = { λ s. string_bytes s.text };

    ghost invariant = { λ s. phase_after (string_bytes s.text) ≡ Some s.phase };
}

impl NumberScanner {
    pub fn new(alloc: Global) -> NumberScanner
        ensures { result ≡ [] }
    {
        NumberScanner {
            text: String::new(alloc),
            phase: Phase::Start,
        }
    }

    /// Begins anew, whatever it has taken.
    pub fn restart(&mut self)
        ensures { self.new ≡ [] }
    {
        self.text.clear();
        self.phase = Phase::Start;
    }

    /// Takes one more byte. `false`: it can't stand here, and is not taken.
    pub fn take(&mut self, byte: u8) -> Result<bool, AllocError>
        // A byte can stand where some number begins with the bytes so far and this one.
        ensures begins { IfOk result (λ went. IsTrue went ↔ BeginsNumber (self.old ++ byte ∷ [])) }
        ensures test { IfOk result (λ went. went ≡ begins_number (self.old ++ byte ∷ [])) }

        ensures bytes { IfOk result (λ went. self.new ≡ (if went then self.old ++ byte ∷ [] else self.old)) }
        ensures err { OnErr result (self.new ≡ self.old) }
    {
        match self.phase.next(byte) {
            Some(next) => {
                self.text.push(char::from(byte))?;
                self.phase = next;
                Ok(true)
            }
            None => Ok(false),
        }
    }

    /// Whether the bytes so far are a whole number.
    pub fn is_whole(&self) -> bool
        ensures number { IsTrue result ↔ IsNumber self.now }
        ensures test { result ≡ is_number self.now }
    {
        self.phase.is_whole()
    }

    /// Gives the number, and begins anew.
    pub fn finish(&mut self, alloc: Global) -> Result<NumberText, AllocError>
        requires { IsNumber self.old }
        ensures number { IfOk result (λ number. number ≡ self.old) }
        ensures anew { OnOk result (self.new ≡ []) }
        ensures err { OnErr result (self.new ≡ self.old) }
    {
        let number = NumberText::from_scanned(alloc, self.text.as_str())?;
        self.restart();
        Ok(number)
    }
}

// Where a value begins, and what follows it.
ghost use Rattle.std.specs.Prelude.{◌≡◌, IfOk, Some, None, if◌then◌else◌};
ghost use Rattle.json_machine.specs.Machine.{at_value, at_first_value, at_other, at_number, after_value, next_due};
ghost use Rattle.json_read.specs.Signs.{sign_in};
ghost use Rattle.json_read.specs.Views.{state_of};

use crate::frame::{Frame, OpenObject};
use crate::machine::Machine;
use crate::phase::{Literal, Phase};
use crate::sign::Sign;
use fold_base::List;
use std::alloc::AllocError;

impl Machine {
    pub fn at_value(&mut self, byte: u8, sign: Sign) -> Result<bool, AllocError>
        ensures { IfOk result (λ went. (if went then Some (state_of self.new) else None) ≡ at_value (state_of self.old) byte (sign_in sign)) }
    {
        match sign {
            Sign::Blank => Ok(true),
            Sign::Quote => {
                self.word.restart();
                self.phase = Phase::InWord;
                Ok(true)
            }
            Sign::Open => self.open(Frame::List(List::new(self.alloc)), Phase::FirstValueDue),
            Sign::OpenBrace => self.open(
                Frame::Object(OpenObject::new(self.alloc)),
                Phase::FirstKeyDue,
            ),
            Sign::Other => self.at_other(byte),
            _ => Ok(false),
        }
    }

    pub fn at_first_value(&mut self, byte: u8, sign: Sign) -> Result<bool, AllocError>
        ensures { IfOk result (λ went. (if went then Some (state_of self.new) else None) ≡ at_first_value (state_of self.old) byte (sign_in sign)) }
    {
        match sign {
            Sign::Close => self.close_list(),
            _ => self.at_value(byte, sign),
        }
    }

    /// At a byte that begins `null`, `true`, `false` or a number.
    fn at_other(&mut self, byte: u8) -> Result<bool, AllocError>
        ensures { IfOk result (λ went. (if went then Some (state_of self.new) else None) ≡ at_other (state_of self.old) byte) }
    {
        match byte {
            b'n' => self.phase = Phase::InLiteral(b"ull", Literal::Null),
            b't' => self.phase = Phase::InLiteral(b"rue", Literal::Truth(true)),
            b'f' => self.phase = Phase::InLiteral(b"alse", Literal::Truth(false)),
            _ => return self.at_number(byte),
        }
        Ok(true)
    }

    fn at_number(&mut self, byte: u8) -> Result<bool, AllocError>
        ensures { IfOk result (λ went. (if went then Some (state_of self.new) else None) ≡ at_number (state_of self.old) byte) }
    {
        self.number.restart();
        if !self.number.take(byte)? {
            return Ok(false);
        }
        self.phase = Phase::InNumber;
        Ok(true)
    }

    pub fn after_value(&mut self, sign: Sign) -> Result<bool, AllocError>
        ensures { IfOk result (λ went. (if went then Some (state_of self.new) else None) ≡ after_value (state_of self.old) (sign_in sign)) }
    {
        match sign {
            Sign::Blank => Ok(true),
            Sign::Comma => Ok(self.after_comma()),
            Sign::Close => self.close_list(),
            Sign::CloseBrace => self.close_object(),
            _ => Ok(false),
        }
    }

    fn after_comma(&mut self) -> bool
        ensures { (if result then Some (state_of self.new) else None) ≡ next_due (state_of self.old) self.old.stack }
    {
        match self.stack.due_after_comma() {
            Some(phase) => {
                self.phase = phase;
                true
            }
            None => false,
        }
    }
}

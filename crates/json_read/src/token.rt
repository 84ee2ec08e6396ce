// The bytes within a number, a word, and `null`, `true` and `false`.
ghost use Rattle.std.specs.Prelude.{◌≡◌, ◌≤◌, length, take, IfOk, OnOk, IsTrue, Some, None, if◌then◌else◌};
ghost use Rattle.first_fault.specs.Machine.{steps};
ghost use Rattle.json_tree.specs.Number.{IsNumber};
ghost use Rattle.json_tree.specs.declared.tree.Json.{Number};
ghost use Rattle.json_machine.specs.Machine.{in_literal, in_number, in_word, sign_of, step, with_value};
ghost use Rattle.json_machine.specs.WordScan.{next_character};
ghost use Rattle.json_read.specs.Views.{literal_tree, state_of};
ghost use Rattle.json_read.specs.declared.phase.Phase.TheVariants.{InNumber, InWord};

use crate::machine::Machine;
use crate::phase::{Literal, Phase};
use crate::sign::Sign;
use json_tree::Json;
use std::alloc::AllocError;

impl Machine {
    /// The byte after a number ends it, and stands for itself.
    pub fn number_byte(&mut self, byte: u8) -> Result<bool, AllocError>
        requires { self.old.phase ≡ InNumber }
        ensures { IfOk result (λ went. (if went then Some (state_of self.new) else None)
            ≡ in_number (state_of self.old) self.old.number byte (sign_of byte)) }
    {
        if self.number.take(byte)? {
            return Ok(true);
        }
        if !self.number.is_whole() {
            return Ok(false);
        }
        self.end_number()?;
        self.after_value(Sign::of(byte))
    }

    pub fn end_number(&mut self) -> Result<(), AllocError>
        requires { IsNumber self.old.number }
        ensures { OnOk result (state_of self.new ≡ with_value (Number self.old.number) self.old.stack) }
    {
        let number = self.number.finish(self.alloc)?;
        self.put(Json::Number(number))
    }

    /// Takes the bytes that go on with the word in hand, and says how many.
    pub fn take_word(&mut self, bytes: &[u8]) -> Result<usize, AllocError>
        ensures within { IfOk result (λ n. n ≤ length bytes.now) }
        ensures steps { IfOk result (λ n. steps step (state_of self.old) (take n bytes.now) ≡ Some (state_of self.new)) }
    {
        match self.phase {
            Phase::InWord => {
                let count = self.word.take_front(bytes)?;
                Ok(count)
            }
            Phase::InKey => {
                let count = self.word.take_front(bytes)?;
                Ok(count)
            }
            _ => Ok(0),
        }
    }

    pub fn word_byte(&mut self, byte: u8) -> Result<bool, AllocError>
        requires { self.old.phase ≡ InWord }
        ensures { IfOk result (λ went. (if went then Some (state_of self.new) else None)
            ≡ in_word (state_of self.old) self.old.word byte (next_character self.old.word byte)) }
    {
        if self.word.take(byte)? {
            return Ok(true);
        }
        if byte != b'"' || !self.word.is_between() {
            return Ok(false);
        }
        let word = self.word.finish(self.alloc)?;
        self.put(Json::Word(word))?;
        Ok(true)
    }

    /// These bytes of the literal are due.
    pub fn literal_byte(
        &mut self,
        due: &'static [u8],
        literal: Literal,
        byte: u8,
    ) -> Result<bool, AllocError>
        ensures { IfOk result (λ went. (if went then Some (state_of self.new) else None)
            ≡ in_literal (state_of self.old) due.now (literal_tree literal) byte) }
    {
        match due.split_first() {
            Some((first, rest)) if *first == byte => {
                if rest.is_empty() {
                    self.put(literal.tree())?;
                } else {
                    self.phase = Phase::InLiteral(rest, literal);
                }
                Ok(true)
            }
            _ => Ok(false),
        }
    }
}

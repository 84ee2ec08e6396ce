ghost use Rattle.std.specs.Prelude.{◌≡◌, IfOk, OnOk, Some, None, if◌then◌else◌};
ghost use Rattle.json_machine.specs.Machine.{start, step, finish, with_value, closed_list, closed_object, pushed};
ghost use Rattle.json_read.specs.Stops.{cause_of};
ghost use Rattle.json_read.specs.Frames.{frame_of};
ghost use Rattle.json_read.specs.Views.{phase_with, state_of};

use crate::fault::JsonCause;
use crate::frame::Frame;
use crate::phase::Phase;
use crate::sign::Sign;
use crate::stack::Stack;
use crate::word::WordScanner;
use json_tree::{Json, NumberScanner};
use std::alloc::{AllocError, Global};

/// A JSON text while it is read byte by byte.
#[derive(Drop)]
pub struct Machine {
    pub alloc: Global,
    pub stack: Stack,
    /// The value of the text, once it is done.
    pub root: Option<Json>,
    pub phase: Phase,
    /// The word in hand. It keeps its room for the next, as the number does.
    pub word: WordScanner,
    pub number: NumberScanner,
}

impl Machine {
    pub fn new(alloc: Global) -> Machine
        ensures { state_of result ≡ start }
    {
        Machine {
            alloc,
            stack: Stack::new(alloc),
            root: None,
            phase: Phase::ValueDue,
            word: WordScanner::new(alloc),
            number: NumberScanner::new(alloc),
        }
    }

    /// Reads a byte. `false`: it can't stand here.
    pub fn step(&mut self, byte: u8) -> Result<bool, AllocError>
        ensures { IfOk result (λ went. (if went then Some (state_of self.new) else None) ≡ step (state_of self.old) byte) }
    {
        match self.phase {
            Phase::InNumber => self.number_byte(byte),
            Phase::InWord => self.word_byte(byte),
            Phase::InKey => self.key_byte(byte),
            Phase::InLiteral(due, literal) => self.literal_byte(due, literal, byte),
            Phase::ValueDue => self.at_value(byte, Sign::of(byte)),
            Phase::FirstValueDue => self.at_first_value(byte, Sign::of(byte)),
            Phase::KeyDue => Ok(self.at_key(Sign::of(byte))),
            Phase::FirstKeyDue => self.at_first_key(Sign::of(byte)),
            Phase::ColonDue => Ok(self.at_colon(Sign::of(byte))),
            Phase::AfterValue => self.after_value(Sign::of(byte)),
        }
    }

    /// Why the byte can't stand here, where it can't.
    pub fn cause(&self, byte: u8) -> JsonCause
        ensures { result ≡ cause_of (phase_with self.now.word self.now.number self.now.phase) byte }
    {
        match (self.phase, byte) {
            (Phase::InKey, b'"') if self.word.is_between() => JsonCause::KeyTwice,
            (Phase::ValueDue | Phase::FirstValueDue, b'[' | b'{') => JsonCause::Deep,
            _ => JsonCause::Byte,
        }
    }

    /// The value of the text, where it may end here.
    pub fn finish(self) -> Result<Option<Json>, AllocError>
        ensures { IfOk result (λ tree. tree ≡ finish (state_of self)) }
    {
        let mut machine = self;
        match machine.phase {
            Phase::AfterValue => Ok(machine.root),
            Phase::InNumber => {
                if !machine.number.is_whole() {
                    return Ok(None);
                }
                machine.end_number()?;
                Ok(machine.root)
            }
            _ => Ok(None),
        }
    }

    /// Puts a value that is done into the innermost list or object.
    pub fn put(&mut self, value: Json) -> Result<(), AllocError>
        ensures { OnOk result (state_of self.new ≡ with_value value self.old.stack) }
    {
        self.root = self.stack.put(self.alloc, value)?;
        self.phase = Phase::AfterValue;
        Ok(())
    }

    /// Opens a list or an object. `false`: too many are open.
    pub fn open(&mut self, frame: Frame, phase: Phase) -> Result<bool, AllocError>
        ensures { IfOk result (λ went. (if went then Some (state_of self.new) else None)
            ≡ pushed self.old.stack (frame_of frame) (phase_with self.old.word self.old.number phase)) }
    {
        if !self.stack.open(frame)? {
            return Ok(false);
        }
        self.root = None;
        self.phase = phase;
        Ok(true)
    }

    /// Closes the innermost, where it is a list.
    pub fn close_list(&mut self) -> Result<bool, AllocError>
        ensures { IfOk result (λ went. (if went then Some (state_of self.new) else None) ≡ closed_list self.old.stack) }
    {
        let Some(values) = self.stack.close_list() else {
            return Ok(false);
        };
        self.put(Json::List(values))?;
        Ok(true)
    }

    /// Closes the innermost, where it is an object.
    pub fn close_object(&mut self) -> Result<bool, AllocError>
        ensures { IfOk result (λ went. (if went then Some (state_of self.new) else None) ≡ closed_object self.old.stack) }
    {
        let Some(members) = self.stack.close_object() else {
            return Ok(false);
        };
        self.put(Json::Object(members))?;
        Ok(true)
    }
}

ghost use Rattle.std.specs.Prelude.{◌≡◌, ℕ, [], ◌∷◌, List as Items, IsTrue, length, nat_lt, IfOk, OnOk, Some, None, option_map, if◌then◌else◌};
ghost use Rattle.json_tree.specs.declared.tree.Json.TheViews as trees;
ghost use Rattle.json_machine.specs.Machine.{State, closed_list, closed_object, emitted, in_phase, keyed, next_due, rooted, with_value};
ghost use Rattle.json_machine.specs.Machine as machine;
ghost use Rattle.json_machine.specs.WordScan.{WordState};
ghost use Rattle.json_read.specs.Frames.{frame_of};
ghost use Rattle.json_read.specs.Views.{phase_with};

use crate::frame::Frame;
use crate::phase::Phase;
use fold_base::{List, Text};
use json_tree::{Json, Member};
use std::alloc::{AllocError, Global};
use std::marker::Model;
use std::mem;

/// Of 64 that are open, so many are around the innermost.
const MOST_OUTER: usize = 63;

/// The lists and objects that are open.
#[derive(Drop)]
pub struct Stack {
    innermost: Option<Frame>,
    /// Those around it, the outermost first.
    outer: List<Frame>,
}

impl Model for Stack {
    ghost use Rattle.std.specs.Prelude.{List};
    ghost use Rattle.std.specs.Coded.{coded_list};
    ghost use Rattle.json_machine.specs.Machine.{Frame};
    ghost use Rattle.json_read.specs.Frames.{frame_code};

    ghost Value = { List Frame };

    ghost coded = { coded_list frame_code };

    ghost use Rattle.json_read.specs.StackModel.{frames_of, IsNested};

    ghost view = { frames_of };

    ghost invariant = { IsNested };
}

impl Stack {
    pub fn new(alloc: Global) -> Stack
        ensures { result ≡ [] }
    {
        Stack {
            innermost: None,
            outer: List::new(alloc),
        }
    }

    /// Opens one more. `false`: 64 are open, and nothing changes.
    #[tactic(auto, using(crate::proofs::Opened::around_more, crate::proofs::Opened::length_around))]
    pub fn open(&mut self, frame: Frame) -> Result<bool, AllocError>
        ensures test { IfOk result (λ went. went ≡ nat_lt (length self.old) 64) }
        ensures opened { IfOk result (λ went. self.new ≡ (if went then frame_of frame ∷ self.old else self.old)) }
    {
        if self.outer.len() >= MOST_OUTER {
            return Ok(false);
        }
        if let Some(before) = mem::replace(&mut self.innermost, Some(frame)) {
            self.outer.push(before)?;
        }
        Ok(true)
    }

    /// Puts a value into the innermost. Where nothing is open, the value is given back.
    pub fn put(&mut self, alloc: Global, value: Json) -> Result<Option<Json>, AllocError>
        ensures put { OnOk result (self.new ≡ emitted value self.old) }
        ensures root { IfOk result (λ root. root ≡ rooted value self.old) }
    {
        match &mut self.innermost {
            None => return Ok(Some(value)),
            Some(Frame::List(values)) => values.push(value)?,
            Some(Frame::Object(object)) => object.put(alloc, value)?,
        }
        Ok(None)
    }

    /// Closes the innermost and gives its values in no more room than they need, where it is a list.
    #[tactic(auto, using(crate::proofs::Opened::around_more))]
    pub fn close_list(&mut self) -> Option<List<Json>>
        ensures { closed_list self.old ≡ option_map (λ values. with_value (trees.List values) self.new) result }
    {
        match self.innermost.take() {
            Some(Frame::List(mut values)) => {
                self.innermost = self.outer.pop();
                values.fit();
                Some(values)
            }
            other => {
                self.innermost = other;
                None
            }
        }
    }

    /// Closes the innermost and gives its members, where it is an object.
    #[tactic(auto, using(crate::proofs::Opened::around_more))]
    pub fn close_object(&mut self) -> Option<List<Member>>
        ensures { closed_object self.old ≡ option_map (λ members. with_value (trees.Object members) self.new) result }
    {
        match self.innermost.take() {
            Some(Frame::Object(object)) => {
                self.innermost = self.outer.pop();
                Some(object.into_members())
            }
            other => {
                self.innermost = other;
                None
            }
        }
    }

    /// Takes the key in hand of the innermost. `false`: it is no object, or has the key.
    pub fn take_key(&mut self, key: Text) -> bool
        ensures { (if result then Some (record { stack = self.new; root = None; phase = machine.ColonDue }) else None) ≡ keyed key self.old }
    {
        match &mut self.innermost {
            Some(Frame::Object(object)) => object.take_key(key),
            _ => false,
        }
    }

    /// What is due after a comma, where one may stand.
    pub fn due_after_comma(&self) -> Option<Phase>
        ensures { (s : State) (word : WordState) (number : Items ℕ) → next_due s self.now ≡ option_map (λ due. in_phase s (phase_with word number due)) result }
    {
        match &self.innermost {
            None => None,
            Some(Frame::List(_)) => Some(Phase::ValueDue),
            Some(Frame::Object(_)) => Some(Phase::KeyDue),
        }
    }
}

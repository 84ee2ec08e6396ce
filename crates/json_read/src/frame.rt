ghost use Rattle.std.specs.Prelude.{◌≡◌, [], ◌∷◌, ◌++◌, not, OnOk, if◌then◌else◌};
ghost use Rattle.json_machine.specs.Machine.{has_key, pair};

use crate::members::KeyedMembers;
use fold_base::{List, Text};
use json_tree::{Json, Member};
use std::alloc::{AllocError, Global};
use std::marker::Model;
use std::mem;

/// A list or an object that is open.
#[derive(Drop)]
pub enum Frame {
    List(List<Json>),
    Object(OpenObject),
}

/// The members of an object that are done, and the key in hand: empty where none is.
#[derive(Drop)]
pub struct OpenObject {
    members: KeyedMembers,
    key: Text,
}

impl Model for OpenObject {
    ghost use Rattle.std.specs.Prelude.{List, ℕ};
    ghost use Rattle.std.specs.Coded.{coded×, coded_list, coded_ℕ};
    ghost use Rattle.json_tree.specs.declared.tree.Member.{Member};
    ghost use Rattle.json_tree.specs.contracts.tree.Member as member;

    ghost Value = { List Member × List ℕ };

    ghost coded = { coded× (coded_list member.the_row.coded) (coded_list coded_ℕ) };

    ghost view = { λ object. (object.members, object.key) };
}

impl OpenObject {
    pub fn new(alloc: Global) -> OpenObject
        ensures { result ≡ ([], []) }
    {
        OpenObject {
            members: KeyedMembers::new(alloc),
            key: Text::from_string(String::new(alloc)),
        }
    }

    /// Takes the key in hand. `false`: a member has it, and nothing changes.
    pub fn take_key(&mut self, key: Text) -> bool
        ensures test { result ≡ not (has_key key self.old.0) }
        ensures taken { self.new ≡ (if result then (self.old.0, key) else self.old) }
    {
        if self.members.has_key(key.as_str()) {
            return false;
        }
        self.key = key;
        true
    }

    /// Puts the value to the members under the key in hand.
    pub fn put(&mut self, alloc: Global, value: Json) -> Result<(), AllocError>
        ensures { OnOk result (self.new ≡ (self.old.0 ++ pair self.old.1 value ∷ [], [])) }
    {
        let key = mem::replace(&mut self.key, Text::from_string(String::new(alloc)));
        self.members.push(alloc, Member { key, value })
    }

    pub fn into_members(self) -> List<Member>
        ensures { result ≡ self.0 }
    {
        self.members.into_list()
    }
}

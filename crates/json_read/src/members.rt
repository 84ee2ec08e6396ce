ghost use Rattle.std.specs.Prelude.{◌≡◌, [], ◌∷◌, ◌++◌, OnOk, OnErr};
ghost use Rattle.json_machine.specs.Machine.{has_key};

use crate::key_index::KeyIndex;
use fold_base::List;
use json_tree::Member;
use std::alloc::{AllocError, Global};
use std::marker::Model;

/// The members of an object, where a key is found without a look at each.
#[derive(Drop)]
pub struct KeyedMembers {
    list: List<Member>,
    index: KeyIndex,
}

impl Model for KeyedMembers {
    ghost use Rattle.std.specs.Prelude.{List};
    ghost use Rattle.std.specs.Coded.{coded_list};
    ghost use Rattle.json_tree.specs.declared.tree.Member.{Member};
    ghost use Rattle.json_tree.specs.contracts.tree.Member as member;

    ghost Value = { List Member };

    ghost coded = { coded_list member.the_row.coded };

    ghost use Rattle.json_read.specs.KeyedList.{IsIndexed};

    ghost view = { λ m. m.list };

    ghost invariant = { IsIndexed };
}

impl KeyedMembers {
    pub fn new(alloc: Global) -> KeyedMembers
        ensures { result ≡ [] }
    {
        KeyedMembers {
            list: List::new(alloc),
            index: KeyIndex::new(alloc),
        }
    }

    pub fn has_key(&self, key: &str) -> bool
        ensures { result ≡ has_key key.now self.now }
    {
        self.index.finds(self.list.as_slice(), key)
    }

    /// Appends the member, or changes nothing.
    pub fn push(&mut self, alloc: Global, member: Member) -> Result<(), AllocError>
        ensures ok { OnOk result (self.new ≡ self.old ++ member ∷ []) }
        ensures err { OnErr result (self.new ≡ self.old) }
    {
        self.list.push(member)?;
        if let Err(error) = self.index.add_last(alloc, self.list.as_slice()) {
            self.list.pop();
            return Err(error);
        }
        Ok(())
    }

    pub fn into_list(self) -> List<Member>
        ensures { result ≡ self }
    {
        let mut list = self.list;
        list.fit();
        list
    }
}

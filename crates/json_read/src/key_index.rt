ghost use Rattle.std.specs.Prelude.{◌≡◌, ℕ, List, [], ◌∷◌, ◌++◌, ◌||◌, ◌&&◌, ◌==◌, false, Some, is_none, IfOk, OnOk, OnErr, if◌then◌else◌};
ghost use Rattle.std.specs.BTreeMap.{get};
ghost use Rattle.std.specs.Ordering.{nat_cmp};
ghost use Rattle.std.specs.Str.{bytes_eq};
ghost use Rattle.json_tree.specs.declared.tree.Member.{Member};
ghost use Rattle.json_read.specs.Keys.{finds, stands_at};

use crate::fnv::fnv_1a;
use json_tree::Member;
use std::alloc::{AllocError, Global};
use std::collections::btree_map::Entry;
use std::collections::{BTreeMap, BTreeSet};

/// Finds a member of a list by its key, in a time that grows with the logarithm of their number whatever the keys are.
/// Most keys are found by their hash alone, which takes no look at other texts.
#[derive(Drop)]
pub struct KeyIndex {
    /// The place of the first member whose key has this hash.
    places: BTreeMap<u64, usize>,
    /// The keys whose hash an earlier one has.
    others: BTreeSet<String>,
}

impl KeyIndex {
    pub fn new(alloc: Global) -> KeyIndex
        ensures { (members : List Member) (key : List ℕ) → finds result members key ≡ false }
    {
        KeyIndex {
            places: BTreeMap::new(alloc),
            others: BTreeSet::new(alloc),
        }
    }

    /// Whether the key is one of these members', each of which the index has.
    pub fn finds(&self, members: &[Member], key: &str) -> bool
        ensures { result ≡ finds self.now members.now key.now }
    {
        match self.places.get(&fnv_1a(key.as_bytes())) {
            Some(place) => stands_at(members, *place, key) || self.others.contains(key),
            None => self.others.contains(key),
        }
    }

    /// Adds the last of these members, where the index has those before it.
    pub fn add_last(&mut self, alloc: Global, members: &[Member]) -> Result<(), AllocError>
        ensures added { OnOk result ((before : List Member) (last : Member) (key : List ℕ) → members.now ≡ before ++ last ∷ []
            → finds self.new members.now key ≡ (finds self.old before key || bytes_eq last.key key)) }
        ensures kept { OnErr result ((others : List Member) (key : List ℕ) → finds self.new others key ≡ finds self.old others key) }
    {
        let Some((last, before)) = members.split_last() else {
            return Ok(());
        };
        if !put_new(&mut self.places, fnv_1a(last.key.bytes()), before.len())? {
            let copy = String::from_str(alloc, last.key.as_str())?;
            self.others.insert(copy)?;
        }
        Ok(())
    }
}

/// Puts the place, unless the hash has one. Whether it is put.
fn put_new(places: &mut BTreeMap<u64, usize>, hash: u64, place: usize) -> Result<bool, AllocError>
    ensures test { IfOk result (λ is_new. is_new ≡ is_none (get nat_cmp places.old hash)) }
    ensures put { IfOk result (λ is_new. (other : ℕ) → get nat_cmp places.new other ≡ (if is_new && other == hash then Some place else get nat_cmp places.old other)) }
    ensures kept { OnErr result ((other : ℕ) → get nat_cmp places.new other ≡ get nat_cmp places.old other) }
{
    match places.entry(hash)? {
        Entry::Vacant(entry) => {
            entry.insert(place);
            Ok(true)
        }
        Entry::Occupied(_) => Ok(false),
    }
}

/// Whether the member at this place has the key.
fn stands_at(members: &[Member], place: usize, key: &str) -> bool
    ensures { result ≡ stands_at members.now place key.now }
{
    match members.get(place) {
        Some(member) => member.key.as_str() == key,
        None => false,
    }
}

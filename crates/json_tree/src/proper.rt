ghost use Rattle.std.specs.Prelude.{◌≡◌, ◌↔◌, IsTrue, IfOk, map, IsSorted, IsPermutation};
ghost use Rattle.std.specs.Cmp.Lexicographic.{slice_cmp};
ghost use Rattle.std.specs.List.{AllByRecursion};
ghost use Rattle.std.specs.Ordering.{nat_cmp};
ghost use Rattle.json_tree.specs.Tree.{keys, HasKey, AreDistinct, IsProper, IsProperWithin};

use crate::tree::{Json, Member};
use fold_base::{List, Text};
use std::alloc::AllocError;

/// Lists and objects of a proper tree nest at most so deep.
const MOST_LEVELS: u8 = 64;

/// More keys than this are sorted, so that no object takes quadratic time.
const MOST_UNSORTED: usize = 16;

/// Whether no object has a key twice, and lists and objects nest at most 64 deep. An object of many keys takes memory
/// for a while; where there is none, each key is compared with all before it.
pub fn is_proper(tree: &Json) -> bool
    ensures { IsTrue result ↔ IsProper tree.now }
{
    is_proper_within(MOST_LEVELS, tree)
}

#[cycle(proper)]
fn is_proper_within(levels: u8, tree: &Json) -> bool
    ensures { IsTrue result ↔ IsProperWithin levels tree.now }
{
    match tree {
        Json::List(items) if levels > 0 => are_proper_items(levels - 1, items.as_slice()),
        Json::Object(members) if levels > 0 => are_proper_members(levels - 1, members),
        Json::List(_) | Json::Object(_) => false,
        Json::Null => true,
        Json::Truth(_) => true,
        Json::Number(_) => true,
        Json::Word(_) => true,
    }
}

#[cycle(proper)]
fn are_proper_items(levels: u8, items: &[Json]) -> bool
    ensures { IsTrue result ↔ AllByRecursion (IsProperWithin levels) items.now }
{
    for item in items {
        if !is_proper_within(levels, item) {
            return false;
        }
    }
    true
}

#[cycle(proper)]
fn are_proper_members(levels: u8, members: &List<Member>) -> bool
    ensures { IsTrue result
        ↔ AreDistinct (keys members.now) × AllByRecursion (λ m. IsProperWithin levels m.value) members.now }
{
    if !has_distinct_keys(members) {
        return false;
    }
    for member in members.as_slice() {
        if !is_proper_within(levels, &member.value) {
            return false;
        }
    }
    true
}

fn has_distinct_keys(members: &List<Member>) -> bool
    ensures { IsTrue result ↔ AreDistinct (keys members.now) }
{
    if members.len() <= MOST_UNSORTED {
        return each_is_new(members.as_slice());
    }
    match sorted_keys(members) {
        Ok(sorted) => neighbours_differ(sorted.as_slice()),
        Err(_) => each_is_new(members.as_slice()),
    }
}

fn each_is_new(members: &[Member]) -> bool
    ensures { IsTrue result ↔ AreDistinct (keys members.now) }
{
    for (place, member) in members.iter().enumerate() {
        if has_key(&members[..place], &member.key) {
            return false;
        }
    }
    true
}

fn has_key(members: &[Member], key: &Text) -> bool
    ensures { IsTrue result ↔ HasKey members.now key.now }
{
    for member in members {
        if member.key.bytes() == key.bytes() {
            return true;
        }
    }
    false
}

fn sorted_keys(members: &List<Member>) -> Result<Vec<&str>, AllocError>
    ensures sorted { IfOk result (λ sorted. IsSorted (λ a b. slice_cmp nat_cmp a.now b.now) sorted.items) }
    ensures permutation { IfOk result
        (λ sorted. IsPermutation (keys members.now) (map (λ key. key.now) sorted.items)) }
{
    let mut sorted = Vec::new(members.allocator());
    for member in members.as_slice() {
        sorted.push(member.key.as_str())?;
    }
    sorted.sort_unstable();
    Ok(sorted)
}

fn neighbours_differ(sorted: &[&str]) -> bool
    requires { IsSorted (λ a b. slice_cmp nat_cmp a.now b.now) sorted.now }
    ensures { IsTrue result ↔ AreDistinct (map (λ key. key.now) sorted.now) }
{
    for later in 1..sorted.len() {
        if sorted[later - 1] == sorted[later] {
            return false;
        }
    }
    true
}

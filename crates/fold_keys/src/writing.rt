ghost use Rattle.std.specs.Prelude.{◌≡◌, [], IfOk, map};
ghost use Rattle.fold_keys.specs.Trees.{tree_of_value, tree_of_frame, tree_of_file, member_of, is_place};
ghost use Rattle.fold_keys.specs.Writable.{IsWritable};

use crate::element::{Coords, Inner, Letters, Orders, PairOf, Plain, copy_list, write_list};
use crate::member::{Ids, MemberKind, Numbers, OrNull, Words};
use crate::value::{Entry, FoldFile, Frame, Value};
use fold_base::List;
use json_tree::{Json, Member, copy};
use std::alloc::{AllocError, Global};

/// An equal value in memory of its own.
pub fn copy_value(alloc: Global, value: &Value) -> Result<Value, AllocError>
    ensures { IfOk result (λ made. made ≡ value.now) }
{
    match value {
        Value::Number(text) => Ok(Value::Number(text.copy(alloc)?)),
        Value::Word(word) => Ok(Value::Word(word.copy(alloc)?)),
        Value::Truth(is) => Ok(Value::Truth(*is)),
        Value::Id(id) => Ok(Value::Id(*id)),
        Value::Frames => Ok(Value::Frames),
        Value::Words(words) => Ok(Value::Words(copy_list::<Plain<Words>>(alloc, words)?)),
        Value::Numbers(texts) => Ok(Value::Numbers(copy_list::<Plain<OrNull<Numbers>>>(
            alloc, texts,
        )?)),
        Value::Coords(points) => Ok(Value::Coords(copy_list::<Coords>(alloc, points)?)),
        Value::IdLists(lists) => Ok(Value::IdLists(copy_list::<Inner<OrNull<Ids>>>(alloc, lists)?)),
        Value::Pairs(pairs) => Ok(Value::Pairs(copy_list::<PairOf<Ids>>(alloc, pairs)?)),
        Value::Letters(letters) => Ok(Value::Letters(copy_list::<Letters>(alloc, letters)?)),
        Value::Orders(orders) => Ok(Value::Orders(copy_list::<Orders>(alloc, orders)?)),
        Value::Exact(points) => Ok(Value::Exact(copy_list::<PairOf<Words>>(alloc, points)?)),
        Value::Kept(tree) => Ok(Value::Kept(copy(alloc, tree)?)),
    }
}

/// The tree of a value. The place of the other frames is an empty list.
fn write_value(alloc: Global, value: &Value) -> Result<Json, AllocError>
    ensures { IfOk result (λ tree. tree ≡ tree_of_value [] value.now) }
{
    match value {
        Value::Number(text) => Numbers::write(alloc, text),
        Value::Word(word) => Words::write(alloc, word),
        Value::Truth(is) => Ok(Json::Truth(*is)),
        Value::Id(id) => Ids::write(alloc, id),
        Value::Frames => Ok(Json::List(List::new(alloc))),
        Value::Words(words) => write_list::<Plain<Words>>(alloc, words),
        Value::Numbers(texts) => write_list::<Plain<OrNull<Numbers>>>(alloc, texts),
        Value::Coords(points) => write_list::<Coords>(alloc, points),
        Value::IdLists(lists) => write_list::<Inner<OrNull<Ids>>>(alloc, lists),
        Value::Pairs(pairs) => write_list::<PairOf<Ids>>(alloc, pairs),
        Value::Letters(letters) => write_list::<Letters>(alloc, letters),
        Value::Orders(orders) => write_list::<Orders>(alloc, orders),
        Value::Exact(points) => write_list::<PairOf<Words>>(alloc, points),
        Value::Kept(tree) => copy(alloc, tree),
    }
}

fn is_place(value: &Value) -> bool
    ensures { result ≡ is_place value.now }
{
    match value {
        Value::Frames => true,
        _ => false,
    }
}

/// The tree of a frame after the first.
fn write_other(alloc: Global, frame: &Frame) -> Result<Json, AllocError>
    ensures { IfOk result (λ tree. tree ≡ tree_of_frame [] frame.now) }
{
    let entries = frame.entries.as_slice();
    let mut members = List::with_room(alloc, entries.len())?;
    for entry in entries {
        members.push(Member {
            key: entry.key.copy(alloc)?,
            value: write_value(alloc, &entry.value)?,
        })?;
    }
    Ok(Json::Object(members))
}

fn write_others(alloc: Global, frames: &[Frame]) -> Result<List<Json>, AllocError>
    ensures { IfOk result (λ trees. trees ≡ map (tree_of_frame []) frames.now) }
{
    let mut trees = List::with_room(alloc, frames.len())?;
    for frame in frames {
        trees.push(write_other(alloc, frame)?)?;
    }
    Ok(trees)
}

/// The member that an entry of the first frame is, among the other frames.
fn write_entry(alloc: Global, entry: &Entry, others: &[Frame]) -> Result<Member, AllocError>
    ensures { IfOk result (λ m. m ≡ member_of (map (tree_of_frame []) others.now) entry.now) }
{
    let key = entry.key.copy(alloc)?;
    if is_place(&entry.value) {
        let trees = write_others(alloc, others)?;
        Ok(Member {
            key,
            value: Json::List(trees),
        })
    } else {
        let value = write_value(alloc, &entry.value)?;
        Ok(Member { key, value })
    }
}

fn write_first(alloc: Global, frame: &Frame, others: &[Frame]) -> Result<Json, AllocError>
    ensures { IfOk result
        (λ tree. tree ≡ tree_of_frame (map (tree_of_frame []) others.now) frame.now) }
{
    let entries = frame.entries.as_slice();
    let mut members = List::with_room(alloc, entries.len())?;
    for entry in entries {
        members.push(write_entry(alloc, entry, others)?)?;
    }
    Ok(Json::Object(members))
}

/// The tree of the file, which is the tree that it was read from, if it was read.
pub fn to_json(alloc: Global, file: &FoldFile) -> Result<Json, AllocError>
    requires { IsWritable file.now }
    ensures { IfOk result (λ tree. tree ≡ tree_of_file file.now) }
{
    match file.frames.as_slice() {
        [first, others @ ..] => write_first(alloc, first, others),
        [] => Ok(Json::Null),
    }
}

ghost use Rattle.std.specs.Prelude.{◌≡◌, IfOk};

use crate::tree::{Json, Member};
use fold_base::List;
use std::alloc::{AllocError, Global};

/// An equal tree in memory of its own.
#[cycle(copying)]
pub fn copy(alloc: Global, tree: &Json) -> Result<Json, AllocError>
    ensures { IfOk result (λ made. made ≡ tree.now) }
{
    Ok(match tree {
        Json::Null => Json::Null,
        Json::Truth(is) => Json::Truth(*is),
        Json::Number(text) => Json::Number(text.copy(alloc)?),
        Json::Word(word) => Json::Word(word.copy(alloc)?),
        Json::List(items) => Json::List(copy_items(alloc, items.as_slice())?),
        Json::Object(members) => Json::Object(copy_members(alloc, members.as_slice())?),
    })
}

#[cycle(copying)]
fn copy_items(alloc: Global, items: &[Json]) -> Result<List<Json>, AllocError>
    ensures { IfOk result (λ made. made ≡ items.now) }
{
    let mut made = List::with_room(alloc, items.len())?;
    for item in items {
        made.push(copy(alloc, item)?)?;
    }
    Ok(made)
}

#[cycle(copying)]
fn copy_members(alloc: Global, members: &[Member]) -> Result<List<Member>, AllocError>
    ensures { IfOk result (λ made. made ≡ members.now) }
{
    let mut made = List::with_room(alloc, members.len())?;
    for member in members {
        made.push(Member {
            key: member.key.copy(alloc)?,
            value: copy(alloc, &member.value)?,
        })?;
    }
    Ok(made)
}

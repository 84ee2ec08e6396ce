ghost use Rattle.std.specs.Prelude.{◌≡◌, Bool, true, false, MatchOption, IfOk, IfSome, map};
ghost use Rattle.std.specs.Fmt.{decimal};
ghost use Rattle.json_tree.specs.declared.tree.Json.{Json as Tree, out-Json};
ghost use Rattle.fold_keys.specs.Elements.{is_number, is_id, is_word, is_null_layer, or_null, id_in, id_in_text};
ghost use Rattle.fold_keys.specs.Trees.{tree_of_number, tree_of_id, tree_of_word, tree_or_null};
ghost use Rattle.fold_keys.specs.Reading.{AnswersMembers};

use crate::element::ElementFault;
use crate::fault::ShapeKind;
use crate::spelling::spelled_id;
use fold_base::{List, Text};
use json_tree::{Json, NumberText};
use std::alloc::{AllocError, Global};
use std::marker::PhantomData;

/// A kind of value without parts: a number, a word or an id, or one of these or null.
pub trait MemberKind {
    type Member: Drop;

    // whether a tree is of this kind
    ghost passes: { Tree → Bool };

    ghost tree_of: { Self.Member → Tree };

    /// What the tree is, if it is of this kind. Its text is moved.
    fn read(tree: Json) -> Option<Self::Member>
        ensures { MatchOption result (passes tree ≡ false)
            (λ read. (tree_of read ≡ tree) × (passes tree ≡ true)) };

    /// Its tree again.
    fn write(alloc: Global, member: &Self::Member) -> Result<Json, AllocError>
        ensures { IfOk result (λ tree. tree ≡ tree_of member.now) };

    fn copy(alloc: Global, member: &Self::Member) -> Result<Self::Member, AllocError>
        ensures { IfOk result (λ made. made ≡ member.now) };
}

/// Numbers as they are spelled.
pub struct Numbers;

impl MemberKind for Numbers {
    type Member = NumberText;

    ghost passes = { is_number };

    ghost tree_of = { tree_of_number };

    fn read(tree: Json) -> Option<NumberText> {
        match tree {
            Json::Number(text) => Some(text),
            _ => None,
        }
    }

    fn write(alloc: Global, member: &NumberText) -> Result<Json, AllocError> {
        Ok(Json::Number(member.copy(alloc)?))
    }

    fn copy(alloc: Global, member: &NumberText) -> Result<NumberText, AllocError> {
        member.copy(alloc)
    }
}

/// Ids: whole numbers below 2^32.
pub struct Ids;

impl MemberKind for Ids {
    type Member = u32;

    ghost passes = { is_id };

    ghost tree_of = { tree_of_id };

    fn read(tree: Json) -> Option<u32> {
        id_in(&tree)
    }

    fn write(alloc: Global, member: &u32) -> Result<Json, AllocError> {
        Ok(Json::Number(spelled_id(alloc, *member)?))
    }

    fn copy(_alloc: Global, member: &u32) -> Result<u32, AllocError> {
        Ok(*member)
    }
}

/// Words.
pub struct Words;

impl MemberKind for Words {
    type Member = Text;

    ghost passes = { is_word };

    ghost tree_of = { tree_of_word };

    fn read(tree: Json) -> Option<Text> {
        match tree {
            Json::Word(text) => Some(text),
            _ => None,
        }
    }

    fn write(alloc: Global, member: &Text) -> Result<Json, AllocError> {
        Ok(Json::Word(member.copy(alloc)?))
    }

    fn copy(alloc: Global, member: &Text) -> Result<Text, AllocError> {
        member.copy(alloc)
    }
}

/// What is of the kind `M`, or null.
pub struct OrNull<M> {
    kind: PhantomData<M>,
}

impl<M: MemberKind> MemberKind for OrNull<M> {
    type Member = Option<M::Member>;

    ghost passes = { or_null M.passes };

    ghost tree_of = { tree_or_null M.tree_of };

    fn read(tree: Json) -> Option<Option<M::Member>> {
        if is_null(&tree) {
            Some(None)
        } else {
            M::read(tree).map(Some)
        }
    }

    fn write(alloc: Global, member: &Option<M::Member>) -> Result<Json, AllocError> {
        match member {
            Some(member) => M::write(alloc, member),
            None => Ok(Json::Null),
        }
    }

    fn copy(alloc: Global, member: &Option<M::Member>) -> Result<Option<M::Member>, AllocError> {
        match member {
            Some(member) => Ok(Some(M::copy(alloc, member)?)),
            None => Ok(None),
        }
    }
}

/// What is of the kind `M`, where the type has room for null.
pub struct Present<M> {
    kind: PhantomData<M>,
}

impl<M: MemberKind> MemberKind for Present<M> {
    type Member = Option<M::Member>;

    ghost passes = { M.passes };

    ghost tree_of = { tree_or_null M.tree_of };

    fn read(tree: Json) -> Option<Option<M::Member>> {
        M::read(tree).map(Some)
    }

    fn write(alloc: Global, member: &Option<M::Member>) -> Result<Json, AllocError> {
        OrNull::<M>::write(alloc, member)
    }

    fn copy(alloc: Global, member: &Option<M::Member>) -> Result<Option<M::Member>, AllocError> {
        OrNull::<M>::copy(alloc, member)
    }
}

fn is_null(tree: &Json) -> bool
    ensures { result ≡ is_null_layer (out-Json tree.now) }
{
    match tree {
        Json::Null => true,
        _ => false,
    }
}

/// The id that the tree is, if it is one.
pub fn id_in(tree: &Json) -> Option<u32>
    ensures id { result ≡ id_in tree.now }
    ensures spelled { IfSome result (λ id. tree_of_id id ≡ tree.now) }
{
    match tree {
        Json::Number(text) => id_in_text(text),
        _ => None,
    }
}

// A number's text has no plus and no leading zeros, so what is read as a whole number is spelled in
// its one way.
fn id_in_text(text: &NumberText) -> Option<u32>
    ensures id { result ≡ id_in_text text.now }
    ensures spelled { IfSome result (λ id. decimal id ≡ text.now) }
{
    text.as_str().parse::<u32>().ok()
}

/// The members of a list, moved out of their trees, or that one isn't of the kind.
pub fn read_members<M: MemberKind>(
    alloc: Global,
    items: List<Json>,
) -> Result<List<M::Member>, ElementFault>
    ensures { AnswersMembers M.tree_of M.passes items result }
{
    let mut members = List::with_room(alloc, items.len())?;
    for item in items.into_vec() {
        match M::read(item) {
            Some(member) => members.push(member).map_err(AllocError::from)?,
            None => return Err(ElementFault::Shape(ShapeKind::NotKind)),
        }
    }
    Ok(members)
}

/// The trees of the members.
pub fn write_members<M: MemberKind>(
    alloc: Global,
    members: &[M::Member],
) -> Result<List<Json>, AllocError>
    ensures { IfOk result (λ items. items ≡ map M.tree_of members.now) }
{
    let mut items = List::with_room(alloc, members.len())?;
    for member in members {
        items.push(M::write(alloc, member)?)?;
    }
    Ok(items)
}

pub fn copy_members<M: MemberKind>(
    alloc: Global,
    members: &[M::Member],
) -> Result<List<M::Member>, AllocError>
    ensures { IfOk result (λ made. made ≡ members.now) }
{
    let mut made = List::with_room(alloc, members.len())?;
    for member in members {
        made.push(M::copy(alloc, member)?)
            .map_err(AllocError::from)?;
    }
    Ok(made)
}

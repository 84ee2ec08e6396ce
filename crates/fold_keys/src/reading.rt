ghost use Rattle.std.specs.Prelude.{◌≡◌, ◌≤◌, None, Some, length};
ghost use Rattle.number_rules.specs.Value.{begins_with_minus};
ghost use Rattle.json_tree.specs.declared.tree.Json.{out-Json};
ghost use Rattle.fold_keys.specs.Spec as spec;
ghost use Rattle.json_tree.specs.declared.tree.Json.TheViews as trees;
ghost use Rattle.fold_keys.specs.Elements.{is_truth};
ghost use Rattle.fold_keys.specs.Shape.{of_one, of_list, of_spec};
ghost use Rattle.fold_keys.specs.Trees.{tree_of_number, tree_of_truth, tree_of_all};
ghost use Rattle.fold_keys.specs.Found.{AnswersTree, AnswersValue};
ghost use Rattle.fold_keys.specs.Short.{HasShortList, HasShortNumber};

use crate::element::{
    Coords, ElementKind, Inner, Letters, ListFault, Orders, PairOf, Plain, read_list,
};
use crate::fault::ShapeKind;
use crate::kind::Kind;
use crate::member::{Ids, MemberKind, Numbers, OrNull, Present, Words};
use crate::value::Value;
use fold_base::List;
use json_tree::{Json, NumberText};
use number_rules::read_decimal;
use std::alloc::Global;

/// What is found at a key: a value, or the trees of the other frames, which are read after the last
/// key of the first frame.
#[derive(Debug, Drop)]
pub enum Found {
    Value(Value),
    Frames(List<Json>),
}

/// What the tree is, by the kind of its key, or its first misfit. Its texts are moved.
pub fn read_value(alloc: Global, kind: Option<Kind>, tree: Json) -> Result<Found, ListFault>
    requires list { HasShortList (out-Json tree) }
    requires number { kind ≡ Some Kind.Spec → HasShortNumber (out-Json tree) }
    ensures { AnswersValue kind tree result }
{
    match kind {
        None => Ok(Found::Value(Value::Kept(tree))),
        Some(Kind::Frames) => Ok(Found::Frames(read_trees(tree)?)),
        Some(Kind::Spec) => Ok(Found::Value(Value::Number(read_spec(tree)?))),
        Some(Kind::Word) => Ok(Found::Value(Value::Word(read_one::<Words>(tree)?))),
        Some(Kind::Id) => Ok(Found::Value(Value::Id(read_one::<Ids>(tree)?))),
        Some(Kind::Truth) => Ok(Found::Value(Value::Truth(read_truth(tree)?))),
        Some(Kind::Words) => Ok(Found::Value(Value::Words(read_items::<Plain<Words>>(
            alloc, tree,
        )?))),
        Some(Kind::Coords) => Ok(Found::Value(Value::Coords(read_items::<Coords>(alloc, tree)?))),
        Some(Kind::Exact) => Ok(Found::Value(Value::Exact(read_items::<PairOf<Words>>(
            alloc, tree,
        )?))),
        Some(Kind::IdLists(_)) => Ok(Found::Value(Value::IdLists(read_items::<Inner<Present<Ids>>>(
            alloc, tree,
        )?))),
        Some(Kind::FaceLists) => Ok(Found::Value(Value::IdLists(read_items::<Inner<OrNull<Ids>>>(
            alloc, tree,
        )?))),
        Some(Kind::Pairs) => Ok(Found::Value(Value::Pairs(read_items::<PairOf<Ids>>(
            alloc, tree,
        )?))),
        Some(Kind::Letters) => Ok(Found::Value(Value::Letters(read_items::<Letters>(
            alloc, tree,
        )?))),
        Some(Kind::Numbers) => Ok(Found::Value(Value::Numbers(read_items::<Plain<OrNull<Numbers>>>(
            alloc, tree,
        )?))),
        Some(Kind::Orders) => Ok(Found::Value(Value::Orders(read_items::<Orders>(alloc, tree)?))),
    }
}

/// The elements of the list that the tree is.
fn read_items<K: ElementKind>(alloc: Global, tree: Json) -> Result<List<K::Element>, ListFault>
    requires { HasShortList (out-Json tree) }
    ensures { AnswersTree (tree_of_all K.tree_of) (of_list K.misfit) tree result }
{
    match tree {
        Json::List(items) => read_list::<K>(alloc, items),
        _ => Err(ListFault::Shape(0, ShapeKind::NotKind)),
    }
}

/// The member that the tree is.
fn read_one<M: MemberKind>(tree: Json) -> Result<M::Member, ListFault>
    ensures { AnswersTree M.tree_of (of_one M.passes) tree result }
{
    M::read(tree).ok_or(ListFault::Shape(0, ShapeKind::NotKind))
}

/// The trees of the list that the tree is.
fn read_trees(tree: Json) -> Result<List<Json>, ListFault>
    ensures { AnswersTree trees.List (of_list (λ item. None)) tree result }
{
    match tree {
        Json::List(items) => Ok(items),
        _ => Err(ListFault::Shape(0, ShapeKind::NotKind)),
    }
}

fn read_truth(tree: Json) -> Result<bool, ListFault>
    ensures { AnswersTree tree_of_truth (of_one is_truth) tree result }
{
    match tree {
        Json::Truth(is) => Ok(is),
        _ => Err(ListFault::Shape(0, ShapeKind::NotKind)),
    }
}

/// The number, unless it is above the version that is read.
fn read_spec(tree: Json) -> Result<NumberText, ListFault>
    requires { HasShortNumber (out-Json tree) }
    ensures { AnswersTree tree_of_number of_spec tree result }
{
    match tree {
        Json::Number(text) => match is_above_spec(&text) {
            true => Err(ListFault::Shape(0, ShapeKind::Spec)),
            false => Ok(text),
        },
        _ => Err(ListFault::Shape(0, ShapeKind::NotKind)),
    }
}

/// Whether the number is above the last version that is read, 1.2, when it is rounded to 18
/// decimals.
fn is_above_spec(text: &NumberText) -> bool
    requires { length text.now ≤ 16777216 }
    ensures { result ≡ spec.is_above_spec text.now }
{
    if begins_with_minus(text.bytes()) {
        return false;
    }
    let decimal = read_decimal(text);
    decimal.far || decimal.near > LAST_VERSION
}

/// 1.2 in steps of 10^-18.
const LAST_VERSION: i128 = 1_200_000_000_000_000_000;

fn begins_with_minus(bytes: &[u8]) -> bool
    ensures { result ≡ begins_with_minus bytes.now }
{
    match bytes {
        [first, ..] => *first == b'-',
        [] => false,
    }
}

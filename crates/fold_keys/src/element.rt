ghost use Rattle.std.specs.Prelude.{◌≡◌, ◌≢◌, ◌<◌, ◌^◌, [], ◌∷◌, map, true, false, Option as Maybe, None, Some, length, IfOk, MatchOption, MatchResult};
ghost use Rattle.std.specs.List.{list_all};
ghost use Rattle.std.specs.Fmt.{signed_decimal};
ghost use Rattle.fold_base.specs.Letter.{spelling};
ghost use Rattle.json_tree.specs.declared.tree.Json.{Json as Tree, out-Json};
ghost use Rattle.json_tree.specs.declared.tree.Json.TheViews as trees;
ghost use Rattle.fold_keys.specs.declared.fault.ShapeKind.{ShapeKind as Cause};
ghost use Rattle.fold_keys.specs.Elements.{is_letter, is_side, misfit_of_plain, misfit_of_all, misfit_of_coords, misfit_of_pair, misfit_of_letter, misfit_of_order, misfit_of_order_members, misfit_of_side_layer};
ghost use Rattle.fold_keys.specs.Trees.{tree_of_number, tree_of_all, tree_of_pair, tree_of_letter, tree_of_side, tree_of_order};
ghost use Rattle.fold_keys.specs.Reading.{Answers, AnswersList};

use crate::fault::ShapeKind;
use crate::member::{Ids, MemberKind, Numbers, copy_members, id_in, read_members, write_members};
use crate::spelling::spelled_side;
use crate::value::FaceOrder;
use fold_base::{Letter, List, Text};
use json_tree::{Json, NumberText};
use std::alloc::{AllocError, Global};
use std::marker::PhantomData;

/// Why an element can't be read.
#[derive(Clone, Copy, Debug, PartialEq, Eq)]
pub enum ElementFault {
    Shape(ShapeKind),
    Memory(AllocError),
}

impl From<AllocError> for ElementFault {
    ghost use Rattle.std.specs.Prelude.{◌≡◌};
    ghost use Rattle.fold_keys.specs.declared.element.ElementFault.TheVariants.{Memory};

    ghost from_gives = { λ e f. f ≡ Memory e };

    fn from(error: AllocError) -> ElementFault {
        ElementFault::Memory(error)
    }
}

/// Why a list can't be read: its first misfit, by the place of the element.
#[derive(Clone, Copy, Debug, PartialEq, Eq)]
pub enum ListFault {
    Shape(u32, ShapeKind),
    Memory(AllocError),
}

impl From<AllocError> for ListFault {
    ghost use Rattle.std.specs.Prelude.{◌≡◌};
    ghost use Rattle.fold_keys.specs.declared.element.ListFault.TheVariants.{Memory};

    ghost from_gives = { λ e f. f ≡ Memory e };

    fn from(error: AllocError) -> ListFault {
        ListFault::Memory(error)
    }
}

/// A kind of element of the lists that stand at keys.
pub trait ElementKind {
    type Element: Drop;

    // the cause why a tree isn't of this kind, if it isn't
    ghost misfit: { Tree → Maybe Cause };

    ghost tree_of: { Self.Element → Tree };

    /// What the tree is, or the cause why it isn't of this kind. Its texts are moved.
    fn read(alloc: Global, tree: Json) -> Result<Self::Element, ElementFault>
        ensures { Answers tree_of misfit tree result };

    /// Its tree again.
    fn write(alloc: Global, element: &Self::Element) -> Result<Json, AllocError>
        ensures { IfOk result (λ tree. tree ≡ tree_of element.now) };

    fn copy(alloc: Global, element: &Self::Element) -> Result<Self::Element, AllocError>
        ensures { IfOk result (λ made. made ≡ element.now) };
}

/// The elements of a list, or its first misfit.
pub fn read_list<K: ElementKind>(
    alloc: Global,
    items: List<Json>,
) -> Result<List<K::Element>, ListFault>
    requires { length items < 2 ^ 32 }
    ensures { AnswersList K.tree_of K.misfit items result }
{
    let mut elements = List::with_room(alloc, items.len())?;
    for item in items.into_vec() {
        match K::read(alloc, item) {
            Ok(element) => elements.push(element).map_err(AllocError::from)?,
            Err(ElementFault::Shape(cause)) => return Err(ListFault::Shape(
                elements.len() as u32,
                cause,
            )),
            Err(ElementFault::Memory(error)) => return Err(ListFault::Memory(error)),
        }
    }
    Ok(elements)
}

/// The tree of a list of elements.
pub fn write_list<K: ElementKind>(
    alloc: Global,
    elements: &List<K::Element>,
) -> Result<Json, AllocError>
    ensures { IfOk result (λ tree. tree ≡ trees.List (map K.tree_of elements.now)) }
{
    let mut items = List::with_room(alloc, elements.len())?;
    for element in elements.as_slice() {
        items.push(K::write(alloc, element)?)?;
    }
    Ok(Json::List(items))
}

pub fn copy_list<K: ElementKind>(
    alloc: Global,
    elements: &List<K::Element>,
) -> Result<List<K::Element>, AllocError>
    ensures { IfOk result (λ made. made ≡ elements.now) }
{
    let mut made = List::with_room(alloc, elements.len())?;
    for element in elements.as_slice() {
        made.push(K::copy(alloc, element)?)
            .map_err(AllocError::from)?;
    }
    Ok(made)
}

/// An element that is a member itself.
pub struct Plain<M> {
    kind: PhantomData<M>,
}

impl<M: MemberKind> ElementKind for Plain<M> {
    type Element = M::Member;

    ghost misfit = { misfit_of_plain M.passes };

    ghost tree_of = { M.tree_of };

    fn read(_alloc: Global, tree: Json) -> Result<M::Member, ElementFault> {
        M::read(tree).ok_or(ElementFault::Shape(ShapeKind::NotKind))
    }

    fn write(alloc: Global, element: &M::Member) -> Result<Json, AllocError> {
        M::write(alloc, element)
    }

    fn copy(alloc: Global, element: &M::Member) -> Result<M::Member, AllocError> {
        M::copy(alloc, element)
    }
}

/// A list of members, of any length.
pub struct Inner<M> {
    kind: PhantomData<M>,
}

impl<M: MemberKind> ElementKind for Inner<M> {
    type Element = List<M::Member>;

    ghost misfit = { misfit_of_all M.passes };

    ghost tree_of = { tree_of_all M.tree_of };

    fn read(alloc: Global, tree: Json) -> Result<List<M::Member>, ElementFault> {
        let Json::List(members) = tree else {
            return Err(ElementFault::Shape(ShapeKind::NotKind));
        };
        read_members::<M>(alloc, members)
    }

    fn write(alloc: Global, element: &List<M::Member>) -> Result<Json, AllocError> {
        Ok(Json::List(write_members::<M>(alloc, element.as_slice())?))
    }

    fn copy(alloc: Global, element: &List<M::Member>) -> Result<List<M::Member>, AllocError> {
        copy_members::<M>(alloc, element.as_slice())
    }
}

/// Coordinates: 2 or 3 numbers.
pub struct Coords;

impl ElementKind for Coords {
    type Element = List<NumberText>;

    ghost misfit = { misfit_of_coords };

    ghost tree_of = { tree_of_all tree_of_number };

    fn read(alloc: Global, tree: Json) -> Result<List<NumberText>, ElementFault> {
        let Json::List(numbers) = tree else {
            return Err(ElementFault::Shape(ShapeKind::NotKind));
        };
        if numbers.len() != 2 && numbers.len() != 3 {
            return Err(ElementFault::Shape(ShapeKind::Length));
        }
        read_members::<Numbers>(alloc, numbers)
    }

    fn write(alloc: Global, element: &List<NumberText>) -> Result<Json, AllocError> {
        Inner::<Numbers>::write(alloc, element)
    }

    fn copy(alloc: Global, element: &List<NumberText>) -> Result<List<NumberText>, AllocError> {
        Inner::<Numbers>::copy(alloc, element)
    }
}

/// Two members of one kind.
pub struct PairOf<M> {
    kind: PhantomData<M>,
}

impl<M: MemberKind> ElementKind for PairOf<M> {
    type Element = (M::Member, M::Member);

    ghost misfit = { misfit_of_pair M.passes };

    ghost tree_of = { tree_of_pair M.tree_of };

    fn read(_alloc: Global, tree: Json) -> Result<(M::Member, M::Member), ElementFault> {
        let Json::List(members) = tree else {
            return Err(ElementFault::Shape(ShapeKind::NotKind));
        };
        match two_of(members) {
            Some((first, second)) => read_pair::<M>(first, second).ok_or(ElementFault::Shape(
                ShapeKind::NotKind,
            )),
            None => Err(ElementFault::Shape(ShapeKind::Length)),
        }
    }

    fn write(alloc: Global, element: &(M::Member, M::Member)) -> Result<Json, AllocError> {
        let mut items = List::with_room(alloc, 2)?;
        items.push(M::write(alloc, &element.0)?)?;
        items.push(M::write(alloc, &element.1)?)?;
        Ok(Json::List(items))
    }

    fn copy(
        alloc: Global,
        element: &(M::Member, M::Member),
    ) -> Result<(M::Member, M::Member), AllocError> {
        let first = M::copy(alloc, &element.0)?;
        let second = M::copy(alloc, &element.1)?;
        Ok((first, second))
    }
}

/// The items of a list of two.
fn two_of(items: List<Json>) -> Option<(Json, Json)>
    ensures { MatchOption result (length items ≢ 2) (λ pair. items ≡ pair.0 ∷ pair.1 ∷ []) }
{
    if items.len() != 2 {
        return None;
    }
    let mut items = items;
    let second = items.pop()?;
    let first = items.pop()?;
    Some((first, second))
}

fn read_pair<M: MemberKind>(first: Json, second: Json) -> Option<(M::Member, M::Member)>
    ensures { MatchOption result (list_all M.passes (first ∷ second ∷ []) ≡ false)
        (λ pair. (tree_of_pair M.tree_of pair ≡ trees.List (first ∷ second ∷ []))
        × (list_all M.passes (first ∷ second ∷ []) ≡ true)) }
{
    let first = M::read(first)?;
    let second = M::read(second)?;
    Some((first, second))
}

/// Letters.
pub struct Letters;

impl ElementKind for Letters {
    type Element = Letter;

    ghost misfit = { misfit_of_letter };

    ghost tree_of = { tree_of_letter };

    fn read(_alloc: Global, tree: Json) -> Result<Letter, ElementFault> {
        let Json::Word(word) = tree else {
            return Err(ElementFault::Shape(ShapeKind::NotKind));
        };
        letter_of(&word).ok_or(ElementFault::Shape(ShapeKind::Letter))
    }

    fn write(alloc: Global, element: &Letter) -> Result<Json, AllocError> {
        Ok(Json::Word(Text::from_ascii(alloc, &[element.spelling()])?))
    }

    fn copy(_alloc: Global, element: &Letter) -> Result<Letter, AllocError> {
        Ok(*element)
    }
}

/// The letter that the word is, if it is one.
fn letter_of(word: &Text) -> Option<Letter>
    ensures { MatchOption result (is_letter word.now ≡ false)
        (λ letter. (spelling letter ∷ [] ≡ word.now) × (is_letter word.now ≡ true)) }
{
    match word.bytes() {
        [byte] => Letter::from_spelling(*byte),
        _ => None,
    }
}

/// Orders of two faces: their ids and a side.
pub struct Orders;

impl ElementKind for Orders {
    type Element = FaceOrder;

    ghost misfit = { misfit_of_order };

    ghost tree_of = { tree_of_order };

    fn read(_alloc: Global, tree: Json) -> Result<FaceOrder, ElementFault> {
        let Json::List(members) = tree else {
            return Err(ElementFault::Shape(ShapeKind::NotKind));
        };
        match members.as_slice() {
            [first, second, side] => read_order(first, second, side).map_err(ElementFault::Shape),
            _ => Err(ElementFault::Shape(ShapeKind::Length)),
        }
    }

    fn write(alloc: Global, element: &FaceOrder) -> Result<Json, AllocError> {
        let mut items = List::with_room(alloc, 3)?;
        items.push(Ids::write(alloc, &element.first)?)?;
        items.push(Ids::write(alloc, &element.second)?)?;
        items.push(Json::Number(spelled_side(alloc, element.side)?))?;
        Ok(Json::List(items))
    }

    fn copy(_alloc: Global, element: &FaceOrder) -> Result<FaceOrder, AllocError> {
        Ok(*element)
    }
}

fn read_order(first: &Json, second: &Json, side: &Json) -> Result<FaceOrder, ShapeKind>
    ensures { MatchResult result
        (λ order. (tree_of_order order ≡ trees.List (first.now ∷ second.now ∷ side.now ∷ []))
        × (misfit_of_order_members (first.now ∷ second.now ∷ side.now ∷ []) ≡ None))
        (λ cause. misfit_of_order_members (first.now ∷ second.now ∷ side.now ∷ []) ≡ Some cause) }
{
    let first = id_in(first).ok_or(ShapeKind::NotKind)?;
    let second = id_in(second).ok_or(ShapeKind::NotKind)?;
    let side = read_side(side)?;
    Ok(FaceOrder {
        first,
        second,
        side,
    })
}

fn read_side(tree: &Json) -> Result<i8, ShapeKind>
    ensures { MatchResult result
        (λ side. (tree_of_side side ≡ tree.now) × (misfit_of_side_layer (out-Json tree.now) ≡ None))
        (λ cause. misfit_of_side_layer (out-Json tree.now) ≡ Some cause) }
{
    match tree {
        Json::Number(text) => side_in(text.bytes()).ok_or(ShapeKind::Side),
        _ => Err(ShapeKind::NotKind),
    }
}

/// The side that the text spells, if it is one of the three.
fn side_in(text: &[u8]) -> Option<i8>
    ensures { MatchOption result (is_side text.now ≡ false)
        (λ side. (signed_decimal side ≡ text.now) × (is_side text.now ≡ true)) }
{
    if text == b"1".as_slice() {
        Some(1)
    } else if text == b"-1".as_slice() {
        Some(-1)
    } else if text == b"0".as_slice() {
        Some(0)
    } else {
        None
    }
}

// The texts of coordinates.
ghost use Rattle.std.specs.Prelude.{◌≡◌, ◌↔◌, IsTrue, ◌∷◌, [], map, IfOk, ℕ, ℤ, List as Items};
ghost use Rattle.std.specs.List.{AllByRecursion, AllZip};
ghost use Rattle.json_tree.specs.Number.{IsNumber};
ghost use Rattle.number_rules.specs.ExactText.{AreShort, exact_text_of};
ghost use Rattle.number_rules.specs.Nine.{IsNineText};
ghost use Rattle.crease_input.specs.Files.{HasShortParts, IsNineDecimal, AreNineDecimals, AreNineTexts};

use exact_number::Exact;
use fold_base::{List, Text};
use json_tree::{NumberReadFault, NumberText};
use number_rules::{exact_text, nine_texts, one_nine, print9, round_to_nine};
use scaled_plane::Pair;
use std::alloc::{AllocError, Global};

/// The text of a number that the bytes are known to spell.
pub(crate) fn spelled(bytes: &[u8]) -> &str
    requires { IsNumber bytes.now }
    ensures { result.now ≡ bytes.now }
{
    std::str::from_utf8(bytes).unwrap()
}

/// The number that the bytes are known to spell.
pub(crate) fn number(alloc: Global, bytes: &[u8]) -> Result<NumberText, AllocError>
    requires { IsNumber bytes.now }
    ensures { IfOk result (λ number. number ≡ bytes.now) }
{
    match NumberText::read(alloc, spelled(bytes)) {
        Ok(number) => Ok(number),
        Err(NumberReadFault::Memory(error)) => Err(error),
        Err(NumberReadFault::NoNumber) => unreachable!(),
    }
}

/// The text of a number, rounded to nine decimals.
fn nine_text<N: Exact>(alloc: Global, value: N) -> Result<NumberText, AllocError>
    requires { AreShort (N.parts value) }
    ensures { IfOk result (λ text. IsNineText N.ROOT (N.parts value) text) }
{
    nine_texts();
    let mut room = [0u8; 48];
    let count = print9(value, &mut room);
    number(alloc, &room[..count])
}

fn point_texts<N: Exact>(alloc: Global, point: Pair<N>) -> Result<List<NumberText>, AllocError>
    requires { HasShortParts N.parts point }
    ensures { IfOk result (λ texts. (t : Items ℕ × Items ℕ) × AreNineTexts N.ROOT N.parts point t
        × (texts ≡ t.0 ∷ t.1 ∷ [])) }
{
    let x = nine_text(alloc, point.x)?;
    let y = nine_text(alloc, point.y)?;
    let mut texts = List::with_room(alloc, 2)?;
    texts.push(x).map_err(AllocError::from)?;
    texts.push(y).map_err(AllocError::from)?;
    Ok(texts)
}

/// The texts of points, rounded to nine decimals.
pub(crate) fn nine_texts_of<N: Exact>(
    alloc: Global,
    coords: &[Pair<N>],
) -> Result<List<List<NumberText>>, AllocError>
    requires { AllByRecursion (HasShortParts N.parts) coords.now }
    ensures { IfOk result (λ lists. (texts : Items (Items ℕ × Items ℕ))
        × AllZip (AreNineTexts N.ROOT N.parts) coords.now texts
        × (lists ≡ map (λ t. t.0 ∷ t.1 ∷ []) texts)) }
{
    let mut lists = List::with_room(alloc, coords.len())?;
    for point in coords {
        let texts = point_texts(alloc, *point)?;
        lists.push(texts).map_err(AllocError::from)?;
    }
    Ok(lists)
}

/// Whether rounding to nine decimals changes nothing.
fn is_nine_decimal<N: Exact>(value: N) -> bool
    requires { AreShort (N.parts value) }
    ensures { IsTrue result ↔ IsNineDecimal N.parts value }
{
    one_nine();
    round_to_nine(value).exact
}

/// Whether it changes none of the points.
pub(crate) fn are_nine_decimals<N: Exact>(coords: &[Pair<N>]) -> bool
    requires { AllByRecursion (HasShortParts N.parts) coords.now }
    ensures { IsTrue result ↔ AllByRecursion (AreNineDecimals N.parts) coords.now }
{
    for point in coords {
        if !is_nine_decimal(point.x) || !is_nine_decimal(point.y) {
            return false;
        }
    }
    true
}

/// The exact texts of points.
pub(crate) fn exact_texts<N: Exact>(
    alloc: Global,
    coords: &[Pair<N>],
) -> Result<List<(Text, Text)>, AllocError>
    ensures { IfOk result (λ texts. texts
        ≡ map (λ p. (exact_text_of N.ROOT (N.parts p.x), exact_text_of N.ROOT (N.parts p.y))) coords.now) }
{
    let mut texts = List::with_room(alloc, coords.len())?;
    for point in coords {
        let x = exact_text(alloc, point.x)?;
        let y = exact_text(alloc, point.y)?;
        texts.push((x, y)).map_err(AllocError::from)?;
    }
    Ok(texts)
}

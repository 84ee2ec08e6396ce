// Coordinates by their exact texts.
ghost use Rattle.std.specs.Prelude.{◌≡◌, ◌⊎◌, IfOk};
ghost use Rattle.algebra.specs.LowestTerms.{IsLowest};
ghost use Rattle.number_rules.specs.ExactText.{ReadsExactText};
ghost use Rattle.crease_input.specs.Lines.{AnswersNumber, AnswersPoint};

use crate::fault::{Axis, InputFault};
use exact_number::Exact;
use fold_base::Text;
use number_rules::{Unread, read_exact_text};
use root_two::{Radicand, Three, Two};
use scaled_plane::Pair;

/// The parts that an exact text spells.
fn parts_of<R: Radicand>(text: &Text) -> Result<(i128, i128, i128), Unread>
    ensures text { ReadsExactText R.K (λ t. record { a = t.0; b = t.1; q = t.2 }) text.now result }
    ensures lowest { IfOk result (λ t. IsLowest (record { a = t.0; b = t.1; q = t.2 })) }
{
    let number = read_exact_text::<R>(text)?;
    Ok(number.parts())
}

/// The parts that an exact text of this field spells.
fn parts_in<N: Exact>(text: &Text) -> Result<(i128, i128, i128), Unread>
    requires { (N.ROOT ≡ 2) ⊎ (N.ROOT ≡ 3) }
    ensures text { ReadsExactText N.ROOT (λ t. record { a = t.0; b = t.1; q = t.2 }) text.now result }
    ensures lowest { IfOk result (λ t. IsLowest (record { a = t.0; b = t.1; q = t.2 })) }
{
    if N::ROOT == 3 {
        parts_of::<Three>(text)
    } else {
        parts_of::<Two>(text)
    }
}

/// The number with these parts.
fn number_of<N: Exact>(a: i128, b: i128, q: i128) -> N
    requires root { (N.ROOT ≡ 2) ⊎ (N.ROOT ≡ 3) }
    requires lowest { IsLowest (record { a = a; b = b; q = q }) }
    ensures { N.parts result ≡ record { a = a; b = b; q = q } }
{
    match N::from_parts(a, b, q) {
        Some(number) => number,
        None => unreachable!(),
    }
}

/// The number that an exact text spells.
fn exact_number<N: Exact>(text: &Text) -> Result<N, Unread>
    requires { (N.ROOT ≡ 2) ⊎ (N.ROOT ≡ 3) }
    ensures { ReadsExactText N.ROOT N.parts text.now result }
{
    let (a, b, q) = parts_in::<N>(text)?;
    Ok(number_of(a, b, q))
}

/// A coordinate of this vertex.
fn exact_coordinate<N: Exact>(text: &Text, vertex: u32, axis: Axis) -> Result<N, InputFault>
    requires { (N.ROOT ≡ 2) ⊎ (N.ROOT ≡ 3) }
    ensures { AnswersNumber (ReadsExactText N.ROOT N.parts) text.now vertex axis result }
{
    match exact_number(text) {
        Ok(number) => Ok(number),
        Err(cause) => Err(InputFault::Unread {
            vertex,
            axis,
            cause,
        }),
    }
}

/// A vertex, its x before its y.
pub(crate) fn exact_point<N: Exact>(x: &Text, y: &Text, vertex: u32) -> Result<Pair<N>, InputFault>
    requires { (N.ROOT ≡ 2) ⊎ (N.ROOT ≡ 3) }
    ensures { AnswersPoint (ReadsExactText N.ROOT N.parts) x.now y.now vertex result }
{
    let x = exact_coordinate(x, vertex, Axis::X)?;
    let y = exact_coordinate(y, vertex, Axis::Y)?;
    Ok(Pair { x, y })
}

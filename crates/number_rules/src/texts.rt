ghost use Rattle.std.specs.Prelude.{◌≡◌, ◌++◌, List, ℕ, IfOk, IfSome, IsSome, Some, None, pos, ◌<ℤ◌};
ghost use Rattle.algebra.specs.LowestTerms.{Parts};
ghost use Rattle.root_two.specs.Roots.{root_parts};
ghost use Rattle.number_rules.specs.WholeText.{behind_comma};
ghost use Rattle.number_rules.specs.ExactText.{exact_text_of, root_mark, AreShort, IsOrNotLowest, ReadsExactText};

use crate::unread::Unread;
use crate::whole_text::{read_whole, split_at_comma};
use exact_number::Exact;
use fold_base::Text;
use root_two::{Radicand, Root};
use std::alloc::{AllocError, Global};

/// The text of an exact number: a, b and q of (a+b√K)/q, with a 3 behind them where K is 3.
pub fn exact_text<N: Exact>(alloc: Global, value: N) -> Result<Text, AllocError>
    ensures { IfOk result (λ text. text ≡ exact_text_of N.ROOT (N.parts value)) }
{
    let (a, b, q) = value.parts();
    let text = if N::ROOT == 3 {
        format!(in alloc; "{a},{b},{q},3")?
    } else {
        format!(in alloc; "{a},{b},{q}")?
    };
    Ok(Text::from_string(text))
}

/// The exact number over √K that a text stands for: in lowest terms, in plain digits, and at most 2^92 in each part.
pub fn read_exact_text<R: Radicand>(text: &Text) -> Result<Root<R>, Unread>
    ensures { ReadsExactText R.K root_parts text.now result }
{
    match parts_of_text::<R>(text.bytes()) {
        Some((a, b, q)) if 0 < q => as_it_stands(a, b, q),
        _ => Err(Unread::ExactText),
    }
}

/// (a+b√K)/q, where it's in lowest terms already.
fn as_it_stands<R: Radicand>(a: i128, b: i128, q: i128) -> Result<Root<R>, Unread>
    requires { pos 0 <ℤ q }
    ensures { IsOrNotLowest root_parts (record { a = a; b = b; q = q }) result }
{
    let number = match Root::from_parts(a, b, q) {
        Some(number) => number,
        None => unreachable!(),
    };
    if number.a == a && number.b == b && number.q == q {
        Ok(number)
    } else {
        Err(Unread::ExactText)
    }
}

/// The three parts that a text names, with the mark of √K behind them.
fn parts_of_text<R: Radicand>(bytes: &[u8]) -> Option<(i128, i128, i128)>
    ensures some { IfSome result (λ t. (bytes.now ≡ exact_text_of R.K (record { a = t.0; b = t.1; q = t.2 }))
        × AreShort (record { a = t.0; b = t.1; q = t.2 })) }
    ensures each { (p : Parts) → AreShort p → bytes.now ≡ exact_text_of R.K p
        → result ≡ Some (record { 0 = p.a; 1 = p.b; 2 = p.q }) }
{
    let (a_text, behind_a) = split_at_comma(bytes)?;
    let (b_text, behind_b) = split_at_comma(behind_a)?;
    let q_text = before_mark::<R>(behind_b)?;
    let a = read_whole(a_text)?;
    let b = read_whole(b_text)?;
    let q = read_whole(q_text)?;
    Some((a, b, q))
}

/// What stands before the mark of √K.
fn before_mark<R: Radicand>(bytes: &[u8]) -> Option<&[u8]>
    ensures some { IfSome result (λ front. bytes.now ≡ front.now ++ root_mark R.K) }
    ensures each { (front : List ℕ) → behind_comma front ≡ None → bytes.now ≡ front ++ root_mark R.K
        → IsSome result × IfSome result (λ x. x.now ≡ front) }
{
    if R::K != 3 {
        return Some(bytes);
    }
    let (front, mark) = split_at_comma(bytes)?;
    if mark == b"3".as_slice() {
        Some(front)
    } else {
        None
    }
}

ghost use Rattle.algebra.specs.LowestTerms.{IsNumber};

use crate::descent::sign_of;
use crate::formulas::{cross_difference, cross_sum, rational_difference, rational_sum};
use crate::radicand::{Radicand, Three, Two};
use crate::whole::RootRing;
use exact_number::{Exact, Op, Overflow, lowest_terms, scaled_part};
use std::alloc::AllocError;
use std::cmp::Ordering;
use std::marker::PhantomData;

/// (a+b√K)/q in lowest terms, with q above zero.
#[derive(Copy, PartialEq, Eq, Debug)]
pub struct Root<R: Radicand> {
    pub a: i128,
    pub b: i128,
    pub q: i128,
    of: PhantomData<R>,
    pub ghost lowest: { IsNumber R.K (record { a = a; b = b; q = q }) },
}

pub type RootTwo = Root<Two>;

pub type RootThree = Root<Three>;

impl<R: Radicand> Clone for Root<R> {
    fn clone(&self) -> Result<Root<R>, AllocError> {
        Ok(*self)
    }
}

impl<R: Radicand> Exact for Root<R> {
    ghost use Rattle.std.specs.Prelude.{refl};
    ghost use Rattle.std.proofs.Common.{inr};
    ghost use Rattle.root_two.specs.Roots.{nonsquare, at_most_three, root_parts, root_holds, root_numbers};

    const ROOT: u32 = R::K;

    type Ring = RootRing<R>;

    ghost ROOT = { R.K };

    ghost parts = { root_parts };

    ghost numbers = { root_numbers R.Radicand };

    fn from_parts(a: i128, b: i128, q: i128) -> Option<Root<R>> {
        Some(Root::reduced(a, b, q))
    }

    fn parts(self) -> (i128, i128, i128) {
        (self.a, self.b, self.q)
    }

    fn add(self, other: Root<R>) -> Result<Root<R>, Overflow> {
        let op = Op::Add;
        let a = cross_sum(op, self.a, other.q, other.a, self.q)?;
        let b = cross_sum(op, self.b, other.q, other.b, self.q)?;
        let q = op.product(self.q, other.q)?;
        Ok(Root::reduced(a, b, q))
    }

    fn sub(self, other: Root<R>) -> Result<Root<R>, Overflow> {
        let (a, b, q) = self.difference(other, Op::Sub)?;
        Ok(Root::reduced(a, b, q))
    }

    fn mul(self, other: Root<R>) -> Result<Root<R>, Overflow> {
        let op = Op::Mul;
        let a = rational_sum::<R>(op, self.a, other.a, self.b, other.b)?;
        let b = cross_sum(op, self.a, other.b, other.a, self.b)?;
        let q = op.product(self.q, other.q)?;
        Ok(Root::reduced(a, b, q))
    }

    fn div(self, other: Root<R>) -> Result<Root<R>, Overflow> {
        let (a, b, q) = self.over_norm(other)?;
        if q > 0 {
            Ok(Root::reduced(a, b, q))
        } else {
            let op = Op::Div;
            Ok(Root::reduced(op.negation(a)?, op.negation(b)?, op.negation(q)?))
        }
    }

    fn compare(self, other: Root<R>) -> Result<Ordering, Overflow> {
        let (a, b, _) = self.difference(other, Op::Compare)?;
        Ok(sign_of::<R>(a, b))
    }

    fn sign(self) -> Ordering {
        sign_of::<R>(self.a, self.b)
    }

    fn scale(self, common: i128) -> Option<RootRing<R>> {
        let a = scaled_part(self.a, self.q, common)?;
        let b = scaled_part(self.b, self.q, common)?;
        Some(RootRing::new(a, b))
    }

    ghost holds = { root_holds R.Radicand };

    ghost radicand = { inr (nonsquare R.Radicand) };

    ghost at_most_three = { at_most_three R.Radicand };

    ghost same_root = { refl };
}

impl<R: Radicand> Root<R> {
    ghost use Rattle.std.specs.Prelude.{◌≡◌, pos, ◌<ℤ◌, IfErr};
    ghost use Rattle.std.specs.Result.{OkIff};
    ghost use Rattle.algebra.specs.LowestTerms.{IsReduced, Parts};
    ghost use Rattle.algebra.specs.NumberFormulas.{difference, by_conjugate};
    ghost use Rattle.exact_number.specs.declared.overflow.Op.TheVariants.{Div};
    ghost use Rattle.exact_number.specs.WideForms.{AllFit, root_difference};
    ghost use Rattle.root_two.specs.Roots.{root_parts};
    ghost use Rattle.root_two.specs.Quotients.{over_norm_form};

    /// (a+b√K)/q brought to lowest terms.
    fn reduced(a: i128, b: i128, q: i128) -> Root<R>
        requires { pos 0 <ℤ q }
        ensures { IsReduced (record { a = a; b = b; q = q }) (root_parts result) }
    {
        let (a, b, q) = lowest_terms(a, b, q);
        Root {
            a,
            b,
            q,
            of: PhantomData,
        }
    }

    /// The three whole numbers of a difference, before lowest terms.
    fn difference(self, other: Root<R>, op: Op) -> Result<(i128, i128, i128), Overflow>
        ensures answer { let formula = difference (root_parts self) (root_parts other) in
            OkIff result (AllFit (root_difference (root_parts self) (root_parts other)))
            (record { 0 = formula.a; 1 = formula.b; 2 = formula.q }) }
        ensures overflow { IfErr result (λ e. e.op ≡ op) }
    {
        let a = cross_difference(op, self.a, other.q, other.a, self.q)?;
        let b = cross_difference(op, self.b, other.q, other.b, self.q)?;
        let q = op.product(self.q, other.q)?;
        Ok((a, b, q))
    }

    /// The three whole numbers of a quotient, by the conjugate of `other`: its norm may leave the last one below zero.
    fn over_norm(self, other: Root<R>) -> Result<(i128, i128, i128), Overflow>
        ensures answer { let formula = by_conjugate R.K (root_parts self) (root_parts other) in
            OkIff result (AllFit (over_norm_form R.K (root_parts self) (root_parts other)))
            (record { 0 = formula.a; 1 = formula.b; 2 = formula.q }) }
        ensures overflow { IfErr result (λ e. e.op ≡ Div) }
    {
        let op = Op::Div;
        let norm = rational_difference::<R>(op, other.a, other.a, other.b, other.b)?;
        let a = rational_difference::<R>(op, self.a, other.a, self.b, other.b)?;
        let b = cross_difference(op, self.b, other.a, self.a, other.b)?;
        Ok((
            op.product(a, other.q)?,
            op.product(b, other.q)?,
            op.product(self.q, norm)?,
        ))
    }
}

#[cfg(test)]
mod tests;

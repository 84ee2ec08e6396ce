ghost use Rattle.std.specs.Prelude.{◌≡◌, IfSome, ◌↔◌};
ghost use Rattle.std.specs.declared.cmp.Ordering.TheVariants.{Equal};
ghost use Rattle.half_planes.specs.Bounds.{Place, IsPlace, Holds, IsLower, IsUpper, Lies, Leaves};
ghost use Rattle.half_planes.specs.Intervals.{LiesWithin};
ghost use Rattle.half_planes.specs.Sizes.{AreSmall, IsBoundSize};

use crate::bound::{Bound, gap_sign};
use crate::interval::Interval;
use exact_number::Whole;
use std::cmp::Ordering;

impl<W: Whole> Interval<W> {
    /// All numbers.
    pub fn whole() -> Interval<W>
        ensures { (p : Place W) → LiesWithin W.numbers.ring result p }
    {
        Interval {
            lower: None,
            upper: None,
        }
    }

    /// The numbers that meet the bound too, or none where there are none.
    pub fn narrow(self, bound: Bound<W>) -> Option<Interval<W>>
        requires { IsBoundSize W.pair bound }
        ensures { Leaves W.numbers.ring (λ i p. LiesWithin W.numbers.ring i p)
            (λ p. LiesWithin W.numbers.ring self p × Holds W.numbers.ring bound p) result }
    {
        match bound.slope.sign() {
            Ordering::Greater => {
                let lower = tighter(self.lower, bound);
                Interval::between(Some(lower), self.upper)
            }
            Ordering::Less => {
                let upper = tighter(self.upper, bound);
                Interval::between(self.lower, Some(upper))
            }
            Ordering::Equal => match bound.offset.sign() {
                Ordering::Greater => Some(self),
                Ordering::Equal => None,
                Ordering::Less => None,
            },
        }
    }

    /// The numbers between two bounds, or none where there are none.
    fn between(lower: Option<Bound<W>>, upper: Option<Bound<W>>) -> Option<Interval<W>>
        requires from_below { IfSome lower (IsLower W.numbers.ring) }
        requires from_above { IfSome upper (IsUpper W.numbers.ring) }
        requires small { AreSmall W.pair lower upper }
        ensures { Leaves W.numbers.ring (λ i p. LiesWithin W.numbers.ring i p)
            (λ p. Lies W.numbers.ring lower upper p) result }
    {
        match lower {
            None => Some(Interval { lower: None, upper }),
            Some(first) => match upper {
                None => Some(Interval {
                    lower: Some(first),
                    upper: None,
                }),
                Some(last) => match gap_sign(first, last) {
                    Ordering::Greater => Some(Interval {
                        lower: Some(first),
                        upper: Some(last),
                    }),
                    Ordering::Equal => None,
                    Ordering::Less => None,
                },
            },
        }
    }
}

/// The tighter of two bounds on one side.
fn tighter<W: Whole>(old: Option<Bound<W>>, new: Bound<W>) -> Bound<W>
    requires sloped { ¬ (W.numbers.sign new.slope ≡ Equal) }
    requires one_side { IfSome old (λ f. W.numbers.sign f.slope ≡ W.numbers.sign new.slope) }
    requires old_small { IfSome old (IsBoundSize W.pair) }
    requires new_small { IsBoundSize W.pair new }
    ensures same_side { W.numbers.sign result.slope ≡ W.numbers.sign new.slope }
    ensures small { IsBoundSize W.pair result }
    ensures both { (p : Place W) → IsPlace W.numbers.ring p → (Holds W.numbers.ring result p
        ↔ (IfSome old (λ f. Holds W.numbers.ring f p) × Holds W.numbers.ring new p)) }
{
    let Some(old) = old else {
        return new;
    };
    if gap_sign(new, old) == new.slope.sign() {
        new
    } else {
        old
    }
}

ghost use Rattle.std.specs.Prelude.{◌≡◌, ◌<◌, ◌≤◌, length, IfOk};
ghost use Rattle.number_rules.specs.Rounded.{IsDecimal, IsReadable};
ghost use Rattle.number_rules.specs.Rows.{Reads, denominator_of, tolerance_of};
ghost use Rattle.number_rules.specs.Value.{numerator, denominator};
ghost use Rattle.number_rules.specs.Within.{IsWithin};
ghost use Rattle.number_rules.specs.Kept.{KeepsItsRow};
ghost use Rattle.root_two.specs.Roots.{root_parts};
ghost use Rattle.number_rules.specs.declared.decimal.Decimal.{Decimal};
ghost use Rattle.number_rules.specs.declared.unread.Row.TheVariants.{Exact, Grid, Root};

use crate::decimal::{Decimal, read_decimal};
use crate::unread::{Row, Unread};
use exact_number::Exact as ExactNumber;
use json_tree::NumberText;
use root_two::{RootThree, RootTwo};
use std::marker::PhantomData;

/// 1, in steps.
const ONE: u128 = 1_000_000_000_000_000_000;

/// A row of the table of rules, and a function of the caller's that reads by it.
#[derive(Drop)]
pub struct NumberRule<N, F> {
    pub row: Row,
    pub call: F,
    number: PhantomData<N>,
    pub ghost above_zero: { 0 < denominator_of row },
    pub ghost at_most_a_million: { denominator_of row ≤ 1000000 },
}

impl<N: ExactNumber, F: Fn(Decimal) -> Result<N, Unread>> NumberRule<N, F> {
    /// What the kept function answers for a number text, read as a decimal.
    pub fn apply(&self, text: &NumberText) -> Result<N, Unread>
        requires keeps { KeepsItsRow N.ROOT N.parts self.now.row (F.pre self.now.call) (F.post self.now.call) }
        requires length { length text.now ≤ 16777216 }
        ensures kept { (d : Decimal) × (IsDecimal text.now d × F.post self.now.call d result) }
        ensures row { (d : Decimal) × (IsDecimal text.now d × Reads N.ROOT N.parts self.now.row d result) }
        ensures within { IfOk result (λ x. IsWithin N.ROOT (N.parts x) (numerator text.now) (denominator text.now) (tolerance_of self.now.row)) }
    {
        let value = read_decimal(text);
        (self.call)(value)
    }

    /// How far an answer may lie from the text's value, in steps of 10^-18.
    pub fn tolerance(&self) -> u128
        ensures { result ≡ tolerance_of self.now.row }
    {
        match self.row {
            Row::Exact => 0,
            Row::Grid(n) => ONE.div_ceil(2 * u128::from(n)) + 1,
            Row::Root(_) => 100_000_000_000 + 1,
        }
    }
}

/// The rule `exact`, by a function that reads by it: a text's own value. A text is refused as `Fine` where that is no whole
/// number of 10^-18, and as `Far` where it is past 2^62 in size, rounded to 18 decimals, or its numerator in lowest terms is.
pub fn exact_rule<N: ExactNumber, F: Fn(Decimal) -> Result<N, Unread>>(call: F) -> NumberRule<N, F>
    requires { KeepsItsRow N.ROOT N.parts Exact (F.pre call) (F.post call) }
    ensures row { result.row ≡ Exact }
    ensures call { result.call ≡ call }
    ensures keeps { KeepsItsRow N.ROOT N.parts result.row (F.pre result.call) (F.post result.call) }
{
    NumberRule {
        row: Row::Exact,
        call,
        number: PhantomData,
    }
}

/// The rule `grid:n`, by a function that reads by it: of a text's value, rounded to 18 decimals, the nearest multiple of 1/n,
/// halves upwards. A text is refused as `Far` past 2^30 in size.
pub fn grid_rule<N: ExactNumber, F: Fn(Decimal) -> Result<N, Unread>>(
    n: u32,
    call: F,
) -> NumberRule<N, F>
    requires range { (0 < n) × (n ≤ 1000000) }
    requires keeps { KeepsItsRow N.ROOT N.parts (Grid n) (F.pre call) (F.post call) }
    ensures row { result.row ≡ Grid n }
    ensures call { result.call ≡ call }
    ensures keeps { KeepsItsRow N.ROOT N.parts result.row (F.pre result.call) (F.post result.call) }
{
    NumberRule {
        row: Row::Grid(n),
        call,
        number: PhantomData,
    }
}

/// The rule `root2:n`, by a function that reads by it: the first (a+b√2)/n, by b in 0, 1, -1, 2, .. up to 1,024 in size, that
/// lies at most 10^-7 from a text's value, rounded to 18 decimals. A text is refused as `Far` past 2^30 in size, and as
/// `NoRoot` where there's no such number.
pub fn root_two_rule<F: Fn(Decimal) -> Result<RootTwo, Unread>>(
    n: u32,
    call: F,
) -> NumberRule<RootTwo, F>
    requires range { (0 < n) × (n ≤ 1000000) }
    requires keeps { KeepsItsRow 2 root_parts (Root n) (F.pre call) (F.post call) }
    ensures row { result.row ≡ Root n }
    ensures call { result.call ≡ call }
    ensures keeps { KeepsItsRow 2 root_parts result.row (F.pre result.call) (F.post result.call) }
{
    NumberRule {
        row: Row::Root(n),
        call,
        number: PhantomData,
    }
}

/// The rule `root3:n`, by a function that reads by it: as `root2:n`, with (a+b√3)/n.
pub fn root_three_rule<F: Fn(Decimal) -> Result<RootThree, Unread>>(
    n: u32,
    call: F,
) -> NumberRule<RootThree, F>
    requires range { (0 < n) × (n ≤ 1000000) }
    requires keeps { KeepsItsRow 3 root_parts (Root n) (F.pre call) (F.post call) }
    ensures row { result.row ≡ Root n }
    ensures call { result.call ≡ call }
    ensures keeps { KeepsItsRow 3 root_parts result.row (F.pre result.call) (F.post result.call) }
{
    NumberRule {
        row: Row::Root(n),
        call,
        number: PhantomData,
    }
}

//! Numbers to compute with, the same in each run.
use exact_number::Exact;
use number_rules::Decimal;
use rational::Rational;
use root_two::{Radicand, RootTwo};
use std::alloc::{AllocError, Global};

/// How many pairs of parts, decimals and numbers with roots: enough that no branch is foretold from the round before.
const MANY: u32 = 65_536;

const ONE: i128 = 1_000_000_000_000_000_000;

/// √2, in steps of 10^-18.
const ROOT: i128 = 1_414_213_562_373_095_048;

/// The next number of a linear congruence.
fn next(state: u64) -> u64 {
    state
        .wrapping_mul(6_364_136_223_846_793_005)
        .wrapping_add(1_442_695_040_888_963_407)
}

/// Rationals with numerators and denominators of 40 bits.
pub fn rationals(alloc: Global) -> Result<Vec<Rational>, AllocError> {
    let mut numbers = Vec::with_capacity(alloc, 1024)?;
    let mut state: u64 = 1;
    for _ in 0..1024 {
        state = next(state);
        let numerator = (state >> 24) as i128 - (1 << 39);
        state = next(state);
        let denominator = (state >> 24) as i128 + 1;
        if let Some(number) = Rational::from_parts(numerator, 0, denominator) {
            numbers.push(number)?;
        }
    }
    Ok(numbers)
}

/// Parts of 60 bits.
pub fn pairs(alloc: Global) -> Result<Vec<(i128, i128)>, AllocError> {
    let mut pairs = Vec::with_capacity(alloc, MANY as usize)?;
    let mut state: u64 = 1;
    for _ in 0..MANY {
        state = next(state);
        let a = (state >> 4) as i128 - (1 << 59);
        state = next(state);
        pairs.push((a, (state >> 4) as i128 - (1 << 59)))?;
    }
    Ok(pairs)
}

/// Parts of 60 bits with a+b√K between -1 and 1.
pub fn near_ties<R: Radicand>(alloc: Global) -> Result<Vec<(i128, i128)>, AllocError> {
    // √K in steps of 2^-60
    let root: i128 = if R::K == 2 {
        1_630_477_228_166_597_776
    } else {
        1_996_918_623_117_814_387
    };
    let mut pairs = Vec::with_capacity(alloc, MANY as usize)?;
    let mut state: u64 = 1;
    for _ in 0..MANY {
        state = next(state);
        let b = (state >> 5) as i128 - (1 << 58);
        let a = (b.wrapping_mul(root) >> 60).wrapping_neg();
        pairs.push((a, b))?;
    }
    Ok(pairs)
}

/// Decimals: of each four one is whole, one near to no small a+b√2, and two are near to one, with b of up to 1,000 in size.
pub fn decimals(alloc: Global) -> Result<Vec<Decimal>, AllocError> {
    let mut values = Vec::with_capacity(alloc, MANY as usize)?;
    let mut state: u64 = 1;
    for i in 0..MANY {
        state = next(state);
        let whole = (state >> 54) as i128 - 512;
        state = next(state);
        let near = match i % 4 {
            0 => whole * ONE,
            1 => whole * ONE + (state >> 35) as i128 * 1_000_000_000,
            _ => nine_decimals(whole * ONE + (((state >> 32) % 2001) as i128 - 1000) * ROOT),
        };
        values.push(Decimal {
            far: false,
            near,
            exact: true,
        })?;
    }
    Ok(values)
}

/// Cut to nine decimals.
fn nine_decimals(near: i128) -> i128 {
    near / 1_000_000_000 * 1_000_000_000
}

/// Numbers a+b√2 over a denominator, with parts of 40 bits.
pub fn roots(alloc: Global) -> Result<Vec<RootTwo>, AllocError> {
    let mut numbers = Vec::with_capacity(alloc, MANY as usize)?;
    let mut state: u64 = 1;
    for _ in 0..MANY {
        state = next(state);
        let a = (state >> 24) as i128 - (1 << 39);
        state = next(state);
        let b = (state >> 24) as i128 - (1 << 39);
        state = next(state);
        if let Some(number) = RootTwo::from_parts(a, b, (state >> 24) as i128 + 1) {
            numbers.push(number)?;
        }
    }
    Ok(numbers)
}

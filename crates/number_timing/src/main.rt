//! Computes with many exact numbers and prints a checksum, for a clock outside. `number_timing add 1000` adds in a thousand
//! rounds, each of 1,024 pairs of rationals. The other operations are the words of `checksum`.
#![tactic(auto)]

mod samples;

use exact_number::{Exact, Whole};
use number_rules::{print9, read_exact, read_grid, read_root_two};
use rational::Rational;
use root_two::{Radicand, RootRing, RootTwo, Three, Two};
use std::alloc::{AllocError, Global};
use std::cmp::Ordering;
use std::{env, io};

fn main(rt: HostRuntime) -> io::Result<()> {
    let mut words = env::args(&rt)?.skip(1);
    let operation = words.next();
    let rounds = match words.next() {
        Some(word) => word.as_str().parse::<u32>().unwrap_or(0),
        None => 0,
    };
    let sum = match operation {
        Some(word) => checksum(rt.alloc(), word.as_str(), rounds)?,
        None => 0,
    };
    println!(rt; "{sum}")
}

fn checksum(alloc: Global, operation: &str, rounds: u32) -> Result<i128, AllocError> {
    match operation {
        "add" | "mul" | "compare" => over_rationals(alloc, operation, rounds),
        "read_exact" | "read_grid" | "read_root_two" => over_decimals(alloc, operation, rounds),
        "sign" => over_signs::<Two>(&samples::pairs(alloc)?, rounds),
        "sign3" => over_signs::<Three>(&samples::pairs(alloc)?, rounds),
        "ties" => over_signs::<Two>(&samples::near_ties::<Two>(alloc)?, rounds),
        "ties3" => over_signs::<Three>(&samples::near_ties::<Three>(alloc)?, rounds),
        "print9" => Ok(over(&samples::roots(alloc)?, rounds, text_of)),
        _ => Ok(0),
    }
}

fn over_rationals(alloc: Global, operation: &str, rounds: u32) -> Result<i128, AllocError> {
    let numbers = samples::rationals(alloc)?;
    Ok(match operation {
        "add" => over_pairs(
            &numbers,
            rounds,
            |x, y| parts_of(x.add(y).map(|z| z.parts())),
        ),
        "mul" => over_pairs(
            &numbers,
            rounds,
            |x, y| parts_of(x.mul(y).map(|z| z.parts())),
        ),
        _ => over_pairs(&numbers, rounds, |x, y| order_of(x.compare(y))),
    })
}

fn over_decimals(alloc: Global, operation: &str, rounds: u32) -> Result<i128, AllocError> {
    let values = samples::decimals(alloc)?;
    Ok(match operation {
        "read_exact" => over(&values, rounds, |x| {
            parts_of(read_exact::<Rational>(x).map(|y| y.parts()))
        }),
        "read_grid" => over(&values, rounds, |x| {
            parts_of(read_grid::<Rational>(1000, x).map(|y| y.parts()))
        }),
        _ => over(
            &values,
            rounds,
            |x| parts_of(read_root_two(1, x).map(|y| y.parts())),
        ),
    })
}

fn over_signs<R: Radicand>(pairs: &[(i128, i128)], rounds: u32) -> Result<i128, AllocError> {
    Ok(over(pairs, rounds, |(a, b)| {
        match RootRing::<R>::from_pair(a, b) {
            Some(number) => code_of(number.sign()),
            None => 1,
        }
    }))
}

/// Goes over all items in each round.
fn over<T: Copy, F: Fn(T) -> i128>(items: &[T], rounds: u32, operation: F) -> i128
    requires { F.IsAlwaysCallable operation }
{
    let mut sum: i128 = 0;
    for _ in 0..rounds {
        for item in items {
            sum = sum.wrapping_mul(31).wrapping_add(operation(*item));
        }
    }
    sum
}

/// Goes over all numbers in each round, with another first one.
fn over_pairs<F: Fn(Rational, Rational) -> i128>(
    numbers: &[Rational],
    rounds: u32,
    operation: F,
) -> i128
    requires { F.IsAlwaysCallable operation }
{
    let mut sum: i128 = 0;
    for round in 0..rounds as usize {
        let Some(first) = numbers.get(round % 1024) else {
            return 0;
        };
        for second in numbers {
            sum = sum
                .wrapping_mul(31)
                .wrapping_add(operation(*first, *second));
        }
    }
    sum
}

/// The last bytes and the length of a number's text.
fn text_of(number: RootTwo) -> i128 {
    let (a, b, q) = number.parts();
    let most = 1u128 << 92;
    if a.unsigned_abs() > most || b.unsigned_abs() > most || q.unsigned_abs() > most {
        return 1;
    }
    let mut room = [0u8; 48];
    let count = print9(number, &mut room);
    i128::from(room[2]).wrapping_add(count as i128)
}

fn parts_of<E>(number: Result<(i128, i128, i128), E>) -> i128
where
    E: Drop,
{
    match number {
        Ok((a, b, q)) => a.wrapping_mul(7).wrapping_add(q).wrapping_sub(b),
        Err(_) => 1,
    }
}

fn order_of<E>(order: Result<Ordering, E>) -> i128
where
    E: Drop,
{
    match order {
        Ok(order) => code_of(order),
        Err(_) => 1,
    }
}

fn code_of(order: Ordering) -> i128 {
    3 + i128::from(order.is_gt()) - i128::from(order.is_lt())
}

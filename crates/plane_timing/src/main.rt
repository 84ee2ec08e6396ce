//! Asks many questions about points of the plane and prints a checksum of the answers, for a clock outside.
//! `plane_timing rational orient 1000` goes a thousand times over its points; the other questions are `compare`, of points
//! where lines cross, and `meet`, of segments; the other numbers are `root`, a+b√2.
#![tactic(auto)]

ghost use Rattle.std.specs.Prelude.{◌≡◌, ◌<◌};

mod points;
mod questions;

use exact_number::Whole;
use points::{crossings, scaled_points, segments};
use questions::{compare_all, meet_all, orient_all};
use rational::RationalRing;
use root_two::RootTwoRing;
use segment_tests::Steps;
use std::alloc::{AllocError, Global};
use std::marker::Brand;
use std::sync::ledger::{Blank, Ledger};
use std::{env, io};

fn main(rt: HostRuntime) -> io::Result<()> {
    let mut words = env::args(&rt)?.skip(1);
    let numbers = words.next();
    let question = words.next();
    let rounds = match words.next() {
        Some(word) => word.as_str().parse::<u32>().unwrap_or(0),
        None => 0,
    };
    let question = match question {
        Some(word) => question_of(word.as_str()),
        None => None,
    };
    let sum = match (numbers, question) {
        (Some(numbers), Some(question)) => {
            checksum(rt.alloc(), numbers.as_str(), question, rounds)?
        }
        _ => 0,
    };
    println!(rt; "{sum}")
}

#[derive(Clone, Copy)]
enum Question {
    Orient,
    Compare,
    Meet,
}

fn question_of(word: &str) -> Option<Question> {
    match word {
        "orient" => Some(Question::Orient),
        "compare" => Some(Question::Compare),
        "meet" => Some(Question::Meet),
        _ => None,
    }
}

fn checksum(
    alloc: Global,
    numbers: &str,
    question: Question,
    rounds: u32,
) -> Result<i128, AllocError> {
    match numbers {
        "rational" => counted::<RationalRing>(alloc, question, rounds),
        "root" => counted::<RootTwoRing>(alloc, question, rounds),
        _ => Ok(0),
    }
}

fn counted<W: Whole>(alloc: Global, question: Question, rounds: u32) -> Result<i128, AllocError> {
    answers::<W, Brand>(alloc, question, rounds, Blank::new(1))
}

fn answers<W: Whole, L: Ledger>(
    alloc: Global,
    question: Question,
    rounds: u32,
    blank: Blank,
) -> Result<i128, AllocError>
    requires name { blank.name ≡ L.name }
    requires parts { blank.parts ≡ L.parts }
    requires some { 0 < L.parts }
{
    let mut steps: Steps<L> = Steps::new(blank);
    match question {
        Question::Orient => Ok(orient_all::<W>(scaled_points(alloc)?.as_slice(), rounds)),
        Question::Compare => {
            let segments = segments::<W>(alloc)?;
            let points = crossings(alloc, segments.as_slice(), &mut steps)?;
            Ok(compare_all(points.as_slice(), rounds))
        }
        Question::Meet => Ok(meet_all(segments::<W>(alloc)?.as_slice(), rounds, &mut steps)),
    }
}

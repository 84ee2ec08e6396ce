//! Cuts the segments of a drawing that it makes itself, and prints how many vertices and pieces there are with a checksum,
//! for a clock outside. `piece_timing grid 256` has 128 lines each way; `random`, `line`, `point`, `all` and
//! `wide` have so many segments at random, along one line, through one point, all crossing in different points, and in
//! bundles of twelve that cross each other along the whole width.
#![tactic(auto)]

ghost use Rattle.std.specs.Prelude.{◌≡◌, pos, ◌<◌, ◌≤◌, ◌<ℤ◌, ◌≤ℤ◌, All, IfSome, IfOk, OnOk};
ghost use Rattle.scaled_plane.specs.Drawn.{IsScaledPoint, IsScaledSegment};

use arrangement::{PieceFault, pieces};
use exact_number::{MOST_SCALED, Whole};
use fold_base::{Letter, List};
use plane::Point;
use rational::RationalRing;
use scaled_plane::{Drawing, Segment};
use segment_tests::Steps;
use std::alloc::{AllocError, Global};
use std::marker::Brand;
use std::sync::ledger::{Blank, Ledger};
use std::{env, io};

/// No drawing has more segments.
const MOST: u32 = 2048;

/// Where a segment begins and ends.
type Way = ((i128, i128), (i128, i128));

/// Pseudo-random numbers.
#[derive(Drop)]
struct Dice {
    state: u64,
}

impl Dice {
    /// A number from 0 on and below this one.
    fn roll(&mut self, below: u64) -> i128
        requires { 0 < below }
        ensures { (pos 0 ≤ℤ result) × (result <ℤ pos below) }
    {
        self.state = self
            .state
            .wrapping_mul(6_364_136_223_846_793_005)
            .wrapping_add(1_442_695_040_888_963_407);
        ((self.state >> 33) % below) as i128
    }
}

fn one<W: Whole>() -> W
    ensures { result ≡ W.numbers.int (pos 1) }
{
    match W::from_pair(1, 0) {
        Some(one) => one,
        None => unreachable!(),
    }
}

fn scaled<W: Whole>(place: (i128, i128)) -> Option<Point<W>>
    ensures { IfSome result (λ p. IsScaledPoint W.numbers p) }
{
    if place.0.unsigned_abs() > MOST_SCALED || place.1.unsigned_abs() > MOST_SCALED {
        return None;
    }
    match W::from_pair(place.0, 0) {
        Some(x) => match W::from_pair(place.1, 0) {
            Some(y) => Some(Point { x, y, w: one() }),
            None => None,
        },
        None => None,
    }
}

fn segment<W: Whole>(way: Way) -> Option<Segment<W>>
    ensures { IfSome result (λ s. IsScaledSegment W.numbers s) }
{
    match scaled(way.0) {
        Some(from) => match scaled(way.1) {
            Some(to) => Some(Segment {
                from,
                to,
                letter: Letter::Mountain,
            }),
            None => None,
        },
        None => None,
    }
}

/// Where the segment of a number lies in a drawing.
fn way(drawing: &str, count: i128, i: i128, dice: &mut Dice) -> Way
    requires from_zero { pos 0 ≤ℤ i }
    requires below { i <ℤ count }
    requires few { count ≤ℤ pos 2048 }
{
    match drawing {
        "grid" => {
            let half = count / 2;
            if i < half {
                ((0, i), (half - 1, i))
            } else {
                ((i - half, 0), (i - half, half - 1))
            }
        }
        "line" => ((i, i), (i + count, i + count)),
        "point" => ((-4000, -i), (4000, i)),
        "all" => ((0, 1000 * i), (4000, dice.roll(512) - 1000 * i)),
        "wide" => {
            let low = 4000 * (i / 12);
            let j = 100 * (i % 12);
            ((0, low + j), (4000, low - j + dice.roll(50)))
        }
        _ => {
            let x = dice.roll(1 << 21);
            let y = dice.roll(1 << 21);
            let right = dice.roll(1 << 19) - (1 << 18);
            let up = dice.roll(1 << 19) - (1 << 18);
            ((x, y), (x + right, y + up))
        }
    }
}

/// Appends a segment, if it's small enough.
fn push_segment<W: Whole>(segments: &mut List<Segment<W>>, way: Way) -> Result<(), AllocError>
    ensures { OnOk result (All (IsScaledSegment W.numbers) segments.old → All (IsScaledSegment W.numbers) segments.new) }
{
    match segment(way) {
        Some(segment) => match segments.push(segment) {
            Ok(()) => Ok(()),
            Err(refused) => Err(AllocError::from(refused)),
        },
        None => Ok(()),
    }
}

/// The segments of a drawing.
fn drawn<W: Whole>(alloc: Global, drawing: &str, count: u32) -> Result<List<Segment<W>>, AllocError>
    requires { count ≤ 2048 }
    ensures { IfOk result (All (IsScaledSegment W.numbers)) }
{
    let mut segments = List::new(alloc);
    let mut dice = Dice { state: 1 };
    for i in 0..count {
        push_segment(
            &mut segments,
            way(drawing, count as i128, i as i128, &mut dice),
        )?;
    }
    Ok(segments)
}

/// The vertices and pieces, and a checksum over them.
fn checksum(drawing: &Drawing<RationalRing>) -> u64 {
    let mut sum: u64 = 0;
    for edge in drawing.edges.as_slice() {
        sum = sum.wrapping_mul(31).wrapping_add(edge.from as u64);
        sum = sum.wrapping_mul(31).wrapping_add(edge.to as u64);
    }
    sum
}

/// The drawing of segments. Nobody reads the count of tests here.
fn cut<W: Whole, L: Ledger>(
    alloc: Global,
    blank: Blank,
    segments: &List<Segment<W>>,
) -> Result<Drawing<W>, PieceFault>
    requires scaled { All (IsScaledSegment W.numbers) segments.now }
    requires name { blank.name ≡ L.name }
    requires parts { blank.parts ≡ L.parts }
    requires some { 0 < L.parts }
{
    let mut steps: Steps<L> = Steps::new(blank);
    pieces(alloc, segments, &mut steps)
}

fn main(rt: HostRuntime) -> io::Result<()> {
    let mut words = env::args(&rt)?.skip(1);
    let drawing = words.next();
    let count = match words.next() {
        Some(word) => word.as_str().parse::<u32>().unwrap_or(0),
        None => 0,
    };
    let count = count.min(MOST);
    let segments = match drawing {
        Some(word) => drawn(rt.alloc(), word.as_str(), count)?,
        None => List::new(rt.alloc()),
    };
    match cut::<RationalRing, Brand>(rt.alloc(), Blank::new(1), &segments) {
        Ok(drawing) => {
            let vertices = drawing.vertices.len();
            let edges = drawing.edges.len();
            let sum = checksum(&drawing);
            println!(rt; "{vertices} vertices, {edges} pieces, {sum}")
        }
        Err(PieceFault::TooMany) => println!(rt; "too many"),
        Err(PieceFault::Memory(_)) => println!(rt; "no memory"),
    }
}

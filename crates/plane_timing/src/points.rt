ghost use Rattle.std.specs.Prelude.{IfOk, IfSome, Some, ◌≡◌, ◌≤◌, ◌^◌, All};
ghost use Rattle.algebra.specs.SurdSize.{larger_part};
ghost use Rattle.scaled_plane.specs.Drawn.{IsScaledPoint, IsScaledSegment, IsDrawn};
ghost use Rattle.scaled_plane.specs.Pieces.{IsProper};

use exact_number::{MOST_SCALED, Whole};
use fold_base::{Letter, List};
use plane::Point;
use scaled_plane::{Segment, compare_points};
use segment_tests::{Meet, Steps, meet};
use std::alloc::{AllocError, Global};
use std::cmp::Ordering;
use std::sync::ledger::Ledger;

const SAMPLES: usize = 1024;

/// Numbers that look random, the same in each run.
#[derive(Drop)]
pub struct Random {
    state: u64,
}

impl Random {
    pub fn new() -> Random {
        Random { state: 1 }
    }

    /// A number of at most 2^21 in size, by a linear congruence.
    fn part(&mut self) -> i128 {
        self.state = self
            .state
            .wrapping_mul(6_364_136_223_846_793_005)
            .wrapping_add(1_442_695_040_888_963_407);
        (self.state >> 42) as i128 - (1 << 21)
    }

    fn whole<W: Whole>(&mut self) -> Option<W>
        ensures { IfSome result (λ x. larger_part (W.pair x) ≤ 2 ^ 22) }
    {
        let a = self.part();
        let b = if W::ROOT == 1 { 0 } else { self.part() };
        if a.unsigned_abs() > MOST_SCALED || b.unsigned_abs() > MOST_SCALED {
            return None;
        }
        W::from_pair(a, b)
    }

    fn point<W: Whole>(&mut self) -> Option<Point<W>>
        ensures { IfSome result (λ p. IsScaledPoint W.numbers p) }
    {
        let x = self.whole()?;
        let y = self.whole()?;
        let w = W::from_pair(1, 0)?;
        Some(Point { x, y, w })
    }

    fn segment<W: Whole>(&mut self) -> Option<Segment<W>>
        ensures { IfSome result (λ s. IsScaledSegment W.numbers s × IsProper W.numbers.ring s) }
    {
        let from = self.point::<W>()?;
        let to = self.point::<W>()?;
        match compare_points(from, to) {
            Ordering::Equal => None,
            _ => Some(Segment {
                from,
                to,
                letter: Letter::Mountain,
            }),
        }
    }
}

/// Points with whole coordinates.
pub fn scaled_points<W: Whole>(alloc: Global) -> Result<List<Point<W>>, AllocError>
    ensures { IfOk result (λ points. All (λ p. IsScaledPoint W.numbers p) points) }
{
    let mut random = Random::new();
    let mut points = List::new(alloc);
    for _ in 0..SAMPLES {
        if let Some(point) = random.point() {
            points.push(point)?;
        }
    }
    Ok(points)
}

/// Segments whose ends differ.
pub fn segments<W: Whole>(alloc: Global) -> Result<List<Segment<W>>, AllocError>
    ensures { IfOk result (λ segments. All (λ s. IsScaledSegment W.numbers s × IsProper W.numbers.ring s) segments) }
{
    let mut random = Random::new();
    let mut segments = List::new(alloc);
    for _ in 0..SAMPLES {
        if let Some(segment) = random.segment() {
            segments.push(segment)?;
        }
    }
    Ok(segments)
}

/// Where segments cross that stand side by side in the list.
pub fn crossings<W: Whole, L: Ledger>(
    alloc: Global,
    segments: &[Segment<W>],
    steps: &mut Steps<L>,
) -> Result<List<Point<W>>, AllocError>
    requires { All (λ s. IsScaledSegment W.numbers s × IsProper W.numbers.ring s) segments.now }
    ensures { IfOk result (λ points. All (λ p. IsDrawn W.numbers p) points) }
{
    let mut points = List::new(alloc);
    for second in 1..segments.len() {
        if let Some(point) = crossing(segments[second - 1], segments[second], steps) {
            points.push(point)?;
        }
    }
    Ok(points)
}

fn crossing<W: Whole, L: Ledger>(
    s: Segment<W>,
    t: Segment<W>,
    steps: &mut Steps<L>,
) -> Option<Point<W>>
    requires first { IsScaledSegment W.numbers s × IsProper W.numbers.ring s }
    requires second { IsScaledSegment W.numbers t × IsProper W.numbers.ring t }
    ensures { IfSome result (λ p. IsDrawn W.numbers p) }
{
    match meet(s, t, steps) {
        Meet::Crosses(point) => Some(point),
        _ => None,
    }
}

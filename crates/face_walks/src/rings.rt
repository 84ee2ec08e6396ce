ghost use Rattle.std.specs.Prelude.{◌≡◌, ℕ, ◌<◌, ◌≤◌, [], length, All, IfOk, IsTrue, OnOk, ◌↔◌, replicate, slice_set};
ghost use Rattle.std.specs.List.{insert};
ghost use Rattle.plane.specs.Directions.{Differ};
ghost use Rattle.half_edges.specs.Halves.{count};
ghost use Rattle.face_walks.specs.Headings.{IsHeadingSize, lead};
ghost use Rattle.face_walks.specs.Linked.{piece_at};
ghost use Rattle.face_walks.specs.Rings.{AreApart, AreRings, IsPlaceFor, IsRing, Turns, half_at, ring_at};

use crate::headings::{Heading, is_clockwise};
use crate::pairs::piece;
use exact_number::Whole;
use half_edges::{Arena, HalfId};
use smallvec::SmallVec;
use std::alloc::{AllocError, Global};
use std::marker::Model;

/// For each vertex the half-edges that go out of it. Most vertices have few.
#[derive(Drop)]
pub struct Rings {
    rings: Vec<SmallVec<HalfId, 8>>,
}

impl Model for Rings {
    ghost use Rattle.std.specs.Prelude.{List, map};
    ghost use Rattle.half_edges.specs.declared.arena.HalfId.{HalfId};

    ghost Value = { List (List HalfId) };

    ghost view = { λ r. map (λ ring. ring.items) r.rings.items };
}

impl Rings {
    fn new(alloc: Global, count: usize) -> Result<Rings, AllocError>
        ensures { IfOk result (λ rings. rings ≡ replicate count []) }
    {
        let mut rings = Vec::with_capacity(alloc, count)?;
        for _vertex in 0..count {
            rings.push(SmallVec::new(alloc))?;
        }
        Ok(Rings { rings })
    }

    pub fn len(&self) -> usize
        ensures { result ≡ length self.now }
    {
        self.rings.len()
    }

    pub fn ring(&self, v: usize) -> &[HalfId]
        requires { v < length self.now }
        ensures { result.now ≡ ring_at self.now v }
    {
        self.rings[v].as_slice()
    }

    fn insert(&mut self, v: usize, place: usize, half: HalfId) -> Result<(), AllocError>
        requires vertex { v < length self.old }
        requires place { place ≤ length (ring_at self.old v) }
        ensures { OnOk result (self.new ≡ slice_set self.old v (insert (ring_at self.old v) place half)) }
    {
        self.rings[v].insert(place, half)?;
        Ok(())
    }
}

/// Whether one turns clockwise from the first half-edge to the second before the third.
pub fn turns<W: Whole>(
    first: HalfId,
    second: HalfId,
    third: HalfId,
    headings: &[Heading<W>],
) -> bool
    requires small { All (IsHeadingSize W.pair) headings.now }
    requires first_in_range { first.0 < length headings.now }
    requires second_in_range { second.0 < length headings.now }
    requires third_in_range { third.0 < length headings.now }
    ensures { IsTrue result ↔ Turns W.numbers.ring headings.now first.0 second.0 third.0 }
{
    let first = headings[first.0 as usize];
    let second = headings[second.0 as usize];
    let third = headings[third.0 as usize];
    is_clockwise(first, second, third)
}

/// Where a half-edge stands in a ring, clockwise from the ring's first.
fn place_of<W: Whole>(ring: &[HalfId], half: HalfId, headings: &[Heading<W>]) -> usize
    requires ring { IsRing W.numbers.ring headings.now ring.now }
    requires apart { AreApart W.numbers.ring headings.now ring.now half.0 }
    requires small { All (IsHeadingSize W.pair) headings.now }
    requires in_range { (k : ℕ) → k < length ring.now → half_at ring.now k < length headings.now }
    requires half_in_range { half.0 < length headings.now }
    ensures { IsPlaceFor W.numbers.ring headings.now ring.now half.0 result }
{
    if ring.is_empty() {
        return 0;
    }
    let first = ring[0];
    let mut low = 1;
    let mut high = ring.len();
    while low < high {
        let middle = low + (high - low) / 2;
        if turns(first, ring[middle], half, headings) {
            low = middle + 1;
        } else {
            high = middle;
        }
    }
    low
}

/// The rings of the vertices.
pub fn rings_of<W: Whole>(
    alloc: Global,
    vertices: usize,
    arena: &Arena<(u32, u32)>,
    headings: &[Heading<W>],
) -> Result<Rings, AllocError>
    requires small { All (IsHeadingSize W.pair) headings.now }
    requires as_many { length headings.now ≡ count arena.now }
    requires in_range { (h : ℕ) → h < count arena.now → (piece_at arena.now h).0 < vertices }
    requires differ { (g h : ℕ) → g < count arena.now → h < count arena.now → ¬ (g ≡ h) → (piece_at arena.now g).0 ≡ (piece_at arena.now h).0
        → Differ W.numbers.ring (lead W.numbers.ring headings.now g) (lead W.numbers.ring headings.now h) }
    ensures as_many { IfOk result (λ rings. length rings ≡ vertices) }
    ensures rings { IfOk result (λ rings. AreRings W.numbers.ring headings.now arena.now (count arena.now) rings) }
{
    let mut rings = Rings::new(alloc, vertices)?;
    for half in 0..arena.len() {
        let half = HalfId(half);
        let (from, _) = piece(arena, half);
        let place = place_of(rings.ring(from as usize), half, headings);
        rings.insert(from as usize, place, half)?;
    }
    Ok(rings)
}

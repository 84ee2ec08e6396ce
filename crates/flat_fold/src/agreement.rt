ghost use Rattle.std.specs.Prelude.{◌≡◌, ◌<◌, ◌↔◌, ℕ, length, true, false, IsTrue, MatchOption, Some};
ghost use Rattle.flat_fold.specs.PathMaps.{ArePathMaps};
ghost use Rattle.flat_fold.specs.Rounds.{IsCrossing, KnowsCrossings};
ghost use Rattle.flat_fold.specs.Computed.{Fits, exact};
ghost use Rattle.flat_fold.specs.Folding.{AgreeAt, AllFits, Disagrees, IsFirstDisagreeing};
ghost use Rattle.flat_fold.specs.Motions.{place};
ghost use Rattle.flat_fold.specs.Operations.{placing};

use crate::levels::{Between, folds};
use crate::motion::Motion;
use crate::sheet::{PlacedEdge, Sheet};
use exact_number::Exact;
use scaled_plane::Pair;

/// Whether two numbers are one.
#[tactic(none)]
fn same<N: Exact>(x: N, y: N) -> bool
    ensures { IsTrue result ↔ (x ≡ y) }
{
    x.parts() == y.parts()
}

/// The place of a point that the map places without overflow.
#[tactic(none)]
fn placed<N: Exact>(map: Motion<N>, a: Pair<N>) -> Pair<N>
    requires { Fits (placing (exact N.numbers) map a) }
    ensures { result ≡ place N.numbers.field map a }
{
    match map.place(a) {
        Ok(place) => place,
        Err(_) => unreachable!(),
    }
}

/// Whether two maps place a point alike.
#[tactic(none)]
fn placed_alike<N: Exact>(m: Motion<N>, n: Motion<N>, a: Pair<N>) -> bool
    requires first { Fits (placing (exact N.numbers) m a) }
    requires second { Fits (placing (exact N.numbers) n a) }
    ensures { IsTrue result ↔ (place N.numbers.field m a ≡ place N.numbers.field n a) }
{
    let p = placed(m, a);
    let q = placed(n, a);
    same(p.x, q.x) & same(p.y, q.y)
}

/// Whether the maps of the two faces of an edge agree at it.
#[tactic(none)]
pub fn agree<N: Exact>(edge: PlacedEdge<N>, m: Motion<N>, n: Motion<N>) -> bool
    requires from_first { Fits (placing (exact N.numbers) m edge.from) }
    requires from_second { Fits (placing (exact N.numbers) n edge.from) }
    requires to_first { Fits (placing (exact N.numbers) m edge.to) }
    requires to_second { Fits (placing (exact N.numbers) n edge.to) }
    ensures { IsTrue result ↔ AgreeAt N.numbers.field edge.letter edge.from edge.to m n }
{
    let from = placed_alike(m, n, edge.from);
    let to = placed_alike(m, n, edge.to);
    let turns = (m.turned != n.turned) == folds(edge.letter);
    from & to & turns
}

/// Whether the path maps of the two faces of the edge `e` agree at it.
pub fn agrees_at<N: Exact>(sheet: &Sheet<N>, maps: &[Motion<N>], e: usize, faces: Between) -> bool
    requires edge { e < length sheet.now.ends.edges }
    requires crossing { IsCrossing sheet.now.ends.edges sheet.now.faces e (Some faces) }
    requires maps { ArePathMaps (exact N.numbers) sheet.now.ends.coords sheet.now.ends.edges sheet.now.faces maps.now }
    requires fits { AllFits (exact N.numbers) sheet.now.ends.coords sheet.now.ends.edges sheet.now.faces }
    ensures agrees { result ≡ true → ¬ Disagrees (exact N.numbers) sheet.now.ends.coords sheet.now.ends.edges sheet.now.faces e }
    ensures disagrees { result ≡ false → Disagrees (exact N.numbers) sheet.now.ends.coords sheet.now.ends.edges sheet.now.faces e }
{
    let first = maps[faces.first as usize];
    let second = maps[faces.second as usize];
    agree(sheet.edge(e), first, second)
}

/// Whether the edge `e` leads nowhere, or the path maps of its two faces agree at it.
#[tactic(none)]
fn agrees_where_crossed<N: Exact>(
    sheet: &Sheet<N>,
    maps: &[Motion<N>],
    e: usize,
    crossing: Option<Between>,
) -> bool
    requires edge { e < length sheet.now.ends.edges }
    requires crossing { IsCrossing sheet.now.ends.edges sheet.now.faces e crossing }
    requires maps { ArePathMaps (exact N.numbers) sheet.now.ends.coords sheet.now.ends.edges sheet.now.faces maps.now }
    requires fits { AllFits (exact N.numbers) sheet.now.ends.coords sheet.now.ends.edges sheet.now.faces }
    ensures agrees { result ≡ true → ¬ Disagrees (exact N.numbers) sheet.now.ends.coords sheet.now.ends.edges sheet.now.faces e }
    ensures disagrees { result ≡ false → Disagrees (exact N.numbers) sheet.now.ends.coords sheet.now.ends.edges sheet.now.faces e }
{
    match crossing {
        Some(faces) => agrees_at(sheet, maps, e, faces),
        None => true,
    }
}

/// The least edge at which the path maps disagree.
pub fn first_disagreeing<N: Exact>(
    sheet: &Sheet<N>,
    crossings: &[Option<Between>],
    maps: &[Motion<N>],
) -> Option<u32>
    requires known { KnowsCrossings sheet.now.ends.edges sheet.now.faces crossings.now }
    requires maps { ArePathMaps (exact N.numbers) sheet.now.ends.coords sheet.now.ends.edges sheet.now.faces maps.now }
    requires fits { AllFits (exact N.numbers) sheet.now.ends.coords sheet.now.ends.edges sheet.now.faces }
    ensures { MatchOption result ((e : ℕ) → ¬ Disagrees (exact N.numbers) sheet.now.ends.coords sheet.now.ends.edges sheet.now.faces e)
        (IsFirstDisagreeing (exact N.numbers) sheet.now.ends.coords sheet.now.ends.edges sheet.now.faces) }
{
    for e in 0..sheet.ends().edges.len() {
        let agrees = agrees_where_crossed(sheet, maps, e, crossings[e]);
        if !agrees {
            return Some(e as u32);
        }
    }
    None
}

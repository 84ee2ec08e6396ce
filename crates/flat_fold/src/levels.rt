ghost use Rattle.std.specs.Prelude.{◌≡◌, ℕ, IfOk, ◌<◌, ◌+◌, ◌^◌, ◌≤◌, length, false, if◌then◌else◌, Some};
ghost use Rattle.fold_base.specs.declared.letter.Letter.{Letter as AnyLetter};
ghost use Rattle.flat_fold.specs.Computed.{Answers, exact};
ghost use Rattle.flat_fold.specs.Folding.{is_crease, stepping_over, IsFoldable};
ghost use Rattle.flat_fold.specs.Rounds.{Crosses, IsStepped, IsCrossing, Round, KnowsCrossings, at, unreached, AllReached, IsStart, map_of};
ghost use Rattle.flat_fold.specs.PathMaps.{KeepsMaps, FindsPathMaps};

use crate::motion::Motion;
use crate::sheet::{PlacedEdge, Sheet};
use exact_number::{Exact, Overflow};
use fold_base::{Letter, List};
use std::alloc::{AllocError, Global};

/// A face that is reached from face 0, by the number of edges on the shortest walk to it. It has no map where its path map
/// overflows.
#[derive(Clone, Copy)]
pub struct Reached<N> {
    pub level: u32,
    pub map: Option<Motion<N>>,
}

/// The two faces of an edge.
#[derive(Clone, Copy)]
pub struct Between {
    pub first: u32,
    pub second: u32,
}

/// Whether the sheet is folded at an edge with this letter.
pub fn folds(letter: Letter) -> bool
    ensures { result ≡ is_crease letter }
{
    match letter {
        Letter::Border => false,
        Letter::Mountain => true,
        Letter::Valley => true,
        Letter::Flat => false,
        Letter::Unassigned => true,
        Letter::Cut => false,
        Letter::Join => false,
    }
}

/// The map of the face beyond an edge, from that of the face before.
#[tactic(none)]
fn step<N: Exact>(edge: PlacedEdge<N>, map: Motion<N>) -> Result<Motion<N>, Overflow>
    requires { ¬ (edge.from ≡ edge.to) }
    ensures { Answers result (stepping_over (exact N.numbers) edge.letter edge.from edge.to map) }
{
    if folds(edge.letter) {
        let mirror = Motion::reflection(edge.from, edge.to)?;
        map.composed(mirror)
    } else {
        Ok(map)
    }
}

/// The map of the face beyond, where there is one.
#[tactic(none)]
fn stepped<N: Exact>(edge: PlacedEdge<N>, map: Option<Motion<N>>) -> Option<Motion<N>>
    requires { ¬ (edge.from ≡ edge.to) }
    ensures { IsStepped (exact N.numbers) edge.letter edge.from edge.to map result }
{
    match map {
        Some(map) => step(edge, map).ok(),
        None => None,
    }
}

/// Crosses the edge between two faces, in one round, where the face `to` isn't reached yet and `from` has this level. Says
/// whether it did.
fn cross<N: Exact>(
    reached: &mut [Option<Reached<N>>],
    level: u32,
    edge: PlacedEdge<N>,
    from: u32,
    to: u32,
) -> bool
    requires apart { ¬ (edge.from ≡ edge.to) }
    requires levels { level + 1 < 2 ^ 32 }
    requires from_in { from < length reached.old }
    requires to_in { to < length reached.old }
    ensures { Crosses (exact N.numbers) level edge.letter edge.from edge.to from to reached.old reached.new result }
{
    let before = match reached[from as usize] {
        Some(before) => before,
        None => return false,
    };
    if before.level != level {
        return false;
    }
    if reached[to as usize].is_some() {
        return false;
    }
    let map = stepped(edge, before.map);
    reached[to as usize] = Some(Reached {
        level: level + 1,
        map,
    });
    true
}

/// Crosses the edge `e` both ways. Says whether a face was reached that wasn't before.
fn cross_both<N: Exact>(
    sheet: &Sheet<N>,
    level: u32,
    e: usize,
    faces: Between,
    reached: &mut [Option<Reached<N>>],
) -> bool
    requires foldable { IsFoldable N.numbers.field sheet.now.ends.coords sheet.now.ends.edges sheet.now.faces }
    requires edge { e < length sheet.now.ends.edges }
    requires crossing { IsCrossing sheet.now.ends.edges sheet.now.faces e (Some faces) }
    requires levels { level + 1 < 2 ^ 32 }
    requires all { length reached.old ≡ length sheet.now.faces }
    requires round { Round (exact N.numbers) sheet.now.ends.coords sheet.now.ends.edges sheet.now.faces level e (at reached.old) }
    ensures round { Round (exact N.numbers) sheet.now.ends.coords sheet.now.ends.edges sheet.now.faces level (e + 1) (at reached.new) }
    ensures grew { (if result then 1 else 0) + unreached reached.new ≤ unreached reached.old }
    ensures still { result ≡ false → reached.new ≡ reached.old }
{
    let edge = sheet.edge(e);
    let there = cross(reached, level, edge, faces.first, faces.second);
    let back = cross(reached, level, edge, faces.second, faces.first);
    there | back
}

/// Crosses the edge `e` both ways, where it leads between two faces. Says whether a face was reached that wasn't before.
#[tactic(none)]
fn cross_at<N: Exact>(
    sheet: &Sheet<N>,
    level: u32,
    e: usize,
    crossing: Option<Between>,
    reached: &mut [Option<Reached<N>>],
) -> bool
    requires foldable { IsFoldable N.numbers.field sheet.now.ends.coords sheet.now.ends.edges sheet.now.faces }
    requires edge { e < length sheet.now.ends.edges }
    requires crossing { IsCrossing sheet.now.ends.edges sheet.now.faces e crossing }
    requires levels { level + 1 < 2 ^ 32 }
    requires all { length reached.old ≡ length sheet.now.faces }
    requires round { Round (exact N.numbers) sheet.now.ends.coords sheet.now.ends.edges sheet.now.faces level e (at reached.old) }
    ensures round { Round (exact N.numbers) sheet.now.ends.coords sheet.now.ends.edges sheet.now.faces level (e + 1) (at reached.new) }
    ensures grew { (if result then 1 else 0) + unreached reached.new ≤ unreached reached.old }
    ensures still { result ≡ false → reached.new ≡ reached.old }
{
    match crossing {
        Some(faces) => cross_both(sheet, level, e, faces, reached),
        None => false,
    }
}

/// One round: crosses each edge, in their order, both ways. Says whether a face was reached that wasn't before.
fn one_round<N: Exact>(
    sheet: &Sheet<N>,
    crossings: &[Option<Between>],
    level: u32,
    reached: &mut [Option<Reached<N>>],
) -> bool
    requires foldable { IsFoldable N.numbers.field sheet.now.ends.coords sheet.now.ends.edges sheet.now.faces }
    requires known { KnowsCrossings sheet.now.ends.edges sheet.now.faces crossings.now }
    requires levels { level + 1 < 2 ^ 32 }
    requires all { length reached.old ≡ length sheet.now.faces }
    requires round { Round (exact N.numbers) sheet.now.ends.coords sheet.now.ends.edges sheet.now.faces level 0 (at reached.old) }
    ensures round { Round (exact N.numbers) sheet.now.ends.coords sheet.now.ends.edges sheet.now.faces level (length sheet.now.ends.edges) (at reached.new) }
    ensures grew { (if result then 1 else 0) + unreached reached.new ≤ unreached reached.old }
    ensures still { result ≡ false → reached.new ≡ reached.old }
{
    let mut grew = false;
    for (e, crossing) in crossings.iter().enumerate() {
        let more = cross_at(sheet, level, e, *crossing, reached);
        grew = grew | more;
    }
    grew
}

/// The faces to which walks lead from face 0, with their levels and path maps.
fn all_rounds<N: Exact>(
    sheet: &Sheet<N>,
    crossings: &[Option<Between>],
    reached: &mut [Option<Reached<N>>],
)
    requires foldable { IsFoldable N.numbers.field sheet.now.ends.coords sheet.now.ends.edges sheet.now.faces }
    requires known { KnowsCrossings sheet.now.ends.edges sheet.now.faces crossings.now }
    requires few { length sheet.now.faces < 2 ^ 31 }
    requires all { length reached.old ≡ length sheet.now.faces }
    requires round { Round (exact N.numbers) sheet.now.ends.coords sheet.now.ends.edges sheet.now.faces 0 0 (at reached.old) }
    requires start { (f : ℕ) (r : Reached N) → at reached.old f ≡ Some r → r.level ≤ 0 }
    ensures all { AllReached (exact N.numbers) sheet.now.ends.coords sheet.now.ends.edges sheet.now.faces (at reached.new) }
{
    let mut level = 0;
    let mut grew = true;
    while grew {
        grew = one_round(sheet, crossings, level, reached);
        level += 1;
    }
}

/// Face 0 reached, and no other.
#[tactic(none)]
fn face_0_alone<N: Exact>(
    alloc: Global,
    count: usize,
) -> Result<Vec<Option<Reached<N>>>, AllocError>
    requires { 0 < count }
    ensures { IfOk result (λ v. IsStart N.numbers.field count v.items) }
{
    let mut reached = Vec::new(alloc);
    reached.push(Some(Reached {
        level: 0,
        map: Some(Motion::identity()),
    }))?;
    for _ in 1..count {
        reached.push(None)?;
    }
    Ok(reached)
}

/// Why there are no path maps: the least face whose path map overflows, or want of memory.
#[derive(Debug, Drop)]
pub enum MapFault {
    NumberPast { face: u32 },
    Memory(AllocError),
}

/// The map that is kept of a face.
fn kept<N: Exact>(face: Option<Reached<N>>) -> Option<Motion<N>>
    ensures { result ≡ map_of face }
{
    match face {
        Some(reached) => reached.map,
        None => None,
    }
}

/// The maps of all faces, or the first face without one.
#[tactic(none)]
fn kept_maps<N: Exact>(
    alloc: Global,
    reached: &[Option<Reached<N>>],
) -> Result<List<Motion<N>>, MapFault>
    requires { length reached.now < 2 ^ 31 }
    ensures { KeepsMaps reached.now result }
{
    let mut maps = List::new(alloc);
    for (f, face) in reached.iter().enumerate() {
        match kept(*face) {
            Some(map) => match maps.push(map) {
                Ok(()) => {}
                Err(_) => return Err(MapFault::Memory(AllocError)),
            },
            None => return Err(MapFault::NumberPast { face: f as u32 }),
        }
    }
    Ok(maps)
}

/// The path maps from the start of the first round on.
#[tactic(none)]
fn maps_from<N: Exact>(
    alloc: Global,
    sheet: &Sheet<N>,
    crossings: &[Option<Between>],
    reached: &mut [Option<Reached<N>>],
) -> Result<List<Motion<N>>, MapFault>
    requires foldable { IsFoldable N.numbers.field sheet.now.ends.coords sheet.now.ends.edges sheet.now.faces }
    requires known { KnowsCrossings sheet.now.ends.edges sheet.now.faces crossings.now }
    requires few { length sheet.now.faces < 2 ^ 31 }
    requires start { IsStart N.numbers.field (length sheet.now.faces) reached.old }
    ensures { FindsPathMaps (exact N.numbers) sheet.now.ends.coords sheet.now.ends.edges sheet.now.faces result }
{
    all_rounds(sheet, crossings, reached);
    kept_maps(alloc, reached)
}

/// The path map of each face, or the least face whose path map overflows.
pub fn path_maps<N: Exact>(
    alloc: Global,
    sheet: &Sheet<N>,
    crossings: &[Option<Between>],
) -> Result<List<Motion<N>>, MapFault>
    requires { KnowsCrossings sheet.now.ends.edges sheet.now.faces crossings.now }
    ensures { FindsPathMaps (exact N.numbers) sheet.now.ends.coords sheet.now.ends.edges sheet.now.faces result }
{
    match face_0_alone(alloc, sheet.faces().len()) {
        Ok(mut reached) => maps_from(alloc, sheet, crossings, reached.as_mut_slice()),
        Err(_) => Err(MapFault::Memory(AllocError)),
    }
}

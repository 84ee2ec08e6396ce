ghost use Rattle.std.specs.Prelude.{◌≡◌, ◌⊎◌, ◌++◌, ◌<◌, ◌≤◌, ◌^◌, ◌↔◌, ℕ, [], true, false, IsTrue, IfOk, MatchOption, Contains, drop, length, take};
ghost use Rattle.std.specs.Bool.{OnTrue, OnFalse};
ghost use Rattle.flat_fold.specs.EdgeSides.{HasPieces};
ghost use Rattle.flat_fold.specs.Faces.{corners_at};
ghost use Rattle.scaled_plane.specs.Lists.{IsRotation};
ghost use Rattle.scaled_plane.specs.Scaling.{IsFirstOf};
ghost use Rattle.scaled_plane.specs.Walks.{pieces_round};
ghost use Rattle.sheet_check.specs.Listed.{AreApart, AreListed, GoRound, GoRoundNone, IsListing, IsWrong, Lists, is_marked};

use flat_fold::{Pieces, piece_from, pieces_of};
use scaled_plane::Face;
use std::alloc::{AllocError, Global};

/// Whether these corners are those of a walk from a place on, and then those before the place.
fn is_begun_at(corners: &[u32], walk: &[u32], place: usize) -> bool
    requires { place ≤ length walk.now }
    ensures { IsTrue result ↔ (corners.now ≡ drop place walk.now ++ take place walk.now) }
{
    let (front, back) = walk.split_at(place);
    match corners.strip_prefix(back) {
        Some(rest) => *rest == *front,
        None => false,
    }
}

/// Whether corners are those of a walk, begun at any of them.
fn is_rotation(corners: &[u32], walk: &[u32]) -> bool
    ensures rotated { OnTrue result (IsRotation corners.now walk.now) }
    ensures other { OnFalse result (¬ IsRotation corners.now walk.now) }
{
    if corners.len() != walk.len() {
        return false;
    }
    for place in 0..walk.len() {
        if is_begun_at(corners, walk, place) {
            return true;
        }
    }
    walk.is_empty()
}

/// The directed piece that begins at the first corner.
fn first_piece(corners: &[u32]) -> Option<(u32, u32)>
    ensures { MatchOption result (corners.now ≡ []) (λ p. Contains (pieces_round corners.now) p) }
{
    if corners.is_empty() {
        None
    } else {
        Some(piece_from(corners, 0))
    }
}

/// The walk that corners go round.
fn walk_round(walks: &[Face], pieces: &Pieces, corners: &[u32]) -> Option<usize>
    requires known { HasPieces walks.now (length walks.now) 0 pieces.now }
    requires apart { AreApart walks.now }
    ensures { MatchOption result (GoRoundNone walks.now corners.now) (GoRound walks.now corners.now) }
{
    let piece = match first_piece(corners) {
        Some(piece) => piece,
        None => return None,
    };
    let walk = match pieces.get(&piece) {
        Some(side) => side.face as usize,
        None => return None,
    };
    if is_rotation(corners, walks[walk].corners.as_slice()) {
        Some(walk)
    } else {
        None
    }
}

/// Marks the walk that corners go round. Says whether there is one that wasn't marked before.
fn list(walks: &[Face], pieces: &Pieces, corners: &[u32], marks: &mut [bool]) -> bool
    requires known { HasPieces walks.now (length walks.now) 0 pieces.now }
    requires apart { AreApart walks.now }
    requires as_many { length marks.old ≡ length walks.now }
    ensures { Lists walks.now corners.now marks.old marks.new result }
{
    let walk = match walk_round(walks, pieces, corners) {
        Some(walk) => walk,
        None => return false,
    };
    if marks[walk] {
        return false;
    }
    marks[walk] = true;
    true
}

/// The first face that goes round no walk, or round that of an earlier face. Marks the walks of the faces before.
pub fn first_wrong(
    walks: &[Face],
    pieces: &Pieces,
    faces: &[Face],
    marks: &mut [bool],
) -> Option<u32>
    requires known { HasPieces walks.now (length walks.now) 0 pieces.now }
    requires apart { AreApart walks.now }
    requires none { AreListed walks.now faces.now 0 marks.old }
    requires few { length faces.now < 2 ^ 32 }
    ensures { MatchOption result (AreListed walks.now faces.now (length faces.now) marks.new) (IsFirstOf (IsWrong walks.now faces.now)) }
{
    for face in 0..faces.len() {
        if !list(walks, pieces, faces[face].corners.as_slice(), marks) {
            return Some(face as u32);
        }
    }
    None
}

/// The first place that isn't marked.
pub fn first_unmarked(marks: &[bool]) -> Option<usize>
    ensures { MatchOption result
        ((w : ℕ) → w < length marks.now → is_marked marks.now w ≡ true)
        (IsFirstOf (λ w. (w < length marks.now) × (is_marked marks.now w ≡ false))) }
{
    for place in 0..marks.len() {
        if !marks[place] {
            return Some(place);
        }
    }
    None
}

/// What becomes of faces that are each to go round a walk of its own.
pub enum Listing {
    /// The first face that goes round no walk, or round that of an earlier face.
    Wrong(u32),
    /// The first walk, by its place, that no face goes round.
    Missing(usize),
    Complete,
}

/// Lists the faces, each with the walk that it goes round.
pub fn list_all(alloc: Global, walks: &[Face], faces: &[Face]) -> Result<Listing, AllocError>
    requires apart { AreApart walks.now }
    requires few { length faces.now < 2 ^ 32 }
    requires few_walks { length walks.now < 2 ^ 32 }
    requires few_corners { (w : ℕ) → w < length walks.now → length (corners_at walks.now w) < 2 ^ 32 }
    ensures { IfOk result (IsListing walks.now faces.now) }
{
    let pieces = pieces_of(alloc, walks)?;
    let mut marks = vec![in alloc; false; walks.len()]?;
    match first_wrong(walks, &pieces, faces, marks.as_mut_slice()) {
        Some(face) => Ok(Listing::Wrong(face)),
        None => match first_unmarked(marks.as_slice()) {
            Some(walk) => Ok(Listing::Missing(walk)),
            None => Ok(Listing::Complete),
        },
    }
}

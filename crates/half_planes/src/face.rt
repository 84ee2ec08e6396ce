ghost use Rattle.std.specs.Prelude.{◌≡◌, ◌<◌, ◌+◌, ◌^◌, ◌++◌, All, length, slice_get, Some};
ghost use Rattle.std.proofs.Props.{props};
ghost use Rattle.layers.proofs.Faces.{borders};
ghost use Rattle.layers.specs.Sheets.{FoldedFace};
ghost use Rattle.scaled_plane.specs.Drawn.{IsScaledPoint};

use crate::lines::Lines;
use exact_number::Whole;
use plane::{Line, Point};
use scaled_plane::line_through;

/// A face as it lies after folding, whose corners are scaled points. They stand in their order round the face before folding,
/// so that a face that is turned over has them clockwise.
pub trait FaceView {
    type Ring: Whole;

    // the corners, and whether the face is turned over
    ghost face: { Self → FoldedFace Self.Ring };

    /// How many corners there are.
    fn corner_count(&self) -> u32
        ensures { result ≡ length (face self.now).corners };

    /// The corner at a place in the list.
    fn corner(&self, place: u32) -> Point<Self::Ring>
        requires { place < length (face self.now).corners }
        ensures { slice_get (face self.now).corners place ≡ Some result };

    /// Whether the face is turned over.
    fn is_turned(&self) -> bool
        ensures { result ≡ (face self.now).turned };

    ghost scaled: { (f : Self) → All (IsScaledPoint Self.Ring.numbers) (face f).corners };
}

/// The lines of a face, whose half-planes have its inside in common. Each is formed from two corners as it's asked for.
#[derive(Drop)]
pub struct FaceLines<'a, F: FaceView> {
    pub face: &'a F,
}

impl<'a, F: FaceView> Lines for FaceLines<'a, F> {
    type Ring = F::Ring;

    ghost lines = { λ l. borders F.Ring.numbers.ring (F.face l.face.now) };

    fn count(&self) -> u32 {
        self.face.corner_count()
    }

    fn line(&self, place: u32) -> Line<F::Ring> {
        let next = place_after(place, self.face.corner_count());
        let from = self.face.corner(place);
        let to = self.face.corner(next);
        if self.face.is_turned() {
            line_through(to, from)
        } else {
            line_through(from, to)
        }
    }
}

/// The place after one, round a list.
pub fn place_after(place: u32, length: u32) -> u32
    requires { place < length }
    ensures within { result < length }
    ensures last { place + 1 ≡ length → result ≡ 0 }
    ensures other { place + 1 < length → result ≡ place + 1 }
{
    if place + 1 == length { 0 } else { place + 1 }
}

/// The lines of one list, and then those of another.
#[derive(Drop)]
pub struct Both<A: Lines, B: Lines<Ring = A::Ring>> {
    pub first: A,
    pub second: B,
    pub ghost few: { length (A.lines first) + length (B.lines second) < 2 ^ 32 },
}

impl<A: Lines, B: Lines<Ring = A::Ring>> Lines for Both<A, B> {
    type Ring = A::Ring;

    ghost lines = { λ l. A.lines l.first ++ B.lines l.second };

    fn count(&self) -> u32 {
        self.first.count() + self.second.count()
    }

    fn line(&self, place: u32) -> Line<A::Ring> {
        let count = self.first.count();
        if place < count {
            self.first.line(place)
        } else {
            self.second.line(place - count)
        }
    }
}

/// A face by a slice of its corners.
#[derive(Drop)]
pub struct FaceSlice<'a, W: Whole> {
    pub corners: &'a [Point<W>],
    pub turned: bool,
    pub ghost short: { length corners.now < 2 ^ 32 },
    pub ghost scaled: { All (IsScaledPoint W.numbers) corners.now } by { Prim.hlevel props },
}

impl<'a, W: Whole> FaceSlice<'a, W> {
    pub fn new(corners: &'a [Point<W>], turned: bool) -> FaceSlice<'a, W>
        requires short { length corners.now < 2 ^ 32 }
        requires scaled { All (IsScaledPoint W.numbers) corners.now }
        ensures corners { result.corners.now ≡ corners.now }
        ensures turned { result.turned ≡ turned }
    {
        FaceSlice { corners, turned }
    }
}

impl<'a, W: Whole> FaceView for FaceSlice<'a, W> {
    type Ring = W;

    ghost face = { λ f. record { corners = f.corners.now; turned = f.turned } };

    fn corner_count(&self) -> u32 {
        self.corners.len() as u32
    }

    fn corner(&self, place: u32) -> Point<W> {
        self.corners[place as usize]
    }

    fn is_turned(&self) -> bool {
        self.turned
    }

    ghost scaled = { λ f. f.scaled };
}

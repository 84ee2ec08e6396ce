ghost use Rattle.std.specs.Prelude.{◌≡◌, ◌<◌, ◌^◌, All, IsTrue, ◌↔◌, length};
ghost use Rattle.std.proofs.Props.{props};
ghost use Rattle.layers.specs.Sheets.{Overlap};
ghost use Rattle.layers.specs.Folded.{IsConvex};
ghost use Rattle.layers.specs.Listing.{ThreeOverlap};
ghost use Rattle.scaled_plane.specs.Drawn.{IsScaledPoint};
ghost use Rattle.half_planes.specs.NumberSets.{numbers_are_set};
ghost use Rattle.half_planes.specs.Views.{face_at};

use crate::extent::lie_apart;
use crate::face::FaceView;
use crate::overlap::{insides_meet, three_insides_meet};
use crate::sheet::SheetView;
use plane::Point;

/// A face of a sheet.
#[derive(Drop)]
pub struct SheetFace<'a, S: SheetView> {
    pub sheet: &'a S,
    pub place: u32,
    pub corners: u32,
    pub ghost there: { place < length (S.sheet sheet.now).faces },
    pub ghost counted: { corners ≡ length (face_at (S.sheet sheet.now) place).corners },
    pub ghost scaled: { All (IsScaledPoint S.Ring.numbers) (face_at (S.sheet sheet.now) place).corners } by { Prim.hlevel (props, numbers_are_set S.Ring.numbers.ring) },
}

impl<'a, S: SheetView> SheetFace<'a, S> {
    pub fn new(sheet: &'a S, place: u32) -> SheetFace<'a, S>
        requires { place < length (S.sheet sheet.now).faces }
        ensures sheet { result.sheet.now ≡ sheet.now }
        ensures place { result.place ≡ place }
        ensures few { length (face_at (S.sheet sheet.now) place).corners < 2 ^ 30 }
        ensures convex { IsConvex S.Ring.numbers.ring (face_at (S.sheet sheet.now) place) }
    {
        let count = sheet.face_count();
        prove!(place < count);
        let corners = sheet.corner_count(place);
        SheetFace {
            sheet,
            place,
            corners,
        }
    }
}

impl<'a, S: SheetView> FaceView for SheetFace<'a, S> {
    type Ring = S::Ring;

    ghost face = { λ f. face_at (S.sheet f.sheet.now) f.place };

    fn corner_count(&self) -> u32 {
        self.corners
    }

    fn corner(&self, place: u32) -> Point<S::Ring> {
        self.sheet.corner(self.place, place)
    }

    fn is_turned(&self) -> bool {
        self.sheet.is_turned(self.place)
    }

    ghost scaled = { λ f. f.scaled };
}

/// Whether some point is inside two faces of a sheet.
pub fn faces_overlap<S: SheetView>(sheet: &S, first: u32, second: u32) -> bool
    requires first { first < length (S.sheet sheet.now).faces }
    requires second { second < length (S.sheet sheet.now).faces }
    ensures { IsTrue result ↔ Overlap S.Ring.numbers.ring (S.sheet sheet.now) first second }
{
    let first = SheetFace::new(sheet, first);
    let second = SheetFace::new(sheet, second);
    if lie_apart(&first, &second) {
        return false;
    }
    insides_meet(&first, &second)
}

/// Whether some point is inside three faces of a sheet.
pub fn three_overlap<S: SheetView>(sheet: &S, first: u32, second: u32, third: u32) -> bool
    requires first { first < length (S.sheet sheet.now).faces }
    requires second { second < length (S.sheet sheet.now).faces }
    requires third { third < length (S.sheet sheet.now).faces }
    ensures { IsTrue result ↔ ThreeOverlap S.Ring.numbers.ring (S.sheet sheet.now) first second third }
{
    let first = SheetFace::new(sheet, first);
    let second = SheetFace::new(sheet, second);
    let third = SheetFace::new(sheet, third);
    if lie_apart(&first, &second) {
        return false;
    }
    if lie_apart(&second, &third) {
        return false;
    }
    if lie_apart(&third, &first) {
        return false;
    }
    three_insides_meet(&first, &second, &third)
}

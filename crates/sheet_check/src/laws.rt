// What holds of all vertices, edges and faces.
ghost use Rattle.std.specs.Prelude.{◌≡◌, List};
ghost use Rattle.flat_fold.specs.Sheets.{FormSheet};
ghost use Rattle.scaled_plane.specs.declared.drawing.Ends.{Ends as AnyEnds};
ghost use Rattle.scaled_plane.specs.declared.drawing.Face.{Face as AnyFace};
ghost use Rattle.sheet_check.specs.Refused.{HasNoSheet};
ghost use Rattle.sheet_check.specs.declared.fault.SheetFault.{SheetFault as AnyFault};

use exact_number::Exact;

/// What keeps vertices, edges and faces from being a sheet is one reason at most, and there is none where they are one.
pub fn one_check<N: Exact>()
    ensures reason { (ends : AnyEnds N) (faces : List AnyFace) (e f : AnyFault) → HasNoSheet N.parts N.Ring.numbers ends faces e
        → HasNoSheet N.parts N.Ring.numbers ends faces f → e ≡ f }
    ensures not_both { (ends : AnyEnds N) (faces : List AnyFace) (fault : AnyFault) → FormSheet N.parts N.Ring.numbers ends faces
        → ¬ HasNoSheet N.parts N.Ring.numbers ends faces fault }
{}

// What holds of all drawings.
ghost use Rattle.std.specs.Prelude.{◌≡◌, List};
ghost use Rattle.flat_fold.specs.Computed.{exact};
ghost use Rattle.flat_fold.specs.Folded.{Layout};
ghost use Rattle.scaled_plane.specs.declared.drawing.Ends.{Ends as AnyEnds};
ghost use Rattle.scaled_plane.specs.declared.drawing.Face.{Face as AnyFace};
ghost use Rattle.folded_form.specs.Forms.{HasNoForm, IsFoldedFrom};
ghost use Rattle.folded_form.specs.declared.fault.FormFault.{FormFault as AnyFault};

use exact_number::Exact;

/// A drawing folds in at most one way, there is at most one reason why it has no folded form, and not both.
pub fn one_layout<N: Exact>()
    ensures layout { (drawing : AnyEnds N × List AnyFace) (layout other : Layout N N.Ring)
        → IsFoldedFrom N.parts (exact N.numbers) N.Ring.numbers drawing layout
        → IsFoldedFrom N.parts (exact N.numbers) N.Ring.numbers drawing other → layout ≡ other }
    ensures reason { (drawing : AnyEnds N × List AnyFace) (e f : AnyFault)
        → HasNoForm N.parts (exact N.numbers) N.Ring.numbers drawing e
        → HasNoForm N.parts (exact N.numbers) N.Ring.numbers drawing f → e ≡ f }
    ensures not_both { (drawing : AnyEnds N × List AnyFace) (layout : Layout N N.Ring) (fault : AnyFault)
        → IsFoldedFrom N.parts (exact N.numbers) N.Ring.numbers drawing layout
        → ¬ HasNoForm N.parts (exact N.numbers) N.Ring.numbers drawing fault }
{}

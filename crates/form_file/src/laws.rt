// What holds of all folded sheets.
ghost use Rattle.std.specs.Prelude.{◌≡◌, List, Option};
ghost use Rattle.flat_fold.specs.Computed.{exact};
ghost use Rattle.flat_fold.specs.Folded.{Layout};
ghost use Rattle.fold_keys.specs.declared.value.FaceOrder.{FaceOrder as AnyOrder};
ghost use Rattle.fold_keys.specs.declared.value.FoldFile.{FoldFile as AnyFile};
ghost use Rattle.scaled_plane.specs.declared.drawing.Ends.{Ends as AnyEnds};
ghost use Rattle.scaled_plane.specs.declared.drawing.Face.{Face as AnyFace};
ghost use Rattle.form_file.specs.Files.{HasForm, IsFoldedFile};

use crease_input::one_file;
use exact_number::Exact;
use folded_form::one_layout;

/// A folded sheet has one file with given orders of its faces, and so has a drawing one folded form.
pub fn one_form<N: Exact>()
    ensures file { (layout : Layout N N.Ring) (orders : Option (List AnyOrder)) (f g : AnyFile)
        → IsFoldedFile N.ROOT N.parts layout orders f → IsFoldedFile N.ROOT N.parts layout orders g → f ≡ g }
    ensures form { (drawing : AnyEnds N × List AnyFace) (orders : Option (List AnyOrder)) (f g : AnyFile)
        → HasForm N.ROOT N.parts (exact N.numbers) N.Ring.numbers drawing orders f
        → HasForm N.ROOT N.parts (exact N.numbers) N.Ring.numbers drawing orders g → f ≡ g }
{
    one_file::<N>();
    one_layout::<N>();
}

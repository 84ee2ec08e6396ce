ghost use Rattle.flat_fold.specs.Folded.{IsFolded as IsFolding, Layout};
ghost use Rattle.flat_fold.specs.Sheets.{FormSheet};
ghost use Rattle.folded_layers.specs.Known.{HasLayers};

use exact_number::{Exact, scaling_laws};

/// What a sheet is folded to is folded in the sense of layers: its faces are convex, no two directed pieces of a face share a
/// point between their ends, each is a side of one edge at most, and the two faces of a crease or join meet at it.
pub fn folded_sheets_have_layers<N: Exact>()
    ensures { (layout : Layout N N.Ring) → FormSheet N.parts N.Ring.numbers layout.sheet.ends layout.sheet.faces
        → IsFolding N.parts N.numbers.field N.Ring.numbers layout → HasLayers N.parts N.numbers.field N.Ring.numbers layout }
{
    scaling_laws::<N>();
}

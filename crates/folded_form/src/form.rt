// From a drawing to its folded sheet.
ghost use Rattle.std.specs.Prelude.{IfOk, IfErr};
ghost use Rattle.flat_fold.specs.Computed.{exact};
ghost use Rattle.folded_form.specs.Forms.{IsFoldedFrom, NamesReason};
ghost use Rattle.sheet_check.specs.Refused.{AreSheetSizes};

use crate::fault::FormFault;
use exact_number::Exact;
use flat_fold::{Folded, fold_flat};
use fold_base::List;
use scaled_plane::{Ends, Face};
use sheet_check::check_sheet;
use std::alloc::Global;

/// Folds a drawing flat, if it is a sheet that folds.
pub fn fold_ends<N: Exact>(
    alloc: Global,
    ends: Ends<N>,
    faces: List<Face>,
) -> Result<Folded<N>, FormFault>
    requires { AreSheetSizes ends faces }
    ensures folded { IfOk result (IsFoldedFrom N.parts (exact N.numbers) N.Ring.numbers (ends, faces)) }
    ensures refused { IfErr result (NamesReason N.parts (exact N.numbers) N.Ring.numbers (ends, faces)) }
{
    let sheet = check_sheet(alloc, ends, faces)?;
    Ok(fold_flat(alloc, sheet)?)
}

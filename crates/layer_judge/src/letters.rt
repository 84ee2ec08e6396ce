ghost use Rattle.std.specs.Prelude.{◌<◌, ◌↔◌, IsTrue, length};
ghost use Rattle.fold_base.specs.declared.letter.Letter.TheVariants.{Mountain, Valley};
ghost use Rattle.layers.specs.Orders.{Above};
ghost use Rattle.layers.specs.Points.{LetterFits};
ghost use Rattle.layers.specs.Listing.{LetterListed};
ghost use Rattle.layer_judge.specs.First.{IsFirst};
ghost use Rattle.layer_judge.specs.Judging.{layer_orders};
ghost use Rattle.layer_judge.specs.Rankings.{IsUncut};

use crate::judged::{EdgeFaces, Judged};
use fold_base::Letter;
use half_planes::SheetView;
use layers::crossings_by_faces;

fn mountain_fits<S: SheetView>(judged: &Judged<S>, first: u32, second: u32) -> bool
    requires first { first < length (S.sheet judged.now.sheet.now).faces }
    requires second { second < length (S.sheet judged.now.sheet.now).faces }
    ensures { IsTrue result ↔ LetterFits S.Ring.numbers.ring (S.sheet judged.now.sheet.now) (Above (S.sheet judged.now.sheet.now) (layer_orders judged.now.orders.now)) Mountain first second }
{
    if judged.on_normal_side(first, second) {
        return false;
    }
    !judged.on_normal_side(second, first)
}

fn valley_fits<S: SheetView>(judged: &Judged<S>, first: u32, second: u32) -> bool
    requires first { first < length (S.sheet judged.now.sheet.now).faces }
    requires second { second < length (S.sheet judged.now.sheet.now).faces }
    ensures { IsTrue result ↔ LetterFits S.Ring.numbers.ring (S.sheet judged.now.sheet.now) (Above (S.sheet judged.now.sheet.now) (layer_orders judged.now.orders.now)) Valley first second }
{
    judged.on_normal_side(first, second) && judged.on_normal_side(second, first)
}

/// Whether the two faces of an edge lie as its letter says.
fn letter_fits<S: SheetView>(judged: &Judged<S>, letter: Letter, first: u32, second: u32) -> bool
    requires first { first < length (S.sheet judged.now.sheet.now).faces }
    requires second { second < length (S.sheet judged.now.sheet.now).faces }
    ensures { IsTrue result ↔ LetterFits S.Ring.numbers.ring (S.sheet judged.now.sheet.now) (Above (S.sheet judged.now.sheet.now) (layer_orders judged.now.orders.now)) letter first second }
{
    match letter {
        Letter::Mountain => mountain_fits(judged, first, second),
        Letter::Valley => valley_fits(judged, first, second),
        Letter::Border => true,
        Letter::Flat => true,
        Letter::Unassigned => true,
        Letter::Join => true,
        Letter::Cut => true,
    }
}

/// The first crease whose letter doesn't fit.
pub(crate) fn first_letter<S: SheetView>(judged: &Judged<S>) -> Option<u32>
    ensures { IsFirst (LetterListed S.Ring.numbers.ring (S.sheet judged.now.sheet.now) (Above (S.sheet judged.now.sheet.now) (layer_orders judged.now.orders.now))) result }
{
    crossings_by_faces::<S::Ring>();
    for edge in 0..judged.sheet.edge_count() {
        if let Some(faces) = judged.faces(edge) {
            if !letter_fits(judged, judged.sheet.letter(edge), faces.first, faces.second) {
                return Some(edge);
            }
        }
    }
    None
}

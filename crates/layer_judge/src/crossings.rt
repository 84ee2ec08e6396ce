ghost use Rattle.layers.specs.Orders.{Above};
ghost use Rattle.layers.specs.Folded.{IsFolded};
ghost use Rattle.layers.specs.Listing.{IsListed};
ghost use Rattle.layer_judge.specs.First.{IsFirstNamed};
ghost use Rattle.layer_judge.specs.Judging.{layer_orders};

use crate::creases::first_creases;
use crate::cycles::first_cycle;
use crate::joins::first_joined;
use crate::judged::Judged;
use crate::letters::first_letter;
use crate::through::first_through;
use half_planes::SheetView;
use layers::Crossing;

/// The first crossing.
pub(crate) fn first_crossing<S: SheetView>(judged: &Judged<S>) -> Option<Crossing>
    requires { IsFolded S.Ring.numbers.ring (S.sheet judged.now.sheet.now) }
    ensures { IsFirstNamed (IsListed S.Ring.numbers.ring (S.sheet judged.now.sheet.now) (Above (S.sheet judged.now.sheet.now) (layer_orders judged.now.orders.now))) result }
{
    if let Some((first, second, third)) = first_cycle(judged) {
        return Some(Crossing::Cycle(first, second, third));
    }
    if let Some((crease, strand)) = first_through(judged) {
        return Some(Crossing::Through(crease, strand));
    }
    if let Some((crease, other)) = first_creases(judged) {
        return Some(Crossing::Creases(crease, other));
    }
    if let Some((join, strand)) = first_joined(judged) {
        return Some(Crossing::Joined(join, strand));
    }
    match first_letter(judged) {
        Some(edge) => Some(Crossing::Letter(edge)),
        None => None,
    }
}

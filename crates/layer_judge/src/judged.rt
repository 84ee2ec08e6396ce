ghost use Rattle.std.specs.Prelude.{◌≡◌, ◌↔◌, ◌<◌, ℕ, IsTrue, length};
ghost use Rattle.std.specs.Option.{MatchOption};
ghost use Rattle.layers.specs.Sheets.{HasFaces, IsCrease, IsJoin};
ghost use Rattle.layers.specs.Orders.{Above};
ghost use Rattle.layers.specs.Points.{IsOnNormalSide};
ghost use Rattle.layer_judge.specs.Judging.{layer_orders};
ghost use Rattle.layer_judge.specs.Rankings.{IsLettered, IsTwoFaced, NoneLettered, Tells};

use crate::table::Ranking;
use fold_base::Letter;
use fold_keys::FaceOrder;
use half_planes::SheetView;
use layers::orders_rank_faces;

/// An edge with its two faces.
#[derive(Clone, Copy)]
pub struct EdgeFaces {
    pub edge: u32,
    pub first: u32,
    pub second: u32,
}

/// A folded sheet, the orders of its faces, and the table of what they say.
#[derive(Drop)]
pub struct Judged<'a, S: SheetView> {
    pub sheet: &'a S,
    pub orders: &'a [FaceOrder],
    pub ranking: &'a Ranking,
    pub ghost count: { ranking.now.count ≡ length (S.sheet sheet.now).faces },
    pub ghost tells: { ∥ Tells (S.sheet sheet.now) ranking.now.count ranking.now.cells.items (layer_orders orders.now) ∥₁ },
}

impl<'a, S: SheetView> Judged<'a, S> {
    /// Whether an order says that the first face is above the second.
    pub fn is_above(&self, upper: u32, lower: u32) -> bool
        requires upper { upper < length (S.sheet self.now.sheet.now).faces }
        requires lower { lower < length (S.sheet self.now.sheet.now).faces }
        ensures { IsTrue result ↔ Above (S.sheet self.now.sheet.now) (layer_orders self.now.orders.now) upper lower }
    {
        orders_rank_faces::<S::Ring>();
        self.ranking.is_above(upper, lower)
    }

    /// Whether the first face lies on the side of the other to which that one's normal points.
    pub fn on_normal_side(&self, face: u32, other: u32) -> bool
        requires face { face < length (S.sheet self.now.sheet.now).faces }
        requires other { other < length (S.sheet self.now.sheet.now).faces }
        ensures { IsTrue result ↔ IsOnNormalSide S.Ring.numbers.ring (S.sheet self.now.sheet.now)
            (Above (S.sheet self.now.sheet.now) (layer_orders self.now.orders.now)) face other }
    {
        if self.sheet.is_turned(other) {
            self.is_above(other, face)
        } else {
            self.is_above(face, other)
        }
    }

    /// The two faces of an edge.
    pub fn faces(&self, edge: u32) -> Option<EdgeFaces>
        requires { edge < length (S.sheet self.now.sheet.now).edges }
        ensures { MatchOption result ((f g : ℕ) → ¬ HasFaces S.Ring.numbers.ring (S.sheet self.now.sheet.now) edge f g)
            (λ it. (it.edge ≡ edge) × IsTwoFaced S.Ring.numbers.ring (S.sheet self.now.sheet.now) edge it.first it.second) }
    {
        let sides = self.sheet.sides(edge);
        match sides.second {
            None => None,
            Some(second) => Some(EdgeFaces {
                edge,
                first: sides.first.face,
                second: second.face,
            }),
        }
    }

    /// The two faces of an M, V or U edge.
    pub fn crease(&self, edge: u32) -> Option<EdgeFaces>
        requires { edge < length (S.sheet self.now.sheet.now).edges }
        ensures { MatchOption result (NoneLettered S.Ring.numbers.ring (S.sheet self.now.sheet.now) IsCrease edge)
            (λ it. (it.edge ≡ edge) × IsLettered S.Ring.numbers.ring (S.sheet self.now.sheet.now) IsCrease edge it.first it.second) }
    {
        if !is_crease(self.sheet.letter(edge)) {
            return None;
        }
        self.faces(edge)
    }

    /// The two faces of an F or J edge.
    pub fn join(&self, edge: u32) -> Option<EdgeFaces>
        requires { edge < length (S.sheet self.now.sheet.now).edges }
        ensures { MatchOption result (NoneLettered S.Ring.numbers.ring (S.sheet self.now.sheet.now) IsJoin edge)
            (λ it. (it.edge ≡ edge) × IsLettered S.Ring.numbers.ring (S.sheet self.now.sheet.now) IsJoin edge it.first it.second) }
    {
        if !is_join(self.sheet.letter(edge)) {
            return None;
        }
        self.faces(edge)
    }
}

fn is_crease(letter: Letter) -> bool
    ensures { IsTrue result ↔ IsCrease letter }
{
    match letter {
        Letter::Border => false,
        Letter::Mountain => true,
        Letter::Valley => true,
        Letter::Flat => false,
        Letter::Unassigned => true,
        Letter::Join => false,
        Letter::Cut => false,
    }
}

fn is_join(letter: Letter) -> bool
    ensures { IsTrue result ↔ IsJoin letter }
{
    match letter {
        Letter::Border => false,
        Letter::Mountain => false,
        Letter::Valley => false,
        Letter::Flat => true,
        Letter::Unassigned => false,
        Letter::Join => true,
        Letter::Cut => false,
    }
}

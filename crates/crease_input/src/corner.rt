// Points as keys.
use exact_number::Exact;
use scaled_plane::Pair;
use std::hash::{Hash, Hasher};

/// A point as a key: two are equal where their parts are.
#[derive(Clone, Copy)]
pub(crate) struct Corner<N> {
    pub(crate) point: Pair<N>,
}

impl<N: Exact> PartialEq for Corner<N> {
    ghost use Rattle.crease_input.specs.Points.{is_at};
    ghost use Rattle.crease_input.specs.Keys.{points_equiv};
    ghost use Rattle.std.specs.Cmp.{partial_equiv_from_equiv, on_equiv};

    ghost eq = { λ a b. is_at N.parts a.point b.point };

    ghost laws = { partial_equiv_from_equiv (on_equiv (λ c. c.point) (points_equiv N.parts)) };

    fn eq(&self, other: &Corner<N>) -> bool {
        let (first, second) = (self.point, other.point);
        first.x.parts() == second.x.parts() && first.y.parts() == second.y.parts()
    }
}

impl<N: Exact> Eq for Corner<N> {
    ghost use Rattle.crease_input.specs.Keys.{points_equiv};
    ghost use Rattle.std.specs.Cmp.{on_equiv};

    ghost laws = { on_equiv (λ c. c.point) (points_equiv N.parts) };
}

impl<N: Exact> Hash for Corner<N> {
    ghost use Rattle.crease_input.specs.Keys.{writes_of, points_alike};
    ghost use Rattle.std.specs.Hash.{on_Alike};

    ghost hash_input = { λ c. writes_of N.parts c.point };

    ghost respects_eq = { (on_Alike (λ c. c.point) (points_alike N.parts)).fed };

    fn hash<H: Hasher>(&self, state: &mut H) {
        self.point.x.parts().hash(state);
        self.point.y.parts().hash(state);
    }
}

ghost use Rattle.std.specs.Prelude.{◌≡◌, ℕ, ◌≤◌, ◌*◌, ◌^◌, List as Listed};
ghost use Rattle.algebra.specs.OrderedRing.{OrderedRing};
ghost use Rattle.plane.specs.declared.point.Point.{Point as AnyPoint};
ghost use Rattle.plane.specs.Points.{x_from, y_from};
ghost use Rattle.plane.specs.Lines.{line, value};
ghost use Rattle.exact_number.specs.Sizes.{whole_size};
ghost use Rattle.scaled_plane.specs.Drawn.{IsDrawn, IsScaledPoint};
ghost use Rattle.scaled_plane.specs.Sizes.{IsDrawnSize, IsLineSize, IsScaledSize};
ghost use Rattle.scaled_plane.specs.Walks.{ComesAfter};
ghost use Rattle.scaled_plane.specs.declared.drawing.Edge.{Edge as AnyEdge};

use exact_number::Whole;

/// How large the numbers are that are formed from scaled points, whose parts are at most 2^22, over each K at most 3, by the
/// size |a| + 2·|b|: polynomials of degree one to five in the coordinates, all far below 2^127.
pub fn degree_bounds<W: Whole>()
    ensures points { (p : AnyPoint W) → IsScaledPoint W.numbers p → IsScaledSize W.pair p }
    ensures lines { (p q : AnyPoint W) → IsScaledPoint W.numbers p → IsScaledPoint W.numbers q
        → IsLineSize W.pair (line W.numbers.ops p q) }
    ensures crossings { (p : AnyPoint W) → IsDrawn W.numbers p → IsDrawnSize W.pair p }
    ensures sides { (a b p : AnyPoint W) → IsScaledPoint W.numbers a → IsScaledPoint W.numbers b → IsDrawn W.numbers p
        → whole_size (W.pair (value W.numbers.ops (line W.numbers.ops a b) p)) ≤ 243 * 2 ^ 92 }
    ensures compared { (p q : AnyPoint W) → IsDrawn W.numbers p → IsDrawn W.numbers q
        → (whole_size (W.pair (x_from W.numbers.ops q p)) ≤ 243 * 2 ^ 117)
        × (whole_size (W.pair (y_from W.numbers.ops q p)) ≤ 243 * 2 ^ 117) }
{}

/// At most one directed piece comes after a directed piece, and it comes after no other.
pub fn one_piece_after<T>()
    ensures after { (K : OrderedRing T) (vertices : Listed (AnyPoint T)) (edges : Listed AnyEdge) (u v w z : ℕ)
        → ComesAfter K vertices edges u v w → ComesAfter K vertices edges u v z → w ≡ z }
    ensures before { (K : OrderedRing T) (vertices : Listed (AnyPoint T)) (edges : Listed AnyEdge) (u z v w : ℕ)
        → ComesAfter K vertices edges u v w → ComesAfter K vertices edges z v w → u ≡ z }
{}

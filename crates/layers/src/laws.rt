ghost use Rattle.std.specs.Prelude.{◌≡◌, ◌↔◌, ◌⊎◌, ◌<◌, ℕ, List, Contains};
ghost use Rattle.std.specs.Cmp.{IsTotalOrder};
ghost use Rattle.std.specs.declared.cmp.Ordering.{Ordering};
ghost use Rattle.std.specs.declared.cmp.Ordering.TheVariants.{Equal};
ghost use Rattle.algebra.proofs.Integers.{integers};
ghost use Rattle.algebra.specs.OrderedRing.{OrderedRing};
ghost use Rattle.plane.specs.declared.point.Point.{Point};
ghost use Rattle.plane.specs.declared.point.Line.{Line};
ghost use Rattle.plane.specs.Points.{IsPoint};
ghost use Rattle.plane.specs.Lines.{LiesIn};
ghost use Rattle.layers.specs.declared.crossing.Crossing.{Crossing as AnyCrossing};
ghost use Rattle.layers.specs.declared.crossing.Crossing.TheVariants.{Through, Creases, Joined, Letter};
ghost use Rattle.layers.specs.declared.crossing.Strand.TheVariants.{Face, Edge};
ghost use Rattle.layers.specs.Pieces.{Piece, IsInMiddle, pieces_round, side_of};
ghost use Rattle.layers.specs.Sheets.{FoldedFace, FoldedSheet, HasFaces, IsCrease, IsImage, IsInside, IsInsideFace, IsJoin, Overlap, inner_side};
ghost use Rattle.layers.specs.Orders.{LayerOrder, Above, LiesBetween, NoClash, OneBetween, Opposed, RanksOverlaps, Unranked};
ghost use Rattle.layers.specs.Points.{IsAtSide, IsGeneric, IsLayered, IsOrderly, IsSeam, LetterFits};
ghost use Rattle.layers.specs.Crossings.{Occurs, crossing_order};
ghost use Rattle.layers.specs.Listing.{AreBeside, Changes, EdgeEnters, IsListed, RunTogether};
ghost use Rattle.layers.specs.Folded.{IsConvex, IsFolded};
ghost use Rattle.layers.specs.Square.{misorders, orders as square_orders, square};

/// A convex face has a point inside. Near each point in the middle of one of its directed pieces, the points on the face's side
/// of that piece are inside.
pub fn convex_faces_hold_points<T>()
    ensures inside { (K : OrderedRing T) (face : FoldedFace T) → IsConvex K face
        → (p : Point T) × IsPoint K p × IsInsideFace K face p }
    ensures near { (K : OrderedRing T) (face : FoldedFace T) → IsConvex K face → (s : Piece T) (p : Point T)
        → Contains (pieces_round face.corners) s → IsInMiddle K s p
        → (halves : List (Line T)) × LiesIn K halves p
        × ((q : Point T) → LiesIn K halves q → side_of K s q ≡ inner_side face.turned → IsInsideFace K face q) }
{}

/// Whether one face is above another by a list of orders can be told. No face is both above another and below it exactly where
/// no two orders say opposite things, and the orders rank all overlaps exactly where they leave none unranked.
pub fn orders_rank_faces<T>()
    ensures decided { (sheet : FoldedSheet T) (orders : List LayerOrder) (f g : ℕ)
        → Above sheet orders f g ⊎ ¬ Above sheet orders f g }
    ensures one_way { (sheet : FoldedSheet T) (orders : List LayerOrder)
        → ((i j : ℕ) → i < j → ¬ Opposed sheet orders i j) ↔ NoClash (Above sheet orders) }
    ensures ranked { (K : OrderedRing T) (sheet : FoldedSheet T) (orders : List LayerOrder)
        → ((f g : ℕ) → ¬ Unranked K sheet (Above sheet orders) f g) ↔ RanksOverlaps K sheet (Above sheet orders) }
{}

/// An intersection of open half-planes that holds a point holds one that is on no folded edge. If it holds a point of a folded
/// edge that is none of its ends, then it holds a seam point of that edge.
pub fn open_parts_hold_generic_points<T>()
    ensures generic { (K : OrderedRing T) (sheet : FoldedSheet T) → IsFolded K sheet → (halves : List (Line T)) (p : Point T)
        → IsPoint K p → LiesIn K halves p
        → (q : Point T) × IsPoint K q × LiesIn K halves q × IsGeneric K sheet q }
    ensures seam { (K : OrderedRing T) (sheet : FoldedSheet T) → IsFolded K sheet → (halves : List (Line T)) (p : Point T)
        (e f : ℕ) (line : Piece T) → IsImage K sheet e f line → IsInMiddle K line p → LiesIn K halves p
        → (q : Point T) × IsInMiddle K line q × LiesIn K halves q × IsSeam K sheet line q }
{}

/// The faces at one side of a seam point overlap pairwise.
pub fn faces_overlap_at_a_seam<T>()
    ensures { (K : OrderedRing T) (sheet : FoldedSheet T) → IsFolded K sheet → (line : Piece T) (p : Point T)
        (side : Ordering) (f g : ℕ) → IsSeam K sheet line p → IsAtSide K sheet line p side f → IsAtSide K sheet line p side g
        → Overlap K sheet f g }
{}

/// Where the orders clash nowhere and rank each two faces that overlap, the faces with a point inside can be listed, each above
/// every later one, exactly where no three of them are ranked in a ring.
pub fn stacks_can_be_listed<T>()
    ensures { (K : OrderedRing T) (sheet : FoldedSheet T) (orders : List LayerOrder)
        → NoClash (Above sheet orders) → RanksOverlaps K sheet (Above sheet orders) → (p : Point T) → IsPoint K p
        → IsOrderly K sheet (Above sheet orders) p
        ↔ ((f g h : ℕ) → IsInside K sheet f p → IsInside K sheet g p → IsInside K sheet h p
        → Above sheet orders f g → Above sheet orders g h → ¬ Above sheet orders h f) }
{}

/// Each kind of crossing of an edge, as a test of the faces of the edges in question, whichever of them is called the first.
pub fn crossings_by_faces<T>()
    ensures enters_crease { (K : OrderedRing T) (sheet : FoldedSheet T) (orders : List LayerOrder) (e f g h : ℕ)
        (faces : HasFaces K sheet e f g) → IsCrease faces.edge.letter
        → IsListed K sheet (Above sheet orders) (Through e (Face h))
        ↔ (EdgeEnters K sheet e h × LiesBetween (Above sheet orders) h f g) }
    ensures enters_join { (K : OrderedRing T) (sheet : FoldedSheet T) (orders : List LayerOrder) (e f g h : ℕ)
        (faces : HasFaces K sheet e f g) → IsJoin faces.edge.letter
        → IsListed K sheet (Above sheet orders) (Joined e (Face h))
        ↔ (EdgeEnters K sheet e h × LiesBetween (Above sheet orders) h f g) }
    ensures crease_join { (K : OrderedRing T) (sheet : FoldedSheet T) (orders : List LayerOrder) → IsFolded K sheet
        → (e f g d h k : ℕ) (faces : HasFaces K sheet e f g) (others : HasFaces K sheet d h k)
        → IsCrease faces.edge.letter → IsJoin others.edge.letter
        → IsListed K sheet (Above sheet orders) (Through e (Edge d))
        ↔ (RunTogether K sheet e d × ((AreBeside K sheet e f h × LiesBetween (Above sheet orders) h f g)
        ⊎ (AreBeside K sheet e f k × LiesBetween (Above sheet orders) k f g))) }
    ensures creases { (K : OrderedRing T) (sheet : FoldedSheet T) (orders : List LayerOrder) → IsFolded K sheet
        → (e f g d h k : ℕ) (faces : HasFaces K sheet e f g) (others : HasFaces K sheet d h k)
        → IsCrease faces.edge.letter → IsCrease others.edge.letter
        → IsListed K sheet (Above sheet orders) (Creases e d)
        ↔ ((e < d) × RunTogether K sheet e d × AreBeside K sheet e f h × OneBetween (Above sheet orders) h k f g) }
    ensures joins { (K : OrderedRing T) (sheet : FoldedSheet T) (orders : List LayerOrder) → IsFolded K sheet
        → (e f g d h k : ℕ) (faces : HasFaces K sheet e f g) (others : HasFaces K sheet d h k)
        → IsJoin faces.edge.letter → IsJoin others.edge.letter
        → IsListed K sheet (Above sheet orders) (Joined e (Edge d))
        ↔ ((e < d) × RunTogether K sheet e d × ((AreBeside K sheet e f h × Changes K sheet (Above sheet orders) f g h k)
        ⊎ (AreBeside K sheet e f k × Changes K sheet (Above sheet orders) f g k h))) }
    ensures letter { (K : OrderedRing T) (sheet : FoldedSheet T) (orders : List LayerOrder) (e f g : ℕ)
        (faces : HasFaces K sheet e f g)
        → IsListed K sheet (Above sheet orders) (Letter e) ↔ (¬ LetterFits K sheet (Above sheet orders) faces.edge.letter f g) }
{}

/// The order of crossings is total, and tells apart all that aren't one crossing.
pub fn crossings_in_order()
    ensures total { IsTotalOrder crossing_order }
    ensures same { (c d : AnyCrossing) → crossing_order c d ≡ Equal ↔ c ≡ d }
{}

/// Each kind of crossing with its ids stands by the list of tests exactly where it occurs at some point. So, where the orders
/// clash nowhere and rank each two faces that overlap, no crossing stands by the list exactly where each stack has an order,
/// each seam point is clear and the letters fit.
pub fn list_decides_points<T>()
    ensures kinds { (K : OrderedRing T) (sheet : FoldedSheet T) (orders : List LayerOrder) → IsFolded K sheet → (c : AnyCrossing)
        → IsListed K sheet (Above sheet orders) c ↔ Occurs K sheet (Above sheet orders) c }
    ensures whole { (K : OrderedRing T) (sheet : FoldedSheet T) (orders : List LayerOrder) → IsFolded K sheet
        → NoClash (Above sheet orders) → RanksOverlaps K sheet (Above sheet orders)
        → ((c : AnyCrossing) → ¬ IsListed K sheet (Above sheet orders) c) ↔ IsLayered K sheet (Above sheet orders) }
{}

/// A square folded in half is a folded sheet, and an order of its two faces ranks them and leaves it layered, so that what the
/// theorems ask for can be met. By the opposite order the letter of its crease doesn't fit.
pub fn folded_square_is_layered()
    ensures folded { IsFolded integers square }
    ensures one_way { NoClash (Above square square_orders) }
    ensures ranked { RanksOverlaps integers square (Above square square_orders) }
    ensures layered { IsLayered integers square (Above square square_orders) }
    ensures misordered { Occurs integers square (Above square misorders) (Letter 4) }
{}

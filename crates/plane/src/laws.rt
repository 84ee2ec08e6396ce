ghost use Rattle.std.specs.Prelude.{◌≡◌, ◌⊎◌, ◌↔◌, List, Contains, IsTrue};
ghost use Rattle.std.specs.Ordering.{is_le};
ghost use Rattle.std.specs.Cmp.{IsTotalOrder};
ghost use Rattle.std.specs.declared.cmp.Ordering.TheVariants.{Less, Equal};
ghost use Rattle.algebra.specs.OrderedRing.{OrderedRing};
ghost use Rattle.plane.specs.declared.point.Point.{Point as AnyPoint};
ghost use Rattle.plane.specs.declared.point.Line.{Line as AnyLine};
ghost use Rattle.plane.specs.Points.{IsPoint, IsSamePoint, combination, multiple_of, point_order};
ghost use Rattle.plane.specs.Lines.{AreApart, IsAbove, IsNotAbove, LiesIn, crossing, determinant, side, value};
ghost use Rattle.plane.specs.Segments.{IsOn, IsOnBoth, SegmentsMeet};
ghost use Rattle.plane.specs.Directions.{Direction, Differ, IsClockwise};

/// Lines are linear functions of points, and determinants are linear, cyclic and alternating; of four points the sums of the
/// first two and of the last two agree that stand for the common point of their lines.
pub fn lines_are_linear<T>()
    ensures combination { (K : OrderedRing T) (l : AnyLine T) (s t : T) (p q : AnyPoint T)
        → value K.ops l (combination K.ops s p t q) ≡ K.add (K.mul s (value K.ops l p)) (K.mul t (value K.ops l q)) }
    ensures multiple { (K : OrderedRing T) (l : AnyLine T) (m : T) (p : AnyPoint T)
        → value K.ops l (multiple_of K.ops m p) ≡ K.mul m (value K.ops l p) }
    ensures turned { (K : OrderedRing T) (p q r : AnyPoint T) → determinant K.ops p q r ≡ determinant K.ops q r p }
    ensures swapped { (K : OrderedRing T) (p q r : AnyPoint T) → determinant K.ops q p r ≡ K.neg (determinant K.ops p q r) }
    ensures exchange { (K : OrderedRing T) (p q a b : AnyPoint T)
        → combination K.ops (determinant K.ops a q b) p (determinant K.ops a b p) q
        ≡ combination K.ops (determinant K.ops p q b) a (determinant K.ops q p a) b }
{}

/// Two segments, the second with two different ends, have no point in common exactly where some line has the ends of the
/// first on its left and neither end of the second.
pub fn segments_are_parted<T>()
    ensures { (K : OrderedRing T) (p q a b : AnyPoint T) → IsPoint K p → IsPoint K q → IsPoint K a → IsPoint K b
        → ¬ IsSamePoint K a b → (¬ SegmentsMeet K p q a b)
        ↔ ((l : AnyLine T) × IsAbove K l p × IsAbove K l q × IsNotAbove K l a × IsNotAbove K l b) }
{}

/// An intersection of open half-planes that holds a point holds one that is on none of finitely many lines.
pub fn open_parts_are_dense<T>()
    ensures { (K : OrderedRing T) (lines halves : List (AnyLine T)) (p : AnyPoint T) → IsPoint K p → LiesIn K halves p
        → ((l : AnyLine T) → Contains lines l → (v : AnyPoint T) × IsPoint K v × ¬ (K.sign (value K.ops l v) ≡ Equal))
        → (q : AnyPoint T) × IsPoint K q × LiesIn K halves q
        × ((l : AnyLine T) → Contains lines l → ¬ (K.sign (value K.ops l q) ≡ Equal)) }
{}

/// The order of points is total, and tells apart all that aren't one point.
pub fn points_in_order<T>()
    ensures total { (K : OrderedRing T)
        → IsTotalOrder (λ (p q : (r : AnyPoint T) × IsPoint K r). point_order K p.0 q.0) }
    ensures same { (K : OrderedRing T) (p q : AnyPoint T) → point_order K p q ≡ Equal ↔ IsSamePoint K p q }
{}

/// Two closed segments, whose ends don't all lie on one line, share a point exactly where the ends of each aren't strictly on
/// one side of the other's line. It's the crossing of the lines, and no other.
pub fn segments_share_a_point<T>()
    ensures share { (K : OrderedRing T) (a b c d : AnyPoint T) → IsPoint K a → IsPoint K b → IsPoint K c → IsPoint K d
        → ¬ ((side K a b c ≡ Equal) × (side K a b d ≡ Equal))
        → SegmentsMeet K a b c d
        ↔ (AreApart (side K a b c) (side K a b d) × AreApart (side K c d a) (side K c d b)) }
    ensures only { (K : OrderedRing T) (a b c d p : AnyPoint T) → IsPoint K a → IsPoint K b → IsPoint K c → IsPoint K d
        → IsOnBoth K a b c d p → IsSamePoint K p (crossing K a b c d) }
{}

/// A point of a line lies on a segment along it exactly where it stands between the ends.
pub fn points_between_in_order<T>()
    ensures { (K : OrderedRing T) (a b p : AnyPoint T) → IsPoint K a → IsPoint K b → IsPoint K p
        → point_order K a b ≡ Less → side K a b p ≡ Equal
        → IsOn K a b p ↔ (IsTrue (is_le (point_order K a p)) × IsTrue (is_le (point_order K p b))) }
{}

/// Clockwise order is a cyclic order.
pub fn clockwise_order<T>()
    ensures turned { (K : OrderedRing T) (d e f : Direction T) → IsClockwise K d e f → IsClockwise K e f d }
    ensures once { (K : OrderedRing T) (d e f : Direction T) → IsClockwise K d e f → ¬ IsClockwise K d f e }
    ensures chain { (K : OrderedRing T) (d e f g : Direction T)
        → IsClockwise K d e f → IsClockwise K d f g → IsClockwise K d e g }
    ensures apart { (K : OrderedRing T) (d f : Direction T) → ¬ IsClockwise K d d f }
    ensures either { (K : OrderedRing T) (d e f : Direction T) → Differ K d e → Differ K e f → Differ K f d
        → IsClockwise K d e f ⊎ IsClockwise K d f e }
{}

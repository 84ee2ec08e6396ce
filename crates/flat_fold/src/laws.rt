ghost use Rattle.std.specs.Prelude.{◌≡◌, ◌↔◌, ◌<◌, ℕ, List, None, length};
ghost use Rattle.fold_base.specs.declared.letter.Letter.TheVariants.{Border};
ghost use Rattle.algebra.specs.OrderedField.{OrderedField};
ghost use Rattle.flat_fold.specs.Computed.{Computed, ComputedField};
ghost use Rattle.flat_fold.specs.declared.sides.Sides.{Sides as AnySides};
ghost use Rattle.flat_fold.specs.EdgeSides.{HasSides, KnowsSides};
ghost use Rattle.flat_fold.specs.Faces.{IsWalk, corners_at, edge_at};
ghost use Rattle.flat_fold.specs.EdgeImages.{AreEdgeImages};
ghost use Rattle.flat_fold.specs.Folded.{IsFirstPlacePast, IsFolded, IsFolding, Layout};
ghost use Rattle.flat_fold.specs.Images.{AreImages, AreNumbers, corner_at};
ghost use Rattle.flat_fold.specs.declared.images.Origin.{Origin as AnyOrigin};
ghost use Rattle.flat_fold.specs.Folding.{IsFoldable, IsPathMap, Closes, Disagrees, GoesRound, IsFirstDisagreeing, IsFirstMapPast, point, walk_map};
ghost use Rattle.flat_fold.specs.LaidEdges.{AreLaid};
ghost use Rattle.flat_fold.specs.Motions.{place, identity, composed, reflection, IsIsometry, IsOnLine, squared_distance, doubled_area, handedness};
ghost use Rattle.flat_fold.specs.PathMaps.{ArePathMaps};
ghost use Rattle.flat_fold.specs.Sheets.{FormSheet, drawing_of, unfolded_face};
ghost use Rattle.layers.specs.Folded.{IsConvex};
ghost use Rattle.regions.specs.Faces.{IsConnected, IsPlane};
ghost use Rattle.scaled_plane.specs.Sheets.{HasSide};
ghost use Rattle.scaled_plane.specs.WellSet.{IsWellSet};
ghost use Rattle.flat_fold.specs.Triangle.{triangle_edges, triangle_faces};
ghost use Rattle.flat_fold.specs.Operations.{placing, composing, reflecting};

use crate::motion::Motion;
use exact_number::Exact;
use scaled_plane::{Edge, Ends, Face, Pair};

/// The operations come to the places and maps that they are named for.
pub fn operations<T>()
    ensures place { (K : ComputedField T) (m : Motion T) (a : Pair T) → (placing K m a).value ≡ place K.field m a }
    ensures composed { (K : ComputedField T) (m n : Motion T) → (composing K m n).value ≡ composed K.field m n }
    ensures reflection { (K : ComputedField T) (a b : Pair T) → (reflecting K a b).value ≡ reflection K.field a b }
{}

/// How maps compose: the map of both places a point where the outer places what the inner does, to compose is associative
/// with the identity as its one, and turns count as signs. Two maps that both turn over, or both don't, are one where they
/// agree on two different points.
pub fn compositions<T>()
    ensures composed { (F : OrderedField T) (m n : Motion T) (a : Pair T) → place F (composed F m n) a ≡ place F m (place F n a) }
    ensures identity { (F : OrderedField T) (a : Pair T) → place F (identity F) a ≡ a }
    ensures associative { (F : OrderedField T) (m n k : Motion T) → composed F (composed F m n) k ≡ composed F m (composed F n k) }
    ensures identity_first { (F : OrderedField T) (m : Motion T) → composed F m (identity F) ≡ m }
    ensures identity_last { (F : OrderedField T) (m : Motion T) → composed F (identity F) m ≡ m }
    ensures handed { (F : OrderedField T) (m n : Motion T) → handedness F (composed F m n) ≡ F.mul (handedness F m) (handedness F n) }
    ensures two_points { (F : OrderedField T) (m n : Motion T) (a b : Pair T) → ¬ (a ≡ b) → m.turned ≡ n.turned
        → place F m a ≡ place F n a → place F m b ≡ place F n b → m ≡ n }
{}

/// The reflection in the line through two points is its own inverse, leaves each point of the line where it is, and turns
/// the plane over.
pub fn reflections<T>()
    ensures twice { (F : OrderedField T) (a b : Pair T) → ¬ (a ≡ b) → composed F (reflection F a b) (reflection F a b) ≡ identity F }
    ensures line { (F : OrderedField T) (a b p : Pair T) → ¬ (a ≡ b) → IsOnLine F a b p → place F (reflection F a b) p ≡ p }
    ensures areas { (F : OrderedField T) (a b p q r : Pair T) → ¬ (a ≡ b)
        → doubled_area F (place F (reflection F a b) p) (place F (reflection F a b) q) (place F (reflection F a b) r) ≡ F.neg (doubled_area F p q r) }
    ensures isometry { (F : OrderedField T) (a b : Pair T) → ¬ (a ≡ b) → IsIsometry F (reflection F a b) }
{}

/// Isometries keep distances, and areas up to the sign of their turn; the identity is one, and two compose to one.
pub fn isometries<T>()
    ensures distance { (F : OrderedField T) (m : Motion T) (a b : Pair T) → IsIsometry F m
        → squared_distance F (place F m a) (place F m b) ≡ squared_distance F a b }
    ensures area { (F : OrderedField T) (m : Motion T) (a b d : Pair T) → IsIsometry F m
        → doubled_area F (place F m a) (place F m b) (place F m d) ≡ F.mul (handedness F m) (doubled_area F a b d) }
    ensures identity { (F : OrderedField T) → IsIsometry F (identity F) }
    ensures composed { (F : OrderedField T) (m n : Motion T) → IsIsometry F m → IsIsometry F n → IsIsometry F (composed F m n) }
{}

/// Faces that have path maps close exactly where no edge disagrees: then every closed walk of faces, by whatever edges, has
/// the identity as its map. Then too each walk from face 0 to a face gives the face's path map, and the faces that follow
/// each other round a vertex place it alike.
pub fn closing<T>()
    ensures exactly { (K : ComputedField T) (coords : List (Pair T)) (edges : List Edge) (faces : List Face) → IsFoldable K.field coords edges faces
        → (path : ℕ → Computed (Motion T)) → ((f : ℕ) → f < length faces → IsPathMap K coords edges faces f (path f))
        → Closes K.field coords edges faces ↔ ((e : ℕ) → ¬ Disagrees K coords edges faces e) }
    ensures walks { (K : ComputedField T) (coords : List (Pair T)) (edges : List Edge) (faces : List Face) → IsFoldable K.field coords edges faces
        → Closes K.field coords edges faces → (f : ℕ) (m : Computed (Motion T)) (es : List ℕ) → IsPathMap K coords edges faces f m
        → IsWalk edges faces 0 es f → walk_map K.field coords edges es ≡ m.value }
    ensures vertices { (K : ComputedField T) (coords : List (Pair T)) (edges : List Edge) (faces : List Face) → IsFoldable K.field coords edges faces
        → Closes K.field coords edges faces → (v f g : ℕ) (es : List ℕ) (m n : Computed (Motion T)) → IsWalk edges faces f es g
        → GoesRound K.field coords edges faces v es → IsPathMap K coords edges faces f m → IsPathMap K coords edges faces g n
        → place K.field m.value (point K.field coords v) ≡ place K.field n.value (point K.field coords v) }
{}

/// A triangle with its face is foldable: what folding asks can be met.
pub fn triangle_is_foldable<T>()
    ensures { (F : OrderedField T) (coords : List (Pair T)) → length coords ≡ 3 → IsFoldable F coords triangle_edges triangle_faces }
{}

/// A sheet is foldable: of its type comes all that folding asks.
pub fn sheets_are_foldable<N: Exact>()
    ensures { (ends : Ends N) (faces : List Face) → FormSheet N.parts N.Ring.numbers ends faces
        → IsFoldable N.numbers.field ends.coords ends.edges faces }
{}

/// The drawing of a sheet is plane and connected, and well set with each edge on the line through its own ends. Its points are
/// those to which the sheet's vertices are scaled.
pub fn sheets_are_well_set<N: Exact>()
    ensures plane { (ends : Ends N) (faces : List Face) (h : FormSheet N.parts N.Ring.numbers ends faces)
        → IsPlane N.Ring.numbers.ring h.scaled.points ends.edges }
    ensures connected { (ends : Ends N) (faces : List Face) (h : FormSheet N.parts N.Ring.numbers ends faces)
        → IsConnected N.Ring.numbers.ring h.scaled.points ends.edges }
    ensures well_set { (ends : Ends N) (faces : List Face) (h : FormSheet N.parts N.Ring.numbers ends faces)
        → IsWellSet N.Ring.numbers (drawing_of h.scaled.points ends.edges) }
{}

/// Each edge of a sheet is a side of some face: of one face where its letter is B, and where it isn't, of two, one on either
/// side.
pub fn each_edge_has_a_face<N: Exact>()
    ensures some { (ends : Ends N) (faces : List Face) → FormSheet N.parts N.Ring.numbers ends faces → (e : ℕ) → e < length ends.edges
        → (sides : AnySides) → HasSides faces (edge_at ends.edges e) sides → ¬ ((sides.left ≡ None) × (sides.right ≡ None)) }
    ensures border { (ends : Ends N) (faces : List Face) → FormSheet N.parts N.Ring.numbers ends faces → (e : ℕ) → e < length ends.edges
        → (edge_at ends.edges e).letter ≡ Border → (f g : ℕ) → HasSide faces f (edge_at ends.edges e) → HasSide faces g (edge_at ends.edges e) → f ≡ g }
    ensures between { (ends : Ends N) (faces : List Face) → FormSheet N.parts N.Ring.numbers ends faces → (e : ℕ) → e < length ends.edges
        → ¬ ((edge_at ends.edges e).letter ≡ Border) → (sides : AnySides) → HasSides faces (edge_at ends.edges e) sides
        → ¬ (sides.left ≡ None) × ¬ (sides.right ≡ None) }
{}

/// The images of a folded sheet's edges are those by places: of each edge the different pairs of images at which its faces
/// lay its ends, in the order of the least face that lays them at each.
pub fn edge_images_by_places<N: Exact>()
    ensures { (layout : Layout N N.Ring) (edges : List Edge) → FormSheet N.parts N.Ring.numbers layout.sheet.ends layout.sheet.faces
        → IsFolded N.parts N.numbers.field N.Ring.numbers layout → AreEdgeImages layout edges ↔ AreLaid N.numbers.field layout edges }
{}

/// Path maps are found in one way: what `path_maps` answers is one, but for want of memory, and so is the least edge that
/// disagrees.
pub fn path_maps_are_one<T>()
    ensures maps { (K : ComputedField T) (coords : List (Pair T)) (edges : List Edge) (faces : List Face) → IsFoldable K.field coords edges faces
        → (maps others : List (Motion T)) → ArePathMaps K coords edges faces maps → ArePathMaps K coords edges faces others → maps ≡ others }
    ensures either { (K : ComputedField T) (coords : List (Pair T)) (edges : List Edge) (faces : List Face) → IsFoldable K.field coords edges faces
        → (maps : List (Motion T)) (f : ℕ) → ArePathMaps K coords edges faces maps → ¬ IsFirstMapPast K coords edges faces f }
    ensures past { (K : ComputedField T) (coords : List (Pair T)) (edges : List Edge) (faces : List Face) (f g : ℕ)
        → IsFirstMapPast K coords edges faces f → IsFirstMapPast K coords edges faces g → f ≡ g }
    ensures disagreeing { (K : ComputedField T) (coords : List (Pair T)) (edges : List Edge) (faces : List Face) (d e : ℕ)
        → IsFirstDisagreeing K coords edges faces d → IsFirstDisagreeing K coords edges faces e → d ≡ e }
{}

/// The faces of a sheet are convex: no corner lies outside of a directed piece of its face, and some corner lies inside.
pub fn faces_of_sheets_are_convex<N: Exact>()
    ensures { (ends : Ends N) (faces : List Face) (h : FormSheet N.parts N.Ring.numbers ends faces) (f : ℕ) → f < length faces
        → IsConvex N.Ring.numbers.ring (unfolded_face N.Ring.numbers.ring h.scaled.points (corners_at faces f)) }
{}

/// The edges of a sheet have one list of sides.
pub fn one_list_of_sides<N: Exact>()
    ensures { (ends : Ends N) (faces : List Face) → FormSheet N.parts N.Ring.numbers ends faces → (sides others : List AnySides)
        → KnowsSides faces ends.edges sides → KnowsSides faces ends.edges others → sides ≡ others }
{}

/// A sheet is folded in one way: its faces have one map each, its vertices one list of images, its corners one number each;
/// and the first corner whose place overflows is one.
pub fn one_folding<T>()
    ensures folding { (F : OrderedField T) (coords : List (Pair T)) (edges : List Edge) (faces : List Face) → IsFoldable F coords edges faces
        → (maps : List (Motion T)) (origins : List AnyOrigin) (images : List (Pair T)) (maps' : List (Motion T)) (origins' : List AnyOrigin) (images' : List (Pair T))
        → IsFolding F coords edges faces maps origins images → IsFolding F coords edges faces maps' origins' images'
        → (maps ≡ maps') × (origins ≡ origins') × (images ≡ images') }
    ensures corners { (F : OrderedField T) (coords : List (Pair T)) (faces : List Face) (maps : List (Motion T)) (origins : List AnyOrigin) (images : List (Pair T))
        → AreImages F coords faces maps origins images → (numbers others : List Face)
        → AreNumbers F coords faces maps origins images numbers → AreNumbers F coords faces maps origins images others → numbers ≡ others }
    ensures past { (K : ComputedField T) (coords : List (Pair T)) (edges : List Edge) (faces : List Face) (f k g j : ℕ)
        → IsFirstPlacePast K coords edges faces f k → IsFirstPlacePast K coords edges faces g j
        → (f ≡ g) × (corner_at faces f k ≡ corner_at faces g j) }
{}

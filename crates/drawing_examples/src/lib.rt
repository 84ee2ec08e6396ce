//! Small drawings whose vertices, pieces, letters and following pieces are known, as proved clauses: what the definitions of
//! drawings say of them.
#![tactic(auto)]

ghost use Rattle.std.specs.Prelude.{◌≡◌, ℕ, pos, negsuc, [], ◌∷◌};
ghost use Rattle.fold_base.specs.declared.letter.Letter.TheVariants.{Border, Mountain, Unassigned, Valley};
ghost use Rattle.algebra.proofs.Integers.{integers};
ghost use Rattle.scaled_plane.specs.Counts.{tests_for};
ghost use Rattle.scaled_plane.specs.Sheets.{HasFlaw, IsSheet};
ghost use Rattle.regions.specs.Triangle.{corners, sides};
ghost use Rattle.scaled_plane.specs.declared.sheet.SheetFlaw.TheVariants.{SameVertex, Loose, NotPlane, Parted, EmptySheet, FaceWrong, FaceMissing, NotConvex, BorderWrong, Pinched, Severed};
ghost use Rattle.drawing_examples.specs.Examples.{AreCutInto, FollowAs, HaveRegionsOf, at, crease, edge, face, over, uprights};

/// What small drawings are cut into: their vertices in order, their pieces with the letters that are left of those that cover
/// each, and the line of each piece.
pub fn small_drawings()
    ensures nothing { AreCutInto
        (crease Mountain (at (pos 1) (pos 1)) (at (pos 1) (pos 1)) ∷ [])
        ([])
        ([])
        ([]) }
    ensures single { AreCutInto
        (crease Mountain (at (pos 0) (pos 0)) (at (pos 1) (pos 0)) ∷ [])
        (at (pos 0) (pos 0) ∷ at (pos 1) (pos 0) ∷ [])
        (edge 0 1 Mountain ∷ [])
        ((0, 1) ∷ []) }
    ensures cross { AreCutInto
        (crease Mountain (at (pos 0) (pos 0)) (at (pos 2) (pos 2)) ∷
        crease Valley (at (pos 0) (pos 2)) (at (pos 2) (pos 0)) ∷ [])
        (at (pos 0) (pos 0) ∷ at (pos 0) (pos 2) ∷ at (pos 1) (pos 1) ∷ at (pos 2) (pos 0) ∷ at (pos 2) (pos 2) ∷
        [])
        (edge 0 2 Mountain ∷ edge 1 2 Valley ∷ edge 2 3 Valley ∷ edge 2 4 Mountain ∷ [])
        ((0, 4) ∷ (1, 3) ∷ (1, 3) ∷ (0, 4) ∷ []) }
    ensures tee { AreCutInto
        (crease Mountain (at (pos 0) (pos 0)) (at (pos 2) (pos 0)) ∷
        crease Valley (at (pos 1) (pos 0)) (at (pos 1) (pos 1)) ∷ [])
        (at (pos 0) (pos 0) ∷ at (pos 1) (pos 0) ∷ at (pos 1) (pos 1) ∷ at (pos 2) (pos 0) ∷ [])
        (edge 0 1 Mountain ∷ edge 1 2 Valley ∷ edge 1 3 Mountain ∷ [])
        ((0, 3) ∷ (1, 2) ∷ (0, 3) ∷ []) }
    ensures along { AreCutInto
        (crease Mountain (at (pos 0) (pos 0)) (at (pos 3) (pos 0)) ∷
        crease Valley (at (pos 1) (pos 0)) (at (pos 2) (pos 0)) ∷
        crease Mountain (at (pos 2) (pos 0)) (at (pos 1) (pos 0)) ∷ [])
        (at (pos 0) (pos 0) ∷ at (pos 1) (pos 0) ∷ at (pos 2) (pos 0) ∷ at (pos 3) (pos 0) ∷ [])
        (edge 0 1 Mountain ∷ edge 1 2 Unassigned ∷ edge 2 3 Mountain ∷ [])
        ((0, 3) ∷ (0, 3) ∷ (0, 3) ∷ []) }
    ensures border_wins { AreCutInto
        (crease Mountain (at (pos 0) (pos 0)) (at (pos 2) (pos 0)) ∷
        crease Border (at (pos 3) (pos 0)) (at (pos 1) (pos 0)) ∷ [])
        (at (pos 0) (pos 0) ∷ at (pos 1) (pos 0) ∷ at (pos 2) (pos 0) ∷ at (pos 3) (pos 0) ∷ [])
        (edge 0 1 Mountain ∷ edge 1 2 Border ∷ edge 2 3 Border ∷ [])
        ((0, 2) ∷ (0, 2) ∷ (1, 3) ∷ []) }
    ensures diagonals { AreCutInto
        (crease Border (at (pos 0) (pos 0)) (at (pos 1) (pos 0)) ∷
        crease Border (at (pos 1) (pos 0)) (at (pos 1) (pos 1)) ∷
        crease Border (at (pos 1) (pos 1)) (at (pos 0) (pos 1)) ∷
        crease Border (at (pos 0) (pos 1)) (at (pos 0) (pos 0)) ∷
        crease Mountain (at (pos 0) (pos 0)) (at (pos 1) (pos 1)) ∷
        crease Valley (at (pos 0) (pos 1)) (at (pos 1) (pos 0)) ∷ [])
        (at (pos 0) (pos 0) ∷ at (pos 0) (pos 1) ∷ over (pos 1) (pos 1) (pos 2) ∷ at (pos 1) (pos 0) ∷
        at (pos 1) (pos 1) ∷ [])
        (edge 0 1 Border ∷ edge 0 2 Mountain ∷ edge 0 3 Border ∷ edge 1 2 Valley ∷ edge 1 4 Border ∷
        edge 2 3 Valley ∷ edge 2 4 Mountain ∷ edge 3 4 Border ∷ [])
        ((0, 1) ∷ (0, 4) ∷ (0, 3) ∷ (1, 3) ∷ (1, 4) ∷ (1, 3) ∷ (0, 4) ∷ (3, 4) ∷ []) }
    ensures overlap { AreCutInto
        (crease Border (at (pos 0) (negsuc 0)) (at (pos 3) (negsuc 0)) ∷
        crease Border (at (pos 3) (negsuc 0)) (at (pos 3) (pos 1)) ∷
        crease Border (at (pos 3) (pos 1)) (at (pos 0) (pos 1)) ∷
        crease Border (at (pos 0) (pos 1)) (at (pos 0) (negsuc 0)) ∷
        crease Mountain (at (pos 0) (pos 0)) (at (pos 2) (pos 0)) ∷
        crease Valley (at (pos 1) (pos 0)) (at (pos 3) (pos 0)) ∷ [])
        (at (pos 0) (negsuc 0) ∷ at (pos 0) (pos 0) ∷ at (pos 0) (pos 1) ∷ at (pos 1) (pos 0) ∷
        at (pos 2) (pos 0) ∷ at (pos 3) (negsuc 0) ∷ at (pos 3) (pos 0) ∷ at (pos 3) (pos 1) ∷ [])
        (edge 0 1 Border ∷ edge 0 5 Border ∷ edge 1 2 Border ∷ edge 1 3 Mountain ∷ edge 2 7 Border ∷
        edge 3 4 Unassigned ∷ edge 4 6 Valley ∷ edge 5 6 Border ∷ edge 6 7 Border ∷ [])
        ((0, 2) ∷ (0, 5) ∷ (0, 2) ∷ (1, 4) ∷ (2, 7) ∷ (1, 4) ∷ (3, 6) ∷ (5, 7) ∷ (5, 7) ∷ []) }
{}

/// How many tests of two segments a sweep makes. The two upright borders of the crossed square share no x, nor do any number
/// of upright segments side by side.
pub fn tests_counted()
    ensures single_point { tests_for integers (crease Mountain (at (pos 1) (pos 1)) (at (pos 1) (pos 1)) ∷
        crease Mountain (at (pos 0) (pos 0)) (at (pos 2) (pos 2)) ∷ []) ≡ 0 }
    ensures one_x { tests_for integers (crease Mountain (at (pos 0) (pos 0)) (at (pos 1) (pos 0)) ∷
        crease Mountain (at (pos 2) (pos 5)) (at (pos 1) (pos 4)) ∷ []) ≡ 1 }
    ensures diagonals { tests_for integers
        (crease Border (at (pos 0) (pos 0)) (at (pos 1) (pos 0)) ∷
        crease Border (at (pos 1) (pos 0)) (at (pos 1) (pos 1)) ∷
        crease Border (at (pos 1) (pos 1)) (at (pos 0) (pos 1)) ∷
        crease Border (at (pos 0) (pos 1)) (at (pos 0) (pos 0)) ∷
        crease Mountain (at (pos 0) (pos 0)) (at (pos 1) (pos 1)) ∷
        crease Valley (at (pos 0) (pos 1)) (at (pos 1) (pos 0)) ∷ [])
        ≡ 14 }
    ensures uprights { (n : ℕ) → tests_for integers (uprights n) ≡ 0 }
{}

/// Which directed piece comes after which: after the one from u to v, for each u, v, w of a list, the one from v to w. Each
/// list has all directed pieces of its drawing.
pub fn following_pieces()
    ensures one_neighbour { FollowAs
        (at (pos 0) (pos 0) ∷ at (pos 1) (pos 0) ∷ [])
        (edge 0 1 Mountain ∷ [])
        ((0, 1, 0) ∷ (1, 0, 1) ∷ []) }
    ensures opposite_neighbours { FollowAs
        (at (pos 0) (pos 0) ∷ at (pos 1) (pos 0) ∷ at (pos 2) (pos 0) ∷ [])
        (edge 0 1 Mountain ∷ edge 1 2 Valley ∷ [])
        ((0, 1, 2) ∷ (1, 0, 1) ∷ (1, 2, 1) ∷ (2, 1, 0) ∷ []) }
    ensures three_neighbours { FollowAs
        (at (pos 0) (pos 0) ∷ at (pos 1) (pos 0) ∷ at (pos 1) (pos 1) ∷ at (pos 2) (pos 0) ∷ [])
        (edge 0 1 Mountain ∷ edge 1 2 Valley ∷ edge 1 3 Mountain ∷ [])
        ((0, 1, 2) ∷ (1, 0, 1) ∷ (1, 2, 1) ∷ (1, 3, 1) ∷ (2, 1, 3) ∷ (3, 1, 0) ∷ []) }
    ensures four_neighbours { FollowAs
        (at (pos 0) (pos 0) ∷ at (pos 0) (pos 2) ∷ at (pos 1) (pos 1) ∷ at (pos 2) (pos 0) ∷ at (pos 2) (pos 2) ∷
        [])
        (edge 0 2 Mountain ∷ edge 1 2 Valley ∷ edge 2 3 Valley ∷ edge 2 4 Mountain ∷ [])
        ((0, 2, 1) ∷ (1, 2, 4) ∷ (2, 0, 2) ∷ (2, 1, 2) ∷ (2, 3, 2) ∷ (2, 4, 2) ∷ (3, 2, 0) ∷ (4, 2, 3) ∷ []) }
    ensures diagonals { FollowAs
        (at (pos 0) (pos 0) ∷ at (pos 0) (pos 1) ∷ over (pos 1) (pos 1) (pos 2) ∷ at (pos 1) (pos 0) ∷
        at (pos 1) (pos 1) ∷ [])
        (edge 0 1 Border ∷ edge 0 2 Mountain ∷ edge 0 3 Border ∷ edge 1 2 Valley ∷ edge 1 4 Border ∷
        edge 2 3 Valley ∷ edge 2 4 Mountain ∷ edge 3 4 Border ∷ [])
        ((0, 1, 4) ∷ (0, 2, 1) ∷ (0, 3, 2) ∷ (1, 0, 2) ∷ (1, 2, 4) ∷ (1, 4, 3) ∷ (2, 0, 3) ∷ (2, 1, 0) ∷
        (2, 3, 4) ∷ (2, 4, 1) ∷ (3, 0, 1) ∷ (3, 2, 0) ∷ (3, 4, 2) ∷ (4, 1, 2) ∷ (4, 2, 3) ∷ (4, 3, 0) ∷ []) }
{}

/// Whose region each face has at its left, by a point of it: the faces of the crossed square, and those of the rectangle that
/// two creases along one line cut in two.
pub fn regions_of_faces()
    ensures diagonals { HaveRegionsOf
        (at (pos 0) (pos 0) ∷ at (pos 0) (pos 1) ∷ over (pos 1) (pos 1) (pos 2) ∷ at (pos 1) (pos 0) ∷
        at (pos 1) (pos 1) ∷ [])
        (edge 0 1 Border ∷ edge 0 2 Mountain ∷ edge 0 3 Border ∷ edge 1 2 Valley ∷ edge 1 4 Border ∷
        edge 2 3 Valley ∷ edge 2 4 Mountain ∷ edge 3 4 Border ∷ [])
        ((0 ∷ 2 ∷ 1 ∷ [], over (pos 1) (pos 2) (pos 4)) ∷
        (0 ∷ 3 ∷ 2 ∷ [], over (pos 2) (pos 1) (pos 4)) ∷
        (1 ∷ 2 ∷ 4 ∷ [], over (pos 2) (pos 3) (pos 4)) ∷
        (2 ∷ 3 ∷ 4 ∷ [], over (pos 3) (pos 2) (pos 4)) ∷ []) }
    ensures overlap { HaveRegionsOf
        (at (pos 0) (negsuc 0) ∷ at (pos 0) (pos 0) ∷ at (pos 0) (pos 1) ∷ at (pos 1) (pos 0) ∷
        at (pos 2) (pos 0) ∷ at (pos 3) (negsuc 0) ∷ at (pos 3) (pos 0) ∷ at (pos 3) (pos 1) ∷ [])
        (edge 0 1 Border ∷ edge 0 5 Border ∷ edge 1 2 Border ∷ edge 1 3 Mountain ∷ edge 2 7 Border ∷
        edge 3 4 Unassigned ∷ edge 4 6 Valley ∷ edge 5 6 Border ∷ edge 6 7 Border ∷ [])
        ((0 ∷ 5 ∷ 6 ∷ 4 ∷ 3 ∷ 1 ∷ [], over (pos 2) (negsuc 0) (pos 2)) ∷
        (1 ∷ 3 ∷ 4 ∷ 6 ∷ 7 ∷ 2 ∷ [], over (pos 2) (pos 1) (pos 2)) ∷ []) }
{}

/// What keeps vertices, edges and faces from being a sheet, at an example or two for each line of the table.
pub fn sheet_flaws()
    ensures same_vertex { HasFlaw integers (at (pos 0) (pos 0) ∷ at (pos 1) (pos 0) ∷ over (pos 0) (pos 0) (pos 2) ∷ []) [] []
        (SameVertex 0 2) }
    ensures loose { HasFlaw integers (at (pos 0) (pos 0) ∷ at (pos 1) (pos 0) ∷ at (pos 2) (pos 0) ∷ [])
        (edge 0 1 Mountain ∷ []) [] (Loose 2) }
    ensures edges_cross { HasFlaw integers
        (at (pos 0) (pos 0) ∷ at (pos 0) (pos 2) ∷ at (pos 2) (pos 0) ∷ at (pos 2) (pos 2) ∷ [])
        (edge 0 3 Mountain ∷ edge 1 2 Valley ∷ []) [] (NotPlane 0 1) }
    ensures edge_ends_alike { HasFlaw integers (at (pos 0) (pos 0) ∷ []) (edge 0 0 Mountain ∷ []) [] (NotPlane 0 0) }
    ensures parted { HasFlaw integers
        (at (pos 0) (pos 0) ∷ at (pos 1) (pos 0) ∷ at (pos 0) (pos 1) ∷ at (pos 1) (pos 1) ∷ [])
        (edge 0 1 Border ∷ edge 2 3 Border ∷ []) [] (Parted 2) }
    ensures empty_sheet { HasFlaw integers [] [] [] EmptySheet }
    ensures face_twice { HasFlaw integers [] [] (face (0 ∷ 1 ∷ 2 ∷ []) ∷ face (1 ∷ 2 ∷ 0 ∷ []) ∷ []) (FaceWrong 1) }
    ensures face_missing { HasFlaw integers (at (pos 0) (pos 0) ∷ at (pos 1) (pos 0) ∷ at (pos 0) (pos 1) ∷ [])
        (edge 0 1 Border ∷ edge 0 2 Border ∷ edge 1 2 Border ∷ []) [] (FaceMissing 0 1) }
    ensures turns_back { HasFlaw integers (at (pos 0) (pos 0) ∷ at (pos 1) (pos 0) ∷ []) (edge 0 1 Border ∷ [])
        (face (0 ∷ 1 ∷ []) ∷ []) (NotConvex 0 0) }
    ensures bent_inwards { HasFlaw integers
        (at (pos 0) (pos 0) ∷ at (pos 2) (pos 0) ∷ at (pos 1) (pos 1) ∷ at (pos 2) (pos 2) ∷ [])
        [] (face (2 ∷ 3 ∷ 0 ∷ 1 ∷ []) ∷ []) (NotConvex 0 2) }
    ensures border_without_face { HasFlaw integers (at (pos 0) (pos 0) ∷ at (pos 1) (pos 0) ∷ []) (edge 0 1 Border ∷ []) []
        (BorderWrong 0) }
    ensures pinched { HasFlaw integers (at (pos 0) (pos 0) ∷ at (pos 1) (pos 0) ∷ at (pos 2) (pos 0) ∷ [])
        (edge 0 1 Border ∷ edge 1 2 Border ∷ []) [] (Pinched 1) }
    ensures severed { HasFlaw integers [] [] (face (0 ∷ 1 ∷ 2 ∷ []) ∷ face (2 ∷ 1 ∷ 3 ∷ []) ∷ []) (Severed 1) }
{}

/// A triangle with its one face is a sheet, so that what is asked of sheets can be met.
pub fn triangle_is_a_sheet()
    ensures { IsSheet integers corners sides (face (0 ∷ 1 ∷ 2 ∷ []) ∷ []) }
{}

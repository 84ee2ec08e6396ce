use crate::cutting::{Crease, drawing_of};
use exact_number::Whole;
use face_walks::{WalkFault, walks};
use fold_base::Letter;
use half_edges::HalfId;
use rational::RationalRing;
use root_two::RootTwoRing;
use std::process::Abort;
use std::test::Fail;

const M: Letter = Letter::Mountain;

const V: Letter = Letter::Valley;

const B: Letter = Letter::Border;

/// Segments, the outer walk of what they are cut into, and its faces in their order.
fn check<W: Whole>(
    rt: &(impl Abort + AllocGlobal),
    creases: &[Crease],
    outer: &[u32],
    faces: &[&[u32]],
) -> Result<(), Fail> {
    let drawing = drawing_of::<W>(rt.alloc(), creases)?;
    let walks = walks(rt.alloc(), &drawing)?;
    assert_eq!(rt; walks.outer.corners.as_slice(), outer);
    assert_eq!(rt; walks.faces.len(), faces.len());
    for (face, corners) in walks.faces.as_slice().iter().zip(faces) {
        assert_eq!(rt; face.corners.as_slice(), *corners);
    }
    Ok(())
}

const DIAGONALS: [Crease; 6] = [
    ((0, 0), (1, 0), B),
    ((1, 0), (1, 1), B),
    ((1, 1), (0, 1), B),
    ((0, 1), (0, 0), B),
    ((0, 0), (1, 1), M),
    ((0, 1), (1, 0), V),
];

// that each has the region of that point at its left is a clause of `drawing_examples`, `regions_of_faces`
#[test]
fn diagonals_have_four_faces(rt: HostRuntime) -> Result<(), Fail> {
    let faces = [
        // the region of (1/4, 1/2)
        [0, 2, 1].as_slice(),
        // of (1/2, 1/4)
        [0, 3, 2].as_slice(),
        // of (1/2, 3/4)
        [1, 2, 4].as_slice(),
        // of (3/4, 1/2)
        [2, 3, 4].as_slice(),
    ];
    check::<RationalRing>(&rt, &DIAGONALS, &[0, 1, 4, 3], &faces)?;
    check::<RootTwoRing>(&rt, &DIAGONALS, &[0, 1, 4, 3], &faces)
}

#[test]
fn overlaps_have_two_faces(rt: HostRuntime) -> Result<(), Fail> {
    let creases = [
        ((0, -1), (3, -1), B),
        ((3, -1), (3, 1), B),
        ((3, 1), (0, 1), B),
        ((0, 1), (0, -1), B),
        ((0, 0), (2, 0), M),
        ((1, 0), (3, 0), V),
    ];
    let faces = [
        // the region of (1, -1/2)
        [0, 5, 6, 4, 3, 1].as_slice(),
        // of (1, 1/2)
        [1, 3, 4, 6, 7, 2].as_slice(),
    ];
    check::<RationalRing>(&rt, &creases, &[0, 1, 2, 7, 6, 5], &faces)
}

#[test]
fn trees_have_an_outer_walk_alone(rt: HostRuntime) -> Result<(), Fail> {
    let cross = [((0, 0), (2, 2), M), ((0, 2), (2, 0), M)];
    check::<RationalRing>(&rt, &cross, &[0, 2, 1, 2, 4, 2, 3, 2], &[])?;
    check::<RationalRing>(&rt, &[((0, 0), (1, 0), M)], &[0, 1], &[])?;
    check::<RationalRing>(&rt, &[], &[], &[])
}

#[test]
fn arena_is_linked(rt: HostRuntime) -> Result<(), Fail> {
    let drawing = drawing_of::<RationalRing>(rt.alloc(), &DIAGONALS)?;
    let arena = walks(rt.alloc(), &drawing)?.arena;
    assert_eq!(rt; arena.len(), 16);
    let half = HalfId(0);
    assert_eq!(rt; *arena.payload(half), (0, 1));
    assert_eq!(rt; *arena.payload(arena.twin(half)), (1, 0));
    assert_eq!(rt; *arena.payload(arena.next(half)), (1, 4));
    Ok(())
}

#[test]
fn two_squares_are_parted(rt: HostRuntime) -> Result<(), Fail> {
    let creases = [
        ((0, 0), (1, 0), B),
        ((1, 0), (1, 1), B),
        ((1, 1), (0, 1), B),
        ((0, 1), (0, 0), B),
        ((3, 0), (4, 0), B),
        ((4, 0), (4, 1), B),
        ((4, 1), (3, 1), B),
        ((3, 1), (3, 0), B),
    ];
    let drawing = drawing_of::<RationalRing>(rt.alloc(), &creases)?;
    let parted = walks(rt.alloc(), &drawing);
    assert!(rt; matches!(parted, Err(WalkFault::Parted { vertex: 4 })));
    Ok(())
}

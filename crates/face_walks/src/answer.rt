use fold_base::List;
use half_edges::Arena;
use scaled_plane::Face;
use std::alloc::AllocError;

/// The walks of a drawing: each directed piece with the one that comes after it, the face walks and the outer walk.
#[derive(Drop)]
pub struct Walks {
    pub arena: Arena<(u32, u32)>,
    pub faces: List<Face>,
    pub outer: Face,
}

/// Why no walks are given.
#[derive(Debug, Drop)]
pub enum WalkFault {
    /// The least vertex that no edges join to vertex 0.
    Parted { vertex: u32 },
    Memory(AllocError),
}

impl From<AllocError> for WalkFault {
    ghost use Rattle.std.specs.Prelude.{◌≡◌};
    ghost use Rattle.face_walks.specs.declared.answer.WalkFault.TheVariants.{Memory};

    ghost from_gives = { λ error fault. fault ≡ Memory error };

    fn from(error: AllocError) -> WalkFault {
        WalkFault::Memory(error)
    }
}

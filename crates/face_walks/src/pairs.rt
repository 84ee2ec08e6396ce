ghost use Rattle.std.specs.Prelude.{◌≡◌, ◌^◌, ◌<◌, length, IfOk};
ghost use Rattle.half_edges.specs.Halves.{count};
ghost use Rattle.face_walks.specs.Linked.{piece_at};
ghost use Rattle.face_walks.specs.Pairs.{ArePairs};

use half_edges::{Arena, HalfId};
use scaled_plane::Edge;
use std::alloc::{AllocError, Global};

/// For each edge a pair of half-edges, which carry it as a directed piece, there and back.
pub fn pairs_of(alloc: Global, edges: &[Edge]) -> Result<Arena<(u32, u32)>, AllocError>
    requires { length edges.now < 2 ^ 30 }
    ensures { IfOk result (λ arena. ArePairs edges.now (length edges.now) arena) }
{
    let mut arena = Arena::new(alloc);
    let _none = arena.len();
    for edge in edges {
        arena.add_pair((edge.from, edge.to), (edge.to, edge.from))?;
        let _count = arena.len();
    }
    Ok(arena)
}

/// The directed piece that a half-edge carries.
pub fn piece(arena: &Arena<(u32, u32)>, half: HalfId) -> (u32, u32)
    requires { half.0 < count arena.now }
    ensures { result ≡ piece_at arena.now half.0 }
{
    *arena.payload(half)
}

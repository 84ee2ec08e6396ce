/// What lies across a folded edge: a face on both sides of it, or an edge whose two faces lie
/// flat beside each other.
#[derive(Clone, Copy, Debug, PartialEq, Eq)]
pub enum Strand {
    Face(u32),
    Edge(u32),
}

/// Where the layers of a folded sheet can't lie as they are ordered, by the ids of faces and edges.
#[derive(Clone, Copy, Debug, PartialEq, Eq)]
pub enum Crossing {
    /// Three faces share a point, each above the next, and the last above the first.
    Cycle(u32, u32, u32),
    /// A crease has a layer between its two faces.
    Through(u32, Strand),
    /// Exactly one face of the second crease is between the two faces of the first.
    Creases(u32, u32),
    /// A join has a layer that is below it on one side, and above it on the other.
    Joined(u32, Strand),
    /// A mountain or valley crease whose faces don't lie as its letter says.
    Letter(u32),
}

use fold_base::Letter;
use scaled_plane::Pair;

/// A line whose coordinates are read.
#[derive(Clone, Copy)]
pub struct Crease<N> {
    pub from: Pair<N>,
    pub to: Pair<N>,
    pub letter: Letter,
}

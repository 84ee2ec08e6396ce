use crate::letters::Letters;
use std::collections::BTreeMap;

/// What covers a piece: the letters of all segments that do, and the two ends of the first of them.
#[derive(Clone, Copy)]
pub struct Cover {
    pub letters: Letters,
    pub line: (u32, u32),
}

/// What covers each piece that was found so far, by the two vertices of the piece.
pub type Covers = BTreeMap<(u32, u32), Cover>;

//! An arena of half-edges: directed edges that stand in pairs, each with the one that comes after it on its walk.
#![tactic(auto)]

mod arena;

pub use arena::{Arena, HalfId};

//! The walks round the faces of a drawing, and round its outside.
#![tactic(auto)]

mod answer;
mod cycles;
mod headings;
mod joined;
mod links;
mod outside;
mod pairs;
mod rings;
mod walking;

pub use answer::{WalkFault, Walks};
pub use walking::walks;

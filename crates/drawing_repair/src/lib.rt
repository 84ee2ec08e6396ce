//! A drawing of segments as its vertices, the pieces between them and the faces, by exact coordinates.
#![tactic(auto)]

mod answer;
mod coordinates;
mod cutting;
mod kept;
mod laws;
mod options;
mod repair;

pub use answer::{RepairFault, Repaired, Stage};
pub use laws::{one_drawing, vertices_can_be_written};
pub use options::{Faces, Flat};
pub use repair::repair_ends;

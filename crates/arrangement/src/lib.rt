//! What segments cut the plane into: their vertices, and the pieces between them.
#![tactic(auto)]

mod covering;
mod covers;
mod cutting;
mod drawing;
mod fault;
mod found;
mod letters;
mod span;
mod sweep;
mod vertex;
mod vertices;

pub use drawing::pieces;
pub use fault::PieceFault;
pub use span::{left_end, right_end, x_order};
pub use vertex::{Vertex, vertex_at};

//! Points, lines and segments of the plane over an ordered ring: the words that all of the geometry is said in.
//!
//! The code is two structs. `specs/` says what they mean, and `proofs/` has the lemmas that several crates need; what holds of
//! the words alone stands on functions that do nothing.
#![tactic(auto)]

mod laws;
mod point;

pub use laws::{
    clockwise_order, lines_are_linear, open_parts_are_dense, points_between_in_order,
    points_in_order, segments_are_parted, segments_share_a_point,
};
pub use point::{Line, Point};

//! What the layers of a folded sheet are, at single points and by finitely many tests.
//!
//! The code is two types of names. `specs/` says what a folded sheet is, which face is above which, and what holds of stacks,
//! seams and letters at the points of the plane; that the tests decide the points stands on functions that do nothing.
#![tactic(auto)]

mod crossing;
mod laws;

pub use crossing::{Crossing, Strand};
pub use laws::{
    convex_faces_hold_points, crossings_by_faces, crossings_in_order, faces_overlap_at_a_seam,
    list_decides_points, open_parts_hold_generic_points, orders_rank_faces, stacks_can_be_listed,
};

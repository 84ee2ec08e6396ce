//! The edges of a FOLD frame as CP lines: the coordinates as they are spelled, and the kind of each
//! edge's letter.
#![tactic(auto)]

mod fault;
mod lines;
mod zero;

pub use fault::LinesFault;
pub use lines::{frame_lines, is_flat, letters_of, lines_of};

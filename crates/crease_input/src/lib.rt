//! Vertices and edges from lines and to files: the ends of crease-pattern lines by a number rule, and the FOLD file of a
//! drawing.
#![tactic(auto)]

mod corner;
mod crease;
mod exact;
mod fault;
mod file;
mod frame;
mod laws;
mod lines;
mod pattern;
mod reading;
mod root;
mod segments;
mod strips;
mod texts;
mod vertices;

pub use crease::Crease;
pub use fault::{Axis, Counted, InputFault};
pub use file::drawing_file;
pub use frame::frame_ends;
pub use laws::{one_drawing, one_file, one_list_of_lines, one_reading};
pub use lines::{all_lines_ends, lines_ends};
pub use pattern::pattern_text;
pub use root::frame_root;
pub use segments::drawing_lines;
pub use strips::make_strips;

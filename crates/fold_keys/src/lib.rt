//! The keys of the FOLD format (version 1.2) and what stands at each: a file as typed values, its
//! first misfit, and its tree again.
#![tactic(auto)]

mod element;
mod fault;
mod file;
mod kind;
mod laws;
mod member;
mod reading;
mod spelling;
mod value;
mod writing;

pub use fault::{FoldFault, ShapeFault, ShapeKind};
pub use file::from_json;
pub use kind::{Kind, Part, kind_of_file_key, kind_of_frame_key};
pub use laws::{read_trees_are_readable, writable_entries, written_reads_back};
pub use value::{Entry, FaceOrder, FoldFile, Frame, Value};
pub use writing::{copy_value, to_json};

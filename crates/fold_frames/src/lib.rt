//! The effective frame: a frame of a FOLD file with what it inherits.
#![tactic(auto)]

mod counts;
mod fault;
mod frame;
mod inherited;
mod laws;
mod parents;

pub use counts::Counts;
pub use fault::FrameFault;
pub use frame::Effective;
pub use inherited::effective;
pub use laws::{coordinates_are_short, inherited_by_key, one_effective_frame, trees_have_files};

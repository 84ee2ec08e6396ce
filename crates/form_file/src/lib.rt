//! The FOLD file of a folded sheet.
#![tactic(auto)]

mod file;
mod laws;

pub use file::folded_file;
pub use laws::one_form;

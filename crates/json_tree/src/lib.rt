//! JSON as a tree: the grammar of its text, its printed form, and the texts of numbers with a
//! scanner for them.
#![tactic(auto)]

mod access;
mod copying;
mod laws;
mod number;
mod phase;
mod printing;
mod proper;
mod scanner;
mod tree;

pub use access::{Step, at};
pub use copying::copy;
pub use laws::{number_tests, spelled_trees_are_proper};
pub use number::{NumberReadFault, NumberText};
pub use printing::{print, printed_form_spells};
pub use proper::is_proper;
pub use scanner::NumberScanner;
pub use tree::{Json, Member};

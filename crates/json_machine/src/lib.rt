//! JSON text read byte by byte: what each byte makes of a reader, and that this decides which text spells which tree.
#![tactic(auto)]

mod laws;

pub use laws::{machine_decides, one_tree, reads_back, short_texts};

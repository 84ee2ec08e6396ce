//! What the program reads from and writes to, and the small values that every crate uses.
#![tactic(auto)]

mod calm;
mod letter;
mod list;
mod memory;
mod outside;
mod pieces;
mod plan;
mod remaining;
mod streams;
mod text;

pub use calm::{CalmSink, CalmSource};
pub use letter::Letter;
pub use list::List;
pub use memory::{MemorySink, MemorySource};
pub use outside::{Failed, MOST_BYTES, PieceTaker, Sink, Source};
pub use pieces::{ReadFault, read_pieces, write_all_bytes};
pub use streams::{ReadSource, WriteSink};
pub use text::{Text, TextMakeFault};

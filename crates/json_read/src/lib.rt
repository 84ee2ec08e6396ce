//! JSON text that comes in pieces, read to a tree or to its first fault.
#![tactic(auto)]

mod character;
mod fault;
mod fnv;
mod frame;
mod key;
mod key_index;
mod laws;
mod machine;
mod members;
mod phase;
mod reader;
mod run;
mod sign;
mod stack;
mod token;
mod value;
mod word;

pub use fault::{JsonCause, JsonFault, JsonReadFault};
pub use laws::{one_reading, reads_back, short_faults};
pub use reader::{JsonReader, reader_laws};

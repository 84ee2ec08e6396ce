//! CP text, the line format of ORIPA: a line has the kind of a crease and the coordinates of its two ends.
#![tactic(auto)]

mod fault;
mod line;
mod print;
mod read;
mod reader;

pub use fault::{CpCause, CpFault, CpReadFault};
pub use line::CpLine;
pub use print::{print_cp, reads_back};
pub use read::{one_reading, read_cp, short_lines};

//! The commands on crease patterns: what the words and the bytes of a run come to.
//!
//! [`run`] is the whole of it. It reads words as `show --from=cp` or `judge --frame=2`, takes the bytes
//! of a source, puts the text that is due into a sink, and at most one line into the notes; the status
//! that it answers says how it ended. The program `fold_program` calls it with the words of the command
//! line and the three standard streams, and another program can with its own.
#![tactic(auto)]

mod act;
mod aim;
mod convert;
mod denominator;
mod draw;
mod drawing;
mod drill;
mod fold;
mod folded;
mod given;
mod input;
mod judge;
mod messages;
mod near;
mod notes;
mod number_option;
mod repair;
mod status;
mod top;
mod words;
mod writable;

pub use denominator::Denominator;
pub use number_option::NumberChoice;
pub use status::{
    Limit, NoCause, NumberCause, ShapeCause, SheetCause, Stage, Status, TextFault, WordsCause,
};
pub use top::{limits, one_outcome, outcome_of_input, plain_words, run, run_calm, yes_is_true};
pub use words::{
    Command, ConvertOptions, DrillOptions, FoldOptions, Format, JudgeOptions, RepairOptions,
    ShowOptions, read_words,
};

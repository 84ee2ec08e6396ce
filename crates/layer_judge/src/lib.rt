//! The judge of layers: whether a folded sheet, whose faces are ordered where they overlap, can lie as it's ordered, and if not,
//! the first crossing.
#![tactic(auto)]

mod answer;
mod creases;
mod crossings;
mod cycles;
mod deciding;
mod joins;
mod judged;
mod laws;
mod letters;
mod opposed;
mod reading;
mod said;
mod table;
mod through;
mod unranked;

pub use answer::{JudgeFault, Verdict};
pub use deciding::judge;
pub use laws::one_verdict;

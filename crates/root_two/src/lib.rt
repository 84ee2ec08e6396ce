//! The numbers (a+b√K)/q, and the whole ones a+b√K, for K = 2 and K = 3, in 128 bits each part, with their exact sign. Nothing takes memory.
#![tactic(auto)]

mod descent;
mod formulas;
mod laws;
mod number;
mod radicand;
mod whole;

pub use laws::roots;
pub use number::{Root, RootThree, RootTwo};
pub use radicand::{Radicand, Three, Two};
pub use whole::{RootRing, RootThreeRing, RootTwoRing};

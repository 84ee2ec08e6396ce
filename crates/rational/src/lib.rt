//! The rational numbers as exact numbers, and the whole numbers that they scale to.
#![tactic(auto)]

mod field;
mod laws;
mod rational;
mod ring;
mod whole;

pub use laws::rational_root;
pub use rational::Rational;
pub use whole::RationalRing;

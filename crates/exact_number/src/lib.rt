//! Exact numbers a+b√K over a denominator, and whole numbers a+b√K, behind two traits that say what each call computes and
//! carry the laws of their field, ring and order.
#![tactic(auto)]

mod exact;
mod generic;
mod laws;
mod overflow;
mod reduction;
mod scaling;
mod sizes;
mod whole;

pub use exact::Exact;
pub use generic::{midpoint, number_of, scaled_whole, whole_number};
pub use laws::{root_laws, scaling_laws, size_laws};
pub use overflow::{Op, Overflow};
pub use reduction::{gcd, lowest_terms};
pub use scaling::{MOST_SCALED, scaled_part};
pub use sizes::{cross, difference};
pub use whole::Whole;

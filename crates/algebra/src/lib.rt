//! Ordered commutative rings: what a type of numbers computes, and the laws that proofs about it use.
#![tactic(auto)]

mod fields;

pub use fields::{
    fraction_in_lowest_terms, fraction_laws, integer_laws, lowest_terms, number_laws, order_laws,
    rational_number_laws, size_laws, surd_laws, whole_number_laws,
};

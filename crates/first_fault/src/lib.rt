//! The first fault of a text, for any grammar.
//!
//! A grammar is a relation between texts and the values that they spell. This crate has no code: `specs/FirstFault`
//! says what the first fault of a text is, `specs/Machine` what it means that a machine, which reads a text byte by
//! byte, decides a grammar, and `proofs/` how the answer of such a machine gives the value or the first fault.
#![tactic(auto)]

//! Lists, sources and sinks, JSON text, CP text and number texts by example: what is read and written, the trees, lines and
//! numbers that texts spell, their first faults, and the texts of exact numbers.
#![tactic(auto)]

#[cfg(test)]
mod cp_text;
#[cfg(test)]
mod decimals;
#[cfg(test)]
mod json;
#[cfg(test)]
mod lists;
#[cfg(test)]
mod number_texts;
#[cfg(test)]
mod pieces;
#[cfg(test)]
mod rules;
#[cfg(test)]
mod streams;
#[cfg(test)]
mod trees;

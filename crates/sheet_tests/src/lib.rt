//! Sheets, and the first flaw of drawings that are changed at one place.
#![tactic(auto)]

#[cfg(test)]
mod flaws;

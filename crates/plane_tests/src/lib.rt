//! The plane at the rationals and at a+b√2: points that are scaled, the first that's too wide, points made exact again,
//! what segments have in common, what they are cut into, the walks round the faces of that, and all of it in one call; and
//! what half-planes and faces have in common.
#![tactic(auto)]

#[cfg(test)]
mod cutting;
#[cfg(test)]
mod meeting;
#[cfg(test)]
mod overlapping;
#[cfg(test)]
mod repairing;
#[cfg(test)]
mod scaling;
#[cfg(test)]
mod walking;

//! Folding drawings at the rationals and at a+b√2: images, faces by their images, images of edges, and the first reason why there
//! is no folded form.
#![tactic(auto)]

#[cfg(test)]
mod drawing;
#[cfg(test)]
mod folding;
#[cfg(test)]
mod motions;
#[cfg(test)]
mod parts;
#[cfg(test)]
mod refusing;

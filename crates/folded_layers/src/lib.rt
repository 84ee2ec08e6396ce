//! Folded sheets as sheets of layers: the faces where they lie, and the edges at which they meet.
#![tactic(auto)]

mod laws;
mod view;

pub use laws::folded_sheets_have_layers;
pub use view::FoldedLayers;

//! The folded form of a drawing: its folded sheet, or the first reason why it has none.
#![tactic(auto)]

mod fault;
mod form;
mod laws;

pub use fault::FormFault;
pub use form::fold_ends;
pub use laws::one_layout;

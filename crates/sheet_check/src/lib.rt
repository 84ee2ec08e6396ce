//! Whether vertices, edges and faces are a sheet of paper, and the first flaw where they aren't.
#![tactic(auto)]

mod borders;
mod check;
mod convex;
mod faces;
mod fault;
mod joined;
mod laws;
mod least;
mod listing;
mod loose;
mod meeting;
mod pinch;
mod same;
mod sever;
mod span;
mod sweep;
mod table;

pub use check::check_sheet;
pub use fault::SheetFault;
pub use laws::one_check;
pub use scaled_plane::SheetFlaw;

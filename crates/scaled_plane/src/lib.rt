//! Points of the plane with whole coordinates, and what drawings, sheets and regions are.
#![tactic(auto)]

mod drawing;
mod drawn;
mod exact;
mod laws;
mod point;
mod scaled;
mod scaling;
mod sheet;

pub use drawing::{Drawing, Edge, Ends, Face};
pub use drawn::{compare_points, compare_sized, cross_point, line_through, orient};
pub use exact::{MOST_EXACT, exact_point};
pub use laws::{degree_bounds, one_piece_after};
pub use point::{Pair, Scaled, Segment};
pub use scaled::{ScaleFault, scale_all};
pub use scaling::{MOST_COMMON, common_denominator, common_multiple};
pub use sheet::SheetFlaw;

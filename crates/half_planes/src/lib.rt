//! Whether open half-planes have a point in common, by exact elimination in a small multiple of n² steps and no memory, and by
//! this what the faces and edges of a folded sheet have in common.
#![tactic(auto)]

mod beside;
mod bound;
mod enters;
mod extent;
mod face;
mod interval;
mod lines;
mod meet;
mod narrow;
mod overlap;
mod sheet;
mod sheet_edge;
mod sheet_face;
mod together;

pub use beside::are_beside;
pub use enters::segment_enters;
pub use face::{FaceSlice, FaceView};
pub use lines::{LineSlice, Lines};
pub use meet::meet_inside;
pub use overlap::{insides_meet, segment_enters_face, three_insides_meet};
pub use sheet::{EdgeSides, FaceSide, SheetView};
pub use sheet_edge::{edge_enters, edges_run_together};
pub use sheet_face::{faces_overlap, three_overlap};
pub use together::segments_run_together;

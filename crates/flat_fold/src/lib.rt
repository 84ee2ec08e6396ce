//! Folding a sheet flat: the maps of the plane that place its faces, and where closed walks of faces come back to.
#![tactic(auto)]

mod agreement;
mod edges;
mod fold;
mod folded;
mod images;
mod laws;
mod levels;
mod motion;
mod places;
mod sheet;
mod sides;

pub use agreement::first_disagreeing;
pub use fold::{FoldFlatFault, fold_flat};
pub use folded::Folded;
pub use images::Origin;
pub use laws::{
    closing, compositions, each_edge_has_a_face, edge_images_by_places, faces_of_sheets_are_convex,
    isometries, one_folding, one_list_of_sides, operations, path_maps_are_one, reflections,
    sheets_are_foldable, sheets_are_well_set, triangle_is_foldable,
};
pub use levels::{Between, MapFault, path_maps};
pub use motion::Motion;
pub use sheet::Sheet;
pub use sides::{Pieces, Side, Sides, crossings, edge_sides, piece_from, pieces_of};

// The file of a folded sheet.
ghost use Rattle.std.specs.Prelude.{◌≡◌, ◌<◌, ◌≤◌, ◌++◌, ◌∷◌, [], length, IfOk, OnOk};
ghost use Rattle.std.specs.Option.{option_copied};
ghost use Rattle.crease_input.specs.Files.{AreOrdersWithin};
ghost use Rattle.flat_fold.specs.Faces.{corners_at};
ghost use Rattle.fold_keys.specs.Writable.{IsWritable};
ghost use Rattle.form_file.specs.Files.{IsFoldedFile};

use crease_input::drawing_file;
use exact_number::Exact;
use flat_fold::Folded;
use fold_base::List;
use fold_keys::{FaceOrder, FoldFile};
use scaled_plane::{Ends, Face};
use std::alloc::{AllocError, Global};

/// A face by the images of its corners.
fn face_images<N: Exact>(alloc: Global, folded: &Folded<N>, face: u32) -> Result<Face, AllocError>
    requires { face < length folded.now.sheet.faces }
    ensures { IfOk result (λ images. images.corners ≡ corners_at folded.now.corners face) }
{
    let count = folded.sheet().faces().as_slice()[face as usize]
        .corners
        .len();
    let mut corners = List::new(alloc);
    for corner in 0..count as u32 {
        corners.push(folded.image(face, corner))?;
    }
    Ok(Face { corners })
}

fn put_face(faces: &mut List<Face>, face: Face) -> Result<(), AllocError>
    ensures { OnOk result (faces.new ≡ faces.old ++ face ∷ []) }
{
    faces.push(face).map_err(AllocError::from)
}

/// All faces of the folded sheet by the images of their corners.
fn faces_by_images<N: Exact>(
    alloc: Global,
    folded: &Folded<N>,
    faces: &[Face],
) -> Result<List<Face>, AllocError>
    requires faces { faces.now ≡ folded.now.sheet.faces }
    requires few { length faces.now ≤ 512 }
    requires long { length folded.now.corners ≡ length folded.now.sheet.faces }
    ensures { IfOk result (λ faces. faces ≡ folded.now.corners) }
{
    let mut by_images = List::with_room(alloc, faces.len())?;
    for face in 0..faces.len() as u32 {
        let images = face_images(alloc, folded, face)?;
        put_face(&mut by_images, images)?;
    }
    Ok(by_images)
}

/// The file of a folded sheet: its images as vertices, the images of its edges, each face by the images of its corners, and
/// the orders of its faces where they are given.
pub fn folded_file<N: Exact>(
    alloc: Global,
    folded: &Folded<N>,
    orders: Option<&List<FaceOrder>>,
) -> Result<FoldFile, AllocError>
    requires { AreOrdersWithin (length folded.now.sheet.faces) (option_copied orders) }
    ensures file { IfOk result (IsFoldedFile N.ROOT N.parts folded.now (option_copied orders.entry)) }
    ensures writable { IfOk result (λ file. IsWritable file) }
{
    let faces = faces_by_images(alloc, folded, folded.sheet().faces().as_slice())?;
    let ends = Ends {
        coords: List::from_slice(alloc, folded.images().as_slice())?,
        edges: folded.edge_images(alloc)?,
    };
    drawing_file(alloc, "foldedForm", &ends, Some(&faces), orders)
}

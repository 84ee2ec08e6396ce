// The file of a drawing.
ghost use Rattle.std.specs.Prelude.{◌≡◌, ◌<◌, ◌≤◌, ◌^◌, ◌++◌, ◌∷◌, [], length, map, IfOk, OnOk, Some, true, List as Items};
ghost use Rattle.std.specs.List.{AllByRecursion};
ghost use Rattle.std.specs.Option.{option_copied};
ghost use Rattle.fold_keys.specs.Writable.{IsWritable, AreWritable, file_of};
ghost use Rattle.fold_keys.specs.declared.value.Entry.{Entry as AnyEntry};
ghost use Rattle.crease_input.specs.Files.{HasShortParts, IsFileable, AreVertexEntries, IsDrawingFile, entry, head_entries, edge_entries, face_entries, order_entries};

use crate::texts::{are_nine_decimals, exact_texts, nine_texts_of, number};
use exact_number::Exact;
use fold_base::{Letter, List, Text};
use fold_keys::{Entry, FaceOrder, FoldFile, Frame, Value, writable_entries};
use scaled_plane::{Edge, Ends, Face, Pair};
use std::alloc::{AllocError, Global};

/// Puts a key and its value to the others.
fn put(alloc: Global, entries: &mut List<Entry>, key: &str, value: Value) -> Result<(), AllocError>
    ensures { OnOk result (entries.new ≡ entries.old ++ entry key.now value ∷ []) }
{
    let key = Text::from_text(alloc, key)?;
    entries.push(Entry { key, value }).map_err(AllocError::from)
}

fn head(alloc: Global, class: &str) -> Result<List<Entry>, AllocError>
    ensures { IfOk result (λ entries. entries ≡ head_entries class.now) }
{
    let mut entries = List::new(alloc);
    let spec = number(alloc, b"1.2")?;
    put(alloc, &mut entries, "file_spec", Value::Number(spec))?;
    let creator = Text::from_text(alloc, "fold_program")?;
    put(alloc, &mut entries, "file_creator", Value::Word(creator))?;
    let mut classes = List::new(alloc);
    let class = Text::from_text(alloc, class)?;
    classes.push(class).map_err(AllocError::from)?;
    put(alloc, &mut entries, "frame_classes", Value::Words(classes))?;
    Ok(entries)
}

/// Puts the coordinates of vertices, and their exact texts where rounding to nine decimals changes one of them.
fn put_vertices<N: Exact>(
    alloc: Global,
    entries: &mut List<Entry>,
    coords: &[Pair<N>],
) -> Result<(), AllocError>
    requires { AllByRecursion (HasShortParts N.parts) coords.now }
    ensures { OnOk result ((vertices : Items AnyEntry) × AreVertexEntries N.ROOT N.parts coords.now vertices
        × (entries.new ≡ entries.old ++ vertices)) }
{
    let texts = nine_texts_of(alloc, coords)?;
    put(alloc, entries, "vertices_coords", Value::Coords(texts))?;
    if are_nine_decimals(coords) {
        return Ok(());
    }
    let texts = exact_texts(alloc, coords)?;
    put(alloc, entries, "fx:vertices_coords", Value::Exact(texts))
}

pub(crate) fn pairs_of(alloc: Global, edges: &[Edge]) -> Result<Vec<(u32, u32)>, AllocError>
    ensures { IfOk result (λ pairs. pairs.items ≡ map (λ edge. (edge.from, edge.to)) edges.now) }
{
    edges.iter().map(|edge| (edge.from, edge.to)).collect(alloc)
}

pub(crate) fn letters_of(alloc: Global, edges: &[Edge]) -> Result<Vec<Letter>, AllocError>
    ensures { IfOk result (λ letters. letters.items ≡ map (λ edge. edge.letter) edges.now) }
{
    edges.iter().map(|edge| edge.letter).collect(alloc)
}

fn put_edges(alloc: Global, entries: &mut List<Entry>, edges: &[Edge]) -> Result<(), AllocError>
    ensures { OnOk result (entries.new ≡ entries.old ++ edge_entries edges.now) }
{
    let pairs = List::from_vec(pairs_of(alloc, edges)?);
    put(alloc, entries, "edges_vertices", Value::Pairs(pairs))?;
    let letters = List::from_vec(letters_of(alloc, edges)?);
    put(alloc, entries, "edges_assignment", Value::Letters(letters))?;
    Ok(())
}

/// The corners of a face, each as an id that is there.
fn ids_of(alloc: Global, corners: &[u32]) -> Result<Vec<Option<u32>>, AllocError>
    ensures { IfOk result (λ ids. ids.items ≡ map Some corners.now) }
{
    corners.iter().map(|corner| Some(*corner)).collect(alloc)
}

fn corner_lists(alloc: Global, faces: &[Face]) -> Result<List<List<Option<u32>>>, AllocError>
    ensures { IfOk result (λ lists. lists ≡ map (λ face. map Some face.corners) faces.now) }
{
    let mut lists = List::with_room(alloc, faces.len())?;
    for face in faces {
        let ids = ids_of(alloc, face.corners.as_slice())?;
        lists.push(List::from_vec(ids)).map_err(AllocError::from)?;
    }
    Ok(lists)
}

fn put_faces(
    alloc: Global,
    entries: &mut List<Entry>,
    faces: Option<&List<Face>>,
) -> Result<(), AllocError>
    ensures { OnOk result (entries.new ≡ entries.old ++ face_entries (option_copied faces.entry)) }
{
    let Some(faces) = faces else {
        return Ok(());
    };
    let lists = corner_lists(alloc, faces.as_slice())?;
    put(alloc, entries, "faces_vertices", Value::IdLists(lists))?;
    Ok(())
}

fn put_orders(
    alloc: Global,
    entries: &mut List<Entry>,
    orders: Option<&List<FaceOrder>>,
) -> Result<(), AllocError>
    ensures { OnOk result (entries.new ≡ entries.old ++ order_entries (option_copied orders.entry)) }
{
    let Some(orders) = orders else {
        return Ok(());
    };
    let orders = List::from_slice(alloc, orders.as_slice())?;
    put(alloc, entries, "faceOrders", Value::Orders(orders))
}

/// A file of one frame.
fn file_of(alloc: Global, entries: List<Entry>) -> Result<FoldFile, AllocError>
    requires { AreWritable true entries }
    ensures file { IfOk result (λ file. file ≡ file_of entries) }
    ensures writable { IfOk result (λ file. IsWritable file) }
{
    writable_entries();
    let mut frames = List::new(alloc);
    frames.push(Frame { entries }).map_err(AllocError::from)?;
    Ok(FoldFile { frames })
}

/// The file of a drawing: what it is, its vertices by nine decimals and, where these aren't exact, by exact texts, its edges,
/// and the faces and orders that are given.
pub fn drawing_file<N: Exact>(
    alloc: Global,
    class: &str,
    ends: &Ends<N>,
    faces: Option<&List<Face>>,
    orders: Option<&List<FaceOrder>>,
) -> Result<FoldFile, AllocError>
    requires { IsFileable N.parts ends.now (option_copied faces) (option_copied orders) }
    ensures file { IfOk result (λ file. IsDrawingFile N.ROOT N.parts class.now ends.now
        (option_copied faces.entry) (option_copied orders.entry) file) }
    ensures writable { IfOk result (λ file. IsWritable file) }
{
    let mut entries = head(alloc, class)?;
    put_vertices(alloc, &mut entries, ends.coords.as_slice())?;
    put_edges(alloc, &mut entries, ends.edges.as_slice())?;
    put_faces(alloc, &mut entries, faces)?;
    put_orders(alloc, &mut entries, orders)?;
    file_of(alloc, entries)
}

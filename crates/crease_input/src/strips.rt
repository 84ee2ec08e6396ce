// The file of a strip of squares that is folded to and fro.
ghost use Rattle.std.specs.Prelude.{◌≡◌, ◌≤◌, ◌<◌, ◌-◌, map, IfOk};
ghost use Rattle.std.specs.List.{range_with_len};
ghost use Rattle.fold_keys.specs.Writable.{IsWritable};
ghost use Rattle.crease_input.specs.Strips.{IsStrip, along, corner_at, crease_at, edge_of, letter_at, order_of, orders_on, row_at, side_of, square_at, strip_coords, strip_edges, strip_faces, strip_orders};

use crate::file::drawing_file;
use exact_number::whole_number;
use fold_base::{Letter, List};
use fold_keys::{FaceOrder, FoldFile};
use rational::Rational;
use scaled_plane::{Edge, Ends, Face, Pair};
use std::alloc::{AllocError, Global};

/// The file of a strip of so many unit squares in a row: a crease pattern that folds flat to a pile, with its faces and an
/// order for each two of them.
///
/// Creases are valleys and mountains by turns, and each square lies above those before it.
pub fn make_strips(alloc: Global, n: u32) -> Result<FoldFile, AllocError>
    requires some { 1 ≤ n }
    requires few { n ≤ 500 }
    ensures file { IfOk result (IsStrip n) }
    ensures writable { IfOk result IsWritable }
{
    let ends = Ends {
        coords: coords_of_strip(alloc, n)?,
        edges: edges_of_strip(alloc, n)?,
    };
    let faces = faces_of_strip(alloc, n)?;
    let orders = orders_of_strip(alloc, n)?;
    drawing_file(alloc, "creasePattern", &ends, Some(&faces), Some(&orders))
}

fn corner(x: u32, y: u32) -> Pair<Rational>
    ensures { result ≡ corner_at x y }
{
    Pair {
        x: whole_number(i128::from(x)),
        y: whole_number(i128::from(y)),
    }
}

fn row(alloc: Global, n: u32, height: u32) -> Result<Vec<Pair<Rational>>, AllocError>
    requires { n ≤ 500 }
    ensures { IfOk result (λ row. row.items ≡ row_at n height) }
{
    (0..n + 1).map(|i| corner(i, height)).collect(alloc)
}

fn coords_of_strip(alloc: Global, n: u32) -> Result<List<Pair<Rational>>, AllocError>
    requires { n ≤ 500 }
    ensures { IfOk result (λ coords. coords ≡ strip_coords n) }
{
    let mut coords = List::from_vec(row(alloc, n, 0)?);
    let top = row(alloc, n, 1)?;
    coords.extend_from_slice(top.as_slice())?;
    Ok(coords)
}

fn border(from: u32, to: u32) -> Edge
    ensures { result ≡ edge_of from to Letter.Border }
{
    Edge {
        from,
        to,
        letter: Letter::Border,
    }
}

/// The edges along a row that begins with this vertex.
fn side(alloc: Global, n: u32, first: u32) -> Result<Vec<Edge>, AllocError>
    requires few { n ≤ 500 }
    requires first { first ≤ 501 }
    ensures { IfOk result (λ edges. edges.items ≡ along n first) }
{
    (0..n)
        .map(|i| border(first + i, first + i + 1))
        .collect(alloc)
}

fn crease(n: u32, i: u32) -> Edge
    requires few { n ≤ 500 }
    requires inside { i < n }
    ensures { result ≡ crease_at n i }
{
    let letter = if i % 2 == 1 {
        Letter::Valley
    } else {
        Letter::Mountain
    };
    Edge {
        from: i,
        to: n + 1 + i,
        letter,
    }
}

fn creases(alloc: Global, n: u32) -> Result<Vec<Edge>, AllocError>
    requires some { 1 ≤ n }
    requires few { n ≤ 500 }
    ensures { IfOk result (λ edges. edges.items ≡ map (crease_at n) (range_with_len 1 (n - 1))) }
{
    (1..n).map(|i| crease(n, i)).collect(alloc)
}

fn edges_of_strip(alloc: Global, n: u32) -> Result<List<Edge>, AllocError>
    requires some { 1 ≤ n }
    requires few { n ≤ 500 }
    ensures { IfOk result (λ edges. edges ≡ strip_edges n) }
{
    let mut edges = List::from_vec(side(alloc, n, 0)?);
    let top = side(alloc, n, n + 1)?;
    edges.extend_from_slice(top.as_slice())?;
    edges.push(border(0, n + 1)).map_err(AllocError::from)?;
    edges.push(border(n, 2 * n + 1)).map_err(AllocError::from)?;
    let creases = creases(alloc, n)?;
    edges.extend_from_slice(creases.as_slice())?;
    Ok(edges)
}

fn square(alloc: Global, n: u32, i: u32) -> Result<Face, AllocError>
    requires few { n ≤ 500 }
    requires inside { i < n }
    ensures { IfOk result (λ face. face ≡ square_at n i) }
{
    let corners = List::from_slice(alloc, &[i, i + 1, n + 2 + i, n + 1 + i])?;
    Ok(Face { corners })
}

fn faces_of_strip(alloc: Global, n: u32) -> Result<List<Face>, AllocError>
    requires { n ≤ 500 }
    ensures { IfOk result (λ faces. faces ≡ strip_faces n) }
{
    let mut faces = List::new(alloc);
    for i in 0..n {
        let face = square(alloc, n, i)?;
        faces.push(face).map_err(AllocError::from)?;
    }
    Ok(faces)
}

fn order(i: u32, j: u32) -> FaceOrder
    ensures { result ≡ order_of i j }
{
    let side = if i % 2 == 0 { 1 } else { -1 };
    FaceOrder {
        first: j,
        second: i,
        side,
    }
}

/// The orders of a square and each later one.
fn orders_on_square(alloc: Global, n: u32, i: u32) -> Result<Vec<FaceOrder>, AllocError>
    requires few { n ≤ 500 }
    requires inside { i < n }
    ensures { IfOk result (λ orders. orders.items ≡ orders_on n i) }
{
    (i + 1..n).map(|j| order(i, j)).collect(alloc)
}

fn orders_of_strip(alloc: Global, n: u32) -> Result<List<FaceOrder>, AllocError>
    requires { n ≤ 500 }
    ensures { IfOk result (λ orders. orders ≡ strip_orders n) }
{
    let mut orders = List::new(alloc);
    for i in 0..n {
        let above = orders_on_square(alloc, n, i)?;
        orders.extend_from_slice(above.as_slice())?;
    }
    Ok(orders)
}

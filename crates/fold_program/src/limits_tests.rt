// Drawings and sheets as large as they may be, and larger by one.
ghost use Rattle.std.specs.Prelude.{◌<◌};

use crate::trial::{HEAD, REPAIR, answer};
use std::alloc::{AllocError, Global};
use std::process::Abort;
use std::test::Fail;

/// How many vertical lines a grid has, and how many horizontal ones.
const SIDE: u32 = 128;

/// How many crossings it has.
const CROSSINGS: u32 = 16384;

/// The lines of a grid, whose crossings are (0, 0) to (127, 127).
fn grid_lines(alloc: Global) -> Result<String, AllocError> {
    let last = SIDE - 1;
    let mut lines = String::new(alloc);
    for i in 0..SIDE {
        let pair = format!(in alloc; "2 0 {i} {last} {i}\n2 {i} 0 {i} {last}\n")?;
        lines.push_str(&pair)?;
    }
    Ok(lines)
}

/// What parts an item from those before it in a list.
fn comma(list: &str) -> &'static str {
    if list.is_empty() { "" } else { "," }
}

/// The vertices, edges and faces of a grid, as items of lists, each by the vertex that they begin with.
#[derive(Drop)]
struct Grid {
    vertices: String,
    edges: String,
    letters: String,
    faces: String,
}

impl Grid {
    fn new(alloc: Global) -> Grid {
        Grid {
            vertices: String::new(alloc),
            edges: String::new(alloc),
            letters: String::new(alloc),
            faces: String::new(alloc),
        }
    }

    fn add_edge(&mut self, alloc: Global, from: u32, to: u32) -> Result<(), AllocError> {
        let edge = format!(in alloc; "{}[{from},{to}]", comma(&self.edges))?;
        self.edges.push_str(&edge)?;
        let letter = format!(in alloc; "{}\"M\"", comma(&self.letters))?;
        self.letters.push_str(&letter)
    }

    /// Adds the crossing with this number, the edges that go up and right from it, and the square between them.
    fn add_crossing(&mut self, alloc: Global, id: u32) -> Result<(), AllocError>
        requires { id < 16384 }
    {
        let (x, y) = (id / SIDE, id % SIDE);
        let (above, right, opposite) = (id + 1, id + SIDE, id + SIDE + 1);
        let vertex = format!(in alloc; "{}[{x},{y}]", comma(&self.vertices))?;
        self.vertices.push_str(&vertex)?;
        if above % SIDE != 0 {
            self.add_edge(alloc, id, above)?;
        }
        if right < CROSSINGS {
            self.add_edge(alloc, id, right)?;
        }
        if above % SIDE != 0 && right < CROSSINGS {
            let face = format!(in alloc;
                "{}[{id},{right},{opposite},{above}]",
                comma(&self.faces)
            )?;
            self.faces.push_str(&face)?;
        }
        Ok(())
    }
}

/// The file of the grid.
fn grid_file(alloc: Global) -> Result<String, AllocError> {
    let mut grid = Grid::new(alloc);
    for id in 0..CROSSINGS {
        grid.add_crossing(alloc, id)?;
    }
    let Grid {
        vertices,
        edges,
        letters,
        faces,
    } = &grid;
    format!(in alloc;
        "{HEAD}\"vertices_coords\":[{vertices}],\"edges_vertices\":[{edges}],\"edges_assignment\":[{letters}],\"faces_vertices\":[{faces}]}}\n"
    )
}

#[test]
fn draws_as_many_vertices_as_there_may_be(rt: HostRuntime) -> Result<(), Fail> {
    let alloc = rt.alloc();
    let mut lines = grid_lines(alloc)?;
    let due = grid_file(alloc)?;
    let told = answer(alloc, REPAIR, &lines, 2_000_000)?;
    assert_eq!(rt; told.status.code(), 0);
    assert!(rt; told.sink.bytes() == due.as_bytes());
    lines.push_str("2 200 0 201 0\n")?;
    let told = answer(alloc, REPAIR, &lines, 100)?;
    assert_eq!(rt; told.status.code(), 9);
    assert_eq!(rt;
        told.notes.bytes(),
        b"fold_program: too many vertices\n".as_slice()
    );
    assert_eq!(rt; told.sink.bytes().len(), 0);
    Ok(())
}

/// As many times the same line as there may be lines, but for the last.
fn same_lines(alloc: Global, last: &str) -> Result<String, AllocError> {
    let mut lines = String::new(alloc);
    for _ in 0..2047 {
        lines.push_str("2 0 0 1 0\n")?;
    }
    lines.push_str(last)?;
    Ok(lines)
}

#[test]
fn draws_as_many_lines_as_there_may_be(rt: HostRuntime) -> Result<(), Fail> {
    let alloc = rt.alloc();
    for (last, letter) in [
        ("2 0 0 1 0\n", "M"),
        ("3 0 0 1 0\n", "U"),
        ("1 0 0 1 0\n", "B"),
    ] {
        let told = answer(alloc, REPAIR, &same_lines(alloc, last)?, 4096)?;
        let due = format!(in alloc;
            "{HEAD}\"vertices_coords\":[[0,0],[1,0]],\"edges_vertices\":[[0,1]],\"edges_assignment\":[\"{letter}\"],\"faces_vertices\":[]}}\n"
        )?;
        assert_eq!(rt; told.sink.bytes(), due.as_bytes());
        assert_eq!(rt; told.status.code(), 0);
    }
    let one_more = same_lines(alloc, "2 0 0 1 0\n2 0 0 1 0\n")?;
    let told = answer(alloc, REPAIR, &one_more, 4096)?;
    assert_eq!(rt; told.status.code(), 9);
    assert_eq!(rt;
        told.notes.bytes(),
        b"fold_program: too many segments\n".as_slice()
    );
    assert_eq!(rt; told.sink.bytes().len(), 0);
    Ok(())
}

/// A file of so many faces that have no corner, and nothing else.
fn empty_faces(alloc: Global, count: u32) -> Result<String, AllocError> {
    let mut faces = String::new(alloc);
    for _ in 0..count {
        let face = format!(in alloc; "{}[]", comma(&faces))?;
        faces.push_str(&face)?;
    }
    format!(in alloc;
        "{{\"vertices_coords\":[],\"edges_vertices\":[],\"edges_assignment\":[],\"faces_vertices\":[{faces}]}}"
    )
}

#[test]
fn judges_as_many_faces_as_there_may_be(rt: HostRuntime) -> Result<(), Fail> {
    let alloc = rt.alloc();
    let rows: [(u32, u8, &str); 2] = [
        (512, 4, "fold_program: empty sheet\n"),
        (513, 9, "fold_program: too many faces\n"),
    ];
    for (count, code, line) in rows {
        let told = answer(alloc, &["judge"], &empty_faces(alloc, count)?, 100)?;
        assert_eq!(rt; told.status.code(), code);
        assert_eq!(rt; told.notes.bytes(), line.as_bytes());
        assert_eq!(rt; told.sink.bytes().len(), 0);
    }
    Ok(())
}

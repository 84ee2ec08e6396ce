// Lines as FOLD files by example, and long ways of frames.
use crate::trial::{HEAD, answer};
use crease_input::Axis;
use fold_commands::{NumberCause, ShapeCause, Status};
use number_rules::Unread;
use std::alloc::Global;
use std::fmt::Write;
use std::process::Abort;
use std::test::Fail;

/// Words, lines, and what is written behind the head of the file.
const DRAWN: &[(&[&str], &str, &str)] = &[
    (
        &["convert", "--from=cp", "--number=grid:1000"],
        "2 1.4210854715202004E-14 0 200.0 0.3335",
        r#""vertices_coords":[[0,0],[200,0.334]],"edges_vertices":[[0,1]],"edges_assignment":["M"]}"#,
    ),
    (
        &["convert", "--number=root2:1", "--from=cp"],
        "2 0.41421356237310 0 1 0",
        r#""vertices_coords":[[0.414213562,0],[1,0]],"fx:vertices_coords":[["-1,1,1","0,0,1"],["1,0,1","0,0,1"]],"edges_vertices":[[0,1]],"edges_assignment":["M"]}"#,
    ),
    (
        &["convert", "--from=cp", "--number", "root3:1", "--to=fold"],
        "2 0.73205080756888 0 1 0",
        r#""vertices_coords":[[0.732050808,0],[1,0]],"fx:vertices_coords":[["-1,1,1,3","0,0,1,3"],["1,0,1,3","0,0,1,3"]],"edges_vertices":[[0,1]],"edges_assignment":["M"]}"#,
    ),
    // Halves are rounded upwards.
    (
        &["convert", "--from=cp", "--number=grid:1"],
        "2 1.5 0 -1.5 0",
        r#""vertices_coords":[[2,0],[-1,0]],"edges_vertices":[[0,1]],"edges_assignment":["M"]}"#,
    ),
    (
        &["convert", "--from=cp", "--number=grid:1"],
        "2 1e-999999999999 0 0 0",
        r#""vertices_coords":[[0,0]],"edges_vertices":[[0,0]],"edges_assignment":["M"]}"#,
    ),
    // Thirds aren't decimals, and neither are ten decimals.
    (
        &["convert", "--from=cp", "--number=grid:3"],
        "1 0.3333 0 1 0\n",
        r#""vertices_coords":[[0.333333333,0],[1,0]],"fx:vertices_coords":[["1,0,3","0,0,1"],["1,0,1","0,0,1"]],"edges_vertices":[[0,1]],"edges_assignment":["B"]}"#,
    ),
    (
        &["convert", "--from=cp", "--number=exact"],
        "3 0.0000000005 0 1 0\n",
        r#""vertices_coords":[[0.000000001,0],[1,0]],"fx:vertices_coords":[["1,0,2000000000","0,0,1"],["1,0,1","0,0,1"]],"edges_vertices":[[0,1]],"edges_assignment":["V"]}"#,
    ),
    // Ends are told apart by value, a frame's number says nothing of lines, and there may be none.
    (
        &["convert", "--from=cp", "--frame=7"],
        "2 0e999999999999 0 1.50 -0\n0 15e-1 0.0 0 0\n",
        r#""vertices_coords":[[0,0],[1.5,0]],"edges_vertices":[[0,1],[1,0]],"edges_assignment":["M","F"]}"#,
    ),
    (
        &["convert", "--from=cp"],
        "",
        r#""vertices_coords":[],"edges_vertices":[],"edges_assignment":[]}"#,
    ),
];

#[test]
fn draws_lines(rt: HostRuntime) -> Result<(), Fail> {
    let alloc = rt.alloc();
    for (words, input, rest) in DRAWN {
        let told = answer(alloc, words, input, 1000)?;
        assert_eq!(rt; told.status, Status::Done, "{input}");
        let output = format!(in alloc; "{HEAD}{rest}\n")?;
        assert_eq!(rt; told.sink.bytes(), output.as_bytes(), "{input}");
        assert_eq!(rt; told.notes.bytes(), b"".as_slice(), "{input}");
    }
    Ok(())
}

/// A rule, lines, the first coordinate that isn't read, and the line to notes.
const UNREAD: &[(&str, &str, (u32, Axis, Unread), &str)] = &[
    (
        "--number=exact",
        "2 1.4210854715202004E-14 0 200.0 0.3335",
        (0, Axis::X, Unread::Fine),
        "fold_program: unread 0 x: fine\n",
    ),
    (
        "--number=exact",
        "2 1e30 0 0 0",
        (0, Axis::X, Unread::Far),
        "fold_program: unread 0 x: far\n",
    ),
    (
        "--number=root2:1",
        "2 0.5 0 0 0",
        (0, Axis::X, Unread::NoRoot),
        "fold_program: unread 0 x: no root\n",
    ),
    (
        "--number=root3:1",
        "2 0.5 0 0 0",
        (0, Axis::X, Unread::NoRoot),
        "fold_program: unread 0 x: no root\n",
    ),
    (
        "--number=exact",
        "2 1e999999999999 0 0 0",
        (0, Axis::X, Unread::Far),
        "fold_program: unread 0 x: far\n",
    ),
    (
        "--number=exact",
        "2 1e-999999999999 0 0 0",
        (0, Axis::X, Unread::Fine),
        "fold_program: unread 0 x: fine\n",
    ),
    // Of two the first, and ends are counted through the lines.
    (
        "--number=grid:2",
        "1 0 0 1 0\n\n2 0 0 0 1e10\n3 1e10 0 0 0",
        (3, Axis::Y, Unread::Far),
        "fold_program: unread 3 y: far\n",
    ),
];

#[test]
fn names_the_first_unread(rt: HostRuntime) -> Result<(), Fail> {
    let alloc = rt.alloc();
    for (number, input, place, line) in UNREAD {
        let (vertex, axis, cause) = *place;
        let told = answer(alloc, &["convert", "--from=cp", number], input, 1000)?;
        assert_eq!(rt; told.status.code(), 5, "{input}");
        let unread = NumberCause::Unread {
            vertex,
            axis,
            cause,
        };
        assert_eq!(rt; told.status, Status::Number(unread), "{input}");
        assert_eq!(rt; told.sink.bytes(), b"".as_slice(), "{input}");
        assert_eq!(rt; told.notes.bytes(), line.as_bytes(), "{input}");
    }
    Ok(())
}

/// A file in which each frame inherits from the one before, and the first after frame 0 from `first`.
fn way_of_frames(alloc: Global, last: u32, first: u32) -> Result<String, Fail> {
    let mut text = String::from_str(alloc, r#"{"vertices_coords":[[0,0]],"file_frames":["#)?;
    for frame in 1..=last {
        let parent = if frame == 1 { first } else { frame - 1 };
        let comma = if frame == 1 { "" } else { "," };
        write!(
            text,
            r#"{comma}{{"frame_inherit":true,"frame_parent":{parent}}}"#
        )?;
    }
    text.push_str("]}")?;
    Ok(text)
}

#[test]
fn follows_long_ways(rt: HostRuntime) -> Result<(), Fail> {
    let alloc = rt.alloc();
    let point = b"{\"vertices_coords\":[[0,0]]}\n".as_slice();
    let way = way_of_frames(alloc, 10_000, 0)?;
    let told = answer(alloc, &["convert", "--frame=10000"], &way, 1000)?;
    assert_eq!(rt; told.status, Status::Done);
    assert_eq!(rt; told.sink.bytes(), point);
    let round = way_of_frames(alloc, 10_000, 10_000)?;
    let told = answer(alloc, &["convert", "--frame=10000"], &round, 1000)?;
    let met_again = ShapeCause::ParentLoop { frame: 10_000 };
    assert_eq!(rt; told.status, Status::Shape(met_again));
    assert_eq!(rt; told.sink.bytes(), b"".as_slice());
    let told = answer(alloc, &["convert", "--frame=0"], &round, 1000)?;
    assert_eq!(rt; told.status, Status::Done);
    assert_eq!(rt; told.sink.bytes(), point);
    Ok(())
}

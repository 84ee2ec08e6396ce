// What `convert` makes of frames.
use crate::trial::{FRAMES, PRINTED, Row, SHOWN, check, misfit, shown_fold};
use fold_base::Text;
use fold_commands::{ShapeCause, SheetCause, Status};
use fold_keys::ShapeKind;
use std::alloc::AllocError;
use std::test::Fail;

#[test]
fn converts_a_frame(rt: HostRuntime) -> Result<(), Fail> {
    let rows: [(&[&str], &[u8], &[u8]); 5] = [
        (
            &["convert", "--frame=2"],
            FRAMES,
            b"{\"vertices_coords\":[[0,0]],\"frame_title\":\"b\",\"x:y\":7}\n",
        ),
        (
            &["convert"],
            FRAMES,
            b"{\"vertices_coords\":[[0,0]],\"frame_title\":\"a\"}\n",
        ),
        // What the file says of itself comes first, also by keys that aren't known.
        (
            &["convert", "--frame=1"],
            b"{\"a\":1,\"file_b\":[],\"file_frames\":[{\"c\":1,\"file_title\":2}],\"file_spec\":1.1}",
            b"{\"file_b\":[],\"file_spec\":1.1,\"c\":1}\n",
        ),
        // A way that comes back is a fault of the frames on it alone.
        (
            &["convert"],
            b"{\"vertices_coords\":[[0,0]],\"file_frames\":[{\"frame_inherit\":true,\"frame_parent\":1}]}",
            b"{\"vertices_coords\":[[0,0]]}\n",
        ),
        (&["convert", "--to=fold"], b"{}", b"{}\n"),
    ];
    for (words, input, output) in rows {
        let row = Row {
            words,
            ..shown_fold(input, output)
        };
        check(&rt, rt.alloc(), row)?;
    }
    Ok(())
}

/// A square with a diagonal.
const SQUARE: &[u8] = b"{\"vertices_coords\":[[0,0],[1,0],[1,1],[0,1]],\
    \"edges_vertices\":[[0,1],[1,2],[2,3],[3,0],[0,2]],\
    \"edges_assignment\":[\"B\",\"B\",\"B\",\"B\",\"V\"],\
    \"faces_vertices\":[[0,1,2],[0,2,3]],\"faceOrders\":[[1,0,1]]}";

#[test]
fn converts_to_lines(rt: HostRuntime) -> Result<(), Fail> {
    let rows: [(&[&str], &[u8], &[u8]); 5] = [
        (
            &["convert", "--to=cp"],
            SQUARE,
            b"1 0 0 1 0\n1 1 0 1 1\n1 1 1 0 1\n1 0 1 0 0\n3 0 0 1 1\n",
        ),
        // Each letter's kind, and a third coordinate of value 0.
        (
            &["convert", "--to=cp"],
            b"{\"edges_assignment\":[\"M\",\"F\",\"U\",\"J\",\"C\"],\"vertices_coords\":[[0,0],[1.50,-0,-0.0E7]],\
              \"edges_vertices\":[[0,1],[0,1],[0,1],[0,1],[1,1]]}",
            b"2 0 0 1.50 -0\n4 0 0 1.50 -0\n4 0 0 1.50 -0\n4 0 0 1.50 -0\n1 1.50 -0 1.50 -0\n",
        ),
        // No letters.
        (
            &["convert", "--to=cp", "--frame=1"],
            b"{\"vertices_coords\":[[2,3]],\"file_frames\":[{\"frame_parent\":0,\"frame_inherit\":true,\
              \"edges_vertices\":[[0,0]]}]}",
            b"4 2 3 2 3\n",
        ),
        (
            &["convert", "--to=cp"],
            b"{\"vertices_coords\":[],\"edges_vertices\":[]}",
            b"",
        ),
        (&["convert", "--from=cp", "--to=cp"], SHOWN, PRINTED),
    ];
    for (words, input, output) in rows {
        let row = Row {
            words,
            ..shown_fold(input, output)
        };
        check(&rt, rt.alloc(), row)?;
    }
    Ok(())
}

#[test]
fn names_a_frame_without_lines(rt: HostRuntime) -> Result<(), Fail> {
    let alloc = rt.alloc();
    let missing = |key: &str| -> Result<Status, AllocError> {
        let key = Text::from_text(alloc, key)?;
        Ok(Status::Sheet(SheetCause::Missing { key }))
    };
    let rows: [(&[u8], Status, u8, &[u8]); 4] = [
        (
            b"{}",
            missing("vertices_coords")?,
            4,
            b"fold_program: missing vertices_coords\n",
        ),
        (
            b"{\"vertices_coords\":[[0,0,1]]}",
            missing("edges_vertices")?,
            4,
            b"fold_program: missing edges_vertices\n",
        ),
        // A vertex without an edge, by the digits before the exponent.
        (
            b"{\"vertices_coords\":[[0,0],[1,1,0.0],[1,1,0.001E-99]],\"edges_vertices\":[[0,1]]}",
            Status::Shape(ShapeCause::NotFlat { vertex: 2 }),
            3,
            b"fold_program: not flat 2\n",
        ),
        (
            b"{\"file_frames\":[{}]}",
            missing("vertices_coords")?,
            4,
            b"fold_program: missing vertices_coords\n",
        ),
    ];
    for (input, status, code, notes) in rows {
        assert_eq!(rt; status.code(), code);
        let row = Row {
            words: &["convert", "--to=cp"],
            status,
            notes,
            ..shown_fold(input, b"")
        };
        check(&rt, alloc, row)?;
    }
    Ok(())
}

#[test]
fn names_a_frame_that_cannot_be_had(rt: HostRuntime) -> Result<(), Fail> {
    let rows: [(&[u8], ShapeCause, &[u8]); 3] = [
        (
            b"{\"file_frames\":[{}]}",
            ShapeCause::NoFrame { frame: 2 },
            b"fold_program: no frame 2\n",
        ),
        (
            b"{\"file_frames\":[{\"frame_parent\":1,\"frame_inherit\":true},\
              {\"frame_parent\":2,\"frame_inherit\":true}]}",
            ShapeCause::ParentLoop { frame: 2 },
            b"fold_program: parent loop 2\n",
        ),
        (
            b"{\"file_frames\":[{\"frame_parent\":9,\"frame_inherit\":true},\
              {\"frame_parent\":1,\"frame_inherit\":true}]}",
            ShapeCause::ParentRange { frame: 1 },
            b"fold_program: parent range 1\n",
        ),
    ];
    for (input, cause, notes) in rows {
        let row = Row {
            words: &["convert", "--frame=2"],
            status: Status::Shape(cause),
            notes,
            ..shown_fold(input, b"")
        };
        assert_eq!(rt; row.status.code(), 3);
        check(&rt, rt.alloc(), row)?;
    }
    Ok(())
}

#[test]
fn names_lists_that_do_not_agree(rt: HostRuntime) -> Result<(), Fail> {
    use ShapeKind::{IdRange, NotKind, Uneven};
    let rows: [(&[u8], (u32, &str, u32, ShapeKind), &[u8]); 3] = [
        (
            b"{\"vertices_coords\":[[0,0],[1,0]],\"edges_vertices\":[[0,1],[0,9]]}",
            (0, "edges_vertices", 1, IdRange),
            b"fold_program: frame 0 key edges_vertices index 1: id range\n",
        ),
        (
            b"{\"edges_assignment\":[\"B\",\"B\"],\"edges_vertices\":[[0,1]],\"vertices_coords\":[]}",
            (0, "edges_assignment", 2, Uneven),
            b"fold_program: frame 0 key edges_assignment index 2: uneven\n",
        ),
        // A misfit of another frame comes first.
        (
            b"{\"edges_vertices\":[[0,1]],\"vertices_coords\":[],\"file_frames\":[3]}",
            (1, "", 0, NotKind),
            b"fold_program: frame 1 key  index 0: not kind\n",
        ),
    ];
    for (input, place, notes) in rows {
        let row = Row {
            words: &["convert"],
            failing_notes: &[],
            ..misfit(rt.alloc(), input, place, notes)?
        };
        check(&rt, rt.alloc(), row)?;
    }
    Ok(())
}

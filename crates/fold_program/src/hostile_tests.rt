// Verdicts of texts that end early, and of sources and sinks that fail.
use crate::trial::{Row, check, faulty_fold, shown};
use fold_commands::{SheetCause, Status};
use json_read::JsonCause;
use std::alloc::AllocError;
use std::test::Fail;

/// A square with a crease from corner to corner.
const SQUARE: &str =
    r#"{"vertices_coords":[[0,0],[1,0],[1,1],[0,1]],"edges_vertices":[[0,1],[1,2],[2,3],[3,0],[0,2]],"edges_assignment":["B","B","B","B","V"],"faces_vertices":[[0,1,2],[0,2,3]],"faceOrders":[[1,0,1]]}"#;

/// The square without an order of its faces.
const UNORDERED: &str =
    r#"{"vertices_coords":[[0,0],[1,0],[1,1],[0,1]],"edges_vertices":[[0,1],[1,2],[2,3],[3,0],[0,2]],"edges_assignment":["B","B","B","B","V"],"faces_vertices":[[0,1,2],[0,2,3]]}"#;

/// The square judged with no fault outside.
fn judged<'a>(output: &'a [u8]) -> Row<'a> {
    Row {
        words: &["judge"],
        ..shown(SQUARE.as_bytes(), output)
    }
}

#[test]
fn no_beginning_of_a_file_is_judged(rt: HostRuntime) -> Result<(), Fail> {
    let alloc = rt.alloc();
    let mut beginning = Vec::new(alloc);
    for (place, byte) in (0u32..).zip(SQUARE.as_bytes()) {
        let notes = format!(in alloc; "fold_program: json fault at {place}: ended\n")?;
        let row = Row {
            words: &["judge"],
            ..faulty_fold(&beginning, place, JsonCause::Ended, notes.as_bytes())
        };
        check(&rt, alloc, row)?;
        beginning.push(*byte)?;
    }
    check(&rt, alloc, judged(b"yes\n"))?;
    Ok(())
}

#[test]
fn judges_nothing_where_a_read_fails(rt: HostRuntime) -> Result<(), AllocError> {
    // The last of these calls would say that the input ends.
    for call in 1..6 {
        let row = Row {
            pieces: (64, 4096),
            failing_takes: &[call],
            status: Status::Read,
            notes: b"fold_program: read failed\n",
            ..judged(b"")
        };
        check(&rt, rt.alloc(), row)?;
    }
    let in_small_pieces = Row {
        pieces: (4, 4096),
        failing_takes: &[3],
        status: Status::Read,
        notes: b"fold_program: read failed\n",
        ..judged(b"")
    };
    check(&rt, rt.alloc(), in_small_pieces)
}

#[test]
fn writes_no_more_where_a_write_fails(rt: HostRuntime) -> Result<(), AllocError> {
    let rows: [(u64, &[u8]); 4] = [(1, b""), (2, b"y"), (3, b"ye"), (4, b"yes")];
    for (call, output) in rows {
        let row = Row {
            pieces: (4096, 1),
            failing_puts: &[call],
            status: Status::Write,
            notes: b"fold_program: write failed\n",
            ..judged(output)
        };
        check(&rt, rt.alloc(), row)?;
    }
    let folded = Row {
        words: &["fold"],
        pieces: (4096, 16),
        failing_puts: &[2],
        status: Status::Write,
        notes: b"fold_program: write failed\n",
        ..judged(b"{\"file_spec\":1.2")
    };
    check(&rt, rt.alloc(), folded)
}

#[test]
fn judges_alike_where_no_note_is_taken(rt: HostRuntime) -> Result<(), AllocError> {
    let row = Row {
        words: &["judge"],
        status: Status::Sheet(SheetCause::NoOrder { low: 0, high: 1 }),
        failing_notes: &[1, 2, 3],
        ..shown(UNORDERED.as_bytes(), b"")
    };
    check(&rt, rt.alloc(), row)
}

// Repaired drawings by example.
use crate::trial::{HEAD, REPAIR, answer};
use std::process::Abort;
use std::test::Fail;

const DIAGONALS: &str = "1 0 0 1 0\n1 1 0 1 1\n1 1 1 0 1\n1 0 1 0 0\n2 0 0 1 1\n3 0 1 1 0\n";

/// Two squares that have nothing in common.
const TWO_SQUARES: &str =
    "1 0 0 1 0\n1 1 0 1 1\n1 1 1 0 1\n1 0 1 0 0\n1 3 0 4 0\n1 4 0 4 1\n1 4 1 3 1\n1 3 1 3 0\n";

const FISH: &str =
    "1 -200.0 -200.0 200.0 -200.0\n1 200.0 -200.0 200.0 200.0\n1 200.0 200.0 -200.0 200.0\n\
    1 -200.0 200.0 -200.0 -200.0\n3 -200.0 -200.0 82.84271247461901 -82.84271247461901\n\
    3 -200.0 -200.0 -82.84271247461901 82.84271247461901\n3 200.0 200.0 82.84271247461901 -82.84271247461901\n\
    3 200.0 200.0 -82.84271247461901 82.84271247461901\n3 200.0 -200.0 82.84271247461901 -82.84271247461901\n\
    3 -200.0 200.0 -82.84271247461901 82.84271247461901\n\
    2 82.84271247461901 -200.0 82.84271247461901 -82.84271247461901\n\
    2 -200.0 82.84271247461901 -82.84271247461901 82.84271247461901\n4 -200.0 -200.0 200.0 200.0\n";

/// Words, input, and what is written behind the head of the file.
const DRAWN: &[(&[&str], &str, &str)] = &[
    // A segment twice, the other way round, and one without a length.
    (
        REPAIR,
        "2 0 0 1 0\n2 1 0 0 0\n3 5 5 5 5\n",
        r#""vertices_coords":[[0,0],[1,0]],"edges_vertices":[[0,1]],"edges_assignment":["M"],"faces_vertices":[]}"#,
    ),
    // Two segments along one line, which run together for a while.
    (
        REPAIR,
        "1 0 -1 3 -1\n1 3 -1 3 1\n1 3 1 0 1\n1 0 1 0 -1\n2 0 0 2 0\n3 1 0 3 0\n",
        r#""vertices_coords":[[0,-1],[0,0],[0,1],[1,0],[2,0],[3,-1],[3,0],[3,1]],"edges_vertices":[[0,1],[0,5],[1,2],[1,3],[2,7],[3,4],[4,6],[5,6],[6,7]],"edges_assignment":["B","B","B","M","B","U","V","B","B"],"faces_vertices":[[0,5,6,4,3,1],[1,3,4,6,7,2]]}"#,
    ),
    (
        REPAIR,
        "",
        r#""vertices_coords":[],"edges_vertices":[],"edges_assignment":[],"faces_vertices":[]}"#,
    ),
    // Each face is the region of one of (1/4, 1/2), (1/2, 1/4), (1/2, 3/4) and (3/4, 1/2), in this order.
    (
        REPAIR,
        DIAGONALS,
        r#""vertices_coords":[[0,0],[0,1],[0.5,0.5],[1,0],[1,1]],"edges_vertices":[[0,1],[0,2],[0,3],[1,2],[1,4],[2,3],[2,4],[3,4]],"edges_assignment":["B","M","B","V","B","V","M","B"],"faces_vertices":[[0,2,1],[0,3,2],[1,2,4],[2,3,4]]}"#,
    ),
    // Four segments through one point.
    (
        REPAIR,
        "2 -1 -1 1 1\n2 -1 1 1 -1\n2 -1 0 1 0\n2 0 -1 0 1\n",
        r#""vertices_coords":[[-1,-1],[-1,0],[-1,1],[0,-1],[0,0],[0,1],[1,-1],[1,0],[1,1]],"edges_vertices":[[0,4],[1,4],[2,4],[3,4],[4,5],[4,6],[4,7],[4,8]],"edges_assignment":["M","M","M","M","M","M","M","M"],"faces_vertices":[]}"#,
    ),
    // As large as coordinates of this denominator may be, and as large as whole ones.
    (
        REPAIR,
        "2 0 0 0.4194304 0.0000001\n",
        r#""vertices_coords":[[0,0],[0.4194304,0.0000001]],"edges_vertices":[[0,1]],"edges_assignment":["M"],"faces_vertices":[]}"#,
    ),
    (
        REPAIR,
        "2 0 0 4194304 0\n",
        r#""vertices_coords":[[0,0],[4194304,0]],"edges_vertices":[[0,1]],"edges_assignment":["M"],"faces_vertices":[]}"#,
    ),
    (
        &["repair", "--from=cp", "--faces=no"],
        TWO_SQUARES,
        r#""vertices_coords":[[0,0],[0,1],[1,0],[1,1],[3,0],[3,1],[4,0],[4,1]],"edges_vertices":[[0,1],[0,2],[1,3],[2,3],[4,5],[4,6],[5,7],[6,7]],"edges_assignment":["B","B","B","B","B","B","B","B"]}"#,
    ),
    (
        &["repair", "--from=cp", "--number=root2:1", "--flat=drop"],
        FISH,
        r#""vertices_coords":[[-200,-200],[-200,82.842712475],[-200,200],[-82.842712475,82.842712475],[82.842712475,-200],[82.842712475,-82.842712475],[200,-200],[200,200]],"fx:vertices_coords":[["-200,0,1","-200,0,1"],["-200,0,1","-200,200,1"],["-200,0,1","200,0,1"],["200,-200,1","-200,200,1"],["-200,200,1","-200,0,1"],["-200,200,1","200,-200,1"],["200,0,1","-200,0,1"],["200,0,1","200,0,1"]],"edges_vertices":[[0,1],[0,3],[0,4],[0,5],[1,2],[1,3],[2,3],[2,7],[3,7],[4,5],[4,6],[5,6],[5,7],[6,7]],"edges_assignment":["B","V","B","V","B","M","V","B","V","M","B","V","V","B"],"faces_vertices":[[0,3,1],[0,4,5],[0,5,7,3],[1,3,2],[2,3,7],[4,6,5],[5,6,7]]}"#,
    ),
    // A frame, whose exact texts no rule reads.
    (
        &["repair", "--number=root3:7"],
        r#"{"vertices_coords":[[0.414213562,0],[1,0]],"fx:vertices_coords":[["-1,1,1","0,0,1"],["1,0,1","0,0,1"]],"edges_vertices":[[0,1]]}"#,
        r#""vertices_coords":[[0.414213562,0],[1,0]],"fx:vertices_coords":[["-1,1,1","0,0,1"],["1,0,1","0,0,1"]],"edges_vertices":[[0,1]],"edges_assignment":["U"],"faces_vertices":[]}"#,
    ),
];

/// Words, input, the exit status, and what is said of it.
const REFUSED: &[(&[&str], &str, u8, &str)] = &[
    (REPAIR, "2 0 0 4194305 0\n", 5, "too wide 1 input"),
    (REPAIR, "2 0 0 0.00000005 1\n", 5, "too wide 1 input"),
    (REPAIR, "2 0 0 0.4194305 0.0000001\n", 5, "too wide 1 input"),
    (REPAIR, FISH, 5, "too wide 9 input"),
    (REPAIR, TWO_SQUARES, 4, "parted 4"),
    (
        &["repair"],
        r#"{"vertices_coords":[[0.5,0]],"fx:vertices_coords":[["-1,1,1","0,0,1"]],"edges_vertices":[]}"#,
        3,
        "stale 0",
    ),
    (
        &["repair"],
        r#"{"vertices_coords":[[1,0],[1.732050808,0]],"fx:vertices_coords":[["1,0,1","0,0,1"],["0,1,1,3","0,0,1,3"]],"edges_vertices":[]}"#,
        5,
        "unread 1 x: exact text",
    ),
    (
        &["repair"],
        r#"{"vertices_coords":[[0,0,1]]}"#,
        4,
        "missing edges_vertices",
    ),
    (
        &["repair"],
        r#"{"vertices_coords":[[0,0,1]],"edges_vertices":[]}"#,
        3,
        "not flat 0",
    ),
    (&["repair", "--number=grid:0"], "", 6, "words value"),
];

#[test]
fn draws(rt: HostRuntime) -> Result<(), Fail> {
    let alloc = rt.alloc();
    for (words, input, rest) in DRAWN {
        let told = answer(alloc, words, input, 4096)?;
        let due = format!(in alloc; "{HEAD}{rest}\n")?;
        assert_eq!(rt; told.sink.bytes(), due.as_bytes(), "{input}");
        assert_eq!(rt; told.notes.bytes().len(), 0, "{input}");
        assert_eq!(rt; told.status.code(), 0, "{input}");
    }
    Ok(())
}

#[test]
fn refuses(rt: HostRuntime) -> Result<(), Fail> {
    let alloc = rt.alloc();
    for (words, input, code, cause) in REFUSED {
        let told = answer(alloc, words, input, 4096)?;
        let due = format!(in alloc; "fold_program: {cause}\n")?;
        assert_eq!(rt; told.notes.bytes(), due.as_bytes(), "{input}");
        assert_eq!(rt; told.sink.bytes().len(), 0, "{cause}");
        assert_eq!(rt; told.status.code(), *code, "{cause}");
    }
    Ok(())
}

#[test]
fn writes_lines(rt: HostRuntime) -> Result<(), Fail> {
    let told = answer(
        rt.alloc(),
        &["repair", "--to=cp", "--from=cp"],
        DIAGONALS,
        4096,
    )?;
    let due =
        "1 0 0 0 1\n2 0 0 0.5 0.5\n1 0 0 1 0\n3 0 1 0.5 0.5\n1 0 1 1 1\n3 0.5 0.5 1 0\n2 0.5 0.5 1 1\n1 1 0 1 1\n";
    assert_eq!(rt; told.sink.bytes(), due.as_bytes());
    assert_eq!(rt; told.status.code(), 0);
    Ok(())
}

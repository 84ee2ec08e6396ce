// Folded forms and verdicts by example.
use crate::trial::answer;
use std::process::Abort;
use std::test::Fail;

/// A square with a crease from corner to corner.
const SQUARE: &str =
    r#"{"vertices_coords":[[0,0],[1,0],[1,1],[0,1]],"edges_vertices":[[0,1],[1,2],[2,3],[3,0],[0,2]],"edges_assignment":["B","B","B","B","V"],"faces_vertices":[[0,1,2],[0,2,3]],"faceOrders":[[1,0,1]]}"#;

/// Three squares in a row.
const STRIP: &str =
    r#"{"vertices_coords":[[0,0],[1,0],[2,0],[3,0],[3,1],[2,1],[1,1],[0,1]],"edges_vertices":[[0,1],[1,2],[2,3],[3,4],[4,5],[5,6],[6,7],[7,0],[1,6],[2,5]],"edges_assignment":["B","B","B","B","B","B","B","B","V","V"],"faces_vertices":[[0,1,6,7],[1,2,5,6],[2,3,4,5]],"faceOrders":[[1,0,1],[2,0,1],[2,1,1]]}"#;

/// Four creases that meet in a point, and don't close.
const SKEW: &str =
    r#"{"vertices_coords":[[0,0],[2,0],[2,2],[1,2],[0,2],[1,1]],"edges_vertices":[[0,1],[1,2],[2,3],[3,4],[4,0],[5,0],[5,1],[5,2],[5,3]],"edges_assignment":["B","B","B","B","B","V","V","V","M"],"faces_vertices":[[0,1,5],[1,2,5],[2,3,5],[3,4,0,5]]}"#;

/// The square without orders, and a folded form of it with orders as another frame.
const TWO_FRAMES: &str =
    r#"{"vertices_coords":[[0,0],[1,0],[1,1],[0,1]],"edges_vertices":[[0,1],[1,2],[2,3],[3,0],[0,2]],"edges_assignment":["B","B","B","B","V"],"faces_vertices":[[0,1,2],[0,2,3]],"file_frames":[{"frame_classes":["foldedForm"],"frame_parent":0,"frame_inherit":true,"vertices_coords":[[0,0],[1,0],[1,1],[1,0]],"faceOrders":[[1,0,1]]}]}"#;

/// A fish base, over √2.
const FISH: &str =
    r#"{"file_spec":1.2,"file_creator":"fold_program","frame_classes":["creasePattern"],"vertices_coords":[[-200,-200],[-200,82.842712475],[-200,200],[-82.842712475,82.842712475],[82.842712475,-200],[82.842712475,-82.842712475],[200,-200],[200,200]],"fx:vertices_coords":[["-200,0,1","-200,0,1"],["-200,0,1","-200,200,1"],["-200,0,1","200,0,1"],["200,-200,1","-200,200,1"],["-200,200,1","-200,0,1"],["-200,200,1","200,-200,1"],["200,0,1","-200,0,1"],["200,0,1","200,0,1"]],"edges_vertices":[[0,1],[0,3],[0,4],[0,5],[1,2],[1,3],[2,3],[2,7],[3,7],[4,5],[4,6],[5,6],[5,7],[6,7]],"edges_assignment":["B","V","B","V","B","M","V","B","V","M","B","V","V","B"],"faces_vertices":[[0,3,1],[0,4,5],[0,5,7,3],[1,3,2],[2,3,7],[4,6,5],[5,6,7]]}"#;

/// Words, input, the exit status, and the line that is written.
const ANSWERED: &[(&[&str], &str, u8, &str)] = &[
    (
        &["fold"],
        SQUARE,
        0,
        r#"{"file_spec":1.2,"file_creator":"fold_program","frame_classes":["foldedForm"],"vertices_coords":[[0,0],[1,0],[1,1],[1,0]],"edges_vertices":[[0,1],[1,2],[2,3],[3,0],[0,2]],"edges_assignment":["B","B","B","B","V"],"faces_vertices":[[0,1,2],[0,2,3]],"faceOrders":[[1,0,1]]}"#,
    ),
    (
        &["fold"],
        FISH,
        0,
        r#"{"file_spec":1.2,"file_creator":"fold_program","frame_classes":["foldedForm"],"vertices_coords":[[-200,-200],[-200,82.842712475],[-200,-34.314575051],[-82.842712475,82.842712475],[-200,82.842712475],[-317.157287525,82.842712475],[-200,-34.314575051],[-200,365.685424949]],"fx:vertices_coords":[["-200,0,1","-200,0,1"],["-200,0,1","-200,200,1"],["-200,0,1","-600,400,1"],["200,-200,1","-200,200,1"],["-200,0,1","-200,200,1"],["-600,200,1","-200,200,1"],["-200,0,1","-600,400,1"],["-200,0,1","-200,400,1"]],"edges_vertices":[[0,1],[0,3],[0,4],[0,5],[1,2],[1,3],[2,3],[2,7],[3,7],[4,5],[4,6],[5,6],[5,7],[6,7]],"edges_assignment":["B","V","B","V","B","M","V","B","V","M","B","V","V","B"],"faces_vertices":[[0,3,1],[0,4,5],[0,5,7,3],[1,3,2],[2,3,7],[4,6,5],[5,6,7]]}"#,
    ),
    (&["judge"], SQUARE, 0, r#"yes"#),
    (
        &["judge"],
        r#"{"vertices_coords":[[0,0],[1,0],[1,1],[0,1]],"edges_vertices":[[0,1],[1,2],[2,3],[3,0],[0,2]],"edges_assignment":["B","B","B","B","V"],"faces_vertices":[[0,1,2],[0,2,3]],"faceOrders":[[1,0,-1]]}"#,
        1,
        r#"no: letter 4"#,
    ),
    (
        &["judge"],
        r#"{"vertices_coords":[[0,0],[1,0],[1,1],[0,1]],"edges_vertices":[[0,1],[1,2],[2,3],[3,0],[0,2]],"edges_assignment":["B","B","B","B","V"],"faces_vertices":[[0,1,2],[0,2,3]],"faceOrders":[[1,0,1],[0,1,1]]}"#,
        0,
        r#"yes"#,
    ),
    (&["judge"], STRIP, 0, r#"yes"#),
    (
        &["judge"],
        r#"{"vertices_coords":[[0,0],[1,0],[2,0],[4,0],[4,1],[2,1],[1,1],[0,1]],"edges_vertices":[[0,1],[1,2],[2,3],[3,4],[4,5],[5,6],[6,7],[7,0],[1,6],[2,5]],"edges_assignment":["B","B","B","B","B","B","B","B","V","V"],"faces_vertices":[[0,1,6,7],[1,2,5,6],[2,3,4,5]],"faceOrders":[[1,0,1],[2,0,1],[2,1,1]]}"#,
        1,
        r#"no: through edge 8 face 2"#,
    ),
    (
        &["judge"],
        r#"{"vertices_coords":[[0,0],[2,0],[2,2],[0,2],[1,1]],"edges_vertices":[[0,1],[1,2],[2,3],[3,0],[4,0],[4,1],[4,2],[4,3]],"edges_assignment":["B","B","B","B","V","V","V","M"],"faces_vertices":[[0,1,4],[1,2,4],[2,3,4],[3,0,4]],"faceOrders":[[1,0,1],[2,0,1],[3,0,1],[1,2,1],[1,3,-1],[3,2,-1]]}"#,
        0,
        r#"yes"#,
    ),
    (
        &["judge"],
        r#"{"vertices_coords":[[0,0],[2,0],[2,2],[0,2],[1,1]],"edges_vertices":[[0,1],[1,2],[2,3],[3,0],[4,0],[4,1],[4,2],[4,3]],"edges_assignment":["B","B","B","B","V","V","V","M"],"faces_vertices":[[0,1,4],[1,2,4],[2,3,4],[3,0,4]],"faceOrders":[[1,0,1],[2,0,-1],[3,0,1],[1,2,1],[1,3,-1],[3,2,-1]]}"#,
        1,
        r#"no: cycle 0 2 3"#,
    ),
    (
        &["judge"],
        r#"{"vertices_coords":[[0,0],[2,0],[2,2],[0,2],[1,1]],"edges_vertices":[[0,1],[1,2],[2,3],[3,0],[4,0],[4,1],[4,2],[4,3]],"edges_assignment":["B","B","B","B","U","U","U","U"],"faces_vertices":[[0,1,4],[1,2,4],[2,3,4],[3,0,4]],"faceOrders":[[1,0,1],[3,0,1],[2,0,1],[3,1,-1],[2,1,-1],[2,3,-1]]}"#,
        1,
        r#"no: creases 4 6"#,
    ),
    (
        &["judge"],
        r#"{"vertices_coords":[[0,0],[1,0],[2,0],[4,0],[4,1],[2,1],[1,1],[0,1]],"edges_vertices":[[0,1],[1,2],[2,3],[3,4],[4,5],[5,6],[6,7],[7,0],[1,6],[2,5]],"edges_assignment":["B","B","B","B","B","B","B","B","F","V"],"faces_vertices":[[0,1,6,7],[1,2,5,6],[2,3,4,5]],"faceOrders":[[2,1,1],[2,0,-1]]}"#,
        1,
        r#"no: joined edge 8 face 2"#,
    ),
    (
        &["judge"],
        r#"{"vertices_coords":[[0,0],[1,0],[2,0],[3,0],[4,0],[4,1],[3,1],[2,1],[1,1],[0,1]],"edges_vertices":[[0,1],[1,2],[2,3],[3,4],[4,5],[5,6],[6,7],[7,8],[8,9],[9,0],[1,8],[2,7],[3,6]],"edges_assignment":["B","B","B","B","B","B","B","B","B","B","V","V","J"],"faces_vertices":[[0,1,8,9],[1,2,7,8],[2,3,6,7],[3,4,5,6]],"faceOrders":[[1,0,1],[2,0,1],[2,1,1]]}"#,
        1,
        r#"no: through edge 10 edge 12"#,
    ),
    (
        &["judge"],
        r#"{"vertices_coords":[[0,0],[1,0],[2,0],[3,0],[4,0],[4,1],[3,1],[2,1],[1,1],[0,1]],"edges_vertices":[[0,1],[1,2],[2,3],[3,4],[4,5],[5,6],[6,7],[7,8],[8,9],[9,0],[1,8],[2,7],[3,6]],"edges_assignment":["B","B","B","B","B","B","B","B","B","B","J","V","J"],"faces_vertices":[[0,1,8,9],[1,2,7,8],[2,3,6,7],[3,4,5,6]],"faceOrders":[[2,1,1],[3,0,-1]]}"#,
        1,
        r#"no: joined edge 10 edge 12"#,
    ),
    (
        &["judge"],
        r#"{"vertices_coords":[[0,0],[1,0],[2,0],[2,1],[1,1],[0,1]],"edges_vertices":[[0,1],[1,2],[2,3],[3,4],[4,5],[5,0],[1,4]],"edges_assignment":["B","B","B","B","B","B","J"],"faces_vertices":[[0,1,4,5],[1,2,3,4]]}"#,
        0,
        r#"yes"#,
    ),
    (&["fold"], SKEW, 1, r#"no: unclosed 8"#),
    (&["judge"], SKEW, 1, r#"no: unclosed 8"#),
    (
        &["fold"],
        r#"{"vertices_coords":[[0,0],[1,0],[2,0],[2,1],[2,2],[0,2],[0,1],[1,1]],"edges_vertices":[[0,1],[1,2],[2,3],[3,4],[4,5],[5,6],[6,0],[7,6],[7,3],[7,1]],"edges_assignment":["B","B","B","B","B","B","B","V","V","V"],"faces_vertices":[[6,7,3,4,5],[0,1,7,6],[1,2,3,7]]}"#,
        1,
        r#"no: unclosed 9"#,
    ),
    (
        &["judge"],
        r#"{"file_spec":1.2,"file_creator":"fold_program","frame_classes":["creasePattern"],"vertices_coords":[[-200,-200],[-200,82.842712475],[-200,200],[-82.842712475,82.842712475],[82.842712475,-200],[82.842712475,-82.842712475],[200,-200],[200,200]],"fx:vertices_coords":[["-200,0,1","-200,0,1"],["-200,0,1","-200,200,1"],["-200,0,1","200,0,1"],["200,-200,1","-200,200,1"],["-200,200,1","-200,0,1"],["-200,200,1","200,-200,1"],["200,0,1","-200,0,1"],["200,0,1","200,0,1"]],"edges_vertices":[[0,1],[0,3],[0,4],[0,5],[1,2],[1,3],[2,3],[2,7],[3,7],[4,5],[4,6],[5,6],[5,7],[6,7]],"edges_assignment":["B","V","B","V","B","M","V","B","V","M","B","V","V","B"],"faces_vertices":[[0,3,1],[0,4,5],[0,5,7,3],[1,3,2],[2,3,7],[4,6,5],[5,6,7]],"faceOrders":[[1,2,1],[5,2,1],[6,2,1],[5,1,-1],[6,1,-1],[6,5,1],[0,2,1],[3,2,1],[4,2,1],[3,0,-1],[4,0,-1],[4,3,1]]}"#,
        0,
        r#"yes"#,
    ),
    (
        &["judge"],
        r#"{"vertices_coords":[[0,0],[1,0],[2,0],[2,1],[2,2],[0,2],[0,1],[1,1]],"edges_vertices":[[0,1],[1,2],[2,3],[3,4],[4,5],[5,6],[6,0],[7,6],[7,3],[7,1]],"edges_assignment":["B","B","B","B","B","B","B","V","V","V"],"faces_vertices":[[6,7,3,4,5],[0,1,7,6],[1,2,3,7]]}"#,
        1,
        r#"no: unclosed 9"#,
    ),
    (
        &["fold"],
        r#"{"vertices_coords":[[0,0],[2,0],[2,2],[1,2],[0,2],[1,1]],"edges_vertices":[[0,1],[1,2],[2,3],[3,4],[4,0],[5,0],[5,1],[5,2],[5,3]],"edges_assignment":["B","B","B","B","B","V","V","V","C"],"faces_vertices":[[0,1,5],[1,2,5],[2,3,5],[3,4,0,5]]}"#,
        0,
        r#"{"file_spec":1.2,"file_creator":"fold_program","frame_classes":["foldedForm"],"vertices_coords":[[0,0],[2,0],[0,0],[1,0],[2,1],[2,0],[1,1]],"edges_vertices":[[0,1],[1,2],[2,3],[4,5],[5,0],[6,0],[6,1],[6,2],[6,3],[6,4]],"edges_assignment":["B","B","B","B","B","V","V","V","C","C"],"faces_vertices":[[0,1,6],[1,2,6],[2,3,6],[4,5,0,6]]}"#,
    ),
    (
        &["fold"],
        r#"{"vertices_coords":[[0,0],[1,0],[2,0],[2,1],[2,2],[1,2],[0,2],[0,1],[1,1]],"edges_vertices":[[0,1],[1,2],[2,3],[3,4],[4,5],[5,6],[6,7],[7,0],[7,8],[8,3],[8,5],[1,8]],"edges_assignment":["B","B","B","B","B","B","B","B","V","F","F","C"],"faces_vertices":[[7,8,5,6],[8,3,4,5],[1,2,3,8],[0,1,8,7]],"faceOrders":[[3,0,1]]}"#,
        0,
        r#"{"file_spec":1.2,"file_creator":"fold_program","frame_classes":["foldedForm"],"vertices_coords":[[0,2],[1,0],[1,2],[2,0],[2,1],[2,2],[1,2],[0,2],[0,1],[1,1]],"edges_vertices":[[0,2],[1,3],[3,4],[4,5],[5,6],[6,7],[7,8],[8,0],[8,9],[9,4],[9,6],[1,9],[2,9]],"edges_assignment":["B","B","B","B","B","B","B","B","V","F","F","C","C"],"faces_vertices":[[8,9,6,7],[9,4,5,6],[1,3,4,9],[0,2,9,8]],"faceOrders":[[3,0,1]]}"#,
    ),
    (
        &["judge"],
        r#"{"vertices_coords":[[0,0],[1,0],[2,0],[2,1],[2,2],[1,2],[0,2],[0,1],[1,1]],"edges_vertices":[[0,1],[1,2],[2,3],[3,4],[4,5],[5,6],[6,7],[7,0],[7,8],[8,3],[8,5],[1,8]],"edges_assignment":["B","B","B","B","B","B","B","B","V","F","F","C"],"faces_vertices":[[7,8,5,6],[8,3,4,5],[1,2,3,8],[0,1,8,7]],"faceOrders":[[3,0,1]]}"#,
        0,
        r#"yes"#,
    ),
    (
        &["fold", "--number=root3:1"],
        r#"{"vertices_coords":[[0,0],[1,0],[2,0],[1,1.73205080756888]],"edges_vertices":[[0,1],[1,2],[2,3],[3,0],[1,3]],"edges_assignment":["B","B","B","B","V"],"faces_vertices":[[0,1,3],[1,2,3]],"faceOrders":[[1,0,1]]}"#,
        0,
        r#"{"file_spec":1.2,"file_creator":"fold_program","frame_classes":["foldedForm"],"vertices_coords":[[0,0],[1,0],[0,0],[1,1.732050808]],"fx:vertices_coords":[["0,0,1,3","0,0,1,3"],["1,0,1,3","0,0,1,3"],["0,0,1,3","0,0,1,3"],["1,0,1,3","0,1,1,3"]],"edges_vertices":[[0,1],[1,2],[2,3],[3,0],[1,3]],"edges_assignment":["B","B","B","B","V"],"faces_vertices":[[0,1,3],[1,2,3]],"faceOrders":[[1,0,1]]}"#,
    ),
    (
        &["judge", "--number=root3:1"],
        r#"{"vertices_coords":[[0,0],[1,0],[2,0],[1,1.73205080756888]],"edges_vertices":[[0,1],[1,2],[2,3],[3,0],[1,3]],"edges_assignment":["B","B","B","B","V"],"faces_vertices":[[0,1,3],[1,2,3]],"faceOrders":[[1,0,1]]}"#,
        0,
        r#"yes"#,
    ),
    (&["judge", "--orders=1"], TWO_FRAMES, 0, r#"yes"#),
];

/// Words, input, the exit status, and what is said of it.
const REFUSED: &[(&[&str], &str, u8, &str)] = &[
    (
        &["judge"],
        r#"{"vertices_coords":[[0,0],[1,0],[1,1],[0,1]],"edges_vertices":[[0,1],[1,2],[2,3],[3,0],[0,2]],"edges_assignment":["B","B","B","B","V"],"faces_vertices":[[0,1,2],[0,2,3]]}"#,
        4,
        "no order 0 1",
    ),
    (
        &["judge"],
        r#"{"vertices_coords":[[0,0],[1,0],[1,1],[0,1]],"edges_vertices":[[0,1],[1,2],[2,3],[3,0],[0,2]],"edges_assignment":["B","B","B","B","V"],"faces_vertices":[[0,1,2],[0,2,3]],"faceOrders":[[1,0,0]]}"#,
        4,
        "no order 0 1",
    ),
    (
        &["judge"],
        r#"{"vertices_coords":[[0,0],[1,0],[1,1],[0,1]],"edges_vertices":[[0,1],[1,2],[2,3],[3,0],[0,2]],"edges_assignment":["B","B","B","B","V"],"faces_vertices":[[0,1,2],[0,2,3]],"faceOrders":[[1,0,1],[0,1,-1]]}"#,
        4,
        "order clash 0 1",
    ),
    (&["judge", "--frame=1"], TWO_FRAMES, 4, "same vertex 1 3"),
    (&["judge"], TWO_FRAMES, 4, "no order 0 1"),
    (&["judge", "--orders=2"], TWO_FRAMES, 3, "no frame 2"),
    (
        &["fold"],
        r#"{"vertices_coords":[[-10,0],[0,0],[10,0],[20,0],[20,4000000],[13,4000000],[1,4000000],[-10,4000000]],"edges_vertices":[[0,1],[1,2],[2,3],[3,4],[4,5],[5,6],[6,7],[7,0],[1,6],[2,5]],"edges_assignment":["B","B","B","B","B","B","B","B","V","V"],"faces_vertices":[[0,1,6,7],[1,2,5,6],[2,3,4,5]]}"#,
        5,
        "number past face 2",
    ),
    (
        &["fold"],
        r#"{"vertices_coords":[[-10,0],[0,0],[20,0],[20,4000000],[1,4000000],[-10,4000000]],"edges_vertices":[[0,1],[1,2],[2,3],[3,4],[4,5],[5,0],[1,4]],"edges_assignment":["B","B","B","B","B","B","V"],"faces_vertices":[[0,1,4,5],[1,2,3,4]]}"#,
        5,
        "too wide 2 folded",
    ),
    (
        &["fold"],
        r#"{"vertices_coords":[[0,0],[1,0],[1,1],[0,1]],"edges_vertices":[[0,1],[1,2],[2,3],[3,0],[0,2]],"edges_assignment":["B","B","B","B","V"],"faceOrders":[[1,0,1]]}"#,
        4,
        "missing faces_vertices",
    ),
    (
        &["fold"],
        r#"{"vertices_coords":[[0,0],[1,0],[1,1],[0,0]],"edges_vertices":[[0,1],[1,2],[2,3],[3,0],[0,2]],"edges_assignment":["B","B","B","B","V"],"faces_vertices":[[0,1,2],[0,2,3]],"faceOrders":[[1,0,1]]}"#,
        4,
        "same vertex 0 3",
    ),
    (
        &["fold"],
        r#"{"vertices_coords":[[0,0],[1,0],[1,1],[0,1],[5,5]],"edges_vertices":[[0,1],[1,2],[2,3],[3,0],[0,2]],"edges_assignment":["B","B","B","B","V"],"faces_vertices":[[0,1,2],[0,2,3]],"faceOrders":[[1,0,1]]}"#,
        4,
        "loose 4",
    ),
    (
        &["fold"],
        r#"{"vertices_coords":[[0,0],[1,0],[1,1],[0,1]],"edges_vertices":[[0,1],[1,2],[2,3],[3,0],[0,2],[1,3]],"edges_assignment":["B","B","B","B","V","V"],"faces_vertices":[[0,1,2],[0,2,3]],"faceOrders":[[1,0,1]]}"#,
        4,
        "not plane 4 5",
    ),
    (
        &["fold"],
        r#"{"vertices_coords":[[0,0],[1,0],[1,1],[0,1]],"edges_vertices":[[0,1],[1,2],[2,3],[3,0],[0,2]],"edges_assignment":["B","B","B","B","V"],"faces_vertices":[[0,2,1],[0,2,3]],"faceOrders":[[1,0,1]]}"#,
        4,
        "face wrong 0",
    ),
    (
        &["fold"],
        r#"{"vertices_coords":[[0,0],[1,0],[1,1],[0,1]],"edges_vertices":[[0,1],[1,2],[2,3],[3,0],[0,2]],"edges_assignment":["B","B","B","B","V"],"faces_vertices":[[0,1,2]]}"#,
        4,
        "face missing 0 2",
    ),
    (
        &["fold"],
        r#"{"vertices_coords":[[0,0],[1,0],[1,1],[0,1]],"edges_vertices":[[0,1],[1,2],[2,3],[3,0],[0,2]],"edges_assignment":["B","B","B","B","C"],"faces_vertices":[[0,1,2],[0,2,3]],"faceOrders":[[1,0,1]]}"#,
        4,
        "severed 1",
    ),
    (
        &["fold"],
        r#"{"vertices_coords":[[0,0],[1,0],[1,1],[0,1]],"edges_vertices":[[0,1],[1,2],[2,3],[3,0],[0,2]],"edges_assignment":["B","B","B","B","B"],"faces_vertices":[[0,1,2],[0,2,3]],"faceOrders":[[1,0,1]]}"#,
        4,
        "border wrong 4",
    ),
    (
        &["fold"],
        r#"{"vertices_coords":[[0,0],[1,0],[1,1],[0,1]],"edges_vertices":[[0,1],[1,2],[2,3],[3,0],[0,2]],"edges_assignment":["M","B","B","B","V"],"faces_vertices":[[0,1,2],[0,2,3]],"faceOrders":[[1,0,1]]}"#,
        4,
        "border wrong 0",
    ),
    (
        &["fold"],
        r#"{"vertices_coords":[[0,0],[1,0],[1,1,1],[0,1]],"edges_vertices":[[0,1],[1,2],[2,3],[3,0],[0,2]],"edges_assignment":["B","B","B","B","V"],"faces_vertices":[[0,1,2],[0,2,3]],"faceOrders":[[1,0,1]]}"#,
        3,
        "not flat 2",
    ),
    (
        &["fold"],
        r#"{"vertices_coords":[[0,0],[1,0],[1,1],[0,1]],"edges_vertices":[[0,1],[1,2],[2,3],[3,0],[0,9]],"edges_assignment":["B","B","B","B","V"],"faces_vertices":[[0,1,2],[0,2,3]],"faceOrders":[[1,0,1]]}"#,
        3,
        "frame 0 key edges_vertices index 4: id range",
    ),
    (
        &["fold"],
        r#"{"vertices_coords":[[0,0],[1,0],[1,1],[0,1]],"edges_vertices":[[0,1],[1,2],[2,3],[3,0],[0,2]],"edges_assignment":["B","B","B","B","V","V"],"faces_vertices":[[0,1,2],[0,2,3]],"faceOrders":[[1,0,1]]}"#,
        3,
        "frame 0 key edges_assignment index 6: uneven",
    ),
    (
        &["fold"],
        r#"{"vertices_coords":[[0,0],[4,0],[1,1],[0,4]],"edges_vertices":[[0,1],[1,2],[2,3],[3,0]],"edges_assignment":["B","B","B","B"],"faces_vertices":[[0,1,2,3]]}"#,
        4,
        "not convex 0 2",
    ),
    (
        &["fold"],
        r#"{"vertices_coords":[[0,0],[1,0],[1,1],[0,1],[2,1],[2,2],[1,2]],"edges_vertices":[[0,1],[1,2],[2,3],[3,0],[2,4],[4,5],[5,6],[6,2]],"edges_assignment":["B","B","B","B","B","B","B","B"],"faces_vertices":[[0,1,2,3],[2,4,5,6]]}"#,
        4,
        "pinched 2",
    ),
    (
        &["fold"],
        r#"{"vertices_coords":[[0,0],[1,0]],"edges_vertices":[[0,1]],"edges_assignment":["B"],"faces_vertices":[]}"#,
        4,
        "empty sheet",
    ),
    (
        &["fold"],
        r#"{"vertices_coords":[[0,0],[1,0],[1,1],[0,1]],"edges_vertices":[[0,1],[1,2],[2,3],[3,0],[0,2],[1,1]],"edges_assignment":["B","B","B","B","V","V"],"faces_vertices":[[0,1,2],[0,2,3]],"faceOrders":[[1,0,1]]}"#,
        4,
        "not plane 5 5",
    ),
    (
        &["judge", "--number=exact"],
        r#"{"vertices_coords":[[0,0],[1,0],[2,0],[1,1.73205080756888]],"edges_vertices":[[0,1],[1,2],[2,3],[3,0],[1,3]],"edges_assignment":["B","B","B","B","V"],"faces_vertices":[[0,1,3],[1,2,3]],"faceOrders":[[1,0,1]]}"#,
        5,
        "too wide 3 input",
    ),
    (&["judge", "--frame=01"], SQUARE, 6, "words value"),
    (&["judge", "--flat=drop"], SQUARE, 6, "words refused"),
    (
        &["judge", "--orders=1"],
        r#"{"vertices_coords":[[0,0],[1,0],[1,1],[0,1]],"edges_vertices":[[0,1],[1,2],[2,3],[3,0],[0,2]],"edges_assignment":["B","B","B","B","V"],"faces_vertices":[[0,1,2],[0,2,3]],"file_frames":[{"frame_classes":["foldedForm"],"frame_parent":0,"frame_inherit":true,"vertices_coords":[[0,0],[1,0],[1,1],[1,0]],"faces_vertices":[[0,1,2],[2,3,0]],"faceOrders":[[1,0,1]]}]}"#,
        3,
        "orders differ",
    ),
];

#[test]
fn answers(rt: HostRuntime) -> Result<(), Fail> {
    let alloc = rt.alloc();
    for (words, input, code, line) in ANSWERED {
        let told = answer(alloc, words, input, 4096)?;
        let due = format!(in alloc; "{line}\n")?;
        assert_eq!(rt; told.sink.bytes(), due.as_bytes(), "{input}");
        assert_eq!(rt; told.notes.bytes().len(), 0, "{input}");
        assert_eq!(rt; told.status.code(), *code, "{input}");
    }
    Ok(())
}

#[test]
fn refuses(rt: HostRuntime) -> Result<(), Fail> {
    let alloc = rt.alloc();
    for (words, input, code, cause) in REFUSED {
        let told = answer(alloc, words, input, 4096)?;
        let due = format!(in alloc; "fold_program: {cause}\n")?;
        assert_eq!(rt; told.notes.bytes(), due.as_bytes(), "{input}");
        assert_eq!(rt; told.sink.bytes().len(), 0, "{cause}");
        assert_eq!(rt; told.status.code(), *code, "{cause}");
    }
    Ok(())
}

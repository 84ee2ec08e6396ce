// Lines and drawings by example.
ghost use Rattle.std.specs.Prelude.{◌≤◌, length, IfOk};
ghost use Rattle.number_rules.specs.ExactText.{AreShort};
ghost use Rattle.number_rules.specs.Kept.{KeepsItsRow};
ghost use Rattle.root_two.specs.Roots.{root_parts};
ghost use Rattle.crease_input.specs.Lines.{IsReadable};

use cp_lines::CpLine;
use crease_input::{
    Axis, InputFault, all_lines_ends, drawing_file, frame_root, lines_ends, pattern_text,
};
use exact_number::Exact;
use fold_base::{Letter, List};
use fold_frames::effective;
use fold_keys::{FaceOrder, to_json};
use json_tree::{NumberText, print};
use number_rules::{
    Decimal, NumberRule, Unread, exact_rule, grid_rule, read_exact, read_grid, read_root_two,
    root_two_rule,
};
use rational::Rational;
use root_two::RootTwo;
use scaled_plane::{Edge, Ends, Face, Pair};
use std::alloc::Global;
use std::process::Abort;
use std::test::Fail;

fn number(rt: &impl Abort, alloc: Global, text: &str) -> Result<NumberText, Fail>
    ensures { IfOk result (λ number. length number ≤ 16777216) }
{
    let number = NumberText::read(alloc, text)?;
    let length = number.bytes().len();
    assert!(rt; length <= 16_777_216);
    Ok(number)
}

fn line(rt: &impl Abort, alloc: Global, kind: u8, ends: [&str; 4]) -> Result<CpLine, Fail>
    ensures { IfOk result IsReadable }
{
    assert!(rt; kind <= 4);
    let [x1, y1, x2, y2] = ends;
    Ok(CpLine {
        kind,
        x1: number(rt, alloc, x1)?,
        y1: number(rt, alloc, y1)?,
        x2: number(rt, alloc, x2)?,
        y2: number(rt, alloc, y2)?,
    })
}

/// How a line from (x, 0) to the origin is refused.
fn fault_of<N: Exact, F: Fn(Decimal) -> Result<N, Unread>>(
    rt: &impl Abort,
    alloc: Global,
    rule: &NumberRule<N, F>,
    x: &str,
) -> Result<Option<InputFault>, Fail>
    requires { KeepsItsRow N.ROOT N.parts rule.now.row (F.pre rule.now.call) (F.post rule.now.call) }
{
    let lines = [line(rt, alloc, 2, [x, "0", "0", "0"])?];
    Ok(lines_ends(alloc, &lines, rule).err())
}

#[test]
fn by_a_grid(rt: HostRuntime) -> Result<(), Fail> {
    let alloc = rt.alloc();
    let rule = grid_rule(1000, |value: Decimal| read_grid::<Rational>(1000, value));
    let lines = [line(
        &rt,
        alloc,
        2,
        ["1.4210854715202004E-14", "0", "200.0", "0.3335"],
    )?];
    let ends = lines_ends(alloc, &lines, &rule)?;
    let coords = ends.coords.as_slice().iter();
    assert_eq!(rt; ends.coords.len(), 2);
    for (point, (x, y)) in coords.zip([((0, 0, 1), (0, 0, 1)), ((200, 0, 1), (167, 0, 500))]) {
        assert_eq!(rt; point.x.parts(), x);
        assert_eq!(rt; point.y.parts(), y);
    }
    Ok(())
}

#[test]
fn refusals(rt: HostRuntime) -> Result<(), Fail> {
    let alloc = rt.alloc();
    let rule = exact_rule(|value: Decimal| read_exact::<Rational>(value));
    for (x, cause) in [
        ("1.4210854715202004E-14", Unread::Fine),
        ("1e30", Unread::Far),
    ] {
        let fault = InputFault::Unread {
            vertex: 0,
            axis: Axis::X,
            cause,
        };
        assert_eq!(rt; fault_of(&rt, alloc, &rule, x)?, Some(fault));
    }
    let rule = root_two_rule(1, |value: Decimal| read_root_two(1, value));
    let fault = InputFault::Unread {
        vertex: 0,
        axis: Axis::X,
        cause: Unread::NoRoot,
    };
    assert_eq!(rt; fault_of(&rt, alloc, &rule, "0.5")?, Some(fault));
    Ok(())
}

#[test]
fn ends_are_told_apart_by_value(rt: HostRuntime) -> Result<(), Fail> {
    let alloc = rt.alloc();
    let rule = exact_rule(|value: Decimal| read_exact::<Rational>(value));
    let lines = [
        line(&rt, alloc, 1, ["0", "0", "1", "0"])?,
        line(&rt, alloc, 3, ["1.0", "-0", "0e9", "0"])?,
        line(&rt, alloc, 0, ["1", "0", "1", "0"])?,
    ];
    let ends = all_lines_ends(alloc, &lines, &rule)?;
    assert_eq!(rt; ends.coords.len(), 2);
    assert_eq!(rt; ends.edges.len(), 3);
    let edges = ends.edges.as_slice().iter();
    for (edge, (from, to, letter)) in edges.zip([
        (0, 1, Letter::Border),
        (1, 0, Letter::Valley),
        (1, 1, Letter::Flat),
    ]) {
        assert_eq!(rt; (edge.from, edge.to), (from, to));
        assert_eq!(rt; edge.letter, letter);
    }
    let lines = [
        line(&rt, alloc, 1, ["0", "0", "1", "0"])?,
        line(&rt, alloc, 4, ["0", "0", "0", "1e30"])?,
    ];
    let fault = InputFault::Unread {
        vertex: 3,
        axis: Axis::Y,
        cause: Unread::Far,
    };
    assert_eq!(rt; all_lines_ends(alloc, &lines, &rule).err(), Some(fault));
    Ok(())
}

/// The number a+b√2.
fn short(rt: &impl Abort, a: i128, b: i128) -> Result<RootTwo, Fail>
    ensures { IfOk result (λ x. AreShort (root_parts x)) }
{
    let number = RootTwo::from_parts(a, b, 1).ok_or("number")?;
    let (a, b, q) = number.parts();
    assert!(rt; a.unsigned_abs() <= 1 << 92);
    assert!(rt; b.unsigned_abs() <= 1 << 92);
    assert!(rt; q.unsigned_abs() <= 1 << 92);
    Ok(number)
}

#[test]
fn a_drawing_as_a_file(rt: HostRuntime) -> Result<(), Fail> {
    let alloc = rt.alloc();
    let zero = short(&rt, 0, 0)?;
    let points = [
        Pair {
            x: short(&rt, -1, 1)?,
            y: zero,
        },
        Pair {
            x: short(&rt, 1, 0)?,
            y: zero,
        },
    ];
    let edges = [Edge {
        from: 0,
        to: 1,
        letter: Letter::Mountain,
    }];
    let ends = Ends {
        coords: List::from_slice(alloc, &points)?,
        edges: List::from_slice(alloc, &edges)?,
    };
    let file = drawing_file(alloc, "creasePattern", &ends, None, None)?;
    let text = print(alloc, &to_json(alloc, &file)?)?;
    assert_eq!(rt;
        text.as_str(),
        concat!(
            r#"{"file_spec":1.2,"file_creator":"fold_program","frame_classes":["creasePattern"],"#,
            r#""vertices_coords":[[0.414213562,0],[1,0]],"#,
            r#""fx:vertices_coords":[["-1,1,1","0,0,1"],["1,0,1","0,0,1"]],"#,
            r#""edges_vertices":[[0,1]],"edges_assignment":["M"]}"#
        )
    );
    let pattern = pattern_text(alloc, &ends)?;
    assert_eq!(rt; pattern.as_str().strip_suffix('\n'), Some(text.as_str()));
    let frame = effective(alloc, &file, 0)?;
    assert_eq!(rt; frame_root(&frame), Some(2));
    Ok(())
}

#[test]
fn faces_and_their_orders(rt: HostRuntime) -> Result<(), Fail> {
    let alloc = rt.alloc();
    let zero = short(&rt, 0, 0)?;
    let ends = Ends {
        coords: List::from_slice(alloc, &[Pair { x: zero, y: zero }])?,
        edges: List::new(alloc),
    };
    let mut faces = List::new(alloc);
    faces.push(Face {
        corners: List::from_slice(alloc, &[0, 0])?,
    })?;
    let order = FaceOrder {
        first: 0,
        second: 0,
        side: -1,
    };
    let orders = List::from_slice(alloc, &[order])?;
    let file = drawing_file(alloc, "foldedForm", &ends, Some(&faces), Some(&orders))?;
    let text = print(alloc, &to_json(alloc, &file)?)?;
    assert_eq!(rt;
        text.as_str(),
        concat!(
            r#"{"file_spec":1.2,"file_creator":"fold_program","frame_classes":["foldedForm"],"#,
            r#""vertices_coords":[[0,0]],"edges_vertices":[],"edges_assignment":[],"#,
            r#""faces_vertices":[[0,0]],"faceOrders":[[0,0,-1]]}"#
        )
    );
    assert_eq!(rt; frame_root(&effective(alloc, &file, 0)?), None);
    Ok(())
}

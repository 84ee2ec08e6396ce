// JSON as a tree, and the texts of numbers.
use fold_base::{List, Text};
use json_tree::{
    Json, Member, NumberReadFault, NumberScanner, NumberText, Step, at, copy, is_proper, print,
};
use std::alloc::{AllocError, Global};
use std::test::Fail;

#[test]
fn reads_number_texts(rt: HostRuntime) -> Result<(), Fail> {
    let alloc = rt.alloc();
    for text in [
        "0",
        "-120",
        "9007199254740993",
        "1.5",
        "1e3",
        "1.50e+02",
        "-0.0E-7",
        // 22 bytes, and one more.
        "-1234567890.1234567890",
        "-1234567890.12345678901",
    ] {
        let number = NumberText::read(alloc, text)?;
        assert_eq!(rt; number.copy(alloc)?.as_str(), text);
    }
    for text in [
        "", "-", "01", "+1", " 1", "--1", "1.", ".5", "1.e3", "1.5.2", "1e", "1e+", "-e1",
    ] {
        assert_eq!(rt;
            NumberText::read(alloc, text).err(),
            Some(NumberReadFault::NoNumber),
            "{text}"
        );
    }
    Ok(())
}

#[test]
fn scans_two_numbers(rt: HostRuntime) -> Result<(), Fail> {
    let alloc = rt.alloc();
    let mut scanner = NumberScanner::new(alloc);
    for text in ["-10.5", "4E2"] {
        for byte in text.bytes() {
            assert!(rt; scanner.take(byte)?, "{byte} of {text}");
        }
        assert!(rt; !scanner.take(b' ')?);
        assert!(rt; scanner.is_whole());
        assert_eq!(rt; scanner.finish(alloc)?.as_str(), text);
    }
    Ok(())
}

fn number(alloc: Global, text: &str) -> Result<Json, Fail> {
    Ok(Json::Number(NumberText::read(alloc, text)?))
}

fn member(alloc: Global, key: &str, value: Json) -> Result<Member, Fail> {
    let key = Text::from_text(alloc, key)?;
    Ok(Member { key, value })
}

// {"file_spec":1.1,"vertices_coords":[[1.50e+02,-0]]}
fn square(alloc: Global) -> Result<Json, Fail> {
    let mut point = List::new(alloc);
    point
        .push(number(alloc, "1.50e+02")?)
        .map_err(AllocError::from)?;
    point.push(number(alloc, "-0")?).map_err(AllocError::from)?;
    let mut points = List::new(alloc);
    points.push(Json::List(point)).map_err(AllocError::from)?;
    let spec = member(alloc, "file_spec", number(alloc, "1.1")?)?;
    let coords = member(alloc, "vertices_coords", Json::List(points))?;
    let mut members = List::new(alloc);
    members.push(spec).map_err(AllocError::from)?;
    members.push(coords).map_err(AllocError::from)?;
    Ok(Json::Object(members))
}

#[test]
fn prints_a_tree_and_its_copy(rt: HostRuntime) -> Result<(), Fail> {
    let alloc = rt.alloc();
    let tree = square(alloc)?;
    let text = "{\"file_spec\":1.1,\"vertices_coords\":[[1.50e+02,-0]]}";
    assert_eq!(rt; print(alloc, &tree)?.as_str(), text);
    assert_eq!(rt; print(alloc, &copy(alloc, &tree)?)?.as_str(), text);
    assert!(rt; is_proper(&tree));
    let points = at(&tree, Step::Key(b"vertices_coords")).ok_or("vertices_coords")?;
    let point = at(points, Step::Place(0)).ok_or("point")?;
    assert_eq!(rt; print(alloc, point)?.as_str(), "[1.50e+02,-0]");
    assert!(rt; at(points, Step::Place(1)).is_none());
    assert!(rt; at(&tree, Step::Key(b"file")).is_none());
    Ok(())
}

#[test]
fn prints_each_escape(rt: HostRuntime) -> Result<(), Fail> {
    let alloc = rt.alloc();
    let word = "\"\\/\u{8}\u{c}\n\r\t\u{0}\u{1f}\u{7f}é😀";
    let tree = Json::Word(Text::from_text(alloc, word)?);
    let text = "\"\\\"\\\\/\\b\\f\\n\\r\\t\\u0000\\u001f\u{7f}é😀\"";
    assert_eq!(rt; print(alloc, &tree)?.as_str(), text);
    Ok(())
}

// 40 members with keys of their own, and one with this key
fn many_members(alloc: Global, last: &str) -> Result<Json, Fail> {
    let mut members = List::new(alloc);
    for place in 0..40u32 {
        put_member(
            &mut members,
            Text::from_string(format!(in alloc; "key{place}")?),
        )?;
    }
    put_member(&mut members, Text::from_text(alloc, last)?)?;
    Ok(Json::Object(members))
}

fn put_member(members: &mut List<Member>, key: Text) -> Result<(), AllocError> {
    let value = Json::Null;
    members.push(Member { key, value })?;
    Ok(())
}

#[test]
fn finds_a_key_twice_among_many(rt: HostRuntime) -> Result<(), Fail> {
    let alloc = rt.alloc();
    assert!(rt; is_proper(&many_members(alloc, "key")?));
    assert!(rt; !is_proper(&many_members(alloc, "key7")?));
    Ok(())
}

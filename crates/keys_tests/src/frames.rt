ghost use Rattle.std.specs.Prelude.{IfOk};
ghost use Rattle.fold_keys.specs.Writable.{IsWritable};

use crate::files::read;
use fold_base::MOST_BYTES;
use fold_frames::{Effective, FrameFault, effective};
use fold_keys::{FoldFault, FoldFile, Value, from_json};
use std::alloc::{AllocError, Global};
use std::test::Fail;

const FRAMES: &str =
    "{\"vertices_coords\":[[0,0]],\"frame_title\":\"a\",\"file_title\":\"c\",\"file_frames\":[\
    {\"frame_parent\":0,\"frame_inherit\":true,\"frame_title\":\"b\"},\
    {\"x:y\":7,\"frame_parent\":1,\"frame_inherit\":true}]}";

/// The file that the text spells.
pub fn file_of(alloc: Global, text: &str) -> Result<FoldFile, Fail>
    ensures { IfOk result IsWritable }
{
    if text.len() > MOST_BYTES as usize {
        return Err("long".into());
    }
    match from_json(alloc, read(alloc, text)?) {
        Ok(file) => Ok(file),
        Err(_) => Err("misfit".into()),
    }
}

/// The keys of the frame, the titles with their words.
fn keys_of(alloc: Global, frame: &Effective) -> Result<String, AllocError> {
    let mut keys = String::new(alloc);
    for place in 0..9 {
        match frame.entry(place) {
            Some((key, Value::Word(word))) => keys.push_str(format!(in alloc;
                "{key}={word};"
            )?.as_str())?,
            Some((key, _)) => keys.push_str(format!(in alloc; "{key};")?.as_str())?,
            None => {}
        }
    }
    Ok(keys)
}

#[test]
fn inherits(rt: HostRuntime) -> Result<(), Fail> {
    let alloc = rt.alloc();
    let frames = FRAMES;
    for (text, number, answer) in [
        (frames, 0, "vertices_coords;frame_title=a;"),
        (frames, 1, "vertices_coords;frame_title=b;"),
        (frames, 2, "vertices_coords;frame_title=b;x:y;"),
        (frames, 3, "no frame 3"),
        // Inheritance needs both of its keys.
        ("{\"frame_inherit\":true}", 0, ""),
        ("{\"frame_inherit\":false,\"frame_parent\":7}", 0, ""),
        (
            "{\"frame_inherit\":true,\"frame_parent\":0}",
            0,
            "parent loop 0",
        ),
        (
            "{\"frame_inherit\":true,\"frame_parent\":1,\"file_frames\":[\
             {\"frame_inherit\":true,\"frame_parent\":2},{\"frame_inherit\":true,\"frame_parent\":1}]}",
            0,
            "parent loop 1",
        ),
        (
            "{\"frame_inherit\":true,\"frame_parent\":1,\"file_frames\":[\
             {\"frame_inherit\":true,\"frame_parent\":2}]}",
            0,
            "parent range 1",
        ),
    ] {
        let file = file_of(alloc, text)?;
        let shown = match effective(alloc, &file, number) {
            Ok(frame) => keys_of(alloc, &frame)?,
            Err(FrameFault::Memory(error)) => return Err(error.into()),
            Err(fault) => format!(in alloc; "{fault}")?,
        };
        assert_eq!(rt; shown.as_str(), answer, "{text}");
    }
    Ok(())
}

#[test]
fn finds_values(rt: HostRuntime) -> Result<(), Fail> {
    let alloc = rt.alloc();
    let file = file_of(alloc, FRAMES)?;
    let frame = match effective(alloc, &file, 2) {
        Ok(frame) => frame,
        Err(_) => return Err("none".into()),
    };
    assert_eq!(rt; frame.frame(), 2);
    assert_eq!(rt; frame.entries().len(), 3);
    assert!(rt;
        matches!(frame.get(b"frame_title"), Some(Value::Word(word)) if word.as_str() == "b")
    );
    assert!(rt; frame.get(b"file_title").is_none());
    Ok(())
}

#[test]
fn counts(rt: HostRuntime) -> Result<(), Fail> {
    let alloc = rt.alloc();
    for (text, answer) in [
        ("{\"edges_assignment\":[\"B\",\"M\"]}", "None Some(2) None"),
        (
            "{\"vertices_coords\":[[0,0]],\"edges_vertices\":[[0,0]],\"faces_vertices\":[]}",
            "Some(1) Some(1) Some(0)",
        ),
        // Nothing is known of the faces, so their ids aren't checked.
        (
            "{\"edges_faces\":[[7,null]],\"faceOrders\":[[8,9,1]]}",
            "None Some(1) None",
        ),
        // A list of another length than the first of its prefix in the table, and not in the file.
        (
            "{\"edges_assignment\":[\"B\",\"M\"],\"edges_vertices\":[[0,1]]}",
            "frame 0 key edges_assignment index 2: uneven",
        ),
        (
            "{\"vertices_faces\":[[0]],\"fx:vertices_coords\":[],\"faces_vertices\":[]}",
            "frame 0 key vertices_faces index 1: uneven",
        ),
        (
            "{\"vertices_coords\":[[0,0],[1,1]],\"edges_vertices\":[[0,1],[0,2]]}",
            "frame 0 key edges_vertices index 1: id range",
        ),
        (
            "{\"faces_vertices\":[[0]],\"faceOrders\":[[0,0,1],[0,1,0]]}",
            "frame 0 key faceOrders index 1: id range",
        ),
    ] {
        let file = file_of(alloc, text)?;
        let frame = match effective(alloc, &file, 0) {
            Ok(frame) => frame,
            Err(_) => return Err("none".into()),
        };
        let shown = match frame.counts(alloc) {
            Ok(counts) => format!(in alloc;
                "{:?} {:?} {:?}",
                counts.vertices, counts.edges, counts.faces
            )?,
            Err(FoldFault::Shape(fault)) => format!(in alloc; "{fault}")?,
            Err(FoldFault::Memory(error)) => return Err(error.into()),
        };
        assert_eq!(rt; shown.as_str(), answer, "{text}");
    }
    Ok(())
}

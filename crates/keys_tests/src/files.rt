ghost use Rattle.std.specs.Prelude.{◌≤◌, length, IfOk};
ghost use Rattle.json_tree.specs.Tree.{IsProper};
ghost use Rattle.fold_keys.specs.Short.{HasShortLists, HasShortSpec};

use fold_base::{MOST_BYTES, Text};
use fold_keys::{FoldFault, FoldFile, copy_value, from_json, read_trees_are_readable, to_json};
use json_read::{JsonReadFault, JsonReader};
use json_tree::{Json, print};
use std::alloc::Global;
use std::test::Fail;

/// The tree that the text spells.
pub fn read(alloc: Global, text: &str) -> Result<Json, JsonReadFault>
    requires { length text.now ≤ MOST_BYTES }
    ensures proper { IfOk result IsProper }
    ensures lists { IfOk result HasShortLists }
    ensures version { IfOk result HasShortSpec }
{
    read_trees_are_readable();
    let mut reader = JsonReader::new(alloc);
    reader.feed(text.as_bytes())?;
    reader.finish()
}

/// The file that the text spells as it is written again, or its first misfit as it is shown.
fn read_back(alloc: Global, text: &str) -> Result<Text, Fail> {
    if text.len() > MOST_BYTES as usize {
        return Err("long".into());
    }
    let tree = read(alloc, text)?;
    match from_json(alloc, tree) {
        Ok(file) => Ok(print(alloc, &to_json(alloc, &file)?)?),
        Err(FoldFault::Shape(fault)) => Ok(Text::from_string(format!(in alloc; "{fault}")?)),
        Err(FoldFault::Memory(error)) => Err(error.into()),
    }
}

#[test]
fn names_first_misfits(rt: HostRuntime) -> Result<(), Fail> {
    let alloc = rt.alloc();
    for (text, answer) in [
        ("[1]", "frame 0 key  index 0: not kind"),
        ("{\"file_spec\":1.3}", "frame 0 key file_spec index 0: spec"),
        (
            "{\"file_spec\":1.2000000000000000005}",
            "frame 0 key file_spec index 0: spec",
        ),
        (
            "{\"file_spec\":1e30}",
            "frame 0 key file_spec index 0: spec",
        ),
        (
            "{\"frame_classes\":[\"a\",1]}",
            "frame 0 key frame_classes index 1: not kind",
        ),
        (
            "{\"frame_inherit\":1}",
            "frame 0 key frame_inherit index 0: not kind",
        ),
        (
            "{\"frame_parent\":4294967296}",
            "frame 0 key frame_parent index 0: not kind",
        ),
        (
            "{\"frame_parent\":1.0}",
            "frame 0 key frame_parent index 0: not kind",
        ),
        (
            "{\"edges_assignment\":[\"B\",\"m\"]}",
            "frame 0 key edges_assignment index 1: letter",
        ),
        (
            "{\"edges_foldAngle\":[1.5,null,\"a\"]}",
            "frame 0 key edges_foldAngle index 2: not kind",
        ),
        (
            "{\"vertices_coords\":[[0]]}",
            "frame 0 key vertices_coords index 0: length",
        ),
        // The length of an inner list comes before its members.
        (
            "{\"vertices_coords\":[[0,0],[0,0,0,\"a\"]]}",
            "frame 0 key vertices_coords index 1: length",
        ),
        (
            "{\"fx:vertices_coords\":[[\"a\",\"b\"],[\"a\",1]]}",
            "frame 0 key fx:vertices_coords index 1: not kind",
        ),
        (
            "{\"edges_vertices\":[[0,1.0]]}",
            "frame 0 key edges_vertices index 0: not kind",
        ),
        // Null stands in an inner list, not in place of one.
        (
            "{\"vertices_faces\":[[null],null]}",
            "frame 0 key vertices_faces index 1: not kind",
        ),
        (
            "{\"vertices_edges\":[[null]]}",
            "frame 0 key vertices_edges index 0: not kind",
        ),
        (
            "{\"faceOrders\":[[0,1,2]]}",
            "frame 0 key faceOrders index 0: side",
        ),
        (
            "{\"faceOrders\":[[0,1,-1],[0,1,-0]]}",
            "frame 0 key faceOrders index 1: side",
        ),
        (
            "{\"faceOrders\":[[0,1.0,5]]}",
            "frame 0 key faceOrders index 0: not kind",
        ),
        (
            "{\"faceOrders\":[[0,1,null]]}",
            "frame 0 key faceOrders index 0: not kind",
        ),
        // Frame by frame, the first one to its last key.
        (
            "{\"file_frames\":[{\"frame_title\":1}],\"frame_unit\":2}",
            "frame 0 key frame_unit index 0: not kind",
        ),
        (
            "{\"file_frames\":[{\"frame_title\":\"a\"},{\"frame_title\":1},3]}",
            "frame 2 key frame_title index 0: not kind",
        ),
        ("{\"file_frames\":[{},3]}", "frame 2 key  index 0: not kind"),
        (
            "{\"file_frames\":{}}",
            "frame 0 key file_frames index 0: not kind",
        ),
    ] {
        let shown = read_back(alloc, text)?;
        assert_eq!(rt; shown.as_str(), answer, "{text}");
    }
    Ok(())
}

#[test]
fn writes_files_again(rt: HostRuntime) -> Result<(), Fail> {
    let alloc = rt.alloc();
    for text in [
        "{}",
        "{\"file_spec\":1.2000000000000000004}",
        "{\"file_spec\":-1e30,\"a\":[{\"b\":null}]}",
        "{\"file_spec\":1.2,\"file_creator\":\"a\",\"file_frames\":[{\"frame_parent\":0,\"frame_inherit\":true,\"file_spec\":9},\
         {\"file_frames\":3,\"frame_parent\":4294967295}],\"frame_classes\":[\"b\",\"\"],\"edges_assignment\":[\"B\",\"M\",\
         \"V\",\"F\",\"U\",\"C\",\"J\"]}",
        "{\"vertices_coords\":[[1.50e+02,-0],[0,0,1]],\"fx:vertices_coords\":[[\"1/2\",\"√2\"]],\"edges_vertices\":[[0,10]],\
         \"vertices_vertices\":[[],[1,2]],\"vertices_faces\":[[0,null]],\"edges_length\":[null,0.5],\
         \"faceOrders\":[[0,1,1],[1,2,-1],[2,3,0]]}",
    ] {
        assert_eq!(rt; read_back(alloc, text)?.as_str(), text);
    }
    Ok(())
}

#[test]
fn copies_values(rt: HostRuntime) -> Result<(), Fail> {
    let alloc = rt.alloc();
    let text =
        "{\"file_spec\":1.2,\"file_title\":\"a\",\"file_frames\":[],\"frame_parent\":0,\"frame_inherit\":false,\
                \"frame_classes\":[\"b\"],\"vertices_coords\":[[1.50e+02,-0]],\"fx:vertices_coords\":[[\"1/2\",\"√2\"]],\
                \"vertices_faces\":[[0,null]],\"edges_vertices\":[[0,10]],\"edges_assignment\":[\"B\",\"J\"],\
                \"edges_length\":[null,0.5],\"faceOrders\":[[0,1,-1]],\"a\":{\"b\":[null]}}";
    let file = match from_json(alloc, read(alloc, text)?) {
        Ok(file) => file,
        Err(_) => return Err("misfit".into()),
    };
    for frame in file.frames.as_slice() {
        assert_eq!(rt; frame.entries.len(), 14);
        for entry in frame.entries.as_slice() {
            let copied = copy_value(alloc, &entry.value)?;
            let same = format!(in alloc; "{:?}", entry.value)?;
            assert_eq!(rt; format!(in alloc; "{copied:?}")?.as_str(), same.as_str());
        }
    }
    Ok(())
}

ghost use Rattle.std.specs.Prelude.{◌≡◌, ◌<◌, ◌^◌, ◌⊎◌, Ok, length};
ghost use Rattle.std.specs.List.{AllByRecursion};
ghost use Rattle.json_tree.specs.Tree.{keys, AreDistinct, IsProper};
ghost use Rattle.fold_keys.specs.Shape.{kind_at};
ghost use Rattle.fold_keys.specs.Short.{HasShortLists, HasShortSpec};
ghost use Rattle.fold_keys.specs.Frames.{AnswersEntry, AnswersEntries, AnswersFrame, AnswersOthers, AnswersFile, IsReadable, IsReadableMember, IsNoObject, LacksMemory};
ghost use Rattle.fold_keys.specs.Trees.{tree_of_file};
ghost use Rattle.fold_keys.specs.Writable.{IsWritable};
ghost use Rattle.fold_keys.specs.declared.value.FoldFile.{FoldFile as File};

use crate::element::ListFault;
use crate::fault::{FoldFault, ShapeFault, ShapeKind};
use crate::kind::{Kind, kind_of_file_key, kind_of_frame_key};
use crate::reading::{Found, read_value};
use crate::value::{Entry, FoldFile, Frame, Value};
use fold_base::{List, Text};
use json_tree::{Json, Member};
use std::alloc::{AllocError, Global};

/// The entries of a frame, and the trees of the other frames where it has a key for them.
type Entries = (List<Entry>, Option<List<Json>>);

fn kind_at(frame: u32, key: &[u8]) -> Option<Kind>
    ensures { result ≡ kind_at frame key.now }
{
    if frame == 0 {
        kind_of_file_key(key)
    } else {
        kind_of_frame_key(key)
    }
}

/// The entry that the member is, and the trees of the other frames where it stands for them.
fn read_entry(
    alloc: Global,
    frame: u32,
    member: Member,
) -> Result<(Entry, Option<List<Json>>), FoldFault>
    requires { IsReadableMember frame member }
    ensures { AnswersEntry frame member result }
{
    let Member { key, value } = member;
    match read_value(alloc, kind_at(frame, key.bytes()), value) {
        Ok(Found::Value(value)) => Ok((Entry { key, value }, None)),
        Ok(Found::Frames(items)) => Ok((
            Entry {
                key,
                value: Value::Frames,
            },
            Some(items),
        )),
        Err(ListFault::Shape(index, cause)) => Err(FoldFault::Shape(ShapeFault {
            frame,
            key,
            index,
            cause,
        })),
        Err(ListFault::Memory(error)) => Err(FoldFault::Memory(error)),
    }
}

/// The entries of a frame, or its first misfit.
fn read_entries(alloc: Global, frame: u32, members: List<Member>) -> Result<Entries, FoldFault>
    requires distinct { AreDistinct (keys members) }
    requires readable { AllByRecursion (IsReadableMember frame) members }
    ensures { AnswersEntries frame members result }
{
    let mut entries = List::with_room(alloc, members.len())?;
    let mut others = None;
    for member in members.into_vec() {
        let (entry, items) = read_entry(alloc, frame, member)?;
        entries.push(entry).map_err(AllocError::from)?;
        others = others.or(items);
    }
    Ok((entries, others))
}

/// The frame that the tree is, and the trees of the other frames, or its first misfit.
fn read_frame(
    alloc: Global,
    number: u32,
    tree: Json,
) -> Result<(Frame, Option<List<Json>>), FoldFault>
    requires { IsReadable number tree }
    ensures { AnswersFrame number tree result }
{
    match tree {
        Json::Object(members) => {
            let (entries, others) = read_entries(alloc, number, members)?;
            Ok((Frame { entries }, others))
        }
        _ => Err(no_object(alloc, number)),
    }
}

/// That a frame is no object, or that memory is wanting for the fault's key, which is empty.
fn no_object(alloc: Global, frame: u32) -> FoldFault
    ensures { IsNoObject frame result }
{
    match Text::from_text(alloc, "") {
        Ok(key) => FoldFault::Shape(ShapeFault {
            frame,
            key,
            index: 0,
            cause: ShapeKind::NotKind,
        }),
        Err(error) => FoldFault::Memory(error),
    }
}

/// The first frame and the other ones, or the first misfit of these.
fn read_others(alloc: Global, first: Frame, trees: List<Json>) -> Result<List<Frame>, FoldFault>
    requires few { length trees < 2 ^ 32 }
    requires readable { AllByRecursion (IsReadable 1) trees }
    ensures { AnswersOthers first trees result }
{
    let mut frames = List::with_room(alloc, 1)?;
    frames.push(first).map_err(AllocError::from)?;
    for tree in trees.into_vec() {
        let (frame, _) = read_frame(alloc, frames.len() as u32, tree)?;
        frames.push(frame).map_err(AllocError::from)?;
    }
    Ok(frames)
}

/// The file that the tree is, or its first misfit.
fn read_file(alloc: Global, tree: Json) -> Result<FoldFile, FoldFault>
    requires proper { IsProper tree }
    requires lists { HasShortLists tree }
    requires version { HasShortSpec tree }
    ensures { AnswersFile tree result }
{
    let (first, others) = read_frame(alloc, 0, tree)?;
    let frames = match others {
        Some(trees) => read_others(alloc, first, trees)?,
        None => read_others(alloc, first, List::new(alloc))?,
    };
    Ok(FoldFile { frames })
}

/// The file that the tree is, or its first misfit: along the frames, and in each along its keys.
///
/// The first frame is the tree itself, without the other frames, and those are the elements of its
/// list `file_frames`. The tree is taken apart, and its texts are moved.
pub fn from_json(alloc: Global, tree: Json) -> Result<FoldFile, FoldFault>
    requires proper { IsProper tree }
    requires lists { HasShortLists tree }
    requires version { HasShortSpec tree }
    ensures answer { AnswersFile tree result }

    // Where a writable file has the tree, that file is read.
    ensures written { (file : File) → IsWritable file → tree_of_file file ≡ tree → (result ≡ Ok file) ⊎ LacksMemory result }
{
    read_file(alloc, tree)
}

// What a frame inherits.
ghost use Rattle.std.specs.Prelude.{◌≡◌, ◌<◌, ◌∷◌, [], length, All, OnOk, IfOk, map};
ghost use Rattle.std.specs.Str.{bytes_eq};
ghost use Rattle.indexmap.specs.IndexMap.{insert_all};
ghost use Rattle.fold_keys.specs.Writable.{IsWritable};
ghost use Rattle.fold_frames.specs.Inherits.{is_left_out, pairs, given, inherited};
ghost use Rattle.fold_frames.specs.Answers.{AnswersEffective};

use crate::fault::FrameFault;
use crate::frame::Effective;
use crate::parents::way;
use fold_base::{List, Text};
use fold_keys::{Entry, FoldFile, Frame, Value, copy_value, writable_entries};
use indexmap::IndexMap;
use std::alloc::{AllocError, Global};

/// The frame of this number with what it inherits.
pub fn effective(alloc: Global, file: &FoldFile, frame: u32) -> Result<Effective, FrameFault>
    requires { IsWritable file.now }
    ensures { AnswersEffective file.now.frames frame result }
{
    writable_entries();
    let frames = file.frames.as_slice();
    let way = way(alloc, frames, frame)?;
    let table = merged(alloc, frames, way.as_slice())?;
    let entries = copied(alloc, &table)?;
    Ok(Effective::new(frame, entries))
}

/// The entries of the table, in texts and values of their own.
fn copied(alloc: Global, table: &IndexMap<&Text, &Value>) -> Result<List<Entry>, AllocError>
    ensures { IfOk result (λ entries. pairs entries ≡ map (λ e. (e.0.now, e.1.now)) table.now.entries) }
{
    let mut entries = List::with_room(alloc, table.len())?;
    for (key, value) in table.iter() {
        entries
            .push(Entry {
                key: key.copy(alloc)?,
                value: copy_value(alloc, value)?,
            })
            .map_err(AllocError::from)?;
    }
    Ok(entries)
}

/// Whether no effective frame has the key.
fn is_left_out(key: &[u8]) -> bool
    ensures { result ≡ is_left_out key.now }
{
    key.starts_with(b"file_".as_slice())
        || key == b"frame_parent".as_slice()
        || key == b"frame_inherit".as_slice()
}

/// What the first of these frames has, where each inherits from the next: the last one's entries, and those of each before
/// it put to them in turn.
fn merged<'a>(
    alloc: Global,
    frames: &'a [Frame],
    way: &[u32],
) -> Result<IndexMap<&'a Text, &'a Value>, AllocError>
    requires { All (λ f. f < length frames.now) way.now }
    ensures { IfOk result (λ table. map (λ e. (e.0.now, e.1.now)) table.entries ≡ inherited frames.now way.now) }
{
    let mut table = IndexMap::new(alloc);
    let mut left = way.len();
    while left > 0 {
        left -= 1;
        put_entries(&mut table, frames[way[left] as usize].entries.as_slice())?;
    }
    Ok(table)
}

/// Puts the entries of a frame to those that it inherits: a key that is there keeps its place.
fn put_entries<'a>(
    table: &mut IndexMap<&'a Text, &'a Value>,
    entries: &'a [Entry],
) -> Result<(), AllocError>
    ensures { OnOk result (map (λ e. (e.0.now, e.1.now)) table.new.entries
        ≡ insert_all bytes_eq (map (λ e. (e.0.now, e.1.now)) table.old.entries) (given entries.now)) }
{
    for entry in entries {
        put_entry(table, entry)?;
    }
    Ok(())
}

fn put_entry<'a>(
    table: &mut IndexMap<&'a Text, &'a Value>,
    entry: &'a Entry,
) -> Result<(), AllocError>
    ensures { OnOk result (map (λ e. (e.0.now, e.1.now)) table.new.entries
        ≡ insert_all bytes_eq (map (λ e. (e.0.now, e.1.now)) table.old.entries) (given (entry.now ∷ []))) }
{
    if !is_left_out(entry.key.bytes()) {
        table
            .insert(&entry.key, &entry.value)
            .map_err(AllocError::from)?;
    }
    Ok(())
}

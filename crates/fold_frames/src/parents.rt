// From which frames a frame inherits.
ghost use Rattle.std.specs.Prelude.{◌≡◌, ◌≤◌, ◌^◌, length};
ghost use Rattle.std.specs.Option.{option_copied};
ghost use Rattle.fold_frames.specs.Parents.{value_at, parent_of};
ghost use Rattle.fold_frames.specs.Answers.{AnswersWay};

use crate::fault::FrameFault;
use fold_base::List;
use fold_keys::{Entry, Frame, Value};
use std::alloc::{AllocError, Global};

/// The value at the key.
pub fn value_at<'a>(entries: &'a [Entry], key: &[u8]) -> Option<&'a Value>
    ensures { option_copied result ≡ value_at entries.now key.now }
{
    for entry in entries {
        if entry.key.bytes() == key {
            return Some(&entry.value);
        }
    }
    None
}

/// The number of the frame from which this one inherits, if it does.
pub fn parent_of(frame: &Frame) -> Option<u32>
    ensures { result ≡ parent_of frame.now }
{
    let entries = frame.entries.as_slice();
    match (
        value_at(entries, b"frame_inherit"),
        value_at(entries, b"frame_parent"),
    ) {
        (Some(Value::Truth(true)), Some(Value::Id(parent))) => Some(*parent),
        _ => None,
    }
}

/// The frame of this number and those from which it inherits, each before its parent.
///
/// Each frame is looked at once: those that were met are marked.
pub fn way(alloc: Global, frames: &[Frame], frame: u32) -> Result<List<u32>, FrameFault>
    requires { length frames.now ≤ 2 ^ 32 }
    ensures { AnswersWay frames.now frame result }
{
    if frames.len() <= frame as usize {
        return Err(FrameFault::NoFrame { frame });
    }
    let mut met = vec![in alloc; false; frames.len()]?;
    let mut way = List::new(alloc);
    let mut here = frame;
    while !met[here as usize] {
        met[here as usize] = true;
        way.push(here).map_err(AllocError::from)?;
        match parent_of(&frames[here as usize]) {
            None => return Ok(way),
            Some(parent) => {
                if frames.len() <= parent as usize {
                    return Err(FrameFault::ParentRange { frame: here });
                }
                here = parent;
            }
        }
    }
    Err(FrameFault::ParentLoop { frame: here })
}

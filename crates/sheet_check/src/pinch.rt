ghost use Rattle.std.specs.Prelude.{◌≡◌, ◌<◌, ℕ, Contains, IfOk, length};
ghost use Rattle.sheet_check.specs.Twice.{IsLeastTwice, Notes, least_of};

use std::alloc::{AllocError, Global};

/// The lesser of a number and one that was found.
fn least_of(v: u32, found: Option<u32>) -> Option<u32>
    ensures { result ≡ least_of v found }
{
    match found {
        None => Some(v),
        Some(other) => Some(v.min(other)),
    }
}

/// Marks a number, and finds it where it was marked before.
fn note(marks: &mut [bool], v: u32, found: Option<u32>) -> Option<u32>
    requires { v < length marks.old }
    ensures { Notes v marks.old marks.new found result }
{
    if marks[v as usize] {
        return least_of(v, found);
    }
    marks[v as usize] = true;
    found
}

/// The least number below `count` that a list holds twice.
pub fn least_twice(alloc: Global, corners: &[u32], count: usize) -> Result<Option<u32>, AllocError>
    requires { (v : ℕ) → Contains corners.now v → v < count }
    ensures { IfOk result (IsLeastTwice corners.now (length corners.now)) }
{
    let mut marks = vec![in alloc; false; count]?;
    let mut found = None;
    for place in 0..corners.len() {
        found = note(marks.as_mut_slice(), corners[place], found);
    }
    Ok(found)
}

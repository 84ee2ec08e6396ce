ghost use Rattle.std.specs.Prelude.{◌≡◌};
ghost use Rattle.std.specs.Option.{option_copied};
ghost use Rattle.json_tree.specs.At.{value_at, value_of};

use crate::tree::{Json, Member};

/// A step from a value into it.
#[derive(Clone, Copy, Debug)]
pub enum Step<'a> {
    /// The member of an object that has this key.
    Key(&'a [u8]),
    /// The element of a list at this place, from 0.
    Place(u32),
}

/// The value that the step names: of members with equal keys the first.
pub fn at<'a>(tree: &'a Json, step: Step<'_>) -> Option<&'a Json>
    ensures { option_copied result ≡ value_at tree.now step.entry }
{
    match (tree, step) {
        (Json::Object(members), Step::Key(key)) => value_of(members.as_slice(), key),
        (Json::List(items), Step::Place(place)) => items.get(place as usize),
        _ => None,
    }
}

fn value_of<'a>(members: &'a [Member], key: &[u8]) -> Option<&'a Json>
    ensures { option_copied result ≡ value_of members.now key.now }
{
    for member in members {
        if member.key.bytes() == key {
            return Some(&member.value);
        }
    }
    None
}

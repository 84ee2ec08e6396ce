// A frame with all that it inherits.
ghost use Rattle.std.specs.Prelude.{◌≡◌, IfSome, MatchOption, Some, None, slice_get, true};
ghost use Rattle.std.specs.Option.{option_copied};
ghost use Rattle.fold_keys.specs.Writable.{IsWritableEntry};
ghost use Rattle.fold_frames.specs.Effects.{AreInEffect};
ghost use Rattle.fold_frames.specs.Parents.{value_at};

use crate::parents::value_at;
use fold_base::{List, Text};
use fold_keys::{Entry, Value};
use std::marker::Model;

/// A frame with all that it inherits: its keys are distinct, its values fit them, and no key is one
/// of the file or of inheritance itself.
#[derive(Debug, Drop)]
pub struct Effective {
    /// The number of the frame in its file.
    frame: u32,
    entries: List<Entry>,
}

impl Model for Effective {
    ghost use Rattle.fold_frames.specs.Effects.{FrameInEffect, AreInEffect, frame_code};

    ghost Value = { FrameInEffect };

    ghost coded = { frame_code };

    ghost view = { λ e. record { frame = e.frame; entries = e.entries } };

    ghost invariant = { λ e. AreInEffect e.entries };
}

impl Effective {
    pub(crate) fn new(frame: u32, entries: List<Entry>) -> Effective
        requires { AreInEffect entries }
        ensures { result ≡ record { frame = frame; entries = entries } }
    {
        Effective { frame, entries }
    }

    /// The number of the frame in its file.
    pub fn frame(&self) -> u32
        ensures { result ≡ self.now.frame }
    {
        self.frame
    }

    pub fn entries(&self) -> &[Entry]
        ensures entries { result.now ≡ self.now.entries }
        ensures in_effect { AreInEffect result.now }
    {
        self.entries.as_slice()
    }

    /// The value at the key.
    pub fn get(&self, key: &[u8]) -> Option<&Value>
        ensures value { option_copied result ≡ value_at self.now.entries key.now }
        ensures fits { IfSome result (λ value.
            IsWritableEntry true (record { key = key.now; value = value.now })) }
    {
        value_at(self.entries.as_slice(), key)
    }

    /// The key and the value at this place.
    pub fn entry(&self, place: u32) -> Option<(&Text, &Value)>
        ensures { MatchOption result (slice_get self.now.entries place ≡ None)
            (λ e. slice_get self.now.entries place
            ≡ Some (record { key = e.0.now; value = e.1.now })) }
    {
        let entry = self.entries.get(place as usize)?;
        Some((&entry.key, &entry.value))
    }
}

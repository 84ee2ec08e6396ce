ghost use Rattle.std.specs.Prelude.{◌≡◌, ◌≢◌, ◌↔◌, ◌<◌, ◌≤◌, Some, None, false, length, take, IsTrue, IfOk, OnOk, if◌then◌else◌};
ghost use Rattle.first_fault.specs.Machine.{steps};
ghost use Rattle.json_machine.specs.WordScan.{WordState, between, is_between, next_character, put, word_start};

use crate::character::{Part, Step};
use fold_base::Text;
use std::alloc::{AllocError, Global};
use std::marker::Model;

/// The characters of a word while they are read byte by byte: the text of those that are done, and how far the next is.
/// One scanner serves for many words and keeps its room.
#[derive(Debug, Drop)]
pub struct WordScanner {
    text: String,
    part: Part,
}

impl Model for WordScanner {
    ghost use Rattle.json_machine.specs.WordScan.{WordState};

    ghost Value = { WordState };

    ghost use Rattle.json_read.specs.WordView.{IsSound};
    ghost use Rattle.json_read.specs.WordModel.{word_state};

    ghost view = { word_state };

    ghost invariant = { λ s. IsSound s.part };
}

impl WordScanner {
    pub fn new(alloc: Global) -> WordScanner
        ensures { result ≡ word_start }
    {
        WordScanner {
            text: String::new(alloc),
            part: Part::Between,
        }
    }

    /// Begins anew, whatever it has taken.
    pub fn restart(&mut self)
        ensures { self.new ≡ word_start }
    {
        self.text.clear();
        self.part = Part::Between;
    }

    /// Takes one more byte. `false`: it can't stand here, and is not taken.
    pub fn take(&mut self, byte: u8) -> Result<bool, AllocError>
        ensures step { IfOk result (λ went. (if went then Some self.new else None) ≡ next_character self.old byte) }
        ensures stays { IfOk result (λ went. went ≡ false → self.new ≡ self.old) }
    {
        // The commonest byte.
        if matches!(self.part, Part::Between) && is_plain(byte) {
            self.text.push(char::from(byte))?;
            return Ok(true);
        }
        match self.part.next(byte) {
            Some(Step::More(part)) => self.part = part,
            Some(Step::Whole(character)) => {
                self.text.push(character)?;
                self.part = Part::Between;
            }
            None => return Ok(false),
        }
        Ok(true)
    }

    /// Takes bytes up to the first that can't stand here, and says how many.
    pub fn take_front(&mut self, bytes: &[u8]) -> Result<usize, AllocError>
        ensures within { IfOk result (λ n. n ≤ length bytes.now) }
        ensures steps { IfOk result (λ n. steps next_character self.old (take n bytes.now) ≡ Some self.new) }
    {
        for (place, byte) in bytes.iter().enumerate() {
            if !self.take(*byte)? {
                return Ok(place);
            }
        }
        Ok(bytes.len())
    }

    /// Whether the word may end here: the last character is whole.
    pub fn is_between(&self) -> bool
        ensures { result ≡ is_between self.now.part }
    {
        matches!(self.part, Part::Between)
    }

    /// Gives the text of the word, and begins anew.
    pub fn finish(&mut self, alloc: Global) -> Result<Text, AllocError>
        ensures word { IfOk result (λ text. text ≡ self.old.word) }
        ensures anew { OnOk result (self.new ≡ word_start) }
    {
        let text = Text::from_text(alloc, self.text.as_str())?;
        self.text.clear();
        self.part = Part::Between;
        Ok(text)
    }
}

/// Whether the byte is a character of a word by itself: ASCII, but no control, quote or backslash.
fn is_plain(byte: u8) -> bool
    ensures plain { IsTrue result ↔ (32 ≤ byte) × (byte < 128) × (byte ≢ 34) × (byte ≢ 92) }
    ensures step { IsTrue result → (w : WordState) → between w byte ≡ Some (put w byte) }
{
    matches!(byte, b' '..=0x7F) && byte != b'"' && byte != b'\\'
}

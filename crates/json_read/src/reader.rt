ghost use Rattle.std.specs.Prelude.{◌≡◌, ◌≢◌, ◌≤◌, ◌+◌, ◌⊎◌, ℕ, List, [], ◌++◌, length, Ok, Err, IfOk, IfErr, IsOk, OnOk};
ghost use Rattle.first_fault.specs.FirstFault.{Begins};
ghost use Rattle.json_tree.specs.Spells.{Spells};
ghost use Rattle.json_tree.specs.Tree.{HasLengthsUpTo, IsProper};
ghost use Rattle.json_tree.specs.declared.tree.Json.{Json};
ghost use Rattle.json_read.specs.Causes.{NamesFirstFault};
ghost use Rattle.json_read.specs.Reads.{FeedAnswers, FinishAnswers, LacksMemory, UnlessMemory};
ghost use Rattle.json_read.specs.Reader.{bytes_fed, HasRead, HasStopped};
ghost use Rattle.std.specs.declared.alloc.AllocError.{AllocError as AnyError};
ghost use Rattle.json_read.specs.declared.fault.JsonFault.{JsonFault};
ghost use Rattle.json_read.specs.declared.fault.JsonCause.{JsonCause};
ghost use Rattle.json_read.specs.declared.fault.JsonReadFault.{JsonReadFault};
ghost use Rattle.json_read.specs.declared.reader.JsonReader.{JsonReader};

use crate::fault::{JsonCause, JsonFault, JsonReadFault};
use crate::machine::Machine;
use crate::run::run;
use fold_base::{MOST_BYTES, PieceTaker};
use json_tree::Json;
use std::alloc::{AllocError, Global};

/// Reads a JSON text that comes in pieces: RFC 8259, with distinct keys in each object, at most 64 lists and objects in one
/// another, and no lone surrogate. It keeps the tree so far and no text.
#[derive(Drop)]
pub struct JsonReader {
    machine: Machine,
    /// The bytes that were fed.
    count: u32,
    /// The fault at which it stopped, which is its answer from then on.
    stopped: Option<JsonReadFault>,
}

impl JsonReader {
    /// A reader that has read nothing.
    pub fn new(alloc: Global) -> JsonReader
        ensures fed { bytes_fed result ≡ 0 }
        ensures read { HasRead result [] }
    {
        JsonReader {
            machine: Machine::new(alloc),
            count: 0,
            stopped: None,
        }
    }

    /// How many bytes were fed, those after a fault too.
    pub fn bytes_fed(&self) -> u32
        ensures { result ≡ bytes_fed self.now }
    {
        self.count
    }

    /// Reads the next piece of the text, which may end anywhere, within a number or a character too.
    pub fn feed(&mut self, piece: &[u8]) -> Result<(), JsonReadFault>
        requires { bytes_fed self.old + length piece.now ≤ MOST_BYTES }

        ensures fed { bytes_fed self.new ≡ bytes_fed self.old + length piece.now }

        // Each text that it had read goes on with the piece.
        ensures read { UnlessMemory result ((text : List ℕ) → HasRead self.old text → HasRead self.new (text ++ piece.now)) }

        // A fault is the first of the text so far, and comes exactly where no accepted text begins so.
        ensures answer { (text : List ℕ) → HasRead self.old text → FeedAnswers (text ++ piece.now) result }
        ensures refused { (text : List ℕ) (fault : JsonFault) → HasRead self.old text → NamesFirstFault (text ++ piece.now) fault
            → fault.cause ≢ JsonCause.Ended → (result ≡ Err (JsonReadFault.Text fault)) ⊎ LacksMemory result }

        // After a fault, or want of memory, each call answers it again.
        ensures stopped { (fault : JsonReadFault) → result ≡ Err fault → HasStopped self.new fault }
        ensures again { (fault : JsonReadFault) → HasStopped self.old fault → result ≡ Err fault }
    {
        let before = self.count;
        self.count += piece.len() as u32;
        match self.stopped {
            Some(fault) => Err(fault),
            None => match run(&mut self.machine, piece) {
                Ok(None) => Ok(()),
                Ok(Some((place, cause))) => {
                    let place = before + place as u32;
                    let fault = JsonReadFault::Text(JsonFault { place, cause });
                    self.stopped = Some(fault);
                    Err(fault)
                }
                Err(error) => {
                    let fault = JsonReadFault::Memory(error);
                    self.stopped = Some(fault);
                    Err(fault)
                }
            },
        }
    }

    /// The tree that the text spells, or its first fault.
    pub fn finish(self) -> Result<Json, JsonReadFault>
        ensures answer { (text : List ℕ) → HasRead self text → FinishAnswers text result }
        ensures proper { (text : List ℕ) → HasRead self text → IfOk result IsProper }
        ensures lengths { (text : List ℕ) → HasRead self text → IfOk result (HasLengthsUpTo (length text)) }
        ensures accepted { (text : List ℕ) (tree : Json) → HasRead self text → Spells text tree → (result ≡ Ok tree) ⊎ LacksMemory result }
        ensures refused { (text : List ℕ) (fault : JsonFault) → HasRead self text → NamesFirstFault text fault
            → (result ≡ Err (JsonReadFault.Text fault)) ⊎ LacksMemory result }
        ensures again { (fault : JsonReadFault) → HasStopped self fault → result ≡ Err fault }
    {
        match self.stopped {
            Some(found) => Err(found),
            None => match self.machine.finish()? {
                Some(tree) => Ok(tree),
                None => Err(JsonReadFault::Text(JsonFault {
                    place: self.count,
                    cause: JsonCause::Ended,
                })),
            },
        }
    }
}

/// It has taken what it has read. It keeps a fault of the text to itself, and answers want of memory alone.
impl PieceTaker for JsonReader {
    ghost count = { bytes_fed };

    ghost has_taken = { HasRead };

    fn take_piece(&mut self, piece: &[u8]) -> Result<(), AllocError>
        requires { bytes_fed self.old + length piece.now ≤ MOST_BYTES }
        ensures count { OnOk result (bytes_fed self.new ≡ bytes_fed self.old + length piece.now) }
        ensures fed { bytes_fed self.new ≡ bytes_fed self.old + length piece.now }
        ensures text { OnOk result ((text : List ℕ) → HasRead self.old text → HasRead self.new (text ++ piece.now)) }

        // A fault of the text so far is kept, and what it stopped at stays. Want of memory is answered again.
        ensures kept { OnOk result ((text : List ℕ) (fault : JsonFault) → HasRead self.old text → NamesFirstFault (text ++ piece.now) fault
            → fault.cause ≢ JsonCause.Ended → HasStopped self.new (JsonReadFault.Text fault)) }
        ensures stopped { IfErr result (λ error. HasStopped self.new (JsonReadFault.Memory error)) }
        ensures stays { (fault : JsonReadFault) → HasStopped self.old fault → HasStopped self.new fault }
        ensures fault { (fault : JsonFault) → HasStopped self.old (JsonReadFault.Text fault) → IsOk result }
        ensures again { (error : AnyError) → HasStopped self.old (JsonReadFault.Memory error) → result ≡ Err error }
    {
        match self.feed(piece) {
            Ok(()) => Ok(()),
            Err(JsonReadFault::Text(_)) => Ok(()),
            Err(JsonReadFault::Memory(error)) => Err(error),
        }
    }
}

/// What a reader that has read a text knows of it.
pub fn reader_laws()
    ensures counted { (reader : JsonReader) (text : List ℕ) → HasRead reader text → bytes_fed reader ≡ length text }
    ensures unspoiled { (reader : JsonReader) (text : List ℕ) (error : AnyError) → HasRead reader text → ¬ HasStopped reader (JsonReadFault.Memory error) }

    // It has stopped at a fault exactly where no accepted text begins so, and that is the text's first.
    ensures kept { (reader : JsonReader) (text : List ℕ) (fault : JsonFault) → HasRead reader text → NamesFirstFault text fault
        → fault.cause ≢ JsonCause.Ended → HasStopped reader (JsonReadFault.Text fault) }
    ensures found { (reader : JsonReader) (text : List ℕ) (fault : JsonFault) → HasRead reader text → HasStopped reader (JsonReadFault.Text fault)
        → NamesFirstFault text fault × (fault.cause ≢ JsonCause.Ended) }
    ensures going { (reader : JsonReader) (text : List ℕ) → HasRead reader text → ((fault : JsonReadFault) → ¬ HasStopped reader fault)
        → Begins Spells text }
{}

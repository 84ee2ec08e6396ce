// The top call.
ghost use Rattle.std.specs.Prelude.{◌≡◌, ◌≢◌, ◌⊎◌, List, ℕ, Option, Err, IfErr, IfOk, length, string_bytes, Some, [], ◌≤◌};
ghost use Rattle.fold_base.specs.Outside.{Gives, IsSpent, Rose};
ghost use Rattle.fold_commands.specs.Status.{status_of};
ghost use Rattle.fold_commands.specs.Steps.{Ends};
ghost use Rattle.fold_commands.specs.Words.{texts, AreWordsOf, AreRefused, ArePlainWordsOf};
ghost use Rattle.fold_commands.specs.Notes.{IsNoted};
ghost use Rattle.fold_commands.specs.Outcome.{DoesFrom, DoesWith, IsOutcome, AreInput, AreLeft, IsOutcomeWritten, KeepsToOutcome, AskForTexts, HasOutcome, HaveOutcome, HaveAtMostOneOutcome};
ghost use Rattle.fold_commands.specs.Crossings.{no_line};
ghost use Rattle.fold_commands.specs.Outside.{PutsInto, PutsText, Takes, TakesAll, TakesFrom};
ghost use Rattle.fold_base.specs.declared.outside.TheConstants.{MOST_BYTES};
ghost use Rattle.fold_commands.specs.Headline.{HaveTrueVerdicts, JudgesFoldable};
ghost use Rattle.fold_commands.specs.Narrow.{RefusesNoNarrow};
ghost use Rattle.fold_commands.specs.Near.{AreReadNear};
ghost use Rattle.fold_commands.specs.Regions.{WritesRegions};

use crate::act::act;
use crate::drill::strip_text;
use crate::folded::{one_fold, true_verdicts};
use crate::input::read_input;
use crate::near::numbers_are_read_near;
use crate::notes::note;
use crate::repair::one_repair;
use crate::status::{NoCause, Status};
use crate::words::{Command, read_words};
use crate::writable::narrow_drawings_can_be_written;
use crease_input::one_file;
use fold_base::{CalmSink, CalmSource, List, Sink, Source, Text, write_all_bytes};
use fold_frames::{one_effective_frame, trees_have_files};
use fold_keys::{read_trees_are_readable, written_reads_back};
use json_tree::spelled_trees_are_proper;
use rational::Rational;
use root_two::{RootThree, RootTwo};
use std::alloc::{AllocError, Global};

/// As many bytes of its own text are read at once.
const PIECE: u32 = 65_536;

/// Does what the words say with the bytes of the source.
///
/// The text is built whole before the first byte of it is put. At most one line goes to `notes`,
/// where the status is no answer.
pub fn run<S: Source, T: Sink, E: Sink>(
    alloc: Global,
    words: &[String],
    source: &mut S,
    sink: &mut T,
    notes: &mut E,
) -> Status
    // Unless reading, writing or memory failed, the status is the outcome of the words and all the
    // bytes that were left, and its text was written and nothing else. Where writing failed, a
    // proper prefix of it was. Where the source doesn't tell its bytes, this is so of some.
    ensures outcome { HasOutcome (texts words.now) (S.left source.old)
        (T.written sink.old) (T.written sink.new) result }

    // Where nothing failed outside, the status is the outcome, or memory is wanting.
    ensures complete { ¬ (Rose (S.faults source.old) (S.faults source.new)) →
        ¬ (Rose (T.faults sink.old) (T.faults sink.new)) →
        (bytes : List ℕ) → AreInput (texts words.now) (S.left source.old) bytes →
        (result ≡ Status.Memory)
        ⊎ IsOutcomeWritten (texts words.now) bytes
        (T.written sink.old) (T.written sink.new) result }

    // The faces that `repair` writes in a file are the bounded regions of the drawing that it writes,
    // each once.
    ensures regions { WritesRegions (texts words.now)
        (T.written sink.old) (T.written sink.new) result }

    // `repair` never says that a vertex of the drawing is too wide to write where it computes over the
    // rationals, or where the coordinates that it read are narrow.
    ensures narrow { RefusesNoNarrow (texts words.now) (S.left source.old) result }

    // Each number that a rule reads of a text lies within the rule's tolerance of the text's value.
    ensures near { AreReadNear }

    // `judge` says yes to FOLD texts whose chosen frame is a sheet that folds flat, where the orders rank
    // each two faces that overlap, each stack has one order, nothing crosses a crease or a join at a
    // seam, and the letters are true. It says so to nothing else, and to each of these where nothing
    // failed outside and memory wasn't wanting.
    ensures headline { JudgesFoldable (texts words.now) (S.left source.old)
        (S.faults source.old) (S.faults source.new) (T.faults sink.old) (T.faults sink.new) result }

    // No byte is taken after the first that is past the limit, and none where the words take
    // nothing. Nothing is put where no text is due. Notes get at most the line on the status.
    // Reading and writing fail only from outside.
    ensures source { TakesFrom S.left S.faults (texts words.now) source.old source.new result }
    ensures sink { PutsInto T.faults sink.old sink.new result }
    ensures notes { IsNoted E.written E.faults notes.old notes.new result }
{
    one_outcome();
    narrow_drawings_can_be_written();
    numbers_are_read_near();
    yes_is_true();
    let status = perform(alloc, words, source, sink);
    note(alloc, &status, notes);
    status
}

/// Over a source and a sink that never fail, the status is the outcome, or memory is wanting.
pub fn run_calm<E: Sink>(
    alloc: Global,
    words: &[String],
    bytes: List<u8>,
    piece: u32,
    notes: &mut E,
) -> Status
    ensures outcome { (result ≡ Status.Memory)
        ⊎ ((text : List ℕ) × IsOutcome (texts words.now) bytes result text) }
    ensures notes { IsNoted E.written E.faults notes.old notes.new result }
{
    let mut source = CalmSource::new(bytes, piece);
    run(alloc, words, &mut source, &mut CalmSink::new(), notes)
}

/// Words and bytes have one outcome at most, and those of commands on texts have one.
pub fn one_outcome()
    ensures some { (words : List (List ℕ)) (bytes : List ℕ) → AskForTexts words → HaveOutcome words bytes }
    ensures one { (words : List (List ℕ)) (bytes : List ℕ) → HaveAtMostOneOutcome words bytes }
{
    cp_lines::one_reading();
    json_read::one_reading();
    spelled_trees_are_proper();
    read_trees_are_readable();
    trees_have_files();
    written_reads_back();
    one_effective_frame();
    crease_input::one_reading::<Rational>();
    crease_input::one_reading::<RootTwo>();
    crease_input::one_reading::<RootThree>();
    one_file::<Rational>();
    one_file::<RootTwo>();
    one_file::<RootThree>();
    one_repair::<Rational>();
    one_repair::<RootTwo>();
    one_repair::<RootThree>();
    one_fold::<Rational>();
    one_fold::<RootTwo>();
    one_fold::<RootThree>();
}

/// That layers fit is a verdict exactly where they lie, at each point of the plane, as they are
/// ordered.
pub fn yes_is_true()
    ensures { HaveTrueVerdicts }
{
    true_verdicts::<Rational>();
    true_verdicts::<RootTwo>();
    true_verdicts::<RootThree>();
}

/// The limit of a text, in bytes.
pub fn limits()
    ensures most_bytes { MOST_BYTES ≡ 16777216 }
{}

/// Words of the plain form mean the command that they say, and are never refused.
pub fn plain_words()
    ensures meant { (words : List (List ℕ)) (command : Command) → ArePlainWordsOf words command →
        AreWordsOf words command }
    ensures taken { (words : List (List ℕ)) (command : Command) (status : Status) →
        ArePlainWordsOf words command → ¬ AreRefused words status }
{}

/// What a run keeps to, it keeps to of all the bytes that were left where that's told, and of any
/// bytes where the words take nothing.
pub fn outcome_of_input()
    ensures { (words : List (List ℕ)) (left before after : Option (List ℕ)) (status : Status)
        (bytes : List ℕ) → HasOutcome words left before after status → AreInput words left bytes →
        KeepsToOutcome words bytes before after status }
{}

/// All but the notes.
fn perform<S: Source, T: Sink>(
    alloc: Global,
    words: &[String],
    source: &mut S,
    sink: &mut T,
) -> Status
    ensures outcome { HasOutcome (texts words.now) (S.left source.old)
        (T.written sink.old) (T.written sink.new) result }
    ensures source { TakesFrom S.left S.faults (texts words.now) source.old source.new result }
    ensures sink { PutsInto T.faults sink.old sink.new result }
{
    match prepare(alloc, words, source) {
        Ok(text) => put(sink, Status::Done, text.bytes()),
        Err(Status::No(cause)) => match no_line(alloc, cause) {
            Ok(line) => put(sink, Status::No(cause), line.as_bytes()),
            Err(_) => Status::Memory,
        },
        Err(status) => status,
    }
}

/// Puts the text that is due with a status, and answers the status unless writing fails.
fn put<T: Sink>(sink: &mut T, status: Status, text: &[u8]) -> Status
    ensures { PutsText T.written T.faults sink.old sink.new status text.now result }
{
    match write_all_bytes(sink, text) {
        Ok(()) => status,
        Err(_) => Status::Write,
    }
}

/// The line that is due where the answer is no.
fn no_line(alloc: Global, cause: NoCause) -> Result<String, AllocError>
    ensures { IfOk result (λ line. string_bytes line ≡ no_line cause) }
{
    format!(in alloc; "no: {cause}\n")
}

/// The text that is due, built whole.
fn prepare<S: Source>(alloc: Global, words: &[String], source: &mut S) -> Result<Text, Status>
    ensures outcome { (bytes : List ℕ) × AreLeft (S.left source.old) bytes
        × Ends (IsOutcome (texts words.now) bytes) result }
    ensures unwritten { IfErr result (λ status. status ≢ Status.Write) }
    ensures source { TakesFrom S.left S.faults (texts words.now) source.old source.new (status_of result) }
{
    let command = read_words(alloc, words)?;
    match command.strip() {
        None => answer(alloc, &command, source),
        Some(count) => answer_on_strip(alloc, &command, count),
    }
}

/// What the command makes of the text of a strip.
fn answer_on_strip(alloc: Global, command: &Command, count: u32) -> Result<Text, Status>
    requires some { 1 ≤ count }
    requires few { count ≤ 500 }
    ensures outcome { Ends (DoesFrom (Some count) command.now []) result }
    ensures unwritten { IfErr result (λ status. status ≢ Status.Write) }
    ensures unread { IfErr result (λ status. status ≢ Status.Read) }
{
    let text = strip_text(alloc, count)?;
    let bytes = List::from_slice(alloc, text.bytes())?;
    answer(alloc, command, &mut CalmSource::new(bytes, PIECE))
}

/// What the command makes of the bytes that a source has left.
fn answer<S: Source>(alloc: Global, command: &Command, source: &mut S) -> Result<Text, Status>
    ensures outcome { (bytes : List ℕ) × AreLeft (S.left source.old) bytes
        × Ends (DoesWith command.now bytes) result }
    ensures unwritten { IfErr result (λ status. status ≢ Status.Write) }
    ensures read { result ≡ Err Status.Read → Rose (S.faults source.old) (S.faults source.new) }
    ensures taken { (bytes : List ℕ) × Gives (S.left source.old) (S.left source.new) bytes
        × Takes (status_of result) (length bytes) }
    ensures end { TakesAll (status_of result) → IsSpent (S.left source.new) }
{
    let input = read_input(alloc, command.format(), source)?;
    act(alloc, command, input)
}

// Runs of the program over memory.
use cp_lines::{CpCause, CpFault};
use fold_base::{List, MemorySink, MemorySource, Text};
use fold_commands::{ShapeCause, Status, TextFault, WordsCause, run};
use fold_keys::{ShapeFault, ShapeKind};
use json_read::{JsonCause, JsonFault};
use std::alloc::{AllocError, Global};
use std::process::Abort;

pub(crate) const SHOW_CP: &[&str] = &["show", "--from=cp"];

pub(crate) const SHOW_FOLD: &[&str] = &["show", "--from=fold"];

pub(crate) const REPAIR: &[&str] = &["repair", "--from=cp"];

/// The head of each pattern that is written.
pub(crate) const HEAD: &str =
    r#"{"file_spec":1.2,"file_creator":"fold_program","frame_classes":["creasePattern"],"#;

pub(crate) const SHOWN: &[u8] = b"1  0 0\t1 0\r\n\r\n3 0 0 1 1";

pub(crate) const PRINTED: &[u8] = b"1 0 0 1 0\n3 0 0 1 1\n";

/// A file whose frames inherit from one another.
pub(crate) const FRAMES: &[u8] =
    b"{\"vertices_coords\":[[0,0]],\"frame_title\":\"a\",\"file_frames\":[\
    {\"frame_parent\":0,\"frame_inherit\":true,\"frame_title\":\"b\"},\
    {\"frame_parent\":1,\"frame_inherit\":true,\"x:y\":7}]}";

pub(crate) fn strings(alloc: Global, words: &[&str]) -> Result<Vec<String>, AllocError> {
    let mut strings = Vec::new(alloc);
    for word in words {
        strings.push(String::from_str(alloc, word)?)?;
    }
    Ok(strings)
}

/// A run, its outside, and what is to come of it.
#[derive(Drop)]
pub(crate) struct Row<'a> {
    pub(crate) words: &'a [&'a str],
    pub(crate) input: &'a [u8],
    /// The most bytes that are taken and put in a call.
    pub(crate) pieces: (u32, u32),
    pub(crate) failing_takes: &'a [u64],
    pub(crate) failing_puts: &'a [u64],
    pub(crate) failing_notes: &'a [u64],
    pub(crate) status: Status,
    pub(crate) output: &'a [u8],
    pub(crate) notes: &'a [u8],
}

/// Input that is shown with no fault outside.
pub(crate) fn shown<'a>(input: &'a [u8], output: &'a [u8]) -> Row<'a> {
    Row {
        words: SHOW_CP,
        input,
        pieces: (4096, 4096),
        failing_takes: &[],
        failing_puts: &[],
        failing_notes: &[],
        status: Status::Done,
        output,
        notes: b"",
    }
}

/// FOLD text that is shown with no fault outside.
pub(crate) fn shown_fold<'a>(input: &'a [u8], output: &'a [u8]) -> Row<'a> {
    Row {
        words: SHOW_FOLD,
        ..shown(input, output)
    }
}

/// FOLD text that is refused at its first fault.
pub(crate) fn faulty_fold<'a>(
    input: &'a [u8],
    place: u32,
    cause: JsonCause,
    notes: &'a [u8],
) -> Row<'a> {
    Row {
        status: Status::Text(TextFault::Json(JsonFault { place, cause })),
        notes,
        ..shown_fold(input, b"")
    }
}

/// Input that is refused at its first fault.
pub(crate) fn faulty<'a>(input: &'a [u8], fault: (u32, u32, CpCause), notes: &'a [u8]) -> Row<'a> {
    let (line, column, cause) = fault;
    Row {
        status: Status::Text(TextFault::Cp(CpFault {
            line,
            column,
            cause,
        })),
        notes,
        ..shown(input, b"")
    }
}

/// FOLD text that is refused at its first misfit.
pub(crate) fn misfit<'a>(
    alloc: Global,
    input: &'a [u8],
    place: (u32, &str, u32, ShapeKind),
    notes: &'a [u8],
) -> Result<Row<'a>, AllocError> {
    let (frame, key, index, cause) = place;
    let fault = ShapeFault {
        frame,
        key: Text::from_text(alloc, key)?,
        index,
        cause,
    };
    Ok(Row {
        status: Status::Shape(ShapeCause::Key(fault)),
        notes,
        ..shown_fold(input, b"")
    })
}

/// Words that are refused. A source that is asked for bytes fails.
pub(crate) fn refused<'a>(words: &'a [&'a str], cause: WordsCause, notes: &'a [u8]) -> Row<'a> {
    Row {
        words,
        failing_takes: &[1],
        status: Status::Words(cause),
        notes,
        ..shown(SHOWN, b"")
    }
}

/// Runs, and compares what came of it with what was to come.
pub(crate) fn check(rt: &impl Abort, alloc: Global, row: Row<'_>) -> Result<(), AllocError> {
    let input = List::from_slice(alloc, row.input)?;
    let failing_takes = List::from_slice(alloc, row.failing_takes)?;
    let failing_puts = List::from_slice(alloc, row.failing_puts)?;
    let mut source = MemorySource::new(input, row.pieces.0, failing_takes);
    let mut sink = MemorySink::new(alloc, row.pieces.1, failing_puts, 100)?;
    let failing_notes = List::from_slice(alloc, row.failing_notes)?;
    let mut notes = MemorySink::new(alloc, 100, failing_notes, 100)?;
    let words = strings(alloc, row.words)?;
    let status = run(alloc, &words, &mut source, &mut sink, &mut notes);
    assert_eq!(rt; status, row.status);
    assert_eq!(rt; sink.bytes(), row.output);
    assert_eq!(rt; notes.bytes(), row.notes);
    Ok(())
}

/// What came of a run.
#[derive(Drop)]
pub(crate) struct Told {
    pub(crate) status: Status,
    pub(crate) sink: MemorySink,
    pub(crate) notes: MemorySink,
}

/// Runs the words on input that is given whole, with room for so many bytes of output.
pub(crate) fn answer(
    alloc: Global,
    words: &[&str],
    input: &str,
    room: u32,
) -> Result<Told, AllocError> {
    let words = strings(alloc, words)?;
    let input = List::from_slice(alloc, input.as_bytes())?;
    let mut source = MemorySource::new(input, 4096, List::new(alloc));
    let mut sink = MemorySink::new(alloc, 4096, List::new(alloc), room)?;
    let mut notes = MemorySink::new(alloc, 100, List::new(alloc), 100)?;
    let status = run(alloc, &words, &mut source, &mut sink, &mut notes);
    Ok(Told {
        status,
        sink,
        notes,
    })
}

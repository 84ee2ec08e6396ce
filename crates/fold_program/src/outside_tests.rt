// Sources, sinks and notes that fail, and the limit of a text.
use crate::trial::{
    FRAMES, Row, SHOW_CP, SHOW_FOLD, SHOWN, check, faulty, refused, shown, shown_fold, strings,
};
use cp_lines::CpCause;
use fold_base::{CalmSink, List, MemorySink, MemorySource};
use fold_commands::{Limit, ShapeCause, Status, TextFault, WordsCause, run, run_calm};
use json_read::{JsonCause, JsonFault};
use std::test::Fail;

#[test]
fn tells_faults_outside(rt: HostRuntime) -> Result<(), Fail> {
    let read_failed = Row {
        pieces: (2, 4096),
        failing_takes: &[2],
        status: Status::Read,
        notes: b"fold_program: read failed\n",
        ..shown(SHOWN, b"")
    };
    check(&rt, rt.alloc(), read_failed)?;
    let read_failed_after_a_fault = Row {
        pieces: (1, 4096),
        failing_takes: &[2],
        status: Status::Read,
        notes: b"fold_program: read failed\n",
        ..shown(b"9 0", b"")
    };
    check(&rt, rt.alloc(), read_failed_after_a_fault)?;
    let fold_read_failed_after_a_fault = Row {
        pieces: (1, 4096),
        failing_takes: &[3],
        status: Status::Read,
        notes: b"fold_program: read failed\n",
        ..shown_fold(b"01", b"")
    };
    check(&rt, rt.alloc(), fold_read_failed_after_a_fault)?;
    let write_failed = Row {
        pieces: (4096, 4),
        failing_puts: &[2],
        status: Status::Write,
        notes: b"fold_program: write failed\n",
        ..shown(SHOWN, b"1 0 ")
    };
    check(&rt, rt.alloc(), write_failed)?;
    Ok(())
}

#[test]
fn takes_as_many_bytes_as_a_text_may_have(rt: HostRuntime) -> Result<(), Fail> {
    let alloc = rt.alloc();
    let ended = TextFault::Json(JsonFault {
        place: 16_777_216,
        cause: JsonCause::Ended,
    });
    for (words, len, status) in [
        (SHOW_CP, 16_777_216, Status::Done),
        (SHOW_CP, 16_777_217, Status::Limit(Limit::TooLong)),
        (SHOW_FOLD, 16_777_216, Status::Text(ended)),
        (SHOW_FOLD, 16_777_217, Status::Limit(Limit::TooLong)),
    ] {
        let words = strings(alloc, words)?;
        let blanks = List::from_vec(vec![in alloc; b' '; len]?);
        let mut source = MemorySource::new(blanks, 4096, List::new(alloc));
        let mut sink = MemorySink::new(alloc, 1, List::new(alloc), 1)?;
        let answer = run(alloc, &words, &mut source, &mut sink, &mut CalmSink::new());
        assert_eq!(rt; answer, status, "{len} blanks");
        assert_eq!(rt; sink.bytes(), b"".as_slice(), "{len} blanks");
    }
    Ok(())
}

#[test]
fn ignores_faults_of_notes(rt: HostRuntime) -> Result<(), Fail> {
    let alloc = rt.alloc();
    let rows = [
        refused(&["fly"], WordsCause::Refused, b""),
        faulty(b"2 0 0 1\n", (1, 8, CpCause::Byte), b""),
        Row {
            words: &["convert", "--frame=3"],
            status: Status::Shape(ShapeCause::NoFrame { frame: 3 }),
            ..shown_fold(FRAMES, b"")
        },
    ];
    for row in rows {
        let unheard = Row {
            failing_notes: &[1],
            notes: b"",
            ..row
        };
        check(&rt, alloc, unheard)?;
    }
    let mut notes = MemorySink::new(alloc, 4, List::new(alloc), 5)?;
    let status = run_calm(
        alloc,
        &strings(alloc, &["fly"])?,
        List::new(alloc),
        1,
        &mut notes,
    );
    assert_eq!(rt; status, Status::Words(WordsCause::Refused));
    assert_eq!(rt; notes.bytes(), b"fold_".as_slice());
    let status = run_calm(
        alloc,
        &strings(alloc, SHOW_CP)?,
        List::from_slice(alloc, SHOWN)?,
        3,
        &mut CalmSink::new(),
    );
    assert_eq!(rt; status, Status::Done);
    Ok(())
}

// Sources read to their end, and bytes written whole.
use fold_base::{
    CalmSink, CalmSource, Failed, List, MemorySink, MemorySource, ReadFault, read_pieces,
    write_all_bytes,
};
use std::test::Fail;

#[test]
fn reads_to_the_end_or_to_a_fault(rt: HostRuntime) -> Result<(), Fail> {
    let alloc = rt.alloc();
    // The piece, the failing calls, and what two reads in a row answer and collect.
    let rows: [(u32, &[u64], [(Result<u32, ReadFault>, &[u8]); 2]); 4] = [
        (2, &[], [(Ok(5), b"abcde"), (Ok(0), b"")]),
        (0, &[2], [(Err(ReadFault::Failed), b"a"), (Ok(4), b"bcde")]),
        (9, &[1], [(Err(ReadFault::Failed), b""), (Ok(5), b"abcde")]),
        (9, &[2], [(Err(ReadFault::Failed), b"abcde"), (Ok(0), b"")]),
    ];
    for (piece, failing, answers) in rows {
        let bytes = List::from_slice(alloc, b"abcde")?;
        let failing = List::from_slice(alloc, failing)?;
        let mut source = MemorySource::new(bytes, piece, failing);
        for (answer, collected) in answers {
            let mut list = List::new(alloc);
            assert_eq!(rt;
                read_pieces(&mut source, &mut list),
                answer,
                "pieces of {piece}"
            );
            assert_eq!(rt; list.as_slice(), collected, "pieces of {piece}");
        }
    }
    Ok(())
}

#[test]
fn writes_whole_or_to_a_fault(rt: HostRuntime) -> Result<(), Fail> {
    let alloc = rt.alloc();
    // The piece, the failing calls, the room, and what two writes in a row answer and leave.
    let rows: [(u32, &[u64], u32, [Result<(), Failed>; 2], &[u8]); 4] = [
        (2, &[], 9, [Ok(()), Ok(())], b"abcabc"),
        (0, &[2], 9, [Err(Failed), Ok(())], b"aabc"),
        (9, &[1], 9, [Err(Failed), Ok(())], b"abc"),
        (9, &[], 4, [Ok(()), Err(Failed)], b"abca"),
    ];
    for (piece, failing, room, answers, written) in rows {
        let failing = List::from_slice(alloc, failing)?;
        let mut sink = MemorySink::new(alloc, piece, failing, room)?;
        for answer in answers {
            assert_eq!(rt;
                write_all_bytes(&mut sink, b"abc"),
                answer,
                "pieces of {piece}"
            );
        }
        assert_eq!(rt; sink.bytes(), written, "pieces of {piece}");
    }
    Ok(())
}

#[test]
fn stays_calm(rt: HostRuntime) -> Result<(), Fail> {
    let alloc = rt.alloc();
    let mut source = CalmSource::new(List::from_slice(alloc, b"abcde")?, 2);
    let mut list = List::new(alloc);
    assert_eq!(rt; read_pieces(&mut source, &mut list), Ok(5));
    assert_eq!(rt; list.as_slice(), b"abcde".as_slice());
    assert_eq!(rt; write_all_bytes(&mut CalmSink::new(), b"abc"), Ok(()));
    Ok(())
}

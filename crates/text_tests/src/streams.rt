// Readers that fail and writers that take little, as sources and sinks.
use fold_base::{Failed, List, ReadFault, ReadSource, WriteSink, read_pieces, write_all_bytes};
use std::io::{Error, ErrorKind, Read, Result, Write};
use std::test::Fail;

/// Gives one byte a call and then the end, but for a failing call.
#[derive(Drop)]
struct OneByOne {
    bytes: u8,
    failing: u8,
}

impl Read for OneByOne {
    fn read(&mut self, room: &mut [u8]) -> Result<usize> {
        if self.bytes == self.failing {
            self.failing = 255;
            return Err(Error::from(ErrorKind::Other));
        }
        if self.bytes == 0 || room.is_empty() {
            return Ok(0);
        }
        self.bytes -= 1;
        room[0] = b'a';
        Ok(1)
    }
}

/// Takes at most two bytes a call, none of an `x`, and fails to flush a `y`.
#[derive(Drop)]
struct Picky {
    is_stuck: bool,
}

impl Write for Picky {
    fn write(&mut self, bytes: &[u8]) -> Result<usize> {
        self.is_stuck = bytes.contains(&b'y');
        if bytes.first() == Some(&b'x') {
            return Ok(0);
        }
        Ok(bytes.len().min(2))
    }

    fn flush(&mut self) -> Result<()> {
        if self.is_stuck {
            return Err(Error::from(ErrorKind::Other));
        }
        Ok(())
    }
}

#[test]
fn reads_until_it_fails(rt: HostRuntime) -> std::result::Result<(), Fail> {
    let mut source = ReadSource::new(OneByOne {
        bytes: 3,
        failing: 1,
    });
    let mut list = List::new(rt.alloc());
    assert_eq!(rt; read_pieces(&mut source, &mut list), Err(ReadFault::Failed));
    assert_eq!(rt; list.as_slice(), b"aa".as_slice());
    let mut list = List::new(rt.alloc());
    assert_eq!(rt; read_pieces(&mut source, &mut list), Ok(1));
    Ok(())
}

#[test]
fn writes_and_flushes(rt: HostRuntime) {
    let rows: [(&[u8], std::result::Result<(), Failed>); 4] = [
        (b"abc", Ok(())),
        (b"abx", Err(Failed)),
        (b"y", Err(Failed)),
        (b"", Ok(())),
    ];
    for (bytes, answer) in rows {
        let mut sink = WriteSink::new(Picky { is_stuck: false });
        assert_eq!(rt; write_all_bytes(&mut sink, bytes), answer, "at {bytes:?}");
    }
}

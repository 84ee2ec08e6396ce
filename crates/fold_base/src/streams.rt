//! std's readers and writers as a source and a sink.
//!
//! This is the trusted edge: nothing is told of the bytes that pass here, so no proof says that
//! they are the reader's or the writer's.
ghost use Rattle.std.specs.Prelude.{◌≡◌, ◌≤◌, ◌<◌, None, length, is_ok, IfOk, IfSome};
ghost use Rattle.fold_base.specs.Outside.{HasCause, Gives, Gains, MarksEnd, bytes_moved, count_after};

use crate::{Failed, Sink, Source};
use std::io::{Read, Write};

/// A reader as a source. Each error that it answers is a fault.
#[derive(Debug, Drop)]
pub struct ReadSource<R> {
    reader: R,
    faults: u64,
}

impl<R: Read> ReadSource<R> {
    ghost use Rattle.fold_base.specs.Streams.{read_faults};

    pub fn new(reader: R) -> ReadSource<R>
        ensures { read_faults result ≡ 0 }
    {
        ReadSource { reader, faults: 0 }
    }
}

impl<R: Read> Source for ReadSource<R> {
    ghost use Rattle.fold_base.specs.Streams.{read_faults};

    ghost left = { λ _. None };

    ghost faults = { λ s. read_faults s };

    fn take(&mut self, room: &mut [u8]) -> Result<usize, Failed>
        requires { 0 < length room.old }
        ensures within { IfOk result (λ n. n ≤ length room.new) }
        ensures bytes { Gives None None (bytes_moved result room.new) }
        ensures end { IfOk result (MarksEnd None) }
        ensures cause { HasCause (read_faults self.old) (read_faults self.new) result }
        ensures count { read_faults self.new ≡ count_after (is_ok result) (read_faults self.old) }
    {
        match self.reader.read(room) {
            Ok(count) => Ok(count),
            Err(_) => {
                self.faults = self.faults.saturating_add(1);
                Err(Failed)
            }
        }
    }
}

/// A writer as a sink, flushed after each write. An error, a write that takes nothing and a flush
/// that fails are faults.
#[derive(Debug, Drop)]
pub struct WriteSink<W> {
    writer: W,
    faults: u64,
}

impl<W: Write> WriteSink<W> {
    ghost use Rattle.fold_base.specs.Streams.{write_faults};

    pub fn new(writer: W) -> WriteSink<W>
        ensures { write_faults result ≡ 0 }
    {
        WriteSink { writer, faults: 0 }
    }

    // Writes and flushes. Says how many bytes were taken, if any were and all went well.
    fn write_piece(&mut self, bytes: &[u8]) -> Option<usize>
        ensures some { IfSome result (λ n. 0 < n) }
        ensures within { IfSome result (λ n. n ≤ length bytes.now) }
        ensures faults { self.new.faults ≡ self.old.faults }
    {
        let count = self.writer.write(bytes).ok()?;
        self.writer.flush().ok()?;
        if count == 0 { None } else { Some(count) }
    }
}

impl<W: Write> Sink for WriteSink<W> {
    ghost use Rattle.fold_base.specs.Streams.{write_faults};

    ghost written = { λ _. None };

    ghost faults = { λ s. write_faults s };

    fn put(&mut self, bytes: &[u8]) -> Result<usize, Failed>
        requires { 0 < length bytes.now }
        ensures some { IfOk result (λ n. 0 < n) }
        ensures within { IfOk result (λ n. n ≤ length bytes.now) }
        ensures bytes { Gains None None (bytes_moved result bytes.now) }
        ensures cause { HasCause (write_faults self.old) (write_faults self.new) result }
        ensures count { write_faults self.new ≡ count_after (is_ok result) (write_faults self.old) }
    {
        match self.write_piece(bytes) {
            Some(count) => Ok(count),
            None => {
                self.faults = self.faults.saturating_add(1);
                Err(Failed)
            }
        }
    }
}

// A source and a sink in memory, whose calls fail by a plan.
ghost use Rattle.std.specs.Prelude.{◌≡◌, ◌↔◌, ◌⊎◌, ◌+◌, ◌-◌, ◌≤◌, ◌<◌, [], List as Items, ℕ, length, take, min, max, vec_len, vec_capacity, IsErr, is_ok, IfOk, Some};
ghost use Rattle.fold_base.specs.Outside.{HasCause, Gives, Gains, MarksEnd, bytes_moved};

use crate::plan::Plan;
use crate::remaining::Remaining;
use crate::{Failed, List, Sink, Source};
use std::alloc::{AllocError, Global};

/// Gives bytes of its own in pieces, and fails in chosen calls.
#[derive(Debug, Drop)]
pub struct MemorySource {
    remaining: Remaining,
    piece: u32,
    plan: Plan,
    ghost some: { 0 < piece },
}

impl MemorySource {
    ghost use Rattle.fold_base.specs.Memory.{source_left, source_piece, source_plan};
    ghost use Rattle.fold_base.specs.Plan.{fresh};

    /// Gives at most `piece` bytes a call, or one where that is 0, and fails in the calls with the
    /// numbers in `failing`, counted from 1.
    pub fn new(bytes: List<u8>, piece: u32, failing: List<u64>) -> MemorySource
        ensures bytes { source_left result ≡ bytes }
        ensures piece { source_piece result ≡ max piece 1 }
        ensures plan { source_plan result ≡ fresh failing }
    {
        MemorySource {
            remaining: Remaining::new(bytes),
            piece: piece.max(1),
            plan: Plan::new(failing),
        }
    }
}

impl Source for MemorySource {
    ghost use Rattle.fold_base.specs.Memory.{source_left, source_piece, source_plan};
    ghost use Rattle.fold_base.specs.Plan.{FailsNext, after_call};

    ghost left = { λ s. Some (source_left s) };

    ghost faults = { λ s. (source_plan s).faults };

    fn take(&mut self, room: &mut [u8]) -> Result<usize, Failed>
        requires { 0 < length room.old }
        ensures within { IfOk result (λ n. n ≤ length room.new) }
        ensures bytes { Gives (Some (source_left self.old)) (Some (source_left self.new)) (bytes_moved result room.new) }
        ensures end { IfOk result (MarksEnd (Some (source_left self.old))) }
        ensures cause { HasCause (source_plan self.old).faults (source_plan self.new).faults result }

        // It fails exactly as planned, and else gives as much as it can.
        ensures planned { IsErr result ↔ FailsNext (source_plan self.old) }
        ensures amount { IfOk result (λ n. n ≡ min (source_piece self.old) (min (length (source_left self.old)) (length room.old))) }
        ensures piece { source_piece self.new ≡ source_piece self.old }
        ensures plan { source_plan self.new ≡ after_call (is_ok result) (source_plan self.old) }
    {
        self.plan.start_call(true)?;
        Ok(self.remaining.give(self.piece as usize, room))
    }
}

/// Keeps bytes in a room that is made first, takes them in pieces, and fails in chosen calls.
#[derive(Debug, Drop)]
pub struct MemorySink {
    bytes: Vec<u8>,
    room: usize,
    piece: u32,
    plan: Plan,
    ghost some: { 0 < piece },
    ghost roomy: { vec_len bytes + room ≤ vec_capacity bytes },
}

impl MemorySink {
    ghost use Rattle.fold_base.specs.Memory.{sink_bytes, sink_room, sink_piece, sink_plan};
    ghost use Rattle.fold_base.specs.Plan.{fresh};

    /// Makes room for `room` bytes. A put takes at most `piece` of them, or one where that is 0,
    /// and fails where no room is left or its number, counted from 1, is in `failing`.
    pub fn new(
        alloc: Global,
        piece: u32,
        failing: List<u64>,
        room: u32,
    ) -> Result<MemorySink, AllocError>
        ensures bytes { IfOk result (λ s. sink_bytes s ≡ []) }
        ensures room { IfOk result (λ s. sink_room s ≡ room) }
        ensures piece { IfOk result (λ s. sink_piece s ≡ max piece 1) }
        ensures plan { IfOk result (λ s. sink_plan s ≡ fresh failing) }
    {
        let room = room as usize;
        let bytes = Vec::with_capacity(alloc, room)?;
        Ok(MemorySink {
            bytes,
            room,
            piece: piece.max(1),
            plan: Plan::new(failing),
        })
    }

    /// What was written.
    pub fn bytes(&self) -> &[u8]
        ensures { result.now ≡ sink_bytes self.now }
    {
        self.bytes.as_slice()
    }
}

impl Sink for MemorySink {
    ghost use Rattle.fold_base.specs.Memory.{sink_bytes, sink_room, sink_piece, sink_plan};
    ghost use Rattle.fold_base.specs.Plan.{FailsNext, after_call};

    ghost written = { λ s. Some (sink_bytes s) };

    ghost faults = { λ s. (sink_plan s).faults };

    fn put(&mut self, bytes: &[u8]) -> Result<usize, Failed>
        requires { 0 < length bytes.now }
        ensures some { IfOk result (λ n. 0 < n) }
        ensures within { IfOk result (λ n. n ≤ length bytes.now) }
        ensures bytes { Gains (Some (sink_bytes self.old)) (Some (sink_bytes self.new)) (bytes_moved result bytes.now) }
        ensures cause { HasCause (sink_plan self.old).faults (sink_plan self.new).faults result }

        // It fails exactly as planned or where no room is left, and else takes as much as it can.
        ensures planned { IsErr result ↔ (FailsNext (sink_plan self.old) ⊎ (sink_room self.old ≡ 0)) }
        ensures amount { IfOk result (λ n. n ≡ min (sink_piece self.old) (min (sink_room self.old) (length bytes.now))) }
        ensures room { sink_room self.new + length (bytes_moved result bytes.now) ≡ sink_room self.old }
        ensures piece { sink_piece self.new ≡ sink_piece self.old }
        ensures plan { sink_plan self.new ≡ after_call (is_ok result) (sink_plan self.old) }
    {
        self.plan.start_call(self.room > 0)?;
        let count = (self.piece as usize).min(self.room.min(bytes.len()));
        // Room was made for them.
        self.bytes.extend_from_slice(&bytes[..count]).unwrap();
        self.room -= count;
        Ok(count)
    }
}

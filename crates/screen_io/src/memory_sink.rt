//! A sink in memory that fails where it is told to.
ghost use Rattle.std.specs.Prelude.{◌+◌, ◌≤◌, vec_len, vec_capacity};

use crate::calls::Calls;
use crate::sink::Sink;
use crate::source::Failed;
use std::alloc::{AllocError, Global};

/// A sink in memory, with room for so many bytes. It takes only so many bytes in a call, and fails at
/// the calls that it is told. Once made, it takes no memory.
#[derive(Drop)]
pub struct MemSink {
    held: Vec<u8>,
    room: usize,
    most: usize,
    calls: Calls,
    ghost fits: { vec_len held + room ≤ vec_capacity held },
    ghost some: { 1 ≤ most },
}

impl MemSink {
    ghost use Rattle.std.specs.Prelude.{◌≡◌, ◌≤◌, [], IfOk};
    ghost use Rattle.screen_io.specs.Calls.{IsNew};
    ghost use Rattle.screen_io.specs.Memory.{sink_held, sink_room, sink_most, sink_calls, sink_faults};

    /// A sink with room for `room` bytes, which is taken now. It takes at most `most` bytes in a call
    /// and fails at the calls whose numbers, counted from 1, stand in `fails`; writes and finishes
    /// are counted together.
    pub fn new(
        alloc: Global,
        room: usize,
        fails: Vec<u64>,
        most: usize,
    ) -> Result<MemSink, AllocError>
        requires { 1 ≤ most }
        ensures held { IfOk result (λ sink. sink_held sink ≡ []) }
        ensures room { IfOk result (λ sink. sink_room sink ≡ room) }
        ensures most { IfOk result (λ sink. sink_most sink ≡ most) }
        ensures calls { IfOk result (λ sink. IsNew (sink_calls sink) fails.items) }
    {
        Ok(MemSink {
            held: Vec::with_capacity(alloc, room)?,
            room,
            most,
            calls: Calls::new(fails),
        })
    }

    /// The bytes that it holds.
    pub fn held_bytes(&self) -> &[u8]
        ensures { result.now ≡ sink_held self.now }
    {
        self.held.as_slice()
    }

    /// How many calls have failed.
    pub fn fault_count(&self) -> u64
        ensures { result ≡ sink_faults self.now }
    {
        self.calls.fault_count()
    }
}

impl Sink for MemSink {
    ghost use Rattle.std.specs.Prelude.{◌≡◌, ◌+◌, ◌<◌, ◌≤◌, ◌⊎◌, ◌↔◌, min, length, take, Some, IfOk, OnOk, OnErr, IsErr};
    ghost use Rattle.screen_io.specs.Calls.{FailsNext, IsCounted, one_more};
    ghost use Rattle.screen_io.specs.Faults.{CountsFailure};
    ghost use Rattle.screen_io.specs.Memory.{sink_held, sink_room, sink_most, sink_calls, sink_faults};
    ghost use Rattle.screen_io.specs.Sink.{Gains};

    ghost held = { λ sink. Some (sink_held sink) };

    ghost faults = { sink_faults };

    fn write(&mut self, bytes: &[u8]) -> Result<usize, Failed>
        ensures bound { IfOk result (λ count. count ≤ length bytes.now) }
        ensures some { IfOk result (λ count. 0 < length bytes.now → 0 < count) }
        ensures gains { IfOk result (λ count. Gains (Some (sink_held self.old)) (take count bytes.now) (Some (sink_held self.new))) }
        ensures kept { OnErr result (sink_held self.new ≡ sink_held self.old) }
        ensures cause { CountsFailure (sink_faults self.old) (sink_faults self.new) result }
        ensures unfailed { OnOk result (sink_faults self.new ≡ sink_faults self.old) }

        ensures amount { IfOk result (λ count. count ≡ min (length bytes.now) (min (sink_most self.old) (sink_room self.old))) }
        ensures fails { IsErr result ↔ (FailsNext (sink_calls self.old) ⊎ ((0 < length bytes.now) × (sink_room self.old ≡ 0))) }
        ensures counted { IsCounted (sink_calls self.old) (sink_calls self.new) }
        ensures one_fault { OnErr result (sink_faults self.new ≡ one_more (sink_faults self.old)) }
        ensures same_most { sink_most self.new ≡ sink_most self.old }
        ensures same_room { sink_room self.new + length (sink_held self.new) ≡ sink_room self.old + length (sink_held self.old) }
    {
        self.calls.begin()?;
        let count = bytes.len().min(self.most.min(self.room));
        if count == 0 && !bytes.is_empty() {
            return Err(self.calls.fail());
        }
        self.held.extend_from_slice(&bytes[..count]).unwrap();
        self.room -= count;
        Ok(count)
    }

    fn finish(&mut self) -> Result<(), Failed>
        ensures kept { Some (sink_held self.new) ≡ Some (sink_held self.old) }
        ensures cause { CountsFailure (sink_faults self.old) (sink_faults self.new) result }
        ensures unfailed { OnOk result (sink_faults self.new ≡ sink_faults self.old) }

        ensures fails { IsErr result ↔ FailsNext (sink_calls self.old) }
        ensures counted { IsCounted (sink_calls self.old) (sink_calls self.new) }
        ensures one_fault { OnErr result (sink_faults self.new ≡ one_more (sink_faults self.old)) }
        ensures same_most { sink_most self.new ≡ sink_most self.old }
        ensures same_room { sink_room self.new + length (sink_held self.new) ≡ sink_room self.old + length (sink_held self.old) }
    {
        self.calls.begin()
    }
}

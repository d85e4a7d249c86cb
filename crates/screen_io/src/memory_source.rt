//! A source in memory that fails where it is told to.
ghost use Rattle.std.specs.Prelude.{◌≤◌};

use crate::calls::Calls;
use crate::honest_source::HonestSource;
use crate::source::{Failed, Source};

/// A source over bytes in memory. It gives only so many bytes in a call, and fails at the calls that
/// it is told. It takes no memory.
#[derive(Drop)]
pub struct MemSource {
    unread: HonestSource,
    most: usize,
    calls: Calls,
    ghost some: { 1 ≤ most },
}

impl MemSource {
    ghost use Rattle.std.specs.Prelude.{◌≡◌, ◌≤◌};
    ghost use Rattle.screen_io.specs.Calls.{IsNew};
    ghost use Rattle.screen_io.specs.Memory.{source_left, source_most, source_calls, source_faults};

    /// A source of `bytes` that gives at most `most` of them in a call and fails at the calls whose
    /// numbers, counted from 1, stand in `fails`.
    pub fn new(bytes: Vec<u8>, fails: Vec<u64>, most: usize) -> MemSource
        requires { 1 ≤ most }
        ensures left { source_left result ≡ bytes.items }
        ensures most { source_most result ≡ most }
        ensures calls { IsNew (source_calls result) fails.items }
    {
        MemSource {
            unread: HonestSource::new(bytes),
            most,
            calls: Calls::new(fails),
        }
    }

    /// How many calls have failed.
    pub fn fault_count(&self) -> u64
        ensures { result ≡ source_faults self.now }
    {
        self.calls.fault_count()
    }
}

impl Source for MemSource {
    ghost use Rattle.std.specs.Prelude.{◌≡◌, ◌≤◌, ◌↔◌, min, length, Some, IfOk, OnOk, OnErr, IsErr};
    ghost use Rattle.screen_io.specs.Calls.{FailsNext, IsCounted, one_more};
    ghost use Rattle.screen_io.specs.Faults.{CountsFailure};
    ghost use Rattle.screen_io.specs.Memory.{source_left, source_most, source_calls, source_faults};
    ghost use Rattle.screen_io.specs.Source.{TakesInto};

    ghost left = { λ source. Some (source_left source) };

    ghost faults = { source_faults };

    fn read(&mut self, buf: &mut [u8]) -> Result<usize, Failed>
        ensures bound { IfOk result (λ count. count ≤ length buf.new) }
        ensures bytes { IfOk result (λ count. TakesInto (Some (source_left self.old)) (Some (source_left self.new)) buf.new count) }
        ensures kept { OnErr result (source_left self.new ≡ source_left self.old) }
        ensures cause { CountsFailure (source_faults self.old) (source_faults self.new) result }
        ensures unfailed { OnOk result (source_faults self.new ≡ source_faults self.old) }

        ensures amount { IfOk result (λ count. count ≡ min (length (source_left self.old)) (min (length buf.new) (source_most self.old))) }
        ensures fails { IsErr result ↔ FailsNext (source_calls self.old) }
        ensures counted { IsCounted (source_calls self.old) (source_calls self.new) }
        ensures one_fault { OnErr result (source_faults self.new ≡ one_more (source_faults self.old)) }
        ensures same_most { source_most self.new ≡ source_most self.old }
    {
        self.calls.begin()?;
        let room = buf.len().min(self.most);
        Ok(self.unread.give(&mut buf[..room]))
    }
}

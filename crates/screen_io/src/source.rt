//! What a source of bytes promises.
ghost use Rattle.std.specs.Prelude.{◌≡◌, ◌≤◌, List, ℕ, length, Option, IfOk, OnOk, OnErr};
ghost use Rattle.screen_io.specs.Faults.{CountsFailure};
ghost use Rattle.screen_io.specs.Source.{TakesInto};

use thiserror::Error;

/// A call on a source or a sink failed. The object that failed has counted the fault.
#[derive(Clone, Copy, Debug, PartialEq, Eq, Error)]
#[error("a call on a source or a sink failed")]
pub struct Failed;

/// Bytes that come in.
pub trait Source {
    /// The bytes that are left, where the source tells them.
    ghost left: { Self → Option (List ℕ) };

    /// How many calls have failed. The count never falls, and stands still at its last value.
    ghost faults: { Self → ℕ };

    /// Reads the next bytes into `buf` and answers how many: at least one where `buf` has room,
    /// unless the source is at its end. A failure leaves the bytes that are left as they were.
    fn read(&mut self, buf: &mut [u8]) -> Result<usize, Failed>
        ensures bound { IfOk result (λ count. count ≤ length buf.new) }
        ensures bytes { IfOk result (λ count. TakesInto (left self.old) (left self.new) buf.new count) }
        ensures kept { OnErr result (left self.new ≡ left self.old) }
        ensures cause { CountsFailure (faults self.old) (faults self.new) result }
        ensures unfailed { OnOk result (faults self.new ≡ faults self.old) };
}

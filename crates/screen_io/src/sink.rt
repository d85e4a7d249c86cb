//! What a sink of bytes promises.
ghost use Rattle.std.specs.Prelude.{◌≡◌, ◌<◌, ◌≤◌, List, ℕ, length, take, Option, IfOk, OnOk, OnErr};
ghost use Rattle.screen_io.specs.Faults.{CountsFailure};
ghost use Rattle.screen_io.specs.Sink.{Gains};

use crate::source::Failed;

/// Bytes that go out.
pub trait Sink {
    /// The bytes that it holds, where the sink tells them.
    ghost held: { Self → Option (List ℕ) };

    /// How many calls have failed. The count never falls, and stands still at its last value.
    ghost faults: { Self → ℕ };

    /// Takes bytes from the front of `bytes` and answers how many: at least one, unless there are
    /// none. A failure leaves what is held as it was.
    fn write(&mut self, bytes: &[u8]) -> Result<usize, Failed>
        ensures bound { IfOk result (λ count. count ≤ length bytes.now) }
        ensures some { IfOk result (λ count. 0 < length bytes.now → 0 < count) }
        ensures gains { IfOk result (λ count. Gains (held self.old) (take count bytes.now) (held self.new)) }
        ensures kept { OnErr result (held self.new ≡ held self.old) }
        ensures cause { CountsFailure (faults self.old) (faults self.new) result }
        ensures unfailed { OnOk result (faults self.new ≡ faults self.old) };

    /// Hands on what is buffered. What is held stays as it is.
    fn finish(&mut self) -> Result<(), Failed>
        ensures kept { held self.new ≡ held self.old }
        ensures cause { CountsFailure (faults self.old) (faults self.new) result }
        ensures unfailed { OnOk result (faults self.new ≡ faults self.old) };
}

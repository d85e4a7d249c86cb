//! The calls of a source or a sink in memory, of which some are to fail.
use crate::source::Failed;

/// The calls of a source or a sink in memory: how many were made, which ones fail, and how many did.
#[derive(Drop)]
pub struct Calls {
    failing: Vec<u64>,
    made: u64,
    faults: u64,
}

impl Calls {
    ghost use Rattle.std.specs.Prelude.{◌≡◌, ◌≤◌, ◌↔◌, IsErr, OnOk, OnErr};
    ghost use Rattle.screen_io.specs.Faults.{CountsFailure};
    ghost use Rattle.screen_io.specs.Calls.{one_more, FailsNext, IsCounted, IsNew};

    /// No call was made yet; those whose numbers stand in `failing`, counted from 1, will fail.
    pub fn new(failing: Vec<u64>) -> Calls
        ensures { IsNew result failing.items }
    {
        Calls {
            failing,
            made: 0,
            faults: 0,
        }
    }

    /// How many calls have failed.
    pub fn fault_count(&self) -> u64
        ensures { result ≡ self.now.faults }
    {
        self.faults
    }

    /// Counts a call, and its fault where it is one that fails.
    pub fn begin(&mut self) -> Result<(), Failed>
        ensures fails { IsErr result ↔ FailsNext self.old }
        ensures counted { IsCounted self.old self.new }
        ensures cause { CountsFailure self.old.faults self.new.faults result }
        ensures succeeded { OnOk result (self.new.faults ≡ self.old.faults) }
        ensures failed { OnErr result (self.new.faults ≡ one_more self.old.faults) }
    {
        self.made = self.made.saturating_add(1);
        if self.failing.contains(&self.made) {
            return Err(self.fail());
        }
        Ok(())
    }

    /// Counts a fault of the call that is under way.
    pub fn fail(&mut self) -> Failed
        ensures faults { self.new.faults ≡ one_more self.old.faults }
        ensures later { self.old.faults ≤ self.new.faults }
        ensures made { self.new.made ≡ self.old.made }
        ensures failing { self.new.failing.items ≡ self.old.failing.items }
    {
        self.faults = self.faults.saturating_add(1);
        Failed
    }
}

//! How a run ends.
ghost use Rattle.std.specs.Prelude.{◌≡◌};
ghost use Rattle.screen_words.specs.Ending.{code_of, status_of};

use crate::step::StepFault;
use bound_maker::MakeFault;
use cert_check::CertFault;
use global_repair::RepairFault;
use online_repair::OnlineFault;
use rule_file::RuleFault;
use series_csv::TableFault;
use std::alloc::AllocError;

/// How a run ended, as its exit status tells it.
#[derive(Clone, Copy, Debug, PartialEq, Eq)]
pub enum Status {
    /// 0: all that the command writes is written.
    Done,
    /// 1: no series obeys the rules.
    NoSeries,
    /// 2: the words ask for no command.
    Usage,
    /// 3: the rules are refused, or the online repair can't go by them.
    RulesRefused,
    /// 4: the readings are refused, the rules make too many bounds of them, or their online repair can't go on.
    ReadingsRefused,
    /// 5: a read failed.
    ReadFault,
    /// 6: a write failed.
    WriteFault,
    /// 7: memory ran out.
    Memory,
    /// 8: the certificate is refused.
    CertRefused,
}

impl Status {
    /// The exit status of the program.
    pub fn code(&self) -> u8
        ensures { result ≡ code_of self.now }
    {
        match self {
            Status::Done => 0,
            Status::NoSeries => 1,
            Status::Usage => 2,
            Status::RulesRefused => 3,
            Status::ReadingsRefused => 4,
            Status::ReadFault => 5,
            Status::WriteFault => 6,
            Status::Memory => 7,
            Status::CertRefused => 8,
        }
    }
}

/// What a command comes to, with what is refused.
#[derive(Clone, Copy, Debug, PartialEq, Eq)]
pub enum Outcome {
    /// All that the command writes is written.
    Done,
    /// No series obeys the rules.
    NoSeries,
    /// The words ask for no command.
    Usage,
    /// The rules are refused.
    RulesRefused(RuleFault),
    /// The online repair can't go by a rule: it is no speed rule, or names the sensor of a rule of a lower number.
    NotOnline {
        /// The number of the first such rule.
        rule: u32,
    },
    /// The readings are refused.
    ReadingsRefused(TableFault),
    /// The rules make more than 4,000,000 bounds of the readings.
    TooManyBounds,
    /// The online repair holds as many rows as it may, and a row makes none of them ready.
    WindowFull {
        /// The row, counted from 1.
        row: u32,
    },
    /// No whole step leads to a reading from the one before.
    NoWholeStep {
        /// The row, counted from 1.
        row: u32,
        /// The column, counted from 1.
        col: u32,
    },
    /// A value that the online repair finds is more than 10^15 units in size.
    LeavesRange {
        /// The row, counted from 1.
        row: u32,
        /// The column, counted from 1.
        col: u32,
    },
    /// The certificate is refused.
    CertRefused(CertFault),
}

/// How a run ended.
#[derive(Clone, Copy, Debug, PartialEq, Eq)]
pub enum Ending {
    /// The command came to this, and all of its texts are written.
    Ended(Outcome),
    /// A read failed.
    ReadFault,
    /// A write failed.
    WriteFault,
    /// Memory ran out.
    Memory,
}

impl Ending {
    /// The status of a run that ended so.
    pub fn status(&self) -> Status
        ensures { result ≡ status_of self.now }
    {
        match self {
            Ending::Ended(Outcome::Done) => Status::Done,
            Ending::Ended(Outcome::NoSeries) => Status::NoSeries,
            Ending::Ended(Outcome::Usage) => Status::Usage,
            Ending::Ended(Outcome::RulesRefused(_) | Outcome::NotOnline { .. }) => {
                Status::RulesRefused
            }
            Ending::Ended(
                Outcome::ReadingsRefused(_)
                | Outcome::TooManyBounds
                | Outcome::WindowFull { .. }
                | Outcome::NoWholeStep { .. }
                | Outcome::LeavesRange { .. },
            ) => Status::ReadingsRefused,
            Ending::Ended(Outcome::CertRefused(_)) => Status::CertRefused,
            Ending::ReadFault => Status::ReadFault,
            Ending::WriteFault => Status::WriteFault,
            Ending::Memory => Status::Memory,
        }
    }
}

impl From<AllocError> for Ending {
    ghost use Rattle.std.specs.Prelude.{◌≡◌};
    ghost use Rattle.screen_words.specs.declared.status.Ending.TheVariants.{Memory};

    ghost from_gives = { λ _ ending. ending ≡ Memory };

    fn from(_: AllocError) -> Ending {
        Ending::Memory
    }
}

impl From<StepFault<RuleFault>> for Ending {
    ghost use Rattle.std.specs.Prelude.{◌≡◌};
    ghost use Rattle.screen_words.specs.Faults.{rules_ending};

    ghost from_gives = { λ fault ending. ending ≡ rules_ending fault };

    fn from(fault: StepFault<RuleFault>) -> Ending {
        match fault {
            StepFault::TooLong => Ending::Ended(Outcome::RulesRefused(RuleFault::too_long())),
            StepFault::Refused(fault) => Ending::Ended(Outcome::RulesRefused(fault)),
            StepFault::Failed => Ending::ReadFault,
            StepFault::Memory => Ending::Memory,
        }
    }
}

impl From<StepFault<TableFault>> for Ending {
    ghost use Rattle.std.specs.Prelude.{◌≡◌};
    ghost use Rattle.screen_words.specs.Faults.{readings_ending};

    ghost from_gives = { λ fault ending. ending ≡ readings_ending fault };

    fn from(fault: StepFault<TableFault>) -> Ending {
        match fault {
            StepFault::TooLong => Ending::Ended(Outcome::ReadingsRefused(TableFault::too_long())),
            StepFault::Refused(fault) => Ending::Ended(Outcome::ReadingsRefused(fault)),
            StepFault::Failed => Ending::ReadFault,
            StepFault::Memory => Ending::Memory,
        }
    }
}

impl From<StepFault<CertFault>> for Ending {
    ghost use Rattle.std.specs.Prelude.{◌≡◌};
    ghost use Rattle.screen_words.specs.Faults.{cert_ending};

    ghost from_gives = { λ fault ending. ending ≡ cert_ending fault };

    fn from(fault: StepFault<CertFault>) -> Ending {
        match fault {
            StepFault::TooLong => Ending::Ended(Outcome::CertRefused(CertFault::FileTooLong)),
            StepFault::Refused(fault) => Ending::Ended(Outcome::CertRefused(fault)),
            StepFault::Failed => Ending::ReadFault,
            StepFault::Memory => Ending::Memory,
        }
    }
}

impl From<MakeFault> for Ending {
    ghost use Rattle.std.specs.Prelude.{◌≡◌};
    ghost use Rattle.screen_words.specs.Faults.{make_ending};

    ghost from_gives = { λ fault ending. ending ≡ make_ending fault };

    fn from(fault: MakeFault) -> Ending {
        match fault {
            MakeFault::TooManyBounds => Ending::Ended(Outcome::TooManyBounds),
            MakeFault::Memory => Ending::Memory,
        }
    }
}

impl From<RepairFault> for Ending {
    ghost use Rattle.std.specs.Prelude.{◌≡◌};
    ghost use Rattle.screen_words.specs.Faults.{repair_ending};

    ghost from_gives = { λ fault ending. ending ≡ repair_ending fault };

    fn from(fault: RepairFault) -> Ending {
        match fault {
            RepairFault::TooManyBounds => Ending::Ended(Outcome::TooManyBounds),
            RepairFault::Memory => Ending::Memory,
        }
    }
}

impl From<OnlineFault> for Ending {
    ghost use Rattle.std.specs.Prelude.{◌≡◌};
    ghost use Rattle.screen_words.specs.Faults.{online_ending};

    ghost from_gives = { λ fault ending. ending ≡ online_ending fault };

    fn from(fault: OnlineFault) -> Ending {
        match fault {
            OnlineFault::NotOnline { rule } => Ending::Ended(Outcome::NotOnline { rule }),
            OnlineFault::Table(fault) => Ending::Ended(Outcome::ReadingsRefused(fault)),
            OnlineFault::WindowFull { row } => Ending::Ended(Outcome::WindowFull { row }),
            OnlineFault::NoWholeStep { row, col } => {
                Ending::Ended(Outcome::NoWholeStep { row, col })
            }
            OnlineFault::LeavesRange { row, col } => {
                Ending::Ended(Outcome::LeavesRange { row, col })
            }
            OnlineFault::Memory => Ending::Memory,
        }
    }
}

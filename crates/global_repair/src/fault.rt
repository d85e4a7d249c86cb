//! Why there is no answer.

use bound_maker::MakeFault;
use std::alloc::AllocError;

/// Why a table is neither repaired nor known to have no repair.
#[derive(Clone, Copy, Debug, PartialEq, Eq, thiserror::Error, Drop)]
pub enum RepairFault {
    /// There are more than 4,000,000 bounds.
    #[error("there are more than 4,000,000 bounds")]
    TooManyBounds = 1,
    /// Memory ran out.
    #[error("out of memory")]
    Memory,
}

impl From<MakeFault> for RepairFault {
    ghost use Rattle.std.specs.Prelude.{◌≡◌};
    ghost use Rattle.bound_maker.specs.declared.maker.MakeFault.TheVariants as make;
    ghost use Rattle.global_repair.specs.declared.fault.RepairFault.TheVariants.{TooManyBounds, Memory};

    ghost from_gives = { λ fault given. (fault ≡ make.TooManyBounds → given ≡ TooManyBounds) × (fault ≡ make.Memory → given ≡ Memory) };

    fn from(fault: MakeFault) -> RepairFault {
        match fault {
            MakeFault::TooManyBounds => RepairFault::TooManyBounds,
            MakeFault::Memory => RepairFault::Memory,
        }
    }
}

impl From<AllocError> for RepairFault {
    ghost use Rattle.std.specs.Prelude.{◌≡◌};
    ghost use Rattle.global_repair.specs.declared.fault.RepairFault.TheVariants.{Memory};

    ghost from_gives = { λ _ fault. fault ≡ Memory };

    fn from(_: AllocError) -> RepairFault {
        RepairFault::Memory
    }
}

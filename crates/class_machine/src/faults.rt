// Why a step was not made.
ghost use Rattle.std.specs.Prelude.{◌≡◌};
ghost use Rattle.class_machine.specs.declared.faults.Fault.TheVariants as fault;
ghost use Rattle.class_machine.specs.Faults.{fault_of};

use kc_io::OutFault;
use kc_text::Memory;
use std::alloc::{AllocError, AllocFailed};

/// Why a step was not made.
#[derive(Clone, Copy, Debug, PartialEq, Eq)]
pub enum Fault {
    /// A write failed.
    Write,
    /// An allocation failed.
    Memory,
}

impl From<AllocError> for Fault {
    ghost from_gives = { λ _ cause. cause ≡ fault.Memory };

    fn from(_refused: AllocError) -> Fault {
        Fault::Memory
    }
}

impl<T: Drop> From<AllocFailed<T>> for Fault {
    ghost from_gives = { λ _ cause. cause ≡ fault.Memory };

    fn from(_refused: AllocFailed<T>) -> Fault {
        Fault::Memory
    }
}

impl From<Memory> for Fault {
    ghost from_gives = { λ _ cause. cause ≡ fault.Memory };

    fn from(_refused: Memory) -> Fault {
        Fault::Memory
    }
}

impl From<OutFault> for Fault {
    ghost from_gives = { λ refused cause. cause ≡ fault_of refused };

    fn from(refused: OutFault) -> Fault {
        match refused {
            OutFault::Failed => Fault::Write,
            OutFault::Memory => Fault::Memory,
        }
    }
}

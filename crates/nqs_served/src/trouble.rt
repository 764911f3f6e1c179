//! Why days can't be printed.

use nqs_base::Memory;
use nqs_schedule::ScheduleFault;
use nqs_store::{LoadFault, StoreFault};
use std::alloc::{AllocError, AllocFailed};

/// Why days can't be printed, in words. No day here is to bring it.
#[derive(Clone, Copy)]
pub(crate) struct Trouble(pub &'static str);

const MEMORY: Trouble = Trouble("out of memory");

impl From<Memory> for Trouble {
    fn from(_: Memory) -> Trouble {
        MEMORY
    }
}

impl From<AllocError> for Trouble {
    fn from(_: AllocError) -> Trouble {
        MEMORY
    }
}

impl<T: Drop> From<AllocFailed<T>> for Trouble {
    fn from(_: AllocFailed<T>) -> Trouble {
        MEMORY
    }
}

impl From<ScheduleFault> for Trouble {
    fn from(_: ScheduleFault) -> Trouble {
        Trouble("a schedule can't be read")
    }
}

impl From<StoreFault> for Trouble {
    fn from(_: StoreFault) -> Trouble {
        Trouble("a host can't be formatted")
    }
}

impl From<LoadFault> for Trouble {
    fn from(_: LoadFault) -> Trouble {
        Trouble("disks tell no host")
    }
}

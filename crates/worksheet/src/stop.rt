//! Why a line is not performed.
use faults::Fault;
use std::alloc::{AllocError, AllocFailed};

/// Why a line has no answer.
#[derive(Drop)]
pub enum Stop {
    /// The line is not understood, or cannot be performed as things are.
    Unknown(&'static str),
    /// The library refuses it.
    Refused(Fault),
    /// There is no memory for the page.
    Memory(AllocError),
}

impl From<Fault> for Stop {
    fn from(fault: Fault) -> Stop {
        Stop::Refused(fault)
    }
}

impl From<AllocError> for Stop {
    fn from(error: AllocError) -> Stop {
        Stop::Memory(error)
    }
}

impl<T: Drop> From<AllocFailed<T>> for Stop {
    fn from(error: AllocFailed<T>) -> Stop {
        Stop::Memory(AllocError::from(error))
    }
}

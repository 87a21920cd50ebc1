//! Why a run has no result.

use std::alloc::{AllocError, AllocFailed};
use std::fmt;

/// Why a run has no result.
#[derive(Debug, Drop)]
pub enum Stop {
    /// The input is invalid. The text says where and why.
    Input(String),
    /// The call or a module is invalid. The text says why.
    Call(String),
    /// The output cannot be written.
    Output,
    /// Out of memory.
    Memory,
}

impl Stop {
    /// Returns `Input` with a text, or `Memory` if there is no text.
    pub fn input(text: Result<String, AllocError>) -> Stop {
        match text {
            Ok(text) => Stop::Input(text),
            Err(_) => Stop::Memory,
        }
    }

    /// Returns `Call` with a text, or `Memory` if there is no text.
    pub fn call(text: Result<String, AllocError>) -> Stop {
        match text {
            Ok(text) => Stop::Call(text),
            Err(_) => Stop::Memory,
        }
    }

    /// Returns the status that the program ends with.
    pub fn status(&self) -> u8 {
        match self {
            Stop::Call(_) => 2,
            Stop::Input(_) | Stop::Output | Stop::Memory => 1,
        }
    }
}

impl fmt::Display for Stop {
    fn fmt<W: fmt::Write>(&self, f: &mut fmt::Formatter<W>) -> fmt::Result {
        match self {
            Stop::Input(text) | Stop::Call(text) => f.write_str(text.as_str()),
            Stop::Output => f.write_str("the output cannot be written"),
            Stop::Memory => f.write_str("out of memory"),
        }
    }
}

impl From<AllocError> for Stop {
    fn from(_error: AllocError) -> Stop {
        Stop::Memory
    }
}

impl<T: Drop> From<AllocFailed<T>> for Stop {
    fn from(_error: AllocFailed<T>) -> Stop {
        Stop::Memory
    }
}

//! Errors of reading or writing a whole stream.

use std::alloc::AllocError;
use thiserror::Error;

/// Why a whole stream was not read or written.
#[derive(Clone, Copy, Debug, PartialEq, Eq, Error)]
pub enum StreamError {
    /// The input could not be read, or did not end within 1,048,576 reads.
    #[error("the input cannot be read")]
    Read,
    /// The output could not be written; a front of the octets may have been written.
    #[error("the output cannot be written")]
    Write,
    /// Out of memory.
    #[error("out of memory")]
    Memory,
}

impl From<AllocError> for StreamError {
    ghost use Rattle.std.specs.Prelude.{◌≡◌};
    ghost use Rattle.octet_streams.specs.declared.error.StreamError.TheVariants.{Memory};

    ghost from_gives = { λ _ e. e ≡ Memory };

    fn from(_error: AllocError) -> StreamError {
        StreamError::Memory
    }
}

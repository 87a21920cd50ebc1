//! Why a text has no tables.

use asn1_notation::NotationError;
use std::alloc::{AllocError, AllocFailed};
use thiserror::Error;

/// Why there are no tables of a text.
#[derive(Clone, Copy, Debug, PartialEq, Eq, Drop, Error)]
pub enum SchemaError {
    /// The text has a problem.
    #[error("{0}")]
    Notation(NotationError),
    /// Out of memory.
    #[error("out of memory")]
    Memory,
}

impl From<AllocError> for SchemaError {
    fn from(_error: AllocError) -> SchemaError {
        SchemaError::Memory
    }
}

impl<T: Drop> From<AllocFailed<T>> for SchemaError {
    fn from(_error: AllocFailed<T>) -> SchemaError {
        SchemaError::Memory
    }
}

impl From<NotationError> for SchemaError {
    fn from(error: NotationError) -> SchemaError {
        SchemaError::Notation(error)
    }
}

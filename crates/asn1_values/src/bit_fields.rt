//! Bit fields: numbers, octets, bits, integers, counted integers, identifiers and characters,
//! written one after another after the bits of a buffer or over those of octets, and read back
//! from any bit of a storage.

mod bits;
mod character;
mod counted_integer;
mod error;
mod field;
mod gathered;
mod identifier;
mod integer;
mod number;
mod octets;
mod read;
mod shape;
mod skip;
mod take;
mod view_octets;
mod write;
mod write_at;

pub use error::{ReadError, WriteError};
pub use field::Field;
pub use read::read_fields;
pub use shape::{Shape, shape_of};
pub use write::{write_fields, write_fields_counted};
pub use write_at::write_fields_at;

//! Octet streams, read and written whole.
//!
//! [`read_to_end`] returns all octets of an input, and [`write_all`] writes all octets of a slice
//! and flushes the output. Each works with any reader or writer. What they say of octets holds if
//! those of the stream are known, as over memory. [`StreamError`] says which of the two failed, and
//! [`status_of`] returns the status that a program ends with.
#![tactic(auto)]

mod error;
mod reading;
mod status;
#[cfg(test)]
mod tests;
mod writing;

pub use error::StreamError;
pub use reading::read_to_end;
pub use status::status_of;
pub use writing::write_all;

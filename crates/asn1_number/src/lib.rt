//! Whole numbers of any size and the octets that encode them (X.690 8.3).
//!
//! An [`Integer`] is a whole number: each call is proved by its value alone, whatever its size. Its
//! octets are the shortest that encode it, in two's complement or unsigned. How the integer
//! types read octets, and which octets are shortest, are definitions in `specs/`; `specs/Laws.antt`
//! has what follows from them.
//!
//! # Examples
//!
//! ```
//! use asn1_number::Integer;
//!
//! let number = Integer::from_signed_octets(rt.alloc(), &[0xFF, 0x7F])?;
//! assert!(rt; number.to_i64() == Some(-129));
//! assert!(rt; Integer::from(128u8).signed_octets().as_ref() == [0, 128].as_slice());
//! ```
#![tactic(auto)]

mod constrained;
mod error;
mod from_native;
mod integer;
mod integer_bytes;
mod laws;
mod order;
mod sign_octets;
mod sums;
mod try_from_integer;
mod values;

pub use constrained::ConstrainedInteger;
pub use error::IntegerError;
pub use integer::Integer;
pub use integer_bytes::IntegerBytes;
pub use laws::laws_of_shortest_octets;
pub use sign_octets::without_redundant_sign_octets;
pub use try_from_integer::TryFromIntegerError;
pub use values::{shortest_of, signed_value, unsigned_value};

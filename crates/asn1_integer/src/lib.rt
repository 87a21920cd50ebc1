//! The integer types: one contract for the twelve native types and for `Integer`.
//!
//! [`IntegerType`] speaks of a type's numbers as whole numbers. Its readings are the table of
//! `asn1_number`, and its octets the shortest of the number (X.690 8.3). A law of the trait, which
//! each type proves, says that what is written is read back.
#![tactic(auto)]

mod integer;
mod integer_type;
mod laws;
mod native;
mod read_integer;
mod readings;
mod signed;
mod unsigned;

pub use asn1_number::{
    ConstrainedInteger, Integer, IntegerBytes, IntegerError, TryFromIntegerError,
    laws_of_shortest_octets, shortest_of, signed_value, unsigned_value,
    without_redundant_sign_octets,
};
pub use integer_type::IntegerType;
pub use laws::laws_of_wrapping;
pub use read_integer::read_signed;

//! The packed encoding rules of X.691, canonical, in both variants.
//!
//! `specs/Fields` defines the fields of encodings: numbers, lengths and strings of octets.
//! `specs/OpenTypes` defines complete encodings and open types. A parameter selects the ALIGNED or
//! the UNALIGNED variant.
#![tactic(auto)]

mod fault;
mod laws;

pub use fault::FaultKind;
pub use laws::{
    laws_of_an_open_type, laws_of_constrained, laws_of_length, laws_of_octets,
    laws_of_semi_constrained, laws_of_small_length, laws_of_small_number, laws_of_string,
    laws_of_types, laws_of_unconstrained,
};

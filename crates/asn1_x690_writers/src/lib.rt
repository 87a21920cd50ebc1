//! Writes the fields of X.690: identifier octets, lengths, and the contents octets of values of one
//! part.
//!
//! A call writes to the octets of its caller, and does not allocate. If they are too few, it
//! returns the index that it would have reached with enough of them. The octets, and those of a
//! source, must be fewer than 2^61.
#![tactic(auto)]

mod bit_strings;
mod bits_in_fragments;
mod enumerations;
mod fragments;
mod identifiers;
mod integers;
mod leaf;
mod lengths;
mod octet_strings;
mod octets;
mod simple;
mod sizes;
mod texts;
mod times;
mod utf8_strings;

pub use identifiers::put_identifier;
pub use leaf::put_leaf;
pub use lengths::put_length_before;
pub use octets::put_span;
pub use sizes::has_size;

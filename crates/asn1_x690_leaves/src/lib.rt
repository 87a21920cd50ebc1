//! Reads the contents octets of the types of one part, as DER has them (X.690 8, 11).
//!
//! A call takes the octets of a message and the span of the contents octets. It returns the part,
//! or the kind of the fault. The message must have fewer than 2^61 octets, and the span must be
//! whole octets inside it.
#![tactic(auto)]

mod bit_strings;
mod booleans;
mod enumerations;
mod identifiers;
mod integers;
mod octets;
mod reals;
mod sizes;
mod strings;
mod texts;
mod times;

pub use bit_strings::{are_bits_permitted, bit_string};
pub use booleans::{boolean, null};
pub use enumerations::enumerated;
pub use identifiers::{
    are_subidentifiers, are_subidentifiers_here, object_identifier, relative_identifier,
};
pub use integers::{integer, integer_at_least, integer_between, is_minimal};
pub use octets::octets_at;
pub use reals::real;
pub use sizes::has_size;
pub use strings::{octet_string, utf8_string};
pub use texts::{are_in, text};
pub use times::time;

//! Writes the fields of the packed encoding rules (X.691), and values of one part.
//!
//! A call writes to the octets of its caller, and does not allocate. If they are too few, it returns
//! the index that it would have reached with enough of them. The octets, and those of a source, must
//! be fewer than 2^61.
//!
//! Functions of fields take a value that must have an encoding, and return the index of the bit after
//! it. Functions of types take a part and the octets in which it has its bits, and move the
//! [`Writer`]. They return `false` if the part has no encoding; then they set the reason, and change
//! nothing else.
//!
//! `specs/Written` defines what octets hold and what a call wrote, and `specs/Put` what a call did
//! with a part.
#![tactic(auto)]

mod bit_strings;
mod bits;
mod bits_in_fragments;
mod booleans;
mod characters;
mod contents;
mod copied;
mod enclosed;
mod enumerations;
mod heads;
mod held;
mod integers;
mod joined;
mod joined_strings;
mod lengths;
mod long_texts;
mod numbers;
mod octet_strings;
mod quick_texts;
mod reserves;
mod sized_strings;
mod sized_texts;
mod spans;
mod state;
mod strings;
mod texts;
mod times;
mod unbounded;
mod unknown;
mod utf8_in_fragments;

pub use bit_strings::put_bit_string;
pub use bits::{after, put_bits, put_number, put_wide};
pub use booleans::{put_bit, put_boolean};
pub use characters::{first_character, other_characters};
pub use contents::{ContentsKind, is_valid, put_contents};
pub use enclosed::put_length_before;
pub use enumerations::{natural, put_enumerated};
pub use heads::put_start;
pub use held::{Held, bit_at, integer_of, strip_signs};
pub use integers::{put_integer, put_integer_at_least, put_integer_between};
pub use joined::{put_fragments, size_of_fragments};
pub use lengths::{put_fragment_number, put_length, put_number_of_units, put_small_length};
pub use numbers::put_constrained;
pub use octet_strings::put_octet_string;
pub use reserves::{put_zeros, set_bit};
pub use sized_strings::{is_of_root, put_added_string, put_string_of};
pub use spans::clip;
pub use state::{Rejection, Writer, leave, reject};
pub use strings::put_units;
pub use texts::put_text;
pub use times::{is_time_in, put_time};
pub use unbounded::{
    put_semi_constrained, put_semi_constrained_span, put_small_number, put_unconstrained,
    put_unconstrained_span,
};
pub use unknown::{put_octets, put_unknown};
pub use utf8_in_fragments::put_utf8_in_fragments;

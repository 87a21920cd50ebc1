//! The calls of the value layer that allocate nothing, for C: bits, fields, whole numbers,
//! identifiers, strings and alphabets.
//!
//! An export takes numbers, slices and plain structs, and returns a code; 0 says that it is done.
//! The caller's slices are the room for what is written. After an error they are unchanged, unless
//! a call says otherwise. Each precondition is tested, but for one that C must meet: pointers and
//! lengths are right.
#![tactic(auto)]

mod alphabets;
mod bits;
mod character_fields;
mod codes;
mod contents;
mod decimal_octets;
mod decimals;
mod digits;
mod elements;
mod fields;
mod identifier_fields;
mod identifiers;
mod integer_fields;
mod integer_text;
mod integers;
mod octets_at;
mod plans;
mod room;
mod string_utf8;
mod strings;
mod text;
mod utf8_string;
mod version;
mod wide_integers;
mod writing;

//! Reads the fields of the packed encoding rules (X.691): numbers, lengths and strings.
//!
//! A call reads from the next bit of a [`State`] on. It returns what it read, or `None`, and then
//! the state has the first fault. A message must have fewer than 2^61 octets, and the state must be
//! inside it. `specs/Outcomes` defines what a call did to the state.
#![tactic(auto)]

mod alphabets;
mod bit_strings;
mod bits;
mod characters;
mod code_runs;
mod code_words;
mod codes;
mod compare;
mod contents;
mod defaults;
mod enumerations;
mod extensible_integers;
mod fragment_octets;
mod fragments;
mod heads;
mod integers;
mod lanes;
mod lengths;
mod long_strings;
mod named_bits;
mod number_sources;
mod numbers;
mod octet_strings;
mod octets;
mod quick_texts;
mod range_sums;
mod reals;
mod signed;
mod sized_strings;
mod sized_texts;
mod sizes;
mod small;
mod state;
mod strings;
mod texts;
mod times;
mod unbounded;
mod utf8_fragments;
mod utf8_texts;
mod windows;

pub use alphabets::{Alphabet, alphabet_of, alphabet_of_few, is_in, narrow_alphabet, ranges_in};
pub use bit_strings::next_bit_string;
pub use code_runs::{are_codes, are_quick_codes};
pub use codes::{character_at, code_of};
pub use compare::{is_before, is_default};
pub use contents::{are_subidentifiers, next_object_identifier, next_relative_identifier};
pub use defaults::Defaults;
pub use enumerations::next_enumerated;
pub use extensible_integers::{next_integer_at_least_by, next_integer_between_by};
pub use fragments::next_number_of_units;
pub use heads::{next_bit, next_bits, next_start, next_word};
pub use integers::{next_integer, next_integer_at_least, next_integer_between};
pub use lengths::{next_length, next_small_length};
pub use number_sources::NumbersAt;
pub use numbers::{above, next_constrained, next_in_bits, next_number, width_to, width_to_few};
pub use octet_strings::next_octet_string;
pub use octets::whole_octets;
pub use quick_texts::have_codes;
pub use reals::{is_real_at, next_real};
pub use signed::{is_below, is_between, signed_at};
pub use sized_texts::is_inline_text;
pub use sizes::{is_of_root, next_added_length, next_length_at_least};
pub use small::next_small_number;
pub use state::{State, fail};
pub use strings::{next_count, next_octets, next_units};
pub use texts::{next_extensible_text, next_text_of_root};
pub use times::{is_time_at, next_time, visible};
pub use unbounded::{next_semi_constrained, next_unconstrained};
pub use utf8_texts::{is_utf8, next_utf8_string, text_len};
pub use windows::{Window, number_in, window_at};

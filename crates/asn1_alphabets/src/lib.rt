//! The alphabets in which PER encodes the characters of a string (X.691 30.5), over the base sets
//! of `asn1_characters`.
//!
//! An alphabet is of an effective set: the permitted set of a string if X.691 30.5 says that it
//! takes effect, otherwise the string's base set. Each character of that set has a code, which
//! is the character's index in the set or its value. A binary search finds an index in a long
//! ascending set. No call allocates.
//!
//! # Examples
//!
//! ```
//! use asn1_strings::{CharacterAlphabet, NumericString};
//!
//! let digits = CharacterAlphabet::new::<NumericString>(Some(&[0x31, 0x32, 0x33]), false);
//! assert!(rt; digits.width() == 2);
//! assert!(rt; digits.encode(0x33) == Ok(2));
//! assert!(rt; digits.encode(0x34).is_err());
//! ```
#![tactic(auto)]

mod alphabet;
mod effective_set;
mod permitted_set;
mod run;
mod search;

pub use alphabet::{CharacterAlphabet, should_be_indexed};
pub use search::{CountedSlice, Entries, find_ascending};

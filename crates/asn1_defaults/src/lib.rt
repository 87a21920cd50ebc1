//! The encodings of default values in DER (X.690) and PER (X.691), from the text of a schema.
//!
//! A decoder and an encoder compare a value with the encoding of its default (X.690 11.5, X.691 19.5).
//! [`DefaultEncodings`] has these encodings. The schema has the parts of each default value, and the
//! encoder encodes them.
#![tactic(auto)]

mod element;
mod encodings;
mod probe;
mod reach;
mod rules;

pub use encodings::{DefaultEncodings, DefaultError};
pub use rules::Rules;

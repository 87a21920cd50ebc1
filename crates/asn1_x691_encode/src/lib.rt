//! Encodes values by a schema, by the packed encoding rules (X.691).
//!
//! `specs/Encoding` defines the outcome of a call: an encoding of the next parts, the first misfit,
//! or the part that is not supported.
#![tactic(auto)]

mod added_choice;
mod additions;
mod choice;
mod contents;
mod context;
mod encoder;
mod fragments;
mod leaves;
mod list;
mod message;
mod open_type;
mod padding;
mod presence;
mod sequence;
mod set;
mod texts;
mod value;
mod within;

pub use asn1_x691_fields::Defaults;
pub use context::Context;
pub use encoder::encode_node;
pub use message::{Encoded, Misfit, encode};

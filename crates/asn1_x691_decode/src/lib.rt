//! Decodes values of the packed encoding rules (X.691) by a schema.
#![tactic(auto)]

mod additions;
mod choice;
mod compare;
mod complete;
mod context;
mod decoder;
mod fragments;
mod laws;
mod leaves;
mod list;
mod message;
mod open_type;
mod presence;
mod room;
mod sequence;
mod set;

pub use asn1_x691_fields::Defaults;
pub use context::Context;
pub use laws::laws_of_limits;
pub use message::{Fault, Prefix, decode, decode_prefix};

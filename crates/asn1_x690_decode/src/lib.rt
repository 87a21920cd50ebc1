//! Decodes DER (X.690 10, 11) by a schema: the parts of a message, or its first fault.
#![tactic(auto)]

mod additions;
mod choice;
mod context;
mod element;
mod expected;
mod explanation;
mod leaves;
mod list;
mod members;
mod message;
mod sequence;
mod tag_name;
mod tagged;

pub use asn1_x691_fields::Defaults;
pub use context::Context;
pub use expected::Expected;
pub use explanation::{Explanation, FoundElement, Reason, explain, header_at};
pub use message::{Fault, Prefix, decode, decode_prefix};
pub use tag_name::TagName;

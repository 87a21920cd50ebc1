//! Decodes DER (X.690).
//!
//! [`decode_elements`] decodes the elements of any octets in DER, without a schema.
#![tactic(auto)]

mod elements;
mod laws;
mod room;

pub use elements::{Fault, decode_elements};
pub use laws::laws_of_elements;

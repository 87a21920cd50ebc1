//! Types and parts in the words of rows of tests.
//!
//! Only test programs should use this crate.
#![tactic(auto)]

mod bounds;
mod parts;
mod tags;
mod types;

pub use parts::{Source, text_of};
pub use tags::TagRows;
pub use types::{Schema, schema_of};

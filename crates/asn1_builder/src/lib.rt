//! Builds the parts of a value by the names of its components, for an encoder.
#![tactic(auto)]

mod append;
mod builder;
mod choices;
mod error;
mod expected;
mod frame;
mod kind;
mod leaves;
mod lists;
mod members;
mod sequences;
mod texts;

pub use builder::{Builder, Built};
pub use error::BuildError;

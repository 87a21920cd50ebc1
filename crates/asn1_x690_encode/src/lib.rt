//! Encodes by the distinguished encoding rules (X.690 10 and 11).
#![tactic(auto)]

mod additions;
mod any;
mod choice;
mod context;
mod element;
mod first_tags;
mod group;
mod inner;
mod leaf;
mod lengths;
mod list;
mod message;
mod node;
mod sequence;
mod set;
mod value;
mod within;

pub use context::Context;
pub use message::{Encoded, Misfit, encode, measure};

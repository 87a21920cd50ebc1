//! Puts the items of each SET OF of a value in the order that DER (X.690 11.6) or canonical PER (X.691
//! 22.1) asks for, so that an encoder accepts them.
#![tactic(auto)]

mod arrange;
mod canonical;
mod context;
mod item;
mod sets;
mod work;

pub use canonical::canonical_order;
pub use context::{Context, Rules};

//! The contents octets of REAL (X.690 8.5) in the canonical forms of 11.3, and the values that they encode.
#![tactic(auto)]

mod reals;

pub use reals::{Real, append_binary, append_decimal, append_float, real_of, special_of};

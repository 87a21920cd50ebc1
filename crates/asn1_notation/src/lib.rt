//! The notation of ASN.1 modules (X.680), read without allocation.
//!
//! [`parse`] reads a text into entries in the caller's room, or returns the first problem of the
//! text. Work and depth are bounded for every text.
#![tactic(auto)]

mod classes;
mod components;
mod constraints;
mod error;
mod lexer;
mod modules;
mod octet_kinds;
mod parser;
mod references;
mod report;
mod sink;
mod tape;
mod token;
mod types;
mod values;
mod word;

pub use error::{NotationError, Problem, error_at};
pub use lexer::part_of;
pub use modules::{Counts, parse, parse_all};
pub use report::Report;
pub use sink::Sink;
pub use tape::{Entry, Item, NO_ENTRY, narrow, wide};
pub use word::Word;

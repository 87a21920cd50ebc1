//! The encoding rules of X.690.
//!
//! [`der`] has the distinguished encoding rules (DER). `specs/Der` defines for each type of a
//! schema which octets encode which parts, and [`der::laws_of_types`] states the laws of that
//! definition.
#![tactic(auto)]

pub mod der;
mod fault;
mod tables;

pub use fault::FaultKind;
pub use tables::{CharacterSize, Class, FirstTags, Identifier, Tag, TagTables, TypeTags};

//! The tables of a schema, made from the notation of its modules (X.680).
//!
//! [`Schema::parse`] makes them from the text of modules. [`resolve`] makes the same tables in the
//! caller's room, and does not allocate.
#![tactic(auto)]

mod alphabet;
mod builder;
mod built_in;
mod contents;
mod enumerated;
mod error;
mod governed;
mod leaves;
mod members;
mod modules;
mod nodes;
mod objects;
mod open;
mod open_types;
mod pieces;
mod problems;
mod real;
mod room;
mod schema;
mod spans;
mod strings;
mod tag_tables;
mod values;
mod workroom;

pub use builder::{Builder, DefaultText, Draft, Enumeral, Key, NO_DRAFT, NO_KEY, NamedType};
pub use error::SchemaError;
pub use modules::resolve;
pub use objects::{ObjectRow, OpenRow};
pub use open::{Key as OpenKey, OpenObject, OpenPath, OpenType};
pub use open_types::PathRow;
pub use problems::{MAX_PROBLEMS, problems_of};
pub use schema::Schema;

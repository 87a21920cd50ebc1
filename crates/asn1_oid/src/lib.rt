//! Object identifiers (X.660): lists of arcs that borrow or own them.
//!
//! An identifier holds valid arcs and no others. Equality, order and hash are those of lists of
//! numbers, whether the arcs are borrowed or owned. Its contents (X.690 8.19) are written and read
//! octet by octet.
#![tactic(auto)]

mod contents;
mod dotted;
mod laws;
mod lists;
mod object_identifier;
mod oid;
mod oid_contents;
mod parse;
mod pushes;

pub use contents::{ContentsError, OctetSource, check_contents};
pub use laws::laws_of_contents;
pub use object_identifier::ObjectIdentifier;
pub use oid::Oid;
pub use oid_contents::OidContents;
pub use parse::{DottedTextError, parse_arcs};

//! Reads the fields of X.690 that all its rules share: identifier octets, lengths and headers.
//!
//! A call reads from the next bit of a [`State`] on. It returns what it read, or `None`, and then
//! the state has the first fault. A message must have fewer than 2^61 octets, and the state must be
//! inside it. Each contract is exact: it names what `asn1_x690` defines.
#![tactic(auto)]

mod header;
mod heads;
mod identifier;
mod length;
mod state;
mod tags;

pub use header::{Header, next_header};
pub use heads::{next_octet, next_octets};
pub use identifier::{FoundIdentifier, next_identifier, short_identifier_at};
pub use length::next_length;
pub use state::{State, fail};
pub use tags::{has_tag, is_identifier, tags_in};

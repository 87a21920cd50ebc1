//! An ASN.1 type as data.
//!
//! `specs` has the algebra of encoding rules. Its combinators define which bits encode which parts
//! of a type, the first fault of other bits, and the first misfit of other parts.
//! [`laws_of_an_example`] states the laws that each such definition keeps.
#![tactic(auto)]

mod laws;
mod misfit;
mod number_source;
mod part;
mod reals;
mod room;
mod tables;
mod times;

pub use laws::laws_of_an_example;
pub use misfit::MisfitKind;
pub use number_source::NumberSource;
pub use part::{Characters, Codes, Fragments, Natural, Part, Span};
pub use reals::is_real;
pub use room::{push_part, replace_part};
pub use tables::{
    Bounds, Length, LowerBound, Member, Node, Presence, Range, Rows, Tables, TimeKind,
};
pub use times::is_time;

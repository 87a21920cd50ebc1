//! The distinguished encoding rules (X.690 10 and 11).

mod laws;

pub use laws::laws_of_types;

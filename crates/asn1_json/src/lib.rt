//! The JSON of values of ASN.1 types (X.697), by the tables of a schema.
//!
//! [`print_value`] prints the parts of a decoded message as JSON. [`parse_value`] makes the parts of
//! a value from JSON, for an encoder.
#![tactic(auto)]

mod bits;
mod components;
mod contained;
mod decimal;
mod draft;
mod hexadecimal;
mod identifiers;
mod leaves;
mod members;
mod notation;
mod opens;
mod parse;
mod place;
mod print;
mod printer;
mod real_values;
mod strings;
mod tree;
mod value;

pub use draft::{Draft, Pending};
pub use opens::{Contents, OpenValue, octets_of_part, open_values};
pub use parse::{JsonError, JsonProblem, parse_value, parse_value_at};
pub use place::{line_and_column, path_of};
pub use print::{PrintError, print_in_notation, print_value, print_with_contents, row_of};
pub use tree::{Item, Kind, Tree, TreeError};

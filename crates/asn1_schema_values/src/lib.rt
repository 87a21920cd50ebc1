//! Values of a schema's types, among the parts of a message: where they end, and what they are.
#![tactic(auto)]

mod alphabets;
mod checks;
mod choices;
mod components;
mod display;
mod extent;
mod faults;
mod laws;
mod leaf_text;
mod leaves;
mod lists;
mod names;
mod path;
mod value;

pub use checks::check;
pub use extent::{end_of, end_of_values, values_from};
pub use faults::{NodeFault, TableFault};
pub use laws::{laws_of_extents, laws_of_pieces, laws_of_tables};
pub use names::{NameSpan, Names};
pub use path::Path;
pub use value::{Message, Value};

//! Calls on bit fields.

mod alphabets;
mod answers;
mod callers;
mod fields;
mod integers;
mod printed;
mod reading;
mod shapes;
mod stores;
mod texts;
mod words;
mod writing;

pub use answers::answer;

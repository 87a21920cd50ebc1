//! Fields of bits between lines of text.
//!
//! [`answer_to`] reads three lines: the shapes of fields, octets, and the index of a bit. It reads
//! the fields from that bit of the octets on, prints each in a line, and prints the octets that the
//! same fields fill. The first fault is named in one line. By its contract an input has one answer;
//! `specs/` has what a line says (`Input`), what is printed (`Output`), and the answer.
#![tactic(auto)]

mod answer;
mod parse;
mod print;

pub use answer::{Answer, answer_to};

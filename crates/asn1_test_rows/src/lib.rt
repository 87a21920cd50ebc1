//! Tests as rows of a program's input: each row is a call and the expected answer.
//!
//! ```text
//! # X.690 8.3: a comment, as is an empty line.
//! signed_octets -129 = FF7F
//! ```
//!
//! A count in braces repeats a word, in a call and in an answer: `n1=1{70000}` is 70,000 words.
//!
//! A row needs no proof: each call that rows name is proved once, in a function without a contract,
//! and the program compares. Only test programs should use this crate.
#![tactic(auto)]

mod ranges;
mod rows;
mod words;
pub mod words_or_none;

pub use ranges::answer_each;
pub use rows::{Answers, run};
pub use words::{
    RowError, bits, bits_of, boolean, hex_of, number, octets, one, optional, outcome, parse_word,
    show_value, three, two, unfold_word, wrong,
};

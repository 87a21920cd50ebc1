//! Answers calls by their names. A call that its words do not make has no answer.

use crate::bit_fields::{alphabets, callers, integers, reading, shapes, texts, writing};
use asn1_test_rows::{Answers, RowError, answer_each, wrong};
use std::alloc::Global;

/// Answers one call at a time.
struct Calls;

impl Answers for Calls {
    fn answer(&self, alloc: Global, call: &str, words: &[&str]) -> Result<String, RowError> {
        let mut text = String::new(alloc);
        match answer_once(alloc, &mut text, call, words) {
            Some(()) => Ok(text),
            None => Err(wrong(alloc, call, "call of these words")),
        }
    }
}

/// Returns the answer to a call, or the answers for each number of a range, if one of its words is
/// a range.
pub fn answer(alloc: Global, call: &str, words: &[&str]) -> Result<String, RowError> {
    answer_each(alloc, &Calls, call, words)
}

/// Appends the answer to a call.
fn answer_once(alloc: Global, text: &mut String, call: &str, words: &[&str]) -> Option<()> {
    match call {
        "write_fields" => writing::write(alloc, text, words),
        "write_fields_counted" => writing::write_counted(alloc, text, words),
        "write_fields_at" => writing::write_at(alloc, text, words),
        "read_fields" => reading::read(alloc, text, words),
        "again" => reading::again(alloc, text, words),
        "shape_of" => shapes::answer(alloc, text, words),
        "CharacterAlphabet" => alphabets::answer(alloc, text, words),
        "WriteError" => texts::writing(alloc, text, words),
        "ReadError" => texts::reading(alloc, text, words),
        _ => answer_other(alloc, text, call, words),
    }
}

/// Appends the answer to another call.
fn answer_other(alloc: Global, text: &mut String, call: &str, words: &[&str]) -> Option<()> {
    match call {
        "len_of_fields" => writing::len(alloc, text, words),
        "sizes" => integers::sizes(alloc, text),
        "integers_of_two_octets" => integers::of_two_octets(alloc, text),
        "Integer::cmp" => integers::cmp(alloc, text, words),
        "without_redundant_sign_octets" => integers::without(alloc, text, words),
        "from_signed_octets" => integers::shortest(alloc, text, words),
        "copies_the_front" => callers::front(alloc, text, words),
        "writes_nothing" => callers::nothing(alloc, text, words),
        _ => None,
    }
}

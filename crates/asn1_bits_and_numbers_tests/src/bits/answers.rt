//! Answers calls by their names. A call that its words do not make has no answer.

use crate::bits::{
    bit_appender, bit_buffer, bit_reader, bit_str, bit_string, callers, extended, fixed_bit_string,
    hashes, kernels, octets, places, sweeps, written,
};
use asn1_test_rows::{Answers, RowError, answer_each, wrong};
use std::alloc::Global;

/// Returns whether a function of a type or a module works on bits.
pub fn has(owner: &str, name: &str) -> bool {
    match owner {
        "BitStr" | "BitBuffer" | "BitAppender" | "BitString" | "FixedBitString" => true,
        "BitReader" | "Octets" | "Hash" => true,
        "callers" => callers::has(name),
        _ => false,
    }
}

/// Answers one call at a time.
struct Calls;

impl Answers for Calls {
    fn answer(&self, alloc: Global, call: &str, words: &[&str]) -> Result<String, RowError> {
        let mut text = String::new(alloc);
        match answer_once(alloc, &mut text, call, words) {
            Some(()) => Ok(text),
            None => Err(wrong(alloc, call, "call of these words")),
        }
    }
}

/// Returns the answer to a call, or the answers for each number of a range, if one of its words is
/// a range.
pub fn answer(alloc: Global, call: &str, words: &[&str]) -> Result<String, RowError> {
    answer_each(alloc, &Calls, call, words)
}

/// Appends the answer to a call.
fn answer_once(alloc: Global, text: &mut String, call: &str, words: &[&str]) -> Option<()> {
    match call.split_once("::") {
        Some((kind, name)) => answer_of(alloc, text, kind, name, words),
        None => answer_alone(alloc, text, call, words),
    }
}

/// Appends the answer to a call of a type's function.
fn answer_of(
    alloc: Global,
    text: &mut String,
    kind: &str,
    name: &str,
    words: &[&str],
) -> Option<()> {
    match kind {
        "BitStr" => bit_str::answer(alloc, text, name, words),
        "BitBuffer" => bit_buffer::answer(alloc, text, name, words),
        "BitAppender" => bit_appender::answer(alloc, text, name, words),
        "BitString" => bit_string::answer(alloc, text, name, words),
        "FixedBitString" => fixed_bit_string::answer(alloc, text, name, words),
        "BitReader" => bit_reader::answer(alloc, text, name, words),
        "Octets" => octets::answer(alloc, text, name, words),
        "Hash" => hashes::answer(alloc, text, name, words),
        "callers" => callers::answer(alloc, text, name, words),
        _ => None,
    }
}

/// Appends the answer to a call of a function without a type.
fn answer_alone(alloc: Global, text: &mut String, call: &str, words: &[&str]) -> Option<()> {
    match call {
        "or_bits" | "write_bitslice" | "overwrite_bitslice" | "overwrite_number" => {
            written::answer(alloc, text, call, words)
        }
        "extend_vec_from_bitslice" => written::extend(alloc, text, words),
        "or_bits_everywhere" => sweeps::or(alloc, text, words),
        "overwrite_number_everywhere" => sweeps::overwrite(alloc, text, words),
        "extended" => extended::answer(alloc, text, words),
        "place_bits" => places::answer(alloc, text, words),
        _ => kernels::answer(alloc, text, call, words),
    }
}

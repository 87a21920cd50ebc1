//! Tests of octet strings, character strings and alphabets, and of bit fields: a program that answers
//! the rows of its stored input.
//!
//! A row calls a function of a type of `asn1_characters` or `asn1_strings`, such as
//! `NumericString::try_from_slice 20 = 1 32`, or a function of `asn1_values`, such as
//! `read_fields`.
#![tactic(auto)]

mod bit_fields;
mod strings;

use asn1_test_rows::{Answers, RowError, run};
use std::alloc::Global;
use std::io::BufReader;
use std::process::ExitCode;

/// Answers the calls of the crates.
struct Calls;

impl Answers for Calls {
    fn answer(&self, alloc: Global, call: &str, words: &[&str]) -> Result<String, RowError> {
        match call.split_once("::") {
            Some((owner, name)) if owner != "Integer" => {
                strings::answer(alloc, owner, name, words)
            }
            _ => bit_fields::answer(alloc, call, words),
        }
    }
}

/// Runs on standard input and output.
fn main(rt: HostRuntime) -> Result<ExitCode, RowError> {
    let mut input = BufReader::new(rt.alloc(), rt.stdin())?;
    let status = run(rt.alloc(), &Calls, &mut input, &mut rt.stdout())?;
    Ok(ExitCode::from(status))
}

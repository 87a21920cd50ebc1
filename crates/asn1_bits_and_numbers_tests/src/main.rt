//! Tests of bits, whole numbers, number types and object identifiers: a program that answers the
//! rows of its stored input.
//!
//! A row calls a function of a type of `asn1_bits`, `asn1_number`, `asn1_integer` or `asn1_oid`,
//! such as `BitStr::len A55A:4:8 = 8` and `u8::checked_add 255 1 = none`, or a function of
//! `asn1_bits` without a type. `IntegerType::` is that trait for `Integer`. Preconditions are
//! tested before the call: a row that violates one is rejected.
#![tactic(auto)]

mod bits;
mod numbers;

use asn1_test_rows::{Answers, RowError, run};
use std::alloc::Global;
use std::io::BufReader;
use std::process::ExitCode;

/// Answers the calls of the four crates.
struct Calls;

impl Answers for Calls {
    fn answer(&self, alloc: Global, call: &str, words: &[&str]) -> Result<String, RowError> {
        match call.split_once("::") {
            Some((owner, name)) if !bits::has(owner, name) => {
                numbers::answer(alloc, owner, name, words)
            }
            _ => bits::answer(alloc, call, words),
        }
    }
}

/// Runs on standard input and output.
fn main(rt: HostRuntime) -> Result<ExitCode, RowError> {
    let mut input = BufReader::new(rt.alloc(), rt.stdin())?;
    let status = run(rt.alloc(), &Calls, &mut input, &mut rt.stdout())?;
    Ok(ExitCode::from(status))
}

//! Bit fields between lines of text: reads the fields that the first line names from the octets of
//! the second, from the bit that the third names on, and writes them again.
#![tactic(auto)]

#[cfg(test)]
mod failures;
mod run;
#[cfg(test)]
mod tests;

use crate::run::run;
use octet_streams::status_of;
use std::process::ExitCode;

/// Runs on standard input and output.
fn main(rt: HostRuntime) -> ExitCode {
    let answered = run(rt.alloc(), &mut rt.stdin(), &mut rt.stdout());
    ExitCode::from(status_of(answered))
}

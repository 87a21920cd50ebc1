//! The program `asn1`: decodes and encodes values of the types of ASN.1 modules.
#![tactic(auto)]

mod args;
mod codec;
mod decode;
mod dump;
mod elements;
mod encode;
#[cfg(test)]
mod fault_tests;
mod forms;
mod from_json;
mod lines;
mod modules;
mod opened;
#[cfg(test)]
mod opened_tests;
mod pem;
mod places;
mod progress;
mod reasons;
mod rules;
mod run;
mod sets;
mod show;
#[cfg(test)]
mod size_tests;
mod sizes;
mod stop;
mod tables;
#[cfg(test)]
mod tests;
mod tree;
#[cfg(test)]
mod tree_tests;
mod types;
mod views;

use crate::progress::Progress;
use crate::run::run;
use std::io::IsTerminal;
use std::process::ExitCode;

/// Runs on the words of the command line.
fn main(rt: HostRuntime) -> ExitCode {
    let progress = Progress::on(rt.stderr().is_terminal());
    ExitCode::from(run(&rt, progress))
}

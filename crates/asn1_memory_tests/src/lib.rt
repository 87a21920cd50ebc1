//! Tests in which each allocation of each call that grows fails, one after another.
//!
//! Each test makes its arguments, calls once, and checks the result: the right one if no allocation
//! failed, otherwise out of memory, with everything unchanged. A test that meets a failed
//! allocation prints a line. `scripts/fail-each-allocation` lets the first allocation fail, then
//! the second, and so on until there are no more.
#![tactic(auto)]

#[cfg(test)]
mod bits;
#[cfg(test)]
mod failure;
#[cfg(test)]
mod fields;
#[cfg(test)]
mod identifiers;
#[cfg(test)]
mod integers;
#[cfg(test)]
mod octet_strings;
#[cfg(test)]
mod reserved;
#[cfg(test)]
mod streams;
#[cfg(test)]
mod strings;

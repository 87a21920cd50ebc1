//! The calls of `asn1_bits`.

mod answers;
mod bit_appender;
mod bit_buffer;
mod bit_reader;
mod bit_str;
mod bit_string;
mod callers;
mod extended;
mod fixed_bit_string;
mod hashes;
mod kernels;
mod octets;
mod overwritten;
mod places;
mod steps;
mod sweeps;
mod words;
mod written;

pub use answers::{answer, has};

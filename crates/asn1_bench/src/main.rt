//! Times pieces of work: `asn1_bench` lists them, `asn1_bench ROUNDS` times each, and prints the
//! best of ROUNDS rounds.
#![tactic(auto)]

mod alphabets;
mod bits;
mod certificates;
mod fields;
mod identifiers;
mod numbers;
mod records;
mod row;
mod schema;
mod strings;

use crate::alphabets::{Codes, Set};
use crate::bits::{Appended, Copied, Numbers};
use crate::certificates::Certificate;
use crate::fields::Fields;
use crate::identifiers::{Read, Size, Way, Written};
use crate::numbers::Octets;
use crate::records::Record;
use crate::row::show;
use crate::schema::Decoded;
use crate::strings::{Bits, Kind, Text};
use std::env;

fn main(rt: HostRuntime) -> anyhow::Result<()> {
    let mut rounds = 0;
    if let Some(text) = env::args(&rt)?.nth(1) {
        rounds = text.parse::<u32>().unwrap_or(0);
    }
    show_bits(&rt, rounds)?;
    show_identifiers(&rt, rounds)?;
    show_alphabets(&rt, rounds)?;
    show_strings(&rt, rounds)?;
    show_fields(&rt, rounds)?;
    show(&rt, Ok(Decoded::numbers()), rounds)?;
    show(&rt, Ok(Decoded::letters()), rounds)?;
    show_records(&rt, rounds)?;
    show(&rt, Certificate::new(rt.alloc(), false), rounds)?;
    show(&rt, Certificate::new(rt.alloc(), true), rounds)
}

/// Returns the rows of the records of X.691, annex A.
fn show_records(rt: &HostRuntime, rounds: u32) -> anyhow::Result<()> {
    for record in [
        Record::SecondDecoded,
        Record::ThirdDecoded,
        Record::SecondEncoded,
        Record::ThirdEncoded,
    ] {
        show(rt, Ok(record), rounds)?;
    }
    Ok(())
}

/// Returns the rows of bits and of whole numbers.
fn show_bits(rt: &HostRuntime, rounds: u32) -> anyhow::Result<()> {
    let alloc = rt.alloc();
    show(rt, Copied::new(alloc, 0, 0), rounds)?;
    show(rt, Copied::new(alloc, 5, 3), rounds)?;
    show(rt, Numbers::new(alloc), rounds)?;
    show(rt, Ok(Appended::new()), rounds)?;
    show(rt, Ok(Octets::new()), rounds)
}

/// Returns the rows of identifiers.
fn show_identifiers(rt: &HostRuntime, rounds: u32) -> anyhow::Result<()> {
    let alloc = rt.alloc();
    for size in [Size::Seven, Size::Many] {
        show(rt, Read::new(alloc, size), rounds)?;
        for way in [Way::Octets, Way::Call] {
            show(rt, Written::new(alloc, size, way), rounds)?;
        }
    }
    Ok(())
}

/// Returns the rows of alphabets.
fn show_alphabets(rt: &HostRuntime, rounds: u32) -> anyhow::Result<()> {
    for set in [Set::Ten, Set::Twenty, Set::FiftyFour, Set::Many] {
        show(rt, Codes::new(rt.alloc(), set), rounds)?;
    }
    Ok(())
}

/// Returns the rows of strings.
fn show_strings(rt: &HostRuntime, rounds: u32) -> anyhow::Result<()> {
    let alloc = rt.alloc();
    let kinds = [
        Kind::Bmp,
        Kind::General,
        Kind::Graphic,
        Kind::Ia5,
        Kind::Numeric,
        Kind::Printable,
        Kind::Teletex,
        Kind::Visible,
    ];
    for kind in kinds {
        show(rt, Text::new(alloc, kind), rounds)?;
    }
    show(rt, Bits::new(alloc, true), rounds)?;
    show(rt, Bits::new(alloc, false), rounds)
}

/// Returns the rows of fields.
fn show_fields(rt: &HostRuntime, rounds: u32) -> anyhow::Result<()> {
    let alloc = rt.alloc();
    let name = "a number of 7 bits written and read as a field";
    show(rt, Fields::numbers(alloc, 7, name), rounds)?;
    let name = "a number of 64 bits written and read as a field";
    show(rt, Fields::numbers(alloc, 64, name), rounds)?;
    show(rt, Fields::integers(alloc), rounds)?;
    show(rt, Fields::characters(alloc), rounds)?;
    show(rt, Fields::message(alloc), rounds)
}

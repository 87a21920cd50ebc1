//! Callers that are proved by the contracts alone: no proof of theirs cites a lemma of a library.

ghost use Rattle.std.specs.Prelude.{◌≡◌, ◌+◌, ◌++◌, ◌↔◌, ℕ, List, length, pos, IsTrue, OnErr, IfOk, IfSome};
ghost use Rattle.asn1_number.specs.Octets.{IsShortest};
ghost use Rattle.asn1_number.specs.Readings.{Answers, FitsI128, UnsignedOf, signed_reading};
ghost use Rattle.asn1_oid.specs.Contents.{IsContents};
ghost use Rattle.asn1_oid.specs.Oid.{arcs_of};

use crate::numbers::integers::read_text;
use crate::numbers::spelled::{arcs, integer};
use asn1_integer::IntegerType;
use asn1_number::{Integer, IntegerError};
use asn1_oid::{ContentsError, ObjectIdentifier, Oid};
use asn1_test_rows::{RowError, hex_of, octets, optional, outcome, parse_word, show_value, wrong};
use std::alloc::{AllocError, Global};

/// Answers the calls of these callers.
pub fn answer(alloc: Global, name: &str, words: &[&str]) -> Result<String, RowError> {
    match (name, words) {
        ("version", [word]) => version_text(alloc, word),
        ("are_one_number", [first, second]) => compare_words(alloc, first, second),
        (_, [word]) => of_word(alloc, name, word),
        (_, [spelled, word]) => of_words(alloc, name, spelled, word),
        _ => Err(wrong(alloc, name, "caller")),
    }
}

fn of_word(alloc: Global, name: &str, word: &str) -> Result<String, RowError> {
    of_number(alloc, name, &integer(alloc, word)?)
}

fn version_text(alloc: Global, word: &str) -> Result<String, RowError> {
    outcome(alloc, version(alloc, octets(alloc, word)?.as_slice()))
}

fn compare_words(alloc: Global, first: &str, second: &str) -> Result<String, RowError> {
    let first = parse_word::<i64>(alloc, first)?;
    show_value(
        alloc,
        are_one_number(first, parse_word::<i64>(alloc, second)?),
    )
}

fn of_words(alloc: Global, name: &str, spelled: &str, word: &str) -> Result<String, RowError> {
    let arcs = arcs(alloc, word)?;
    of_contents(alloc, name, octets(alloc, spelled)?, arcs.as_slice())
}

fn of_number(alloc: Global, name: &str, number: &Integer) -> Result<String, RowError> {
    match name {
        "by_its_octets" => read_text(alloc, by_its_octets(alloc, number)),
        "octets_with_length" => optional(alloc, octets_with_length(number)),
        _ => Err(wrong(alloc, name, "caller")),
    }
}

fn of_contents(
    alloc: Global,
    name: &str,
    octets: Vec<u8>,
    arcs: &[u32],
) -> Result<String, RowError> {
    let Some(oid) = Oid::new(arcs) else {
        return Err(wrong(alloc, name, "caller for such arcs"));
    };
    match name {
        "is_this" => outcome(alloc, is_this(alloc, octets.as_slice(), &oid)),
        "append" => append_contents(alloc, octets, &oid),
        _ => Err(wrong(alloc, name, "caller")),
    }
}

/// Encodes a number and decodes its octets.
fn by_its_octets(alloc: Global, number: &Integer) -> Result<Integer, IntegerError>
    ensures value { IfOk result (λ n. n ≡ number.now) }
    ensures memory { OnErr result (¬ (FitsI128 number.now)) }
{
    Integer::from_signed_octets(alloc, number.signed_octets().as_ref())
}

/// Returns how many octets a number takes with its length octet, if the short form of lengths
/// suffices.
fn octets_with_length(number: &Integer) -> Option<usize>
    ensures { IfSome result (λ n. (o : List ℕ) → IsShortest number.now o → n ≡ 1 + length o) }
{
    let octets = number.signed_len();
    if octets < 128 { Some(1 + octets) } else { None }
}

/// Returns a version number of one octet from the contents of an INTEGER.
fn version(alloc: Global, contents: &[u8]) -> Result<u8, IntegerError>
    ensures { Answers (UnsignedOf 1) (λ n. pos n) result
        (signed_reading (UnsignedOf 1) contents.now) }
{
    u8::try_from_signed_bytes(alloc, contents)
}

/// Returns whether two numbers of any one type are equal, by their checked difference.
fn are_one_number(a: i64, b: i64) -> bool
    ensures { IsTrue result ↔ (a ≡ b) }
{
    match IntegerType::checked_sub(&a, &b) {
        Some(difference) => difference == i64::zero(),
        None => false,
    }
}

/// Returns whether the octets are the contents of this identifier. They are decoded, and the arcs
/// compared.
fn is_this(alloc: Global, contents: &[u8], oid: &Oid) -> Result<bool, ContentsError>
    ensures { IfOk result (λ same. IsTrue same ↔ IsContents (arcs_of oid.now) contents.now) }
{
    let read = ObjectIdentifier::from_contents(alloc, &contents)?;
    Ok(read.as_oid() == *oid)
}

/// Appends the contents of the identifier, and says whether it has any.
fn append(oid: &Oid, octets: &mut Vec<u8>) -> Result<bool, AllocError>
    ensures { IfOk result (λ some. IsTrue some
        → (contents : List ℕ) × IsContents (arcs_of oid.now) contents
        × (octets.new.items ≡ octets.old.items ++ contents)) }
{
    let Some(contents) = oid.contents() else {
        return Ok(false);
    };
    contents.append_to(octets)?;
    Ok(true)
}

/// Returns the octets, followed by the contents, if there are any.
fn append_contents(alloc: Global, mut octets: Vec<u8>, oid: &Oid) -> Result<String, RowError> {
    if append(oid, &mut octets)? {
        return hex_of(alloc, octets.as_slice());
    }
    show_value(alloc, "none")
}

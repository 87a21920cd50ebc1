//! Tests of DER: a program that answers the rows of its stored input.
//!
//! A row has octets, as `elements 0500 = 2+0:prim:u5`. Its answer is a word for each element: the
//! index of the first contents octet, how many there are, the form, and the class and the number of the
//! tag. Or it is the text of the first fault. `scripts/x690-rows` makes the rows.
//!
//! A row of `der` has octets and a type in the words of `asn1_schema_rows`, as `der 3003800105 seq:1 ! int =
//! seq1 i5`; its components have automatic tags. The answer is the parts or the first fault; a row of
//! `der-error` has the text of the fault, and one of `der-explained` what was expected and what was
//! found. What is decoded is encoded again and measured, unless it
//! has a part that the encoder leaves. A row of `der-as` has two types: a value of the first is encoded as
//! one of the second, which makes octets or is a misfit of the part of an index. A row of `der-fragments` has the octets of a
//! source, four words that tell a part in fragments, and a type: where the first fragment of 65,536 units is, how many there
//! are, and the index and the number of the bits of `middle` and of `last`. `scripts/x691-vectors` makes them with another compiler, and
//! `scripts/x690-model` damages their messages.
#![tactic(auto)]

mod fragments;

ghost use Rattle.std.specs.Prelude.{◌≡◌};

use crate::fragments::fragments_encoded;
use asn1_schema::{Part, Tables};
use asn1_schema_rows::{Schema, Source, schema_of, text_of};
use asn1_test_rows::{Answers, RowError, hex_of, octets, run, wrong};
use asn1_x690::Class;
use asn1_x690_decode::{Context, Defaults, decode, explain};
use asn1_x690_elements::decode_elements;
use asn1_x690_encode::{Context as Value, encode, measure};
use asn1_x690_fields::{FoundIdentifier, Header};
use asn1_x691_writers::Rejection;
use std::alloc::Global;
use std::cell::Cell;
use std::io::BufReader;
use std::process::ExitCode;

/// The most elements of a row.
const ROOM: usize = 1_000;

/// The greatest depth of an element of a row.
const DEPTH: usize = 100;

/// Returns the letter of a class.
fn letter_of(class: Class) -> &'static str {
    match class {
        Class::Universal => "u",
        Class::Application => "a",
        Class::Context => "c",
        Class::Private => "p",
    }
}

/// Returns an element in a word.
fn word_of(alloc: Global, header: Header) -> Result<String, RowError> {
    let first = header.from / 8;
    let count = header.to.saturating_sub(header.from) / 8;
    let FoundIdentifier {
        class,
        number,
        is_constructed,
    } = header.identifier;
    let class = letter_of(class);
    let form = if is_constructed { "cons" } else { "prim" };
    match number {
        Some(number) => Ok(format!(in alloc; "{first}+{count}:{form}:{class}{number}")?),
        None => Ok(format!(in alloc; "{first}+{count}:{form}:{class}large")?),
    }
}

/// Returns the elements of octets in words, or the first fault.
fn elements_of(alloc: Global, octets: &[u8]) -> Result<String, RowError> {
    if octets.len() > 1_000_000 {
        return Err(wrong(alloc, "octets", "short message"));
    }
    let none = Header {
        identifier: FoundIdentifier {
            class: Class::Universal,
            number: Some(0),
            is_constructed: false,
        },
        from: 0,
        to: 0,
    };
    let mut room = vec![in alloc; none; ROOM]?;
    match decode_elements(octets, DEPTH, room.as_mut_slice()) {
        Ok(count) => {
            let mut text = String::new(alloc);
            let Some(headers) = room.as_slice().get(..count) else {
                return Err(wrong(alloc, "octets", "message of so few elements"));
            };
            for header in headers {
                if !text.is_empty() {
                    text.push(' ')?;
                }
                text.push_str(word_of(alloc, *header)?.as_str())?;
            }
            Ok(text)
        }
        Err(fault) => Ok(format!(in alloc; "{fault}")?),
    }
}

/// Returns whether the encoder leaves a part: a number that 128 bits do not hold.
fn is_left(part: &Part) -> bool {
    matches!(*part, Part::Signed(_))
}

/// Returns whether a value is encoded as this message with any numbers of octets reserved for lengths:
/// those of [`measure`], none, or others.
fn is_encoded_with_lengths(
    alloc: Global,
    value: &Value<'_>,
    node: usize,
    message: &[u8],
) -> Result<bool, RowError> {
    if value.parts.len() > ROOM || value.source.len() > 1_000_000 || message.len() > 1_000_000 {
        return Ok(false);
    }
    let mut lengths = Vec::new(alloc);
    for _ in value.parts {
        lengths.push(Cell::new(0u8))?;
    }
    let measured = Value {
        lengths: lengths.as_slice(),
        ..*value
    };
    let mut is_same = match measure(&measured, DEPTH, node) {
        Ok(encoded) => encoded.octets == message.len(),
        Err(_) => false,
    };
    for reserved in [None, Some(0), Some(2), Some(3), Some(9)] {
        if let Some(count) = reserved {
            for length in lengths.as_slice() {
                length.set(count);
            }
        }
        let mut room = vec![in alloc; 0u8; message.len()]?;
        match encode(&measured, DEPTH, node, room.as_mut_slice()) {
            Ok(_) => is_same = is_same && room.as_slice() == message,
            Err(_) => is_same = false,
        }
    }
    Ok(is_same)
}

/// Encodes the parts of a message, and returns whether that makes the message again, or the encoder
/// leaves a part that it may leave. Without room the same number of octets is needed, unless a
/// value of more than 504 bits must be compared.
fn is_encoded_again(
    alloc: Global,
    context: &Context<'_>,
    node: usize,
    parts: &[Part],
) -> Result<bool, RowError> {
    let octets = context.octets;
    if parts.len() > ROOM || octets.len() > 1_000_000 {
        return Ok(false);
    }
    let value = Value {
        tables: context.tables,
        tags: context.tags,
        defaults: context.defaults,
        parts,
        source: octets,
        is_ordered: true,
        lengths: &[],
    };
    let is_left = parts.iter().any(is_left);
    let is_measured = match encode(&value, DEPTH, node, &mut []) {
        Ok(encoded) => encoded.octets == octets.len(),
        Err(misfit) if misfit.reason == Rejection::NoRoom => octets.len() > 63,
        Err(misfit) => is_left && misfit.reason == Rejection::Unsupported,
    };
    let mut room = vec![in alloc; 0u8; octets.len() + 8]?;
    match encode(&value, DEPTH, node, room.as_mut_slice()) {
        Ok(encoded) => {
            let is_same = room.as_slice().get(..encoded.octets) == Some(octets);
            Ok(is_measured && is_same && is_encoded_with_lengths(alloc, &value, node, octets)?)
        }
        Err(misfit) => Ok(is_measured && is_left && misfit.reason == Rejection::Unsupported),
    }
}

/// Encodes a value of one type as one of another. Returns the octets or the misfit.
fn encoded_as(
    alloc: Global,
    octets: &[u8],
    from: &Schema,
    to: &Schema,
) -> Result<String, RowError> {
    if octets.len() > 1_000_000 {
        return Err(wrong(alloc, "octets", "short message"));
    }
    let mut parts = vec![in alloc; Part::Absent; ROOM]?;
    let context = context_of(octets, from);
    let Ok(count) = decode(&context, DEPTH, from.node, parts.as_mut_slice()) else {
        return Err(wrong(alloc, "octets", "message of the first type"));
    };
    let Some(parts) = parts.as_slice().get(..count) else {
        return Err(wrong(alloc, "octets", "value of few parts"));
    };
    if parts.len() > ROOM {
        return Err(wrong(alloc, "octets", "value of few parts"));
    }
    let of = context_of(octets, to);
    let value = Value {
        tables: of.tables,
        tags: of.tags,
        defaults: of.defaults,
        parts,
        source: octets,
        is_ordered: true,
        lengths: &[],
    };
    message_of(alloc, &value, to.node, octets.len() + 8)
}

/// Encodes a value as at most `room` octets. Returns the octets or the misfit.
fn message_of(
    alloc: Global,
    value: &Value<'_>,
    node: usize,
    room: usize,
) -> Result<String, RowError> {
    if value.parts.len() > ROOM || value.source.len() > 1_000_000 || room > 4_000_000 {
        return Err(wrong(alloc, "octets", "message of few octets"));
    }
    let mut message = vec![in alloc; 0u8; room]?;
    match encode(value, DEPTH, node, message.as_mut_slice()) {
        Ok(encoded) => match message.as_slice().get(..encoded.octets) {
            Some(message) => hex_of(alloc, message),
            None => Err(wrong(alloc, "octets", "message of few octets")),
        },
        Err(misfit) => Ok(format!(in alloc; "{:?} part {}", misfit.reason, misfit.part)?),
    }
}

/// Answers a row of two types, which `as` separates.
fn answer_as(alloc: Global, octets: &[u8], words: &[&str]) -> Result<String, RowError> {
    let Some(place) = words.iter().position(|word| *word == "as") else {
        return Err(wrong(alloc, "the row", "row of two types"));
    };
    let (from, rest) = words.split_at(place);
    let Some((_, to)) = rest.split_first() else {
        return Err(wrong(alloc, "the row", "row of two types"));
    };
    let from = schema_of(alloc, false, from)?;
    let to = schema_of(alloc, false, to)?;
    encoded_as(alloc, octets, &from, &to)
}

/// Returns what octets are decoded by.
fn context_of<'s>(octets: &'s [u8], schema: &'s Schema) -> Context<'s>
    ensures { result.octets.now ≡ octets.now }
{
    Context {
        tables: Tables {
            nodes: schema.nodes.as_slice(),
            members: schema.members.as_slice(),
            ranges: schema.ranges.as_slice(),
        },
        tags: schema.tags.tables(),
        defaults: Defaults {
            octets: schema.default_octets.as_slice(),
            spans: schema.default_spans.as_slice(),
        },
        octets,
    }
}

/// Returns what was expected and what was found at the first fault of octets.
fn explained(alloc: Global, octets: &[u8], schema: &Schema) -> Result<String, RowError> {
    if octets.len() > 1_000_000 {
        return Err(wrong(alloc, "octets", "short message"));
    }
    let context = context_of(octets, schema);
    match decode(&context, DEPTH, schema.node, &mut []) {
        Ok(_) => Ok(String::from_str(alloc, "no fault")?),
        Err(fault) => Ok(format!(in alloc; "{}", explain(&context, fault))?),
    }
}

/// Decodes octets by the type that words name, and returns the parts or the fault; the fault by its text,
/// if so asked.
fn decoded(
    alloc: Global,
    in_words: bool,
    octets: &[u8],
    schema: &Schema,
) -> Result<String, RowError> {
    if octets.len() > 1_000_000 {
        return Err(wrong(alloc, "octets", "short message"));
    }
    let context = context_of(octets, schema);
    let mut room = vec![in alloc; Part::Absent; ROOM]?;
    match decode(&context, DEPTH, schema.node, room.as_mut_slice()) {
        Ok(count) => {
            let parts = room.as_slice().get(..count).unwrap_or(&[]);
            if !is_encoded_again(alloc, &context, schema.node, parts)? {
                return Ok(String::from_str(alloc, "encoded otherwise")?);
            }
            let source = Source {
                octets,
                ranges: schema.ranges.as_slice(),
            };
            text_of(alloc, source, room.as_slice(), count)
        }
        Err(fault) if in_words => Ok(format!(in alloc; "{fault}")?),
        Err(fault) => {
            let kind = fault.kind;
            let node = fault.node;
            let at = fault.at / 8;
            Ok(format!(in alloc; "fault {kind:?} {node} {at}")?)
        }
    }
}

/// The calls of the rows.
struct Calls;

impl Answers for Calls {
    fn answer(&self, alloc: Global, call: &str, words: &[&str]) -> Result<String, RowError> {
        match (call, words) {
            ("elements", [message]) => {
                let message = octets(alloc, message)?;
                elements_of(alloc, message.as_slice())
            }
            ("der", [message, words @ ..]) => {
                let message = octets(alloc, message)?;
                let schema = schema_of(alloc, false, words)?;
                decoded(alloc, false, message.as_slice(), &schema)
            }
            ("der-as", [message, words @ ..]) => {
                let message = octets(alloc, message)?;
                answer_as(alloc, message.as_slice(), words)
            }
            ("der-fragments", [message, words @ ..]) => {
                let message = octets(alloc, message)?;
                fragments_encoded(alloc, message.as_slice(), words)
            }
            ("der-error", [message, words @ ..]) => {
                let message = octets(alloc, message)?;
                let schema = schema_of(alloc, false, words)?;
                decoded(alloc, true, message.as_slice(), &schema)
            }
            ("der-explained", [message, words @ ..]) => {
                let message = octets(alloc, message)?;
                let schema = schema_of(alloc, false, words)?;
                explained(alloc, message.as_slice(), &schema)
            }
            _ => Err(wrong(alloc, call, "call with octets")),
        }
    }
}

/// Runs on standard input and output.
fn main(rt: HostRuntime) -> Result<ExitCode, RowError> {
    let mut input = BufReader::new(rt.alloc(), rt.stdin())?;
    let status = run(rt.alloc(), &Calls, &mut input, &mut rt.stdout())?;
    Ok(ExitCode::from(status))
}

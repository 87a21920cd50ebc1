//! Tests of PER: a program that answers the rows of its stored input.
//!
//! A value that is decoded is encoded again, and its message is measured.
//!
//! A row is a variant, octets and a type, as `uper 20 seq:2 ? int:0..7 ! bool = seq2 absent true`. The
//! rows are made by `scripts/x691-vectors`, with another compiler, and by `scripts/x691-model`. A row of
//! `uper-error` has the text of the fault. A row of `uper-as` has two types: a value of the first is
//! encoded as one of the second; in a row of `uper-short`, into no octets, and the answer is how many
//! it needs. The answer to a row of `uper-many` is how many parts there are.
#![tactic(auto)]

use asn1_schema::{Part, Tables};
use asn1_schema_rows::{Schema, Source, schema_of, text_of};
use asn1_test_rows::{Answers, RowError, hex_of, octets, run, wrong};
use asn1_x691_decode::{Context, Defaults, decode};
use asn1_x691_encode::{Context as Value, encode};
use asn1_x691_writers::Rejection;
use std::alloc::Global;
use std::io::BufReader;
use std::process::ExitCode;

/// The most parts of a value of a row.
const ROOM: usize = 1_000;

/// The most parts of a value whose answer is their number.
const MANY: usize = 300_000;

/// How a row is answered.
#[derive(Clone, Copy, PartialEq)]
enum Form {
    /// With the parts, or the fault.
    Parts,
    /// With the parts, or the text of the fault.
    Words,
    /// With the number of the parts, or the fault.
    Number,
}

/// The most octets of a message of a row of two types.
const LARGE: usize = 20_000;

/// The greatest depth of a value of a row.
const DEPTH: usize = 100;

/// Decodes octets by a schema, and returns the answer of a form.
fn decoded<'a>(
    alloc: Global,
    is_aligned: bool,
    form: Form,
    octets: &'a [u8],
    schema: &'a Schema,
) -> Result<String, RowError> {
    if octets.len() > 1_000_000 {
        return Err(wrong(alloc, "octets", "short message"));
    }
    let context = Context {
        tables: tables_of(schema),
        defaults: defaults_of(schema),
        octets,
        is_aligned,
    };
    let most = if form == Form::Number { MANY } else { ROOM };
    let mut room = vec![in alloc; Part::Absent; most]?;
    match decode(&context, DEPTH, schema.node, room.as_mut_slice()) {
        Ok(count) => {
            if let Some(parts) = room.as_slice().get(..count)
                && !is_encoded_again(alloc, &context, schema.node, parts)?
            {
                return Err(wrong(alloc, "the value", "value that is encoded as the message"));
            }
            if form == Form::Number {
                return Ok(format!(in alloc; "{count} parts")?);
            }
            let source = Source {
                octets,
                ranges: schema.ranges.as_slice(),
            };
            text_of(alloc, source, room.as_slice(), count)
        }
        Err(fault) if form == Form::Words => Ok(format!(in alloc; "{fault}")?),
        Err(fault) => {
            let kind = fault.kind;
            let node = fault.node;
            let at = fault.at;
            Ok(format!(in alloc; "fault {kind:?} {node} {at}")?)
        }
    }
}

/// Encodes the parts of a message, and returns whether that makes the message again. Without room the
/// same number of octets is needed, unless a value of more than 504 bits must be compared.
fn is_encoded_again(
    alloc: Global,
    context: &Context<'_>,
    node: usize,
    parts: &[Part],
) -> Result<bool, RowError> {
    let octets = context.octets;
    if parts.len() > MANY || octets.len() > 1_000_000 {
        return Ok(false);
    }
    let value = Value {
        tables: context.tables,
        defaults: context.defaults,
        parts,
        source: octets,
        is_aligned: context.is_aligned,
    };
    let is_measured = match encode(&value, DEPTH, node, &mut []) {
        Ok(encoded) => encoded.octets == octets.len(),
        Err(misfit) => misfit.reason == Rejection::NoRoom && octets.len() > 63,
    };
    let mut room = vec![in alloc; 0u8; octets.len() + 8]?;
    match encode(&value, DEPTH, node, room.as_mut_slice()) {
        Ok(encoded) => { Ok(is_measured && room.as_slice().get(..encoded.octets) == Some(octets)) }
        Err(_) => Ok(false),
    }
}

/// Encodes a value into `room` octets. Returns these octets, or how many are needed if `room` is 0,
/// or the misfit.
fn message_of(
    alloc: Global,
    room: usize,
    value: &Value<'_>,
    node: usize,
) -> Result<String, RowError> {
    if value.source.len() > 1_000_000 || value.parts.len() > ROOM || room > LARGE {
        return Err(wrong(alloc, "octets", "short message"));
    }
    let mut message = vec![in alloc; 0u8; room]?;
    match encode(value, DEPTH, node, message.as_mut_slice()) {
        Ok(encoded) => match message.as_slice().get(..encoded.octets) {
            Some(message) => hex_of(alloc, message),
            None => Ok(format!(in alloc; "{}", encoded.octets)?),
        },
        Err(misfit) => Ok(format!(in alloc; "{:?} part {}", misfit.reason, misfit.part)?),
    }
}

/// Encodes a value of one type as one of another, into `room` octets.
fn encoded_as(
    alloc: Global,
    is_aligned: bool,
    room: usize,
    octets: &[u8],
    from: &Schema,
    to: &Schema,
) -> Result<String, RowError> {
    if octets.len() > 1_000_000 {
        return Err(wrong(alloc, "octets", "short message"));
    }
    let context = Context {
        tables: tables_of(from),
        defaults: defaults_of(from),
        octets,
        is_aligned,
    };
    let mut parts = vec![in alloc; Part::Absent; ROOM]?;
    let Ok(count) = decode(&context, DEPTH, from.node, parts.as_mut_slice()) else {
        return Err(wrong(alloc, "octets", "message of the first type"));
    };
    let Some(parts) = parts.as_slice().get(..count) else {
        return Err(wrong(alloc, "octets", "value of few parts"));
    };
    let value = Value {
        tables: tables_of(to),
        defaults: defaults_of(to),
        parts,
        source: octets,
        is_aligned,
    };
    message_of(alloc, room, &value, to.node)
}

/// Returns the tables of a type.
fn tables_of<'a>(schema: &'a Schema) -> Tables<'a> {
    Tables {
        nodes: schema.nodes.as_slice(),
        members: schema.members.as_slice(),
        ranges: schema.ranges.as_slice(),
    }
}

/// Returns the encodings of the default values of a type.
fn defaults_of<'a>(schema: &'a Schema) -> Defaults<'a> {
    Defaults {
        octets: schema.default_octets.as_slice(),
        spans: schema.default_spans.as_slice(),
    }
}

/// Answers a row of two types, which `as` separates.
fn answer_as(
    alloc: Global,
    is_aligned: bool,
    room: usize,
    octets: &[u8],
    words: &[&str],
) -> Result<String, RowError> {
    let Some(place) = words.iter().position(|word| *word == "as") else {
        return Err(wrong(alloc, "the row", "row of two types"));
    };
    let (from, rest) = words.split_at(place);
    let Some((_, to)) = rest.split_first() else {
        return Err(wrong(alloc, "the row", "row of two types"));
    };
    let from = schema_of(alloc, is_aligned, from)?;
    let to = schema_of(alloc, is_aligned, to)?;
    encoded_as(alloc, is_aligned, room, octets, &from, &to)
}

/// The calls of the rows.
struct Calls;

impl Answers for Calls {
    fn answer(&self, alloc: Global, call: &str, words: &[&str]) -> Result<String, RowError> {
        let Some((message, words)) = words.split_first() else {
            return Err(wrong(alloc, call, "call with octets"));
        };
        let message = octets(alloc, message)?;
        let (is_aligned, form) = match call {
            "uper" => (false, Form::Parts),
            "aper" => (true, Form::Parts),
            "uper-error" => (false, Form::Words),
            "uper-many" => (false, Form::Number),
            "aper-many" => (true, Form::Number),
            "uper-as" => return answer_as(alloc, false, LARGE, message.as_slice(), words),
            "aper-as" => return answer_as(alloc, true, LARGE, message.as_slice(), words),
            "uper-short" => return answer_as(alloc, false, 0, message.as_slice(), words),
            _ => return Err(wrong(alloc, call, "variant")),
        };
        let schema = schema_of(alloc, is_aligned, words)?;
        decoded(alloc, is_aligned, form, message.as_slice(), &schema)
    }
}

/// Runs on standard input and output.
fn main(rt: HostRuntime) -> Result<ExitCode, RowError> {
    let mut input = BufReader::new(rt.alloc(), rt.stdin())?;
    let status = run(rt.alloc(), &Calls, &mut input, &mut rt.stdout())?;
    Ok(ExitCode::from(status))
}

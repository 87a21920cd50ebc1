//! What decodes and encodes values, by rules.

ghost use Rattle.std.specs.Prelude.{◌≡◌, ◌*◌, ◌-◌, ◌^◌, ◌<◌, length};

use crate::rules::Rules;
use asn1_defaults::{DefaultEncodings, DefaultError};
use asn1_resolve::Schema;
use asn1_schema::Part;
use asn1_x690_decode::{Defaults, Explanation, explain};
use asn1_x691_encode::Misfit;
use std::alloc::Global;
use std::cell::Cell;
use thiserror::Error;

/// What decodes and encodes values of one type.
#[derive(Drop)]
pub struct Codec {
    rules: Rules,
    /// The encodings of default values.
    defaults: DefaultEncodings,
}

/// A type, and how a value of it is decoded.
#[derive(Clone, Copy, Debug)]
pub struct Target {
    /// The node of the type.
    pub node: usize,
    /// A value may be nested less deep than this.
    pub depth: usize,
    /// Whether octets may follow the value.
    pub is_prefix: bool,
}

/// Why octets encode no value.
#[derive(Clone, Copy, Debug, PartialEq, Eq, Error)]
pub enum FaultKind {
    /// By DER.
    #[error("{0}")]
    Der(asn1_x690::FaultKind),
    /// By PER.
    #[error("{0}")]
    Per(asn1_x691::FaultKind),
}

/// The first fault of octets.
#[derive(Clone, Copy, Debug, PartialEq, Eq)]
pub struct Fault {
    /// The node of the type.
    pub node: usize,
    /// The index of the bit.
    pub at: usize,
    /// How many parts were made before it.
    pub parts: usize,
    /// Why no value is encoded there.
    pub kind: FaultKind,
}

/// Values to encode: their parts, and the octets in which the parts have their bits.
#[derive(Clone, Copy, Debug)]
pub struct Source<'s> {
    /// The parts.
    pub parts: &'s [Part],
    /// The octets.
    pub octets: &'s [u8],
    /// A cell for each part, in which DER keeps how many octets lengths take.
    pub lengths: &'s [Cell<u8>],
}

impl Codec {
    /// Makes what decodes and encodes values of the type at a node by rules.
    ///
    /// # Errors
    ///
    /// Returns the first default value that is not supported, or `Memory`.
    pub fn new(
        alloc: Global,
        schema: &Schema,
        node: usize,
        rules: Rules,
    ) -> Result<Codec, DefaultError> {
        let of = match rules {
            Rules::Der => asn1_defaults::Rules::Der,
            Rules::Uper => asn1_defaults::Rules::UnalignedPer,
            Rules::Aper => asn1_defaults::Rules::AlignedPer,
        };
        let defaults = DefaultEncodings::new(alloc, schema, node, of)?;
        Ok(Codec { rules, defaults })
    }

    /// Returns the encodings of default values.
    pub fn defaults(&self) -> Defaults<'_> {
        self.defaults.defaults()
    }

    /// Returns the rules, as items of a SET OF are compared by them.
    pub fn rules(&self) -> asn1_canonical::Rules {
        match self.rules {
            Rules::Der => asn1_canonical::Rules::Der,
            Rules::Uper => asn1_canonical::Rules::UnalignedPer,
            Rules::Aper => asn1_canonical::Rules::AlignedPer,
        }
    }

    /// Returns whether the rules are DER.
    pub fn is_der(&self) -> bool {
        self.rules == Rules::Der
    }

    /// Decodes a value. `parts` receives its first parts, as many as it has room for. Returns how many
    /// parts the value has.
    ///
    /// # Errors
    ///
    /// Returns the first fault of the octets.
    pub fn decode(
        &self,
        schema: &Schema,
        target: Target,
        octets: &[u8],
        parts: &mut [Part],
    ) -> Result<usize, Fault>
        requires { 8 * length octets.now < 2 ^ 64 }
    {
        let defaults = &self.defaults;
        match self.rules {
            Rules::Der => decode_der(schema, defaults, target, octets, parts),
            Rules::Uper => decode_per(schema, defaults, false, target, octets, parts),
            Rules::Aper => decode_per(schema, defaults, true, target, octets, parts),
        }
    }

    /// Explains a fault that [`Codec::decode`] returned for octets. `None` for a fault of PER.
    pub fn explain<'x>(
        &'x self,
        schema: &'x Schema,
        octets: &'x [u8],
        fault: Fault,
    ) -> Option<Explanation<'x>>
        requires { 8 * length octets.now < 2 ^ 64 }
    {
        let FaultKind::Der(kind) = fault.kind else {
            return None;
        };
        let context = der_context(schema, &self.defaults, octets);
        let Fault {
            node,
            at,
            parts,
            ..
        } = fault;
        Some(explain(
            &context,
            asn1_x690_decode::Fault {
                node,
                at,
                parts,
                kind,
            },
        ))
    }

    /// Returns how many octets the element of a value has, and sets the lengths of the source. `None` if the
    /// rules are not DER, or the value does not fit the type.
    pub fn measure(&self, schema: &Schema, target: Target, source: Source<'_>) -> Option<usize>
        requires source { 8 * length source.octets.now < 2 ^ 64 }
        requires parts { length source.parts.now < 2 ^ 64 - 1 }
    {
        if !self.is_der() {
            return None;
        }
        measure_der(schema, &self.defaults, target, source)
    }

    /// Encodes a value of the type at a node into the caller's octets. The result tells how many octets
    /// it needs, also where there is room for fewer.
    ///
    /// # Errors
    ///
    /// Returns the first part that does not fit the type.
    pub fn encode(
        &self,
        schema: &Schema,
        target: Target,
        source: Source<'_>,
        octets: &mut [u8],
    ) -> Result<usize, Misfit>
        requires size { 8 * length octets.old < 2 ^ 64 }
        requires source { 8 * length source.octets.now < 2 ^ 64 }
        requires parts { length source.parts.now < 2 ^ 64 - 1 }
    {
        let defaults = &self.defaults;
        match self.rules {
            Rules::Der => encode_der(schema, defaults, target, source, octets),
            Rules::Uper => encode_per(schema, defaults, false, target, source, octets),
            Rules::Aper => encode_per(schema, defaults, true, target, source, octets),
        }
    }
}

/// Returns what the decoder of DER is given.
fn der_context<'x>(
    schema: &'x Schema,
    encodings: &'x DefaultEncodings,
    octets: &'x [u8],
) -> asn1_x690_decode::Context<'x>
    ensures { result.octets.now ≡ octets.now }
{
    asn1_x690_decode::Context {
        tables: schema.tables(),
        tags: schema.tag_tables(),
        defaults: encodings.defaults(),
        octets,
    }
}

/// Decodes a value of DER.
fn decode_der<'x>(
    schema: &'x Schema,
    encodings: &'x DefaultEncodings,
    target: Target,
    octets: &'x [u8],
    parts: &mut [Part],
) -> Result<usize, Fault>
    requires { 8 * length octets.now < 2 ^ 64 }
{
    let context = der_context(schema, encodings, octets);
    let Target { node, depth, .. } = target;
    let decoded = if target.is_prefix {
        match asn1_x690_decode::decode_prefix(&context, depth, node, parts) {
            Ok(prefix) => Ok(prefix.parts),
            Err(fault) => Err(fault),
        }
    } else {
        asn1_x690_decode::decode(&context, depth, node, parts)
    };
    match decoded {
        Ok(count) => Ok(count),
        Err(fault) => Err(Fault {
            node: fault.node,
            at: fault.at,
            parts: fault.parts,
            kind: FaultKind::Der(fault.kind),
        }),
    }
}

/// Decodes a value of PER.
fn decode_per<'x>(
    schema: &'x Schema,
    encodings: &'x DefaultEncodings,
    is_aligned: bool,
    target: Target,
    octets: &'x [u8],
    parts: &mut [Part],
) -> Result<usize, Fault>
    requires { 8 * length octets.now < 2 ^ 64 }
{
    let context = asn1_x691_decode::Context {
        tables: schema.tables(),
        defaults: encodings.defaults(),
        octets,
        is_aligned,
    };
    let Target { node, depth, .. } = target;
    let decoded = if target.is_prefix {
        match asn1_x691_decode::decode_prefix(&context, depth, node, parts) {
            Ok(prefix) => Ok(prefix.parts),
            Err(fault) => Err(fault),
        }
    } else {
        asn1_x691_decode::decode(&context, depth, node, parts)
    };
    match decoded {
        Ok(count) => Ok(count),
        Err(fault) => Err(Fault {
            node: fault.node,
            at: fault.at,
            parts: fault.parts,
            kind: FaultKind::Per(fault.kind),
        }),
    }
}

/// Returns how many octets the element of a value has.
fn measure_der<'x>(
    schema: &'x Schema,
    encodings: &'x DefaultEncodings,
    target: Target,
    source: Source<'x>,
) -> Option<usize>
    requires source { 8 * length source.octets.now < 2 ^ 64 }
    requires parts { length source.parts.now < 2 ^ 64 - 1 }
{
    let context = asn1_x690_encode::Context {
        tables: schema.tables(),
        tags: schema.tag_tables(),
        defaults: encodings.defaults(),
        parts: source.parts,
        source: source.octets,
        is_ordered: true,
        lengths: source.lengths,
    };
    match asn1_x690_encode::measure(&context, target.depth, target.node) {
        Ok(encoded) => Some(encoded.octets),
        Err(_) => None,
    }
}

/// Encodes a value by DER.
fn encode_der<'x>(
    schema: &'x Schema,
    encodings: &'x DefaultEncodings,
    target: Target,
    source: Source<'x>,
    octets: &mut [u8],
) -> Result<usize, Misfit>
    requires size { 8 * length octets.old < 2 ^ 64 }
    requires source { 8 * length source.octets.now < 2 ^ 64 }
    requires parts { length source.parts.now < 2 ^ 64 - 1 }
{
    let context = asn1_x690_encode::Context {
        tables: schema.tables(),
        tags: schema.tag_tables(),
        defaults: encodings.defaults(),
        parts: source.parts,
        source: source.octets,
        is_ordered: true,
        lengths: source.lengths,
    };
    match asn1_x690_encode::encode(&context, target.depth, target.node, octets) {
        Ok(encoded) => Ok(encoded.octets),
        Err(misfit) => Err(Misfit {
            node: misfit.node,
            part: misfit.part,
            reason: misfit.reason,
        }),
    }
}

/// Encodes a value by PER.
fn encode_per<'x>(
    schema: &'x Schema,
    encodings: &'x DefaultEncodings,
    is_aligned: bool,
    target: Target,
    source: Source<'x>,
    octets: &mut [u8],
) -> Result<usize, Misfit>
    requires size { 8 * length octets.old < 2 ^ 64 }
    requires source { 8 * length source.octets.now < 2 ^ 64 }
    requires parts { length source.parts.now < 2 ^ 64 - 1 }
{
    let context = asn1_x691_encode::Context {
        tables: schema.tables(),
        defaults: encodings.defaults(),
        parts: source.parts,
        source: source.octets,
        is_aligned,
    };
    match asn1_x691_encode::encode(&context, target.depth, target.node, octets) {
        Ok(encoded) => Ok(encoded.octets),
        Err(misfit) => Err(misfit),
    }
}

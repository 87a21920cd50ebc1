//! Encodes messages.

ghost use Rattle.std.specs.Prelude.{◌-◌, ◌*◌, ◌^◌, ◌<◌, length, IfOk, IfErr};
ghost use Rattle.asn1_x690_encode.specs.Messages.{IsMeasured, IsMessage, IsRejected};

use crate::context::Context;
use crate::lengths::clear;
use crate::node::encode_node;
use asn1_x691_fields::Defaults;
use asn1_x691_writers::{Rejection, Writer};
use thiserror::Error;

/// What was encoded.
#[derive(Clone, Copy, Debug, PartialEq, Eq)]
pub struct Encoded {
    /// How many octets the element has, even if there was no room for them; 2^61 - 1 if it has as many
    /// or more.
    pub octets: usize,
    /// How many parts the value has.
    pub parts: usize,
}

/// Why parts were not encoded.
#[derive(Clone, Copy, Debug, PartialEq, Eq, Error)]
#[error("part {part}, type {node}: {reason:?}")]
pub struct Misfit {
    /// The node of the schema.
    pub node: usize,
    /// The index of the part.
    pub part: usize,
    /// Why the part has no encoding, or is not encoded.
    pub reason: Rejection,
}

/// Encodes the first parts of a context as an element (X.690 8.1.1), a value of the type at a node.
///
/// `octets` receives the element. If it has too few octets, the result still has the number that is
/// needed, and the octets have no meaning. A value that is nested `depth` levels or deeper is a misfit.
/// `octets` and the source must each have fewer than 2^61 octets, and there must be fewer than 2^64 - 1
/// parts.
///
/// # Errors
///
/// Returns the first misfit: the part that does not fit the type at a node, and why. The octets have no
/// meaning then. Two reasons are no misfit:
///
/// - [`Rejection::Unsupported`]: the encoder does not support the part, as `specs/Encoding` defines.
/// - [`Rejection::NoRoom`]: the part begins a value of more than 504 bits that must be compared with a
///   default value, or one of two items of a SET OF of more than 504 bits, and the octets are too few
///   for them. The node is that of their type.
///
/// # Examples
///
/// ```
/// use asn1_resolve::Schema;
/// use asn1_schema::Part;
/// use asn1_x690_encode::{Context, encode};
/// use asn1_x691_fields::Defaults;
///
/// let text = "M DEFINITIONS ::= BEGIN Yes ::= BOOLEAN END";
/// let schema = Schema::parse(rt.alloc(), text)?;
/// let context = Context {
///     tables: schema.tables(),
///     tags: schema.tag_tables(),
///     defaults: Defaults {
///         octets: &[],
///         spans: &[],
///     },
///     parts: &[Part::Truth(true)],
///     source: &[],
///     is_ordered: true,
///     lengths: &[],
/// };
/// let mut octets = [0; 8];
/// let node = schema.node_named("Yes").unwrap_or(0);
/// let encoded = encode(&context, 10, node, &mut octets)?;
/// assert!(rt; octets.get(..encoded.octets) == Some([1, 1, 0xFF].as_slice()));
/// ```
pub fn encode(
    context: &Context<'_>,
    depth: usize,
    node: usize,
    octets: &mut [u8],
) -> Result<Encoded, Misfit>
    requires size { 8 * length octets.old < 2 ^ 64 }
    requires source { 8 * length context.now.source.now < 2 ^ 64 }
    requires parts { length context.now.parts.now < 2 ^ 64 - 1 }
    ensures encoded { IfOk result (λ e. IsMessage context.now depth node octets.new e) }
    ensures misfit { IfErr result (λ e. IsRejected context.now depth node e) }
{
    let mut state = Writer {
        at: 0,
        next: 0,
        node,
        reason: Rejection::Unsupported,
    };
    match encode_node(context, depth, node, octets, &mut state) {
        None => Err(Misfit {
            node: state.node,
            part: state.next,
            reason: state.reason,
        }),
        Some(_) => Ok(Encoded {
            octets: state.at / 8,
            parts: state.next,
        }),
    }
}

/// Counts the octets of the element of the first parts of a context, a value of the type at a node, and sets
/// the `lengths` of the context: how many octets the length of each element takes. [`encode`] then moves no
/// contents, and takes time linear in the message.
///
/// Values are not compared: a default value may be present, and the items of a SET OF may have any order. So
/// the count is that of [`encode`] if that finds no misfit. The source must have fewer than 2^61 octets, and
/// there must be fewer than 2^64 - 1 parts.
///
/// # Errors
///
/// Returns the first misfit, as [`encode`] does.
///
/// # Examples
///
/// ```
/// use asn1_resolve::Schema;
/// use asn1_schema::{Part, Span};
/// use asn1_x690_encode::{Context, encode, measure};
/// use asn1_x691_fields::Defaults;
/// use std::cell::Cell;
///
/// let text = "M DEFINITIONS ::= BEGIN Text ::= OCTET STRING END";
/// let schema = Schema::parse(rt.alloc(), text)?;
/// let source = [7u8; 200];
/// let lengths = [Cell::new(0)];
/// let context = Context {
///     tables: schema.tables(),
///     tags: schema.tag_tables(),
///     defaults: Defaults {
///         octets: &[],
///         spans: &[],
///     },
///     parts: &[Part::Octets(Span { at: 0, count: 1600 })],
///     source: &source,
///     is_ordered: true,
///     lengths: &lengths,
/// };
/// let node = schema.node_named("Text").unwrap_or(0);
/// assert!(rt; measure(&context, 10, node)?.octets == 203);
/// assert!(rt; lengths[0].get() == 2);
/// let mut octets = [0; 203];
/// encode(&context, 10, node, &mut octets)?;
/// assert!(rt; octets.get(..4) == Some([4, 0x81, 200, 7].as_slice()));
/// ```
pub fn measure(context: &Context<'_>, depth: usize, node: usize) -> Result<Encoded, Misfit>
    requires source { 8 * length context.now.source.now < 2 ^ 64 }
    requires parts { length context.now.parts.now < 2 ^ 64 - 1 }
    ensures { IsMeasured context.now depth node result }
{
    clear(context.lengths);
    let uncompared = Context {
        defaults: Defaults {
            octets: &[],
            spans: &[],
        },
        is_ordered: false,
        ..*context
    };
    encode(&uncompared, depth, node, &mut [])
}

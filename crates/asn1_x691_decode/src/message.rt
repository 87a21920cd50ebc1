//! Decodes messages.

ghost use Rattle.std.specs.Prelude.{◌≡◌, ◌<◌, ◌^◌, ◌*◌, length, IfOk, IfErr};
ghost use Rattle.asn1_bits.specs.Bits.{bits};
ghost use Rattle.asn1_x691_decode.specs.Messages.{IsComplete, IsFirstFault, IsPrefix, IsFirstFaultOfPrefix};

use crate::context::Context;
use crate::decoder::decode_node;
use crate::open_type::decode_complete;
use asn1_schema::{Member, Part, Presence};
use asn1_x691::FaultKind;
use asn1_x691_fields::State;
use thiserror::Error;

/// The first fault of a message.
#[derive(Clone, Copy, Debug, PartialEq, Eq, Error)]
#[error("bit {at}, type {node}: {kind}")]
pub struct Fault {
    /// The node of the schema.
    pub node: usize,
    /// The index of the bit in the message.
    pub at: usize,
    /// How many parts were made before it. They lead to the value that has the fault
    /// (`asn1_schema_values::Path`).
    pub parts: usize,
    /// Why no value is encoded there.
    pub kind: FaultKind,
}

/// A value at the beginning of a message.
#[derive(Clone, Copy, Debug, PartialEq, Eq)]
pub struct Prefix {
    /// How many parts it has.
    pub parts: usize,
    /// How many bits encode it.
    pub bits: usize,
}

/// Returns the state before the first bit of a message.
fn begin(octets: &[u8], node: usize) -> State
    requires { 8 * length octets.now < 2 ^ 64 }
    ensures at { result.at ≡ 0 }
    ensures first { result.first ≡ 0 }
    ensures end { result.end ≡ 8 * length octets.now }
    ensures count { result.count ≡ 0 }
{
    State {
        at: 0,
        first: 0,
        end: 8 * octets.len(),
        count: 0,
        node,
        kind: FaultKind::Short,
    }
}

/// Decodes a message that is the complete encoding (X.691 11.1) of a value of the type at a node.
/// Returns how many parts the value has.
///
/// `parts` receives the first parts of the value, as many as it has room for. A value that is
/// nested `depth` levels or deeper is a fault. The message must have fewer than 2^61 octets.
///
/// # Errors
///
/// Returns the first fault of the message. The kind is [`FaultKind::Unsupported`] if a length,
/// other than that of an OCTET STRING or of a SEQUENCE OF, has a fragment (X.691 11.9.3.8), if the
/// items of a fragment have no bits, or if an item of a SET OF does not begin at an octet in the
/// ALIGNED variant.
///
/// # Examples
///
/// ```
/// use asn1_resolve::Schema;
/// use asn1_schema::Part;
/// use asn1_x691_decode::{Context, Defaults, decode};
///
/// let text = "M DEFINITIONS ::= BEGIN Age ::= INTEGER (0..127) END";
/// let schema = Schema::parse(rt.alloc(), text)?;
/// let context = Context {
///     tables: schema.tables(),
///     defaults: Defaults {
///         octets: &[],
///         spans: &[],
///     },
///     octets: &[0b0011_1100],
///     is_aligned: false,
/// };
/// let mut parts = [Part::Absent; 4];
/// let node = schema.node_named("Age").unwrap_or(0);
/// let count = decode(&context, 10, node, &mut parts)?;
/// assert!(rt; count == 1);
/// ```
pub fn decode(
    context: &Context<'_>,
    depth: usize,
    node: usize,
    parts: &mut [Part],
) -> Result<usize, Fault>
    requires { 8 * length context.now.octets.now < 2 ^ 64 }
    ensures accepted { IfOk result (λ count. IsComplete context.now depth node parts.new count) }
    ensures fault { IfErr result (λ e. IsFirstFault context.now depth node e) }
{
    let mut state = begin(context.octets, node);
    let member = Member {
        node,
        presence: Presence::Mandatory,
    };
    if decode_complete(context, depth, node, member, &mut state, parts) {
        return Ok(state.count);
    }
    Err(Fault {
        node: state.node,
        at: state.at,
        parts: state.count,
        kind: state.kind,
    })
}

/// Decodes a value of the type at a node from the beginning of a message, as [`decode`] does. Bits
/// may follow it.
///
/// # Errors
///
/// Returns the first fault, as [`decode`] does, but none for the bits after the value.
pub fn decode_prefix(
    context: &Context<'_>,
    depth: usize,
    node: usize,
    parts: &mut [Part],
) -> Result<Prefix, Fault>
    requires { 8 * length context.now.octets.now < 2 ^ 64 }
    ensures accepted { IfOk result (λ p. IsPrefix context.now depth node parts.new p) }
    ensures fault { IfErr result (λ e. IsFirstFaultOfPrefix context.now depth node e) }
{
    let mut state = begin(context.octets, node);
    if decode_node(context, depth, node, &mut state, parts) {
        return Ok(Prefix {
            parts: state.count,
            bits: state.at,
        });
    }
    Err(Fault {
        node: state.node,
        at: state.at,
        parts: state.count,
        kind: state.kind,
    })
}

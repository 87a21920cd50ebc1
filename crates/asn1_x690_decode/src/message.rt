//! Decodes messages.

ghost use Rattle.std.specs.Prelude.{◌≡◌, ◌<◌, ◌^◌, ◌*◌, length, IfOk, IfErr};
ghost use Rattle.asn1_x690_decode.specs.Messages.{IsComplete, IsFirstFault, IsPrefix, IsFirstFaultOfPrefix};

use crate::context::Context;
use crate::element::decode_element;
use asn1_schema::Part;
use asn1_x690::FaultKind;
use asn1_x690_fields::{State, fail};
use thiserror::Error;

/// The first fault of a message.
#[derive(Clone, Copy, Debug, PartialEq, Eq, Error)]
#[error("bit {at}, type {node}: {kind}")]
pub struct Fault {
    /// The node of the schema.
    pub node: usize,
    /// The index of the bit in the message, a multiple of 8.
    pub at: usize,
    /// How many parts were made before it. They lead to the value that has the fault
    /// (`asn1_schema_values::Path`).
    pub parts: usize,
    /// Why no value is encoded there.
    pub kind: FaultKind,
}

/// A value at the beginning of a message.
#[derive(Clone, Copy, Debug, PartialEq, Eq)]
pub struct Prefix {
    /// How many parts it has.
    pub parts: usize,
    /// How many bits encode it, a multiple of 8.
    pub bits: usize,
}

/// Returns the state before the first bit of a message.
fn begin(octets: &[u8], node: usize) -> State
    requires { 8 * length octets.now < 2 ^ 64 }
    ensures at { result.at ≡ 0 }
    ensures end { result.end ≡ 8 * length octets.now }
    ensures count { result.count ≡ 0 }
{
    State {
        at: 0,
        end: 8 * octets.len(),
        count: 0,
        node,
        kind: FaultKind::Short,
    }
}

/// Decodes a message that is one element (X.690 8.1.1), a value of the type at a node. Returns how
/// many parts the value has.
///
/// `parts` receives the first parts of the value, as many as it has room for. A value that is nested
/// `depth` levels or deeper is a fault. The message must have fewer than 2^61 octets.
///
/// # Errors
///
/// Returns the first fault of the message. Its kind is [`FaultKind::Extra`] if octets follow the
/// element.
///
/// # Examples
///
/// ```
/// use asn1_resolve::Schema;
/// use asn1_schema::Part;
/// use asn1_x690_decode::{Context, Defaults, decode};
///
/// let text = "M DEFINITIONS ::= BEGIN Age ::= INTEGER END";
/// let schema = Schema::parse(rt.alloc(), text)?;
/// let context = Context {
///     tables: schema.tables(),
///     tags: schema.tag_tables(),
///     defaults: Defaults {
///         octets: &[],
///         spans: &[],
///     },
///     octets: &[2, 1, 30],
/// };
/// let mut parts = [Part::Absent; 4];
/// let node = schema.node_named("Age").unwrap_or(0);
/// let count = decode(&context, 10, node, &mut parts)?;
/// assert!(rt; count == 1);
/// ```
pub fn decode(
    context: &Context<'_>,
    depth: usize,
    node: usize,
    parts: &mut [Part],
) -> Result<usize, Fault>
    requires { 8 * length context.now.octets.now < 2 ^ 64 }
    ensures accepted { IfOk result (λ count. IsComplete context.now depth node parts.new count) }
    ensures fault { IfErr result (λ e. IsFirstFault context.now depth node e) }
{
    let mut state = begin(context.octets, node);
    if decode_element(context, depth, node, &mut state, parts) {
        if state.at == state.end {
            return Ok(state.count);
        }
        fail(&mut state, node, FaultKind::Extra);
    }
    Err(Fault {
        node: state.node,
        at: state.at,
        parts: state.count,
        kind: state.kind,
    })
}

/// Decodes a value of the type at a node from the beginning of a message, as [`decode`] does. Octets
/// may follow its element.
///
/// # Errors
///
/// Returns the first fault, as [`decode`] does, but none for the octets after the element.
pub fn decode_prefix(
    context: &Context<'_>,
    depth: usize,
    node: usize,
    parts: &mut [Part],
) -> Result<Prefix, Fault>
    requires { 8 * length context.now.octets.now < 2 ^ 64 }
    ensures accepted { IfOk result (λ p. IsPrefix context.now depth node parts.new p) }
    ensures fault { IfErr result (λ e. IsFirstFaultOfPrefix context.now depth node e) }
{
    let mut state = begin(context.octets, node);
    if decode_element(context, depth, node, &mut state, parts) {
        return Ok(Prefix {
            parts: state.count,
            bits: state.at,
        });
    }
    Err(Fault {
        node: state.node,
        at: state.at,
        parts: state.count,
        kind: state.kind,
    })
}

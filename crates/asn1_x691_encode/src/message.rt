//! Encodes messages.

ghost use Rattle.std.specs.Prelude.{ℕ, Bool, List, Option, ◌≡◌, ◌-◌, ◌*◌, ◌^◌, ◌<◌, ◌≤◌, length, IfOk, IfErr};
ghost use Rattle.asn1_x691_encode.specs.Messages.{IsMessage, IsRejected};

use crate::context::Context;
use crate::encoder::encode_node;
use crate::padding::zeros_after;
use asn1_x691_writers::{Rejection, Writer, put_zeros};
use thiserror::Error;

/// What was encoded.
#[derive(Clone, Copy, Debug, PartialEq, Eq)]
pub struct Encoded {
    /// How many octets the message has, even if there was no room for them; 2^61 - 1 if it has as many
    /// or more.
    pub octets: usize,
    /// How many parts the value has.
    pub parts: usize,
}

/// Why parts were not encoded.
#[derive(Clone, Copy, Debug, PartialEq, Eq, Error)]
#[error("part {part}, type {node}: {reason:?}")]
pub struct Misfit {
    /// The node of the schema.
    pub node: usize,
    /// The index of the part.
    pub part: usize,
    /// Why the part has no encoding, or is not encoded.
    pub reason: Rejection,
}

/// Encodes the first parts of a context as a message: the complete encoding (X.691 11.1) of a value of
/// the type at a node.
///
/// `octets` receives the message. If it has too few octets, the result still has the number that is
/// needed, and the octets have no meaning. A value that is nested `depth` levels or deeper is a
/// misfit. `octets` and the source must each have fewer than 2^61 octets, and there must be fewer than
/// 2^64 - 1 parts.
///
/// # Errors
///
/// Returns the first misfit: the part that does not fit the type at a node, and why. The octets have
/// no meaning then. Two reasons are no misfit:
///
/// - [`Rejection::Unsupported`]: the encoder does not support the part. It begins an open type of
///   16,384 octets or more, is an identifier or a REAL in fragments, is a BIT STRING in fragments of
///   2^64 bits or more, is an INTEGER or an index that is too large, or begins an item of a SET OF that
///   does not begin at an octet in the ALIGNED variant.
/// - [`Rejection::NoRoom`]: the part begins a value of more than 504 bits that must be compared, and
///   the octets are too few for it: a component with its default value, or an item of a SET OF with
///   the item before it.
///
/// # Examples
///
/// ```
/// use asn1_resolve::Schema;
/// use asn1_schema::Part;
/// use asn1_x691_encode::{Context, Defaults, encode};
///
/// let text = "M DEFINITIONS ::= BEGIN Yes ::= BOOLEAN END";
/// let schema = Schema::parse(rt.alloc(), text)?;
/// let context = Context {
///     tables: schema.tables(),
///     defaults: Defaults {
///         octets: &[],
///         spans: &[],
///     },
///     parts: &[Part::Truth(true)],
///     source: &[],
///     is_aligned: false,
/// };
/// let mut octets = [0; 8];
/// let node = schema.node_named("Yes").unwrap_or(0);
/// let encoded = encode(&context, 10, node, &mut octets)?;
/// assert!(rt; octets.get(..encoded.octets) == Some([0x80].as_slice()));
/// ```
pub fn encode(
    context: &Context<'_>,
    depth: usize,
    node: usize,
    octets: &mut [u8],
) -> Result<Encoded, Misfit>
    requires size { 8 * length octets.old < 2 ^ 64 }
    requires source { 8 * length context.now.source.now < 2 ^ 64 }
    requires parts { length context.now.parts.now < 2 ^ 64 - 1 }
    ensures encoded { IfOk result (λ e. IsMessage context.now depth node octets.new e) }
    ensures misfit { IfErr result (λ e. IsRejected context.now depth node e) }
{
    let mut state = Writer {
        at: 0,
        next: 0,
        node,
        reason: Rejection::Unsupported,
    };
    if !encode_node(context, depth, node, octets, &mut state) {
        return Err(Misfit {
            node: state.node,
            part: state.next,
            reason: state.reason,
        });
    }
    let end = put_zeros(octets, state.at, zeros_after(state.at));
    Ok(Encoded {
        octets: end / 8,
        parts: state.next,
    })
}

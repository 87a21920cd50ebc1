//! Where an encoder is, and why it stopped.

ghost use Rattle.std.specs.Prelude.{◌≡◌, false};
ghost use Rattle.asn1_x691_writers.specs.declared.state.Rejection.TheVariants.{Misfit, Unsupported};

use asn1_schema::MisfitKind;

/// Why a part was not written.
#[derive(Clone, Copy, Debug, PartialEq, Eq)]
pub enum Rejection {
    /// The part has no encoding.
    Misfit(MisfitKind),
    /// The part may have an encoding, which is not written yet: an unknown value of an ENUMERATED
    /// whose index is 2^128 or more; or an INTEGER outside -2^127 to 2^127 - 1, unless its type has
    /// no extension marker and the part is what a decoder of that type returns.
    Unsupported,
    /// The part begins a value of more than 504 bits that must be compared, and the octets are too
    /// few for it: a component with its default value, or an item of a SET OF with the item before
    /// it.
    NoRoom,
}

/// Where an encoder is in the octets that it writes and in the parts that it encodes, and why it
/// stopped.
#[derive(Clone, Copy, Debug)]
pub struct Writer {
    /// The index of the next bit, even if the octets are too few for it.
    pub at: usize,
    /// The index of the next part.
    pub next: usize,
    /// The node at which a part was rejected, if one was. It is the next part.
    pub node: usize,
    /// Why it was rejected.
    pub reason: Rejection,
}

/// Rejects the next part, which does not fit the type at a node. Returns `false`.
#[inline(always)]
pub fn reject(state: &mut Writer, node: usize, kind: MisfitKind) -> bool
    ensures result { result ≡ false }
    ensures at { state.new.at ≡ state.old.at }
    ensures next { state.new.next ≡ state.old.next }
    ensures node { state.new.node ≡ node }
    ensures reason { state.new.reason ≡ Misfit kind }
{
    state.node = node;
    state.reason = Rejection::Misfit(kind);
    false
}

/// Rejects the next part as unsupported: its number is too large for this encoder. Returns `false`.
#[cold]
pub fn leave(state: &mut Writer, node: usize) -> bool
    ensures result { result ≡ false }
    ensures at { state.new.at ≡ state.old.at }
    ensures next { state.new.next ≡ state.old.next }
    ensures node { state.new.node ≡ node }
    ensures reason { state.new.reason ≡ Unsupported }
{
    state.node = node;
    state.reason = Rejection::Unsupported;
    false
}

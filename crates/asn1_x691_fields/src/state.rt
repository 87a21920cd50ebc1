//! Where a decoder is, and the fault that it found.

ghost use Rattle.std.specs.Prelude.{◌≡◌};

use asn1_x691::FaultKind;

/// Where a decoder is in a message, how many parts it has decoded, and the fault that it found. An
/// index counts the bits of the message.
#[derive(Clone, Copy, Debug)]
pub struct State {
    /// The index of the next bit.
    pub at: usize,
    /// The index of the first bit of the complete encoding: of the message, or of the contents of an
    /// open type.
    pub first: usize,
    /// The index after the last bit.
    pub end: usize,
    /// How many parts were decoded.
    pub count: usize,
    /// The node of the fault, if there is one. Its index is `at`.
    pub node: usize,
    /// The kind of the fault.
    pub kind: FaultKind,
}

/// Sets a fault at the next bit.
#[inline(always)]
pub fn fail(state: &mut State, node: usize, kind: FaultKind)
    ensures at { state.new.at ≡ state.old.at }
    ensures first { state.new.first ≡ state.old.first }
    ensures end { state.new.end ≡ state.old.end }
    ensures count { state.new.count ≡ state.old.count }
    ensures node { state.new.node ≡ node }
    ensures kind { state.new.kind ≡ kind }
{
    state.node = node;
    state.kind = kind;
}

//! The types of values of one part.

ghost use Rattle.std.specs.Prelude.{◌≡◌};
ghost use Rattle.asn1_builder.specs.Kinds.{is_of_kind as is_of};

use asn1_schema::Node;

/// A type of values of one part.
#[derive(Clone, Copy, Debug, PartialEq, Eq)]
pub(crate) enum Kind {
    Null,
    Boolean,
    /// INTEGER, of any bounds.
    Integer,
    /// INTEGER without a lower bound.
    Unbounded,
    Enumerated,
    Bits,
    Octets,
    ObjectIdentifier,
    RelativeIdentifier,
    Real,
    Utf8,
    Text,
    Time,
}

/// Returns whether a type is of a kind.
pub(crate) fn is_of_kind(kind: Kind, node: &Node) -> bool
    ensures { result ≡ is_of kind node.now }
{
    match (kind, *node) {
        (Kind::Null, Node::Null) => true,
        (Kind::Boolean, Node::Boolean) => true,
        (Kind::Integer, Node::IntegerBetween { .. }) => true,
        (Kind::Integer, Node::IntegerAtLeast { .. }) => true,
        (Kind::Integer, Node::Integer) => true,
        (Kind::Unbounded, Node::Integer) => true,
        (Kind::Enumerated, Node::Enumerated { .. }) => true,
        (Kind::Bits, Node::BitString { .. }) => true,
        (Kind::Octets, Node::OctetString { .. }) => true,
        (Kind::ObjectIdentifier, Node::ObjectIdentifier) => true,
        (Kind::RelativeIdentifier, Node::RelativeIdentifier) => true,
        (Kind::Real, Node::Real) => true,
        (Kind::Utf8, Node::Utf8String) => true,
        (Kind::Text, Node::Text { .. }) => true,
        (Kind::Time, Node::Time { .. }) => true,
        _ => false,
    }
}

//! The laws of sums that wrap.
ghost use Rattle.asn1_number.specs.Readings.{SignedOf, UnsignedOf};
ghost use Rattle.asn1_integer.specs.Wrapping.{WrapsToOne, HasOneResidue};

/// Proves the laws of wrapping at every native type: the wrapped number and the residue are
/// determined. Its contract is the laws; it does nothing when it runs.
pub fn laws_of_wrapping()
    ensures signed { WrapsToOne SignedOf }
    ensures unsigned { WrapsToOne UnsignedOf }
    ensures signed_residue { HasOneResidue SignedOf }
    ensures unsigned_residue { HasOneResidue UnsignedOf }
{}

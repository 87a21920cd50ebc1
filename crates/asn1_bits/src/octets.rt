//! Octets that are borrowed or a copy.

ghost use Rattle.std.specs.Prelude.{◌≡◌, ◌<◌, All};
ghost use Rattle.asn1_bits.specs.Octets.{octets_in};

/// Octets that were read: borrowed from the storage if they are on its octet boundaries, otherwise
/// copied. Two are equal if they hold the same octets, borrowed or copied.
#[derive(Debug, Drop)]
pub enum Octets<'a> {
    /// Octets of the storage.
    Borrowed(&'a [u8]),
    /// A copy.
    Owned(Vec<u8>),
}

impl<'a> Octets<'a> {
    /// Returns the octets, borrowed or copied.
    pub fn as_ref(&self) -> &[u8]
        ensures list { result.now ≡ octets_in self.now }
        ensures octets { All (λ octet. octet < 256) (octets_in self.now) }
    {
        known_octets(match self {
            Octets::Borrowed(octets) => octets,
            Octets::Owned(octets) => octets.as_slice(),
        })
    }
}

/// Returns the slice. Its contract says that each item is below 256.
pub(crate) fn known_octets(octets: &[u8]) -> &[u8]
    ensures list { result.now ≡ octets.now }
    ensures octets { All (λ octet. octet < 256) octets.now }
{
    octets
}

impl PartialEq for Octets<'_> {
    ghost use Rattle.std.specs.Prelude.{nat_eq};
    ghost use Rattle.std.specs.Cmp.{on_equiv, partial_equiv_from_equiv};
    ghost use Rattle.std.specs.Cmp.Lexicographic.{pointwise, nat_list_eq_equiv};
    ghost use Rattle.std.specs.Ordering.{on};
    ghost use Rattle.asn1_bits.specs.Octets.{octets_in};

    ghost eq = { on octets_in (pointwise nat_eq) };

    ghost laws = { partial_equiv_from_equiv (on_equiv octets_in nat_list_eq_equiv) };

    fn eq(&self, other: &Self) -> bool {
        self.as_ref() == other.as_ref()
    }
}

impl Eq for Octets<'_> {
    ghost use Rattle.std.specs.Cmp.{on_equiv};
    ghost use Rattle.std.specs.Cmp.Lexicographic.{nat_list_eq_equiv};
    ghost use Rattle.asn1_bits.specs.Octets.{octets_in};

    ghost laws = { on_equiv octets_in nat_list_eq_equiv };
}

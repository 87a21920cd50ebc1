//! Octets of a message that are in fragments (X.691 11.9.3.8).

ghost use Rattle.std.specs.Prelude.{◌≡◌, ◌<◌, ◌≤◌, ◌^◌, ◌*◌, ◌+◌, length};
ghost use Rattle.asn1_bits.specs.Bits.{bits, number};
ghost use Rattle.asn1_schema.specs.PiecesOfParts.{bits_at, joined};
ghost use Rattle.asn1_x691_fields.specs.Fragments.{AreInside};

use crate::bits::number_at;
use asn1_schema::Fragments;

/// The octets of a message that are in fragments.
#[derive(Clone, Copy, Debug)]
pub(crate) struct FragmentOctets<'m> {
    /// The message.
    pub(crate) octets: &'m [u8],
    /// Where the fragments are.
    pub(crate) fragments: Fragments,
    /// How many octets there are.
    pub(crate) count: usize,
    ghost size: { 8 * length octets.now < 2 ^ 64 },
    ghost inside: { AreInside 8 (bits octets.now) fragments },
    ghost all: { 8 * count ≡ length (joined 8 (bits octets.now) fragments) },
}

impl FragmentOctets<'_> {
    /// Returns the index of the first bit of an octet, which must be below the number of octets.
    fn bit_of(&self, index: usize) -> usize
        requires { index < self.now.count }
        ensures inside { result + 8 ≤ 8 * length self.now.octets.now }
        ensures same { bits_at (bits self.now.octets.now) result 8
            ≡ bits_at (joined 8 (bits self.now.octets.now) self.now.fragments) (8 * index) 8 }
    {
        let fragments = &self.fragments;
        if index / 65_536 < fragments.whole {
            return fragments.at + 524_296 * (index / 65_536) + 8 * (index % 65_536);
        }
        let after = index - 65_536 * fragments.whole;
        let middle = fragments.middle.count / 8;
        if after < middle {
            return fragments.middle.at + 8 * after;
        }
        fragments.last.at + 8 * (after - middle)
    }

    /// Returns an octet by its index, which must be below the number of octets.
    pub(crate) fn octet(&self, index: usize) -> u64
        requires { index < self.now.count }
        ensures { result ≡ number (bits_at (joined 8 (bits self.now.octets.now) self.now.fragments) (8 * index) 8) }
    {
        number_at(self.octets, self.bit_of(index), 8)
    }
}

//! Octets that lie in a view.

ghost use Rattle.std.specs.Prelude.{◌/◌};
ghost use Rattle.asn1_bits.specs.BitStr.{view_of, bits_of};
ghost use Rattle.asn1_values.specs.Walk.{octets_of};

use asn1_bits::{BitStr, read_u128};
use asn1_oid::OctetSource;

/// The octets that lie in a view one after another, from any bit of an octet of the storage on.
#[derive(Clone, Copy)]
pub(super) struct ViewOctets<'a> {
    pub(super) bits: BitStr<'a>,
}

impl OctetSource for ViewOctets<'_> {
    ghost list = { λ s. octets_of ((view_of s.bits).len / 8) (bits_of s.bits) };

    fn count(&self) -> usize {
        self.bits.len() / 8
    }

    fn octet(&self, i: usize) -> u8 {
        // For the proof: `len()` ensures that the length, and so each index, is below 2^64.
        let _len = self.bits.len();
        read_u128(self.bits.slice(8 * i, 8)) as u8
    }
}

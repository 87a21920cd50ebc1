//! Characters and octets of a message, which may begin at any bit.

ghost use Rattle.std.specs.Prelude.{◌≡◌, ◌≤◌, ◌<◌, ◌^◌, ◌*◌, ◌+◌, length, drop};
ghost use Rattle.asn1_bits.specs.Bits.{bits};
ghost use Rattle.asn1_schema.specs.CharactersOfParts.{numbers_in};

use crate::bits::number_at;
use asn1_schema::NumberSource;

/// Numbers of up to 32 bits each, one after another in a message.
#[derive(Clone, Copy, Debug)]
pub struct NumbersAt<'s> {
    octets: &'s [u8],
    at: usize,
    width: usize,
    count: usize,
    ghost narrow: { width ≤ 32 },
    ghost size: { 8 * length octets.now < 2 ^ 64 },
    /// The numbers are within the message.
    ghost inside: { at + width * count ≤ 8 * length octets.now },
}

impl<'s> NumbersAt<'s> {
    ghost use Rattle.asn1_x691_fields.specs.NumberSources.{numbers_of};

    /// Returns `count` numbers of `width` bits each, from bit `at` on. `width` must be at most 32,
    /// and the numbers must be inside the octets.
    #[inline(always)]
    pub fn new(octets: &'s [u8], at: usize, width: usize, count: usize) -> Self
        requires narrow { width ≤ 32 }
        requires size { 8 * length octets.now < 2 ^ 64 }
        requires inside { at + width * count ≤ 8 * length octets.now }
        ensures { numbers_of result ≡ numbers_in width count (drop at (bits octets.now)) }
    {
        NumbersAt {
            octets,
            at,
            width,
            count,
        }
    }
}

impl NumberSource for NumbersAt<'_> {
    ghost use Rattle.asn1_x691_fields.specs.NumberSources.{numbers_of};

    ghost list = { numbers_of };

    fn count(&self) -> usize {
        self.count
    }

    fn number(&self, index: usize) -> u64 {
        number_at(self.octets, self.at + self.width * index, self.width)
    }
}

/// Octets, as numbers one after another.
#[derive(Clone, Copy, Debug)]
pub(crate) struct OctetNumbers<'s> {
    /// The octets.
    pub(crate) octets: &'s [u8],
}

impl NumberSource for OctetNumbers<'_> {
    ghost list = { λ s. s.octets.now };

    fn count(&self) -> usize {
        self.octets.len()
    }

    fn number(&self, index: usize) -> u64 {
        u64::from(self.octets[index])
    }
}

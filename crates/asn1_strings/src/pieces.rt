//! Characters of one width in octets and bits, read by their indices.
ghost use Rattle.std.specs.Prelude.{◌≡◌, ◌≤◌, ◌+◌, ◌*◌, ◌/◌, ◌<◌, length, map, slice_index, take, drop};
ghost use Rattle.asn1_bits.specs.BitStr.{bits_of};
ghost use Rattle.asn1_bits.specs.Bits.{digits, number};
ghost use Rattle.asn1_strings.specs.Pieces.{piece, pieces, unsigned};

use asn1_bits::{BitReader, BitStr, read_u128};

// The characters of octets, `width` octets each.
#[derive(Clone, Copy)]
pub(crate) struct OctetPieces<'a> {
    pub(crate) octets: &'a [u8],
    pub(crate) width: usize,
    ghost known: { 1 ≤ width },
    ghost small: { width ≤ 4 },
}

impl<'a> OctetPieces<'a> {
    /// Returns how many characters there are.
    pub(crate) fn count(&self) -> usize
        ensures { result ≡ length (map unsigned (pieces self.now.width self.now.octets.now)) }
    {
        self.octets.len() / self.width
    }

    /// Returns the character at an index.
    pub(crate) fn character(&self, i: usize) -> u32
        requires { i < length (map unsigned (pieces self.now.width self.now.octets.now)) }
        ensures { result
            ≡ slice_index (map unsigned (pieces self.now.width self.now.octets.now)) i }
    {
        unsigned_of(piece_of(self.octets, self.width, i))
    }
}

// The characters of bits, `width` bits each.
#[derive(Clone, Copy)]
pub(crate) struct BitPieces<'a> {
    pub(crate) bits: BitStr<'a>,
    pub(crate) width: usize,
    ghost known: { 1 ≤ width },
    ghost small: { width ≤ 32 },
}

impl<'a> BitPieces<'a> {
    /// Returns how many characters there are.
    pub(crate) fn count(&self) -> usize
        ensures { result ≡ length (map number (pieces self.now.width (bits_of self.now.bits))) }
    {
        self.bits.len() / self.width
    }

    /// Returns the character at an index.
    pub(crate) fn character(&self, i: usize) -> u32
        requires { i < length (map number (pieces self.now.width (bits_of self.now.bits))) }
        ensures { result ≡ slice_index (map number (pieces self.now.width (bits_of self.now.bits)))
            i }
    {
        let _len = self.bits.len();
        let piece = self.bits.slice(i * self.width, self.width);
        read_u128(piece) as u32
    }

    /// Returns the number that `count` characters from one of them on encode together.
    #[inline(always)]
    pub(crate) fn word(&self, at: usize, count: usize) -> u64
        requires word { count * self.now.width ≤ 64 }
        requires within { (at + count) * self.now.width ≤ length (bits_of self.now.bits) }
        ensures { let len = count * self.now.width in
            digits result len ≡ take len (drop (at * self.now.width) (bits_of self.now.bits)) }
    {
        let _len = self.bits.len();
        let part = self.bits.slice(at * self.width, count * self.width);
        BitReader::new(part).first_u128(count * self.width) as u64
    }
}

/// Returns the piece at an index.
fn piece_of(octets: &[u8], width: usize, i: usize) -> &[u8]
    requires { i < length octets.now / width }
    ensures { result.now ≡ piece width octets.now i }
{
    let _len = octets.len();
    let from = i * width;
    let rest = &octets[from..];
    &rest[..width]
}

/// Returns the number of at most four octets.
fn unsigned_of(octets: &[u8]) -> u32
    requires { length octets.now ≤ 4 }
    ensures { result ≡ unsigned octets.now }
{
    let mut n: u32 = 0;
    for octet in octets {
        n = 256 * n + u32::from(*octet);
    }
    n
}

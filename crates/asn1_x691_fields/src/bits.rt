//! Numbers at an index of octets.

ghost use Rattle.std.specs.Prelude.{◌≡◌, ◌+◌, ◌*◌, ◌<◌, ◌≤◌, length, take, drop};
ghost use Rattle.asn1_bits.specs.Bits.{bits, digits, number};

use asn1_bits::read_wide;

/// Returns eight octets from an index on.
#[inline(always)]
fn eight(octets: &[u8], first: usize) -> [u8; 8]
    requires { first + 8 ≤ length octets.now }
    ensures { result ≡ take 8 (drop first octets.now) }
{
    let (_, rest) = octets.split_at(first);
    let (front, _) = rest.split_at(8);
    match front.first_chunk::<8>() {
        Some(chunk) => *chunk,
        None => [0; 8],
    }
}

/// Returns the word of eight octets from an index on.
#[inline(always)]
pub(crate) fn word_at(octets: &[u8], first: usize) -> u64
    requires { first + 8 ≤ length octets.now }
    ensures { digits result 64 ≡ take 64 (drop (8 * first) (bits octets.now)) }
{
    u64::from_be_bytes(eight(octets, first))
}

/// Returns the number of `width` bits from bit `at` on. `width` is at most 57.
#[inline(always)]
pub(crate) fn number_at(octets: &[u8], at: usize, width: usize) -> u64
    requires width { width ≤ 57 }
    requires within { at + width ≤ 8 * length octets.now }
    ensures { result ≡ number (take width (drop at (bits octets.now))) }
{
    let first = at / 8;
    if first < octets.len().saturating_sub(7) {
        return ((word_at(octets, first) << (at % 8)) >> 1) >> (63 - width);
    }
    last_number(octets, at, width)
}

/// Returns the same near the end of the octets, or of up to 64 bits.
#[cold]
#[inline(never)]
pub(crate) fn last_number(octets: &[u8], at: usize, width: usize) -> u64
    requires width { width ≤ 64 }
    requires within { at + width ≤ 8 * length octets.now }
    ensures { result ≡ number (take width (drop at (bits octets.now))) }
{
    let number = read_wide(octets, at, width);
    (number & 0xFFFF_FFFF_FFFF_FFFF) as u64
}

/// Returns the bit at an index as a number.
#[inline(always)]
pub(crate) fn bit_number(octets: &[u8], at: usize) -> u64
    requires { at < 8 * length octets.now }
    ensures { result ≡ number (take 1 (drop at (bits octets.now))) }
{
    (u64::from(octets[at / 8]) >> (7 - at % 8)) & 1
}

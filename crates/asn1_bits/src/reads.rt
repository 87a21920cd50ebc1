//! Words and numbers that are read from bits at any index of octets.

ghost use Rattle.std.specs.Prelude.{◌≡◌, ◌+◌, ◌*◌, ◌<◌, ◌≤◌, ◌++◌, length, take, drop};
ghost use Rattle.asn1_bits.specs.Bits.{bits, digits, number};

use crate::single_bits::from_octet;

/// Returns eight octets from one of them on.
#[inline(always)]
pub(crate) fn eight(octets: &[u8], first: usize) -> [u8; 8]
    requires { first + 8 ≤ length octets.now }
    ensures { result ≡ take 8 (drop first octets.now) }
{
    // The front has eight octets, so the second arm is never taken, and the compiler drops the
    // test.
    let (_, rest) = octets.split_at(first);
    let (front, _) = rest.split_at(8);
    match front.first_chunk::<8>() {
        Some(chunk) => *chunk,
        None => [0; 8],
    }
}

/// Returns the word of the eight octets from one of them on.
#[inline(always)]
pub(crate) fn load(octets: &[u8], first: usize) -> u64
    requires { first + 8 ≤ length octets.now }
    ensures { digits result 64 ≡ take 64 (drop (8 * first) (bits octets.now)) }
{
    u64::from_be_bytes(eight(octets, first))
}

/// Returns the word of the 64 bits from bit `shift` of an octet on.
pub(crate) fn whole_word(octets: &[u8], first: usize, shift: usize) -> u64
    requires shift { shift < 8 }
    requires within { 8 * first + shift + 64 ≤ 8 * length octets.now }
    ensures { digits result 64 ≡ take 64 (drop (8 * first + shift) (bits octets.now)) }
{
    if shift == 0 {
        load(octets, first)
    } else {
        word_of_nine(octets, first, shift)
    }
}

/// Returns the 64 digits from digit `shift` on of two words, one after the other.
#[inline(always)]
fn digits_from(high: u64, low: u64, shift: usize) -> u64
    requires { shift < 8 }
    ensures { digits result 64 ≡ take 64 (drop shift (digits high 64 ++ digits low 64)) }
{
    let both = (u128::from(high) << 64) | u128::from(low);
    // The remainder shows the compiler that the shift is below 64. It costs no instruction: a
    // processor that shifts two words together takes it by itself.
    ((both << (shift % 64)) >> 64) as u64
}

/// Returns the word of the 64 bits from bit `shift` of the first of nine octets on, with no branch
/// on the shift.
#[inline(always)]
pub(crate) fn word_of_nine(octets: &[u8], first: usize, shift: usize) -> u64
    requires shift { shift < 8 }
    requires nine { first + 9 ≤ length octets.now }
    ensures { digits result 64 ≡ take 64 (drop (8 * first + shift) (bits octets.now)) }
{
    let ninth = u64::from(octets[first + 8]) << 56;
    digits_from(load(octets, first), ninth, shift)
}

/// Returns the 128 bits from bit `shift` of the first of seventeen octets on, as a number's digits.
#[inline(always)]
pub(crate) fn wide_of_seventeen(octets: &[u8], first: usize, shift: usize) -> u128
    requires shift { shift < 8 }
    requires seventeen { first + 17 ≤ length octets.now }
    ensures { digits result 128 ≡ take 128 (drop (8 * first + shift) (bits octets.now)) }
{
    let high = digits_from(load(octets, first), load(octets, first + 8), shift);
    let low = word_of_nine(octets, first + 8, shift);
    (u128::from(high) << 64) | u128::from(low)
}

/// Returns the number of `width` bits from bit `shift` of octet `first` on.
#[inline(always)]
pub(crate) fn read_word(octets: &[u8], first: usize, shift: usize, width: usize) -> u64
    requires shift { shift < 8 }
    requires width { width ≤ 64 }
    requires within { 8 * first + shift + width ≤ 8 * length octets.now }
    ensures { result ≡ number (take width (drop (8 * first + shift) (bits octets.now))) }
{
    if width <= 57 {
        read_57(octets, first, shift, width)
    } else {
        read_64(octets, first, shift, width)
    }
}

/// Does what `read_word` does for so few bits that they lie within eight octets, which are loaded
/// where all of them exist.
#[inline(always)]
pub(crate) fn read_57(octets: &[u8], first: usize, shift: usize, width: usize) -> u64
    requires shift { shift < 8 }
    requires width { width ≤ 57 }
    requires within { 8 * first + shift + width ≤ 8 * length octets.now }
    ensures { result ≡ number (take width (drop (8 * first + shift) (bits octets.now))) }
{
    if width > 0 && first + 8 <= octets.len() {
        return (load(octets, first) << shift) >> ((64 - width) % 64);
    }
    read_57_near_end(octets, first, shift, width)
}

/// Does what `read_word` does for more than 57 bits: eight octets exist. The bits may reach a
/// ninth.
#[inline(always)]
pub(crate) fn read_64(octets: &[u8], first: usize, shift: usize, width: usize) -> u64
    requires shift { shift < 8 }
    requires some { 57 < width }
    requires width { width ≤ 64 }
    requires within { 8 * first + shift + width ≤ 8 * length octets.now }
    ensures { result ≡ number (take width (drop (8 * first + shift) (bits octets.now))) }
{
    if first + 9 <= octets.len() {
        return word_of_nine(octets, first, shift) >> ((64 - width) % 64);
    }
    (load(octets, first) << shift) >> ((64 - width) % 64)
}

/// Returns the number of more than 64 bits, at most 128, from bit `shift` of octet `first` on: read
/// from seventeen octets at once or, near the end of the octets, from two words. Where
/// `INLINE_NEAR_END` says that the second is likely, it is inlined.
#[inline(always)]
pub(crate) fn read_128<const INLINE_NEAR_END: bool>(
    octets: &[u8],
    first: usize,
    shift: usize,
    width: usize,
) -> u128
    requires shift { shift < 8 }
    requires many { 64 < width }
    requires width { width ≤ 128 }
    requires within { 8 * first + shift + width ≤ 8 * length octets.now }
    ensures { result ≡ number (take width (drop (8 * first + shift) (bits octets.now))) }
{
    if first + 17 <= octets.len() {
        return read_seventeen(octets, first, shift, width);
    }
    if INLINE_NEAR_END {
        return read_two_words(octets, first, shift, width);
    }
    read_128_near_end(octets, first, shift, width)
}

/// Does what `read_128` does for seventeen octets, which are loaded at once.
#[inline(always)]
fn read_seventeen(octets: &[u8], first: usize, shift: usize, width: usize) -> u128
    requires shift { shift < 8 }
    requires many { 64 < width }
    requires width { width ≤ 128 }
    requires seventeen { first + 17 ≤ length octets.now }
    ensures { result ≡ number (take width (drop (8 * first + shift) (bits octets.now))) }
{
    // The remainder shows the compiler that the shift is below 64.
    wide_of_seventeen(octets, first, shift) >> ((128 - width) % 64)
}

/// Does what `read_128` does near the end of the octets: two words.
#[inline(always)]
fn read_two_words(octets: &[u8], first: usize, shift: usize, width: usize) -> u128
    requires shift { shift < 8 }
    requires many { 64 < width }
    requires width { width ≤ 128 }
    requires within { 8 * first + shift + width ≤ 8 * length octets.now }
    ensures { result ≡ number (take width (drop (8 * first + shift) (bits octets.now))) }
{
    let low = shift + (width - 64);
    let high = whole_word(octets, first, shift);
    let rest = whole_word(octets, first + low / 8, low % 8);
    (u128::from(high >> (128 - width)) << 64) | u128::from(rest)
}

/// Does what `read_two_words` does. Cold and not inlined.
#[cold]
#[inline(never)]
fn read_128_near_end(octets: &[u8], first: usize, shift: usize, width: usize) -> u128
    requires shift { shift < 8 }
    requires many { 64 < width }
    requires width { width ≤ 128 }
    requires within { 8 * first + shift + width ≤ 8 * length octets.now }
    ensures { result ≡ number (take width (drop (8 * first + shift) (bits octets.now))) }
{
    read_two_words(octets, first, shift, width)
}

/// Does what `read_57` does for the last octets of a slice, and for no bits. Cold and not inlined.
#[cold]
#[inline(never)]
fn read_57_near_end(octets: &[u8], first: usize, shift: usize, width: usize) -> u64
    requires shift { shift < 8 }
    requires width { shift + width ≤ 64 }
    requires within { 8 * first + shift + width ≤ 8 * length octets.now }
    ensures { result ≡ number (take width (drop (8 * first + shift) (bits octets.now))) }
{
    read_octets(from_octet(octets, first), shift, width)
}

/// Returns the number of `width` bits within eight octets, read octet by octet.
#[inline(always)]
fn read_octets(octets: &[u8], shift: usize, width: usize) -> u64
    requires shift { shift < 8 }
    requires width { shift + width ≤ 64 }
    requires within { shift + width ≤ 8 * length octets.now }
    ensures { result ≡ number (take width (drop shift (bits octets.now))) }
{
    if width == 0 {
        return 0;
    }
    let needed = (shift + width).div_ceil(8);
    let excess = needed * 8 - shift - width;
    let mut value = u64::from(octets[0] & (0xff >> shift));
    for k in 1..needed {
        value = value * 256 + u64::from(octets[k]);
    }
    value >> excess
}

//! Bits of octets. The first bit of an octet is its most significant one, and bits count from 0.

ghost use Rattle.std.specs.Prelude.{IsTrue, ◌⊎◌, ◌≡◌, ◌≢◌, ◌↔◌, ◌+◌, ◌*◌, ◌<◌, ◌≤◌, ◌^◌, length, take, drop};
ghost use Rattle.asn1_bits.specs.Bits.{bits, digits, number, ored};
ghost use Rattle.asn1_bits.specs.BitLists.{bits_cmp};
ghost use Rattle.asn1_c.specs.Codes.{order_number};

use crate::codes::{DONE, OUTSIDE, OVERFLOW, WIDTH, number_of_order};
use asn1_values::{BitStr, Turns, read_wide, write_bitslice};

/// A number of 128 bits as two words.
#[repr(C)]
#[derive(Clone, Copy, Debug)]
pub struct Words {
    /// The upper 64 bits.
    pub high: u64,
    /// The lower 64 bits.
    pub low: u64,
}

impl Words {
    /// Returns the words of a number.
    pub(crate) fn of(number: u128) -> Words
        ensures { result.high * 2 ^ 64 + result.low ≡ number }
    {
        Words {
            high: (number >> 64) as u64,
            low: (number % (1 << 64)) as u64,
        }
    }

    /// Returns the number.
    pub(crate) fn number(&self) -> u128
        ensures { result ≡ self.now.high * 2 ^ 64 + self.now.low }
    {
        u128::from(self.high) * (1 << 64) + u128::from(self.low)
    }
}

/// Returns whether `count` bits from an index on are in `octets` octets. Octets are compared, since
/// bits may exceed `usize`.
#[inline(always)]
fn lie_within(place: usize, count: usize, octets: usize) -> bool
    ensures { IsTrue result ↔ (place + count ≤ 8 * octets) }
{
    let whole = place / 8 + count / 8;
    let rest = (place % 8 + count % 8).div_ceil(8);
    whole + rest <= octets
}

/// Reads the number of `width` bits, at most 64, from bit `position` of the octets on. The first is
/// the most significant.
#[unsafe(no_mangle)]
pub extern "C" fn asn1v_read_u64(
    octets: &[u8],
    position: usize,
    width: usize,
    value: &mut u64,
) -> u32
    ensures read { result ≡ 0 → value.new ≡ number (take width (drop position (bits octets.now))) }
    ensures below { result ≡ 0 → value.new < 2 ^ width }
    ensures done { result ≡ 0 ↔ ((width ≤ 64) × (position + width ≤ 8 * length octets.now)) }
    ensures width { result ≡ 2 ↔ (64 < width) }
    ensures outside { result ≡ 1 ↔ ((width ≤ 64) × (8 * length octets.now < position + width)) }
    ensures unchanged { result ≢ 0 → value.new ≡ value.old }
{
    if width > 64 {
        return WIDTH;
    }
    if !lie_within(position, width, octets.len()) {
        return OUTSIDE;
    }
    *value = read_wide(octets, position, width) as u64;
    DONE
}

/// Reads a number as `asn1v_read_u64` does, of at most 128 bits.
#[unsafe(no_mangle)]
pub extern "C" fn asn1v_read_u128(
    octets: &[u8],
    position: usize,
    width: usize,
    value: &mut Words,
) -> u32
    ensures read { result ≡ 0 → value.new.high * 2 ^ 64 + value.new.low
        ≡ number (take width (drop position (bits octets.now))) }
    ensures below { result ≡ 0 → value.new.high * 2 ^ 64 + value.new.low < 2 ^ width }
    ensures done { result ≡ 0 ↔ ((width ≤ 128) × (position + width ≤ 8 * length octets.now)) }
    ensures width { result ≡ 2 ↔ (128 < width) }
    ensures outside { result ≡ 1 ↔ ((width ≤ 128) × (8 * length octets.now < position + width)) }
    ensures unchanged { result ≢ 0 → value.new ≡ value.old }
{
    if width > 128 {
        return WIDTH;
    }
    if !lie_within(position, width, octets.len()) {
        return OUTSIDE;
    }
    *value = Words::of(read_wide(octets, position, width));
    DONE
}

/// ORs `count` bits of the source, from bit `first` on, into the target from bit `position` on, and
/// leaves every other bit. Into zeros it copies.
#[unsafe(no_mangle)]
#[tactic(auto, unfolding(asn1_bits::specs::View::list_of))]
pub extern "C" fn asn1v_or_bits(
    target: &mut [u8],
    position: usize,
    source: &[u8],
    first: usize,
    count: usize,
) -> u32
    ensures placed { result ≡ 0 → bits target.new
        ≡ ored (bits target.old) position (take count (drop first (bits source.now))) }
    ensures done { result ≡ 0 ↔ ((first + count ≤ 8 * length source.now)
        × (position + count ≤ 8 * length target.old) × (position + count < 2 ^ 64)) }
    ensures outside { result ≢ 0 → result ≡ 1 }
    ensures unchanged { result ≢ 0 → target.new ≡ target.old }
{
    let Some(view) = BitStr::new(source, first, count) else {
        return OUTSIDE;
    };
    if count > usize::MAX - position || !lie_within(position, count, target.len()) {
        return OUTSIDE;
    }
    write_bitslice(target, position, view, &mut Turns::new());
    DONE
}

/// ORs the `width` lowest binary digits of the number, at most 128, into the target from bit
/// `position` on, and leaves every other bit. A number that does not fit its width is rejected.
#[unsafe(no_mangle)]
pub extern "C" fn asn1v_or_number(
    target: &mut [u8],
    position: usize,
    value: &Words,
    width: usize,
) -> u32
    ensures placed { result ≡ 0 → bits target.new
        ≡ ored (bits target.old) position (digits (value.now.high * 2 ^ 64 + value.now.low) width) }
    ensures width { result ≡ 2 ↔ (128 < width) }
    ensures overflow { result ≡ 5 ↔ ((width ≤ 128)
        × (2 ^ width ≤ value.now.high * 2 ^ 64 + value.now.low)) }
    ensures fits { result ≡ 0 → value.now.high * 2 ^ 64 + value.now.low < 2 ^ width }
    ensures outside { result ≡ 1 → (8 * length target.old < position + width)
        ⊎ (2 ^ 64 ≤ position + width) }
    ensures within { result ≡ 0 → (position + width ≤ 8 * length target.old)
        × (position + width < 2 ^ 64) }
    ensures codes { result ≢ 0 → result ≢ 2 → result ≢ 5 → result ≡ 1 }
    ensures unchanged { result ≢ 0 → target.new ≡ target.old }
{
    if width > 128 {
        return WIDTH;
    }
    let number = value.number();
    if !fits_width(number, width) {
        return OVERFLOW;
    }
    if width > usize::MAX - position || !lie_within(position, width, target.len()) {
        return OUTSIDE;
    }
    place_number(target, position, number, width);
    DONE
}

/// Returns whether the number is below 2 to the power of the width.
pub(crate) fn fits_width(number: u128, width: usize) -> bool
    requires { width ≤ 128 }
    ensures { IsTrue result ↔ (number < 2 ^ width) }
{
    width == 128 || number < 1u128 << width
}

/// ORs the lowest digits of a number in.
fn place_number(target: &mut [u8], position: usize, number: u128, width: usize)
    requires few { width ≤ 128 }
    requires within { position + width ≤ 8 * length target.old }
    requires fits { position + width < 2 ^ 64 }
    ensures { bits target.new ≡ ored (bits target.old) position (digits number width) }
{
    let octets = number.to_be_bytes();
    match BitStr::new(&octets, 128 - width, width) {
        Some(view) => write_bitslice(target, position, view, &mut Turns::new()),
        None => unreachable!(),
    }
}

/// Compares two lists of bits: `a_count` bits of `a` from bit `a_first` on, and those of `b`. The
/// order is -1, 0 or 1: by the first bit that differs, and otherwise by length.
#[unsafe(no_mangle)]
#[tactic(auto, unfolding(asn1_bits::specs::View::list_of))]
pub extern "C" fn asn1v_compare_bits(
    a: &[u8],
    a_first: usize,
    a_count: usize,
    b: &[u8],
    b_first: usize,
    b_count: usize,
    order: &mut i32,
) -> u32
    ensures order { result ≡ 0 → order.new ≡ order_number (bits_cmp
        (take a_count (drop a_first (bits a.now))) (take b_count (drop b_first (bits b.now)))) }
    ensures done { result ≡ 0 ↔ ((a_first + a_count ≤ 8 * length a.now)
        × (b_first + b_count ≤ 8 * length b.now)) }
    ensures outside { result ≢ 0 → result ≡ 1 }
    ensures unchanged { result ≢ 0 → order.new ≡ order.old }
{
    let (Some(left), Some(right)) = (
        BitStr::new(a, a_first, a_count),
        BitStr::new(b, b_first, b_count),
    ) else {
        return OUTSIDE;
    };
    *order = number_of_order(left.cmp(&right));
    DONE
}

//! Numbers of native types read from octets, and octets written of them (X.690 8.3).
ghost use Rattle.std.specs.Prelude.{◌≡◌, ℤ, pos, ◌*◌, ◌%◌, ◌^◌, ◌≤◌, ◌&&◌, nat_le, length};
ghost use Rattle.std.specs.Prelude.{SomeIff, IsNone};
ghost use Rattle.asn1_number.specs.Octets.{IsShortest, IsShortestUnsigned, unsigned};
ghost use Rattle.asn1_number.specs.Readings.{SignedOf, UnsignedOf, FitsI128, counted_length};
ghost use Rattle.asn1_number.specs.Readings.{signed_reading, unsigned_reading};
ghost use Rattle.asn1_integer.specs.Calls.{own_reading};
ghost use Rattle.asn1_integer.specs.NativeBits.{native_kind, IsNativeSize, AreBitsOf, ReadsBits};

use asn1_number::{
    IntegerBytes, IntegerError, shortest_of, signed_value, unsigned_value,
    without_redundant_sign_octets,
};

/// Returns the bits of the number that a native type reads from two's complement octets.
pub(crate) fn read_with_sign(
    octets: &[u8],
    size: usize,
    is_signed: bool,
) -> Result<u128, IntegerError>
    requires { IsNativeSize size }
    ensures { let kind = native_kind is_signed size in
        ReadsBits kind result (signed_reading kind octets.now) }
{
    if is_signed {
        read_signed_type(octets, size)
    } else {
        read_unsigned_type(octets, size)
    }
}

/// Returns the bits of the number that a native type reads from octets in its own form.
pub(crate) fn read_own(octets: &[u8], size: usize, is_signed: bool) -> Result<u128, IntegerError>
    requires { IsNativeSize size }
    ensures { let kind = native_kind is_signed size in
        ReadsBits kind result (own_reading kind octets.now) }
{
    if is_signed {
        read_signed_type(octets, size)
    } else {
        read_without_sign(octets, size, false)
    }
}

/// Returns the bits of the number that a native type reads from unsigned octets.
pub(crate) fn read_without_sign(
    octets: &[u8],
    size: usize,
    is_signed: bool,
) -> Result<u128, IntegerError>
    requires { IsNativeSize size }
    ensures { let kind = native_kind is_signed size in
        ReadsBits kind result (unsigned_reading kind octets.now) }
{
    if octets.is_empty() {
        return Err(IntegerError::UnexpectedEmptyInput);
    }
    let width = 8 * size as u32;
    if octets.len() > size {
        return Err(IntegerError::Overflow {
            max_integer_bits: width,
        });
    }
    let bits = unsigned_value(octets);
    if !is_signed {
        return Ok(bits);
    }
    if bits >= 1 << (width - 1) {
        return Err(IntegerError::TypeConversionFailed { bits: width });
    }
    Ok(bits)
}

/// Returns the bits of the number that a signed type reads from two's complement octets.
fn read_signed_type(octets: &[u8], size: usize) -> Result<u128, IntegerError>
    requires { IsNativeSize size }
    ensures { ReadsBits (SignedOf size) result (signed_reading (SignedOf size) octets.now) }
{
    if octets.is_empty() {
        return Err(IntegerError::UnexpectedEmptyInput);
    }
    if octets.len() > size {
        let max_integer_bits = 8 * size as u32;
        return Err(IntegerError::Overflow { max_integer_bits });
    }
    Ok(signed_value(octets).cast_unsigned())
}

/// Returns the bits of the number that an unsigned type reads from two's complement octets.
fn read_unsigned_type(octets: &[u8], size: usize) -> Result<u128, IntegerError>
    requires { IsNativeSize size }
    ensures { ReadsBits (UnsignedOf size) result (signed_reading (UnsignedOf size) octets.now) }
{
    if octets.is_empty() {
        return Err(IntegerError::UnexpectedEmptyInput);
    }
    if octets[0] >= 128 {
        let bits = 8 * size as u32;
        return Err(IntegerError::TypeConversionFailed { bits });
    }
    let number = without_zero_first(octets);
    if number.len() > size {
        let max_integer_bits = 8 * size as u32;
        return Err(IntegerError::Overflow { max_integer_bits });
    }
    Ok(unsigned_value(number))
}

/// Returns the octets after one first zero octet, which adds nothing to the value.
fn without_zero_first(octets: &[u8]) -> &[u8]
    ensures counted { length result.now ≡ counted_length octets.now }
    ensures value { unsigned result.now ≡ unsigned octets.now }
{
    match octets {
        [0, ..] => &octets[1..],
        _ => octets,
    }
}

/// Returns the shortest two's complement octets of the number of a native type that has these bits.
pub(crate) fn signed_octets_of<'a>(bits: u128, is_signed: bool) -> IntegerBytes<'a>
    ensures { (n : ℤ) → AreBitsOf is_signed n bits → IsShortest n result }
{
    match i128_of(bits, is_signed) {
        Some(number) => shortest_of(number),
        None => octets_behind_zero(bits),
    }
}

/// Returns the shortest two's complement octets of a number above `i128`'s: a zero octet and the
/// sixteen of its bits.
#[inline(never)]
fn octets_behind_zero<'a>(bits: u128) -> IntegerBytes<'a>
    requires { 2 ^ 127 ≤ bits }
    ensures { IsShortest (pos bits) result }
{
    let mut octets = [0; 17];
    octets[1..].copy_from_slice(&bits.to_be_bytes());
    IntegerBytes::from_octets(&octets)
}

/// Returns the shortest unsigned octets of the lowest `size` octets of the bits.
pub(crate) fn unsigned_octets_of<'a>(bits: u128, size: usize) -> IntegerBytes<'a>
    requires { IsNativeSize size }
    ensures { IsShortestUnsigned (bits % 2 ^ (8 * size)) result }
{
    signed_octets_of(low_octets(bits, size), false).without_sign()
}

/// Returns the lowest `size` octets of the bits.
fn low_octets(bits: u128, size: usize) -> u128
    requires { IsNativeSize size }
    ensures { result ≡ bits % 2 ^ (8 * size) }
{
    if size == 16 {
        return bits;
    }
    bits % (1 << (8 * size as u32))
}

/// Returns whether the number of a native type that has these bits is negative.
pub(crate) fn is_below_zero(bits: u128, is_signed: bool) -> bool
    ensures { result ≡ (is_signed && nat_le (2 ^ 127) bits) }
{
    is_signed && bits >= 1 << 127
}

/// Returns the number of a native type that has these bits, if `i128` has it.
pub(crate) fn i128_of(bits: u128, is_signed: bool) -> Option<i128>
    ensures some { (n : ℤ) → AreBitsOf is_signed n bits → SomeIff result (FitsI128 n) n }
    ensures none { IsNone result → 2 ^ 127 ≤ bits }
{
    if is_signed {
        return Some(bits.cast_signed());
    }
    i128::try_from(bits).ok()
}

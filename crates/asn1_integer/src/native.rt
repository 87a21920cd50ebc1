//! The native types, which work by the bits of their numbers.
ghost use Rattle.std.specs.Prelude.{◌≡◌, ℕ, ◌*◌, ℤ, Bool, pos, ◌+ℤ◌, ◌-ℤ◌, MatchOption};
ghost use Rattle.std.specs.Int.{cast_unsigned, w128};
ghost use Rattle.asn1_number.specs.Readings.{IsInRange};
ghost use Rattle.asn1_integer.specs.NativeBits.{native_kind, wrapped_bits, IsNativeSize};
ghost use Rattle.asn1_integer.specs.Laws.NativeLaws.{native_reads_shortest, native_width};
ghost use Rattle.asn1_integer.specs.Laws.NativeLaws.{octets_of_width};

use crate::integer_type::IntegerType;
use crate::readings::{
    i128_of, is_below_zero, read_own, read_with_sign, read_without_sign, signed_octets_of,
    unsigned_octets_of,
};
use asn1_number::{Integer, IntegerBytes, IntegerError};
use std::alloc::{AllocError, Global};

/// A native type of integers, of one to sixteen octets, by the bits of its numbers.
pub trait Native: Copy {
    type UnsignedPair: Drop;

    type SignedPair;

    const IS_SIGNED: bool;

    const BYTE_WIDTH: u32;

    ghost IS_SIGNED: { Bool };

    ghost BYTE_WIDTH: { ℕ };

    /// The number.
    ghost value: { Self → ℤ };

    /// The number of a pair.
    ghost pair_value: { Self.UnsignedPair → ℤ };

    /// Returns the number's bits, as those of a number of 128 bits of the same value.
    fn low_bits(self) -> u128
        ensures bits { result ≡ cast_unsigned w128 (value self) }
        ensures in_range { IsInRange (native_kind IS_SIGNED BYTE_WIDTH) (value self) };

    /// Returns the bits of a pair.
    fn low_bits_of_pair(pair: Self::UnsignedPair) -> u128
        ensures { pos result ≡ pair_value pair };

    /// Returns the number that the type has at the low bits.
    fn from_low_bits(bits: u128) -> Self
        ensures { value result ≡ wrapped_bits IS_SIGNED BYTE_WIDTH bits };

    /// Returns the sum, if the type holds it.
    fn sum(self, other: Self) -> Option<Self>
        ensures { let n = value self +ℤ value other in
            let kind = native_kind IS_SIGNED BYTE_WIDTH in
            MatchOption result (¬ (IsInRange kind n)) (λ x. (value x ≡ n) × IsInRange kind n) };

    /// Returns the difference, if the type holds it.
    fn difference(self, other: Self) -> Option<Self>
        ensures { let n = value self -ℤ value other in
            let kind = native_kind IS_SIGNED BYTE_WIDTH in
            MatchOption result (¬ (IsInRange kind n)) (λ x. (value x ≡ n) × IsInRange kind n) };

    /// It has one to sixteen octets.
    ghost sized: { IsNativeSize BYTE_WIDTH };
}

impl<N: Native> IntegerType for N {
    const WIDTH: u32 = N::BYTE_WIDTH * 8;

    const BYTE_WIDTH: usize = N::BYTE_WIDTH as usize;

    type UnsignedPair = N::UnsignedPair;

    type SignedPair = N::SignedPair;

    ghost WIDTH = { 8 * N.BYTE_WIDTH };

    ghost BYTE_WIDTH = { N.BYTE_WIDTH };

    ghost kind = { native_kind N.IS_SIGNED N.BYTE_WIDTH };

    ghost value = { N.value };

    ghost pair_value = { N.pair_value };

    ghost width = { native_width N.IS_SIGNED N.BYTE_WIDTH };

    ghost byte_width = { octets_of_width N.BYTE_WIDTH };

    ghost reads_shortest = { native_reads_shortest N.IS_SIGNED N.BYTE_WIDTH N.sized };

    fn zero() -> N {
        N::from_low_bits(0)
    }

    fn try_from_bytes(_alloc: Global, octets: &[u8]) -> Result<N, IntegerError> {
        let bits = read_own(octets, N::BYTE_WIDTH as usize, N::IS_SIGNED)?;
        Ok(N::from_low_bits(bits))
    }

    fn try_from_signed_bytes(_alloc: Global, octets: &[u8]) -> Result<N, IntegerError> {
        let bits = read_with_sign(octets, N::BYTE_WIDTH as usize, N::IS_SIGNED)?;
        Ok(N::from_low_bits(bits))
    }

    fn try_from_unsigned_bytes(_alloc: Global, octets: &[u8]) -> Result<N, IntegerError> {
        let bits = read_without_sign(octets, N::BYTE_WIDTH as usize, N::IS_SIGNED)?;
        Ok(N::from_low_bits(bits))
    }

    fn to_signed_bytes_be(&self) -> IntegerBytes<'_> {
        signed_octets_of((*self).low_bits(), N::IS_SIGNED)
    }

    fn to_unsigned_bytes_be(&self) -> IntegerBytes<'_> {
        unsigned_octets_of((*self).low_bits(), N::BYTE_WIDTH as usize)
    }

    fn wrapping_unsigned_add(self, other: N::UnsignedPair) -> Option<N> {
        let sum = self.low_bits().wrapping_add(N::low_bits_of_pair(other));
        Some(N::from_low_bits(sum))
    }

    fn is_negative(&self) -> bool {
        is_below_zero((*self).low_bits(), N::IS_SIGNED)
    }

    fn is_signed(&self) -> bool {
        N::IS_SIGNED
    }

    fn to_integer(self, alloc: Global) -> Result<Integer, AllocError> {
        let bits = self.low_bits();
        match i128_of(bits, N::IS_SIGNED) {
            Some(number) => Ok(Integer::from(number)),
            None => Integer::from_u128(alloc, bits),
        }
    }

    fn checked_add(&self, other: &N) -> Option<N> {
        (*self).sum(*other)
    }

    fn checked_sub(&self, other: &N) -> Option<N> {
        (*self).difference(*other)
    }

    fn to_i128(&self) -> Option<i128> {
        i128_of((*self).low_bits(), N::IS_SIGNED)
    }

    fn try_from_i128(number: i128) -> Option<N> {
        let wrapped = N::from_low_bits(number.cast_unsigned());
        let Some(same) = i128_of(wrapped.low_bits(), N::IS_SIGNED) else {
            return None;
        };
        if same == number { Some(wrapped) } else { None }
    }

    fn from_integer(number: &Integer) -> Option<N> {
        if let Some(inline) = Integer::to_i128(number) {
            return N::try_from_i128(inline);
        }
        let octets = number.signed_octets();
        match read_with_sign(octets.as_ref(), N::BYTE_WIDTH as usize, N::IS_SIGNED) {
            Ok(bits) => Some(N::from_low_bits(bits)),
            Err(_) => None,
        }
    }
}

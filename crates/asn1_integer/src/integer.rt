//! `Integer` as an integer type: it is read from octets of any number, and its sums go to `i128`.
ghost use Rattle.std.proofs.Common.{rules};
ghost use Rattle.asn1_number.specs.Readings.{Unbounded};
ghost use Rattle.asn1_integer.specs.Laws.NativeLaws.{unbounded_reads_shortest};

use crate::integer_type::IntegerType;
use asn1_number::{Integer, IntegerBytes, IntegerError};
use std::alloc::{AllocError, Global};

impl IntegerType for Integer {
    const WIDTH: u32 = u32::MAX;

    const BYTE_WIDTH: usize = 536870911;

    type UnsignedPair = Integer;

    type SignedPair = Integer;

    ghost WIDTH = { 4294967295 };

    ghost BYTE_WIDTH = { 536870911 };

    ghost kind = { Unbounded };

    ghost value = { λ n. n };

    ghost pair_value = { λ n. n };

    ghost width = { Prim.search rules };

    ghost byte_width = { Prim.search rules };

    ghost reads_shortest = { unbounded_reads_shortest };

    fn zero() -> Integer {
        Integer::zero()
    }

    fn try_from_bytes(alloc: Global, octets: &[u8]) -> Result<Integer, IntegerError> {
        Integer::from_signed_octets(alloc, octets)
    }

    fn try_from_signed_bytes(alloc: Global, octets: &[u8]) -> Result<Integer, IntegerError> {
        Integer::from_signed_octets(alloc, octets)
    }

    fn try_from_unsigned_bytes(alloc: Global, octets: &[u8]) -> Result<Integer, IntegerError> {
        Integer::from_unsigned_octets(alloc, octets)
    }

    fn to_signed_bytes_be(&self) -> IntegerBytes<'_> {
        self.signed_octets()
    }

    fn to_unsigned_bytes_be(&self) -> IntegerBytes<'_> {
        self.unsigned_octets()
    }

    fn wrapping_unsigned_add(self, other: Integer) -> Option<Integer> {
        self.checked_add(&other)
    }

    fn is_negative(&self) -> bool {
        Integer::is_negative(self)
    }

    fn is_signed(&self) -> bool {
        true
    }

    fn to_integer(self, _alloc: Global) -> Result<Integer, AllocError> {
        Ok(self)
    }

    fn checked_add(&self, other: &Integer) -> Option<Integer> {
        Integer::checked_add(self, other)
    }

    fn checked_sub(&self, other: &Integer) -> Option<Integer> {
        Integer::checked_sub(self, other)
    }

    fn to_i128(&self) -> Option<i128> {
        Integer::to_i128(self)
    }

    fn try_from_i128(number: i128) -> Option<Integer> {
        Some(Integer::from(number))
    }

    fn from_integer(number: &Integer) -> Option<Integer> {
        Some(Integer::from(Integer::to_i128(number)?))
    }
}

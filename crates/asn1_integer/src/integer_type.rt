//! The calls of every integer type, in the words of whole numbers and their octets (X.690 8.3).
ghost use Rattle.std.specs.Prelude.{◌≡◌, ℕ, ◌+◌, ◌/◌, ◌↔◌, ℤ, pos, ◌+ℤ◌, ◌-ℤ◌, ◌<ℤ◌, List, Ok};
ghost use Rattle.std.specs.Prelude.{IsTrue, IfOk, OnErr, SomeIff, MatchOption};
ghost use Rattle.asn1_number.specs.Octets.{IsShortest};
ghost use Rattle.asn1_number.specs.Readings.{IntegerKind, width_of, IsInRange, FitsI128, Answers};
ghost use Rattle.asn1_number.specs.Readings.{signed_reading, unsigned_reading};
ghost use Rattle.asn1_integer.specs.Calls.{IsSignedKind, own_reading, IsInReach, IsChecked};
ghost use Rattle.asn1_integer.specs.Calls.{WrapsSum, IsNonNegativeUnlessNative, SpellsUnsigned, WantsMemory};

use asn1_number::{Integer, IntegerBytes, IntegerError};
use std::alloc::{AllocError, Global};

/// A type of whole numbers: a native integer type, or `Integer`.
///
/// Octets are most significant first. `Integer` alone allocates when it reads octets, and only for
/// a number outside `i128`.
pub trait IntegerType {
    /// The width of the type in bits; `u32::MAX` for `Integer`.
    const WIDTH: u32;

    /// The width of the type in octets, `WIDTH / 8`.
    const BYTE_WIDTH: usize;

    /// The unsigned type of the same width.
    type UnsignedPair;

    /// The signed type of twice the width, `i128` at most; a signed type's own.
    type SignedPair;

    ghost WIDTH: { ℕ };

    ghost BYTE_WIDTH: { ℕ };

    /// Which of the integer types it is.
    ghost kind: { IntegerKind };

    /// The number.
    ghost value: { Self → ℤ };

    /// The number of a pair.
    ghost pair_value: { Self.UnsignedPair → ℤ };

    /// Returns the number 0.
    fn zero() -> Self
    where
        Self: Sized,
        ensures { value result ≡ pos 0 };

    /// Returns the number that the octets encode: as unsigned for an unsigned type, otherwise in
    /// two's complement.
    ///
    /// # Errors
    ///
    /// Returns the errors of `try_from_unsigned_bytes` for an unsigned type, otherwise those of
    /// `try_from_signed_bytes`.
    fn try_from_bytes(alloc: Global, octets: &[u8]) -> Result<Self, IntegerError>
    where
        Self: Sized,
        ensures { Answers kind value result (own_reading kind octets.now) };

    /// Returns the number that the octets encode in two's complement (X.690 8.3.3).
    ///
    /// # Errors
    ///
    /// Returns, in this order:
    ///
    /// - `UnexpectedEmptyInput` if there are no octets;
    /// - `TypeConversionFailed` if the value is negative and the type is unsigned;
    /// - `Overflow` if there are more than `BYTE_WIDTH` octets; an unsigned type does not count one
    ///   leading zero octet, and an `Integer` has no such limit;
    /// - `Memory` if out of memory for an `Integer` outside `i128`.
    ///
    /// # Examples
    ///
    /// ```
    /// use asn1_integer::IntegerType;
    ///
    /// let port = u16::try_from_signed_bytes(rt.alloc(), &[0, 0xFF, 0xFF])?;
    /// assert!(rt; port == u16::MAX);
    /// assert!(rt; u8::try_from_signed_bytes(rt.alloc(), &[0xFF]).is_err());
    /// ```
    fn try_from_signed_bytes(alloc: Global, octets: &[u8]) -> Result<Self, IntegerError>
    where
        Self: Sized,
        ensures { Answers kind value result (signed_reading kind octets.now) };

    /// Returns the number that the octets encode as unsigned.
    ///
    /// # Errors
    ///
    /// Returns, in this order:
    ///
    /// - `UnexpectedEmptyInput` if there are no octets;
    /// - `Overflow` if there are more than `BYTE_WIDTH` octets; an `Integer` has no such limit;
    /// - `TypeConversionFailed` if the value exceeds the largest number of a signed native type;
    /// - `Memory` if out of memory for an `Integer` outside `i128`.
    fn try_from_unsigned_bytes(alloc: Global, octets: &[u8]) -> Result<Self, IntegerError>
    where
        Self: Sized,
        ensures { Answers kind value result (unsigned_reading kind octets.now) };

    /// Returns the shortest two's complement octets, the contents of an INTEGER (X.690 8.3).
    fn to_signed_bytes_be(&self) -> IntegerBytes<'_>
        ensures shortest { IsShortest (value self.now) result }
        ensures in_range { IsInRange kind (value self.now) };

    /// Returns the shortest unsigned octets of the number modulo 2 to the power of `WIDTH`,
    /// or of the number itself for an `Integer`.
    ///
    /// The number must not be negative if it is an `Integer`.
    fn to_unsigned_bytes_be(&self) -> IntegerBytes<'_>
        requires { IsNonNegativeUnlessNative kind (value self.now) }
        ensures { SpellsUnsigned kind (value self.now) result };

    /// Returns the sum, wrapped at the type's width. An `Integer` does not wrap: it returns the sum
    /// if that and both operands lie within `i128`, otherwise `None`.
    fn wrapping_unsigned_add(self, other: Self::UnsignedPair) -> Option<Self>
    where
        Self: Sized,
        ensures { WrapsSum kind value (value self) (pair_value other) result };

    /// Returns whether the number is below 0.
    fn is_negative(&self) -> bool
        ensures { IsTrue result ↔ (value self.now <ℤ pos 0) };

    /// Returns whether the type has numbers below 0.
    fn is_signed(&self) -> bool
        ensures { IsTrue result ↔ IsSignedKind kind };

    /// Returns the number as an `Integer`.
    ///
    /// # Errors
    ///
    /// Returns `AllocError` if out of memory, which only a `u128` above `i128::MAX` needs.
    fn to_integer(self, alloc: Global) -> Result<Integer, AllocError>
    where
        Self: Sized,
        ensures value { IfOk result (λ n. n ≡ value self) }
        ensures memory { OnErr result (WantsMemory kind (value self)) };

    /// Returns the sum if the type holds it, otherwise `None`. For an `Integer` it returns the sum
    /// if that and both operands lie within `i128`, otherwise `None`.
    fn checked_add(&self, other: &Self) -> Option<Self>
    where
        Self: Sized,
        ensures { let sum = value self.now +ℤ value other.now in
            IsChecked kind value (value self.now) (value other.now) sum result };

    /// Returns the difference if the type holds it, otherwise `None`. For an `Integer` it returns
    /// the difference if that and both operands lie within `i128`, otherwise `None`.
    fn checked_sub(&self, other: &Self) -> Option<Self>
    where
        Self: Sized,
        ensures { let difference = value self.now -ℤ value other.now in
            IsChecked kind value (value self.now) (value other.now) difference result };

    /// Returns the number if it lies within `i128`, otherwise `None`.
    fn to_i128(&self) -> Option<i128>
        ensures { SomeIff result (FitsI128 (value self.now)) (value self.now) };

    /// Returns the number if the type holds it, otherwise `None`.
    fn try_from_i128(number: i128) -> Option<Self>
    where
        Self: Sized,
        ensures { MatchOption result (¬ (IsInRange kind number))
            (λ x. (value x ≡ number) × IsInRange kind number) };

    /// Returns the number if the native type holds it, otherwise `None`. As an `Integer` it is
    /// returned if it lies within `i128`.
    fn from_integer(number: &Integer) -> Option<Self>
    where
        Self: Sized,
        ensures { MatchOption result (¬ (IsInReach kind number.now))
            (λ x. (value x ≡ number.now) × IsInReach kind number.now) };

    /// The constants are those of the kind.
    ghost width: { WIDTH ≡ width_of kind };

    ghost byte_width: { BYTE_WIDTH ≡ WIDTH / 8 };

    /// What a type reads from the shortest octets of one of its numbers is that number.
    ghost reads_shortest: { (n : ℤ) (octets : List ℕ) → IsInRange kind n → IsShortest n octets
        → signed_reading kind octets ≡ Ok n };
}

//! The six signed native types.
ghost use Rattle.std.specs.Prelude.{pos, true};
ghost use Rattle.std.proofs.Common.{rules};

use crate::native::Native;

impl Native for i8 {
    type UnsignedPair = u8;

    type SignedPair = i8;

    const IS_SIGNED: bool = true;

    const BYTE_WIDTH: u32 = 1;

    ghost IS_SIGNED = { true };

    ghost BYTE_WIDTH = { 1 };

    ghost value = { λ n. n };

    ghost pair_value = { pos };

    ghost sized = { Prim.search rules };

    fn low_bits(self) -> u128 {
        i128::from(self).cast_unsigned()
    }

    fn low_bits_of_pair(pair: u8) -> u128 {
        u128::from(pair)
    }

    fn from_low_bits(bits: u128) -> i8 {
        ((bits % (1 << 8)) as u8).cast_signed()
    }

    fn sum(self, other: i8) -> Option<i8> {
        self.checked_add(other)
    }

    fn difference(self, other: i8) -> Option<i8> {
        self.checked_sub(other)
    }
}

impl Native for i16 {
    type UnsignedPair = u16;

    type SignedPair = i16;

    const IS_SIGNED: bool = true;

    const BYTE_WIDTH: u32 = 2;

    ghost IS_SIGNED = { true };

    ghost BYTE_WIDTH = { 2 };

    ghost value = { λ n. n };

    ghost pair_value = { pos };

    ghost sized = { Prim.search rules };

    fn low_bits(self) -> u128 {
        i128::from(self).cast_unsigned()
    }

    fn low_bits_of_pair(pair: u16) -> u128 {
        u128::from(pair)
    }

    fn from_low_bits(bits: u128) -> i16 {
        ((bits % (1 << 16)) as u16).cast_signed()
    }

    fn sum(self, other: i16) -> Option<i16> {
        self.checked_add(other)
    }

    fn difference(self, other: i16) -> Option<i16> {
        self.checked_sub(other)
    }
}

impl Native for i32 {
    type UnsignedPair = u32;

    type SignedPair = i32;

    const IS_SIGNED: bool = true;

    const BYTE_WIDTH: u32 = 4;

    ghost IS_SIGNED = { true };

    ghost BYTE_WIDTH = { 4 };

    ghost value = { λ n. n };

    ghost pair_value = { pos };

    ghost sized = { Prim.search rules };

    fn low_bits(self) -> u128 {
        i128::from(self).cast_unsigned()
    }

    fn low_bits_of_pair(pair: u32) -> u128 {
        u128::from(pair)
    }

    fn from_low_bits(bits: u128) -> i32 {
        ((bits % (1 << 32)) as u32).cast_signed()
    }

    fn sum(self, other: i32) -> Option<i32> {
        self.checked_add(other)
    }

    fn difference(self, other: i32) -> Option<i32> {
        self.checked_sub(other)
    }
}

impl Native for i64 {
    type UnsignedPair = u64;

    type SignedPair = i64;

    const IS_SIGNED: bool = true;

    const BYTE_WIDTH: u32 = 8;

    ghost IS_SIGNED = { true };

    ghost BYTE_WIDTH = { 8 };

    ghost value = { λ n. n };

    ghost pair_value = { pos };

    ghost sized = { Prim.search rules };

    fn low_bits(self) -> u128 {
        i128::from(self).cast_unsigned()
    }

    fn low_bits_of_pair(pair: u64) -> u128 {
        u128::from(pair)
    }

    fn from_low_bits(bits: u128) -> i64 {
        ((bits % (1 << 64)) as u64).cast_signed()
    }

    fn sum(self, other: i64) -> Option<i64> {
        self.checked_add(other)
    }

    fn difference(self, other: i64) -> Option<i64> {
        self.checked_sub(other)
    }
}

impl Native for i128 {
    type UnsignedPair = u128;

    type SignedPair = i128;

    const IS_SIGNED: bool = true;

    const BYTE_WIDTH: u32 = 16;

    ghost IS_SIGNED = { true };

    ghost BYTE_WIDTH = { 16 };

    ghost value = { λ n. n };

    ghost pair_value = { pos };

    ghost sized = { Prim.search rules };

    fn low_bits(self) -> u128 {
        self.cast_unsigned()
    }

    fn low_bits_of_pair(pair: u128) -> u128 {
        pair
    }

    fn from_low_bits(bits: u128) -> i128 {
        bits.cast_signed()
    }

    fn sum(self, other: i128) -> Option<i128> {
        self.checked_add(other)
    }

    fn difference(self, other: i128) -> Option<i128> {
        self.checked_sub(other)
    }
}

impl Native for isize {
    type UnsignedPair = usize;

    type SignedPair = isize;

    const IS_SIGNED: bool = true;

    const BYTE_WIDTH: u32 = 8;

    ghost IS_SIGNED = { true };

    ghost BYTE_WIDTH = { 8 };

    ghost value = { λ n. n };

    ghost pair_value = { pos };

    ghost sized = { Prim.search rules };

    fn low_bits(self) -> u128 {
        (self as i128).cast_unsigned()
    }

    fn low_bits_of_pair(pair: usize) -> u128 {
        pair as u128
    }

    fn from_low_bits(bits: u128) -> isize {
        ((bits % (1 << 64)) as usize).cast_signed()
    }

    fn sum(self, other: isize) -> Option<isize> {
        self.checked_add(other)
    }

    fn difference(self, other: isize) -> Option<isize> {
        self.checked_sub(other)
    }
}

//! The six unsigned native types.
ghost use Rattle.std.specs.Prelude.{pos, false};
ghost use Rattle.std.proofs.Common.{rules};

use crate::native::Native;

impl Native for u8 {
    type UnsignedPair = u8;

    type SignedPair = i16;

    const IS_SIGNED: bool = false;

    const BYTE_WIDTH: u32 = 1;

    ghost IS_SIGNED = { false };

    ghost BYTE_WIDTH = { 1 };

    ghost value = { pos };

    ghost pair_value = { pos };

    ghost sized = { Prim.search rules };

    fn low_bits(self) -> u128 {
        u128::from(self)
    }

    fn low_bits_of_pair(pair: u8) -> u128 {
        u128::from(pair)
    }

    fn from_low_bits(bits: u128) -> u8 {
        (bits % (1 << 8)) as u8
    }

    fn sum(self, other: u8) -> Option<u8> {
        self.checked_add(other)
    }

    fn difference(self, other: u8) -> Option<u8> {
        self.checked_sub(other)
    }
}

impl Native for u16 {
    type UnsignedPair = u16;

    type SignedPair = i32;

    const IS_SIGNED: bool = false;

    const BYTE_WIDTH: u32 = 2;

    ghost IS_SIGNED = { false };

    ghost BYTE_WIDTH = { 2 };

    ghost value = { pos };

    ghost pair_value = { pos };

    ghost sized = { Prim.search rules };

    fn low_bits(self) -> u128 {
        u128::from(self)
    }

    fn low_bits_of_pair(pair: u16) -> u128 {
        u128::from(pair)
    }

    fn from_low_bits(bits: u128) -> u16 {
        (bits % (1 << 16)) as u16
    }

    fn sum(self, other: u16) -> Option<u16> {
        self.checked_add(other)
    }

    fn difference(self, other: u16) -> Option<u16> {
        self.checked_sub(other)
    }
}

impl Native for u32 {
    type UnsignedPair = u32;

    type SignedPair = i64;

    const IS_SIGNED: bool = false;

    const BYTE_WIDTH: u32 = 4;

    ghost IS_SIGNED = { false };

    ghost BYTE_WIDTH = { 4 };

    ghost value = { pos };

    ghost pair_value = { pos };

    ghost sized = { Prim.search rules };

    fn low_bits(self) -> u128 {
        u128::from(self)
    }

    fn low_bits_of_pair(pair: u32) -> u128 {
        u128::from(pair)
    }

    fn from_low_bits(bits: u128) -> u32 {
        (bits % (1 << 32)) as u32
    }

    fn sum(self, other: u32) -> Option<u32> {
        self.checked_add(other)
    }

    fn difference(self, other: u32) -> Option<u32> {
        self.checked_sub(other)
    }
}

impl Native for u64 {
    type UnsignedPair = u64;

    type SignedPair = i128;

    const IS_SIGNED: bool = false;

    const BYTE_WIDTH: u32 = 8;

    ghost IS_SIGNED = { false };

    ghost BYTE_WIDTH = { 8 };

    ghost value = { pos };

    ghost pair_value = { pos };

    ghost sized = { Prim.search rules };

    fn low_bits(self) -> u128 {
        u128::from(self)
    }

    fn low_bits_of_pair(pair: u64) -> u128 {
        u128::from(pair)
    }

    fn from_low_bits(bits: u128) -> u64 {
        (bits % (1 << 64)) as u64
    }

    fn sum(self, other: u64) -> Option<u64> {
        self.checked_add(other)
    }

    fn difference(self, other: u64) -> Option<u64> {
        self.checked_sub(other)
    }
}

impl Native for u128 {
    type UnsignedPair = u128;

    type SignedPair = i128;

    const IS_SIGNED: bool = false;

    const BYTE_WIDTH: u32 = 16;

    ghost IS_SIGNED = { false };

    ghost BYTE_WIDTH = { 16 };

    ghost value = { pos };

    ghost pair_value = { pos };

    ghost sized = { Prim.search rules };

    fn low_bits(self) -> u128 {
        self
    }

    fn low_bits_of_pair(pair: u128) -> u128 {
        pair
    }

    fn from_low_bits(bits: u128) -> u128 {
        bits
    }

    fn sum(self, other: u128) -> Option<u128> {
        self.checked_add(other)
    }

    fn difference(self, other: u128) -> Option<u128> {
        self.checked_sub(other)
    }
}

impl Native for usize {
    type UnsignedPair = usize;

    type SignedPair = i128;

    const IS_SIGNED: bool = false;

    const BYTE_WIDTH: u32 = 8;

    ghost IS_SIGNED = { false };

    ghost BYTE_WIDTH = { 8 };

    ghost value = { pos };

    ghost pair_value = { pos };

    ghost sized = { Prim.search rules };

    fn low_bits(self) -> u128 {
        self as u128
    }

    fn low_bits_of_pair(pair: usize) -> u128 {
        pair as u128
    }

    fn from_low_bits(bits: u128) -> usize {
        (bits % (1 << 64)) as usize
    }

    fn sum(self, other: usize) -> Option<usize> {
        self.checked_add(other)
    }

    fn difference(self, other: usize) -> Option<usize> {
        self.checked_sub(other)
    }
}

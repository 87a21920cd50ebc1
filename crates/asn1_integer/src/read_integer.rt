//! The integer of the octets that a reader has left, at any bit.

ghost use Rattle.std.specs.Prelude.{◌-◌, ◌≡◌, ℕ, List, ◌%◌, ◌^◌, ◌<◌, ◌≤◌, IfOk, OnErr, pos, ◌-ℤ◌, All};
ghost use Rattle.asn1_bits.specs.BitReader.{view_left, bits_left};
ghost use Rattle.asn1_bits.specs.Bits.{bits};
ghost use Rattle.asn1_number.specs.Octets.{signed};

use asn1_bits::BitReader;
use asn1_number::Integer;
use std::alloc::{AllocError, Global};

/// Returns the two's complement value of the octets that the reader has left (X.690 8.3.3), at any
/// bit of its storage. The reader is unchanged. Up to sixteen octets are read as a word.
///
/// The reader must have a multiple of 8 bits left, and at least one octet.
///
/// # Errors
///
/// Returns `AllocError` if out of memory, which only more than sixteen octets need.
#[inline(always)]
pub fn read_signed(alloc: Global, reader: &BitReader<'_>) -> Result<Integer, AllocError>
    requires some { 0 < (view_left reader.now).len }
    requires whole { (view_left reader.now).len % 8 ≡ 0 }
    ensures value { IfOk result (λ n. (octets : List ℕ) → bits octets ≡ bits_left reader.now
        → All (λ octet. octet < 256) octets → n ≡ signed octets) }
    ensures memory { OnErr result (128 < (view_left reader.now).len) }
{
    let width = reader.len();
    if width <= 128 {
        return Ok(integer_from_word(reader.first_u128(width), width));
    }
    read_copied(alloc, reader)
}

/// Passes a copy of the reader to the path that is not inlined, so that the caller's reader need
/// not lie in memory.
#[inline(always)]
fn read_copied(alloc: Global, reader: &BitReader<'_>) -> Result<Integer, AllocError>
    requires whole { (view_left reader.now).len % 8 ≡ 0 }
    ensures { IfOk result (λ n. (octets : List ℕ) → bits octets ≡ bits_left reader.now
        → All (λ octet. octet < 256) octets → n ≡ signed octets) }
{
    let copy = *reader;
    read_long(alloc, &copy)
}

/// Does what `read_signed` does for more than sixteen octets.
#[inline(never)]
fn read_long(alloc: Global, reader: &BitReader<'_>) -> Result<Integer, AllocError>
    requires whole { (view_left reader.now).len % 8 ≡ 0 }
    ensures { IfOk result (λ n. (octets : List ℕ) → bits octets ≡ bits_left reader.now
        → All (λ octet. octet < 256) octets → n ≡ signed octets) }
{
    let octets = reader.octets(alloc)?;
    let Ok(number) = Integer::from_signed_octets(alloc, octets.as_ref()) else {
        return Err(AllocError);
    };
    Ok(number)
}

/// Returns the two's complement value of a word's lowest `width` bits, which has no others.
#[inline(always)]
fn integer_from_word(word: u128, width: usize) -> Integer
    requires some { 0 < width }
    requires few { width ≤ 128 }
    requires below { word < 2 ^ width }
    ensures low { word < 2 ^ (width - 1) → result ≡ pos word }
    ensures high { 2 ^ (width - 1) ≤ word → result ≡ pos word -ℤ pos (2 ^ width) }
{
    if width <= 64 {
        return Integer::from(sign_extended_short(word as u64, width));
    }
    Integer::from(sign_extended(word, width))
}

/// Returns the number of `integer_from_word`, of more than 64 digits.
#[inline(always)]
fn sign_extended(word: u128, width: usize) -> i128
    requires many { 64 < width }
    requires few { width ≤ 128 }
    requires below { word < 2 ^ width }
    ensures low { word < 2 ^ (width - 1) → result ≡ pos word }
    ensures high { 2 ^ (width - 1) ≤ word → result ≡ pos word -ℤ pos (2 ^ width) }
{
    let half = half_of(width);
    if word < half {
        word as i128
    } else {
        -1 - (half - 1 - (word - half)) as i128
    }
}

/// Returns half of 2 to the power `width`, made of one word, since it lies in the upper one.
#[inline(always)]
fn half_of(width: usize) -> u128
    requires many { 64 < width }
    requires few { width ≤ 128 }
    ensures { result ≡ 2 ^ (width - 1) }
{
    u128::from(1u64 << (width - 65)) << 64
}

/// Returns the number of `integer_from_word`, of at most 64 digits.
#[inline(always)]
fn sign_extended_short(word: u64, width: usize) -> i64
    requires some { 0 < width }
    requires few { width ≤ 64 }
    requires below { word < 2 ^ width }
    ensures low { word < 2 ^ (width - 1) → result ≡ pos word }
    ensures high { 2 ^ (width - 1) ≤ word → result ≡ pos word -ℤ pos (2 ^ width) }
{
    let half = 1u64 << (width - 1);
    if word < half {
        word as i64
    } else {
        -1 - (half - 1 - (word - half)) as i64
    }
}

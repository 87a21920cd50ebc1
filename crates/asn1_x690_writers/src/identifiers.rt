//! Identifier octets (X.690 8.1.2).

ghost use Rattle.std.specs.Prelude.{◌≡◌, ◌+◌, ◌-◌, ◌*◌, ◌/◌, ◌%◌, ◌^◌, ◌<◌, ◌≤◌, ◌∷◌, length};
ghost use Rattle.asn1_bits.specs.Bits.{bits, is_odd};
ghost use Rattle.asn1_oid.specs.Writing.{last_octets};
ghost use Rattle.asn1_x690.specs.Elements.{class_of, identifier};
ghost use Rattle.asn1_x690_writers.specs.Written.{IsWritten};
ghost use Rattle.asn1_x691_writers.specs.Written.{IsGrown};

use crate::octets::put_octet;
use asn1_x690::{Class, Identifier, Tag};
use asn1_x691_writers::put_number;

/// Returns bits 8 and 7 of the first octet (8.1.2.2).
#[inline(always)]
fn class_bits(class: Class) -> u64
    ensures below { result < 4 }
    ensures class { class_of result ≡ class }
{
    match class {
        Class::Universal => 0,
        Class::Application => 1,
        Class::Context => 2,
        Class::Private => 3,
    }
}

/// Returns the first octet, of which bits 5 to 1 are given.
#[inline(always)]
fn first_octet(id: Identifier, low: u64) -> u64
    requires { low < 32 }
    ensures below { result < 256 }
    ensures low { result % 32 ≡ low }
    ensures class { class_of (result / 64) ≡ id.tag.class }
    ensures form { is_odd (result / 32) ≡ id.is_constructed }
{
    let form = if id.is_constructed { 32 } else { 0 };
    64 * class_bits(id.tag.class) + form + low
}

/// Writes identifier octets (X.690 8.1.2). Returns the index of the bit after them.
#[inline(always)]
pub fn put_identifier(octets: &mut [u8], at: usize, id: &Identifier) -> usize
    requires { 8 * length octets.old < 2 ^ 64 }
    ensures { IsWritten identifier id.now octets.old at octets.new result }
{
    if id.tag.number < 31 {
        return put_octet(octets, at, first_octet(*id, id.tag.number) as u8);
    }
    put_high_identifier(octets, at, id.tag.class, id.tag.number, id.is_constructed)
}

/// Writes identifier octets of a number from 31 on, and returns the index after them. Takes the fields
/// of the identifier, so that the caller can keep them in registers.
#[cold]
#[inline(never)]
fn put_high_identifier(
    octets: &mut [u8],
    at: usize,
    class: Class,
    number: u64,
    is_constructed: bool,
) -> usize
    requires size { 8 * length octets.old < 2 ^ 64 }
    requires long { 31 ≤ number }
    ensures { IsWritten identifier (record { tag = record { class = class; number = number }; is_constructed = is_constructed })
        octets.old at octets.new result }
{
    let own = Identifier {
        tag: Tag { class, number },
        is_constructed,
    };
    put_long_identifier(octets, at, own)
}

/// Writes identifier octets of a number from 31 on (8.1.2.4). Returns the index after them.
fn put_long_identifier(octets: &mut [u8], at: usize, id: Identifier) -> usize
    requires size { 8 * length octets.old < 2 ^ 64 }
    requires long { 31 ≤ id.tag.number }
    ensures { IsWritten identifier id octets.old at octets.new result }
{
    let next = put_number(octets, at, first_octet(id, 31), 8);
    let count = digit_count(id.tag.number);
    put_digits(octets, next, id.tag.number, count)
}

/// Returns how many octets hold a number above 0, seven of its digits in each.
fn digit_count(number: u64) -> usize
    requires { 0 < number }
    ensures some { 0 < result }
    ensures few { result ≤ 10 }
    ensures holds { number < 2 ^ (7 * result) }
    ensures least { 2 ^ (7 * (result - 1)) ≤ number }
{
    for count in 1..10usize {
        if number < 1u64 << (7 * count) {
            return count;
        }
    }
    10
}

/// Returns the octet with which the last `left + 1` of those of a number begin.
fn digit_at(number: u64, left: usize) -> u64
    requires { left < 10 }
    ensures first { last_octets number (left + 1) ≡ result ∷ last_octets number left }
    ensures below { result < 256 }
{
    let more = if left == 0 { 0 } else { 128 };
    more + (number >> (7 * left)) % 128
}

/// Writes the last `count` octets of a number. Returns the index after them.
fn put_digits(octets: &mut [u8], at: usize, number: u64, count: usize) -> usize
    requires size { 8 * length octets.old < 2 ^ 64 }
    requires count { count ≤ 10 }
    ensures { IsGrown octets.old at octets.new result (bits (last_octets number count)) }
{
    if count == 0 {
        return at;
    }
    let next = put_number(octets, at, digit_at(number, count - 1), 8);
    put_digits(octets, next, number, count - 1)
}

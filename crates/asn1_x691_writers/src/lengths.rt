//! Lengths (X.691 11.9).

ghost use Rattle.std.specs.Prelude.{◌≡◌, ℕ, Bool, ◌*◌, ◌^◌, ◌<◌, ◌≤◌, length};
ghost use Rattle.asn1_schema.specs.Encodings.{anywhere};
ghost use Rattle.asn1_x691.specs.Fields.{length_octets, length_of, small_length};
ghost use Rattle.asn1_x691.specs.Fragments.{units_octets, units_next};
ghost use Rattle.asn1_x691_writers.specs.Written.{IsWritten};

use crate::bits::put_number;
use crate::heads::put_start;

/// Writes a number below 16,384 in one or two octets (X.691 11.9.3.6, 11.9.3.7). Returns the index
/// after it.
#[inline(always)]
pub(crate) fn put_length_octets(octets: &mut [u8], at: usize, n: usize) -> usize
    requires size { 8 * length octets.old < 2 ^ 64 }
    requires few { n < 16384 }
    ensures length { (is_aligned : Bool) (node : ℕ)
        → IsWritten is_aligned (anywhere (length_octets node)) n octets.old at octets.new result }
    ensures units { (is_aligned : Bool) (node : ℕ)
        → IsWritten is_aligned (anywhere (units_octets node)) n octets.old at octets.new result }
{
    if n < 128 {
        return put_number(octets, at, n as u64, 8);
    }
    put_number(octets, at, 32768 + n as u64, 16)
}

/// Writes a length, which must be below 16,384 (X.691 11.9.3.5 to 11.9.3.7). Returns the index
/// after it.
#[inline(always)]
pub fn put_length(octets: &mut [u8], at: usize, is_aligned: bool, n: usize) -> usize
    requires size { 8 * length octets.old < 2 ^ 64 }
    requires few { n < 16384 }
    ensures { (node : ℕ) → IsWritten is_aligned (length_of is_aligned node) n octets.old at octets.new result }
{
    let start = put_start(octets, at, is_aligned);
    put_length_octets(octets, start, n)
}

/// Writes the number of the units that follow it, which must be below 16,384, as the last of a string
/// or a list (X.691 11.9.3.5 to 11.9.3.8). Returns the index after it.
pub fn put_number_of_units(octets: &mut [u8], at: usize, is_aligned: bool, n: usize) -> usize
    requires size { 8 * length octets.old < 2 ^ 64 }
    requires few { n < 16384 }
    ensures { (node : ℕ) → IsWritten is_aligned (units_next is_aligned node) n octets.old at octets.new result }
{
    let octet = put_start(octets, at, is_aligned);
    put_length_octets(octets, octet, n)
}

/// Writes the number of the units of a fragment, `times` times 16,384 (X.691 11.9.3.8). Returns the
/// index after it.
pub fn put_fragment_number(octets: &mut [u8], at: usize, is_aligned: bool, times: usize) -> usize
    requires size { 8 * length octets.old < 2 ^ 64 }
    requires some { 1 ≤ times }
    requires few { times ≤ 4 }
    ensures { (node : ℕ) → IsWritten is_aligned (units_next is_aligned node) (16384 * times) octets.old at octets.new result }
{
    let octet = put_start(octets, at, is_aligned);
    put_number(octets, octet, 192 + times as u64, 8)
}

/// Writes a normally small length, which must be from 1 to 16,383 (X.691 11.9.3.4). Returns the
/// index after it.
pub fn put_small_length(octets: &mut [u8], at: usize, is_aligned: bool, n: usize) -> usize
    requires size { 8 * length octets.old < 2 ^ 64 }
    requires some { 0 < n }
    requires few { n < 16384 }
    ensures { (node : ℕ) → IsWritten is_aligned (small_length is_aligned node) n octets.old at octets.new result }
{
    if n <= 64 {
        return put_number(octets, at, (n - 1) as u64, 7);
    }
    let after = put_number(octets, at, 1, 1);
    put_length(octets, after, is_aligned, n)
}

//! Constrained whole numbers (X.691 11.5): each is written as its distance from the least.

ghost use Rattle.std.specs.Prelude.{◌≡◌, ◌≢◌, ℕ, ◌+◌, ◌*◌, ◌^◌, ◌<◌, ◌≤◌, length, Bool, true};
ghost use Rattle.asn1_schema.specs.Encodings.{anywhere, in_case};
ghost use Rattle.asn1_x691.specs.Fields.{on_octet, width_to as width_in, octets_needed, in_bits, minimal_octets, minimal_up_to, octet_count, indefinite, constrained};
ghost use Rattle.asn1_x691.specs.Laws.OneEncodingLaws.{IsMinimal};
ghost use Rattle.asn1_x691_writers.specs.Written.{IsWritten};

use crate::bits::put_wide;
use crate::heads::put_start;
use asn1_x691_fields::width_to;

/// Returns how many octets a number takes, one at least (X.691 11.3.6).
#[inline(always)]
pub(crate) fn octets_of(n: u128) -> usize
    ensures minimal { IsMinimal result n }
    ensures some { 0 < result }
    ensures few { result ≤ 16 }
    ensures fewest { (range : ℕ) → n ≤ range → result ≤ octets_needed (width_in range) }
{
    width_to(n).saturating_sub(1) / 8 + 1
}

/// Writes a number from 0 to `most` in `width` bits (X.691 11.3). Returns the index after it.
#[inline(always)]
fn put_in_bits(octets: &mut [u8], at: usize, n: u128, width: usize) -> usize
    requires size { 8 * length octets.old < 2 ^ 64 }
    requires width { width ≤ 128 }
    requires below { n < 2 ^ width }
    ensures { (is_aligned : Bool) (most node : ℕ) → n ≤ most
        → IsWritten is_aligned (anywhere (in_bits width most node)) n octets.old at octets.new result }
{
    put_wide(octets, at, n, width)
}

/// Writes a constrained whole number, which must be from 0 to `range`, the difference of the
/// greatest and the least value (X.691 11.5.6, 11.5.7). Returns the index after it.
#[inline(always)]
pub fn put_constrained(
    octets: &mut [u8],
    at: usize,
    is_aligned: bool,
    range: u128,
    n: u128,
) -> usize
    requires size { 8 * length octets.old < 2 ^ 64 }
    requires most { n ≤ range }
    ensures { (node : ℕ) → IsWritten is_aligned (constrained is_aligned range node) n octets.old at octets.new result }
{
    if is_aligned && range >= 255 {
        return put_on_octet(octets, at, range, n);
    }
    put_in_bits(octets, at, n, width_to(range))
}

/// Writes one of 256 numbers or more in the ALIGNED variant (X.691 11.5.7.2 to 11.5.7.4).
fn put_on_octet(octets: &mut [u8], at: usize, range: u128, n: u128) -> usize
    requires size { 8 * length octets.old < 2 ^ 64 }
    requires most { n ≤ range }
    ensures { (node : ℕ) → IsWritten true (in_case (range ≡ 255) (on_octet true node (in_bits 8 range node)) (range ≢ 255)
        (in_case (range < 65536) (on_octet true node (in_bits 16 range node)) (65536 ≤ range) (indefinite range node)))
        n octets.old at octets.new result }
{
    if range >= 65536 {
        return put_indefinite(octets, at, range, n);
    }
    let start = put_start(octets, at, true);
    if range == 255 {
        return put_in_bits(octets, start, n, 8);
    }
    put_in_bits(octets, start, n, 16)
}

/// Writes one of more than 65,536 numbers: how many octets it has, then the number in them
/// (X.691 11.5.7.4).
fn put_indefinite(octets: &mut [u8], at: usize, range: u128, n: u128) -> usize
    requires size { 8 * length octets.old < 2 ^ 64 }
    requires most { n ≤ range }
    ensures { (node : ℕ) → IsWritten true (indefinite range node) n octets.old at octets.new result }
{
    let count = octets_of(n);
    let greatest = width_to(range).saturating_sub(1) / 8;
    let after = put_in_bits(octets, at, (count - 1) as u128, width_to(greatest as u128));
    let start = put_start(octets, after, true);
    put_minimal(octets, start, n, count)
}

/// Writes a number in `count` octets, the minimal number (X.691 11.3.6). Returns the index
/// after it.
#[inline(always)]
pub(crate) fn put_minimal(octets: &mut [u8], at: usize, n: u128, count: usize) -> usize
    requires size { 8 * length octets.old < 2 ^ 64 }
    requires few { count ≤ 16 }
    requires minimal { IsMinimal count n }
    ensures { (is_aligned : Bool) (node : ℕ)
        → IsWritten is_aligned (anywhere (minimal_octets count node)) n octets.old at octets.new result }
{
    put_wide(octets, at, n, 8 * count)
}

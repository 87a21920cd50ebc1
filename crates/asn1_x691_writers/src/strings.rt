//! Units after their number, in fragments where there are many (X.691 11.9.3.5 to 11.9.3.8).

ghost use Rattle.asn1_x691.specs.Fragments.{most_fragments};
ghost use Rattle.std.specs.Prelude.{◌≡◌, ℕ, suc, ◌++◌, ◌+◌, ◌*◌, ◌^◌, ◌<◌, ◌≤◌, length};
ghost use Rattle.asn1_bits.specs.Bits.{bits};
ghost use Rattle.asn1_schema.specs.PiecesOfParts.{bits_at};
ghost use Rattle.asn1_x691.specs.Fragments.{bits_of_units, all_units, string};
ghost use Rattle.asn1_x691_writers.specs.Written.{IsWritten};
ghost use Rattle.asn1_x691_writers.specs.Units.{AreUnits};

use crate::bits::{put_bits, put_number};
use crate::heads::put_start;
use crate::lengths::put_length_octets;

/// Writes `count` units of `unit` bits of a source, from bit `from` on, after their number
/// (X.691 11.9.3.5 to 11.9.3.8). Returns the index after them. The units must be inside the source.
#[inline(always)]
pub fn put_units(
    octets: &mut [u8],
    at: usize,
    is_aligned: bool,
    unit: usize,
    source: &[u8],
    from: usize,
    count: usize,
) -> usize
    requires size { 8 * length octets.old < 2 ^ 64 }
    requires source { 8 * length source.now < 2 ^ 64 }
    requires some { 0 < unit }
    requires within { from + unit * count ≤ 8 * length source.now }
    ensures { (node : ℕ) → IsWritten is_aligned (string most_fragments is_aligned unit node) (count, bits_at (bits source.now) from (unit * count))
        octets.old at octets.new result }
{
    if count < 16384 {
        return put_few(octets, at, is_aligned, unit, source, from, count);
    }
    put_fragments(octets, at, is_aligned, unit, source, from, count)
}

/// Writes fewer than 16,384 units after their number.
#[inline(always)]
fn put_few(
    octets: &mut [u8],
    at: usize,
    is_aligned: bool,
    unit: usize,
    source: &[u8],
    from: usize,
    count: usize,
) -> usize
    requires size { 8 * length octets.old < 2 ^ 64 }
    requires source { 8 * length source.now < 2 ^ 64 }
    requires few { count < 16384 }
    requires within { from + unit * count ≤ 8 * length source.now }
    ensures { (node : ℕ) → AreUnits is_aligned unit node count (bits_at (bits source.now) from (unit * count))
        octets.old at octets.new result }
{
    let start = put_start(octets, at, is_aligned);
    let after = put_length_octets(octets, start, count);
    put_bits(octets, after, source, from, unit * count)
}

/// Writes a fragment of `times` times 16,384 units (X.691 11.9.3.8).
fn put_fragment(
    octets: &mut [u8],
    at: usize,
    is_aligned: bool,
    unit: usize,
    source: &[u8],
    from: usize,
    times: usize,
) -> usize
    requires size { 8 * length octets.old < 2 ^ 64 }
    requires source { 8 * length source.now < 2 ^ 64 }
    requires some { 1 ≤ times }
    requires few { times ≤ 4 }
    requires within { from + unit * (16384 * times) ≤ 8 * length source.now }
    ensures { (node : ℕ) → AreUnits is_aligned unit node (16384 * times) (bits_at (bits source.now) from (unit * (16384 * times)))
        octets.old at octets.new result }
{
    let start = put_start(octets, at, is_aligned);
    let after = put_number(octets, start, 192 + times as u64, 8);
    put_bits(octets, after, source, from, unit * (16384 * times))
}

/// Writes the last units, of which there are fewer than 65,536: a fragment, if need be, and fewer
/// than 16,384 units.
fn put_last_units(
    octets: &mut [u8],
    at: usize,
    is_aligned: bool,
    unit: usize,
    source: &[u8],
    from: usize,
    count: usize,
) -> usize
    requires size { 8 * length octets.old < 2 ^ 64 }
    requires source { 8 * length source.now < 2 ^ 64 }
    requires few { count < 65536 }
    requires within { from + unit * count ≤ 8 * length source.now }
    ensures { (node more : ℕ) → IsWritten is_aligned (all_units (bits_of_units unit node) (λ a b. a ++ b) is_aligned node (suc more))
        (count, bits_at (bits source.now) from (unit * count)) octets.old at octets.new result }
{
    let times = count / 16384;
    if times == 0 {
        return put_few(octets, at, is_aligned, unit, source, from, count);
    }
    let after = put_fragment(octets, at, is_aligned, unit, source, from, times);
    let first = unit * (16384 * times);
    put_few(
        octets,
        after,
        is_aligned,
        unit,
        source,
        from + first,
        count % 16384,
    )
}

/// Writes 16,384 units and more, the largest fragments first.
#[cold]
#[inline(never)]
fn put_fragments(
    octets: &mut [u8],
    at: usize,
    is_aligned: bool,
    unit: usize,
    source: &[u8],
    from: usize,
    count: usize,
) -> usize
    requires size { 8 * length octets.old < 2 ^ 64 }
    requires source { 8 * length source.now < 2 ^ 64 }
    requires some { 0 < unit }
    requires within { from + unit * count ≤ 8 * length source.now }
    ensures { (node : ℕ) → IsWritten is_aligned (string most_fragments is_aligned unit node) (count, bits_at (bits source.now) from (unit * count))
        octets.old at octets.new result }
{
    let mut next = at;
    let mut first = from;
    let mut left = count;
    while left >= 65536 {
        next = put_fragment(octets, next, is_aligned, unit, source, first, 4);
        first += unit * 65536;
        left -= 65536;
    }
    put_last_units(octets, next, is_aligned, unit, source, first, left)
}

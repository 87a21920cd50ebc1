//! Strings by their size constraints (X.691 16, 17).

ghost use Rattle.asn1_x691.specs.Fragments.{most_fragments};
ghost use Rattle.std.specs.Prelude.{◌≡◌, ℕ, ◌+◌, ◌*◌, ◌^◌, ◌<◌, ◌≤◌, true, false, length};
ghost use Rattle.asn1_bits.specs.Bits.{bits};
ghost use Rattle.asn1_schema.specs.PiecesOfParts.{bits_at};
ghost use Rattle.asn1_x691.specs.Strings.{IsInline, IsOnOctet, IsOfRoot, IsAddedSize, units_of, sized_string, string_of, added_string};
ghost use Rattle.asn1_x691_writers.specs.Written.{IsWritten};

use crate::bits::put_bits;
use crate::heads::put_start;
use crate::numbers::put_constrained;
use crate::strings::put_units;
use asn1_schema::Length;

/// Returns whether the root of a size constraint permits a size.
pub fn is_of_root(size: Length, count: usize) -> bool
    ensures of_root { result ≡ true → IsOfRoot size count }
    ensures added { result ≡ false → IsAddedSize size count }
{
    match size {
        Length::AtLeast { least } => count >= least,
        Length::Between { least, range } => {
            count >= least as usize && count - least as usize <= range as usize
        }
    }
}

/// Writes a string of `count` units of `unit` bits of a source (X.691 16, 17). Returns the index
/// after it. The units must be inside the source, and the size must be in the root.
pub fn put_string_of(
    octets: &mut [u8],
    at: usize,
    is_aligned: bool,
    unit: usize,
    size: Length,
    source: &[u8],
    from: usize,
    count: usize,
) -> usize
    requires size { 8 * length octets.old < 2 ^ 64 }
    requires source { 8 * length source.now < 2 ^ 64 }
    requires some { 0 < unit }
    requires within { from + unit * count ≤ 8 * length source.now }
    requires root { IsOfRoot size count }
    ensures { (node : ℕ) → IsWritten is_aligned (string_of most_fragments is_aligned unit size node) (bits_at (bits source.now) from (unit * count))
        octets.old at octets.new result }
{
    match size {
        Length::AtLeast { least: _ } => put_units(
            octets, at, is_aligned, unit, source, from, count,
        ),
        Length::Between { least, range } => {
            let after = put_constrained(
                octets,
                at,
                is_aligned,
                range as u128,
                (count - least as usize) as u128,
            );
            put_units_of(
                octets,
                after,
                is_aligned,
                unit,
                least as usize,
                range as usize,
                source,
                from,
                count,
            )
        }
    }
}

/// Writes a string of a size that is not in the root (X.691 16.6, 17.3). Returns the index after
/// it. The units must be inside the source.
pub fn put_added_string(
    octets: &mut [u8],
    at: usize,
    is_aligned: bool,
    unit: usize,
    source: &[u8],
    from: usize,
    count: usize,
) -> usize
    requires size { 8 * length octets.old < 2 ^ 64 }
    requires source { 8 * length source.now < 2 ^ 64 }
    requires some { 0 < unit }
    requires within { from + unit * count ≤ 8 * length source.now }
    ensures { (size : Length) (node : ℕ) → IsAddedSize size count → IsWritten is_aligned (added_string most_fragments is_aligned unit size node)
        (bits_at (bits source.now) from (unit * count)) octets.old at octets.new result }
{
    put_units(octets, at, is_aligned, unit, source, from, count)
}

/// Writes `count` units, which begin at an octet in the ALIGNED variant, unless their number is
/// fixed and small, or there are none (X.691 16.9, 16.10, 17.6, 17.7).
fn put_units_of(
    octets: &mut [u8],
    at: usize,
    is_aligned: bool,
    unit: usize,
    least: usize,
    range: usize,
    source: &[u8],
    from: usize,
    count: usize,
) -> usize
    requires size { 8 * length octets.old < 2 ^ 64 }
    requires source { 8 * length source.now < 2 ^ 64 }
    requires least { least ≤ count }
    requires most { count ≤ least + range }
    requires within { from + unit * count ≤ 8 * length source.now }
    ensures { (node : ℕ) → IsWritten is_aligned (units_of is_aligned unit least range node count)
        (bits_at (bits source.now) from (unit * count)) octets.old at octets.new result }
{
    if is_inline(unit, least, range, count) {
        return put_bits(octets, at, source, from, unit * count);
    }
    let start = put_start(octets, at, is_aligned);
    put_bits(octets, start, source, from, unit * count)
}

/// Returns whether `count` units begin where they are.
pub(crate) fn is_inline(unit: usize, least: usize, range: usize, count: usize) -> bool
    requires least { least ≤ count }
    requires most { count ≤ least + range }
    requires fits { unit * count < 2 ^ 64 }
    ensures is { result ≡ true → IsInline unit least range count }
    ensures not { result ≡ false → IsOnOctet unit least range count }
{
    if count == 0 {
        return true;
    }
    if range > 0 {
        return false;
    }
    unit * count <= 16
}

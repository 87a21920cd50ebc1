//! Units of a part in fragments, after their number and by their size constraint (X.691 11.9.3.5 to
//! 11.9.3.8, 16, 17).

ghost use Rattle.std.specs.Prelude.{◌≡◌, ℕ, suc, ◌++◌, ◌+◌, ◌*◌, ◌^◌, ◌<◌, ◌≤◌, true, false, length};
ghost use Rattle.asn1_bits.specs.Bits.{bits};
ghost use Rattle.asn1_schema.specs.PiecesOfParts.{bits_at};
ghost use Rattle.asn1_x691.specs.Fragments.{most_fragments, bits_of_units, all_units, string};
ghost use Rattle.asn1_x691.specs.Strings.{IsInline, IsOnOctet, IsOfRoot, IsAddedSize, units_of, string_of, added_string};
ghost use Rattle.asn1_x691_writers.specs.Joined.{IsInside, bits_in};
ghost use Rattle.asn1_x691_writers.specs.Units.{AreUnits};
ghost use Rattle.asn1_x691_writers.specs.Written.{IsWritten};

use crate::heads::put_start;
use crate::joined::{Joined, put_joined};
use crate::lengths::{put_fragment_number, put_number_of_units};
use crate::numbers::put_constrained;
use crate::sized_strings::is_inline;
use asn1_schema::Length;

/// Writes units of a number of the root. Returns the index after them.
pub(crate) fn put_joined_of(
    octets: &mut [u8],
    at: usize,
    is_aligned: bool,
    size: Length,
    source: &[u8],
    joined: &Joined,
    count: usize,
) -> usize
    requires size { 8 * length octets.old < 2 ^ 64 }
    requires source { 8 * length source.now < 2 ^ 64 }
    requires inside { IsInside (bits source.now) joined.now }
    requires all { joined.now.unit * count ≡ length (bits_in (bits source.now) joined.now) }
    requires root { IsOfRoot size count }
    ensures { (node : ℕ) → IsWritten is_aligned (string_of most_fragments is_aligned joined.now.unit size node)
        (bits_at (bits_in (bits source.now) joined.now) 0 (joined.now.unit * count)) octets.old at octets.new result }
{
    match size {
        Length::AtLeast { least: _ } => put_joined_units(
            octets, at, is_aligned, source, joined, count,
        ),
        Length::Between { least, range } => {
            let after = put_constrained(
                octets,
                at,
                is_aligned,
                range as u128,
                (count - least as usize) as u128,
            );
            put_joined_inline(
                octets,
                after,
                is_aligned,
                least as usize,
                range as usize,
                source,
                joined,
                count,
            )
        }
    }
}

/// Writes units of a number that is none of the root (X.691 16.6, 17.3). Returns the index after them.
pub(crate) fn put_added_joined(
    octets: &mut [u8],
    at: usize,
    is_aligned: bool,
    source: &[u8],
    joined: &Joined,
    count: usize,
) -> usize
    requires size { 8 * length octets.old < 2 ^ 64 }
    requires source { 8 * length source.now < 2 ^ 64 }
    requires inside { IsInside (bits source.now) joined.now }
    requires all { joined.now.unit * count ≡ length (bits_in (bits source.now) joined.now) }
    ensures { (size : Length) (node : ℕ) → IsAddedSize size count → IsWritten is_aligned (added_string most_fragments is_aligned joined.now.unit size node)
        (bits_at (bits_in (bits source.now) joined.now) 0 (joined.now.unit * count)) octets.old at octets.new result }
{
    put_joined_units(octets, at, is_aligned, source, joined, count)
}

/// Writes `count` units, which begin at an octet in the ALIGNED variant, unless their number is
/// fixed and small, or there are none (X.691 16.9, 16.10, 17.6, 17.7).
fn put_joined_inline(
    octets: &mut [u8],
    at: usize,
    is_aligned: bool,
    least: usize,
    range: usize,
    source: &[u8],
    joined: &Joined,
    count: usize,
) -> usize
    requires size { 8 * length octets.old < 2 ^ 64 }
    requires source { 8 * length source.now < 2 ^ 64 }
    requires inside { IsInside (bits source.now) joined.now }
    requires least { least ≤ count }
    requires most { count ≤ least + range }
    requires few { count < 2 ^ 40 }
    requires all { joined.now.unit * count ≡ length (bits_in (bits source.now) joined.now) }
    ensures { (node : ℕ) → IsWritten is_aligned (units_of is_aligned joined.now.unit least range node count)
        (bits_at (bits_in (bits source.now) joined.now) 0 (joined.now.unit * count)) octets.old at octets.new result }
{
    if is_inline(joined.unit, least, range, count) {
        return put_joined(octets, at, source, joined, 0, joined.unit * count);
    }
    let start = put_start(octets, at, is_aligned);
    put_joined(octets, start, source, joined, 0, joined.unit * count)
}

/// Writes units after their number. Returns the index after them.
pub(crate) fn put_joined_units(
    octets: &mut [u8],
    at: usize,
    is_aligned: bool,
    source: &[u8],
    joined: &Joined,
    count: usize,
) -> usize
    requires size { 8 * length octets.old < 2 ^ 64 }
    requires source { 8 * length source.now < 2 ^ 64 }
    requires inside { IsInside (bits source.now) joined.now }
    requires all { joined.now.unit * count ≡ length (bits_in (bits source.now) joined.now) }
    ensures { (node : ℕ) → IsWritten is_aligned (string most_fragments is_aligned joined.now.unit node)
        (count, bits_at (bits_in (bits source.now) joined.now) 0 (joined.now.unit * count)) octets.old at octets.new result }
{
    let mut next = at;
    let mut first: u128 = 0;
    let mut left = count;
    while left >= 65536 {
        next = put_joined_fragment(octets, next, is_aligned, source, joined, first, 4);
        first += (joined.unit * 65_536) as u128;
        left -= 65536;
    }
    put_last_joined(octets, next, is_aligned, source, joined, first, left)
}

/// Writes the last units, of which there are fewer than 65,536.
fn put_last_joined(
    octets: &mut [u8],
    at: usize,
    is_aligned: bool,
    source: &[u8],
    joined: &Joined,
    from: u128,
    count: usize,
) -> usize
    requires size { 8 * length octets.old < 2 ^ 64 }
    requires source { 8 * length source.now < 2 ^ 64 }
    requires inside { IsInside (bits source.now) joined.now }
    requires few { count < 65536 }
    requires within { from + joined.now.unit * count ≤ length (bits_in (bits source.now) joined.now) }
    ensures { (node more : ℕ) → IsWritten is_aligned (all_units (bits_of_units joined.now.unit node) (λ a b. a ++ b) is_aligned node (suc more))
        (count, bits_at (bits_in (bits source.now) joined.now) from (joined.now.unit * count)) octets.old at octets.new result }
{
    let times = count / 16384;
    if times == 0 {
        return put_few_joined(octets, at, is_aligned, source, joined, from, count);
    }
    let after = put_joined_fragment(octets, at, is_aligned, source, joined, from, times);
    let first = joined.unit * (16384 * times);
    put_few_joined(
        octets,
        after,
        is_aligned,
        source,
        joined,
        from + first as u128,
        count % 16384,
    )
}

/// Writes fewer than 16,384 units after their number.
fn put_few_joined(
    octets: &mut [u8],
    at: usize,
    is_aligned: bool,
    source: &[u8],
    joined: &Joined,
    from: u128,
    count: usize,
) -> usize
    requires size { 8 * length octets.old < 2 ^ 64 }
    requires source { 8 * length source.now < 2 ^ 64 }
    requires inside { IsInside (bits source.now) joined.now }
    requires few { count < 16384 }
    requires within { from + joined.now.unit * count ≤ length (bits_in (bits source.now) joined.now) }
    ensures { (node : ℕ) → AreUnits is_aligned joined.now.unit node count (bits_at (bits_in (bits source.now) joined.now) from (joined.now.unit * count))
        octets.old at octets.new result }
{
    let after = put_number_of_units(octets, at, is_aligned, count);
    put_joined(octets, after, source, joined, from, joined.unit * count)
}

/// Writes a fragment of `times` times 16,384 units (X.691 11.9.3.8).
fn put_joined_fragment(
    octets: &mut [u8],
    at: usize,
    is_aligned: bool,
    source: &[u8],
    joined: &Joined,
    from: u128,
    times: usize,
) -> usize
    requires size { 8 * length octets.old < 2 ^ 64 }
    requires source { 8 * length source.now < 2 ^ 64 }
    requires inside { IsInside (bits source.now) joined.now }
    requires some { 1 ≤ times }
    requires few { times ≤ 4 }
    requires within { from + joined.now.unit * (16384 * times) ≤ length (bits_in (bits source.now) joined.now) }
    ensures { (node : ℕ) → AreUnits is_aligned joined.now.unit node (16384 * times)
        (bits_at (bits_in (bits source.now) joined.now) from (joined.now.unit * (16384 * times))) octets.old at octets.new result }
{
    let after = put_fragment_number(octets, at, is_aligned, times);
    put_joined(
        octets,
        after,
        source,
        joined,
        from,
        joined.unit * (16384 * times),
    )
}

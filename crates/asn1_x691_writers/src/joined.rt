//! Units in fragments, as one string of bits.

ghost use Rattle.std.specs.Prelude.{◌≡◌, ◌++◌, ◌+◌, ◌-◌, ◌*◌, ◌^◌, ◌<◌, ◌≤◌, length};
ghost use Rattle.asn1_bits.specs.Bits.{bits};
ghost use Rattle.asn1_schema.specs.PiecesOfParts.{bits_at, bits_of, joined as joined_in};
ghost use Rattle.asn1_x691_writers.specs.Joined.{IsInside, bits_in};
ghost use Rattle.asn1_x691_writers.specs.Written.{IsGrown};

use crate::bits::put_bits;
use crate::spans::clip;
use asn1_schema::{Fragments, Span};

/// The bits of a part in fragments that are within the source.
#[derive(Clone, Copy, Debug)]
pub(crate) struct Joined {
    /// How many bits a unit has.
    pub(crate) unit: usize,
    /// The index of the first bit of the first fragment.
    pub(crate) at: usize,
    /// How many fragments of 65,536 units there are, each with an octet after it.
    pub(crate) whole: usize,
    /// The bits of the fragment after them.
    pub(crate) part: Span,
    /// The bits of a smaller fragment.
    pub(crate) middle: Span,
    /// The bits that follow.
    pub(crate) last: Span,
}

/// Returns the bits of fragments of units of `unit` bits, of which there must be one to eight.
pub(crate) fn joined_of(source: &[u8], unit: usize, fragments: Fragments) -> Joined
    requires source { 8 * length source.now < 2 ^ 64 }
    requires some { 0 < unit }
    requires few { unit ≤ 8 }
    ensures unit { result.unit ≡ unit }
    ensures same { bits_in (bits source.now) result ≡ joined_in unit (bits source.now) fragments }
    ensures inside { IsInside (bits source.now) result }
{
    let size = 8 * source.len();
    let middle = clip(source, fragments.middle);
    let last = clip(source, fragments.last);
    let none = Span { at: 0, count: 0 };
    if fragments.at > size {
        return Joined {
            unit,
            at: 0,
            whole: 0,
            part: none,
            middle,
            last,
        };
    }
    let count = unit * 65_536;
    let within = (size - fragments.at) / (count + 8);
    if fragments.whole <= within {
        return Joined {
            unit,
            at: fragments.at,
            whole: fragments.whole,
            part: none,
            middle,
            last,
        };
    }
    let at = fragments.at + (count + 8) * within;
    let part = clip(source, Span { at, count });
    Joined {
        unit,
        at: fragments.at,
        whole: within,
        part,
        middle,
        last,
    }
}

/// Returns how many bits there are.
pub(crate) fn size_of(source: &[u8], joined: &Joined) -> u128
    requires source { 8 * length source.now < 2 ^ 64 }
    requires inside { IsInside (bits source.now) joined.now }
    ensures size { result ≡ length (bits_in (bits source.now) joined.now) }
    ensures few { result < 2 ^ 67 }
{
    let after = joined.part.count as u128 + joined.middle.count as u128 + joined.last.count as u128;
    (joined.unit * 65_536) as u128 * joined.whole as u128 + after
}

/// Returns the bits of the source that are those from an index on, as many as follow one another.
pub(crate) fn run_at(source: &[u8], joined: &Joined, from: u128) -> Span
    requires source { 8 * length source.now < 2 ^ 64 }
    requires inside { IsInside (bits source.now) joined.now }
    requires within { from < length (bits_in (bits source.now) joined.now) }
    ensures some { 0 < result.count }
    ensures inside { result.at + result.count ≤ length (bits source.now) }
    ensures same { bits_of (bits source.now) result ≡ bits_at (bits_in (bits source.now) joined.now) from result.count }
{
    let count = joined.unit * 65_536;
    let whole = count as u128 * joined.whole as u128;
    if from < whole {
        let index = (from / count as u128) as usize;
        let skip = (from % count as u128) as usize;
        return Span {
            at: joined.at + (count + 8) * index + skip,
            count: count - skip,
        };
    }
    run_after(source, joined, from - whole)
}

/// Returns the same of the bits after the fragments of 65,536 units.
fn run_after(source: &[u8], joined: &Joined, from: u128) -> Span
    requires source { 8 * length source.now < 2 ^ 64 }
    requires inside { IsInside (bits source.now) joined.now }
    requires within { from < joined.now.part.count + joined.now.middle.count + joined.now.last.count }
    ensures some { 0 < result.count }
    ensures inside { result.at + result.count ≤ length (bits source.now) }
    ensures same { bits_of (bits source.now) result
        ≡ bits_at (bits_of (bits source.now) joined.now.part ++ (bits_of (bits source.now) joined.now.middle ++ bits_of (bits source.now) joined.now.last))
        from result.count }
{
    let part = joined.part.count as u128;
    if from < part {
        return rest_of(joined.part, from);
    }
    let middle = joined.middle.count as u128;
    if from - part < middle {
        return rest_of(joined.middle, from - part);
    }
    rest_of(joined.last, from - part - middle)
}

/// Returns a span without its first `count` bits.
fn rest_of(span: Span, count: u128) -> Span
    requires count { count < span.count }
    requires fits { span.at + span.count < 2 ^ 64 }
    ensures at { result.at ≡ span.at + count }
    ensures count { result.count ≡ span.count - count }
{
    Span {
        at: span.at + count as usize,
        count: span.count - count as usize,
    }
}

/// Writes `count` bits from an index on. Returns the index after them.
pub(crate) fn put_joined(
    octets: &mut [u8],
    at: usize,
    source: &[u8],
    joined: &Joined,
    from: u128,
    count: usize,
) -> usize
    requires size { 8 * length octets.old < 2 ^ 64 }
    requires source { 8 * length source.now < 2 ^ 64 }
    requires inside { IsInside (bits source.now) joined.now }
    requires within { from + count ≤ length (bits_in (bits source.now) joined.now) }
    ensures { IsGrown octets.old at octets.new result (bits_at (bits_in (bits source.now) joined.now) from count) }
{
    let mut next = at;
    let mut first = from;
    let mut left = count;
    while left > 0 {
        let run = run_at(source, joined, first);
        let some = run.count.min(left);
        next = put_bits(octets, next, source, run.at, some);
        first += some as u128;
        left -= some;
    }
    next
}

/// Returns how many bits fragments of units of `unit` bits have. A unit must have one to eight bits.
pub fn size_of_fragments(source: &[u8], unit: usize, fragments: Fragments) -> u128
    requires source { 8 * length source.now < 2 ^ 64 }
    requires some { 0 < unit }
    requires few { unit ≤ 8 }
    ensures { result ≡ length (joined_in unit (bits source.now) fragments) }
{
    let joined = joined_of(source, unit, fragments);
    size_of(source, &joined)
}

/// Writes the `count` bits of octets in fragments. Returns the index after them. `count` must be the
/// number of all their bits.
pub fn put_fragments(
    octets: &mut [u8],
    at: usize,
    source: &[u8],
    fragments: Fragments,
    count: usize,
) -> usize
    requires size { 8 * length octets.old < 2 ^ 64 }
    requires source { 8 * length source.now < 2 ^ 64 }
    requires all { count ≡ length (joined_in 8 (bits source.now) fragments) }
    ensures { IsGrown octets.old at octets.new result (joined_in 8 (bits source.now) fragments) }
{
    let joined = joined_of(source, 8, fragments);
    put_joined(octets, at, source, &joined, 0, count)
}

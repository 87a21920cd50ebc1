//! Bits in fragments (X.691 11.9.3.8), as one string of bits.

ghost use Rattle.std.specs.Prelude.{◌≡◌, ◌+◌, ◌-◌, ◌*◌, ◌^◌, ◌<◌, ◌≤◌, [], length, take, drop};
ghost use Rattle.asn1_bits.specs.Bits.{bits};
ghost use Rattle.asn1_schema.specs.PiecesOfParts.{joined};
ghost use Rattle.asn1_x690_writers.specs.Fragments.{bits_left};
ghost use Rattle.asn1_x691_writers.specs.Written.{IsGrown};

use crate::octets::put_span;
use asn1_schema::{Fragments, Span};
use asn1_x691_writers::clip;

/// The bits in fragments that are not written yet.
#[derive(Clone, Copy, Debug)]
pub(crate) struct Rest {
    /// The first ones, which follow one another in the source.
    pub(crate) head: Span,
    /// The fragments after them.
    pub(crate) others: Fragments,
}

/// Returns all bits in fragments of units of `unit` bits, of which there must be one to eight. The
/// head has some, if there are any.
pub(crate) fn all_of(source: &[u8], unit: usize, fragments: Fragments) -> Rest
    requires source { 8 * length source.now < 2 ^ 64 }
    requires some { 0 < unit }
    requires few { unit ≤ 8 }
    ensures inside { result.head.at + result.head.count ≤ 8 * length source.now }
    ensures same { bits_left unit (bits source.now) result ≡ joined unit (bits source.now) fragments }
    ensures none { result.head.count ≡ 0 → joined unit (bits source.now) fragments ≡ [] }
{
    let size = 8 * source.len();
    if fragments.whole > 0 && fragments.at < size {
        let count = unit * 65_536;
        let head = clip(
            source,
            Span {
                at: fragments.at,
                count,
            },
        );
        let next = fragments.at + (count + 8).min(size - fragments.at);
        return Rest {
            head,
            others: Fragments {
                at: next,
                whole: fragments.whole - 1,
                middle: fragments.middle,
                last: fragments.last,
            },
        };
    }
    let middle = clip(source, fragments.middle);
    let last = clip(source, fragments.last);
    if middle.count > 0 {
        return two_of(middle, last);
    }
    two_of(last, Span { at: 0, count: 0 })
}

/// Returns the bits of two spans.
fn two_of(head: Span, last: Span) -> Rest
    ensures { result ≡ record { head = head; others = record { at = 0; whole = 0; middle = record { at = 0; count = 0 }; last = last } } }
{
    let middle = Span { at: 0, count: 0 };
    Rest {
        head,
        others: Fragments {
            at: 0,
            whole: 0,
            middle,
            last,
        },
    }
}

/// Returns the same bits, of which the head has some, if there are any.
pub(crate) fn with_head(source: &[u8], unit: usize, rest: Rest) -> Rest
    requires source { 8 * length source.now < 2 ^ 64 }
    requires some { 0 < unit }
    requires few { unit ≤ 8 }
    requires inside { rest.head.at + rest.head.count ≤ 8 * length source.now }
    ensures inside { result.head.at + result.head.count ≤ 8 * length source.now }
    ensures same { bits_left unit (bits source.now) result ≡ bits_left unit (bits source.now) rest }
    ensures none { result.head.count ≡ 0 → bits_left unit (bits source.now) rest ≡ [] }
{
    if rest.head.count > 0 {
        return rest;
    }
    all_of(source, unit, rest.others)
}

/// Returns the bits after the first `count`, which must be of the head.
fn after_head(rest: Rest, count: usize) -> Rest
    requires count { count ≤ rest.head.count }
    requires fits { rest.head.at + rest.head.count < 2 ^ 64 }
    ensures at { result.head.at ≡ rest.head.at + count }
    ensures count { result.head.count ≡ rest.head.count - count }
    ensures others { result.others ≡ rest.others }
{
    Rest {
        head: Span {
            at: rest.head.at + count,
            count: rest.head.count - count,
        },
        others: rest.others,
    }
}

/// Returns the bits after the first `count`.
pub(crate) fn skip(source: &[u8], unit: usize, all: Rest, count: usize) -> Rest
    requires source { 8 * length source.now < 2 ^ 64 }
    requires some { 0 < unit }
    requires few { unit ≤ 8 }
    requires inside { all.head.at + all.head.count ≤ 8 * length source.now }
    requires within { count ≤ length (bits_left unit (bits source.now) all) }
    ensures inside { result.head.at + result.head.count ≤ 8 * length source.now }
    ensures same { bits_left unit (bits source.now) result ≡ drop count (bits_left unit (bits source.now) all) }
{
    let mut rest = all;
    let mut left = count;
    while left > 0 {
        let next = with_head(source, unit, rest);
        let some = next.head.count.min(left);
        rest = after_head(next, some);
        left -= some;
    }
    rest
}

/// Writes the first `count` bits. Returns the index after them.
pub(crate) fn put_first(
    octets: &mut [u8],
    at: usize,
    source: &[u8],
    unit: usize,
    all: Rest,
    count: usize,
) -> usize
    requires size { 8 * length octets.old < 2 ^ 64 }
    requires source { 8 * length source.now < 2 ^ 64 }
    requires some { 0 < unit }
    requires few { unit ≤ 8 }
    requires inside { all.head.at + all.head.count ≤ 8 * length source.now }
    requires within { count ≤ length (bits_left unit (bits source.now) all) }
    ensures { IsGrown octets.old at octets.new result (take count (bits_left unit (bits source.now) all)) }
{
    let mut end = at;
    let mut rest = all;
    let mut left = count;
    while left > 0 {
        let next = with_head(source, unit, rest);
        let some = next.head.count.min(left);
        end = put_span(octets, end, source, next.head.at, some);
        rest = after_head(next, some);
        left -= some;
    }
    end
}

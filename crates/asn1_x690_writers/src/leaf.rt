//! The contents octets of a value of one part.

ghost use Rattle.std.specs.Prelude.{◌≡◌, ◌*◌, ◌^◌, ◌<◌, false, length};
ghost use Rattle.asn1_x690_writers.specs.Leaf.{is_frequent, leaf_in, IsLeftOut};
ghost use Rattle.asn1_x690_writers.specs.Put.{IsPut, LeftAt};
ghost use Rattle.asn1_x691_writers.specs.Put.{piece_in};

use crate::bit_strings::put_bit_string;
use crate::enumerations::put_enumerated;
use crate::integers::{put_integer, put_integer_at_least, put_integer_between};
use crate::octet_strings::{put_kept, put_octet_string};
use crate::simple::{put_boolean, put_null};
use crate::texts::put_text;
use crate::times::put_time;
use crate::utf8_strings::put_utf8_string;
use asn1_schema::{MisfitKind, Node, Part, Range};
use asn1_x690::TypeTags;
use asn1_x691_writers::{ContentsKind, Writer, reject};

/// Writes the contents octets of a part, as a value of a type of one part. Returns whether it did.
/// If it returns `false`, the state has the reason.
#[inline(always)]
pub fn put_leaf(
    octets: &mut [u8],
    ranges: &[Range],
    numbers: &[i128],
    tags: &TypeTags,
    kind: &Node,
    source: &[u8],
    part: &Part,
    node: usize,
    state: &mut Writer,
) -> bool
    requires size { 8 * length octets.old < 2 ^ 64 }
    requires source { 8 * length source.now < 2 ^ 64 }
    ensures { IsPut (LeftAt (IsLeftOut source.now kind.now part.now (piece_in ranges.now source.now part.now)) node state.new) (leaf_in ranges.now numbers.now node tags.now kind.now)
        (piece_in ranges.now source.now part.now) octets.old state.old octets.new state.new result }
{
    match *kind {
        Node::OctetString {
            length,
            is_extensible,
        } => put_octet_string(octets, length, is_extensible, source, *part, node, state),
        Node::ObjectIdentifier => {
            put_kept(
                octets,
                ContentsKind::ObjectIdentifier,
                source,
                *part,
                node,
                state,
            )
        }
        _ => put_rare_leaf(
            octets, ranges, numbers, tags, kind, source, part, node, state,
        ),
    }
}

/// Writes the contents octets of a part, as a value of one of the rarer types of one part.
// A hint to inline a function that would grow very large is dropped. The callers of `put_leaf` have that hint, and
// keep it where this is a call.
#[inline(never)]
fn put_rare_leaf(
    octets: &mut [u8],
    ranges: &[Range],
    numbers: &[i128],
    tags: &TypeTags,
    kind: &Node,
    source: &[u8],
    part: &Part,
    node: usize,
    state: &mut Writer,
) -> bool
    requires size { 8 * length octets.old < 2 ^ 64 }
    requires source { 8 * length source.now < 2 ^ 64 }
    requires rare { is_frequent kind.now ≡ false }
    ensures { IsPut (LeftAt (IsLeftOut source.now kind.now part.now (piece_in ranges.now source.now part.now)) node state.new) (leaf_in ranges.now numbers.now node tags.now kind.now)
        (piece_in ranges.now source.now part.now) octets.old state.old octets.new state.new result }
{
    match *kind {
        Node::Null => put_null(octets, *part, node, state),
        Node::Boolean => put_boolean(octets, *part, node, state),
        Node::RelativeIdentifier => {
            put_kept(
                octets,
                ContentsKind::RelativeIdentifier,
                source,
                *part,
                node,
                state,
            )
        }
        Node::Utf8String => put_utf8_string(octets, source, *part, node, state),
        Node::Real => put_kept(octets, ContentsKind::Real, source, *part, node, state),
        Node::Time { kind } => put_time(octets, ranges, kind, source, *part, node, state),
        Node::IntegerBetween {
            bounds,
            is_extensible,
        } => put_integer_between(octets, bounds, is_extensible, source, *part, node, state),
        Node::IntegerAtLeast {
            bound,
            is_extensible,
        } => put_integer_at_least(octets, bound, is_extensible, source, *part, node, state),
        Node::Integer => put_integer(octets, source, *part, node, state),
        Node::Enumerated {
            last,
            is_extensible,
            additions,
        } => {
            put_enumerated(
                octets,
                numbers,
                *tags,
                last,
                is_extensible,
                additions,
                source,
                *part,
                node,
                state,
            )
        }
        Node::BitString {
            length,
            is_extensible,
            has_names,
        } => {
            put_bit_string(
                octets,
                length,
                is_extensible,
                has_names,
                source,
                *part,
                node,
                state,
            )
        }
        Node::Text {
            length,
            is_extensible,
            alphabet,
            whole,
        } => {
            put_text(
                octets,
                ranges,
                tags.characters,
                length,
                is_extensible,
                alphabet,
                whole,
                source,
                *part,
                node,
                state,
            )
        }
        _ => reject(state, node, MisfitKind::NoNode),
    }
}

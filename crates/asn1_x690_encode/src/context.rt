//! What an encoder works on.

ghost use Rattle.std.specs.Prelude.{◌≡◌, ◌+◌, ◌^◌, ◌<◌, ◌∷◌, [], false, true, Some, None, slice_get, length, MatchOption};
ghost use Rattle.asn1_x690.specs.Der.{rows_of};

use asn1_schema::{Member, Node, Part, Rows, Tables};
use asn1_x690::{FirstTags, Tag, TagTables, TypeTags};
use asn1_x691_fields::Defaults;
use asn1_x691_writers::Writer;
use std::cell::Cell;

/// A schema, and the parts of the value to encode.
#[derive(Clone, Copy, Debug)]
pub struct Context<'s> {
    /// The types.
    pub tables: Tables<'s>,
    /// Their tags.
    pub tags: TagTables<'s>,
    /// The elements that encode default values.
    pub defaults: Defaults<'s>,
    /// The parts.
    pub parts: &'s [Part],
    /// The octets in which the parts have their bits.
    pub source: &'s [u8],
    /// Whether an item of a SET OF must not be before the one that it follows (X.690 11.6), as in DER.
    pub is_ordered: bool,
    /// How many octets the length of each element takes, at the part with which it begins. They change
    /// nothing of what is encoded: with them, as [`measure`](crate::measure) sets them, it takes time linear in the
    /// message. Empty, or one for each part.
    pub lengths: &'s [Cell<u8>],
}

/// Returns the part at an index.
#[inline(always)]
pub(crate) fn part_at(parts: &[Part], index: usize) -> Option<&Part>
    ensures { MatchOption result (None ≡ slice_get parts.now index) (λ part. Some part.now ≡ slice_get parts.now index) }
{
    if index < parts.len() {
        Some(&parts[index])
    } else {
        None
    }
}

/// Returns the type at a node.
#[inline(always)]
pub(crate) fn node_at(nodes: &[Node], node: usize) -> Option<&Node>
    ensures { MatchOption result (None ≡ slice_get nodes.now node) (λ kind. Some kind.now ≡ slice_get nodes.now node) }
{
    if node < nodes.len() {
        Some(&nodes[node])
    } else {
        None
    }
}

/// Returns the tags of the type at a node.
#[inline(always)]
pub(crate) fn type_tags_at(types: &[TypeTags], node: usize) -> Option<&TypeTags>
    ensures { MatchOption result (None ≡ slice_get types.now node) (λ tags. Some tags.now ≡ slice_get types.now node) }
{
    if node < types.len() {
        Some(&types[node])
    } else {
        None
    }
}

/// Returns the member at an index.
#[inline(always)]
pub(crate) fn member_at(members: &[Member], index: usize) -> Option<Member>
    ensures { result ≡ slice_get members.now index }
{
    if index < members.len() {
        Some(members[index])
    } else {
        None
    }
}

/// Returns the first tags of the member at an index.
#[inline(always)]
pub(crate) fn first_tags_at(members: &[FirstTags], index: usize) -> Option<FirstTags>
    ensures { result ≡ slice_get members.now index }
{
    if index < members.len() {
        Some(members[index])
    } else {
        None
    }
}

/// Returns the tags of rows.
#[inline(always)]
pub(crate) fn tags_in(table: &[Tag], rows: Rows) -> &[Tag]
    ensures value { result.now ≡ rows_of table.now rows }
    ensures few { length result.now < 2 ^ 32 }
{
    let (_, rest) = table.split_at(rows.from.min(table.len()));
    let (tags, _) = rest.split_at((rows.count as usize).min(rest.len()));
    tags
}

/// Returns the first tag, and the others.
#[inline(always)]
pub(crate) fn first_tag(tags: &[Tag]) -> Option<(Tag, &[Tag])>
    ensures { MatchOption result (tags.now ≡ []) (λ v. tags.now ≡ v.0 ∷ v.1.now) }
{
    match tags.split_first() {
        None => None,
        Some((tag, rest)) => Some((*tag, rest)),
    }
}

/// Moves on to the part after the next one, where that was written. Returns whether it was.
#[inline(always)]
pub(crate) fn pass(is_written: bool, state: &mut Writer) -> bool
    requires { is_written ≡ true → state.old.next + 1 < 2 ^ 64 }
    ensures result { result ≡ is_written }
    ensures at { state.new.at ≡ state.old.at }
    ensures node { state.new.node ≡ state.old.node }
    ensures reason { state.new.reason ≡ state.old.reason }
    ensures passed { is_written ≡ true → state.new.next ≡ state.old.next + 1 }
    ensures kept { is_written ≡ false → state.new.next ≡ state.old.next }
{
    if is_written {
        state.next += 1;
    }
    is_written
}

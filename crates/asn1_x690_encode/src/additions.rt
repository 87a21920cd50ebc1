//! The additions of a SEQUENCE or a SET (X.690 8.9, 8.11).

ghost use Rattle.std.specs.Prelude.{◌≡◌, ℕ, List, true, ◌+◌, ◌-◌, ◌*◌, ◌%◌, ◌^◌, ◌<◌, length, MatchOption};
ghost use Rattle.asn1_schema.specs.declared.part.Part.TheVariants.{Additions as AdditionsPart};
ghost use Rattle.asn1_schema.specs.declared.tables.Range.{Range};
ghost use Rattle.asn1_schema.specs.Pieces.{Additions};
ghost use Rattle.asn1_x691_writers.specs.Put.{piece_in};
ghost use Rattle.asn1_x690_encode.specs.Encoding.{ToldOutcome, added_in, extension_in, unknown_in};

use crate::any::{AnyPart, encode_any};
use crate::context::{Context, first_tags_at, member_at, part_at};
use crate::group::encode_group;
use crate::sequence::{LeftAdditions, Tail, encode_optional};
use asn1_schema::{MisfitKind, Part, Rows};
use asn1_x690_fields::FoundIdentifier;
use asn1_x691_writers::{Writer, reject};

/// Returns how many additions follow a part.
fn additions_of(part: Part) -> Option<usize>
    ensures { MatchOption result ((ranges : List Range) (source : List ℕ) (n : ℕ) → piece_in ranges source part ≡ Additions n → ⊥) (λ n. part ≡ AdditionsPart n) }
{
    match part {
        Part::Additions(count) => Some(count),
        _ => None,
    }
}

/// Encodes additions, of which the schema knows the first. There must be one that is present. Returns
/// the first identifier.
#[cycle(encoding)]
pub(crate) fn encode_additions(
    context: &Context<'_>,
    depth: usize,
    node: usize,
    known: Rows,
    octets: &mut [u8],
    state: &mut Writer,
) -> Option<Option<FoundIdentifier>>
    requires size { 8 * length octets.old < 2 ^ 64 }
    requires source { 8 * length context.now.source.now < 2 ^ 64 }
    requires parts { length context.now.parts.now < 2 ^ 64 - 1 }
    requires whole { state.old.at % 8 ≡ 0 }
    ensures { ToldOutcome context.now (extension_in context.now depth node known) true octets.old state.old octets.new state.new result }
{
    let first = state.next;
    match part_at(context.parts, first) {
        None => {
            reject(state, node, MisfitKind::NoPart);
            None
        }
        Some(part) => match additions_of(*part) {
            None => {
                reject(state, node, MisfitKind::OtherPart);
                None
            }
            Some(count) => {
                state.next += 1;
                let left = LeftAdditions {
                    rows: known,
                    known: known.count,
                    count,
                };
                let begins = encode_known(context, depth, node, left, octets, state)?;
                if begins.is_none() {
                    state.next = first;
                    reject(state, node, MisfitKind::NoAddition);
                    return None;
                }
                Some(begins)
            }
        },
    }
}

/// Encodes the additions that are left. Returns the first identifier, if there is one.
#[inline(always)]
#[cycle(encoding)]
pub(crate) fn encode_known(
    context: &Context<'_>,
    depth: usize,
    node: usize,
    left: LeftAdditions,
    octets: &mut [u8],
    state: &mut Writer,
) -> Option<Option<FoundIdentifier>>
    requires size { 8 * length octets.old < 2 ^ 64 }
    requires source { 8 * length context.now.source.now < 2 ^ 64 }
    requires parts { length context.now.parts.now < 2 ^ 64 - 1 }
    requires whole { state.old.at % 8 ≡ 0 }
    ensures { ToldOutcome context.now (added_in context.now depth node left) left.count octets.old state.old octets.new state.new result }
{
    if left.rows.count == 0 {
        return encode_unknown(
            context,
            node,
            left.known as usize,
            left.count,
            octets,
            state,
        );
    }
    encode_addition(context, depth, node, left, octets, state)
}

/// Encodes the first addition that is left and those after it, as components are encoded that may be absent.
/// There is one at least that the schema knows.
#[inline(never)]
#[cycle(encoding)]
fn encode_addition(
    context: &Context<'_>,
    depth: usize,
    node: usize,
    left: LeftAdditions,
    octets: &mut [u8],
    state: &mut Writer,
) -> Option<Option<FoundIdentifier>>
    requires size { 8 * length octets.old < 2 ^ 64 }
    requires source { 8 * length context.now.source.now < 2 ^ 64 }
    requires parts { length context.now.parts.now < 2 ^ 64 - 1 }
    requires whole { state.old.at % 8 ≡ 0 }
    requires some { 0 < left.rows.count }
    ensures { ToldOutcome context.now (added_in context.now depth node left) left.count octets.old state.old octets.new state.new result }
{
    let from = left.rows.from;
    let Some(member) = member_at(context.tables.members, from) else {
        reject(state, node, MisfitKind::NoNode);
        return None;
    };
    let Some(first) = first_tags_at(context.tags.members, from) else {
        reject(state, node, MisfitKind::NoNode);
        return None;
    };
    let rows = Rows {
        from: from + 1,
        count: left.rows.count - 1,
    };
    let others = LeftAdditions { rows, ..left };
    match first.group {
        None => encode_optional(
            context,
            depth,
            node,
            member.presence,
            first,
            member.node,
            0,
            0,
            &Tail::Additions(others),
            octets,
            state,
        ),
        Some(group) => encode_group(context, depth, node, first, group, others, octets, state),
    }
}

/// Encodes the last of `count` additions, of which the schema knows the first. Returns the first
/// identifier, if there is one.
pub(crate) fn encode_unknown(
    context: &Context<'_>,
    node: usize,
    known: usize,
    count: usize,
    octets: &mut [u8],
    state: &mut Writer,
) -> Option<Option<FoundIdentifier>>
    requires size { 8 * length octets.old < 2 ^ 64 }
    requires source { 8 * length context.now.source.now < 2 ^ 64 }
    requires parts { length context.now.parts.now < 2 ^ 64 - 1 }
    ensures { ToldOutcome context.now (unknown_in node known) count octets.old state.old octets.new state.new result }
{
    if count < known {
        reject(state, node, MisfitKind::NoEncoding);
        return None;
    }
    let mut left = count - known;
    let mut begins = None;
    while left > 0 {
        left -= 1;
        let found = encode_any(context, node, AnyPart::Unknown, octets, state)?;
        begins = Some(earlier(begins, found));
    }
    Some(begins)
}

/// Returns the first of the identifiers, after which this one was found.
fn earlier(begins: Option<FoundIdentifier>, found: FoundIdentifier) -> FoundIdentifier
    ensures { MatchOption begins (result ≡ found) (λ first. result ≡ first) }
{
    match begins {
        Some(first) => first,
        None => found,
    }
}

//! Decodes SEQUENCE (X.690 8.9) and SET (8.11, 10.3).

ghost use Rattle.std.specs.Prelude.{◌≡◌, ◌≤◌, ◌<◌, ◌^◌, ◌*◌, ◌+◌, true, false, length};
ghost use Rattle.asn1_bits.specs.Bits.{bits};
ghost use Rattle.asn1_schema.specs.declared.tables.Member.{Member};
ghost use Rattle.asn1_x690.specs.Der.{sequence_by};
ghost use Rattle.asn1_x690.specs.Der.{BeginsWith};
ghost use Rattle.asn1_x690_fields.specs.Outcomes.{IsWithin, rest};
ghost use Rattle.asn1_x690_decode.specs.Tables.{tables_of, types};
ghost use Rattle.asn1_x690_decode.specs.Members.{AreSteps, StepsFault, IsComponent, ComponentFault, IsMember, MemberFault, value_of};
ghost use Rattle.asn1_x690_decode.specs.Decoding.{IsMoved, Outcome, ContentsOutcome, ElementOutcome};

use crate::additions::{decode_addition, decode_additions};
use crate::context::Context;
use crate::element::decode_element;
use crate::members::{first_at, is_required, member_at};
use asn1_schema::{Member, Part, Presence, Rows, push_part, replace_part};
use asn1_x690::{FaultKind, FirstTags};
use asn1_x690_fields::{State, fail, has_tag, next_identifier, short_identifier_at};
use asn1_x691_fields::is_default;

/// Decodes contents octets as a SEQUENCE.
#[inline(never)]
#[cycle(decoding)]
pub(crate) fn decode_sequence(
    context: &Context<'_>,
    depth: usize,
    node: usize,
    root: Rows,
    is_extensible: bool,
    known: Rows,
    state: &mut State,
    parts: &mut [Part],
) -> bool
    requires size { 8 * length context.now.octets.now < 2 ^ 64 }
    requires within { IsWithin (bits context.now.octets.now) state.old }
    ensures moved { IsMoved (bits context.now.octets.now) state.old state.new }
    ensures all { result ≡ true → state.new.at ≡ state.old.end }
    ensures did { ContentsOutcome context.now
        (sequence_by (types context.now depth) (tables_of context.now) node is_extensible root known).contents
        state.old state.new parts.old parts.new result }
{
    let first = state.count;
    let sequence = Part::Sequence {
        count: root.count as usize,
        is_extended: false,
    };
    state.count = push_part(parts, first, sequence);
    if !decode_members(context, depth, node, false, root, state, parts) {
        return false;
    }
    if state.at == state.end {
        return true;
    }
    if !is_extensible {
        fail(state, node, FaultKind::Extra);
        return false;
    }
    let extended = Part::Sequence {
        count: root.count as usize,
        is_extended: true,
    };
    replace_part(parts, first, extended);
    decode_additions(context, depth, node, known, state, parts)
}

/// Decodes components, or additions that the schema knows, one after another.
#[inline(always)]
#[cycle(decoding)]
pub(crate) fn decode_members(
    context: &Context<'_>,
    depth: usize,
    node: usize,
    are_additions: bool,
    rows: Rows,
    state: &mut State,
    parts: &mut [Part],
) -> bool
    requires size { 8 * length context.now.octets.now < 2 ^ 64 }
    requires within { IsWithin (bits context.now.octets.now) state.old }
    ensures moved { IsMoved (bits context.now.octets.now) state.old state.new }
    ensures did { Outcome context.now
        (AreSteps (IsMember context.now depth node are_additions) rows.count rows.from)
        (StepsFault (IsMember context.now depth node are_additions)
        (MemberFault context.now depth node are_additions) rows.count rows.from)
        state.old state.new parts.old parts.new result }
{
    for index in 0..rows.count as usize {
        if !decode_member(
            context,
            depth,
            node,
            are_additions,
            rows.from,
            index,
            state,
            parts,
        ) {
            return false;
        }
    }
    true
}

/// Decodes the component or the addition at `from + index` of the table of members.
#[inline(always)]
#[cycle(decoding)]
fn decode_member(
    context: &Context<'_>,
    depth: usize,
    node: usize,
    are_additions: bool,
    from: usize,
    index: usize,
    state: &mut State,
    parts: &mut [Part],
) -> bool
    requires size { 8 * length context.now.octets.now < 2 ^ 64 }
    requires within { IsWithin (bits context.now.octets.now) state.old }
    ensures moved { IsMoved (bits context.now.octets.now) state.old state.new }
    ensures did { Outcome context.now
        (IsMember context.now depth node are_additions (from + index))
        (MemberFault context.now depth node are_additions (from + index))
        state.old state.new parts.old parts.new result }
{
    if are_additions {
        decode_addition(context, depth, node, from, index, state, parts)
    } else {
        decode_component(context, depth, node, from, index, state, parts)
    }
}

/// Decodes the component at `from + index` of the table of members.
#[inline(always)]
#[cycle(decoding)]
fn decode_component(
    context: &Context<'_>,
    depth: usize,
    node: usize,
    from: usize,
    index: usize,
    state: &mut State,
    parts: &mut [Part],
) -> bool
    requires size { 8 * length context.now.octets.now < 2 ^ 64 }
    requires within { IsWithin (bits context.now.octets.now) state.old }
    ensures moved { IsMoved (bits context.now.octets.now) state.old state.new }
    ensures did { Outcome context.now
        (IsComponent context.now depth node (from + index))
        (ComponentFault context.now depth node (from + index))
        state.old state.new parts.old parts.new result }
{
    match member_at(context.tables.members, from, index) {
        None => {
            fail(state, node, FaultKind::NoNode);
            false
        }
        Some(member) => {
            if is_required(member.presence) {
                if state.at == state.end {
                    fail(state, member.node, FaultKind::Missing);
                    return false;
                }
                return decode_element(context, depth, member.node, state, parts);
            }
            match first_at(context.tags.members, from, index) {
                None => {
                    fail(state, node, FaultKind::NoNode);
                    false
                }
                Some(first) => {
                    if begins_with(context, first, state) {
                        return decode_value(context, depth, node, member, state, parts);
                    }
                    state.count = push_part(parts, state.count, Part::Absent);
                    true
                }
            }
        }
    }
}

/// Returns whether the next bits are identifier octets of one of the tags.
#[inline(always)]
pub(crate) fn begins_with(context: &Context<'_>, first: &FirstTags, state: &State) -> bool
    requires size { 8 * length context.now.octets.now < 2 ^ 64 }
    requires within { IsWithin (bits context.now.octets.now) state.now }
    ensures yes { result ≡ true → BeginsWith context.now.tags.tags.now first.now (rest (bits context.now.octets.now) state.now) }
    ensures no { result ≡ false → BeginsWith context.now.tags.tags.now first.now (rest (bits context.now.octets.now) state.now) → ⊥ }
{
    match short_identifier_at(context.octets, state) {
        None => begins_with_octets(context, first, state),
        Some(short) => has_tag(context.tags.tags, *first, &short),
    }
}

/// Returns what [`begins_with`] does, for identifiers of any number of octets.
#[inline(never)]
fn begins_with_octets(context: &Context<'_>, first: &FirstTags, state: &State) -> bool
    requires size { 8 * length context.now.octets.now < 2 ^ 64 }
    requires within { IsWithin (bits context.now.octets.now) state.now }
    ensures yes { result ≡ true → BeginsWith context.now.tags.tags.now first.now (rest (bits context.now.octets.now) state.now) }
    ensures no { result ≡ false → BeginsWith context.now.tags.tags.now first.now (rest (bits context.now.octets.now) state.now) → ⊥ }
{
    let mut ahead = *state;
    match next_identifier(context.octets, 0, &mut ahead) {
        None => false,
        Some(found) => has_tag(context.tags.tags, *first, &found),
    }
}

/// Decodes the value of a component, which must not be its default value.
#[inline(never)]
#[cycle(decoding)]
pub(crate) fn decode_value(
    context: &Context<'_>,
    depth: usize,
    node: usize,
    member: &Member,
    state: &mut State,
    parts: &mut [Part],
) -> bool
    requires size { 8 * length context.now.octets.now < 2 ^ 64 }
    requires within { IsWithin (bits context.now.octets.now) state.old }
    ensures moved { IsMoved (bits context.now.octets.now) state.old state.new }
    ensures did { ElementOutcome context.now (value_of context.now depth node member.now).encoding state.old state.new
        parts.old parts.new result }
{
    let (start, first) = (state.at, state.count);
    if !decode_element(context, depth, member.node, state, parts) {
        return false;
    }
    match member.presence {
        Presence::Mandatory => true,
        Presence::Optional => true,
        Presence::Default { value } => {
            if is_default(
                context.defaults,
                false,
                value,
                0,
                context.octets,
                start,
                state.at,
            ) {
                state.at = start;
                state.count = first;
                fail(state, node, FaultKind::DefaultValue);
                return false;
            }
            true
        }
    }
}

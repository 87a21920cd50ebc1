//! Decodes the additions of a SEQUENCE (X.680 25.5), known and unknown.

ghost use Rattle.std.specs.Prelude.{◌≡◌, ◌≤◌, ◌<◌, ◌^◌, ◌*◌, ◌+◌, true, length, IfSome};
ghost use Rattle.asn1_bits.specs.Bits.{bits};
ghost use Rattle.asn1_schema.specs.Pieces.{Additions, Unknown};
ghost use Rattle.asn1_x690.specs.declared.fault.FaultKind.TheVariants.{Extra, NotPermitted};
ghost use Rattle.asn1_x690.specs.TypeContents.{to_end, told};
ghost use Rattle.asn1_x690.specs.Der.{additions, unknown_additions, always, any_value, element};
ghost use Rattle.asn1_x690_fields.specs.Outcomes.{IsWithin};
ghost use Rattle.asn1_x690_decode.specs.Tables.{tables_of, types};
ghost use Rattle.asn1_x690_decode.specs.Members.{IsAddition, AdditionFault, AreGrouped, GroupedFault};
ghost use Rattle.asn1_x690_decode.specs.Decoding.{IsMoved, Outcome, ContentsOutcome, ToldOutcome};

use crate::context::Context;
use crate::members::{first_at, member_at};
use crate::sequence::{begins_with, decode_members, decode_value};
use asn1_schema::{Part, Rows, Span, push_part, replace_part};
use asn1_x690::FaultKind;
use asn1_x690_fields::{State, fail, next_header};

/// Decodes the additions to the end, after their number.
#[cycle(decoding)]
pub(crate) fn decode_additions(
    context: &Context<'_>,
    depth: usize,
    node: usize,
    known: Rows,
    state: &mut State,
    parts: &mut [Part],
) -> bool
    requires size { 8 * length context.now.octets.now < 2 ^ 64 }
    requires within { IsWithin (bits context.now.octets.now) state.old }
    ensures moved { IsMoved (bits context.now.octets.now) state.old state.new }
    ensures all { result ≡ true → state.new.at ≡ state.old.end }
    ensures did { ContentsOutcome context.now
        (told Additions always NotPermitted node
        (additions (types context.now depth) (tables_of context.now) node known.count known.from
        (unknown_additions (types context.now depth) (tables_of context.now) node known.count))).contents
        state.old state.new parts.old parts.new result }
{
    let first = state.count;
    state.count = push_part(parts, first, Part::Additions(usize::MAX));
    if !decode_members(context, depth, node, true, known, state, parts) {
        return false;
    }
    match keep_elements(context, node, state, parts) {
        None => false,
        Some(count) => {
            replace_part(parts, first, Part::Additions(known.count as usize + count));
            true
        }
    }
}

/// Decodes the addition at `from + index` of the table of members. It may be absent.
#[inline(always)]
#[cycle(decoding)]
pub(crate) fn decode_addition(
    context: &Context<'_>,
    depth: usize,
    node: usize,
    from: usize,
    index: usize,
    state: &mut State,
    parts: &mut [Part],
) -> bool
    requires size { 8 * length context.now.octets.now < 2 ^ 64 }
    requires within { IsWithin (bits context.now.octets.now) state.old }
    ensures moved { IsMoved (bits context.now.octets.now) state.old state.new }
    ensures did { Outcome context.now
        (IsAddition context.now depth node (from + index))
        (AdditionFault context.now depth node (from + index))
        state.old state.new parts.old parts.new result }
{
    let Some(member) = member_at(context.tables.members, from, index) else {
        fail(state, node, FaultKind::NoNode);
        return false;
    };
    let Some(first) = first_at(context.tags.members, from, index) else {
        fail(state, node, FaultKind::NoNode);
        return false;
    };
    if !begins_with(context, first, state) {
        state.count = push_part(parts, state.count, Part::Absent);
        return true;
    }
    match first.group {
        None => decode_value(context, depth, node, member, state, parts),
        Some(rows) => decode_group(context, depth, node, rows, state, parts),
    }
}

/// Decodes the components of an addition group, which no element is around, after the part with
/// their number.
#[inline(never)]
#[cycle(decoding)]
fn decode_group(
    context: &Context<'_>,
    depth: usize,
    node: usize,
    rows: Rows,
    state: &mut State,
    parts: &mut [Part],
) -> bool
    requires size { 8 * length context.now.octets.now < 2 ^ 64 }
    requires within { IsWithin (bits context.now.octets.now) state.old }
    ensures moved { IsMoved (bits context.now.octets.now) state.old state.new }
    ensures did { Outcome context.now (AreGrouped context.now depth node rows) (GroupedFault context.now depth node rows)
        state.old state.new parts.old parts.new result }
{
    let sequence = Part::Sequence {
        count: rows.count as usize,
        is_extended: false,
    };
    state.count = push_part(parts, state.count, sequence);
    decode_members(context, depth, node, false, rows, state, parts)
}

/// Keeps elements that the schema does not know, to the end, and returns how many there are.
fn keep_elements(
    context: &Context<'_>,
    node: usize,
    state: &mut State,
    parts: &mut [Part],
) -> Option<usize>
    requires size { 8 * length context.now.octets.now < 2 ^ 64 }
    requires within { IsWithin (bits context.now.octets.now) state.old }
    ensures moved { IsMoved (bits context.now.octets.now) state.old state.new }
    ensures all { IfSome result (λ n. state.new.at ≡ state.old.end) }
    ensures few { IfSome result (λ n. 8 * n ≤ state.old.end) }
    ensures did { ToldOutcome context.now (to_end Extra node (λ before. element node (any_value Unknown node))).contents
        state.old state.new parts.old parts.new result }
{
    let mut count = 0;
    while state.at < state.end {
        let from = state.at;
        match next_header(context.octets, node, state) {
            None => return None,
            Some(_) => {
                let whole = Span {
                    at: from,
                    count: state.at - from,
                };
                state.count = push_part(parts, state.count, Part::Unknown(whole));
                count += 1;
            }
        }
    }
    Some(count)
}

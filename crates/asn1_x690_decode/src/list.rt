//! Decodes SEQUENCE OF (X.690 8.10) and SET OF (8.12).

ghost use Rattle.std.specs.Prelude.{◌≡◌, ◌≤◌, ◌<◌, ◌^◌, ◌*◌, true, length, IfSome};
ghost use Rattle.asn1_bits.specs.Bits.{bits};
ghost use Rattle.asn1_x690.specs.declared.fault.FaultKind.TheVariants.{Extra};
ghost use Rattle.asn1_x690.specs.TypeContents.{to_end};
ghost use Rattle.asn1_x690.specs.Der.{in_order, sequence_of};
ghost use Rattle.asn1_x690_fields.specs.Outcomes.{IsWithin};
ghost use Rattle.asn1_x690_decode.specs.Tables.{tables_of, types, elements};
ghost use Rattle.asn1_x690_decode.specs.Decoding.{IsMoved, ContentsOutcome, ToldOutcome};

use crate::context::Context;
use crate::element::decode_element;
use asn1_schema::{Length, Part, push_part, replace_part};
use asn1_x690::FaultKind;
use asn1_x690_fields::{State, fail};
use asn1_x690_leaves::has_size;
use asn1_x691_fields::is_before;

/// Decodes contents octets as a list of items.
#[cycle(decoding)]
pub(crate) fn decode_list(
    context: &Context<'_>,
    depth: usize,
    node: usize,
    is_set: bool,
    is_extensible: bool,
    size: Length,
    item: usize,
    state: &mut State,
    parts: &mut [Part],
) -> bool
    requires size { 8 * length context.now.octets.now < 2 ^ 64 }
    requires within { IsWithin (bits context.now.octets.now) state.old }
    ensures moved { IsMoved (bits context.now.octets.now) state.old state.new }
    ensures all { result ≡ true → state.new.at ≡ state.old.end }
    ensures did { ContentsOutcome context.now
        (sequence_of (types context.now depth) (tables_of context.now) node is_set is_extensible size item).contents
        state.old state.new parts.old parts.new result }
{
    let start = state.at;
    let first = state.count;
    state.count = push_part(parts, first, Part::Count(usize::MAX));
    match decode_items(context, depth, node, is_set, item, state, parts) {
        None => false,
        Some(count) => {
            if !has_size(is_extensible, size, count) {
                state.at = start;
                state.count = first;
                fail(state, node, FaultKind::NotPermitted);
                return false;
            }
            replace_part(parts, first, Part::Count(count));
            true
        }
    }
}

/// Decodes items to the end, and returns how many there are. An item of a SET OF must not be before
/// the one that it follows.
#[cycle(decoding)]
fn decode_items(
    context: &Context<'_>,
    depth: usize,
    node: usize,
    is_set: bool,
    item: usize,
    state: &mut State,
    parts: &mut [Part],
) -> Option<usize>
    requires size { 8 * length context.now.octets.now < 2 ^ 64 }
    requires within { IsWithin (bits context.now.octets.now) state.old }
    ensures moved { IsMoved (bits context.now.octets.now) state.old state.new }
    ensures all { IfSome result (λ n. state.new.at ≡ state.old.end) }
    ensures did { ToldOutcome context.now
        (to_end Extra node (in_order (types context.now depth) (tables_of context.now) node is_set
        (elements context.now depth item))).contents
        state.old state.new parts.old parts.new result }
{
    let mut before = state.at;
    let mut count = 0;
    while state.at < state.end {
        let (from, first) = (state.at, state.count);
        if !decode_element(context, depth, item, state, parts) {
            return None;
        }
        if is_set && before < from && is_before(context.octets, before, from, state.at) {
            state.at = from;
            state.count = first;
            fail(state, node, FaultKind::NotAscending);
            return None;
        }
        before = from;
        count += 1;
    }
    Some(count)
}

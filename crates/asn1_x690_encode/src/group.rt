//! Addition groups of a SEQUENCE or a SET, whose components are those of the type itself (X.690 8.9, 8.11).

ghost use Rattle.std.specs.Prelude.{◌≡◌, ◌-◌, ◌*◌, ◌%◌, ◌^◌, ◌<◌, length};
ghost use Rattle.asn1_x690_encode.specs.Encoding.{ToldOutcome, group_in, grouped_in};

use crate::additions::encode_known;
use crate::context::{Context, part_at};
use crate::first_tags::begins_with;
use crate::sequence::{LeftAdditions, Tail, encode_components, is_absent, is_sequence};
use asn1_schema::{MisfitKind, Rows};
use asn1_x690::FirstTags;
use asn1_x690_fields::FoundIdentifier;
use asn1_x691_writers::{Writer, reject};

/// Encodes an addition group, and the additions after it. The group is present exactly where the next
/// element has the tag of one of its components.
#[inline(never)]
#[cycle(encoding)]
pub(crate) fn encode_group(
    context: &Context<'_>,
    depth: usize,
    node: usize,
    first: FirstTags,
    group: Rows,
    others: LeftAdditions,
    octets: &mut [u8],
    state: &mut Writer,
) -> Option<Option<FoundIdentifier>>
    requires size { 8 * length octets.old < 2 ^ 64 }
    requires source { 8 * length context.now.source.now < 2 ^ 64 }
    requires parts { length context.now.parts.now < 2 ^ 64 - 1 }
    requires whole { state.old.at % 8 ≡ 0 }
    ensures { ToldOutcome context.now (group_in context.now depth node first group others) others.count octets.old state.old octets.new state.new result }
{
    let next = state.next;
    if is_absent(context, next) {
        state.next += 1;
        let begins = encode_known(context, depth, node, others, octets, state)?;
        if begins_with(context.tags.tags, first, begins) {
            state.next = next;
            reject(state, node, MisfitKind::NoEncoding);
            return None;
        }
        return Some(begins);
    }
    let begins = encode_grouped(context, depth, node, group, others, octets, state)?;
    if !begins_with(context.tags.tags, first, begins) {
        state.next = next;
        reject(state, node, MisfitKind::NoEncoding);
        return None;
    }
    Some(begins)
}

/// Encodes the components of an addition group after the part with their number, and the
/// additions after the group.
#[cycle(encoding)]
fn encode_grouped(
    context: &Context<'_>,
    depth: usize,
    node: usize,
    group: Rows,
    others: LeftAdditions,
    octets: &mut [u8],
    state: &mut Writer,
) -> Option<Option<FoundIdentifier>>
    requires size { 8 * length octets.old < 2 ^ 64 }
    requires source { 8 * length context.now.source.now < 2 ^ 64 }
    requires parts { length context.now.parts.now < 2 ^ 64 - 1 }
    requires whole { state.old.at % 8 ≡ 0 }
    ensures { ToldOutcome context.now (grouped_in context.now depth node group others) others.count octets.old state.old octets.new state.new result }
{
    let Some(part) = part_at(context.parts, state.next) else {
        reject(state, node, MisfitKind::NoPart);
        return None;
    };
    if !is_sequence(*part, group.count as usize, false) {
        reject(state, node, MisfitKind::OtherPart);
        return None;
    }
    state.next += 1;
    encode_components(
        context,
        depth,
        node,
        group.count as usize,
        group.from,
        &Tail::Additions(others),
        octets,
        state,
    )
}

//! Encodes open types (X.691 11.2).

ghost use Rattle.std.specs.Prelude.{Option, ◌≡◌, ℕ, Bool, List, ◌-◌, ◌*◌, ◌%◌, ◌^◌, ◌<◌, length};
ghost use Rattle.asn1_schema.specs.declared.tables.Presence.TheVariants as presence;
ghost use Rattle.asn1_x691_writers.specs.Written.{IsAlike, IsGrown, start_of};
ghost use Rattle.asn1_x691_encode.specs.Encoding.{Outcome, open_in};
ghost use Rattle.asn1_x691_encode.specs.Enclosed.{EnclosedOutcome};

use crate::context::Context;
use crate::padding::pad;
use crate::value::encode_value;
use asn1_schema::Presence;
use asn1_x691_writers::{Writer, after, leave, put_length_before, put_start, put_zeros};

/// Writes the zeros before an open type, which begins at an octet in the ALIGNED variant. Returns the
/// index after them.
fn put_beginning(octets: &mut [u8], at: usize, is_aligned: bool) -> usize
    requires { 8 * length octets.old < 2 ^ 64 }
    ensures grown { IsGrown octets.old at octets.new result (start_of is_aligned at) }
    ensures begins { IsAlike is_aligned 0 (result % 8) }
{
    put_start(octets, at, is_aligned)
}

/// Encodes a value of an open type that is no component, so that it has no default value.
#[inline(never)]
#[cycle(encoding)]
pub(crate) fn encode_open(
    context: &Context<'_>,
    depth: usize,
    node: usize,
    inner: usize,
    octets: &mut [u8],
    state: &mut Writer,
) -> bool
    requires size { 8 * length octets.old < 2 ^ 64 }
    requires source { 8 * length context.now.source.now < 2 ^ 64 }
    requires parts { length context.now.parts.now < 2 ^ 64 - 1 }
    ensures { Outcome context.now (open_in context.now depth node presence.Mandatory inner) octets.old state.old
        octets.new state.new result }
{
    encode_open_type(
        context,
        depth,
        node,
        Presence::Mandatory,
        inner,
        octets,
        state,
    )
}

/// Encodes an open type that holds a value of the type at the node `inner`, which must not be the
/// default one (X.691 11.2): octets that are its complete encoding, after their number.
#[inline(never)]
#[cycle(encoding)]
pub(crate) fn encode_open_type(
    context: &Context<'_>,
    depth: usize,
    node: usize,
    presence: Presence,
    inner: usize,
    octets: &mut [u8],
    state: &mut Writer,
) -> bool
    requires size { 8 * length octets.old < 2 ^ 64 }
    requires source { 8 * length context.now.source.now < 2 ^ 64 }
    requires parts { length context.now.parts.now < 2 ^ 64 - 1 }
    ensures { Outcome context.now (open_in context.now depth node presence inner) octets.old state.old
        octets.new state.new result }
{
    let start = put_beginning(octets, state.at, context.is_aligned);
    let before = (start / 8).min(octets.len());
    let (_, tail) = octets.split_at_mut(before);
    state.at = start % 8;
    if !encode_octets(context, depth, node, presence, inner, tail, state) {
        return false;
    }
    state.at = after(start, state.at.saturating_sub(start % 8));
    true
}

/// Encodes the octets of an open type, after their number, from a bit of the first octet on.
#[cycle(encoding)]
fn encode_octets(
    context: &Context<'_>,
    depth: usize,
    node: usize,
    presence: Presence,
    inner: usize,
    octets: &mut [u8],
    state: &mut Writer,
) -> bool
    requires size { 8 * length octets.old < 2 ^ 64 }
    requires source { 8 * length context.now.source.now < 2 ^ 64 }
    requires parts { length context.now.parts.now < 2 ^ 64 - 1 }
    requires start { state.old.at < 8 }
    requires begins { IsAlike context.now.is_aligned 0 state.old.at }
    ensures { EnclosedOutcome context.now depth node presence inner octets.old state.old
        octets.new state.new result }
{
    let (start, first) = (state.at, state.next);
    state.at = put_zeros(octets, start, 8);
    if !encode_value(context, depth, node, presence, inner, octets, state) {
        return false;
    }
    match pad(octets, start + 8, state.at) {
        None => {
            state.next = first;
            leave(state, node)
        }
        Some(count) => {
            state.at = put_length_before(octets, start, count);
            true
        }
    }
}

//! A value that must not be the default (X.691 19.5).

ghost use Rattle.std.specs.Prelude.{◌≡◌, ℕ, Bool, List, ◌-◌, ◌*◌, ◌^◌, ◌<◌, ◌++◌, true, length};
ghost use Rattle.asn1_schema.specs.Pieces.{Parts};
ghost use Rattle.asn1_schema.specs.declared.tables.Presence.TheVariants.{Default};
ghost use Rattle.asn1_x691_writers.specs.Written.{IsAlike};
ghost use Rattle.asn1_x691_encode.specs.Encoding.{Outcome, tape, types, value_in};
ghost use Rattle.asn1_x691_encode.specs.Compared.{IsCompared};

use crate::context::Context;
use crate::encoder::encode_node;
use crate::within::{WINDOW, is_in, leave_unread, stop};
use asn1_schema::{MisfitKind, Presence};
use asn1_x691_fields::is_default;
use asn1_x691_writers::{Rejection, Writer, reject};

/// Encodes the value of a component, which must not be its default value.
#[cycle(encoding)]
pub(crate) fn encode_value(
    context: &Context<'_>,
    depth: usize,
    node: usize,
    presence: Presence,
    inner: usize,
    octets: &mut [u8],
    state: &mut Writer,
) -> bool
    requires size { 8 * length octets.old < 2 ^ 64 }
    requires source { 8 * length context.now.source.now < 2 ^ 64 }
    requires parts { length context.now.parts.now < 2 ^ 64 - 1 }
    ensures { Outcome context.now (value_in context.now depth node presence inner) octets.old state.old octets.new state.new result }
{
    match presence {
        Presence::Mandatory => encode_node(context, depth, inner, octets, state),
        Presence::Optional => encode_node(context, depth, inner, octets, state),
        Presence::Default { value } => encode_other_than(
            context, depth, node, value, inner, octets, state,
        ),
    }
}

/// Encodes a value that is not the default one. Where the octets are too few for its bits, they are
/// compared in octets of their own.
#[cycle(encoding)]
fn encode_other_than(
    context: &Context<'_>,
    depth: usize,
    node: usize,
    value: usize,
    inner: usize,
    octets: &mut [u8],
    state: &mut Writer,
) -> bool
    requires size { 8 * length octets.old < 2 ^ 64 }
    requires source { 8 * length context.now.source.now < 2 ^ 64 }
    requires parts { length context.now.parts.now < 2 ^ 64 - 1 }
    ensures { Outcome context.now (value_in context.now depth node (Default value) inner) octets.old state.old octets.new state.new result }
{
    let (from, first) = (state.at, state.next);
    if !encode_node(context, depth, inner, octets, state) {
        return false;
    }
    if !is_in(octets, from, state.at) {
        return is_other(context, depth, node, value, inner, from, first, state);
    }
    if is_default(
        context.defaults,
        context.is_aligned,
        value,
        from,
        octets,
        from,
        state.at,
    ) {
        state.next = first;
        return reject(state, node, MisfitKind::DefaultValue);
    }
    true
}

/// Returns whether a value that was encoded from an index on is not the default one: encodes it once
/// more, in octets of its own. Otherwise the state has the reason.
#[cycle(encoding)]
fn is_other(
    context: &Context<'_>,
    depth: usize,
    node: usize,
    value: usize,
    inner: usize,
    from: usize,
    first: usize,
    state: &mut Writer,
) -> bool
    requires source { 8 * length context.now.source.now < 2 ^ 64 }
    requires parts { length context.now.parts.now < 2 ^ 64 - 1 }
    ensures kept { result ≡ true → state.new ≡ state.old }
    ensures compared { (at : ℕ) (parts rest : Parts) (list : List Bool) → IsAlike context.now.is_aligned at from
        → (types context.now depth inner at).encoding.encodes parts list → tape context.now first ≡ parts ++ rest
        → IsCompared context.now node value first at list state.new result }
{
    let mut window = [0; WINDOW];
    let start = from % 8;
    let mut copy = Writer {
        at: start,
        next: first,
        node,
        reason: Rejection::NoRoom,
    };
    if !encode_node(context, depth, inner, &mut window, &mut copy) {
        return stop(state, copy);
    }
    if !is_in(&window, start, copy.at) {
        return leave_unread(state, first);
    }
    if is_default(
        context.defaults,
        context.is_aligned,
        value,
        from,
        &window,
        start,
        copy.at,
    ) {
        state.next = first;
        return reject(state, node, MisfitKind::DefaultValue);
    }
    true
}

//! A value that must not be the default (X.690 11.5).

ghost use Rattle.std.specs.Prelude.{Option, ◌≡◌, ℕ, Bool, List, ◌++◌, ◌-◌, ◌*◌, ◌%◌, ◌^◌, ◌<◌, true, length};
ghost use Rattle.asn1_schema.specs.Pieces.{Parts};
ghost use Rattle.asn1_schema.specs.declared.tables.Presence.TheVariants.{Default};
ghost use Rattle.asn1_x690_encode.specs.Compared.{IsCompared};
ghost use Rattle.asn1_x690_encode.specs.Encoding.{ValueOutcome, element_in, tape, types, value_in};

use crate::context::Context;
use crate::node::encode_node;
use crate::within::{WINDOW, is_in, leave_unread, may_be_default, stop};
use asn1_schema::{MisfitKind, Presence};
use asn1_x690_fields::FoundIdentifier;
use asn1_x691_fields::is_default;
use asn1_x691_writers::{Rejection, Writer, reject};

/// Encodes the value of a component, which must not be its default value.
#[cycle(encoding)]
pub(crate) fn encode_value(
    context: &Context<'_>,
    depth: usize,
    node: usize,
    presence: Presence,
    inner: usize,
    octets: &mut [u8],
    state: &mut Writer,
) -> Option<FoundIdentifier>
    requires size { 8 * length octets.old < 2 ^ 64 }
    requires source { 8 * length context.now.source.now < 2 ^ 64 }
    requires parts { length context.now.parts.now < 2 ^ 64 - 1 }
    requires whole { state.old.at % 8 ≡ 0 }
    ensures { ValueOutcome context.now (value_in context.now depth node presence inner) octets.old state.old octets.new state.new result }
{
    match presence {
        Presence::Mandatory => encode_node(context, depth, inner, octets, state),
        Presence::Optional => encode_node(context, depth, inner, octets, state),
        Presence::Default { value } => {
            encode_other_than(context, depth, node, value, inner, octets, state)
        }
    }
}

/// Encodes a value that is not the default one. Where the octets are too few for it, it is compared in
/// octets of its own, if it has as many bits.
#[cycle(encoding)]
fn encode_other_than(
    context: &Context<'_>,
    depth: usize,
    node: usize,
    value: usize,
    inner: usize,
    octets: &mut [u8],
    state: &mut Writer,
) -> Option<FoundIdentifier>
    requires size { 8 * length octets.old < 2 ^ 64 }
    requires source { 8 * length context.now.source.now < 2 ^ 64 }
    requires parts { length context.now.parts.now < 2 ^ 64 - 1 }
    requires whole { state.old.at % 8 ≡ 0 }
    ensures { ValueOutcome context.now (value_in context.now depth node (Default value) inner) octets.old state.old octets.new state.new result }
{
    let (from, first) = (state.at, state.next);
    let found = encode_node(context, depth, inner, octets, state)?;
    if !is_in(octets, from, state.at) {
        if !may_be_default(context.defaults, value, from, state.at) {
            return Some(found);
        }
        if !is_other(context, depth, node, value, inner, first, state) {
            return None;
        }
        return Some(found);
    }
    if is_default(context.defaults, false, value, 0, octets, from, state.at) {
        state.next = first;
        reject(state, node, MisfitKind::DefaultValue);
        return None;
    }
    Some(found)
}

/// Returns whether a value that was encoded is not the default one: encodes it once more, in octets of
/// its own. Otherwise the state has the reason.
#[cycle(encoding)]
fn is_other(
    context: &Context<'_>,
    depth: usize,
    node: usize,
    value: usize,
    inner: usize,
    first: usize,
    state: &mut Writer,
) -> bool
    requires source { 8 * length context.now.source.now < 2 ^ 64 }
    requires parts { length context.now.parts.now < 2 ^ 64 - 1 }
    ensures kept { result ≡ true → state.new ≡ state.old }
    ensures compared { (parts rest : Parts) (list : List Bool) → (element_in context.now depth inner).encoding.encodes parts list
        → tape context.now first ≡ parts ++ rest → IsCompared context.now node value first list state.new result }
{
    let mut window = [0; WINDOW];
    let mut copy = Writer {
        at: 0,
        next: first,
        node,
        reason: Rejection::NoRoom,
    };
    match encode_node(context, depth, inner, &mut window, &mut copy) {
        None => stop(state, copy),
        Some(_) => {
            if !is_in(&window, 0, copy.at) {
                return leave_unread(state, inner, first);
            }
            if is_default(context.defaults, false, value, 0, &window, 0, copy.at) {
                state.next = first;
                return reject(state, node, MisfitKind::DefaultValue);
            }
            true
        }
    }
}

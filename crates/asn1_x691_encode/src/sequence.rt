//! SEQUENCE (X.691 19).

ghost use Rattle.std.specs.Prelude.{Option, ◌≡◌, ℕ, Bool, List, ◌∷◌, ◌+◌, ◌-◌, ◌*◌, ◌^◌, ◌<◌, true, false, length, slice_get, Some};
ghost use Rattle.asn1_schema.specs.declared.tables.Range.{Range};
ghost use Rattle.asn1_schema.specs.Pieces.{Absent, Sequence};
ghost use Rattle.asn1_schema.specs.TypeEncodings.{IsAbsent};
ghost use Rattle.asn1_schema.specs.declared.part.Part.TheVariants.{Sequence as SequencePart};
ghost use Rattle.asn1_x691_writers.specs.Put.{piece_in};
ghost use Rattle.asn1_x691_encode.specs.Encoding.{Outcome, tape, value_in, sequence_in, extensible_sequence_in, extended_in, root_in};
ghost use Rattle.asn1_x691_encode.specs.Components.{OptionalOutcome, ComponentOutcome};

use crate::additions::encode_extension;
use crate::context::{Context, member_from, part_at};
use crate::encoder::encode_node;
use crate::presence::{count_optional, presence_bits, put_presence};
use crate::value::encode_value;
use asn1_schema::{Member, MisfitKind, Part, Presence, Rows};
use asn1_x691_writers::{Writer, after, put_bit, reject, set_bit};

/// Encodes a SEQUENCE without an extension marker (X.691 19.2 to 19.4).
#[inline(always)]
#[cycle(encoding)]
pub(crate) fn encode_sequence(
    context: &Context<'_>,
    depth: usize,
    node: usize,
    root: Rows,
    octets: &mut [u8],
    state: &mut Writer,
) -> bool
    requires size { 8 * length octets.old < 2 ^ 64 }
    requires source { 8 * length context.now.source.now < 2 ^ 64 }
    requires parts { length context.now.parts.now < 2 ^ 64 - 1 }
    ensures { Outcome context.now (sequence_in context.now depth node root) octets.old state.old
        octets.new state.new result }
{
    match part_at(context.parts, state.next) {
        None => reject(state, node, MisfitKind::NoPart),
        Some(part) => {
            if !is_sequence(part, root.count as usize, false) {
                return reject(state, node, MisfitKind::OtherPart);
            }
            state.next += 1;
            encode_root(context, depth, node, root, octets, state)
        }
    }
}

/// Encodes a SEQUENCE that has an extension marker (X.691 19.1).
#[inline(always)]
#[cycle(encoding)]
pub(crate) fn encode_extensible_sequence(
    context: &Context<'_>,
    depth: usize,
    node: usize,
    root: Rows,
    known: Rows,
    octets: &mut [u8],
    state: &mut Writer,
) -> bool
    requires size { 8 * length octets.old < 2 ^ 64 }
    requires source { 8 * length context.now.source.now < 2 ^ 64 }
    requires parts { length context.now.parts.now < 2 ^ 64 - 1 }
    ensures { Outcome context.now (extensible_sequence_in context.now depth node root known)
        octets.old state.old octets.new state.new result }
{
    match part_at(context.parts, state.next) {
        None => reject(state, node, MisfitKind::NoPart),
        Some(part) => {
            if is_sequence(part, root.count as usize, true) {
                state.at = put_bit(octets, state.at, true);
                state.next += 1;
                return encode_extended(context, depth, node, root, known, octets, state);
            }
            state.at = put_bit(octets, state.at, false);
            encode_sequence(context, depth, node, root, octets, state)
        }
    }
}

/// Encodes the components of a root, and additions (X.691 19.7).
#[cycle(encoding)]
fn encode_extended(
    context: &Context<'_>,
    depth: usize,
    node: usize,
    root: Rows,
    known: Rows,
    octets: &mut [u8],
    state: &mut Writer,
) -> bool
    requires size { 8 * length octets.old < 2 ^ 64 }
    requires source { 8 * length context.now.source.now < 2 ^ 64 }
    requires parts { length context.now.parts.now < 2 ^ 64 - 1 }
    ensures { Outcome context.now (extended_in context.now depth node root known)
        octets.old state.old octets.new state.new result }
{
    if !encode_root(context, depth, node, root, octets, state) {
        return false;
    }
    encode_extension(context, depth, node, known, octets, state)
}

/// Returns whether `count` components of a root follow a part, and additions as `is_extended`
/// says.
fn is_sequence(part: Part, count: usize, is_extended: bool) -> bool
    ensures is { result ≡ true → part ≡ SequencePart count is_extended }
    ensures other { (ranges : List Range) (source : List ℕ) → result ≡ false → piece_in ranges source part ≡ Sequence count is_extended → ⊥ }
{
    match part {
        Part::Sequence {
            count: many,
            is_extended: has_additions,
        } => { many == count && has_additions == is_extended }
        _ => false,
    }
}

/// Encodes the components of a root after their presence bits. A bit is written as 0, and set where
/// its component is present.
#[inline(always)]
#[cycle(encoding)]
fn encode_root(
    context: &Context<'_>,
    depth: usize,
    node: usize,
    root: Rows,
    octets: &mut [u8],
    state: &mut Writer,
) -> bool
    requires size { 8 * length octets.old < 2 ^ 64 }
    requires source { 8 * length context.now.source.now < 2 ^ 64 }
    requires parts { length context.now.parts.now < 2 ^ 64 - 1 }
    ensures { Outcome context.now (root_in context.now depth node root) octets.old state.old
        octets.new state.new result }
{
    let members = context.tables.members;
    let mut head = state.at;
    state.at = put_presence(octets, head, count_optional(members, root));
    let mut index = 0;
    while index < root.count as usize {
        let Some(member) = member_from(members, root.from, index) else {
            return reject(state, node, MisfitKind::NoNode);
        };
        if !encode_component(context, depth, node, member, head, octets, state) {
            return false;
        }
        head = after(head, presence_bits(member.presence));
        index += 1;
    }
    true
}

/// Encodes a component, whose presence bit is at `head` where it has one.
#[inline(always)]
#[cycle(encoding)]
fn encode_component(
    context: &Context<'_>,
    depth: usize,
    node: usize,
    member: Member,
    head: usize,
    octets: &mut [u8],
    state: &mut Writer,
) -> bool
    requires size { 8 * length octets.old < 2 ^ 64 }
    requires source { 8 * length context.now.source.now < 2 ^ 64 }
    requires parts { length context.now.parts.now < 2 ^ 64 - 1 }
    ensures { ComponentOutcome context.now (value_in context.now depth node member.presence member.node) member.presence head
        octets.old state.old octets.new state.new result }
{
    match member.presence {
        Presence::Mandatory => encode_node(context, depth, member.node, octets, state),
        presence => {
            encode_optional(
                context,
                depth,
                node,
                presence,
                member.node,
                head,
                octets,
                state,
            )
        }
    }
}

/// Encodes a component that may be absent, whose presence bit is at `head`.
#[cycle(encoding)]
fn encode_optional(
    context: &Context<'_>,
    depth: usize,
    node: usize,
    presence: Presence,
    inner: usize,
    head: usize,
    octets: &mut [u8],
    state: &mut Writer,
) -> bool
    requires size { 8 * length octets.old < 2 ^ 64 }
    requires source { 8 * length context.now.source.now < 2 ^ 64 }
    requires parts { length context.now.parts.now < 2 ^ 64 - 1 }
    ensures { OptionalOutcome context.now (value_in context.now depth node presence inner) head octets.old state.old
        octets.new state.new result }
{
    if is_absent(context, state.next) {
        state.next += 1;
        return true;
    }
    set_bit(octets, head);
    encode_value(context, depth, node, presence, inner, octets, state)
}

/// Returns whether a part says that a component is absent.
pub(crate) fn is_absent(context: &Context<'_>, next: usize) -> bool
    ensures within { result ≡ true → next < length context.now.parts.now }
    ensures absent { result ≡ true → tape context.now next ≡ Absent ∷ tape context.now (next + 1) }
    ensures present { result ≡ false → IsAbsent (tape context.now next) → ⊥ }
{
    match part_at(context.parts, next) {
        Some(part) => is_absent_part(part),
        None => false,
    }
}

/// Returns whether a part is that of an absent component.
fn is_absent_part(part: Part) -> bool
    ensures absent { (ranges : List Range) (source : List ℕ) → result ≡ true → piece_in ranges source part ≡ Absent }
    ensures present { (ranges : List Range) (source : List ℕ) → result ≡ false → piece_in ranges source part ≡ Absent → ⊥ }
{
    match part {
        Part::Absent => true,
        _ => false,
    }
}

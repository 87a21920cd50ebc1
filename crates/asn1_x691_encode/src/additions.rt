//! The additions of a SEQUENCE (X.691 19.7 to 19.9).

ghost use Rattle.std.specs.Prelude.{Option, ◌≡◌, ℕ, Bool, List, ◌+◌, ◌-◌, ◌*◌, ◌^◌, ◌<◌, ◌||◌, true, length, slice_get, Some, MatchOption};
ghost use Rattle.asn1_schema.specs.declared.tables.Range.{Range};
ghost use Rattle.asn1_schema.specs.Pieces.{Additions};
ghost use Rattle.asn1_schema.specs.declared.part.Part.TheVariants.{Additions as AdditionsPart};
ghost use Rattle.asn1_x691_writers.specs.Put.{piece_in};
ghost use Rattle.asn1_x691_encode.specs.Encoding.{Outcome, extension_in, present_additions_in, addition_in, known_in};
ghost use Rattle.asn1_x691_encode.specs.Additions.{IsPresence, AdditionStep};

use crate::context::{Context, member_from, part_at};
use crate::leaves::encode_unknown;
use crate::open_type::encode_open_type;
use crate::sequence::is_absent;
use asn1_schema::{MisfitKind, Part, Rows};
use asn1_x691_writers::{Writer, after, put_small_length, put_zeros, reject, set_bit};

/// Encodes the additions of a SEQUENCE: their number, their presence bits,
/// and these (X.691 19.7 to 19.9).
#[cycle(encoding)]
pub(crate) fn encode_extension(
    context: &Context<'_>,
    depth: usize,
    node: usize,
    known: Rows,
    octets: &mut [u8],
    state: &mut Writer,
) -> bool
    requires size { 8 * length octets.old < 2 ^ 64 }
    requires source { 8 * length context.now.source.now < 2 ^ 64 }
    requires parts { length context.now.parts.now < 2 ^ 64 - 1 }
    ensures { Outcome context.now (extension_in context.now depth node known)
        octets.old state.old octets.new state.new result }
{
    match part_at(context.parts, state.next) {
        None => reject(state, node, MisfitKind::NoPart),
        Some(part) => match additions_of(part) {
            None => reject(state, node, MisfitKind::OtherPart),
            Some(count) => { encode_counted(context, depth, node, known, count, octets, state) }
        },
    }
}

/// Returns how many additions follow a part.
fn additions_of(part: Part) -> Option<usize>
    ensures { MatchOption result ((ranges : List Range) (source : List ℕ) (n : ℕ) → piece_in ranges source part ≡ Additions n → ⊥)
        (λ n. part ≡ AdditionsPart n) }
{
    match part {
        Part::Additions(count) => Some(count),
        _ => None,
    }
}

/// Encodes the number of the additions (X.691 19.8), and the additions.
#[cycle(encoding)]
fn encode_counted(
    context: &Context<'_>,
    depth: usize,
    node: usize,
    known: Rows,
    count: usize,
    octets: &mut [u8],
    state: &mut Writer,
) -> bool
    requires size { 8 * length octets.old < 2 ^ 64 }
    requires source { 8 * length context.now.source.now < 2 ^ 64 }
    requires parts { length context.now.parts.now < 2 ^ 64 - 1 }
    requires next { slice_get context.now.parts.now state.old.next ≡ Some (AdditionsPart count) }
    ensures { Outcome context.now (extension_in context.now depth node known)
        octets.old state.old octets.new state.new result }
{
    if count == 0 || count >= 16384 {
        return reject(state, node, MisfitKind::NoEncoding);
    }
    state.at = put_small_length(octets, state.at, context.is_aligned, count);
    state.next += 1;
    encode_present(context, depth, node, known, count, octets, state)
}

/// Encodes `count` additions after the bits that tell which of them are present, of which there is
/// one at least.
#[cycle(encoding)]
fn encode_present(
    context: &Context<'_>,
    depth: usize,
    node: usize,
    known: Rows,
    count: usize,
    octets: &mut [u8],
    state: &mut Writer,
) -> bool
    requires size { 8 * length octets.old < 2 ^ 64 }
    requires source { 8 * length context.now.source.now < 2 ^ 64 }
    requires parts { length context.now.parts.now < 2 ^ 64 - 1 }
    ensures { Outcome context.now (present_additions_in context.now depth node known count)
        octets.old state.old octets.new state.new result }
{
    let first = state.next;
    let mut head = state.at;
    state.at = put_zeros(octets, head, count);
    let mut has_one = false;
    let mut index = 0;
    while index < count {
        let here = is_present(context, state.next);
        if !encode_optional_addition(
            context, depth, node, known, index, here, head, octets, state,
        ) {
            return false;
        }
        has_one = either(has_one, here);
        head = after(head, 1);
        index += 1;
    }
    if !has_one {
        state.next = first;
        return reject(state, node, MisfitKind::NoAddition);
    }
    true
}

/// Returns whether a part does not say that a component is absent.
fn is_present(context: &Context<'_>, next: usize) -> bool
    ensures { IsPresence context.now next result }
{
    !is_absent(context, next)
}

/// Returns whether one of two is true.
#[inline(always)]
fn either(first: bool, second: bool) -> bool
    ensures { result ≡ (first || second) }
{
    first || second
}

/// Encodes an addition where it is present. Its presence bit is at `head`.
#[cycle(encoding)]
fn encode_optional_addition(
    context: &Context<'_>,
    depth: usize,
    node: usize,
    known: Rows,
    index: usize,
    is_present: bool,
    head: usize,
    octets: &mut [u8],
    state: &mut Writer,
) -> bool
    requires size { 8 * length octets.old < 2 ^ 64 }
    requires source { 8 * length context.now.source.now < 2 ^ 64 }
    requires parts { length context.now.parts.now < 2 ^ 64 - 1 }
    requires present { IsPresence context.now state.old.next is_present }
    ensures { AdditionStep context.now
        (addition_in context.now depth node (known.count - index) (known.from + index)) head is_present octets.old state.old octets.new state.new result }
{
    if !is_present {
        state.next += 1;
        return true;
    }
    set_bit(octets, head);
    encode_addition(context, depth, node, known, index, octets, state)
}

/// Encodes an addition: an open type, or its octets where it is not known (X.691 19.9).
#[cycle(encoding)]
fn encode_addition(
    context: &Context<'_>,
    depth: usize,
    node: usize,
    known: Rows,
    index: usize,
    octets: &mut [u8],
    state: &mut Writer,
) -> bool
    requires size { 8 * length octets.old < 2 ^ 64 }
    requires source { 8 * length context.now.source.now < 2 ^ 64 }
    requires parts { length context.now.parts.now < 2 ^ 64 - 1 }
    ensures { Outcome context.now (addition_in context.now depth node (known.count - index) (known.from + index))
        octets.old state.old octets.new state.new result }
{
    if index >= known.count as usize {
        return encode_unknown(context, node, octets, state);
    }
    encode_known(context, depth, node, known.from, index, octets, state)
}

/// Encodes a known addition, which is an open type. It is the member of an index among those from
/// another index on.
#[cycle(encoding)]
pub(crate) fn encode_known(
    context: &Context<'_>,
    depth: usize,
    node: usize,
    from: usize,
    index: usize,
    octets: &mut [u8],
    state: &mut Writer,
) -> bool
    requires size { 8 * length octets.old < 2 ^ 64 }
    requires source { 8 * length context.now.source.now < 2 ^ 64 }
    requires parts { length context.now.parts.now < 2 ^ 64 - 1 }
    ensures { Outcome context.now (known_in context.now depth node
        (slice_get context.now.tables.members.now (from + index))) octets.old state.old octets.new state.new result }
{
    match member_from(context.tables.members, from, index) {
        None => reject(state, node, MisfitKind::NoNode),
        Some(member) => {
            encode_open_type(
                context,
                depth,
                node,
                member.presence,
                member.node,
                octets,
                state,
            )
        }
    }
}

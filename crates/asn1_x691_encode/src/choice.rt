//! CHOICE (X.691 23).

ghost use Rattle.std.specs.Prelude.{Option, ◌≡◌, ℕ, Bool, List, ◌+◌, ◌-◌, ◌*◌, ◌^◌, ◌<◌, true, false, length, slice_get, Some, MatchOption};
ghost use Rattle.asn1_schema.specs.declared.tables.Range.{Range};
ghost use Rattle.asn1_schema.specs.Pieces.{Chosen};
ghost use Rattle.asn1_schema.specs.declared.part.Part.TheVariants.{Chosen as ChosenPart};
ghost use Rattle.asn1_schema.specs.declared.tables.Node.TheVariants.{Choice};
ghost use Rattle.asn1_x691.specs.Types.{IsAddedAlternative};
ghost use Rattle.asn1_x691_writers.specs.Put.{piece_in};
ghost use Rattle.asn1_x691_encode.specs.Encoding.{Outcome, choice_in, extensible_choice_in, alternative_in};

use crate::added_choice::encode_added;
use crate::context::{Context, member_from, part_at};
use crate::encoder::encode_node;
use asn1_schema::{MisfitKind, Part, Rows};
use asn1_x691_writers::{Writer, put_bit, put_constrained, reject};

/// Encodes a CHOICE without an extension marker (X.691 23.6).
#[inline(never)]
#[cycle(encoding)]
pub(crate) fn encode_choice(
    context: &Context<'_>,
    depth: usize,
    node: usize,
    rows: Rows,
    octets: &mut [u8],
    state: &mut Writer,
) -> bool
    requires size { 8 * length octets.old < 2 ^ 64 }
    requires source { 8 * length context.now.source.now < 2 ^ 64 }
    requires parts { length context.now.parts.now < 2 ^ 64 - 1 }
    ensures { Outcome context.now (choice_in context.now depth node rows) octets.old state.old
        octets.new state.new result }
{
    match part_at(context.parts, state.next) {
        None => reject(state, node, MisfitKind::NoPart),
        Some(part) => encode_choice_of(context, depth, node, rows, part, octets, state),
    }
}

/// Encodes a CHOICE that has an extension marker (X.691 23.5 to 23.8).
#[inline(never)]
#[cycle(encoding)]
pub(crate) fn encode_extensible_choice(
    context: &Context<'_>,
    depth: usize,
    node: usize,
    rows: Rows,
    known: Rows,
    octets: &mut [u8],
    state: &mut Writer,
) -> bool
    requires size { 8 * length octets.old < 2 ^ 64 }
    requires source { 8 * length context.now.source.now < 2 ^ 64 }
    requires parts { length context.now.parts.now < 2 ^ 64 - 1 }
    ensures { Outcome context.now (extensible_choice_in context.now depth node rows known)
        octets.old state.old octets.new state.new result }
{
    match part_at(context.parts, state.next) {
        None => reject(state, node, MisfitKind::NoPart),
        Some(part) => {
            if is_addition(rows, part) {
                state.at = put_bit(octets, state.at, true);
                return encode_added(context, depth, node, rows, known, part, octets, state);
            }
            state.at = put_bit(octets, state.at, false);
            encode_choice_of(context, depth, node, rows, part, octets, state)
        }
    }
}

/// Returns whether an addition follows a part.
fn is_addition(rows: Rows, part: Part) -> bool
    ensures added { (ranges : List Range) (source : List ℕ) → result ≡ true → IsAddedAlternative (rows.count - 1) (piece_in ranges source part) }
    ensures root { (ranges : List Range) (source : List ℕ) → result ≡ false → IsAddedAlternative (rows.count - 1) (piece_in ranges source part) → ⊥ }
{
    match part {
        Part::Chosen(index) => index > (rows.count as usize).saturating_sub(1),
        Part::UnknownChosen(_) => true,
        _ => false,
    }
}

/// Encodes a CHOICE of the root, whose first part this is.
#[cycle(encoding)]
fn encode_choice_of(
    context: &Context<'_>,
    depth: usize,
    node: usize,
    rows: Rows,
    part: Part,
    octets: &mut [u8],
    state: &mut Writer,
) -> bool
    requires size { 8 * length octets.old < 2 ^ 64 }
    requires source { 8 * length context.now.source.now < 2 ^ 64 }
    requires parts { length context.now.parts.now < 2 ^ 64 - 1 }
    requires next { slice_get context.now.parts.now state.old.next ≡ Some part }
    ensures { Outcome context.now (choice_in context.now depth node rows) octets.old state.old
        octets.new state.new result }
{
    match index_of(part) {
        None => reject(state, node, MisfitKind::OtherPart),
        Some(index) => encode_index(context, depth, node, rows, index, octets, state),
    }
}

/// Returns the index of the alternative that follows a part.
fn index_of(part: Part) -> Option<usize>
    ensures { MatchOption result ((ranges : List Range) (source : List ℕ) (n : ℕ) → piece_in ranges source part ≡ Chosen n → ⊥) (λ n. part ≡ ChosenPart n) }
{
    match part {
        Part::Chosen(index) => Some(index),
        _ => None,
    }
}

/// Encodes the index of an alternative, and the alternative.
#[cycle(encoding)]
fn encode_index(
    context: &Context<'_>,
    depth: usize,
    node: usize,
    rows: Rows,
    index: usize,
    octets: &mut [u8],
    state: &mut Writer,
) -> bool
    requires size { 8 * length octets.old < 2 ^ 64 }
    requires source { 8 * length context.now.source.now < 2 ^ 64 }
    requires parts { length context.now.parts.now < 2 ^ 64 - 1 }
    requires next { slice_get context.now.parts.now state.old.next ≡ Some (ChosenPart index) }
    ensures { Outcome context.now (choice_in context.now depth node rows) octets.old state.old
        octets.new state.new result }
{
    let last = (rows.count as usize).saturating_sub(1);
    if index > last {
        return reject(state, node, MisfitKind::NoEncoding);
    }
    state.at = put_constrained(
        octets,
        state.at,
        context.is_aligned,
        last as u128,
        index as u128,
    );
    state.next += 1;
    encode_alternative(context, depth, node, rows, index, octets, state)
}

/// Encodes the alternative of an index.
#[cycle(encoding)]
fn encode_alternative(
    context: &Context<'_>,
    depth: usize,
    node: usize,
    rows: Rows,
    index: usize,
    octets: &mut [u8],
    state: &mut Writer,
) -> bool
    requires size { 8 * length octets.old < 2 ^ 64 }
    requires source { 8 * length context.now.source.now < 2 ^ 64 }
    requires parts { length context.now.parts.now < 2 ^ 64 - 1 }
    ensures { Outcome context.now (alternative_in context.now depth node rows index) octets.old
        state.old octets.new state.new result }
{
    if index >= rows.count as usize {
        return reject(state, node, MisfitKind::NoNode);
    }
    match member_from(context.tables.members, rows.from, index) {
        None => reject(state, node, MisfitKind::NoNode),
        Some(member) => encode_node(context, depth, member.node, octets, state),
    }
}

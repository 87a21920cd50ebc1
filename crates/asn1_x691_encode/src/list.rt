//! SEQUENCE OF (X.691 20) and SET OF (X.691 22).

ghost use Rattle.std.specs.Prelude.{Option, ◌≡◌, ℕ, Bool, true, false, List, ◌+◌, ◌-◌, ◌*◌, ◌^◌, ◌<◌, ◌≤◌, length, slice_get, Some, MatchOption};
ghost use Rattle.asn1_schema.specs.declared.tables.Range.{Range};
ghost use Rattle.asn1_schema.specs.Pieces.{Count};
ghost use Rattle.asn1_x691_writers.specs.Put.{piece_in};
ghost use Rattle.asn1_x691.specs.Strings.{IsAddedSize};
ghost use Rattle.asn1_x691.specs.Types.{IsAddedCount};
ghost use Rattle.asn1_schema.specs.declared.part.Part.TheVariants.{Count as CountPart};
ghost use Rattle.asn1_schema.specs.declared.tables.Length.TheVariants.{AtLeast, Between};
ghost use Rattle.asn1_schema.specs.TypeEncodings.{several};
ghost use Rattle.asn1_x691_encode.specs.Encoding.{Outcome, types, items_in, list_in, added_list_in, extensible_list_in, list_by};

use crate::context::{Context, part_at};
use crate::encoder::encode_node;
use crate::fragments::encode_numbered_items;
use crate::set::encode_set_items;
use asn1_schema::{Length, MisfitKind, Part};
use asn1_x691_writers::{Writer, is_of_root, put_bit, put_constrained, put_length, reject};

/// Encodes a SEQUENCE OF or a SET OF (X.691 20, 22).
#[inline(never)]
#[cycle(encoding)]
pub(crate) fn encode_list_by(
    context: &Context<'_>,
    depth: usize,
    node: usize,
    is_extensible: bool,
    is_set: bool,
    size: &Length,
    item: usize,
    octets: &mut [u8],
    state: &mut Writer,
) -> bool
    requires size { 8 * length octets.old < 2 ^ 64 }
    requires source { 8 * length context.now.source.now < 2 ^ 64 }
    requires parts { length context.now.parts.now < 2 ^ 64 - 1 }
    ensures { Outcome context.now (list_by context.now depth node is_extensible is_set size.now item) octets.old state.old octets.new state.new result }
{
    if is_extensible {
        return encode_extensible_list(context, depth, node, *size, is_set, item, octets, state);
    }
    encode_list(context, depth, node, *size, is_set, item, octets, state)
}

/// Encodes a SEQUENCE OF without an extension marker (X.691 20.5, 20.6).
#[cycle(encoding)]
fn encode_list(
    context: &Context<'_>,
    depth: usize,
    node: usize,
    size: Length,
    is_set: bool,
    item: usize,
    octets: &mut [u8],
    state: &mut Writer,
) -> bool
    requires size { 8 * length octets.old < 2 ^ 64 }
    requires source { 8 * length context.now.source.now < 2 ^ 64 }
    requires parts { length context.now.parts.now < 2 ^ 64 - 1 }
    ensures { Outcome context.now (list_in context.now depth node is_set size item) octets.old state.old
        octets.new state.new result }
{
    match part_at(context.parts, state.next) {
        None => reject(state, node, MisfitKind::NoPart),
        Some(part) => encode_list_of(
            context, depth, node, size, is_set, item, part, octets, state,
        ),
    }
}

/// Encodes a SEQUENCE OF, whose first part this is.
#[cycle(encoding)]
fn encode_list_of(
    context: &Context<'_>,
    depth: usize,
    node: usize,
    size: Length,
    is_set: bool,
    item: usize,
    part: Part,
    octets: &mut [u8],
    state: &mut Writer,
) -> bool
    requires size { 8 * length octets.old < 2 ^ 64 }
    requires source { 8 * length context.now.source.now < 2 ^ 64 }
    requires parts { length context.now.parts.now < 2 ^ 64 - 1 }
    requires next { slice_get context.now.parts.now state.old.next ≡ Some part }
    ensures { Outcome context.now (list_in context.now depth node is_set size item) octets.old state.old
        octets.new state.new result }
{
    match count_of(part) {
        None => reject(state, node, MisfitKind::OtherPart),
        Some(count) => match size {
            Length::AtLeast { least } => {
                if is_set {
                    return encode_set_at_least(
                        context, depth, node, least, item, count, octets, state,
                    );
                }
                encode_at_least(context, depth, node, least, item, count, octets, state)
            }
            Length::Between { least, range } => {
                encode_between(
                    context,
                    depth,
                    node,
                    least as usize,
                    range as usize,
                    is_set,
                    item,
                    count,
                    octets,
                    state,
                )
            }
        },
    }
}

/// Encodes a SEQUENCE OF that has an extension marker (X.691 20.4).
#[cycle(encoding)]
fn encode_extensible_list(
    context: &Context<'_>,
    depth: usize,
    node: usize,
    size: Length,
    is_set: bool,
    item: usize,
    octets: &mut [u8],
    state: &mut Writer,
) -> bool
    requires size { 8 * length octets.old < 2 ^ 64 }
    requires source { 8 * length context.now.source.now < 2 ^ 64 }
    requires parts { length context.now.parts.now < 2 ^ 64 - 1 }
    ensures { Outcome context.now (extensible_list_in context.now depth node is_set size item)
        octets.old state.old octets.new state.new result }
{
    match part_at(context.parts, state.next) {
        None => reject(state, node, MisfitKind::NoPart),
        Some(part) => match added_count(size, part) {
            None => {
                state.at = put_bit(octets, state.at, false);
                encode_list_of(
                    context, depth, node, size, is_set, item, part, octets, state,
                )
            }
            Some(count) => {
                state.at = put_bit(octets, state.at, true);
                encode_added_list(
                    context, depth, node, size, is_set, item, count, octets, state,
                )
            }
        },
    }
}

/// Encodes a list whose number of items is none of the root, after the extension bit.
#[cycle(encoding)]
fn encode_added_list(
    context: &Context<'_>,
    depth: usize,
    node: usize,
    size: Length,
    is_set: bool,
    item: usize,
    count: usize,
    octets: &mut [u8],
    state: &mut Writer,
) -> bool
    requires size { 8 * length octets.old < 2 ^ 64 }
    requires source { 8 * length context.now.source.now < 2 ^ 64 }
    requires parts { length context.now.parts.now < 2 ^ 64 - 1 }
    requires next { slice_get context.now.parts.now state.old.next ≡ Some (CountPart count) }
    requires added { IsAddedSize size count }
    ensures { Outcome context.now (added_list_in context.now depth node is_set size item) octets.old
        state.old octets.new state.new result }
{
    if is_set {
        return encode_added_set(context, depth, node, size, item, count, octets, state);
    }
    state.next += 1;
    encode_numbered_items(context, depth, node, item, count, octets, state)
}

/// Encodes a SET OF whose number of items is none of the root, after the extension bit.
#[cycle(encoding)]
fn encode_added_set(
    context: &Context<'_>,
    depth: usize,
    node: usize,
    size: Length,
    item: usize,
    count: usize,
    octets: &mut [u8],
    state: &mut Writer,
) -> bool
    requires size { 8 * length octets.old < 2 ^ 64 }
    requires source { 8 * length context.now.source.now < 2 ^ 64 }
    requires parts { length context.now.parts.now < 2 ^ 64 - 1 }
    requires next { slice_get context.now.parts.now state.old.next ≡ Some (CountPart count) }
    requires added { IsAddedSize size count }
    ensures { Outcome context.now (added_list_in context.now depth node true size item) octets.old
        state.old octets.new state.new result }
{
    if count >= 16384 {
        return reject(state, node, MisfitKind::NoEncoding);
    }
    state.at = put_length(octets, state.at, context.is_aligned, count);
    state.next += 1;
    encode_items_by(context, depth, node, true, item, count, octets, state)
}

/// Returns how many items follow a part, where the number is none of the root.
fn added_count(size: Length, part: Part) -> Option<usize>
    ensures { MatchOption result ((ranges : List Range) (source : List ℕ) → IsAddedCount size (piece_in ranges source part) → ⊥)
        (λ n. (part ≡ CountPart n) × IsAddedSize size n) }
{
    match part {
        Part::Count(count) => {
            if is_of_root(size, count) {
                return None;
            }
            Some(count)
        }
        _ => None,
    }
}

/// Returns how many items follow a part.
fn count_of(part: Part) -> Option<usize>
    ensures { MatchOption result ((ranges : List Range) (source : List ℕ) (n : ℕ) → piece_in ranges source part ≡ Count n → ⊥) (λ n. part ≡ CountPart n) }
{
    match part {
        Part::Count(count) => Some(count),
        _ => None,
    }
}

/// Encodes a SEQUENCE OF that has no upper bound.
#[cycle(encoding)]
fn encode_at_least(
    context: &Context<'_>,
    depth: usize,
    node: usize,
    least: usize,
    item: usize,
    count: usize,
    octets: &mut [u8],
    state: &mut Writer,
) -> bool
    requires size { 8 * length octets.old < 2 ^ 64 }
    requires source { 8 * length context.now.source.now < 2 ^ 64 }
    requires parts { length context.now.parts.now < 2 ^ 64 - 1 }
    requires next { slice_get context.now.parts.now state.old.next ≡ Some (CountPart count) }
    ensures { Outcome context.now (list_in context.now depth node false (AtLeast least) item) octets.old
        state.old octets.new state.new result }
{
    if count < least {
        return reject(state, node, MisfitKind::NoEncoding);
    }
    state.next += 1;
    encode_numbered_items(context, depth, node, item, count, octets, state)
}

/// Encodes a SET OF that has no upper bound, after its length.
#[cycle(encoding)]
fn encode_set_at_least(
    context: &Context<'_>,
    depth: usize,
    node: usize,
    least: usize,
    item: usize,
    count: usize,
    octets: &mut [u8],
    state: &mut Writer,
) -> bool
    requires size { 8 * length octets.old < 2 ^ 64 }
    requires source { 8 * length context.now.source.now < 2 ^ 64 }
    requires parts { length context.now.parts.now < 2 ^ 64 - 1 }
    requires next { slice_get context.now.parts.now state.old.next ≡ Some (CountPart count) }
    ensures { Outcome context.now (list_in context.now depth node true (AtLeast least) item) octets.old
        state.old octets.new state.new result }
{
    if count < least || count >= 16384 {
        return reject(state, node, MisfitKind::NoEncoding);
    }
    state.at = put_length(octets, state.at, context.is_aligned, count);
    state.next += 1;
    encode_items_by(context, depth, node, true, item, count, octets, state)
}

/// Encodes a list after its number of items, which is bounded.
#[cycle(encoding)]
fn encode_between(
    context: &Context<'_>,
    depth: usize,
    node: usize,
    least: usize,
    range: usize,
    is_set: bool,
    item: usize,
    count: usize,
    octets: &mut [u8],
    state: &mut Writer,
) -> bool
    requires size { 8 * length octets.old < 2 ^ 64 }
    requires source { 8 * length context.now.source.now < 2 ^ 64 }
    requires parts { length context.now.parts.now < 2 ^ 64 - 1 }
    requires next { slice_get context.now.parts.now state.old.next ≡ Some (CountPart count) }
    ensures { Outcome context.now (list_in context.now depth node is_set (Between least range) item)
        octets.old state.old octets.new state.new result }
{
    if count < least {
        return reject(state, node, MisfitKind::OtherPart);
    }
    if count - least > range {
        return reject(state, node, MisfitKind::NoEncoding);
    }
    state.at = put_constrained(
        octets,
        state.at,
        context.is_aligned,
        range as u128,
        (count - least) as u128,
    );
    state.next += 1;
    encode_items_by(context, depth, node, is_set, item, count, octets, state)
}

/// Encodes `count` items, those of a SET OF in ascending order.
#[cycle(encoding)]
fn encode_items_by(
    context: &Context<'_>,
    depth: usize,
    node: usize,
    is_set: bool,
    item: usize,
    count: usize,
    octets: &mut [u8],
    state: &mut Writer,
) -> bool
    requires size { 8 * length octets.old < 2 ^ 64 }
    requires source { 8 * length context.now.source.now < 2 ^ 64 }
    requires parts { length context.now.parts.now < 2 ^ 64 - 1 }
    ensures { Outcome context.now (items_in context.now depth node is_set item count) octets.old state.old octets.new state.new result }
{
    if is_set {
        return encode_set_items(context, depth, node, item, count, octets, state);
    }
    encode_items(context, depth, item, count, octets, state)
}

/// Encodes `count` items.
#[cycle(encoding)]
pub(crate) fn encode_items(
    context: &Context<'_>,
    depth: usize,
    item: usize,
    count: usize,
    octets: &mut [u8],
    state: &mut Writer,
) -> bool
    requires size { 8 * length octets.old < 2 ^ 64 }
    requires source { 8 * length context.now.source.now < 2 ^ 64 }
    requires parts { length context.now.parts.now < 2 ^ 64 - 1 }
    ensures { Outcome context.now (several (types context.now depth item) count) octets.old state.old
        octets.new state.new result }
{
    let mut left = count;
    while left > 0 {
        left -= 1;
        if !encode_node(context, depth, item, octets, state) {
            return false;
        }
    }
    true
}

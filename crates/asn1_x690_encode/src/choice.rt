//! CHOICE (X.690 8.13).

ghost use Rattle.std.specs.Prelude.{Option, ◌≡◌, ℕ, Bool, List, ◌∷◌, ◌+◌, ◌-◌, ◌*◌, ◌%◌, ◌^◌, ◌<◌, true, false, length};
ghost use Rattle.asn1_schema.specs.declared.part.Part.TheVariants.{Chosen as ChosenPart};
ghost use Rattle.asn1_schema.specs.declared.tables.Range.{Range};
ghost use Rattle.asn1_schema.specs.Pieces.{Chosen};
ghost use Rattle.asn1_x690.specs.Der.{choice_by};
ghost use Rattle.asn1_x691_writers.specs.Put.{piece_in};
ghost use Rattle.asn1_x690_encode.specs.Encoding.{ElementOutcome, alternatives_in, others_by, others_in, tables_of, tape, types};

use crate::any::{AnyPart, encode_any};
use crate::context::{Context, first_tags_at, member_at, part_at};
use crate::first_tags::has_tag;
use crate::node::encode_node;
use asn1_schema::{MisfitKind, Part, Rows};
use asn1_x690_fields::FoundIdentifier;
use asn1_x691_writers::{Writer, reject};

/// Returns whether the alternative of an index follows a part.
fn is_chosen(part: Part, index: usize) -> bool
    ensures is { result ≡ true → part ≡ ChosenPart index }
    ensures other { (ranges : List Range) (source : List ℕ) → result ≡ false → piece_in ranges source part ≡ Chosen index → ⊥ }
{
    match part {
        Part::Chosen(chosen) => chosen == index,
        _ => false,
    }
}

/// What follows alternatives.
#[derive(Clone, Copy, Debug)]
pub(crate) enum Others {
    /// Nothing.
    Nothing,
    /// The alternatives of additions, after this many of a root, and any other element.
    Additions(u32, Rows),
    /// Any other element.
    Unknown,
}

/// Returns what follows the alternatives of a root, of which there are `before`.
fn others_by(is_extensible: bool, before: u32, additions: Rows) -> Others
    ensures { result ≡ others_by is_extensible before additions }
{
    if is_extensible {
        Others::Additions(before, additions)
    } else {
        Others::Nothing
    }
}

/// Encodes the value of a CHOICE.
#[cycle(encoding)]
pub(crate) fn encode_choice(
    context: &Context<'_>,
    depth: usize,
    node: usize,
    root: Rows,
    is_extensible: bool,
    additions: Rows,
    octets: &mut [u8],
    state: &mut Writer,
) -> Option<FoundIdentifier>
    requires size { 8 * length octets.old < 2 ^ 64 }
    requires source { 8 * length context.now.source.now < 2 ^ 64 }
    requires parts { length context.now.parts.now < 2 ^ 64 - 1 }
    requires whole { state.old.at % 8 ≡ 0 }
    ensures { ElementOutcome context.now (choice_by (types context.now depth) (tables_of context.now) node is_extensible root additions) octets.old state.old
        octets.new state.new result }
{
    let others = others_by(is_extensible, root.count, additions);
    encode_alternatives(
        context,
        depth,
        node,
        0,
        root.count as usize,
        root.from,
        others,
        octets,
        state,
    )
}

/// Encodes an alternative, one of `count` from an index on. Its tag must be one of its first tags, and
/// none of those of the alternatives before it.
#[cycle(encoding)]
pub(crate) fn encode_alternatives(
    context: &Context<'_>,
    depth: usize,
    node: usize,
    index: usize,
    count: usize,
    from: usize,
    others: Others,
    octets: &mut [u8],
    state: &mut Writer,
) -> Option<FoundIdentifier>
    requires size { 8 * length octets.old < 2 ^ 64 }
    requires source { 8 * length context.now.source.now < 2 ^ 64 }
    requires parts { length context.now.parts.now < 2 ^ 64 - 1 }
    requires whole { state.old.at % 8 ≡ 0 }
    requires few { index + count < 2 ^ 34 }
    ensures { ElementOutcome context.now (alternatives_in context.now depth node index count from others) octets.old state.old octets.new state.new result }
{
    if count == 0 {
        return encode_others(context, depth, node, others, octets, state);
    }
    let Some(member) = member_at(context.tables.members, from) else {
        reject(state, node, MisfitKind::NoNode);
        return None;
    };
    let Some(first) = first_tags_at(context.tags.members, from) else {
        reject(state, node, MisfitKind::NoNode);
        return None;
    };
    let next = state.next;
    match part_at(context.parts, next) {
        None => {
            reject(state, node, MisfitKind::NoPart);
            None
        }
        Some(part) => {
            if is_chosen(*part, index) {
                state.next += 1;
                let found = encode_node(context, depth, member.node, octets, state)?;
                if !has_tag(context.tags.tags, first, found) {
                    state.next = next;
                    reject(state, node, MisfitKind::NoEncoding);
                    return None;
                }
                return Some(found);
            }
            let other = encode_alternatives(
                context,
                depth,
                node,
                index + 1,
                count - 1,
                from + 1,
                others,
                octets,
                state,
            )?;
            if has_tag(context.tags.tags, first, other) {
                state.next = next;
                reject(state, node, MisfitKind::NoEncoding);
                return None;
            }
            Some(other)
        }
    }
}

/// Encodes a value of what follows alternatives.
#[cycle(encoding)]
fn encode_others(
    context: &Context<'_>,
    depth: usize,
    node: usize,
    others: Others,
    octets: &mut [u8],
    state: &mut Writer,
) -> Option<FoundIdentifier>
    requires size { 8 * length octets.old < 2 ^ 64 }
    requires source { 8 * length context.now.source.now < 2 ^ 64 }
    requires parts { length context.now.parts.now < 2 ^ 64 - 1 }
    requires whole { state.old.at % 8 ≡ 0 }
    ensures { ElementOutcome context.now (others_in context.now depth node others) octets.old state.old octets.new state.new result }
{
    match others {
        Others::Nothing => {
            reject(state, node, MisfitKind::OtherPart);
            None
        }
        Others::Additions(before, rows) => encode_alternatives(
            context,
            depth,
            node,
            before as usize,
            rows.count as usize,
            rows.from,
            Others::Unknown,
            octets,
            state,
        ),
        Others::Unknown => encode_any(context, node, AnyPart::Unknown, octets, state),
    }
}

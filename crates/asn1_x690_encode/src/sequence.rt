//! SEQUENCE (X.690 8.9), and SET (8.11, 10.3).

ghost use Rattle.std.specs.Prelude.{Option, ◌≡◌, ℕ, Bool, List, ◌∷◌, ◌+◌, ◌-◌, ◌*◌, ◌%◌, ◌^◌, ◌<◌, true, false, length, MatchOption};
ghost use Rattle.asn1_schema.specs.declared.tables.Range.{Range};
ghost use Rattle.asn1_schema.specs.Pieces.{Absent, Sequence};
ghost use Rattle.asn1_schema.specs.declared.tables.Rows as rows;
ghost use Rattle.asn1_schema.specs.TypeEncodings.{IsAbsent};
ghost use Rattle.asn1_schema.specs.declared.part.Part.TheVariants.{Sequence as SequencePart};
ghost use Rattle.asn1_x690.specs.Der.{sequence_by};
ghost use Rattle.asn1_x691_writers.specs.Put.{piece_in};
ghost use Rattle.asn1_x690_encode.specs.Kinds.{is_required};
ghost use Rattle.asn1_x690_encode.specs.Encoding.{ContentsOutcome, ToldOutcome, after_root, components_in, optional_in, required_in, tables_of, tape, told_by, told_of, types};

use crate::additions::{encode_additions, encode_known};
use crate::context::{Context, first_tags_at, member_at, part_at};
use crate::first_tags::{begins_with, has_tag};
use crate::node::encode_node_here;
use crate::value::encode_value;
use asn1_schema::{MisfitKind, Part, Presence, Rows};
use asn1_x690::FirstTags;
use asn1_x690_fields::FoundIdentifier;
use asn1_x691_writers::{Writer, reject};

/// What follows the components of a root.
#[derive(Clone, Copy, Debug)]
pub(crate) enum Tail {
    /// Nothing.
    End,
    /// The additions that the schema knows, and unknown ones; or no additions, as the value says.
    Extension(Rows, bool),
    /// Additions.
    Additions(LeftAdditions),
}

/// Additions that are left.
#[derive(Clone, Copy, Debug)]
pub(crate) struct LeftAdditions {
    /// Those that the schema knows.
    pub(crate) rows: Rows,
    /// How many additions the schema knows, with those that are not left.
    pub(crate) known: u32,
    /// How many additions there are, with those that are not left.
    pub(crate) count: usize,
}

/// Returns whether `count` components follow a part, and additions as `is_extended` says.
pub(crate) fn is_sequence(part: Part, count: usize, is_extended: bool) -> bool
    ensures is { result ≡ true → part ≡ SequencePart count is_extended }
    ensures other { (ranges : List Range) (source : List ℕ) → result ≡ false → piece_in ranges source part ≡ Sequence count is_extended → ⊥ }
{
    match part {
        Part::Sequence {
            count: many,
            is_extended: has_additions,
        } => { many == count && has_additions == is_extended }
        _ => false,
    }
}

/// Returns whether a part says that a component is absent.
pub(crate) fn is_absent(context: &Context<'_>, next: usize) -> bool
    ensures within { result ≡ true → next < length context.now.parts.now }
    ensures absent { result ≡ true → tape context.now next ≡ Absent ∷ tape context.now (next + 1) }
    ensures present { result ≡ false → IsAbsent (tape context.now next) → ⊥ }
{
    match part_at(context.parts, next) {
        Some(part) => is_absent_part(*part),
        None => false,
    }
}

/// Returns whether a part is that of an absent component.
fn is_absent_part(part: Part) -> bool
    ensures absent { (ranges : List Range) (source : List ℕ) → result ≡ true → piece_in ranges source part ≡ Absent }
    ensures present { (ranges : List Range) (source : List ℕ) → result ≡ false → piece_in ranges source part ≡ Absent → ⊥ }
{
    match part {
        Part::Absent => true,
        _ => false,
    }
}

/// Encodes the contents of a SEQUENCE without an extension marker.
#[inline(always)]
#[cycle(encoding)]
pub(crate) fn encode_sequence(
    context: &Context<'_>,
    depth: usize,
    node: usize,
    root: Rows,
    octets: &mut [u8],
    state: &mut Writer,
) -> bool
    requires size { 8 * length octets.old < 2 ^ 64 }
    requires source { 8 * length context.now.source.now < 2 ^ 64 }
    requires parts { length context.now.parts.now < 2 ^ 64 - 1 }
    requires whole { state.old.at % 8 ≡ 0 }
    ensures { (known : rows.Rows) → ContentsOutcome context.now (sequence_by (types context.now depth) (tables_of context.now) node false root known) octets.old state.old
        octets.new state.new result }
{
    match part_at(context.parts, state.next) {
        None => reject(state, node, MisfitKind::NoPart),
        Some(part) => {
            if !is_sequence(*part, root.count as usize, false) {
                return reject(state, node, MisfitKind::OtherPart);
            }
            state.next += 1;
            encode_components(
                context,
                depth,
                node,
                root.count as usize,
                root.from,
                &Tail::End,
                octets,
                state,
            )
            .is_some()
        }
    }
}

/// Returns whether additions follow the components of a root, of which `count` follow a part.
fn extended_by(part: Part, count: usize) -> Option<bool>
    ensures { MatchOption result ((ranges : List Range) (source : List ℕ) (b : Bool) → piece_in ranges source part ≡ Sequence count b → ⊥)
        (λ b. part ≡ SequencePart count b) }
{
    match part {
        Part::Sequence {
            count: many,
            is_extended,
        } => {
            if many == count {
                Some(is_extended)
            } else {
                None
            }
        }
        _ => None,
    }
}

/// Encodes the contents of a SEQUENCE with an extension marker.
#[cycle(encoding)]
pub(crate) fn encode_extensible_sequence(
    context: &Context<'_>,
    depth: usize,
    node: usize,
    root: Rows,
    known: Rows,
    octets: &mut [u8],
    state: &mut Writer,
) -> bool
    requires size { 8 * length octets.old < 2 ^ 64 }
    requires source { 8 * length context.now.source.now < 2 ^ 64 }
    requires parts { length context.now.parts.now < 2 ^ 64 - 1 }
    requires whole { state.old.at % 8 ≡ 0 }
    ensures { ContentsOutcome context.now (sequence_by (types context.now depth) (tables_of context.now) node true root known) octets.old state.old
        octets.new state.new result }
{
    match part_at(context.parts, state.next) {
        None => reject(state, node, MisfitKind::NoPart),
        Some(part) => match extended_by(*part, root.count as usize) {
            None => reject(state, node, MisfitKind::OtherPart),
            Some(is_extended) => {
                state.next += 1;
                encode_components(
                    context,
                    depth,
                    node,
                    root.count as usize,
                    root.from,
                    &Tail::Extension(known, is_extended),
                    octets,
                    state,
                )
                .is_some()
            }
        },
    }
}

/// Encodes `count` components, which are members from an index on, and what follows them. Returns the first
/// identifier, if there is one.
#[inline(always)]
#[cycle(encoding)]
pub(crate) fn encode_components(
    context: &Context<'_>,
    depth: usize,
    node: usize,
    count: usize,
    from: usize,
    tail: &Tail,
    octets: &mut [u8],
    state: &mut Writer,
) -> Option<Option<FoundIdentifier>>
    requires size { 8 * length octets.old < 2 ^ 64 }
    requires source { 8 * length context.now.source.now < 2 ^ 64 }
    requires parts { length context.now.parts.now < 2 ^ 64 - 1 }
    requires whole { state.old.at % 8 ≡ 0 }
    requires few { count < 2 ^ 32 }
    ensures { ToldOutcome context.now (components_in context.now depth node count from tail.now) (told_of tail.now) octets.old state.old
        octets.new state.new result }
{
    if count == 0 {
        return encode_tail(context, depth, node, tail, octets, state);
    }
    encode_first(context, depth, node, count, from, tail, octets, state)
}

/// Encodes components as [`encode_components`] does. There is one at least.
#[inline(never)]
#[cycle(encoding)]
fn encode_first(
    context: &Context<'_>,
    depth: usize,
    node: usize,
    count: usize,
    from: usize,
    tail: &Tail,
    octets: &mut [u8],
    state: &mut Writer,
) -> Option<Option<FoundIdentifier>>
    requires size { 8 * length octets.old < 2 ^ 64 }
    requires source { 8 * length context.now.source.now < 2 ^ 64 }
    requires parts { length context.now.parts.now < 2 ^ 64 - 1 }
    requires whole { state.old.at % 8 ≡ 0 }
    requires some { 0 < count }
    requires few { count < 2 ^ 32 }
    ensures { ToldOutcome context.now (components_in context.now depth node count from tail.now) (told_of tail.now) octets.old state.old
        octets.new state.new result }
{
    let Some(member) = member_at(context.tables.members, from) else {
        reject(state, node, MisfitKind::NoNode);
        return None;
    };
    let inner = member.node;
    if is_required(member.presence) {
        return encode_required(
            context,
            depth,
            node,
            inner,
            count - 1,
            from + 1,
            tail,
            octets,
            state,
        );
    }
    let Some(first) = first_tags_at(context.tags.members, from) else {
        reject(state, node, MisfitKind::NoNode);
        return None;
    };
    encode_optional(
        context,
        depth,
        node,
        member.presence,
        first,
        inner,
        count - 1,
        from + 1,
        tail,
        octets,
        state,
    )
}

/// Returns whether a component must be present.
fn is_required(presence: Presence) -> bool
    ensures { result ≡ is_required presence }
{
    match presence {
        Presence::Mandatory => true,
        _ => false,
    }
}

/// Encodes what follows components.
#[inline(always)]
#[cycle(encoding)]
fn encode_tail(
    context: &Context<'_>,
    depth: usize,
    node: usize,
    tail: &Tail,
    octets: &mut [u8],
    state: &mut Writer,
) -> Option<Option<FoundIdentifier>>
    requires size { 8 * length octets.old < 2 ^ 64 }
    requires source { 8 * length context.now.source.now < 2 ^ 64 }
    requires parts { length context.now.parts.now < 2 ^ 64 - 1 }
    requires whole { state.old.at % 8 ≡ 0 }
    ensures { ToldOutcome context.now (after_root context.now depth node tail.now) (told_of tail.now) octets.old state.old octets.new state.new result }
{
    match *tail {
        Tail::End => Some(None),
        Tail::Extension(known, is_extended) => {
            if !is_extended {
                return Some(None);
            }
            encode_additions(context, depth, node, known, octets, state)
        }
        Tail::Additions(left) => encode_known(context, depth, node, left, octets, state),
    }
}

/// Encodes a component that must be present, and those after it.
#[cycle(encoding)]
fn encode_required(
    context: &Context<'_>,
    depth: usize,
    node: usize,
    inner: usize,
    count: usize,
    from: usize,
    tail: &Tail,
    octets: &mut [u8],
    state: &mut Writer,
) -> Option<Option<FoundIdentifier>>
    requires size { 8 * length octets.old < 2 ^ 64 }
    requires source { 8 * length context.now.source.now < 2 ^ 64 }
    requires parts { length context.now.parts.now < 2 ^ 64 - 1 }
    requires whole { state.old.at % 8 ≡ 0 }
    requires few { count < 2 ^ 32 }
    ensures { ToldOutcome context.now (required_in context.now depth node inner count from tail.now) (told_of tail.now) octets.old state.old
        octets.new state.new result }
{
    let found = encode_node_here(context, depth, inner, octets, state)?;
    encode_components(context, depth, node, count, from, tail, octets, state)?;
    Some(Some(found))
}

/// Encodes a component that may be absent, and those after it. It is present exactly where the next
/// element has one of its first tags.
#[inline(always)]
#[cycle(encoding)]
pub(crate) fn encode_optional(
    context: &Context<'_>,
    depth: usize,
    node: usize,
    presence: Presence,
    first: FirstTags,
    inner: usize,
    count: usize,
    from: usize,
    tail: &Tail,
    octets: &mut [u8],
    state: &mut Writer,
) -> Option<Option<FoundIdentifier>>
    requires size { 8 * length octets.old < 2 ^ 64 }
    requires source { 8 * length context.now.source.now < 2 ^ 64 }
    requires parts { length context.now.parts.now < 2 ^ 64 - 1 }
    requires whole { state.old.at % 8 ≡ 0 }
    requires few { count < 2 ^ 32 }
    ensures { ToldOutcome context.now (optional_in context.now depth node presence first inner count from tail.now) (told_of tail.now) octets.old state.old
        octets.new state.new result }
{
    let next = state.next;
    if is_absent(context, next) {
        state.next += 1;
        let begins = encode_components(context, depth, node, count, from, tail, octets, state)?;
        if begins_with(context.tags.tags, first, begins) {
            state.next = next;
            reject(state, node, MisfitKind::NoEncoding);
            return None;
        }
        return Some(begins);
    }
    let found = encode_value(context, depth, node, presence, inner, octets, state)?;
    encode_components(context, depth, node, count, from, tail, octets, state)?;
    if !has_tag(context.tags.tags, first, found) {
        state.next = next;
        reject(state, node, MisfitKind::NoEncoding);
        return None;
    }
    Some(Some(found))
}

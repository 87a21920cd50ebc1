//! Encodes octets that are kept by their contents: identifiers, REAL and UTF-8.

ghost use Rattle.asn1_x691.specs.Fragments.{most_fragments};
ghost use Rattle.std.specs.Prelude.{◌≡◌, ◌≢◌, ◌-◌, ◌*◌, ◌^◌, ◌<◌, Some, true, false, length, slice_get};
ghost use Rattle.asn1_x691.specs.Leaves.{contents};
ghost use Rattle.asn1_x691_writers.specs.declared.contents.ContentsKind.TheVariants.{Utf8};
ghost use Rattle.asn1_x691_writers.specs.Put.{IsInFragments};
ghost use Rattle.asn1_x691_writers.specs.Validity.{IsValid};
ghost use Rattle.asn1_x691_encode.specs.Encoding.{Outcome, node_of};

use crate::context::{Context, part_at, pass};
use asn1_schema::{MisfitKind, Part};
use asn1_x691_writers::{ContentsKind, Writer, leave, put_contents, reject};

/// Encodes octets of this kind (X.691 24, 25, 30.6).
#[inline(never)]
pub(crate) fn encode_contents(
    context: &Context<'_>,
    kind: ContentsKind,
    node: usize,
    octets: &mut [u8],
    state: &mut Writer,
) -> bool
    requires size { 8 * length octets.old < 2 ^ 64 }
    requires source { 8 * length context.now.source.now < 2 ^ 64 }
    requires parts { length context.now.parts.now < 2 ^ 64 - 1 }
    requires kind { slice_get context.now.tables.nodes.now node ≡ Some (node_of kind) }
    ensures { Outcome context.now (contents most_fragments context.now.is_aligned node (IsValid kind)) octets.old state.old octets.new
        state.new result }
{
    match part_at(context.parts, state.next) {
        None => reject(state, node, MisfitKind::NoPart),
        Some(part) if is_left(kind, &part) => leave(state, node),
        Some(part) => pass(
            put_contents(
                octets,
                context.is_aligned,
                kind,
                context.source,
                part,
                node,
                state,
            ),
            state,
        ),
    }
}

/// Returns whether a part is an identifier or a REAL in fragments.
#[inline(always)]
fn is_left(kind: ContentsKind, part: &Part) -> bool
    ensures kind { result ≡ true → kind ≢ Utf8 }
    ensures yes { result ≡ true → IsInFragments part.now }
    ensures no { result ≡ false → kind ≢ Utf8 → IsInFragments part.now → ⊥ }
{
    match *part {
        Part::OctetsInFragments(_) => match kind {
            ContentsKind::Utf8 => false,
            _ => true,
        },
        _ => false,
    }
}

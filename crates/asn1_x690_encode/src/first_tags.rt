//! Whether a value may begin with a tag.

ghost use Rattle.std.specs.Prelude.{◌≡◌, ℕ, ◌+◌, Bool, List, Option, true, false, slice_get};
ghost use Rattle.asn1_x690.specs.Der.{HasTag, BeginsWith as MayBegin};
ghost use Rattle.asn1_x690.specs.declared.tables.Identifier as identifier;
ghost use Rattle.asn1_x690_encode.specs.Encoding.{BeginsWith};
ghost use Rattle.asn1_x690_fields.specs.Outcomes.{IsIdentifier};

use asn1_x690::{FirstTags, Identifier, Tag};
use asn1_x690_fields::FoundIdentifier;

/// Returns the tag of an index among those from another index on.
#[inline(always)]
fn tag_from(tags: &[Tag], from: usize, index: usize) -> Option<Tag>
    ensures { result ≡ slice_get tags.now (from + index) }
{
    if index < tags.len().saturating_sub(from) {
        return Some(tags[from + index]);
    }
    None
}

/// Returns an identifier as it is found in octets.
#[inline(always)]
pub(crate) fn found(id: Identifier) -> FoundIdentifier
    ensures { IsIdentifier result id }
{
    FoundIdentifier {
        class: id.tag.class,
        number: Some(id.tag.number),
        is_constructed: id.is_constructed,
    }
}

/// Returns whether a tag is that of an identifier.
fn is_of(tag: Option<Tag>, found: FoundIdentifier) -> bool
    ensures yes { (id : identifier.Identifier) → IsIdentifier found id → result ≡ true → tag ≡ Some id.tag }
    ensures no { (id : identifier.Identifier) → IsIdentifier found id → result ≡ false → tag ≡ Some id.tag → ⊥ }
{
    match tag {
        None => false,
        Some(tag) => tag.class == found.class && found.number == Some(tag.number),
    }
}

/// Returns whether a value may begin with the tag of an identifier.
pub(crate) fn has_tag(tags: &[Tag], first: FirstTags, found: FoundIdentifier) -> bool
    ensures yes { (id : identifier.Identifier) → IsIdentifier found id → result ≡ true → HasTag tags.now first id }
    ensures no { (id : identifier.Identifier) → IsIdentifier found id → result ≡ false → HasTag tags.now first id → ⊥ }
{
    if first.is_any {
        return true;
    }
    let mut index = 0;
    while index < first.tags.count as usize {
        if is_of(tag_from(tags, first.tags.from, index), found) {
            return true;
        }
        index += 1;
    }
    false
}

/// Returns whether bits that begin with an identifier, if with one, may begin a value.
pub(crate) fn begins_with(tags: &[Tag], first: FirstTags, begins: Option<FoundIdentifier>) -> bool
    ensures yes { (list : List Bool) → BeginsWith begins list → result ≡ true → MayBegin tags.now first list }
    ensures no { (list : List Bool) → BeginsWith begins list → result ≡ false → MayBegin tags.now first list → ⊥ }
{
    match begins {
        None => false,
        Some(found) => has_tag(tags, first, found),
    }
}

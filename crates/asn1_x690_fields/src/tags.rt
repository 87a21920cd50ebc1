//! Tags, compared with those of identifiers.

ghost use Rattle.std.specs.Prelude.{◌≡◌, ◌+◌, ℕ, true, false, Some, slice_get, slice_range};
ghost use Rattle.asn1_x690.specs.declared.tables.Identifier.{Identifier};
ghost use Rattle.asn1_x690.specs.Der.{HasTag, rows_of};
ghost use Rattle.asn1_x690_fields.specs.Outcomes.{IsIdentifier};

use crate::identifier::FoundIdentifier;
use asn1_schema::Rows;
use asn1_x690::{FirstTags, Tag};

/// Returns whether an identifier has a tag.
#[inline(always)]
fn is_tag(found: &FoundIdentifier, tag: Tag) -> bool
    ensures yes { result ≡ true → (id : Identifier) → IsIdentifier found.now id → id.tag ≡ tag }
    ensures no { result ≡ false → (id : Identifier) → IsIdentifier found.now id → id.tag ≡ tag → ⊥ }
{
    found.class == tag.class && found.number == Some(tag.number)
}

/// Returns whether an identifier has a tag and a form.
#[inline(always)]
pub fn is_identifier(found: &FoundIdentifier, tag: Tag, is_constructed: bool) -> bool
    ensures yes { result ≡ true → (id : Identifier) → IsIdentifier found.now id
        → (id.tag ≡ tag) × (id.is_constructed ≡ is_constructed) }
    ensures no { result ≡ false → (id : Identifier) → IsIdentifier found.now id
        → id.tag ≡ tag → id.is_constructed ≡ is_constructed → ⊥ }
{
    found.is_constructed == is_constructed && is_tag(found, tag)
}

/// Returns rows of the table of tags, as far as the table has them.
pub fn tags_in(table: &[Tag], rows: Rows) -> &[Tag]
    ensures { result.now ≡ rows_of table.now rows }
{
    let (_, rest) = table.split_at(rows.from.min(table.len()));
    let (tags, _) = rest.split_at((rows.count as usize).min(rest.len()));
    tags
}

/// Returns whether an identifier has one of the tags.
fn is_among(found: &FoundIdentifier, tags: &[Tag]) -> bool
    ensures yes { result ≡ true → (id : Identifier) → IsIdentifier found.now id
        → (i : ℕ) × (slice_get tags.now i ≡ Some id.tag) }
    ensures no { result ≡ false → (id : Identifier) → IsIdentifier found.now id
        → (i : ℕ) → slice_get tags.now i ≡ Some id.tag → ⊥ }
{
    for tag in tags {
        if is_tag(found, *tag) {
            return true;
        }
    }
    false
}

/// Returns whether a value may begin with the tag of an identifier.
#[inline(always)]
pub fn has_tag(table: &[Tag], first: FirstTags, found: &FoundIdentifier) -> bool
    ensures yes { result ≡ true → (id : Identifier) → IsIdentifier found.now id → HasTag table.now first id }
    ensures no { result ≡ false → (id : Identifier) → IsIdentifier found.now id → HasTag table.now first id → ⊥ }
{
    first.is_any || is_among(found, tags_in(table, first.tags))
}

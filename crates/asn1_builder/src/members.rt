//! The members of a type, by their names.

ghost use Rattle.std.specs.Prelude.{◌≡◌, ◌≢◌, ◌↔◌, ◌+◌, ◌<◌, ◌^◌, IsTrue, MatchOption, slice_get, Some, None};
ghost use Rattle.asn1_schema.specs.declared.tables.Member.{Member};
ghost use Rattle.asn1_schema.specs.declared.tables.Presence.TheVariants.{Mandatory};
ghost use Rattle.asn1_schema_values.specs.Names.{IsFirstNamed, IsNotNamed};
ghost use Rattle.asn1_builder.specs.Steps.{IsNoPlace, IsPlace};

use asn1_schema::{Member, Presence, Rows, Tables};
use asn1_schema_values::Names;

/// Returns the index of the first member of rows with a name.
fn index_of(names: &Names<'_>, rows: Rows, name: &str) -> Option<usize>
    ensures { MatchOption result (IsNotNamed names.now rows name.now)
        (λ index. IsFirstNamed names.now rows name.now (rows.from + index) × (index < 2 ^ 32)) }
{
    let row = names.member_named(rows, name)?;
    Some(row - rows.from)
}

/// Returns the index of the member with a name, and whether it is one of the additions.
pub(crate) fn place_of(
    names: &Names<'_>,
    root: Rows,
    additions: Rows,
    name: &str,
) -> Option<(bool, usize)>
    ensures { MatchOption result (IsNoPlace names.now root additions name.now)
        (λ p. IsPlace names.now root additions name.now p.0 p.1 × (p.1 < 2 ^ 32)) }
{
    if let Some(index) = index_of(names, root, name) {
        return Some((false, index));
    }
    let index = index_of(names, additions, name)?;
    Some((true, index))
}

/// Returns the member of an index of rows. `None` if the table has none.
fn member_of(tables: &Tables<'_>, rows: Rows, index: usize) -> Option<Member>
    ensures { result ≡ slice_get tables.now.members.now (rows.from + index) }
{
    let row = rows.from.checked_add(index)?;
    if row < tables.members.len() {
        Some(tables.members[row])
    } else {
        None
    }
}

/// Returns the type of the member of an index of rows. `None` if the table has none.
pub(crate) fn node_of(tables: &Tables<'_>, rows: Rows, index: usize) -> Option<usize>
    ensures { MatchOption result (slice_get tables.now.members.now (rows.from + index) ≡ None)
        (λ node. (m : Member) × (slice_get tables.now.members.now (rows.from + index) ≡ Some m)
        × (node ≡ m.node)) }
{
    let member = member_of(tables, rows, index)?;
    Some(member.node)
}

/// Returns whether the member of an index of rows may be absent.
pub(crate) fn is_optional(tables: &Tables<'_>, rows: Rows, index: usize) -> bool
    ensures { IsTrue result ↔ ((m : Member)
        × (slice_get tables.now.members.now (rows.from + index) ≡ Some m) × (m.presence ≢ Mandatory)) }
{
    match member_of(tables, rows, index) {
        Some(member) => !matches!(member.presence, Presence::Mandatory),
        None => false,
    }
}

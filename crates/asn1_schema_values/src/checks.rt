//! Checks the tables of a schema.

ghost use Rattle.std.specs.Prelude.{◌≡◌, ◌↔◌, ◌<◌, IsTrue, IfSome, MatchResult, length};
ghost use Rattle.asn1_schema_values.specs.declared.faults.NodeFault.{NodeFault};
ghost use Rattle.asn1_schema_values.specs.Tables.{AlphabetsKeep, AreRows, AreWellFormed, AreWellFormedBefore, HaveTypesBefore, KeepsIndexes, IsFirstFault, IsWellFormed, IsBelowLimit, AdditionsFollowMarker, FollowMarker, Keeps, inner_type as inner_in, component_rows as components_in, alternative_rows as alternatives_in, addition_rows as additions_in, size_of as size_in, alphabets_of as alphabets_in};

use crate::alphabets::{are_rows, is_ascending, is_within, ranges_of};
use crate::faults::{NodeFault, TableFault};
use asn1_schema::{Length, Node, Range, Rows, Tables};

/// Returns the type of the items of a list, or of the value of an open type.
fn inner_type(node: &Node) -> Option<usize>
    ensures { result ≡ inner_in node.now }
{
    match *node {
        Node::SequenceOf { item, .. } => Some(item),
        Node::SetOf { item, .. } => Some(item),
        Node::Open { inner } => Some(inner),
        _ => None,
    }
}

/// Returns the components of the root of a SEQUENCE or a SET.
fn component_rows(node: &Node) -> Option<Rows>
    ensures { result ≡ components_in node.now }
{
    match *node {
        Node::Sequence { root, .. } => Some(root),
        _ => None,
    }
}

/// Returns the alternatives of the root of a CHOICE.
fn alternative_rows(node: &Node) -> Option<Rows>
    ensures { result ≡ alternatives_in node.now }
{
    match *node {
        Node::Choice { alternatives, .. } => Some(alternatives),
        _ => None,
    }
}

/// Returns the additions of a SEQUENCE, a SET or a CHOICE.
fn addition_rows(node: &Node) -> Option<Rows>
    ensures { result ≡ additions_in node.now }
{
    match *node {
        Node::Sequence { additions, .. } => Some(additions),
        Node::Choice { additions, .. } => Some(additions),
        _ => None,
    }
}

/// Returns the size constraint of a string or a list.
fn size_of(node: &Node) -> Option<Length>
    ensures { result ≡ size_in node.now }
{
    match *node {
        Node::BitString { length, .. } => Some(length),
        Node::OctetString { length, .. } => Some(length),
        Node::Text { length, .. } => Some(length),
        Node::SequenceOf { length, .. } => Some(length),
        Node::SetOf { length, .. } => Some(length),
        _ => None,
    }
}

/// Returns the alphabet of a string, and that of its type.
fn alphabets_of(node: &Node) -> Option<(Rows, Rows)>
    ensures { result ≡ alphabets_in node.now }
{
    match *node {
        Node::Text {
            alphabet,
            whole,
            ..
        } => Some((alphabet, whole)),
        _ => None,
    }
}

/// Returns whether a type that is named is one of `count`.
fn is_type(inner: Option<usize>, count: usize) -> bool
    ensures { IsTrue result ↔ IfSome inner (λ i. i < count) }
{
    match inner {
        Some(index) => index < count,
        None => true,
    }
}

/// Returns whether rows, if there are some, are rows of a table that has `count`.
fn are_rows_of(rows: Option<Rows>, count: usize) -> bool
    ensures { IsTrue result ↔ IfSome rows (λ r. AreRows r count) }
{
    match rows {
        Some(rows) => are_rows(rows, count),
        None => true,
    }
}

/// Returns whether there is an alternative, if there are rows of alternatives.
fn has_alternative(rows: Option<Rows>) -> bool
    ensures { IsTrue result ↔ IfSome rows (λ r. 0 < r.count) }
{
    match rows {
        Some(rows) => 0 < rows.count,
        None => true,
    }
}

/// Returns whether a type without an extension marker has no additions.
fn additions_follow_marker(node: &Node) -> bool
    ensures { IsTrue result ↔ AdditionsFollowMarker node.now }
{
    match *node {
        Node::Enumerated {
            is_extensible,
            additions,
            ..
        } => follow_marker(is_extensible, additions),
        Node::Sequence {
            is_extensible,
            additions,
            ..
        } => follow_marker(is_extensible, additions.count),
        Node::Choice {
            is_extensible,
            additions,
            ..
        } => follow_marker(is_extensible, additions.count),
        _ => true,
    }
}

/// Returns whether additions follow an extension marker, or there are none.
fn follow_marker(is_extensible: bool, additions: u32) -> bool
    ensures { IsTrue result ↔ FollowMarker is_extensible additions }
{
    is_extensible || additions == 0
}

/// Returns whether a size, if there is one, is below the limit.
fn is_below_limit(size: Option<Length>) -> bool
    ensures { IsTrue result ↔ IfSome size IsBelowLimit }
{
    match size {
        Some(Length::Between { least, range }) => u64::from(least) + u64::from(range) < 65_536,
        _ => true,
    }
}

/// Checks the alphabet of a string, and that of its type.
fn check_alphabets(table: &[Range], alphabet: Rows, whole: Rows) -> Result<(), NodeFault>
    ensures { MatchResult result (λ _. (f : NodeFault) → AlphabetsKeep f table.now alphabet whole)
        (λ f. ¬ (AlphabetsKeep f table.now alphabet whole)) }
{
    if !are_rows(alphabet, table.len()) || !are_rows(whole, table.len()) {
        return Err(NodeFault::Alphabet);
    }
    if alphabet.count == 0 || whole.count == 0 {
        return Err(NodeFault::NoRange);
    }
    let characters = ranges_of(table, alphabet);
    let all = ranges_of(table, whole);
    if !is_ascending(characters) || !is_ascending(all) {
        return Err(NodeFault::NotAscending);
    }
    if !is_within(characters, all) {
        return Err(NodeFault::NotWithin);
    }
    Ok(())
}

/// Checks what is not about alphabets.
fn check_indexes(tables: &Tables<'_>, node: &Node) -> Result<(), NodeFault>
    ensures { MatchResult result (λ _. KeepsIndexes tables.now node.now) (λ f. ¬ (Keeps f tables.now node.now)) }
{
    let members = tables.members.len();
    if !is_type(inner_type(node), tables.nodes.len()) {
        return Err(NodeFault::NoType);
    }
    if !are_rows_of(component_rows(node), members) {
        return Err(NodeFault::Components);
    }
    if !are_rows_of(alternative_rows(node), members) {
        return Err(NodeFault::Alternatives);
    }
    if !are_rows_of(addition_rows(node), members) {
        return Err(NodeFault::Additions);
    }
    if !has_alternative(alternative_rows(node)) {
        return Err(NodeFault::NoAlternative);
    }
    if !additions_follow_marker(node) {
        return Err(NodeFault::NotExtensible);
    }
    if !is_below_limit(size_of(node)) {
        return Err(NodeFault::Size);
    }
    Ok(())
}

/// Checks a type.
fn check_type(tables: &Tables<'_>, node: &Node) -> Result<(), NodeFault>
    ensures { MatchResult result (λ _. IsWellFormed tables.now node.now) (λ f. ¬ (Keeps f tables.now node.now)) }
{
    check_indexes(tables, node)?;
    match alphabets_of(node) {
        Some((alphabet, whole)) => check_alphabets(tables.ranges, alphabet, whole),
        None => Ok(()),
    }
}

/// Checks the types.
fn check_types(tables: &Tables<'_>) -> Result<(), TableFault>
    ensures { MatchResult result (λ _. AreWellFormedBefore tables.now (length tables.now.nodes.now))
        (IsFirstFault tables.now) }
{
    for (row, node) in tables.nodes.iter().enumerate() {
        if let Err(fault) = check_type(tables, node) {
            return Err(TableFault::Type { row, fault });
        }
    }
    Ok(())
}

/// Checks the components and the alternatives.
fn check_members(tables: &Tables<'_>) -> Result<(), TableFault>
    requires { AreWellFormedBefore tables.now (length tables.now.nodes.now) }
    ensures { MatchResult result (λ _. HaveTypesBefore tables.now (length tables.now.members.now))
        (IsFirstFault tables.now) }
{
    for (row, member) in tables.members.iter().enumerate() {
        if member.node >= tables.nodes.len() {
            return Err(TableFault::Member { row });
        }
    }
    Ok(())
}

/// Checks the tables of a schema. It does not allocate.
///
/// It accepts a type that contains itself without an end. Such a type has no value, and a decoder
/// or an encoder stops at the depth that its caller allows.
///
/// # Errors
///
/// Returns the first fault: those of the types in their order, and then those of the components and
/// alternatives.
pub fn check(tables: &Tables<'_>) -> Result<(), TableFault>
    ensures { MatchResult result (λ _. AreWellFormed tables.now) (IsFirstFault tables.now) }
{
    check_types(tables)?;
    check_members(tables)
}

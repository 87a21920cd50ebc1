//! Strings of characters of known alphabets (X.691 30.1 to 30.5).

ghost use Rattle.std.specs.Prelude.{◌≡◌, ◌<◌, ◌^◌, ◌*◌, ◌∷◌, [], List, Bool, true, length};
ghost use Rattle.asn1_bits.specs.Bits.{bits};
ghost use Rattle.asn1_schema.specs.declared.tables.Range as the_range;
ghost use Rattle.asn1_schema.specs.Pieces.{Text};
ghost use Rattle.asn1_schema.specs.PiecesOfParts.{piece_of};
ghost use Rattle.asn1_schema.specs.TypeEncodings.{leaf, by_bit};
ghost use Rattle.asn1_x691.specs.Characters.{text_of, added_text};
ghost use Rattle.asn1_x691.specs.Leaves.{text as text_in};
ghost use Rattle.asn1_x691_fields.specs.Outcomes.{IsWithin, IsOnward, IsRead, IsPlaced};
ghost use Rattle.asn1_x691_fields.specs.Characters.{rows_of, characters_at, codes_by, characters_in};

use crate::alphabets::{Alphabet, alphabet_of_few, ranges_in};
use crate::heads::next_bit;
use crate::quick_texts::{Found, next_quick_text};
use crate::sized_texts::{next_added_text, next_text_of};
use crate::state::State;
use asn1_schema::{Characters, Codes, Length, Part, Range, Rows};

/// Reads a string of characters whose size constraint has an extension marker (X.691 30.4, 30.5).
///
/// Its alphabet is rows of a table of ranges. A string of a size outside the root has the alphabet of the
/// whole type.
pub fn next_extensible_text(
    octets: &[u8],
    is_aligned: bool,
    table: &[Range],
    size: Length,
    alphabet: Rows,
    whole: Rows,
    node: usize,
    state: &mut State,
) -> Option<Part>
    requires size { 8 * length octets.now < 2 ^ 64 }
    requires within { IsWithin (bits octets.now) state.old }
    requires placed { IsPlaced is_aligned state.old }
    ensures onward { IsOnward (bits octets.now) state.old state.new }
    ensures read { IsRead (λ at. (text_in 0 is_aligned node size true (rows_of table.now alphabet) (rows_of table.now whole) at).encoding)
        (λ p. piece_of table.now (bits octets.now) p ∷ []) (bits octets.now) state.old state.new result }
{
    let is_added = next_bit(octets, node, state)?;
    next_text_by_bit(
        octets, is_aligned, table, size, is_added, alphabet, whole, node, state,
    )
}

/// Reads characters after the extension bit.
#[inline(always)]
fn next_text_by_bit(
    octets: &[u8],
    is_aligned: bool,
    table: &[Range],
    size: Length,
    is_added: bool,
    alphabet: Rows,
    whole: Rows,
    node: usize,
    state: &mut State,
) -> Option<Part>
    requires size { 8 * length octets.now < 2 ^ 64 }
    requires within { IsWithin (bits octets.now) state.old }
    requires placed { IsPlaced is_aligned state.old }
    ensures onward { IsOnward (bits octets.now) state.old state.new }
    ensures read { IsRead (λ at. by_bit (leaf (text_of 0 is_aligned (rows_of table.now alphabet) node size) Text node at)
        (leaf (added_text 0 is_aligned (rows_of table.now whole) node size) Text node at) is_added)
        (λ p. piece_of table.now (bits octets.now) p ∷ []) (bits octets.now) state.old state.new result }
{
    if is_added {
        return next_text_of_addition(octets, is_aligned, table, size, whole, node, state);
    }
    next_text_of_root(octets, is_aligned, table, size, alphabet, node, state)
}

/// Reads a string of characters of a size in the root, by its alphabet, which is rows of a table of
/// ranges (X.691 30.5).
#[inline(always)]
pub fn next_text_of_root(
    octets: &[u8],
    is_aligned: bool,
    table: &[Range],
    size: Length,
    rows: Rows,
    node: usize,
    state: &mut State,
) -> Option<Part>
    requires size { 8 * length octets.now < 2 ^ 64 }
    requires within { IsWithin (bits octets.now) state.old }
    requires placed { IsPlaced is_aligned state.old }
    ensures onward { IsOnward (bits octets.now) state.old state.new }
    ensures read { IsRead (λ at. (leaf (text_of 0 is_aligned (rows_of table.now rows) node size) Text node at).encoding)
        (λ p. piece_of table.now (bits octets.now) p ∷ []) (bits octets.now) state.old state.new result }
{
    let found = next_found_text(
        octets,
        is_aligned,
        ranges_in(table, rows),
        size,
        node,
        state,
    )?;
    Some(part_of(found, rows))
}

/// Reads characters of a size in the root.
#[inline(always)]
fn next_found_text(
    octets: &[u8],
    is_aligned: bool,
    ranges: &[Range],
    size: Length,
    node: usize,
    state: &mut State,
) -> Option<Found>
    requires size { 8 * length octets.now < 2 ^ 64 }
    requires ranges { length ranges.now < 2 ^ 32 }
    requires within { IsWithin (bits octets.now) state.old }
    requires placed { IsPlaced is_aligned state.old }
    ensures onward { IsOnward (bits octets.now) state.old state.new }
    ensures read { IsRead (text_of 0 is_aligned ranges.now node size) (λ f. characters_in f ranges.now (bits octets.now))
        (bits octets.now) state.old state.new result }
{
    let found = match next_quick_text(octets, is_aligned, ranges, size, state) {
        Some(found) => found,
        None => next_any_text(octets, is_aligned, ranges, size, node, state)?,
    };
    Some(found)
}

/// Reads characters of a size in the root, of any alphabet.
#[inline(never)]
fn next_any_text(
    octets: &[u8],
    is_aligned: bool,
    ranges: &[Range],
    size: Length,
    node: usize,
    state: &mut State,
) -> Option<Found>
    requires size { 8 * length octets.now < 2 ^ 64 }
    requires ranges { length ranges.now < 2 ^ 32 }
    requires within { IsWithin (bits octets.now) state.old }
    requires placed { IsPlaced is_aligned state.old }
    ensures onward { IsOnward (bits octets.now) state.old state.new }
    ensures read { IsRead (text_of 0 is_aligned ranges.now node size) (λ f. characters_in f ranges.now (bits octets.now))
        (bits octets.now) state.old state.new result }
{
    let alphabet = alphabet_of_few(ranges, is_aligned);
    let (count, at) = next_text_of(octets, &alphabet, size, node, state)?;
    Some(found_of(&alphabet, count, at))
}

/// Returns `count` characters of an alphabet from bit `at` on.
#[inline(always)]
fn found_of(alphabet: &Alphabet<'_>, count: usize, at: usize) -> Found
    ensures { (list : List Bool) → characters_in result alphabet.now.ranges.now list ≡ characters_at alphabet.now list at count }
{
    Found {
        at,
        count,
        width: alphabet.width,
        are_numbers: alphabet.are_numbers,
    }
}

/// Reads characters of a number that is none of the root (X.691 30.4).
#[inline(never)]
fn next_text_of_addition(
    octets: &[u8],
    is_aligned: bool,
    table: &[Range],
    size: Length,
    rows: Rows,
    node: usize,
    state: &mut State,
) -> Option<Part>
    requires size { 8 * length octets.now < 2 ^ 64 }
    requires within { IsWithin (bits octets.now) state.old }
    requires placed { IsPlaced is_aligned state.old }
    ensures onward { IsOnward (bits octets.now) state.old state.new }
    ensures read { IsRead (λ at. (leaf (added_text 0 is_aligned (rows_of table.now rows) node size) Text node at).encoding)
        (λ p. piece_of table.now (bits octets.now) p ∷ []) (bits octets.now) state.old state.new result }
{
    let alphabet = alphabet_of_few(ranges_in(table, rows), is_aligned);
    let (count, at) = next_added_text(octets, &alphabet, size, node, state)?;
    Some(part_of(found_of(&alphabet, count, at), rows))
}

/// Returns the part of characters whose alphabet is rows of a table.
#[inline(always)]
fn part_of(found: Found, rows: Rows) -> Part
    ensures { (table : List the_range.Range) (list : List Bool) → piece_of table list result ≡ Text (characters_in found (rows_of table rows) list) }
{
    Part::Text(Characters {
        at: found.at,
        count: found.count,
        width: found.width,
        codes: codes_of(found.are_numbers, rows),
    })
}

/// Returns what codes are: numbers, or indices among rows of a table.
#[inline(always)]
fn codes_of(are_numbers: bool, rows: Rows) -> Codes
    ensures { result ≡ codes_by are_numbers rows }
{
    if are_numbers {
        Codes::Numbers
    } else {
        Codes::Indices(rows)
    }
}

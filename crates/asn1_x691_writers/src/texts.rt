//! Strings of characters of known alphabets (X.691 30.1 to 30.5).

ghost use Rattle.std.specs.Prelude.{◌≡◌, List, ◌*◌, ◌^◌, ◌<◌, true, length};
ghost use Rattle.asn1_bits.specs.Bits.{bits};
ghost use Rattle.asn1_schema.specs.declared.tables.Range as the_range;
ghost use Rattle.asn1_schema.specs.CharactersOfParts.{characters_of};
ghost use Rattle.asn1_schema.specs.Pieces.{Text};
ghost use Rattle.asn1_schema.specs.TypeEncodings.{leaf};
ghost use Rattle.asn1_x691.specs.Characters.{text_of};
ghost use Rattle.asn1_x691.specs.Fragments.{most_fragments};
ghost use Rattle.asn1_x691.specs.Leaves.{text as text_in};
ghost use Rattle.asn1_x691.specs.Strings.{IsOfRoot, IsAddedSize};
ghost use Rattle.asn1_x691_fields.specs.Characters.{rows_of};
ghost use Rattle.asn1_x691_writers.specs.Put.{IsPut, piece_in};

use crate::bits::put_number;
use crate::booleans::put_bit;
use crate::characters::are_in;
use crate::copied::{are_copied, are_quickly_copied};
use crate::quick_texts::short_text_of;
use crate::sized_strings::is_of_root;
use crate::sized_texts::{put_added_text, put_copied_text, put_text_of};
use crate::state::{Writer, reject};
use asn1_schema::{Characters, Length, MisfitKind, Part, Range, Rows};
use asn1_x691_fields::{alphabet_of_few, ranges_in};

/// Writes a string of characters by its size constraint and its alphabet (X.691 30.4, 30.5).
///
/// The alphabets are rows of a table of ranges. A string of a size outside the root has the
/// alphabet of the whole type.
#[inline(always)]
pub fn put_text(
    octets: &mut [u8],
    is_aligned: bool,
    table: &[Range],
    size: Length,
    is_extensible: bool,
    alphabet: Rows,
    whole: Rows,
    source: &[u8],
    part: Part,
    node: usize,
    state: &mut Writer,
) -> bool
    requires size { 8 * length octets.old < 2 ^ 64 }
    requires source { 8 * length source.now < 2 ^ 64 }
    ensures { IsPut is_aligned (text_in most_fragments is_aligned node size is_extensible (rows_of table.now alphabet) (rows_of table.now whole))
        (piece_in table.now source.now part) octets.old state.old octets.new state.new result }
{
    match part {
        Part::Text(text) => {
            if !is_extensible {
                return put_text_of_root(
                    octets, is_aligned, table, size, alphabet, source, text, node, state,
                );
            }
            put_text_by_bit(
                octets, is_aligned, table, size, alphabet, whole, source, text, node, state,
            )
        }
        _ => reject(state, node, MisfitKind::OtherPart),
    }
}

/// Writes characters of a type without an extension marker.
#[inline(always)]
fn put_text_of_root(
    octets: &mut [u8],
    is_aligned: bool,
    table: &[Range],
    size: Length,
    rows: Rows,
    source: &[u8],
    text: Characters,
    node: usize,
    state: &mut Writer,
) -> bool
    requires size { 8 * length octets.old < 2 ^ 64 }
    requires source { 8 * length source.now < 2 ^ 64 }
    ensures { IsPut is_aligned (leaf (text_of most_fragments is_aligned (rows_of table.now rows) node size) Text node)
        (Text (characters_of table.now (bits source.now) text)) octets.old state.old octets.new state.new result }
{
    if !is_of_root(size, text.count) {
        return reject(state, node, MisfitKind::NoEncoding);
    }
    if let Some(short) = short_text_of(is_aligned, table, size, rows, source, text) {
        state.at = put_number(octets, state.at, short.value, short.width);
        return true;
    }
    put_long_text_of_root(
        octets, is_aligned, table, size, rows, source, text, node, state,
    )
}

/// Writes characters of a number of the root, which may be many.
#[inline(never)]
fn put_long_text_of_root(
    octets: &mut [u8],
    is_aligned: bool,
    table: &[Range],
    size: Length,
    rows: Rows,
    source: &[u8],
    text: Characters,
    node: usize,
    state: &mut Writer,
) -> bool
    requires size { 8 * length octets.old < 2 ^ 64 }
    requires source { 8 * length source.now < 2 ^ 64 }
    requires root { IsOfRoot size text.count }
    ensures { IsPut is_aligned (leaf (text_of most_fragments is_aligned (rows_of table.now rows) node size) Text node)
        (Text (characters_of table.now (bits source.now) text)) octets.old state.old octets.new state.new result }
{
    let alphabet = alphabet_of_few(ranges_in(table, rows), is_aligned);
    if text.count < 16384 && are_quickly_copied(&alphabet, rows, source, table, text) {
        state.at = put_copied_text(octets, state.at, &alphabet, size, source, table, text);
        return true;
    }
    put_any_text_of_root(
        octets, is_aligned, table, size, rows, source, text, node, state,
    )
}

/// Writes characters of a number of the root, whatever their codes.
#[inline(never)]
fn put_any_text_of_root(
    octets: &mut [u8],
    is_aligned: bool,
    table: &[Range],
    size: Length,
    rows: Rows,
    source: &[u8],
    text: Characters,
    node: usize,
    state: &mut Writer,
) -> bool
    requires size { 8 * length octets.old < 2 ^ 64 }
    requires source { 8 * length source.now < 2 ^ 64 }
    requires root { IsOfRoot size text.count }
    ensures { IsPut is_aligned (leaf (text_of most_fragments is_aligned (rows_of table.now rows) node size) Text node)
        (Text (characters_of table.now (bits source.now) text)) octets.old state.old octets.new state.new result }
{
    let alphabet = alphabet_of_few(ranges_in(table, rows), is_aligned);
    let is_copied = are_copied(&alphabet, source, table, text);
    if !are_in(&alphabet, source, table, text, is_copied) {
        return reject(state, node, MisfitKind::NoEncoding);
    }
    state.at = put_text_of(
        octets, state.at, &alphabet, size, source, table, text, is_copied,
    );
    true
}

/// Writes characters of a type with an extension marker.
#[inline(always)]
fn put_text_by_bit(
    octets: &mut [u8],
    is_aligned: bool,
    table: &[Range],
    size: Length,
    alphabet: Rows,
    whole: Rows,
    source: &[u8],
    text: Characters,
    node: usize,
    state: &mut Writer,
) -> bool
    requires size { 8 * length octets.old < 2 ^ 64 }
    requires source { 8 * length source.now < 2 ^ 64 }
    ensures { IsPut is_aligned (text_in most_fragments is_aligned node size true (rows_of table.now alphabet) (rows_of table.now whole))
        (Text (characters_of table.now (bits source.now) text)) octets.old state.old octets.new state.new result }
{
    if is_of_root(size, text.count) {
        return put_text_after_zero(
            octets, is_aligned, table, size, alphabet, source, text, node, state,
        );
    }
    put_text_after_one(
        octets, is_aligned, table, size, whole, source, text, node, state,
    )
}

/// Writes the extension bit 0, and characters of a number of the root.
#[inline(always)]
fn put_text_after_zero(
    octets: &mut [u8],
    is_aligned: bool,
    table: &[Range],
    size: Length,
    rows: Rows,
    source: &[u8],
    text: Characters,
    node: usize,
    state: &mut Writer,
) -> bool
    requires size { 8 * length octets.old < 2 ^ 64 }
    requires source { 8 * length source.now < 2 ^ 64 }
    requires root { IsOfRoot size text.count }
    ensures { (whole : List the_range.Range) → IsPut is_aligned
        (text_in most_fragments is_aligned node size true (rows_of table.now rows) whole)
        (Text (characters_of table.now (bits source.now) text)) octets.old state.old octets.new state.new result }
{
    if let Some(short) = short_text_of(is_aligned, table, size, rows, source, text) {
        // The bit is a zero before the number.
        state.at = put_number(octets, state.at, short.value, short.width + 1);
        return true;
    }
    put_long_text_after_zero(
        octets, is_aligned, table, size, rows, source, text, node, state,
    )
}

/// Writes the extension bit 0, and characters of a number of the root, which may be many.
#[inline(never)]
fn put_long_text_after_zero(
    octets: &mut [u8],
    is_aligned: bool,
    table: &[Range],
    size: Length,
    rows: Rows,
    source: &[u8],
    text: Characters,
    node: usize,
    state: &mut Writer,
) -> bool
    requires size { 8 * length octets.old < 2 ^ 64 }
    requires source { 8 * length source.now < 2 ^ 64 }
    requires root { IsOfRoot size text.count }
    ensures { (whole : List the_range.Range) → IsPut is_aligned
        (text_in most_fragments is_aligned node size true (rows_of table.now rows) whole)
        (Text (characters_of table.now (bits source.now) text)) octets.old state.old octets.new state.new result }
{
    let alphabet = alphabet_of_few(ranges_in(table, rows), is_aligned);
    let is_copied = are_copied(&alphabet, source, table, text);
    if !are_in(&alphabet, source, table, text, is_copied) {
        return reject(state, node, MisfitKind::NoEncoding);
    }
    let after = put_bit(octets, state.at, false);
    state.at = put_text_of(
        octets, after, &alphabet, size, source, table, text, is_copied,
    );
    true
}

/// Writes the extension bit 1, and characters of another number, by the alphabet of the whole type
/// (X.691 30.4).
#[inline(never)]
fn put_text_after_one(
    octets: &mut [u8],
    is_aligned: bool,
    table: &[Range],
    size: Length,
    rows: Rows,
    source: &[u8],
    text: Characters,
    node: usize,
    state: &mut Writer,
) -> bool
    requires size { 8 * length octets.old < 2 ^ 64 }
    requires source { 8 * length source.now < 2 ^ 64 }
    requires added { IsAddedSize size text.count }
    ensures { (root : List the_range.Range) → IsPut is_aligned
        (text_in most_fragments is_aligned node size true root (rows_of table.now rows))
        (Text (characters_of table.now (bits source.now) text)) octets.old state.old octets.new state.new result }
{
    let alphabet = alphabet_of_few(ranges_in(table, rows), is_aligned);
    let is_copied = are_copied(&alphabet, source, table, text);
    if !are_in(&alphabet, source, table, text, is_copied) {
        return reject(state, node, MisfitKind::NoEncoding);
    }
    let after = put_bit(octets, state.at, true);
    state.at = put_added_text(octets, after, &alphabet, source, table, text, is_copied);
    true
}

//! Short strings of characters in the UNALIGNED variant, each written as one number.
//!
//! No clause says which strings are short, so a body that always returns `None` is right as well: the
//! caller then writes by the general functions, whose clauses are exact.

ghost use Rattle.std.specs.Prelude.{◌≡◌, ℕ, ◌+◌, ◌*◌, ◌^◌, ◌<◌, ◌≤◌, IfSome, false, length, take, drop};
ghost use Rattle.asn1_bits.specs.Bits.{bits, digits};
ghost use Rattle.asn1_schema.specs.CharactersOfParts.{characters_of};
ghost use Rattle.asn1_schema.specs.declared.tables.Length.TheVariants as length_of;
ghost use Rattle.asn1_x691.specs.Characters.{text_of};
ghost use Rattle.asn1_x691.specs.Fragments.{most_fragments};
ghost use Rattle.asn1_x691.specs.Strings.{IsOfRoot};
ghost use Rattle.asn1_x691_fields.specs.Characters.{IsAlphabet, rows_of};
ghost use Rattle.asn1_x691_writers.specs.Copied.{AreCopied};

use crate::copied::have_codes_of;
use asn1_schema::{Characters, Length, Range, Rows};
use asn1_x691_fields::{
    Alphabet, have_codes, narrow_alphabet, number_in, ranges_in, width_to_few, window_at,
};

/// A number and its width in bits.
#[derive(Clone, Copy, Debug)]
pub(crate) struct Short {
    /// The number.
    pub(crate) value: u64,
    /// How many bits it has.
    pub(crate) width: usize,
}

/// Returns the encoding of characters of a number of the root, if it is short, and it is quick to tell
/// that they have the codes of their alphabet, which is rows of the table.
#[inline(always)]
pub(crate) fn short_text_of(
    is_aligned: bool,
    table: &[Range],
    size: Length,
    rows: Rows,
    source: &[u8],
    text: Characters,
) -> Option<Short>
    requires source { 8 * length source.now < 2 ^ 64 }
    requires root { IsOfRoot size text.count }
    ensures few { IfSome result (λ s. s.width ≤ 56) }
    ensures below { IfSome result (λ s. s.value < 2 ^ s.width) }
    ensures encoded { (node at : ℕ) → IfSome result (λ s. (text_of most_fragments is_aligned (rows_of table.now rows) node size at).encodes
        (characters_of table.now (bits source.now) text) (digits s.value s.width)) }
{
    if is_aligned {
        return None;
    }
    match size {
        Length::AtLeast { least: _ } => None,
        Length::Between { least, range } => short_text_between(
            table, least, range, rows, source, text,
        ),
    }
}

/// Returns the same of characters whose number has an upper bound: where it is not fixed, it precedes
/// them.
#[inline(always)]
fn short_text_between(
    table: &[Range],
    least: u32,
    range: u32,
    rows: Rows,
    source: &[u8],
    text: Characters,
) -> Option<Short>
    requires source { 8 * length source.now < 2 ^ 64 }
    requires root { IsOfRoot (length_of.Between least range) text.count }
    ensures few { IfSome result (λ s. s.width ≤ 56) }
    ensures below { IfSome result (λ s. s.value < 2 ^ s.width) }
    ensures encoded { (node at : ℕ) → IfSome result (λ s. (text_of most_fragments false (rows_of table.now rows) node (length_of.Between least range) at).encodes
        (characters_of table.now (bits source.now) text) (digits s.value s.width)) }
{
    let alphabet = narrow_alphabet(ranges_in(table, rows))?;
    let codes = short_codes_of(&alphabet, rows, source, table, text)?;
    let first = width_to_few(range);
    if first + codes.width > 56 {
        return None;
    }
    let more = (text.count - least as usize) as u64;
    Some(Short {
        value: (more << codes.width) + codes.value,
        width: first + codes.width,
    })
}

/// Returns the codes of a part, if they are short, and it is quick to tell that they are those of an
/// alphabet, whose ranges are rows of the table.
#[inline(always)]
fn short_codes_of(
    alphabet: &Alphabet<'_>,
    rows: Rows,
    source: &[u8],
    table: &[Range],
    text: Characters,
) -> Option<Short>
    requires source { 8 * length source.now < 2 ^ 64 }
    requires is { IsAlphabet alphabet.now }
    requires some { 1 ≤ alphabet.now.width }
    requires narrow { alphabet.now.width ≤ 7 }
    requires rows { alphabet.now.ranges.now ≡ rows_of table.now rows }
    ensures few { IfSome result (λ s. s.width ≤ 63) }
    ensures width { IfSome result (λ s. s.width ≡ alphabet.now.width * text.count) }
    ensures below { IfSome result (λ s. s.value < 2 ^ s.width) }
    ensures copied { IfSome result (λ s. AreCopied alphabet.now source.now table.now text) }
    ensures codes { IfSome result (λ s. digits s.value s.width ≡ take s.width (drop text.at (bits source.now))) }
{
    if text.width != alphabet.width || text.count > 63 {
        return None;
    }
    if !have_codes_of(alphabet, rows, table, text.codes) {
        return None;
    }
    let size = alphabet.width * text.count;
    let end = 8 * source.len();
    if text.at >= end || size > end - text.at {
        return None;
    }
    let window = window_at(source, text.at)?;
    if window.shift + size > 63 {
        return None;
    }
    if !have_codes(window, 0, alphabet, text.count) {
        return None;
    }
    Some(Short {
        value: number_in(window, 0, size),
        width: size,
    })
}

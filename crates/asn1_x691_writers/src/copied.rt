//! Characters of a part whose codes are those of an alphabet, so that their bits are their encoding.

ghost use Rattle.std.specs.Prelude.{◌≡◌, ◌+◌, ◌*◌, ◌^◌, ◌<◌, ◌≤◌, true, length, drop};
ghost use Rattle.asn1_bits.specs.Bits.{bits};
ghost use Rattle.asn1_schema.specs.CharactersOfParts.{numbers_in};
ghost use Rattle.asn1_x691_fields.specs.Characters.{IsAlphabet, AreCodes, rows_of};
ghost use Rattle.asn1_x691_writers.specs.Copied.{AreCopied, HaveCodesOf};

use asn1_schema::{Characters, Codes, Range, Rows};
use asn1_x691_fields::{Alphabet, are_codes, are_quick_codes, ranges_in};

/// Returns whether two tables have the same ranges in the same order.
fn are_same(some: &[Range], others: &[Range]) -> bool
    ensures { result ≡ true → some.now ≡ others.now }
{
    some == others
}

/// Returns whether the characters of a part have the codes of an alphabet, of at most 57 bits.
pub(crate) fn are_copied(
    alphabet: &Alphabet<'_>,
    source: &[u8],
    table: &[Range],
    text: Characters,
) -> bool
    requires source { 8 * length source.now < 2 ^ 64 }
    requires is { IsAlphabet alphabet.now }
    ensures { result ≡ true → AreCopied alphabet.now source.now table.now text }
{
    if text.width != alphabet.width || alphabet.width > 57 {
        return false;
    }
    let are_alike = match text.codes {
        Codes::Numbers => alphabet.are_numbers,
        Codes::Indices(rows) => {
            !alphabet.are_numbers && are_same(ranges_in(table, rows), alphabet.ranges)
        }
    };
    if !are_alike {
        return false;
    }
    let size = 8 * source.len();
    match alphabet.width.checked_mul(text.count) {
        Some(bits) if text.at <= size && bits <= size - text.at => {
            are_codes(source, alphabet, text.at, text.count)
        }
        _ => false,
    }
}

/// Returns whether the characters of a part have the codes of an alphabet, if it is quick to tell, and
/// otherwise `false`. The ranges of the alphabet are rows of the table.
#[inline(always)]
pub(crate) fn are_quickly_copied(
    alphabet: &Alphabet<'_>,
    rows: Rows,
    source: &[u8],
    table: &[Range],
    text: Characters,
) -> bool
    requires source { 8 * length source.now < 2 ^ 64 }
    requires is { IsAlphabet alphabet.now }
    requires rows { alphabet.now.ranges.now ≡ rows_of table.now rows }
    ensures { result ≡ true → AreCopied alphabet.now source.now table.now text }
{
    text.width == alphabet.width
        && have_codes_of(alphabet, rows, table, text.codes)
        && are_quick_codes_in(alphabet, source, text)
}

/// Returns whether codes tell the characters that those of an alphabet tell, if it is quick to tell.
#[inline(always)]
pub(crate) fn have_codes_of(
    alphabet: &Alphabet<'_>,
    rows: Rows,
    table: &[Range],
    codes: Codes,
) -> bool
    requires { alphabet.now.ranges.now ≡ rows_of table.now rows }
    ensures { result ≡ true → HaveCodesOf alphabet.now table.now codes }
{
    match codes {
        Codes::Numbers => alphabet.are_numbers,
        Codes::Indices(of) => !alphabet.are_numbers && of == rows,
    }
}

/// Returns whether the codes of a part are in the source, and are all of characters of an alphabet, if it
/// is quick to tell.
#[inline(always)]
fn are_quick_codes_in(alphabet: &Alphabet<'_>, source: &[u8], text: Characters) -> bool
    requires source { 8 * length source.now < 2 ^ 64 }
    requires is { IsAlphabet alphabet.now }
    ensures inside { result ≡ true → text.at + alphabet.now.width * text.count ≤ 8 * length source.now }
    ensures codes { result ≡ true → AreCodes alphabet.now (numbers_in alphabet.now.width text.count (drop text.at (bits source.now))) }
{
    let size = 8 * source.len();
    match alphabet.width.checked_mul(text.count) {
        Some(bits) if text.at <= size && bits <= size - text.at => {
            are_quick_codes(source, alphabet, text.at, text.count)
        }
        _ => false,
    }
}

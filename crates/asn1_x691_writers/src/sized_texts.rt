//! Strings of characters by their size constraint (X.691 30.4 to 30.5.7).

ghost use Rattle.std.specs.Prelude.{◌≡◌, ℕ, ◌+◌, ◌*◌, ◌^◌, ◌<◌, ◌≤◌, true, length};
ghost use Rattle.asn1_bits.specs.Bits.{bits};
ghost use Rattle.asn1_schema.specs.CharactersOfParts.{characters_of};
ghost use Rattle.asn1_x691.specs.Characters.{sized_characters, text_of, added_text};
ghost use Rattle.asn1_x691.specs.Fragments.{most_fragments};
ghost use Rattle.asn1_x691.specs.Strings.{IsOfRoot, IsAddedSize};
ghost use Rattle.asn1_x691_fields.specs.Characters.{IsAlphabet};
ghost use Rattle.asn1_x691_writers.specs.Copied.{AreCopied};
ghost use Rattle.asn1_x691_writers.specs.Texts.{AreIn};
ghost use Rattle.asn1_x691_writers.specs.Written.{IsWritten};

use crate::characters::put_characters;
use crate::heads::put_start;
use crate::long_texts::put_long_text;
use crate::numbers::put_constrained;
use asn1_schema::{Characters, Length, Range};
use asn1_x691_fields::{Alphabet, is_inline_text};

/// Writes characters that are in the alphabet, of a number of the root. Returns the index after
/// them.
#[inline(always)]
pub(crate) fn put_text_of(
    octets: &mut [u8],
    at: usize,
    alphabet: &Alphabet<'_>,
    size: Length,
    source: &[u8],
    table: &[Range],
    text: Characters,
    is_copied: bool,
) -> usize
    requires size { 8 * length octets.old < 2 ^ 64 }
    requires source { 8 * length source.now < 2 ^ 64 }
    requires is { IsAlphabet alphabet.now }
    requires within { AreIn alphabet.now.ranges.now (characters_of table.now (bits source.now) text) }
    requires root { IsOfRoot size text.count }
    requires copied { is_copied ≡ true → AreCopied alphabet.now source.now table.now text }
    ensures { (node : ℕ) → IsWritten alphabet.now.is_aligned (text_of most_fragments alphabet.now.is_aligned alphabet.now.ranges.now node size)
        (characters_of table.now (bits source.now) text) octets.old at octets.new result }
{
    match size {
        Length::AtLeast { least: _ } => put_long_text(
            octets, at, alphabet, source, table, text, is_copied,
        ),
        Length::Between { least, range } => {
            let after = put_constrained(
                octets,
                at,
                alphabet.is_aligned,
                range as u128,
                (text.count - least as usize) as u128,
            );
            put_sized_characters(
                octets,
                after,
                alphabet,
                least as usize,
                range as usize,
                source,
                table,
                text,
                is_copied,
            )
        }
    }
}

/// Writes fewer than 16,384 characters of a part that have the codes of an alphabet, of a number of the
/// root. Returns the index after them.
#[inline(always)]
pub(crate) fn put_copied_text(
    octets: &mut [u8],
    at: usize,
    alphabet: &Alphabet<'_>,
    size: Length,
    source: &[u8],
    table: &[Range],
    text: Characters,
) -> usize
    requires size { 8 * length octets.old < 2 ^ 64 }
    requires source { 8 * length source.now < 2 ^ 64 }
    requires is { IsAlphabet alphabet.now }
    requires few { text.count < 16384 }
    requires copied { AreCopied alphabet.now source.now table.now text }
    requires root { IsOfRoot size text.count }
    ensures { (node : ℕ) → IsWritten alphabet.now.is_aligned (text_of most_fragments alphabet.now.is_aligned alphabet.now.ranges.now node size)
        (characters_of table.now (bits source.now) text) octets.old at octets.new result }
{
    put_text_of(octets, at, alphabet, size, source, table, text, true)
}

/// Writes characters that are in the alphabet, of a number that is none of the root (X.691 30.4).
/// Returns the index after them.
pub(crate) fn put_added_text(
    octets: &mut [u8],
    at: usize,
    alphabet: &Alphabet<'_>,
    source: &[u8],
    table: &[Range],
    text: Characters,
    is_copied: bool,
) -> usize
    requires size { 8 * length octets.old < 2 ^ 64 }
    requires source { 8 * length source.now < 2 ^ 64 }
    requires is { IsAlphabet alphabet.now }
    requires within { AreIn alphabet.now.ranges.now (characters_of table.now (bits source.now) text) }
    requires copied { is_copied ≡ true → AreCopied alphabet.now source.now table.now text }
    ensures { (size : Length) (node : ℕ) → IsAddedSize size text.count
        → IsWritten alphabet.now.is_aligned (added_text most_fragments alphabet.now.is_aligned alphabet.now.ranges.now node size)
        (characters_of table.now (bits source.now) text) octets.old at octets.new result }
{
    put_long_text(octets, at, alphabet, source, table, text, is_copied)
}

/// Writes the characters, which begin at an octet in the ALIGNED variant, unless there are none
/// or they have few bits (X.691 30.5.6, 30.5.7).
#[inline(always)]
fn put_sized_characters(
    octets: &mut [u8],
    at: usize,
    alphabet: &Alphabet<'_>,
    least: usize,
    range: usize,
    source: &[u8],
    table: &[Range],
    text: Characters,
    is_copied: bool,
) -> usize
    requires size { 8 * length octets.old < 2 ^ 64 }
    requires source { 8 * length source.now < 2 ^ 64 }
    requires is { IsAlphabet alphabet.now }
    requires within { AreIn alphabet.now.ranges.now (characters_of table.now (bits source.now) text) }
    requires copied { is_copied ≡ true → AreCopied alphabet.now source.now table.now text }
    ensures { (node : ℕ) → IsWritten alphabet.now.is_aligned
        (sized_characters alphabet.now.is_aligned alphabet.now.ranges.now node least range text.count)
        (characters_of table.now (bits source.now) text) octets.old at octets.new result }
{
    if is_inline_text(alphabet.width, least, range, text.count) {
        return put_characters(octets, at, alphabet, source, table, text, is_copied);
    }
    let start = put_start(octets, at, alphabet.is_aligned);
    put_characters(octets, start, alphabet, source, table, text, is_copied)
}

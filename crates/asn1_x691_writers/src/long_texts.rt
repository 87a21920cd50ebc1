//! Characters after their number, in fragments where there are many (X.691 11.9.3.5 to 11.9.3.8).

ghost use Rattle.std.specs.Prelude.{◌≡◌, ℕ, suc, ◌++◌, ◌+◌, ◌*◌, ◌^◌, ◌<◌, ◌≤◌, true, length};
ghost use Rattle.asn1_bits.specs.Bits.{bits};
ghost use Rattle.asn1_schema.specs.CharactersOfParts.{characters_of};
ghost use Rattle.asn1_x691.specs.Characters.{characters};
ghost use Rattle.asn1_x691.specs.Fragments.{most_fragments, all_units};
ghost use Rattle.asn1_x691_fields.specs.Characters.{IsAlphabet};
ghost use Rattle.asn1_x691_writers.specs.Copied.{AreCopied};
ghost use Rattle.asn1_x691_writers.specs.Texts.{AreIn};
ghost use Rattle.asn1_x691_writers.specs.Units.{AreUnitsOf};
ghost use Rattle.asn1_x691_writers.specs.Written.{IsWritten};

use crate::bits::put_number;
use crate::characters::{put_characters, split_characters};
use crate::copied::are_copied;
use crate::heads::put_start;
use crate::lengths::put_length_octets;
use asn1_schema::{Characters, Range};
use asn1_x691_fields::Alphabet;

/// Writes the characters of a part, which are in the alphabet, after their number. Returns the index
/// after them.
#[inline(always)]
pub(crate) fn put_long_text(
    octets: &mut [u8],
    at: usize,
    alphabet: &Alphabet<'_>,
    source: &[u8],
    table: &[Range],
    text: Characters,
    is_copied: bool,
) -> usize
    requires size { 8 * length octets.old < 2 ^ 64 }
    requires source { 8 * length source.now < 2 ^ 64 }
    requires is { IsAlphabet alphabet.now }
    requires within { AreIn alphabet.now.ranges.now (characters_of table.now (bits source.now) text) }
    requires copied { is_copied ≡ true → AreCopied alphabet.now source.now table.now text }
    ensures { (node : ℕ) → IsWritten alphabet.now.is_aligned (all_units (characters alphabet.now.is_aligned alphabet.now.ranges.now node)
        (λ a b. a ++ b) alphabet.now.is_aligned node most_fragments) (text.count, characters_of table.now (bits source.now) text)
        octets.old at octets.new result }
{
    if text.count < 16384 {
        return put_few_characters(octets, at, alphabet, source, table, text, is_copied);
    }
    put_text_fragments(octets, at, alphabet, source, table, text)
}

/// Writes fewer than 16,384 characters after their number.
#[inline(always)]
fn put_few_characters(
    octets: &mut [u8],
    at: usize,
    alphabet: &Alphabet<'_>,
    source: &[u8],
    table: &[Range],
    text: Characters,
    is_copied: bool,
) -> usize
    requires size { 8 * length octets.old < 2 ^ 64 }
    requires source { 8 * length source.now < 2 ^ 64 }
    requires is { IsAlphabet alphabet.now }
    requires within { AreIn alphabet.now.ranges.now (characters_of table.now (bits source.now) text) }
    requires few { text.count < 16384 }
    requires copied { is_copied ≡ true → AreCopied alphabet.now source.now table.now text }
    ensures { (node : ℕ) → AreUnitsOf (characters alphabet.now.is_aligned alphabet.now.ranges.now node) alphabet.now.is_aligned node text.count
        (characters_of table.now (bits source.now) text) octets.old at octets.new result }
{
    let start = put_start(octets, at, alphabet.is_aligned);
    let after = put_length_octets(octets, start, text.count);
    put_characters(octets, after, alphabet, source, table, text, is_copied)
}

/// Writes a fragment of `times` times 16,384 characters (X.691 11.9.3.8).
fn put_text_fragment(
    octets: &mut [u8],
    at: usize,
    alphabet: &Alphabet<'_>,
    source: &[u8],
    table: &[Range],
    text: Characters,
    times: usize,
) -> usize
    requires size { 8 * length octets.old < 2 ^ 64 }
    requires source { 8 * length source.now < 2 ^ 64 }
    requires is { IsAlphabet alphabet.now }
    requires within { AreIn alphabet.now.ranges.now (characters_of table.now (bits source.now) text) }
    requires some { 1 ≤ times }
    requires few { times ≤ 4 }
    requires count { text.count ≡ 16384 * times }
    ensures { (node : ℕ) → AreUnitsOf (characters alphabet.now.is_aligned alphabet.now.ranges.now node) alphabet.now.is_aligned node text.count
        (characters_of table.now (bits source.now) text) octets.old at octets.new result }
{
    let start = put_start(octets, at, alphabet.is_aligned);
    let after = put_number(octets, start, 192 + times as u64, 8);
    let is_copied = are_copied(alphabet, source, table, text);
    put_characters(octets, after, alphabet, source, table, text, is_copied)
}

/// Writes the last characters, of which there are fewer than 65,536: a fragment, if need be, and
/// fewer than 16,384 characters.
fn put_last_characters(
    octets: &mut [u8],
    at: usize,
    alphabet: &Alphabet<'_>,
    source: &[u8],
    table: &[Range],
    text: Characters,
) -> usize
    requires size { 8 * length octets.old < 2 ^ 64 }
    requires source { 8 * length source.now < 2 ^ 64 }
    requires is { IsAlphabet alphabet.now }
    requires within { AreIn alphabet.now.ranges.now (characters_of table.now (bits source.now) text) }
    requires few { text.count < 65536 }
    ensures { (node more : ℕ) → IsWritten alphabet.now.is_aligned (all_units (characters alphabet.now.is_aligned alphabet.now.ranges.now node)
        (λ a b. a ++ b) alphabet.now.is_aligned node (suc more)) (text.count, characters_of table.now (bits source.now) text)
        octets.old at octets.new result }
{
    let times = text.count / 16384;
    if times == 0 {
        let is_copied = are_copied(alphabet, source, table, text);
        return put_few_characters(octets, at, alphabet, source, table, text, is_copied);
    }
    let (first, others) = split_characters(text, 16384 * times);
    let after = put_text_fragment(octets, at, alphabet, source, table, first, times);
    let is_copied = are_copied(alphabet, source, table, others);
    put_few_characters(octets, after, alphabet, source, table, others, is_copied)
}

/// Writes 16,384 characters and more, the largest fragments first.
#[cold]
#[inline(never)]
fn put_text_fragments(
    octets: &mut [u8],
    at: usize,
    alphabet: &Alphabet<'_>,
    source: &[u8],
    table: &[Range],
    text: Characters,
) -> usize
    requires size { 8 * length octets.old < 2 ^ 64 }
    requires source { 8 * length source.now < 2 ^ 64 }
    requires is { IsAlphabet alphabet.now }
    requires within { AreIn alphabet.now.ranges.now (characters_of table.now (bits source.now) text) }
    ensures { (node : ℕ) → IsWritten alphabet.now.is_aligned (all_units (characters alphabet.now.is_aligned alphabet.now.ranges.now node)
        (λ a b. a ++ b) alphabet.now.is_aligned node most_fragments) (text.count, characters_of table.now (bits source.now) text)
        octets.old at octets.new result }
{
    let mut next = at;
    let mut left = text;
    while left.count >= 65536 {
        let (first, others) = split_characters(left, 65536);
        next = put_text_fragment(octets, next, alphabet, source, table, first, 4);
        left = others;
    }
    put_last_characters(octets, next, alphabet, source, table, left)
}

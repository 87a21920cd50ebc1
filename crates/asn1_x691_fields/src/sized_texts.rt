//! Strings of characters by their size constraint (X.691 30.4 to 30.5.7).

ghost use Rattle.std.specs.Prelude.{◌≡◌, ◌≤◌, ◌<◌, ◌^◌, ◌*◌, ◌+◌, ◌++◌, true, false, length, IfSome};
ghost use Rattle.asn1_bits.specs.Bits.{bits};
ghost use Rattle.asn1_schema.specs.declared.tables.Length.TheVariants as size;
ghost use Rattle.asn1_x691.specs.Characters.{characters, sized_characters, sized_text, text_of, added_text, IsInlineText, IsOnOctetText};
ghost use Rattle.asn1_x691.specs.Fragments.{all_units};
ghost use Rattle.asn1_x691_fields.specs.Outcomes.{IsWithin, IsOnward, IsRead, IsPlaced};
ghost use Rattle.asn1_x691_fields.specs.Characters.{IsAlphabet, characters_at};

use crate::alphabets::Alphabet;
use crate::characters::next_characters;
use crate::heads::next_start;
use crate::numbers::next_constrained;
use crate::sizes::is_of_root;
use crate::state::{State, fail};
use crate::strings::next_count;
use asn1_schema::Length;
use asn1_x691::FaultKind;

/// Reads characters of a number of the root. Returns their number, and the index of the first bit.
#[inline(always)]
pub(crate) fn next_text_of(
    octets: &[u8],
    alphabet: &Alphabet<'_>,
    size: Length,
    node: usize,
    state: &mut State,
) -> Option<(usize, usize)>
    requires size { 8 * length octets.now < 2 ^ 64 }
    requires alphabet { IsAlphabet alphabet.now }
    requires within { IsWithin (bits octets.now) state.old }
    requires placed { IsPlaced alphabet.now.is_aligned state.old }
    ensures onward { IsOnward (bits octets.now) state.old state.new }
    ensures read { IsRead (text_of 0 alphabet.now.is_aligned alphabet.now.ranges.now node size)
        (λ p. characters_at alphabet.now (bits octets.now) p.1 p.0) (bits octets.now) state.old state.new result }
{
    match size {
        Length::AtLeast { least } => next_long_text(octets, alphabet, least, node, state),
        Length::Between { least, range } => {
            next_sized_text(
                octets,
                alphabet,
                least as usize,
                range as usize,
                node,
                state,
            )
        }
    }
}

/// Reads the number of the characters, which has no fragment, and the characters. Returns the number, and
/// the index of the first bit.
#[inline(always)]
fn next_counted_characters(
    octets: &[u8],
    alphabet: &Alphabet<'_>,
    node: usize,
    state: &mut State,
) -> Option<(usize, usize)>
    requires size { 8 * length octets.now < 2 ^ 64 }
    requires alphabet { IsAlphabet alphabet.now }
    requires within { IsWithin (bits octets.now) state.old }
    requires placed { IsPlaced alphabet.now.is_aligned state.old }
    ensures onward { IsOnward (bits octets.now) state.old state.new }
    ensures inside { IfSome result (λ p. p.1 + alphabet.now.width * p.0 ≤ 8 * length octets.now) }
    ensures read { IsRead (all_units (characters alphabet.now.is_aligned alphabet.now.ranges.now node) (λ a b. a ++ b)
        alphabet.now.is_aligned node 0) (λ p. (p.0, characters_at alphabet.now (bits octets.now) p.1 p.0))
        (bits octets.now) state.old state.new result }
{
    let count = next_count(octets, alphabet.is_aligned, node, state)?;
    if count >= 16384 {
        fail(state, node, FaultKind::Unsupported);
        return None;
    }
    let at = next_characters(octets, alphabet, count, node, state)?;
    Some((count, at))
}

/// Reads characters after their number, which is not below the least (X.691 30.5.7).
#[inline(always)]
pub(crate) fn next_long_text(
    octets: &[u8],
    alphabet: &Alphabet<'_>,
    least: usize,
    node: usize,
    state: &mut State,
) -> Option<(usize, usize)>
    requires size { 8 * length octets.now < 2 ^ 64 }
    requires alphabet { IsAlphabet alphabet.now }
    requires within { IsWithin (bits octets.now) state.old }
    requires placed { IsPlaced alphabet.now.is_aligned state.old }
    ensures onward { IsOnward (bits octets.now) state.old state.new }
    ensures inside { IfSome result (λ p. p.1 + alphabet.now.width * p.0 ≤ 8 * length octets.now) }
    ensures read { IsRead (text_of 0 alphabet.now.is_aligned alphabet.now.ranges.now node (size.AtLeast least))
        (λ p. characters_at alphabet.now (bits octets.now) p.1 p.0) (bits octets.now) state.old state.new result }
{
    let (count, at) = next_counted_characters(octets, alphabet, node, state)?;
    if count < least {
        fail(state, node, FaultKind::BelowLeast);
        return None;
    }
    Some((count, at))
}

/// Reads characters of a number that is none of the root (X.691 30.4).
pub(crate) fn next_added_text(
    octets: &[u8],
    alphabet: &Alphabet<'_>,
    size: Length,
    node: usize,
    state: &mut State,
) -> Option<(usize, usize)>
    requires size { 8 * length octets.now < 2 ^ 64 }
    requires alphabet { IsAlphabet alphabet.now }
    requires within { IsWithin (bits octets.now) state.old }
    requires placed { IsPlaced alphabet.now.is_aligned state.old }
    ensures onward { IsOnward (bits octets.now) state.old state.new }
    ensures read { IsRead (added_text 0 alphabet.now.is_aligned alphabet.now.ranges.now node size)
        (λ p. characters_at alphabet.now (bits octets.now) p.1 p.0) (bits octets.now) state.old state.new result }
{
    let (count, at) = next_counted_characters(octets, alphabet, node, state)?;
    if is_of_root(size, count) {
        fail(state, node, FaultKind::InRoot);
        return None;
    }
    Some((count, at))
}

/// Reads characters whose number has an upper bound: where it is not fixed, it precedes them
/// (X.691 30.5.6, 30.5.7).
#[inline(always)]
fn next_sized_text(
    octets: &[u8],
    alphabet: &Alphabet<'_>,
    least: usize,
    range: usize,
    node: usize,
    state: &mut State,
) -> Option<(usize, usize)>
    requires size { 8 * length octets.now < 2 ^ 64 }
    requires counted { least + range < 2 ^ 64 }
    requires alphabet { IsAlphabet alphabet.now }
    requires within { IsWithin (bits octets.now) state.old }
    requires placed { IsPlaced alphabet.now.is_aligned state.old }
    ensures onward { IsOnward (bits octets.now) state.old state.new }
    ensures read { IsRead (sized_text alphabet.now.is_aligned alphabet.now.ranges.now node least range)
        (λ p. characters_at alphabet.now (bits octets.now) p.1 p.0) (bits octets.now) state.old state.new result }
{
    let more = next_constrained(octets, alphabet.is_aligned, range as u128, node, state)?;
    let count = least + more as usize;
    let at = next_characters_of(octets, alphabet, least, range, count, node, state)?;
    Some((count, at))
}

/// Reads `count` characters. They begin at an octet in the ALIGNED variant, unless there are none or
/// they have few bits (X.691 30.5.6, 30.5.7).
#[inline(always)]
fn next_characters_of(
    octets: &[u8],
    alphabet: &Alphabet<'_>,
    least: usize,
    range: usize,
    count: usize,
    node: usize,
    state: &mut State,
) -> Option<usize>
    requires size { 8 * length octets.now < 2 ^ 64 }
    requires alphabet { IsAlphabet alphabet.now }
    requires within { IsWithin (bits octets.now) state.old }
    requires placed { IsPlaced alphabet.now.is_aligned state.old }
    ensures onward { IsOnward (bits octets.now) state.old state.new }
    ensures read { IsRead (sized_characters alphabet.now.is_aligned alphabet.now.ranges.now node least range count)
        (λ at. characters_at alphabet.now (bits octets.now) at count) (bits octets.now) state.old state.new result }
{
    if !alphabet.is_aligned {
        return next_characters(octets, alphabet, count, node, state);
    }
    if is_inline_text(alphabet.width, least, range, count) {
        return next_characters(octets, alphabet, count, node, state);
    }
    next_start(octets, alphabet.is_aligned, node, state)?;
    next_characters(octets, alphabet, count, node, state)
}

/// Returns whether `count` characters of `width` bits, of a size from `least` to `least + range`, begin
/// at the next bit in the ALIGNED variant, and not at the next octet (X.691 30.5.6, 30.5.7).
#[inline(always)]
pub fn is_inline_text(width: usize, least: usize, range: usize, count: usize) -> bool
    requires width { width ≤ 128 }
    ensures is { result ≡ true → IsInlineText width least range count }
    ensures not { result ≡ false → IsOnOctetText width least range count }
{
    if count == 0 {
        return true;
    }
    let most = width as u128 * (least as u128 + range as u128);
    if range == 0 {
        return most <= 16;
    }
    most < 16
}

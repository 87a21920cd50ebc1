//! Words of bits that are placed in a target, at any index of its octets.

ghost use Rattle.std.specs.Prelude.{◌≡◌, ◌+◌, ◌-◌, ◌*◌, ◌/◌, ◌%◌, ◌^◌, ◌<◌, ◌≤◌, length, take, drop};
ghost use Rattle.std.specs.Int.{div_ceil};
ghost use Rattle.asn1_bits.specs.Bits.{bits, digits, ored, IsZeroFrom};

use crate::reads::load;
use crate::target::Target;
use crate::turns::Turns;

/// Returns the number of the lowest `width` digits of the word.
#[inline(always)]
pub(crate) fn lowest(word: u64, width: usize) -> u64
    requires { width ≤ 64 }
    ensures digits { digits result width ≡ digits word width }
    ensures below { result < 2 ^ width }
{
    if width < 64 {
        word & ((1 << width) - 1)
    } else {
        word
    }
}

/// Returns the number of the lowest `width` digits of a number of up to 128.
#[inline(always)]
pub(crate) fn lowest_wide(value: u128, width: usize) -> u128
    requires { width ≤ 128 }
    ensures digits { digits result width ≡ digits value width }
    ensures below { result < 2 ^ width }
{
    if width <= 57 {
        u128::from(lowest((value & 0xFFFF_FFFF_FFFF_FFFF) as u64, width))
    } else if width < 128 {
        value & ((1 << width) - 1)
    } else {
        value
    }
}

/// Writes a number of `width` digits over zeros from bit `position` on. They lie within eight
/// octets of the slice. It counts no turn.
#[inline(always)]
pub(crate) fn put_word(dst: &mut [u8], position: usize, word: u64, width: usize)
    requires some { 0 < width }
    requires width { position % 8 + width ≤ 64 }
    requires below { word < 2 ^ width }
    requires eight { position / 8 + 8 ≤ length dst.old }
    requires zeros { IsZeroFrom position (bits dst.old) }
    ensures { bits dst.new ≡ ored (bits dst.old) position (digits word width) }
{
    Target::new(dst).put_word(position, word, width, &mut Turns::new());
}

/// Writes a number of at most 57 digits over zeros from bit `position` on. It counts no turn.
#[inline(always)]
pub(crate) fn put_few(dst: &mut [u8], position: usize, word: u64, width: usize)
    requires width { width ≤ 57 }
    requires below { word < 2 ^ width }
    requires within { position + width ≤ 8 * length dst.old }
    requires zeros { IsZeroFrom position (bits dst.old) }
    ensures { bits dst.new ≡ ored (bits dst.old) position (digits word width) }
{
    if width == 0 {
        return;
    }
    // The right side does not depend on the position, so a loop computes it once.
    if position / 8 < dst.len().saturating_sub(7) {
        put_word(dst, position, word, width);
    } else {
        Target::new(dst).or_short(position, word, width, &mut Turns::new());
    }
}

/// Writes a number of up to 128 digits over zeros from bit `position` on, and ticks once for each
/// 64 of them.
// One line, since the clause `each_turn_places` of `put_in` can't see a store that would be
// here.
#[inline(always)]
pub(crate) fn put_digits(
    dst: &mut [u8],
    position: usize,
    number: u128,
    width: usize,
    turns: &mut Turns,
)
    requires width { width ≤ 128 }
    requires below { number < 2 ^ width }
    requires fits { position + width < 2 ^ 64 }
    requires within { position + width ≤ 8 * length dst.old }
    requires zeros { IsZeroFrom position (bits dst.old) }
    ensures bits { bits dst.new ≡ ored (bits dst.old) position (digits number width) }
    ensures turns { turns.new.count ≡ turns.old.count + div_ceil width 64 }
{
    put_in(&mut Target::new(dst), position, number, width, turns);
}

/// Does the counted work of `put_digits`.
#[inline(always)]
fn put_in(dst: &mut Target<'_>, position: usize, number: u128, width: usize, turns: &mut Turns)
    requires width { width ≤ 128 }
    requires below { number < 2 ^ width }
    requires fits { position + width < 2 ^ 64 }
    requires within { position + width ≤ 8 * length dst.old.octets.now }
    requires zeros { IsZeroFrom position (bits dst.old.octets.now) }
    ensures bits { bits dst.new.octets.now
        ≡ ored (bits dst.old.octets.now) position (digits number width) }
    ensures same_reference { dst.new.octets.ghost_name ≡ dst.old.octets.ghost_name }
    ensures length { length dst.new.octets.now ≡ length dst.old.octets.now }
    ensures each_turn_places { turns.new.count + dst.old.placed.count
        ≡ turns.old.count + dst.new.placed.count }
    ensures turns { turns.new.count ≡ turns.old.count + div_ceil width 64 }
{
    if width <= 57 {
        // So few digits fit eight octets, whichever bit of the first they begin at.
        let low = (number & 0xFFFF_FFFF_FFFF_FFFF) as u64;
        if width == 0 {
            return;
        }
        if position / 8 + 8 > dst.octet_count() {
            dst.or_short(position, low, width, turns);
        } else {
            dst.put_word(position, low, width, turns);
        }
    } else if position % 8 + width <= 128 && position / 8 + 16 <= dst.octet_count() {
        dst.put_pair(position, number, width, turns);
    } else {
        put_apart(dst, position, number, width, turns);
    }
}

/// Does what `put_digits` does for digits that reach the last octets of the slice, or a seventeenth
/// octet: words are ORed in. Not inlined.
#[inline(never)]
fn put_apart(dst: &mut Target<'_>, position: usize, number: u128, width: usize, turns: &mut Turns)
    requires some { 0 < width }
    requires width { width ≤ 128 }
    requires fits { position + width < 2 ^ 64 }
    requires within { position + width ≤ 8 * length dst.old.octets.now }
    ensures bits { bits dst.new.octets.now
        ≡ ored (bits dst.old.octets.now) position (digits number width) }
    ensures same_reference { dst.new.octets.ghost_name ≡ dst.old.octets.ghost_name }
    ensures length { length dst.new.octets.now ≡ length dst.old.octets.now }
    ensures each_turn_places { turns.new.count + dst.old.placed.count
        ≡ turns.old.count + dst.new.placed.count }
    ensures turns { turns.new.count ≡ turns.old.count + div_ceil width 64 }
{
    let low = (number & 0xFFFF_FFFF_FFFF_FFFF) as u64;
    if width <= 64 {
        dst.or_word(position, low, width, turns);
    } else {
        let front = width - 64;
        dst.or_word(position, (number >> 64) as u64, front, turns);
        dst.or_word(position + front, low, 64, turns);
    }
}

/// ORs `count` words of the octets of `src` into `dst` from octet `first` on. Ticks once for each
/// word.
pub(crate) fn or_words(
    dst: &mut Target<'_>,
    first: usize,
    src: &[u8],
    count: usize,
    turns: &mut Turns,
)
    requires room { first + 8 * count ≤ length dst.old.octets.now }
    requires source { 8 * count ≤ length src.now }
    ensures bits { bits dst.new.octets.now
        ≡ ored (bits dst.old.octets.now) (8 * first) (take (64 * count) (bits src.now)) }
    ensures same_reference { dst.new.octets.ghost_name ≡ dst.old.octets.ghost_name }
    ensures length { length dst.new.octets.now ≡ length dst.old.octets.now }
    ensures each_turn_places { turns.new.count + dst.old.placed.count
        ≡ turns.old.count + dst.new.placed.count }
    ensures turns { turns.new.count ≡ turns.old.count + count }
{
    for k in 0..count {
        dst.or_eight(first + 8 * k, src, 8 * k, turns);
    }
}

/// Does what `or_words` does for bits that begin at bit `shift` of the first word: each word is made
/// of two.
pub(crate) fn or_shifted_words(
    dst: &mut Target<'_>,
    first: usize,
    src: &[u8],
    shift: usize,
    count: usize,
    turns: &mut Turns,
)
    requires shift { 0 < shift }
    requires word { shift < 64 }
    requires room { first + 8 * count ≤ length dst.old.octets.now }
    requires source { 8 * count + 8 ≤ length src.now }
    ensures bits { bits dst.new.octets.now
        ≡ ored (bits dst.old.octets.now) (8 * first)
        (take (64 * count) (drop shift (bits src.now))) }
    ensures same_reference { dst.new.octets.ghost_name ≡ dst.old.octets.ghost_name }
    ensures length { length dst.new.octets.now ≡ length dst.old.octets.now }
    ensures each_turn_places { turns.new.count + dst.old.placed.count
        ≡ turns.old.count + dst.new.placed.count }
    ensures turns { turns.new.count ≡ turns.old.count + count }
{
    if count < 32 {
        or_joined_words(dst, first, src, shift, 64 - shift, count, turns);
    } else {
        *dst = or_many_words(dst.take(), first, src, shift, count, turns);
    }
}

/// Does what `or_shifted_words` does for many words, which are joined in vectors of two. Not inlined
/// and cold, so that the path for few words keeps its registers.
#[cold]
#[inline(never)]
fn or_many_words<'a>(
    target: Target<'a>,
    first: usize,
    src: &[u8],
    shift: usize,
    count: usize,
    turns: &mut Turns,
) -> Target<'a>
    requires shift { 0 < shift }
    requires word { shift < 64 }
    requires room { first + 8 * count ≤ length target.octets.now }
    requires source { 8 * count + 8 ≤ length src.now }
    ensures bits { bits result.octets.now
        ≡ ored (bits target.entry.octets.now) (8 * first)
        (take (64 * count) (drop shift (bits src.now))) }
    ensures same_reference { result.octets.ghost_name ≡ target.entry.octets.ghost_name }
    ensures length { length result.octets.now ≡ length target.entry.octets.now }
    ensures each_turn_places { turns.new.count + target.entry.placed.count
        ≡ turns.old.count + result.placed.count }
    ensures turns { turns.new.count ≡ turns.old.count + count }
{
    let mut own = target;
    or_joined_words(
        &mut own,
        first,
        src,
        shift,
        opaque_complement(shift),
        count,
        turns,
    );
    own
}

/// Runs the loop of `or_shifted_words`. `back` is what `shift` leaves of 64.
#[inline(always)]
fn or_joined_words(
    dst: &mut Target<'_>,
    first: usize,
    src: &[u8],
    shift: usize,
    back: usize,
    count: usize,
    turns: &mut Turns,
)
    requires shift { 0 < shift }
    requires word { shift < 64 }
    requires back { back ≡ 64 - shift }
    requires room { first + 8 * count ≤ length dst.old.octets.now }
    requires source { 8 * count + 8 ≤ length src.now }
    ensures bits { bits dst.new.octets.now
        ≡ ored (bits dst.old.octets.now) (8 * first)
        (take (64 * count) (drop shift (bits src.now))) }
    ensures same_reference { dst.new.octets.ghost_name ≡ dst.old.octets.ghost_name }
    ensures length { length dst.new.octets.now ≡ length dst.old.octets.now }
    ensures each_turn_places { turns.new.count + dst.old.placed.count
        ≡ turns.old.count + dst.new.placed.count }
    ensures turns { turns.new.count ≡ turns.old.count + count }
{
    for k in 0..count {
        let word = (load(src, 8 * k) << shift) | (load(src, 8 * k + 8) >> back);
        dst.or_octets(first + 8 * k, word, turns);
    }
}

/// How many of a word's 64 digits are left after the first `shift`.
// Not inlined, to hide the difference from LLVM. It would make one shift of 128 bits (`shld`) of the
// two shifts of a word, and such shifts do not vectorize.
#[inline(never)]
fn opaque_complement(shift: usize) -> usize
    requires { shift < 64 }
    ensures { result ≡ 64 - shift }
{
    64 - shift
}

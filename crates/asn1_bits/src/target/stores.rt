//! The stores of words into octets. They count nothing, and `Target` alone calls them.

ghost use Rattle.std.specs.Prelude.{◌≡◌, ◌+◌, ◌-◌, ◌*◌, ◌++◌, ◌/◌, ◌%◌, ◌≤◌, ◌<◌, ◌^◌, length, take, drop};
ghost use Rattle.std.specs.Int.{to_le_bytes, w64};
ghost use Rattle.asn1_bits.specs.Bits.{bits, digits, ored, overwritten, IsZeroFrom};

use crate::clear::clear_bits;
use crate::reads::{eight, load};

/// Returns eight octets from one of them on, as a word whose lowest octet is the first of them.
#[inline(always)]
fn load_native(octets: &[u8], first: usize) -> u64
    requires { first + 8 ≤ length octets.now }
    ensures { to_le_bytes w64 result ≡ take 8 (drop first octets.now) }
{
    u64::from_ne_bytes(eight(octets, first))
}

/// Writes eight octets over those from one of them on.
pub(super) fn store_octets(dst: &mut [u8], first: usize, octets: [u8; 8])
    requires { first + 8 ≤ length dst.old }
    ensures { dst.new ≡ take first dst.old ++ (octets ++ drop (first + 8) dst.old) }
{
    let (_, rest) = dst.split_at_mut(first);
    let (room, _) = rest.split_at_mut(8);
    // The room has eight octets, so no test is made.
    if let Some(target) = room.as_mut_array::<8>() {
        *target = octets;
    }
}

/// ORs eight octets of `src`, from octet `at` on, into those of `dst` from octet `first` on.
pub(super) fn or_eight(dst: &mut [u8], first: usize, src: &[u8], at: usize)
    requires room { first + 8 ≤ length dst.old }
    requires source { at + 8 ≤ length src.now }
    ensures { bits dst.new ≡ ored (bits dst.old) (8 * first) (bits (take 8 (drop at src.now))) }
{
    let word = load_native(dst, first) | load_native(src, at);
    store_octets(dst, first, word.to_ne_bytes());
}

/// ORs the digits of the word into the eight octets from one of them on.
pub(super) fn or_octets(dst: &mut [u8], first: usize, word: u64)
    requires { first + 8 ≤ length dst.old }
    ensures { bits dst.new ≡ ored (bits dst.old) (8 * first) (digits word 64) }
{
    or_eight(dst, first, &word.to_be_bytes(), 0);
}

/// ORs the lowest `width` digits of the word into the octets from bit `position` on.
#[inline(always)]
pub(super) fn or_word(dst: &mut [u8], position: usize, word: u64, width: usize)
    requires width { width ≤ 64 }
    requires within { position + width ≤ 8 * length dst.old }
    ensures { bits dst.new ≡ ored (bits dst.old) position (digits word width) }
{
    if width == 0 {
        return;
    }
    // All below uses this one shift, so that the compiler joins it with a shift of the read before.
    // The remainder changes nothing; it shows the compiler that the shift is below 64.
    let top = word << ((64 - width) % 64);
    if position / 8 + 8 > dst.len() {
        or_near_end(dst, position, top, width);
        return;
    }
    or_front_of(dst, position, word, width);
    let shift = position % 8;
    if shift + width > 64 {
        // The last digits lie in a ninth octet.
        let past = shift + width - 64;
        or_top(dst, position / 8 + 8, word, past, top << (64 - shift));
    }
}

/// Does what `or_word` does for the last octets of a slice: ORs the top `width` digits of a word.
/// Not inlined.
#[cold]
#[inline(never)]
fn or_near_end(dst: &mut [u8], position: usize, top: u64, width: usize)
    requires some { 0 < width }
    requires width { position % 8 + width ≤ 64 }
    requires within { position + width ≤ 8 * length dst.old }
    ensures { bits dst.new ≡ ored (bits dst.old) position (digits (top / 2 ^ (64 - width)) width) }
{
    or_short(dst, position, top >> (64 - width), width);
}

/// ORs those of the lowest `width` digits of the word in that lie in the first eight octets.
#[inline(always)]
fn or_front_of(dst: &mut [u8], position: usize, word: u64, width: usize)
    requires some { 0 < width }
    requires width { width ≤ 64 }
    requires eight { position / 8 + 8 ≤ length dst.old }
    ensures { let past = position % 8 + width - 64 in bits dst.new
        ≡ ored (bits dst.old) position (digits (word / 2 ^ past) (width - past)) }
{
    let moved = (word << ((64 - width) % 64)) >> (position % 8);
    or_octets(dst, position / 8, moved);
}

/// ORs the first digits of a word in, as many as reach the end of the eight octets from that of
/// `position` on.
#[inline(always)]
pub(super) fn or_upper(dst: &mut [u8], position: usize, word: u64)
    requires { position / 8 + 8 ≤ length dst.old }
    ensures { bits dst.new
        ≡ ored (bits dst.old) position (digits (word / 2 ^ (position % 8)) (64 - position % 8)) }
{
    or_octets(dst, position / 8, word >> (position % 8));
}

/// Slow path of `or_word` for the last octets of a slice: octet by octet. Not inlined.
#[cold]
#[inline(never)]
pub(super) fn or_short(dst: &mut [u8], position: usize, word: u64, width: usize)
    requires width { position % 8 + width ≤ 64 }
    requires within { position + width ≤ 8 * length dst.old }
    ensures { bits dst.new ≡ ored (bits dst.old) position (digits word width) }
{
    if width == 0 {
        return;
    }
    let first = position / 8;
    let shift = position % 8;
    let octets = ((word << (64 - width)) >> shift).to_be_bytes();
    let count = (shift + width).div_ceil(8);
    for k in 0..count {
        dst[first + k] |= octets[k];
    }
}

/// Writes eight octets from octet `position / 8` on. All bits from `position` on are zero, and the
/// word has no digit before that bit. Only the partial first octet is loaded. It is added after the
/// byte swap, since the bits do not overlap: consecutive pushes depend on one load and one add.
pub(super) fn add_octets(dst: &mut [u8], position: usize, word: u64)
    requires below { word < 2 ^ (64 - position % 8) }
    requires eight { position / 8 + 8 ≤ length dst.old }
    requires zeros { IsZeroFrom position (bits dst.old) }
    ensures { bits dst.new ≡ ored (bits dst.old) (8 * (position / 8)) (digits word 64) }
{
    let first = position / 8;
    let begun = u64::from(dst[first]);
    let turned = u64::from_le_bytes(word.to_be_bytes());
    store_octets(dst, first, (begun + turned).to_le_bytes());
}

/// Writes a number over zeros from bit `position` on. Its digits lie within sixteen octets of the
/// slice.
#[inline(always)]
pub(super) fn put_pair(dst: &mut [u8], position: usize, number: u128, width: usize)
    requires some { 0 < width }
    requires width { position % 8 + width ≤ 128 }
    requires below { number < 2 ^ width }
    requires sixteen { position / 8 + 16 ≤ length dst.old }
    requires zeros { IsZeroFrom position (bits dst.old) }
    ensures { bits dst.new ≡ ored (bits dst.old) position (digits number width) }
{
    let pair = number << (128 - width - position % 8);
    let low = (pair & 0xFFFF_FFFF_FFFF_FFFF) as u64;
    add_octets(dst, position, (pair >> 64) as u64);
    store_octets(dst, position / 8 + 8, low.to_be_bytes());
}

/// ORs the lowest `width` digits of the word in from the first bit of an octet on, of which there
/// are at most eight.
pub(super) fn or_front(dst: &mut [u8], octet: usize, word: u64, width: usize)
    requires width { width ≤ 8 }
    requires within { 8 * octet + width ≤ 8 * length dst.old }
    ensures { bits dst.new ≡ ored (bits dst.old) (8 * octet) (digits word width) }
{
    if width > 0 {
        or_top(dst, octet, word, width, word << (64 - width));
    }
}

/// Does what `or_front` does for at least one digit. `moved` has them as its first, and no others.
#[inline(always)]
fn or_top(dst: &mut [u8], octet: usize, word: u64, width: usize, moved: u64)
    requires some { 0 < width }
    requires width { width ≤ 8 }
    requires within { 8 * octet + width ≤ 8 * length dst.old }
    requires moved { moved ≡ word * 2 ^ (64 - width) % 2 ^ 64 }
    ensures { bits dst.new ≡ ored (bits dst.old) (8 * octet) (digits word width) }
{
    let octets = moved.to_be_bytes();
    dst[octet] |= octets[0];
}

/// Replaces `width` digits of the word, from digit `shift` on, by the lowest digits of another
/// word.
#[inline(always)]
fn replaced(old: u64, word: u64, shift: usize, width: usize) -> u64
    requires some { 0 < width }
    requires within { shift + width ≤ 64 }
    ensures { digits result 64 ≡ overwritten (digits old 64) shift (digits word width) }
{
    let there = ((old << shift) >> (64 - width)) << (64 - shift - width);
    let moved = (word << (64 - width)) >> shift;
    old - there + moved
}

/// Writes the lowest `width` digits of the word over the bits from bit `position` on: some digits,
/// in eight octets that exist.
#[inline(always)]
fn set_within_eight(dst: &mut [u8], position: usize, word: u64, width: usize)
    requires some { 0 < width }
    requires width { position % 8 + width ≤ 64 }
    requires eight { position / 8 + 8 ≤ length dst.old }
    ensures { bits dst.new ≡ overwritten (bits dst.old) position (digits word width) }
{
    let first = position / 8;
    let new = replaced(load(dst, first), word, position % 8, width);
    store_octets(dst, first, new.to_be_bytes());
}

/// Slow path of `set_near` for the last octets of a slice: it clears the bits first. Not inlined.
#[cold]
#[inline(never)]
fn set_short(dst: &mut [u8], position: usize, word: u64, width: usize)
    requires width { position % 8 + width ≤ 64 }
    requires within { position + width ≤ 8 * length dst.old }
    requires fits { position + width < 2 ^ 64 }
    ensures { bits dst.new ≡ overwritten (bits dst.old) position (digits word width) }
{
    clear_bits(dst, position, width);
    or_short(dst, position, word, width);
}

/// Does what `set_word` does for digits within eight octets.
#[inline(always)]
fn set_near(dst: &mut [u8], position: usize, word: u64, width: usize)
    requires width { position % 8 + width ≤ 64 }
    requires within { position + width ≤ 8 * length dst.old }
    requires fits { position + width < 2 ^ 64 }
    ensures { bits dst.new ≡ overwritten (bits dst.old) position (digits word width) }
{
    if width == 0 || dst.len() - position / 8 < 8 {
        set_short(dst, position, word, width);
    } else {
        set_within_eight(dst, position, word, width);
    }
}

/// Writes the lowest `width` digits of the word over the bits from bit `position` on.
#[inline(always)]
pub(super) fn set_word(dst: &mut [u8], position: usize, word: u64, width: usize)
    requires width { width ≤ 64 }
    requires within { position + width ≤ 8 * length dst.old }
    requires fits { position + width < 2 ^ 64 }
    ensures { bits dst.new ≡ overwritten (bits dst.old) position (digits word width) }
{
    if position % 8 + width <= 64 {
        set_near(dst, position, word, width);
    } else {
        // The last digits lie in a ninth octet.
        let past = position % 8 + width - 64;
        set_near(dst, position, word >> past, width - past);
        set_near(dst, position + (width - past), word, past);
    }
}

//! The kernels: bits of octets read and written at any index.
//!
//! `or_above_64`, `or_unaligned`, `copy_octets`, and in other modules `or_aligned` and `or_many_words`, are not
//! inlined, so that their callers inline only the path for short views. They take the target by value
//! and return it: through a reference, each word would load the address of the octets again. The view is
//! borrowed, so that a call in tail position is a jump.

ghost use Rattle.std.specs.Prelude.{◌≡◌, ◌+◌, ◌-◌, ◌*◌, ◌/◌, ◌%◌, ◌^◌, ◌++◌, pos, ◌<◌, ◌≤◌, ◌↔◌, length, take, drop, vec_len, OnOk, OnErr, IsOk, IsSome, IfSome, All};
ghost use Rattle.std.specs.Int.{div_ceil};
ghost use Rattle.asn1_bits.specs.Bits.{bits, digits, number, ored, IsZeroFrom};
ghost use Rattle.asn1_bits.specs.BitStr.{view_of, bits_of};
ghost use Rattle.asn1_bits.specs.Turns.{turns_for};
ghost use Rattle.asn1_bits.specs.View.{IsAligned};

use crate::bit_str::BitStr;
use crate::places::{or_aligned, place_word};
use crate::reads::eight;
use crate::single_bits::from_octet;
use crate::target::Target;
use crate::turns::Turns;
use std::alloc::AllocError;

/// ORs the first `count` bits of `src` into `dst` from bit `position` on. Every other bit is
/// unchanged.
///
/// The bits must lie within `src` and, from `position` on, within `dst`. The bit after them must
/// fit `usize`.
pub fn or_bits(dst: &mut [u8], position: usize, src: &[u8], count: usize, turns: &mut Turns)
    requires source { count ≤ 8 * length src.now }
    requires room { position + count ≤ 8 * length dst.old }
    requires fits { position + count < 2 ^ 64 }
    ensures bits { bits dst.new ≡ ored (bits dst.old) position (take count (bits src.now)) }
    ensures at_least { turns.old.count + div_ceil count 64 ≤ turns.new.count }
    ensures at_most { turns.new.count ≤ turns.old.count + turns_for count }
{
    write_bitslice(dst, position, BitStr::part_of(src, 0, count), turns);
}

/// ORs the view into `dst` from bit `position` on. Every other bit is unchanged.
///
/// The bits must lie within `dst`, and the bit after them must fit `usize`.
// The counted work is `or_view`, whose clause `each_turn_places` ties each store to a turn. It
// can't see a walk that only reads, nor a store that would be here, before the target is made:
// so this is one line, as is `put_bitslice`.
#[inline(always)]
pub fn write_bitslice(dst: &mut [u8], position: usize, src: BitStr<'_>, turns: &mut Turns)
    requires room { position + (view_of src).len ≤ 8 * length dst.old }
    requires fits { position + (view_of src).len < 2 ^ 64 }
    ensures bits { bits dst.new ≡ ored (bits dst.old) position (bits_of src.entry) }
    ensures at_least { turns.old.count + div_ceil (view_of src.entry).len 64 ≤ turns.new.count }
    ensures at_most { turns.new.count ≤ turns.old.count + turns_for (view_of src.entry).len }
{
    or_view(&mut Target::new(dst), position, src, turns);
}

/// Does the counted work of `write_bitslice`.
#[inline(always)]
fn or_view(dst: &mut Target<'_>, position: usize, src: BitStr<'_>, turns: &mut Turns)
    requires room { position + (view_of src).len ≤ 8 * length dst.old.octets.now }
    requires fits { position + (view_of src).len < 2 ^ 64 }
    ensures bits { bits dst.new.octets.now
        ≡ ored (bits dst.old.octets.now) position (bits_of src.entry) }
    ensures same_reference { dst.new.octets.ghost_name ≡ dst.old.octets.ghost_name }
    ensures length { length dst.new.octets.now ≡ length dst.old.octets.now }
    ensures each_turn_places { turns.new.count + dst.old.placed.count
        ≡ turns.old.count + dst.new.placed.count }
    ensures turns { turns.new.count ≡ turns.old.count + div_ceil (view_of src.entry).len 64 }
{
    if src.len() > 0 && src.len() <= 64 {
        if let Some(word) = src.word_unless_near_end() {
            dst.or_word(position, word, src.len(), turns);
        } else {
            *dst = or_near_end(dst.take(), position, src, turns);
        }
    } else {
        // A copy is borrowed, so that the view itself stays in registers.
        let lent = src;
        *dst = or_above_64(dst.take(), position, &lent, turns);
    }
}

/// Does what `or_view` does for at most a word near the end of its storage. Cold and not inlined.
#[cold]
#[inline(never)]
fn or_near_end<'a>(
    target: Target<'a>,
    position: usize,
    src: BitStr<'_>,
    turns: &mut Turns,
) -> Target<'a>
    requires short { (view_of src).len ≤ 64 }
    requires room { position + (view_of src).len ≤ 8 * length target.octets.now }
    ensures bits { bits result.octets.now
        ≡ ored (bits target.entry.octets.now) position (bits_of src.entry) }
    ensures same_reference { result.octets.ghost_name ≡ target.entry.octets.ghost_name }
    ensures length { length result.octets.now ≡ length target.entry.octets.now }
    ensures each_turn_places { turns.new.count + target.entry.placed.count
        ≡ turns.old.count + result.placed.count }
    ensures turns { turns.new.count ≡ turns.old.count + div_ceil (view_of src.entry).len 64 }
{
    let mut own = target;
    place_word(&mut own, position, src, turns);
    own
}

/// Does what `or_view` does for no bits, and for more than a word.
#[inline(never)]
fn or_above_64<'a>(
    target: Target<'a>,
    position: usize,
    src: &BitStr<'_>,
    turns: &mut Turns,
) -> Target<'a>
    requires far { 0 < (view_of src.now).len → 64 < (view_of src.now).len }
    requires room { position + (view_of src.now).len ≤ 8 * length target.octets.now }
    requires fits { position + (view_of src.now).len < 2 ^ 64 }
    ensures bits { bits result.octets.now
        ≡ ored (bits target.entry.octets.now) position (bits_of src.now) }
    ensures same_reference { result.octets.ghost_name ≡ target.entry.octets.ghost_name }
    ensures length { length result.octets.now ≡ length target.entry.octets.now }
    ensures each_turn_places { turns.new.count + target.entry.placed.count
        ≡ turns.old.count + result.placed.count }
    ensures turns { turns.new.count ≡ turns.old.count + div_ceil (view_of src.now).len 64 }
{
    if src.len() == 0 {
        return target;
    }
    if position % 8 == 0 {
        if let Some(octets) = src.aligned() {
            return or_aligned(target, position / 8, octets, turns);
        }
    }
    or_unaligned(target, position, src, turns)
}

/// Does what `or_above_64` does for bits that are not copied octet by octet. It needs more registers.
#[inline(never)]
fn or_unaligned<'a>(
    target: Target<'a>,
    position: usize,
    src: &BitStr<'_>,
    turns: &mut Turns,
) -> Target<'a>
    requires long { 64 < (view_of src.now).len }
    requires room { position + (view_of src.now).len ≤ 8 * length target.octets.now }
    requires fits { position + (view_of src.now).len < 2 ^ 64 }
    ensures bits { bits result.octets.now
        ≡ ored (bits target.entry.octets.now) position (bits_of src.now) }
    ensures same_reference { result.octets.ghost_name ≡ target.entry.octets.ghost_name }
    ensures length { length result.octets.now ≡ length target.entry.octets.now }
    ensures each_turn_places { turns.new.count + target.entry.placed.count
        ≡ turns.old.count + result.placed.count }
    ensures turns { turns.new.count ≡ turns.old.count + div_ceil (view_of src.now).len 64 }
{
    let mut own = target;
    or_each_word(&mut own, position, *src, turns);
    own
}

/// Does the work of `or_unaligned`: whole words of 64 bits, and then the bits that are left.
#[inline(always)]
fn or_each_word(dst: &mut Target<'_>, position: usize, src: BitStr<'_>, turns: &mut Turns)
    requires long { 64 < (view_of src).len }
    requires room { position + (view_of src).len ≤ 8 * length dst.old.octets.now }
    requires fits { position + (view_of src).len < 2 ^ 64 }
    ensures bits { bits dst.new.octets.now
        ≡ ored (bits dst.old.octets.now) position (bits_of src.entry) }
    ensures same_reference { dst.new.octets.ghost_name ≡ dst.old.octets.ghost_name }
    ensures length { length dst.new.octets.now ≡ length dst.old.octets.now }
    ensures each_turn_places { turns.new.count + dst.old.placed.count
        ≡ turns.old.count + dst.new.placed.count }
    ensures turns { turns.new.count ≡ turns.old.count + div_ceil (view_of src.entry).len 64 }
{
    let len = src.len();
    let words = len / 64;
    let tail = len % 64;
    or_whole_words(dst, position, src.front(64 * words), turns);
    if tail > 0 {
        dst.or_word(
            position + 64 * words,
            src.word(64 * words, tail),
            tail,
            turns,
        );
    }
}

/// ORs a view of whole words of 64 bits, and ticks once for each. If `position` is off the octet
/// boundary, the first `64 - position % 8` bits go first, then aligned words, then the `position %
/// 8` bits that are left.
#[inline(always)]
fn or_whole_words(dst: &mut Target<'_>, position: usize, src: BitStr<'_>, turns: &mut Turns)
    requires some { 64 ≤ (view_of src).len }
    requires whole { (view_of src).len % 64 ≡ 0 }
    requires room { position + (view_of src).len ≤ 8 * length dst.old.octets.now }
    requires fits { position + (view_of src).len < 2 ^ 64 }
    ensures bits { bits dst.new.octets.now
        ≡ ored (bits dst.old.octets.now) position (bits_of src.entry) }
    ensures same_reference { dst.new.octets.ghost_name ≡ dst.old.octets.ghost_name }
    ensures length { length dst.new.octets.now ≡ length dst.old.octets.now }
    ensures each_turn_places { turns.new.count + dst.old.placed.count
        ≡ turns.old.count + dst.new.placed.count }
    ensures turns { turns.new.count ≡ turns.old.count + (view_of src.entry).len / 64 }
{
    let len = src.len();
    let spill = position % 8;
    let rest = dst.or_begun(position, src.first_word(), turns);
    src.or_words(spill, dst, position / 8 + 8, len / 64 - 1, turns);
    src.or_edge(spill, dst, rest, position / 8 + len / 8);
}

/// Writes the view over zeros from bit `position` on. Octets on octet boundaries are copied.
#[inline(always)]
pub(crate) fn put_bitslice(dst: &mut [u8], position: usize, src: BitStr<'_>, turns: &mut Turns)
    requires room { position + (view_of src).len ≤ 8 * length dst.old }
    requires fits { position + (view_of src).len < 2 ^ 64 }
    requires zeros { IsZeroFrom position (bits dst.old) }
    ensures bits { bits dst.new ≡ ored (bits dst.old) position (bits_of src.entry) }
    ensures at_least { turns.old.count + div_ceil (view_of src.entry).len 64 ≤ turns.new.count }
    ensures at_most { turns.new.count ≤ turns.old.count + turns_for (view_of src.entry).len }
{
    put_view(&mut Target::new(dst), position, src, turns);
}

/// Does the counted work of `put_bitslice`.
#[inline(always)]
fn put_view(dst: &mut Target<'_>, position: usize, src: BitStr<'_>, turns: &mut Turns)
    requires room { position + (view_of src).len ≤ 8 * length dst.old.octets.now }
    requires fits { position + (view_of src).len < 2 ^ 64 }
    requires zeros { IsZeroFrom position (bits dst.old.octets.now) }
    ensures bits { bits dst.new.octets.now
        ≡ ored (bits dst.old.octets.now) position (bits_of src.entry) }
    ensures same_reference { dst.new.octets.ghost_name ≡ dst.old.octets.ghost_name }
    ensures length { length dst.new.octets.now ≡ length dst.old.octets.now }
    ensures each_turn_places { turns.new.count + dst.old.placed.count
        ≡ turns.old.count + dst.new.placed.count }
    ensures turns { turns.new.count ≡ turns.old.count + div_ceil (view_of src.entry).len 64 }
{
    if src.len() > 64 && position % 8 == 0 {
        if let Some(octets) = src.aligned() {
            *dst = copy_octets(dst.take(), position / 8, octets, turns);
            return;
        }
    }
    or_view(dst, position, src, turns);
}

/// Copies octets over the zeros from octet `first` on, and ticks once for each eight of them and
/// once for the rest.
#[inline(never)]
fn copy_octets<'a>(target: Target<'a>, first: usize, src: &[u8], turns: &mut Turns) -> Target<'a>
    requires room { first + length src.now ≤ length target.octets.now }
    requires fits { 8 * (first + length src.now) < 2 ^ 64 }
    requires zeros { IsZeroFrom (8 * first) (bits target.octets.now) }
    ensures bits { bits result.octets.now
        ≡ ored (bits target.entry.octets.now) (8 * first) (bits src.now) }
    ensures same_reference { result.octets.ghost_name ≡ target.entry.octets.ghost_name }
    ensures length { length result.octets.now ≡ length target.entry.octets.now }
    ensures each_turn_places { turns.new.count + target.entry.placed.count
        ≡ turns.old.count + result.placed.count }
    ensures turns { turns.new.count ≡ turns.old.count + div_ceil (8 * length src.now) 64 }
{
    let mut own = target;
    copy_each_word(&mut own, first, src, turns);
    own
}

/// Does the work of `copy_octets`: eight octets at a time, and then the rest.
#[inline(always)]
fn copy_each_word(dst: &mut Target<'_>, first: usize, src: &[u8], turns: &mut Turns)
    requires room { first + length src.now ≤ length dst.old.octets.now }
    requires fits { 8 * (first + length src.now) < 2 ^ 64 }
    requires zeros { IsZeroFrom (8 * first) (bits dst.old.octets.now) }
    ensures bits { bits dst.new.octets.now
        ≡ ored (bits dst.old.octets.now) (8 * first) (bits src.now) }
    ensures same_reference { dst.new.octets.ghost_name ≡ dst.old.octets.ghost_name }
    ensures length { length dst.new.octets.now ≡ length dst.old.octets.now }
    ensures each_turn_places { turns.new.count + dst.old.placed.count
        ≡ turns.old.count + dst.new.placed.count }
    ensures turns { turns.new.count ≡ turns.old.count + div_ceil (8 * length src.now) 64 }
{
    let words = src.len() / 8;
    for k in 0..words {
        dst.put_eight(first + 8 * k, eight(src, 8 * k), turns);
    }
    let tail = BitStr::from_octets(from_octet(src, 8 * words));
    or_view(dst, 8 * (first + 8 * words), tail, turns);
}

/// Returns the number that the `width` bits from bit `position` on encode, most significant first.
///
/// The width must be at most 128, and the bits must lie within the octets.
#[inline(always)]
pub fn read_wide(bytes: &[u8], position: usize, width: usize) -> u128
    requires width { width ≤ 128 }
    requires within { position + width ≤ 8 * length bytes.now }
    ensures number { result ≡ number (take width (drop position (bits bytes.now))) }
    ensures digits { digits result width ≡ take width (drop position (bits bytes.now)) }
    ensures below { result < 2 ^ width }
{
    BitStr::part_of(bytes, position, width).first_u128::<false>(width)
}

/// Returns the number that the `width` bits from bit `position` on encode, most significant first.
///
/// The width must be at most 32, and the bits must lie within the octets.
pub fn read_bits(bytes: &[u8], position: usize, width: usize) -> u32
    requires width { width ≤ 32 }
    requires within { position + width ≤ 8 * length bytes.now }
    ensures number { result ≡ number (take width (drop position (bits bytes.now))) }
    ensures digits { digits result width ≡ take width (drop position (bits bytes.now)) }
    ensures below { result < 2 ^ width }
{
    read_wide(bytes, position, width) as u32
}

/// Returns the number that the view's bits encode, most significant first.
///
/// The view must have at most 128 bits.
pub fn read_u128(src: BitStr<'_>) -> u128
    requires { (view_of src).len ≤ 128 }
    ensures number { result ≡ number (bits_of src.entry) }
    ensures digits { digits result (view_of src.entry).len ≡ bits_of src.entry }
    ensures below { result < 2 ^ (view_of src.entry).len }
{
    src.first_u128::<true>(src.len())
}

/// Returns the greatest number of `n` bits.
///
/// The number of bits must be at most 126.
pub fn range_from_len(n: u32) -> i128
    requires { n ≤ 126 }
    ensures { result ≡ pos (2 ^ n - 1) }
{
    ((1u128 << n) - 1) as i128
}

/// Borrows the octets of the view, or returns `None` if it does not lie on octet boundaries of the
/// storage.
pub fn aligned_octets(src: BitStr<'_>) -> Option<&[u8]>
    ensures aligned { IsSome result ↔ IsAligned (view_of src.entry) }
    ensures bits { IfSome result (λ o. bits o.now ≡ bits_of src.entry) }
    ensures count { IfSome result (λ o. 8 * length o.now ≡ (view_of src.entry).len) }
    ensures octets { IfSome result (λ o. All (λ octet. octet < 256) o.now) }
{
    src.aligned()
}

/// Appends the octets of the view to the vector.
///
/// The number of bits must be a multiple of 8.
///
/// # Errors
///
/// Returns `AllocError` if out of memory; the vector's octets are then unchanged. An empty view
/// never fails.
pub fn extend_vec_from_bitslice(dst: &mut Vec<u8>, src: BitStr<'_>) -> Result<(), AllocError>
    requires { (view_of src).len % 8 ≡ 0 }
    ensures ok { OnOk result (bits dst.new.items ≡ bits dst.old.items ++ bits_of src.entry) }
    ensures front { OnOk result (take (vec_len dst.old) dst.new.items ≡ dst.old.items) }
    ensures octets { All (λ octet. octet < 256) dst.new.items }
    ensures err { OnErr result (dst.new.items ≡ dst.old.items) }
    // If no octet is added, it allocates nothing.
    ensures free { (view_of src.entry).len ≡ 0 → IsOk result }
{
    src.push_octets_to(dst)
}

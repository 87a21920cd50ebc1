//! Bits that are written over those of octets.

ghost use Rattle.std.specs.Prelude.{◌≡◌, ◌+◌, ◌*◌, ◌^◌, ◌<◌, ◌≤◌, length};
ghost use Rattle.std.specs.Int.{div_ceil};
ghost use Rattle.asn1_bits.specs.Bits.{bits, digits, overwritten};
ghost use Rattle.asn1_bits.specs.BitStr.{view_of, bits_of};
ghost use Rattle.asn1_bits.specs.Turns.{turns_for};

use crate::bit_str::BitStr;
use crate::clear::clear_bits;
use crate::kernels::write_bitslice;
use crate::target::Target;
use crate::turns::Turns;

/// Writes the view over the bits of `dst` from bit `position` on. Every other bit is unchanged. It
/// clears the bits first, whole octets by one `fill`, and takes no turns for that.
///
/// The bits must lie within `dst`, and the bit after them must fit `usize`.
pub fn overwrite_bitslice(dst: &mut [u8], position: usize, src: BitStr<'_>, turns: &mut Turns)
    requires room { position + (view_of src).len ≤ 8 * length dst.old }
    requires fits { position + (view_of src).len < 2 ^ 64 }
    ensures bits { bits dst.new ≡ overwritten (bits dst.old) position (bits_of src.entry) }
    ensures at_least { turns.old.count + div_ceil (view_of src.entry).len 64 ≤ turns.new.count }
    ensures at_most { turns.new.count ≤ turns.old.count + turns_for (view_of src.entry).len }
{
    clear_bits(dst, position, src.len());
    write_bitslice(dst, position, src, turns);
}

/// Writes the lowest `width` binary digits of `value`, most significant first, over the bits of
/// `dst` from bit `position` on. Every other bit is unchanged.
///
/// The width must be at most 128. The bits must lie within `dst`, and the bit after them must fit
/// `usize`.
pub fn overwrite_number(
    dst: &mut [u8],
    position: usize,
    value: u128,
    width: usize,
    turns: &mut Turns,
)
    requires width { width ≤ 128 }
    requires room { position + width ≤ 8 * length dst.old }
    requires fits { position + width < 2 ^ 64 }
    ensures bits { bits dst.new ≡ overwritten (bits dst.old) position (digits value width) }
    ensures at_least { turns.old.count + div_ceil width 64 ≤ turns.new.count }
    ensures at_most { turns.new.count ≤ turns.old.count + turns_for width }
{
    overwrite_digits(&mut Target::new(dst), position, value, width, turns);
}

/// Does the counted work of `overwrite_number`: one word, or two.
#[inline(always)]
fn overwrite_digits(
    dst: &mut Target<'_>,
    position: usize,
    value: u128,
    width: usize,
    turns: &mut Turns,
)
    requires width { width ≤ 128 }
    requires room { position + width ≤ 8 * length dst.old.octets.now }
    requires fits { position + width < 2 ^ 64 }
    ensures bits { bits dst.new.octets.now
        ≡ overwritten (bits dst.old.octets.now) position (digits value width) }
    ensures same_reference { dst.new.octets.ghost_name ≡ dst.old.octets.ghost_name }
    ensures length { length dst.new.octets.now ≡ length dst.old.octets.now }
    ensures each_turn_places { turns.new.count + dst.old.placed.count
        ≡ turns.old.count + dst.new.placed.count }
    ensures at_least { turns.old.count + div_ceil width 64 ≤ turns.new.count }
    ensures at_most { turns.new.count ≤ turns.old.count + turns_for width }
{
    let low = (value & 0xFFFF_FFFF_FFFF_FFFF) as u64;
    if width == 0 {
        return;
    }
    if width <= 64 {
        dst.set_word(position, low, width, turns);
    } else {
        dst.set_word(position, (value >> 64) as u64, width - 64, turns);
        dst.set_word(position + (width - 64), low, 64, turns);
    }
}

//! Digits and octets, written into room that a buffer has allocated at once.

ghost use Rattle.std.specs.Prelude.{◌≡◌, ◌+◌, ◌-◌, ◌*◌, ◌^◌, ◌<◌, ◌≤◌, ◌++◌, length, IsOk, IfOk};
ghost use Rattle.std.specs.Int.{div_ceil};
ghost use Rattle.asn1_bits.specs.Bits.{bits, digits, AddsNoOctet, IsZeroFrom};
ghost use Rattle.asn1_bits.specs.BitStr.{view_of, bits_of};
ghost use Rattle.asn1_bits.specs.Turns.{turns_for};

use crate::bit_buffer::BitBuffer;
use crate::bit_str::BitStr;
use crate::buffer_target::BufferTarget;
use crate::turns::Turns;
use crate::window::{lowest, lowest_wide};
use std::alloc::AllocError;

/// Writes into zero bits that a buffer has appended. When it ends, the buffer holds its old bits,
/// then what was pushed, in order, then zeros for the room that is left.
#[derive(Drop)]
pub struct BitAppender<'a> {
    target: BufferTarget<'a>,
    position: usize,
    /// All bits from the position on are zeros.
    pub ghost zeros: { IsZeroFrom position target.buffer.now },
}

impl BitBuffer {
    ghost use Rattle.std.specs.Borrow.{sem, RestsIfErr};
    ghost use Rattle.asn1_bits.specs.contracts.bit_buffer.BitBuffer.{the_row};
    ghost use Rattle.asn1_bits.specs.BitAppender.{bits_written, room, lender_of, words_placed, EndsInZeros};

    /// Appends `additional` zero bits in one growth, and returns an appender that fills them.
    ///
    /// The new length must fit `usize`.
    ///
    /// # Errors
    ///
    /// Returns `AllocError` if out of memory; the bits are then unchanged. It never fails if no
    /// octet is added.
    pub fn appender(&mut self, additional: usize) -> Result<BitAppender<'_>, AllocError>
        requires { length self.old + additional < 2 ^ 64 }
        // If out of memory, the buffer is unchanged; otherwise it ends as the appender leaves it.
        ensures* refused { sem 𝓛
            (RestsIfErr the_row self.entry lender_of result (λ bits. bits ≡ self.old)) }
        ensures lender { IfOk result (λ a. lender_of a ≡ self.entry.ghost_name) }
        ensures written { IfOk result (λ a. bits_written a ≡ self.old) }
        ensures room { IfOk result (λ a. room a ≡ additional) }
        ensures held { IfOk result EndsInZeros }
        ensures none_placed { IfOk result (λ a. words_placed a ≡ 0) }
        // If no octet is added, it allocates nothing.
        ensures free { AddsNoOctet (length self.old) additional → IsOk result }
    {
        let position = self.len();
        self.grow(additional)?;
        Ok(BitAppender {
            target: BufferTarget::new(self),
            position,
        })
    }
}

impl<'a> BitAppender<'a> {
    ghost use Rattle.asn1_bits.specs.BitAppender.{bits_written, room, lender_of, words_placed, EndsInZeros};

    /// Returns the number of bits that may still be pushed.
    pub fn room(&self) -> usize
        ensures { result ≡ room self.now }
    {
        self.target.len() - self.position
    }

    /// Pushes the lowest `width` binary digits of `value`, most significant first, as one word that
    /// takes no turn.
    ///
    /// The width must be at most 32 and at most the room.
    pub fn push(&mut self, value: u32, width: usize)
        requires width { width ≤ 32 }
        requires room { width ≤ room self.old }
        ensures lender { lender_of self.new ≡ lender_of self.old }
        ensures written { bits_written self.new ≡ bits_written self.old ++ digits value width }
        ensures room { room self.new + width ≡ room self.old }
        ensures held { EndsInZeros self.new }
        ensures placed { words_placed self.new ≡ words_placed self.old + 1 }
    {
        let position = self.position;
        // For the proof: `len()` ensures that the length is below 2^64.
        let _len = self.target.len();
        // As in `push_number`.
        self.position += width;
        let number = lowest(u64::from(value), width);
        self.target.put_few(position, number, width);
    }

    /// Pushes the lowest `width` binary digits of `value`, most significant first. It takes one
    /// turn for each word that is written.
    ///
    /// The width must be at most 128 and at most the room.
    #[inline(always)]
    pub fn push_wide(&mut self, value: u128, width: usize, turns: &mut Turns)
        requires width { width ≤ 128 }
        requires room { width ≤ room self.old }
        ensures lender { lender_of self.new ≡ lender_of self.old }
        ensures written { bits_written self.new ≡ bits_written self.old ++ digits value width }
        ensures room { room self.new + width ≡ room self.old }
        ensures held { EndsInZeros self.new }
        ensures each_turn_places { turns.new.count + words_placed self.old
            ≡ turns.old.count + words_placed self.new }
        ensures at_least { turns.old.count + div_ceil width 64 ≤ turns.new.count }
        ensures at_most { turns.new.count ≤ turns.old.count + turns_for width }
    {
        self.push_number(lowest_wide(value, width), width, turns);
    }

    /// Pushes the `width` binary digits of a number, most significant first. It takes one turn for
    /// each word that is written.
    ///
    /// The number must be below 2 to the power of `width`. The width must be at most 128 and at
    /// most the room.
    #[inline(always)]
    pub fn push_number(&mut self, number: u128, width: usize, turns: &mut Turns)
        requires width { width ≤ 128 }
        requires below { number < 2 ^ width }
        requires room { width ≤ room self.old }
        ensures lender { lender_of self.new ≡ lender_of self.old }
        ensures written { bits_written self.new ≡ bits_written self.old ++ digits number width }
        ensures room { room self.new + width ≡ room self.old }
        ensures held { EndsInZeros self.new }
        ensures each_turn_places { turns.new.count + words_placed self.old
            ≡ turns.old.count + words_placed self.new }
        ensures at_least { turns.old.count + div_ceil width 64 ≤ turns.new.count }
        ensures at_most { turns.new.count ≤ turns.old.count + turns_for width }
    {
        let position = self.position;
        // For the proof: `len()` ensures that the length is below 2^64.
        let _len = self.target.len();
        // Move the position first. The invariant `zeros` then covers only bits that this write
        // leaves zero.
        self.position += width;
        self.target.put_number(position, number, width, turns);
    }

    /// Pushes the bits of the octets. It takes one turn for each word that is written.
    ///
    /// The octets must fit the room.
    pub fn push_octets(&mut self, octets: &[u8], turns: &mut Turns)
        requires { 8 * length octets.now ≤ room self.old }
        ensures lender { lender_of self.new ≡ lender_of self.old }
        ensures written { bits_written self.new ≡ bits_written self.old ++ bits octets.now }
        ensures room { room self.new + 8 * length octets.now ≡ room self.old }
        ensures held { EndsInZeros self.new }
        ensures each_turn_places { turns.new.count + words_placed self.old
            ≡ turns.old.count + words_placed self.new }
        ensures at_least { turns.old.count + div_ceil (8 * length octets.now) 64 ≤ turns.new.count }
        ensures at_most { turns.new.count ≤ turns.old.count + turns_for (8 * length octets.now) }
    {
        // For the proof: `len()` ensures that the length, and so the number of bits of octets that
        // fit the room, is below 2^64.
        let _len = self.target.len();
        self.push_bitslice(BitStr::from_octets(octets), turns);
    }

    /// Pushes the bits of the view. It takes one turn for each word that is written.
    ///
    /// The view must fit the room.
    pub fn push_bitslice(&mut self, src: BitStr<'_>, turns: &mut Turns)
        requires { (view_of src).len ≤ room self.old }
        ensures lender { lender_of self.new ≡ lender_of self.old }
        ensures written { bits_written self.new ≡ bits_written self.old ++ bits_of src.entry }
        ensures room { room self.new + (view_of src.entry).len ≡ room self.old }
        ensures held { EndsInZeros self.new }
        ensures each_turn_places { turns.new.count + words_placed self.old
            ≡ turns.old.count + words_placed self.new }
        ensures at_least { turns.old.count + div_ceil (view_of src.entry).len 64 ≤ turns.new.count }
        ensures at_most { turns.new.count ≤ turns.old.count + turns_for (view_of src.entry).len }
    {
        let position = self.position;
        // For the proof: `len()` ensures that the length is below 2^64.
        let _len = self.target.len();
        // As in `push_number`.
        self.position += src.len();
        self.target.write_at(position, src, turns);
    }
}

//! The buffer that an appender fills. `BitAppender` stores by these methods alone, which count each
//! word.

ghost use Rattle.std.specs.Prelude.{◌≡◌, ◌+◌, ◌^◌, ◌<◌, ◌≤◌, length};
ghost use Rattle.std.specs.Int.{div_ceil};
ghost use Rattle.asn1_bits.specs.Bits.{digits, ored, IsZeroFrom};
ghost use Rattle.asn1_bits.specs.BitStr.{view_of, bits_of};
ghost use Rattle.asn1_bits.specs.Turns.{turns_for};

use crate::bit_buffer::BitBuffer;
use crate::bit_str::BitStr;
use crate::turns::Turns;

/// A buffer in which only these methods store. Each counts in `placed` the words that it stores, of
/// at most 64 bits. So where `turns` and `placed` grow alike, no word was stored without a turn,
/// and no turn was taken without a word. `placed` takes no bytes.
#[derive(Drop)]
pub(crate) struct BufferTarget<'a> {
    buffer: &'a mut BitBuffer,
    placed: Turns,
}

impl<'a> BufferTarget<'a> {
    /// Returns the buffer as a target, in which no word was placed.
    #[inline(always)]
    pub(crate) fn new(buffer: &'a mut BitBuffer) -> BufferTarget<'a>
        ensures same_reference { result.buffer.ghost_name ≡ buffer.entry.ghost_name }
        ensures list { result.buffer.now ≡ buffer.old }
        ensures placed { result.placed.count ≡ 0 }
    {
        BufferTarget {
            buffer,
            placed: Turns::new(),
        }
    }

    /// Returns the number of bits of the buffer.
    #[inline(always)]
    pub(crate) fn len(&self) -> usize
        ensures { result ≡ length self.now.buffer.now }
    {
        self.buffer.len()
    }

    /// Writes a number of `width` binary digits over the zeros from bit `position` on: one turn for
    /// each word that is stored.
    #[inline(always)]
    pub(crate) fn put_number(
        &mut self,
        position: usize,
        number: u128,
        width: usize,
        turns: &mut Turns,
    )
        requires width { width ≤ 128 }
        requires below { number < 2 ^ width }
        requires within { position + width ≤ length self.old.buffer.now }
        requires zeros { IsZeroFrom position self.old.buffer.now }
        ensures list { self.new.buffer.now
            ≡ ored self.old.buffer.now position (digits number width) }
        ensures same_reference { self.new.buffer.ghost_name ≡ self.old.buffer.ghost_name }
        ensures each_turn_places { turns.new.count + self.old.placed.count
            ≡ turns.old.count + self.new.placed.count }
        ensures at_least { turns.old.count + div_ceil width 64 ≤ turns.new.count }
        ensures at_most { turns.new.count ≤ turns.old.count + turns_for width }
    {
        let mut taken = Turns::new();
        self.buffer.put_number(position, number, width, &mut taken);
        self.placed.add(&taken);
        turns.add(&taken);
    }

    /// Writes a number of at most 57 binary digits over the zeros from bit `position` on. It counts
    /// one word, and no turn.
    #[inline(always)]
    pub(crate) fn put_few(&mut self, position: usize, number: u64, width: usize)
        requires width { width ≤ 57 }
        requires below { number < 2 ^ width }
        requires within { position + width ≤ length self.old.buffer.now }
        requires zeros { IsZeroFrom position self.old.buffer.now }
        ensures list { self.new.buffer.now
            ≡ ored self.old.buffer.now position (digits number width) }
        ensures same_reference { self.new.buffer.ghost_name ≡ self.old.buffer.ghost_name }
        ensures placed { self.new.placed.count ≡ self.old.placed.count + 1 }
    {
        self.buffer.put_few(position, number, width);
        self.placed.tick();
    }

    /// Writes the view over the zeros from bit `position` on: one turn for each word that is stored.
    #[inline(always)]
    pub(crate) fn write_at(&mut self, position: usize, src: BitStr<'_>, turns: &mut Turns)
        requires room { position + (view_of src).len ≤ length self.old.buffer.now }
        requires zeros { IsZeroFrom position self.old.buffer.now }
        ensures list { self.new.buffer.now ≡ ored self.old.buffer.now position (bits_of src.entry) }
        ensures same_reference { self.new.buffer.ghost_name ≡ self.old.buffer.ghost_name }
        ensures each_turn_places { turns.new.count + self.old.placed.count
            ≡ turns.old.count + self.new.placed.count }
        ensures at_least { turns.old.count + div_ceil (view_of src.entry).len 64 ≤ turns.new.count }
        ensures at_most { turns.new.count ≤ turns.old.count + turns_for (view_of src.entry).len }
    {
        let mut taken = Turns::new();
        self.buffer.write_at(position, src, &mut taken);
        self.placed.add(&taken);
        turns.add(&taken);
    }
}

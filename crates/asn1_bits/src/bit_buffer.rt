//! A list of bits that grows.

ghost use Rattle.std.specs.Prelude.{◌≡◌, ◌+◌, ◌-◌, ◌*◌, ◌%◌, ◌^◌, ◌<◌, ◌≤◌, [], ◌∷◌, ◌++◌, All, length, take, replicate, slice_set, IfOk, OnOk, OnErr, IsOk, false, vec_len};
ghost use Rattle.std.specs.Int.{div_ceil};
ghost use Rattle.asn1_bits.specs.Bits.{bits, digits, octets_for, ored, padded, AddsNoOctet, IsZeroFrom};
ghost use Rattle.asn1_bits.specs.BitStr.{view_of, bits_of};
ghost use Rattle.asn1_bits.specs.Turns.{turns_for};

use crate::bit_str::BitStr;
use crate::kernels::put_bitslice;
use crate::octets::known_octets;
use crate::single_bits::{clear_from, set_bit};
use crate::turns::Turns;
use crate::window::{lowest, lowest_wide, put_digits, put_few, put_word};
use std::alloc::{AllocError, Global};
use std::marker::Model;

/// How many zero octets `push_bits` adds at a time, so that later pushes need no growth.
const READY: usize = 32;

/// A growable list of bits. The vector may be longer than the list: every bit after the list is
/// zero, so a short number is stored as one word. Two buffers are equal if their lists are.
#[derive(Debug, Drop)]
pub struct BitBuffer {
    bytes: Vec<u8>,
    len: usize,
}

impl Model for BitBuffer {
    ghost use Rattle.std.specs.Prelude.{Bool, List};
    ghost use Rattle.asn1_bits.specs.BitBuffer.{bits_shown, IsFilled};

    ghost Value = { List Bool };

    ghost view = { λ b. bits_shown b.bytes.items b.len };

    ghost invariant = { λ b. IsFilled b.bytes.items b.len };
}

impl BitBuffer {
    /// Returns an empty buffer. It allocates nothing.
    pub fn new(alloc: Global) -> BitBuffer
        ensures { result ≡ [] }
    {
        BitBuffer {
            bytes: Vec::new(alloc),
            len: 0,
        }
    }

    /// Returns an empty buffer that reuses the vector's allocation. The vector's octets are
    /// dropped; `BitString::from_vec` keeps them.
    pub fn from_vec(mut bytes: Vec<u8>) -> BitBuffer
        ensures { result ≡ [] }
    {
        bytes.clear();
        BitBuffer { bytes, len: 0 }
    }

    /// Returns the number of bits.
    pub fn len(&self) -> usize
        ensures { result ≡ length self.now }
    {
        self.len
    }

    /// Removes all bits and keeps the allocation.
    pub fn clear(&mut self)
        ensures { self.new ≡ [] }
    {
        self.bytes.clear();
        self.len = 0;
    }

    /// Keeps the first `len` bits and removes any others. The allocation stays.
    pub fn truncate(&mut self, len: usize)
        ensures { self.new ≡ take len self.old }
    {
        if len >= self.len {
            return;
        }
        self.bytes.truncate(len.div_ceil(8));
        clear_from(self.bytes.as_mut_slice(), len);
        self.len = len;
    }

    /// Copies the buffer.
    ///
    /// # Errors
    ///
    /// Returns `AllocError` if out of memory; an empty buffer is always copied.
    pub fn clone(&self) -> Result<BitBuffer, AllocError>
        ensures list { IfOk result (λ b. b ≡ self.now) }
        ensures free { self.now ≡ [] → IsOk result }
    {
        if self.len() == 0 {
            return Ok(BitBuffer::new(*self.bytes.allocator()));
        }
        Ok(BitBuffer {
            bytes: self.bytes.clone()?,
            len: self.len,
        })
    }

    /// Returns the octets of the list: its bits, then zeros to the octet's end.
    pub fn as_bytes(&self) -> &[u8]
        ensures spelled { bits result.now ≡ padded self.now }
        ensures count { length result.now ≡ octets_for (length self.now) }
        ensures octets { All (λ octet. octet < 256) result.now }
    {
        let (octets, _) = self.bytes.as_slice().split_at(self.len.div_ceil(8));
        known_octets(octets)
    }

    /// Returns the octets of the list: its bits, then zeros to the octet's end.
    pub fn into_vec(self) -> Vec<u8>
        ensures spelled { bits result.items ≡ padded self }
        ensures count { vec_len result ≡ octets_for (length self) }
        ensures octets { All (λ octet. octet < 256) result.items }
    {
        let BitBuffer { mut bytes, len } = self;
        bytes.truncate(len.div_ceil(8));
        known_octets(&bytes);
        bytes
    }

    /// Sets bit `index` to `bit`. The index must be below the length.
    pub fn set(&mut self, index: usize, bit: bool)
        requires { index < length self.old }
        ensures { self.new ≡ slice_set self.old index bit }
    {
        set_bit(self.bytes.as_mut_slice(), index, bit);
    }

    /// Reserves room for `additional` more octets. No clause says that appends then allocate
    /// nothing.
    ///
    /// # Errors
    ///
    /// Returns `AllocError` if out of memory, never for 0 octets. The bits are unchanged.
    pub fn reserve_bytes(&mut self, additional: usize) -> Result<(), AllocError>
        ensures same { self.new ≡ self.old }
        ensures free { additional ≡ 0 → IsOk result }
    {
        if additional == 0 {
            return Ok(());
        }
        self.bytes.reserve(additional)
    }

    /// Appends copies of `bit` until there are `new_len` bits. The new length must be at least the
    /// old.
    ///
    /// # Errors
    ///
    /// Returns `AllocError` if out of memory, never if no octet is added. The bits are unchanged.
    pub fn resize(&mut self, new_len: usize, bit: bool) -> Result<(), AllocError>
        requires { length self.old ≤ new_len }
        ensures ok { OnOk result
            (self.new ≡ self.old ++ replicate (new_len - length self.old) bit) }
        ensures err { OnErr result (self.new ≡ self.old) }
        ensures free { AddsNoOctet (length self.old) (new_len - length self.old) → IsOk result }
    {
        let position = self.len();
        self.grow(new_len - position)?;
        if bit {
            for index in position..new_len {
                self.set(index, true);
            }
        }
        Ok(())
    }

    /// Appends the bit. The new length must fit `usize`.
    ///
    /// # Errors
    ///
    /// Returns `AllocError` if out of memory, never if no octet is added. The bits are unchanged.
    pub fn push(&mut self, bit: bool) -> Result<(), AllocError>
        requires { length self.old + 1 < 2 ^ 64 }
        ensures ok { OnOk result (self.new ≡ self.old ++ bit ∷ []) }
        ensures err { OnErr result (self.new ≡ self.old) }
        ensures free { AddsNoOctet (length self.old) 1 → IsOk result }
    {
        let position = self.len();
        self.grow(1)?;
        self.set(position, bit);
        Ok(())
    }

    /// Appends the lowest `width` binary digits of `value`, most significant first. The width must
    /// be at most 128, and the new length must fit `usize`.
    ///
    /// # Errors
    ///
    /// Returns `AllocError` if out of memory, never if no octet is added. The bits are unchanged.
    #[inline(always)]
    pub fn push_bits(&mut self, value: u128, width: usize) -> Result<(), AllocError>
        requires width { width ≤ 128 }
        requires fits { length self.old + width < 2 ^ 64 }
        ensures ok { OnOk result (self.new ≡ self.old ++ digits value width) }
        ensures len { OnOk result (length self.new ≡ length self.old + width) }
        ensures err { OnErr result (self.new ≡ self.old) }
        ensures free { AddsNoOctet (length self.old) width → IsOk result }
    {
        let position = self.len;
        let octets = self.bytes.len();
        if width == 0 || width > 56 {
            return self.push_digits(value, width);
        }
        if position / 8 + 8 > octets {
            let capacity = self.bytes.capacity();
            if (position + width).div_ceil(8) <= capacity && capacity - octets < READY {
                // The digits fit the capacity, so this allocates nothing.
                return self.push_digits(value, width);
            }
            self.bytes.resize(octets + READY, 0)?;
        }
        // The digits fit eight octets, whichever bit of the first they begin at.
        let number = lowest((value & 0xFFFF_FFFF_FFFF_FFFF) as u64, width);
        put_word(self.bytes.as_mut_slice(), position, number, width);
        self.len = position + width;
        Ok(())
    }

    /// Does what `push_bits` does. Not inlined, so that callers inline only the path for short
    /// numbers.
    #[inline(never)]
    fn push_digits(&mut self, value: u128, width: usize) -> Result<(), AllocError>
        requires width { width ≤ 128 }
        requires fits { length self.old + width < 2 ^ 64 }
        ensures ok { OnOk result (self.new ≡ self.old ++ digits value width) }
        ensures len { OnOk result (length self.new ≡ length self.old + width) }
        ensures err { OnErr result (self.new ≡ self.old) }
        ensures free { AddsNoOctet (length self.old) width → IsOk result }
    {
        let position = self.len();
        self.grow(width)?;
        let number = lowest_wide(value, width);
        self.put_number(position, number, width, &mut Turns::new());
        Ok(())
    }

    /// Appends the bits of the octets. The new length must fit `usize`.
    ///
    /// # Errors
    ///
    /// Returns `AllocError` if out of memory, never if no octet is added. The bits are unchanged.
    pub fn extend_from_bytes(&mut self, src: &[u8]) -> Result<(), AllocError>
        requires { length self.old + 8 * length src.now < 2 ^ 64 }
        ensures ok { OnOk result (self.new ≡ self.old ++ bits src.now) }
        ensures len { OnOk result (length self.new ≡ length self.old + 8 * length src.now) }
        ensures err { OnErr result (self.new ≡ self.old) }
        ensures free { AddsNoOctet (length self.old) (8 * length src.now) → IsOk result }
    {
        if self.len % 8 == 0 {
            // After whole octets no zeros are written first.
            self.bytes.truncate(self.len / 8);
            self.bytes.extend_from_slice(src)?;
            self.len += 8 * src.len();
            return Ok(());
        }
        self.extend_from_bitslice(BitStr::from_octets(src))
    }

    /// Appends the bits of the view. The new length must fit `usize`.
    ///
    /// # Errors
    ///
    /// Returns `AllocError` if out of memory, never if no octet is added. The bits are unchanged.
    pub fn extend_from_bitslice(&mut self, src: BitStr<'_>) -> Result<(), AllocError>
        requires { length self.old + (view_of src).len < 2 ^ 64 }
        ensures ok { OnOk result (self.new ≡ self.old ++ bits_of src.entry) }
        ensures len { OnOk result (length self.new ≡ length self.old + (view_of src.entry).len) }
        ensures err { OnErr result (self.new ≡ self.old) }
        ensures free { AddsNoOctet (length self.old) (view_of src.entry).len → IsOk result }
    {
        let position = self.len();
        self.grow(src.len())?;
        self.write_at(position, src, &mut Turns::new());
        Ok(())
    }

    /// Appends the bits of the other buffer. The new length must fit `usize`.
    ///
    /// # Errors
    ///
    /// Returns `AllocError` if out of memory, never if no octet is added. The bits are unchanged.
    pub fn extend_from_buffer(&mut self, src: &BitBuffer) -> Result<(), AllocError>
        requires { length self.old + length src.now < 2 ^ 64 }
        ensures ok { OnOk result (self.new ≡ self.old ++ src.now) }
        ensures err { OnErr result (self.new ≡ self.old) }
        ensures free { AddsNoOctet (length self.old) (length src.now) → IsOk result }
    {
        self.extend_from_bitslice(src.as_bitstr())
    }

    /// Returns the list as a view of its octets.
    pub fn as_bitstr(&self) -> BitStr<'_>
        ensures list { bits_of result ≡ self.now }
        ensures len { (view_of result).len ≡ length self.now }
        ensures first { (view_of result).first ≡ 0 }
        ensures storage { bits (view_of result).storage ≡ padded self.now }
    {
        let len = self.len;
        BitStr::part_of(self.as_bytes(), 0, len)
    }

    /// Returns a buffer with all bits of the octets, which `from_vec` would drop.
    pub(crate) fn of_octets(bytes: Vec<u8>) -> BitBuffer
        requires { 8 * vec_len bytes < 2 ^ 64 }
        ensures { result ≡ bits bytes.items }
    {
        let len = bytes.len() * 8;
        BitBuffer { bytes, len }
    }

    /// Appends zeros.
    pub(crate) fn grow(&mut self, count: usize) -> Result<(), AllocError>
        requires { length self.old + count < 2 ^ 64 }
        ensures ok { OnOk result (self.new ≡ self.old ++ replicate count false) }
        ensures err { OnErr result (self.new ≡ self.old) }
        ensures free { AddsNoOctet (length self.old) count → IsOk result }
    {
        let len = self.len + count;
        let needed = len.div_ceil(8);
        if needed > self.bytes.len() {
            self.bytes.resize(needed, 0)?;
        }
        self.len = len;
        Ok(())
    }

    /// Writes a number of `width` binary digits over the zeros from bit `position` on, 64 bits a
    /// turn.
    #[inline(always)]
    pub(crate) fn put_number(
        &mut self,
        position: usize,
        number: u128,
        width: usize,
        turns: &mut Turns,
    )
        requires width { width ≤ 128 }
        requires below { number < 2 ^ width }
        requires within { position + width ≤ length self.old }
        requires zeros { IsZeroFrom position self.old }
        ensures list { self.new ≡ ored self.old position (digits number width) }
        ensures turns { turns.new.count ≡ turns.old.count + div_ceil width 64 }
    {
        put_digits(self.bytes.as_mut_slice(), position, number, width, turns);
    }

    /// Writes a number of at most 57 binary digits over the zeros from bit `position` on.
    #[inline(always)]
    pub(crate) fn put_few(&mut self, position: usize, number: u64, width: usize)
        requires width { width ≤ 57 }
        requires below { number < 2 ^ width }
        requires within { position + width ≤ length self.old }
        requires zeros { IsZeroFrom position self.old }
        ensures { self.new ≡ ored self.old position (digits number width) }
    {
        put_few(self.bytes.as_mut_slice(), position, number, width);
    }

    /// Writes the view over the zeros from bit `position` on.
    pub(crate) fn write_at(&mut self, position: usize, src: BitStr<'_>, turns: &mut Turns)
        requires room { position + (view_of src).len ≤ length self.old }
        requires zeros { IsZeroFrom position self.old }
        ensures list { self.new ≡ ored self.old position (bits_of src.entry) }
        ensures at_least { turns.old.count + div_ceil (view_of src.entry).len 64 ≤ turns.new.count }
        ensures at_most { turns.new.count ≤ turns.old.count + turns_for (view_of src.entry).len }
    {
        put_bitslice(self.bytes.as_mut_slice(), position, src, turns);
    }
}

impl PartialEq for BitBuffer {
    ghost use Rattle.std.specs.Cmp.{partial_equiv_from_equiv};
    ghost use Rattle.asn1_bits.specs.BitLists.{bits_eq, equiv_by};

    ghost eq = { bits_eq };

    ghost laws = { partial_equiv_from_equiv (equiv_by (λ bits. bits)) };

    fn eq(&self, other: &Self) -> bool {
        self.as_bitstr() == other.as_bitstr()
    }
}

impl Eq for BitBuffer {
    ghost use Rattle.asn1_bits.specs.BitLists.{equiv_by};

    ghost laws = { equiv_by (λ bits. bits) };
}

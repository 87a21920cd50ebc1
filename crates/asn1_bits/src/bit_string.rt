//! An owned list of bits.

ghost use Rattle.std.specs.Prelude.{◌≡◌, ◌+◌, ◌*◌, ◌^◌, ◌<◌, ◌↔◌, [], ◌++◌, All, length, take, IsTrue, IsOk, IfOk, OnOk, OnErr, vec_len};
ghost use Rattle.asn1_bits.specs.Bits.{bits, octets_for, padded, AddsNoOctet};
ghost use Rattle.asn1_bits.specs.BitStr.{view_of, bits_of};

use crate::bit_buffer::BitBuffer;
use crate::bit_str::BitStr;
use std::alloc::{AllocError, Global};
use std::cmp::Ordering;
use std::hash::{Hash, Hasher};
use std::marker::Model;

/// An owned list of bits, from the first bit of its octets on. Unused bits are zero. Its equality,
/// order and hash are those of the list.
#[derive(Debug, Drop)]
pub struct BitString {
    buffer: BitBuffer,
}

impl Model for BitString {
    ghost use Rattle.std.specs.Prelude.{Bool, List};

    ghost Value = { List Bool };

    ghost view = { λ s. s.buffer };
}

impl BitString {
    /// Returns an empty bit string. It allocates nothing.
    pub fn new(alloc: Global) -> BitString
        ensures { result ≡ [] }
    {
        BitString {
            buffer: BitBuffer::new(alloc),
        }
    }

    /// Returns the bits of the octets.
    ///
    /// The number of bits must fit `usize`.
    pub fn from_vec(octets: Vec<u8>) -> BitString
        requires { 8 * vec_len octets < 2 ^ 64 }
        ensures { result ≡ bits octets.items }
    {
        BitString {
            buffer: BitBuffer::of_octets(octets),
        }
    }

    /// Returns the number of bits.
    pub fn len(&self) -> usize
        ensures { result ≡ length self.now }
    {
        self.buffer.len()
    }

    /// Returns whether there are no bits.
    pub fn is_empty(&self) -> bool
        ensures { IsTrue result ↔ (length self.now ≡ 0) }
    {
        self.len() == 0
    }

    /// Returns the list as a view of its octets.
    pub fn as_bitstr(&self) -> BitStr<'_>
        ensures list { bits_of result ≡ self.now }
        ensures len { (view_of result).len ≡ length self.now }
        ensures first { (view_of result).first ≡ 0 }
        ensures storage { bits (view_of result).storage ≡ padded self.now }
    {
        self.buffer.as_bitstr()
    }

    /// Keeps the first `len` bits and removes any others.
    pub fn truncate(&mut self, len: usize)
        ensures { self.new ≡ take len self.old }
    {
        self.buffer.truncate(len);
    }

    /// Returns the octets: the list, then zeros to the octet's end.
    pub fn as_raw_slice(&self) -> &[u8]
        ensures spelled { bits result.now ≡ padded self.now }
        ensures count { length result.now ≡ octets_for (length self.now) }
        ensures octets { All (λ octet. octet < 256) result.now }
    {
        self.buffer.as_bytes()
    }

    /// Returns the octets: the list, then zeros to the octet's end.
    pub fn into_vec(self) -> Vec<u8>
        ensures spelled { bits result.items ≡ padded self }
        ensures count { vec_len result ≡ octets_for (length self) }
        ensures octets { All (λ octet. octet < 256) result.items }
    {
        let BitString { buffer } = self;
        buffer.into_vec()
    }

    /// Copies the list.
    ///
    /// # Errors
    ///
    /// Returns `AllocError` if out of memory. An empty list is always copied.
    pub fn clone(&self) -> Result<BitString, AllocError>
        ensures list { IfOk result (λ s. s ≡ self.now) }
        // For no bits it allocates nothing.
        ensures free { self.now ≡ [] → IsOk result }
    {
        Ok(BitString {
            buffer: self.buffer.clone()?,
        })
    }
}

/// Appends the bits of the view.
///
/// The new length must fit `usize`.
///
/// # Errors
///
/// Returns `AllocError` if out of memory; the bits are then unchanged. It never fails if no octet
/// is added.
pub fn extend_bitstring(dst: &mut BitString, src: BitStr<'_>) -> Result<(), AllocError>
    requires { length dst.old + (view_of src).len < 2 ^ 64 }
    ensures ok { OnOk result (dst.new ≡ dst.old ++ bits_of src.entry) }
    ensures len { OnOk result (length dst.new ≡ length dst.old + (view_of src.entry).len) }
    ensures err { OnErr result (dst.new ≡ dst.old) }
    // If no octet is added, it allocates nothing.
    ensures free { AddsNoOctet (length dst.old) (view_of src.entry).len → IsOk result }
{
    dst.buffer.extend_from_bitslice(src)
}

/// Copies the view.
///
/// # Errors
///
/// Returns `AllocError` if out of memory. An empty view is always copied.
///
/// # Examples
///
/// ```
/// use asn1_bits::{BitStr, to_bitstring};
///
/// let octets = [0b0101_1000];
/// let string = to_bitstring(rt.alloc(), BitStr::from_octets(&octets).slice(1, 4))?;
/// assert!(rt; string.as_raw_slice() == [0b1011_0000].as_slice());
/// ```
pub fn to_bitstring(alloc: Global, src: BitStr<'_>) -> Result<BitString, AllocError>
    ensures list { IfOk result (λ s. s ≡ bits_of src.entry) }
    ensures len { IfOk result (λ s. length s ≡ (view_of src.entry).len) }
    // For no bits it allocates nothing.
    ensures free { (view_of src.entry).len ≡ 0 → IsOk result }
{
    let mut bits = BitString::new(alloc);
    extend_bitstring(&mut bits, src)?;
    Ok(bits)
}

impl PartialEq for BitString {
    ghost use Rattle.std.specs.Cmp.{partial_equiv_from_equiv};
    ghost use Rattle.asn1_bits.specs.BitLists.{bits_eq, equiv_by};

    ghost eq = { bits_eq };

    ghost laws = { partial_equiv_from_equiv (equiv_by (λ bits. bits)) };

    fn eq(&self, other: &Self) -> bool {
        self.as_bitstr() == other.as_bitstr()
    }
}

impl Eq for BitString {
    ghost use Rattle.asn1_bits.specs.BitLists.{equiv_by};

    ghost laws = { equiv_by (λ bits. bits) };
}

impl Ord for BitString {
    ghost use Rattle.asn1_bits.specs.BitLists.{bits_cmp, total_by, agrees_by, ties_by};

    ghost cmp = { bits_cmp };

    ghost total = { total_by (λ bits. bits) };

    ghost matches_partial_cmp = { agrees_by (λ bits. bits) };

    ghost matches_eq = { ties_by (λ bits. bits) };

    fn cmp(&self, other: &Self) -> Ordering {
        self.as_bitstr().cmp(&other.as_bitstr())
    }
}

impl PartialOrd for BitString {
    ghost use Rattle.std.specs.Ordering.{as_partial_cmp};
    ghost use Rattle.std.specs.Cmp.{partial_order_from_agreeing_total};
    ghost use Rattle.asn1_bits.specs.BitLists.{bits_cmp, total_by, agrees_by, ties_by};

    ghost partial_cmp = { as_partial_cmp bits_cmp };

    ghost laws = { partial_order_from_agreeing_total bits_cmp (total_by (λ bits. bits))
        (agrees_by (λ bits. bits)) (ties_by (λ bits. bits)) };

    fn partial_cmp(&self, other: &Self) -> Option<Ordering> {
        Some(self.cmp(other))
    }
}

impl Hash for BitString {
    ghost use Rattle.asn1_bits.specs.BitLists.{bits_fed, alike_by};

    ghost hash_input = { bits_fed };

    ghost respects_eq = { (alike_by (λ bits. bits)).fed };

    fn hash<H: Hasher>(&self, state: &mut H) {
        self.as_bitstr().hash(state);
    }
}

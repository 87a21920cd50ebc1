//! A reader of bits.

ghost use Rattle.std.specs.Prelude.{◌≡◌, ◌+◌, ◌-◌, ◌*◌, ◌%◌, ◌^◌, ◌<◌, ◌≤◌, ◌↔◌, length, take, drop, OnOk, OnErr, IfOk, IfErr, IfSome, IsSome, IsErr, IsOk, Some, All, slice_get};
ghost use Rattle.asn1_bits.specs.Bits.{bits, number, digits};
ghost use Rattle.asn1_bits.specs.BitStr.{view_of};
ghost use Rattle.asn1_bits.specs.View.{whole, part, IsAligned};
ghost use Rattle.asn1_bits.specs.BitReader.{view_left, bits_left};
ghost use Rattle.asn1_bits.specs.Octets.{octets_in, IsBorrowed};

use crate::bit_str::BitStr;
use crate::octets::Octets;
use std::alloc::{AllocError, Global};

/// A reader of bits: the view that is left of an input.
#[derive(Clone, Copy, Debug)]
pub struct BitReader<'a> {
    view: BitStr<'a>,
}

impl<'a> BitReader<'a> {
    /// Returns a reader over all of the view.
    pub fn new(view: BitStr<'a>) -> BitReader<'a>
        ensures { view_left result ≡ view_of view.entry }
    {
        BitReader { view }
    }

    /// Returns a reader over all bits of the octets.
    ///
    /// The number of bits must fit `usize`.
    pub fn from_octets(octets: &'a [u8]) -> BitReader<'a>
        requires { 8 * length octets.now < 2 ^ 64 }
        ensures view { view_left result ≡ whole octets.now }
        ensures list { bits_left result ≡ bits octets.now }
    {
        BitReader {
            view: BitStr::from_octets(octets),
        }
    }

    /// Returns the view that is left.
    pub fn bits(&self) -> BitStr<'a>
        ensures { view_of result ≡ view_left self.now }
    {
        self.view
    }

    /// Returns the number of bits that are left.
    pub fn len(&self) -> usize
        ensures len { result ≡ (view_left self.now).len }
        ensures list { result ≡ length (bits_left self.now) }
    {
        self.view.len()
    }

    /// Borrows the octets that are left, or returns `None` if they do not lie on octet boundaries
    /// of the storage.
    pub fn aligned_octets(&self) -> Option<&'a [u8]>
        ensures aligned { IsSome result ↔ IsAligned (view_left self.now) }
        ensures bits { IfSome result (λ o. bits o.now ≡ bits_left self.now) }
        ensures count { IfSome result (λ o. 8 * length o.now ≡ (view_left self.now).len) }
        ensures octets { IfSome result (λ o. All (λ octet. octet < 256) o.now) }
    {
        self.view.aligned()
    }

    /// Returns the octets that are left: borrowed if they lie on octet boundaries of the storage,
    /// otherwise copied.
    ///
    /// The number of bits that are left must be a multiple of 8.
    ///
    /// # Errors
    ///
    /// Returns `AllocError` if out of memory. It never fails if the octets are borrowed or there
    /// are none.
    pub fn octets(&self, alloc: Global) -> Result<Octets<'a>, AllocError>
        requires { (view_left self.now).len % 8 ≡ 0 }
        ensures bits { IfOk result (λ o. bits (octets_in o) ≡ bits_left self.now) }
        ensures count { IfOk result (λ o. 8 * length (octets_in o) ≡ (view_left self.now).len) }
        ensures octets { IfOk result (λ o. All (λ octet. octet < 256) (octets_in o)) }
        ensures borrowed { IfOk result (λ o. IsBorrowed o ↔ IsAligned (view_left self.now)) }
        // If they are borrowed, or there are none, it allocates nothing.
        ensures free_aligned { IsAligned (view_left self.now) → IsOk result }
        ensures free { (view_left self.now).len ≡ 0 → IsOk result }
    {
        if let Some(octets) = self.view.aligned() {
            return Ok(Octets::Borrowed(octets));
        }
        let mut octets = Vec::new(alloc);
        self.view.push_octets_to(&mut octets)?;
        Ok(Octets::Owned(octets))
    }

    /// Takes the first `count` bits.
    ///
    /// # Errors
    ///
    /// Returns the number of missing bits if fewer than `count` are left. The reader is then
    /// unchanged.
    ///
    /// # Examples
    ///
    /// ```
    /// use asn1_bits::BitReader;
    ///
    /// let mut reader = BitReader::from_octets(&[0b1011_1001]);
    /// let front = reader.split(3)?;
    /// assert!(rt; front.first_u128(3) == 0b101);
    /// assert!(rt; reader.len() == 5);
    /// ```
    #[inline(always)]
    pub fn split(&mut self, count: usize) -> Result<BitReader<'a>, usize>
        ensures short { IsErr result ↔ ((view_left self.old).len < count) }
        ensures enough { OnOk result (count ≤ (view_left self.old).len) }
        ensures enough_bits { OnOk result (count ≤ length (bits_left self.old)) }
        ensures front { IfOk result (λ r. view_left r ≡ part (view_left self.old) 0 count) }
        ensures front_list { IfOk result (λ r. bits_left r ≡ take count (bits_left self.old)) }
        ensures rest { OnOk result
            (view_left self.new
            ≡ part (view_left self.old) count ((view_left self.old).len - count)) }
        ensures rest_list { OnOk result (bits_left self.new ≡ drop count (bits_left self.old)) }
        ensures lacks { IfErr result (λ n. (view_left self.old).len + n ≡ count) }
        ensures lacks_bits { IfErr result (λ n. length (bits_left self.old) + n ≡ count) }
        ensures unchanged { OnErr result (view_left self.new ≡ view_left self.old) }
    {
        let len = self.view.len();
        if count > len {
            return Err(count - len);
        }
        let (front, rest) = self.view.split_at_short(count);
        self.view = rest;
        Ok(BitReader { view: front })
    }

    /// Returns the first bit. The reader is unchanged.
    ///
    /// The reader must have at least one bit left.
    pub fn first_bit(&self) -> bool
        requires { 0 < (view_left self.now).len }
        ensures { slice_get (bits_left self.now) 0 ≡ Some result }
    {
        self.view.get(0)
    }

    /// Returns the number that the first `width` bits encode, most significant first. The reader is
    /// unchanged.
    ///
    /// The width must be at most 32, and at most the length.
    #[inline(always)]
    pub fn first_bits(&self, width: usize) -> u32
        requires width { width ≤ 32 }
        requires len { width ≤ (view_left self.now).len }
        ensures number { result ≡ number (take width (bits_left self.now)) }
        ensures digits { digits result width ≡ take width (bits_left self.now) }
        ensures below { result < 2 ^ width }
    {
        let number = self.view.first_u128::<false>(width);
        number as u32
    }

    /// Returns the number that the first `width` bits encode, most significant first. The reader is
    /// unchanged.
    ///
    /// The width must be at most 128, and at most the length.
    #[inline(always)]
    pub fn first_u128(&self, width: usize) -> u128
        requires width { width ≤ 128 }
        requires len { width ≤ (view_left self.now).len }
        ensures number { result ≡ number (take width (bits_left self.now)) }
        ensures digits { digits result width ≡ take width (bits_left self.now) }
        ensures below { result < 2 ^ width }
    {
        self.view.first_u128::<false>(width)
    }
}

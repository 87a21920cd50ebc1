//! Bits of a view as words.

ghost use Rattle.std.specs.Prelude.{◌≡◌, ◌+◌, ◌-◌, ◌%◌, ◌^◌, ◌<◌, ◌≤◌, IfSome, take, drop};
ghost use Rattle.asn1_bits.specs.Bits.{digits, number};
ghost use Rattle.asn1_bits.specs.BitStr.{view_of, bits_of};

use super::BitStr;
use crate::reads::{read_57, read_64, read_128, read_word, whole_word};

impl BitStr<'_> {
    /// Returns the number of the first `width` bits, the first of them its highest digit.
    /// `INLINE_NEAR_END` inlines the path for more than 64 bits near the end of the storage.
    #[inline(always)]
    pub(crate) fn first_u128<const INLINE_NEAR_END: bool>(&self, width: usize) -> u128
        requires width { width ≤ 128 }
        requires len { width ≤ (view_of self.now).len }
        ensures number { result ≡ number (take width (bits_of self.now)) }
        ensures digits { digits result width ≡ take width (bits_of self.now) }
        ensures below { result < 2 ^ width }
    {
        if width <= 57 {
            return u128::from(read_57(self.storage, self.octet, self.shift, width));
        }
        if width <= 64 {
            return u128::from(read_64(self.storage, self.octet, self.shift, width));
        }
        read_128::<INLINE_NEAR_END>(self.storage, self.octet, self.shift, width)
    }

    /// Returns `width` bits from bit `at` on, as the lowest digits of a word.
    #[inline(always)]
    pub(crate) fn word(&self, at: usize, width: usize) -> u64
        requires width { width ≤ 64 }
        requires within { at + width ≤ (view_of self.now).len }
        ensures { digits result width ≡ take width (drop at (bits_of self.now)) }
    {
        let low = self.shift + at % 8;
        let octet = self.octet + at / 8 + low / 8;
        read_word(self.storage, octet, low % 8, width)
    }

    /// Returns the view's bits, at most 64, as the lowest digits of a word.
    #[inline(always)]
    pub(crate) fn own_word(&self) -> u64
        requires { (view_of self.now).len ≤ 64 }
        ensures { digits result (view_of self.now).len ≡ bits_of self.now }
    {
        read_word(self.storage, self.octet, self.shift, self.len)
    }

    /// Returns the view's bits, of which there are 1 to 64, as the lowest digits of a word. `None`
    /// near the end of the storage.
    #[inline(always)]
    pub(crate) fn word_unless_near_end(&self) -> Option<u64>
        requires some { 0 < (view_of self.now).len }
        requires len { (view_of self.now).len ≤ 64 }
        ensures { IfSome result (λ n. digits n (view_of self.now).len ≡ bits_of self.now) }
    {
        if self.len > 57 {
            return Some(read_64(self.storage, self.octet, self.shift, self.len));
        }
        if self.octet + 8 > self.storage.len() {
            return None;
        }
        Some(read_57(self.storage, self.octet, self.shift, self.len))
    }

    /// Returns the number of the first 64 bits.
    #[inline(always)]
    pub(crate) fn first_word(&self) -> u64
        requires { 64 ≤ (view_of self.now).len }
        ensures { result ≡ number (take 64 (bits_of self.now)) }
    {
        read_64(self.storage, self.octet, self.shift, 64)
    }

    /// Returns the last 64 bits of a view of whole words, as the digits of a word.
    #[inline(always)]
    pub(super) fn last_word(&self) -> u64
        requires some { 64 ≤ (view_of self.now).len }
        requires whole { (view_of self.now).len % 64 ≡ 0 }
        ensures { digits result 64
            ≡ take 64 (drop ((view_of self.now).len - 64) (bits_of self.now)) }
    {
        // Whole words later the shift is the same.
        let octet = self.octet + (self.len / 8 - 8);
        read_64(self.storage, octet, self.shift, 64)
    }

    /// Returns the 64 bits from bit `at` on, as the digits of a word.
    pub(crate) fn word_of_64(&self, at: usize) -> u64
        requires { at + 64 ≤ (view_of self.now).len }
        ensures { digits result 64 ≡ take 64 (drop at (bits_of self.now)) }
    {
        let low = self.shift + at % 8;
        whole_word(self.storage, self.octet + at / 8 + low / 8, low % 8)
    }
}

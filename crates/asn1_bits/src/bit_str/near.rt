//! A view split near its first bit.

ghost use Rattle.std.specs.Prelude.{◌≡◌, ◌<◌, ◌≤◌, ◌-◌, take, drop};
ghost use Rattle.asn1_bits.specs.BitStr.{view_of, bits_of};
ghost use Rattle.asn1_bits.specs.View.{part};

use super::BitStr;

impl<'a> BitStr<'a> {
    /// Returns the first `len` bits of the view.
    #[inline(always)]
    pub(crate) fn front(&self, len: usize) -> BitStr<'a>
        requires { len ≤ (view_of self.now).len }
        ensures view { view_of result ≡ part (view_of self.now) 0 len }
        ensures list { bits_of result ≡ take len (bits_of self.now) }
    {
        BitStr {
            storage: self.storage,
            octet: self.octet,
            shift: self.shift,
            len,
        }
    }

    /// Splits as `split_at` does. For a constant `at` below 256 the branch is decided at compile
    /// time, and one addition replaces three.
    #[inline(always)]
    pub(crate) fn split_at_short(&self, at: usize) -> (BitStr<'a>, BitStr<'a>)
        requires { at ≤ (view_of self.now).len }
        ensures front { view_of result.0 ≡ part (view_of self.now) 0 at }
        ensures back { view_of result.1 ≡ part (view_of self.now) at ((view_of self.now).len - at) }
        ensures front_list { bits_of result.0 ≡ take at (bits_of self.now) }
        ensures back_list { bits_of result.1 ≡ drop at (bits_of self.now) }
    {
        if at >= 256 {
            return self.split_at(at);
        }
        // With so few bits no sum of indices exceeds `usize`.
        let behind = self.shift + at;
        let front = BitStr {
            storage: self.storage,
            octet: self.octet,
            shift: self.shift,
            len: at,
        };
        let back = BitStr {
            storage: self.storage,
            octet: self.octet + behind / 8,
            shift: behind % 8,
            len: self.len - at,
        };
        (front, back)
    }
}

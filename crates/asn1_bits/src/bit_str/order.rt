//! The order of views, word after word.

ghost use Rattle.std.specs.Prelude.{◌≡◌};
ghost use Rattle.asn1_bits.specs.BitLists.{bits_cmp};
ghost use Rattle.asn1_bits.specs.BitStr.{bits_of};

use super::BitStr;
use std::cmp::Ordering;

impl BitStr<'_> {
    /// Does what `cmp` does for views whose first words decide nothing. Not inlined. The views are
    /// passed by value, so that they are stored for this call alone.
    #[inline(never)]
    pub(super) fn cmp_words(self, other: BitStr<'_>) -> Ordering
        ensures { result ≡ bits_cmp (bits_of self.entry) (bits_of other.entry) }
    {
        let words = self.len.min(other.len) / 64;
        for k in 0..words {
            let (one, two) = (self.word_of_64(64 * k), other.word_of_64(64 * k));
            if one != two {
                return one.cmp(&two);
            }
        }
        let width = self.len.min(other.len) % 64;
        if width == 0 {
            return self.len.cmp(&other.len);
        }
        let one = self.slice(64 * words, width).first_u128::<false>(width);
        let two = other.slice(64 * words, width).first_u128::<false>(width);
        one.cmp(&two).then(self.len.cmp(&other.len))
    }
}

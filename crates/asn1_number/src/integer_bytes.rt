//! Octets of an integer, where they are made or where they lie.
ghost use Rattle.std.specs.Prelude.{◌≡◌, ◌↔◌, ℕ, pos, ◌≤◌, [], ◌++◌, length, drop, IsTrue, nat_eq, ⊤};
ghost use Rattle.std.specs.Cmp.{partial_equiv_from_equiv};
ghost use Rattle.std.specs.Cmp.Lexicographic.{pointwise, nat_list_eq_equiv};
ghost use Rattle.std.specs.Int.{to_be_bytes, w64};
ghost use Rattle.asn1_number.specs.Octets.{IsShortest, IsShortestUnsigned};

use crate::sign_octets::leading_sign_octets;
use std::alloc::AllocError;
use std::convert::AsSlice;
use std::marker::Model;

/// The octets of an integer, most significant first: up to seventeen of them inline, or borrowed
/// from the number that they encode. It is seen as a list of octets.
#[derive(Debug, Drop)]
pub struct IntegerBytes<'a> {
    storage: Storage<'a>,
}

#[derive(Clone, Copy, Debug)]
enum Storage<'a> {
    /// `words[start..]`, big-endian. `start + count` is 16; `count` is stored so that each variant
    /// has its length at one offset.
    Words {
        start: usize,
        count: usize,
        words: [[u8; 8]; 2],
    },
    /// The octets kept from `first` on.
    Copied {
        first: usize,
        octets: [u8; 17],
    },
    Borrowed(&'a [u8]),
}

impl<'a> Model for IntegerBytes<'a> {
    ghost use Rattle.std.specs.Prelude.{List, ℕ};

    ghost Value = { List ℕ };

    ghost use Rattle.asn1_number.specs.Storage.{octets_in, IsEndOfKept};

    ghost view = { λ b. octets_in b.storage };

    ghost invariant = { λ b. IsEndOfKept b.storage };
}

impl<'a> IntegerBytes<'a> {
    /// Copies the octets inline.
    ///
    /// The number of octets must be at most 17.
    pub fn from_octets(octets: &[u8]) -> IntegerBytes<'a>
        requires { length octets.now ≤ 17 }
        ensures { result ≡ octets.now }
    {
        let first = 17 - octets.len();
        let mut kept = [0; 17];
        kept[first..].copy_from_slice(octets);
        IntegerBytes {
            storage: Storage::Copied {
                first,
                octets: kept,
            },
        }
    }

    /// Returns the octets of two words from `start` on.
    pub(crate) fn end_of(start: usize, high: u64, low: u64) -> IntegerBytes<'a>
        requires { start ≤ 16 }
        ensures { result ≡ drop start (to_be_bytes w64 high ++ to_be_bytes w64 low) }
    {
        IntegerBytes {
            storage: Storage::Words {
                start,
                count: 16 - start,
                words: [high.to_be_bytes(), low.to_be_bytes()],
            },
        }
    }

    /// Returns the octets themselves.
    pub(crate) fn borrowed(octets: &'a [u8]) -> IntegerBytes<'a>
        ensures { result ≡ octets.now }
    {
        IntegerBytes {
            storage: Storage::Borrowed(octets),
        }
    }

    /// Returns the octets as a slice.
    pub fn as_ref(&self) -> &[u8]
        ensures { result.now ≡ self.now }
    {
        match &self.storage {
            Storage::Words {
                start,
                count,
                words,
            } => &words.as_flattened()[*start..*start + *count],
            Storage::Copied { first, octets } => &octets[*first..],
            Storage::Borrowed(octets) => octets,
        }
    }

    /// Returns the number of octets.
    pub fn len(&self) -> usize
        ensures { result ≡ length self.now }
    {
        self.as_ref().len()
    }

    /// Returns whether there are no octets. A number has at least one.
    pub fn is_empty(&self) -> bool
        ensures { IsTrue result ↔ (self.now ≡ []) }
    {
        self.as_ref().is_empty()
    }

    /// Returns the shortest unsigned octets, if these are the shortest two's complement
    /// octets of a number that is not negative.
    pub fn without_sign(self) -> IntegerBytes<'a>
        ensures { (n : ℕ) → IsShortest (pos n) self.entry → IsShortestUnsigned n result }
    {
        let skipped = leading_sign_octets(self.as_ref());
        match self.storage {
            Storage::Words {
                start,
                count,
                words,
            } => IntegerBytes {
                storage: Storage::Words {
                    start: start + skipped,
                    count: count - skipped,
                    words,
                },
            },
            Storage::Copied { first, octets } => IntegerBytes {
                storage: Storage::Copied {
                    first: first + skipped,
                    octets,
                },
            },
            Storage::Borrowed(octets) => IntegerBytes::borrowed(&octets[skipped..]),
        }
    }
}

impl AsSlice<u8> for IntegerBytes<'_> {
    ghost items = { λ octets. octets };

    fn as_slice(&self) -> &[u8] {
        self.as_ref()
    }
}

impl PartialEq for IntegerBytes<'_> {
    ghost eq = { pointwise nat_eq };

    ghost laws = { partial_equiv_from_equiv nat_list_eq_equiv };

    fn eq(&self, other: &Self) -> bool {
        self.as_ref() == other.as_ref()
    }
}

impl Eq for IntegerBytes<'_> {
    ghost laws = { nat_list_eq_equiv };
}

impl Clone for IntegerBytes<'_> {
    ghost is_clone = { λ x y. y ≡ x };

    ghost is_infallible = { λ _. ⊤ };

    /// Returns the same octets.
    ///
    /// # Errors
    ///
    /// Never returns an error: it allocates nothing.
    fn clone(&self) -> Result<Self, AllocError> {
        Ok(IntegerBytes {
            storage: self.storage,
        })
    }
}

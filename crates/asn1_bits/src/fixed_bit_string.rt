//! A list of bits whose length is known.

ghost use Rattle.std.specs.Prelude.{◌≡◌, ◌≢◌, ◌*◌, ◌<◌, ◌↔◌, ◌++◌, length, take, replicate, slice_set, slice_get, false, IfSome, IsSome, IsNone, Some};
ghost use Rattle.asn1_bits.specs.Bits.{bits, IsZeroFrom};
ghost use Rattle.asn1_bits.specs.BitStr.{view_of, bits_of};

use crate::bit_str::BitStr;
use crate::kernels::write_bitslice;
use crate::single_bits::{bit_from, set_bit};
use crate::turns::Turns;
use std::cmp::Ordering;
use std::hash::{Hash, Hasher};

/// A list of `N` bits, kept in the first bits of `N` octets. The other bits are zero. Its equality,
/// order and hash are those of the `N` bits.
#[derive(Clone, Copy, Debug)]
pub struct FixedBitString<const N: usize> {
    octets: [u8; N],
    ghost zeros: { IsZeroFrom N (bits octets) },
}

impl<const N: usize> FixedBitString<N> {
    ghost use Rattle.asn1_bits.specs.FixedBitString.{fixed_bits};

    /// Returns `N` zeros.
    pub fn zero() -> Self
        ensures { fixed_bits N result ≡ replicate N false }
    {
        FixedBitString { octets: [0; N] }
    }

    /// Returns the first `N` bits of the octets. The others are not kept.
    pub fn new(octets: [u8; N]) -> Self
        ensures { fixed_bits N result ≡ take N (bits octets.entry) }
    {
        FixedBitString::of_view(BitStr::part_of(&octets, 0, N))
    }

    /// Returns the bits of the view, or `None` if there are not `N`.
    pub fn from_bitstr(src: BitStr<'_>) -> Option<Self>
        ensures none { IsNone result ↔ ((view_of src.entry).len ≢ N) }
        ensures same { IsSome result → (view_of src.entry).len ≡ N }
        ensures some { IfSome result (λ b. fixed_bits N b ≡ bits_of src.entry) }
    {
        if src.len() != N {
            return None;
        }
        Some(FixedBitString::of_view(src))
    }

    /// Returns bit `i`.
    ///
    /// The index must be below `N`.
    pub fn get(&self, i: usize) -> bool
        requires { i < N }
        ensures { slice_get (fixed_bits N self.now) i ≡ Some result }
    {
        bit_from(&self.octets, 0, 0, i)
    }

    /// Sets bit `i` to `bit`.
    ///
    /// The index must be below `N`.
    pub fn set(&mut self, i: usize, bit: bool)
        requires { i < N }
        ensures { fixed_bits N self.new ≡ slice_set (fixed_bits N self.old) i bit }
    {
        set_bit(&mut self.octets, i, bit);
    }

    /// Returns the `N` bits as a view of the octets, whose other bits are zero.
    pub fn as_bitstr(&self) -> BitStr<'_>
        ensures list { bits_of result ≡ fixed_bits N self.now }
        ensures first { (view_of result).first ≡ 0 }
        ensures len { (view_of result).len ≡ N }
        ensures storage { bits (view_of result).storage ≡ fixed_bits N self.now
            ++ replicate (7 * N) false }
    {
        BitStr::part_of(&self.octets, 0, N)
    }

    /// Returns the bits of a view that has `N`.
    fn of_view(src: BitStr<'_>) -> Self
        requires { (view_of src).len ≡ N }
        ensures { fixed_bits N result ≡ bits_of src.entry }
    {
        let mut octets = [0; N];
        write_bitslice(&mut octets, 0, src, &mut Turns::new());
        FixedBitString { octets }
    }
}

impl<const N: usize> PartialEq for FixedBitString<N> {
    ghost use Rattle.std.specs.Cmp.{partial_equiv_from_equiv};
    ghost use Rattle.std.specs.Ordering.{on};
    ghost use Rattle.asn1_bits.specs.BitLists.{bits_eq, equiv_by};
    ghost use Rattle.asn1_bits.specs.FixedBitString.{fixed_bits};

    ghost eq = { on (fixed_bits N) bits_eq };

    ghost laws = { partial_equiv_from_equiv (equiv_by (fixed_bits N)) };

    fn eq(&self, other: &Self) -> bool {
        self.as_bitstr() == other.as_bitstr()
    }
}

impl<const N: usize> Eq for FixedBitString<N> {
    ghost use Rattle.asn1_bits.specs.BitLists.{equiv_by};
    ghost use Rattle.asn1_bits.specs.FixedBitString.{fixed_bits};

    ghost laws = { equiv_by (fixed_bits N) };
}

impl<const N: usize> Ord for FixedBitString<N> {
    ghost use Rattle.std.specs.Ordering.{on};
    ghost use Rattle.asn1_bits.specs.BitLists.{bits_cmp, total_by, agrees_by, ties_by};
    ghost use Rattle.asn1_bits.specs.FixedBitString.{fixed_bits};

    ghost cmp = { on (fixed_bits N) bits_cmp };

    ghost total = { total_by (fixed_bits N) };

    ghost matches_partial_cmp = { agrees_by (fixed_bits N) };

    ghost matches_eq = { ties_by (fixed_bits N) };

    fn cmp(&self, other: &Self) -> Ordering {
        self.as_bitstr().cmp(&other.as_bitstr())
    }
}

impl<const N: usize> PartialOrd for FixedBitString<N> {
    ghost use Rattle.std.specs.Ordering.{on, as_partial_cmp};
    ghost use Rattle.std.specs.Cmp.{partial_order_from_agreeing_total};
    ghost use Rattle.asn1_bits.specs.BitLists.{bits_cmp, total_by, agrees_by, ties_by};
    ghost use Rattle.asn1_bits.specs.FixedBitString.{fixed_bits};

    ghost partial_cmp = { as_partial_cmp (on (fixed_bits N) bits_cmp) };

    ghost laws = { partial_order_from_agreeing_total (on (fixed_bits N) bits_cmp)
        (total_by (fixed_bits N))
        (agrees_by (fixed_bits N)) (ties_by (fixed_bits N)) };

    fn partial_cmp(&self, other: &Self) -> Option<Ordering> {
        Some(self.cmp(other))
    }
}

impl<const N: usize> Hash for FixedBitString<N> {
    ghost use Rattle.asn1_bits.specs.BitLists.{bits_fed, alike_by};
    ghost use Rattle.asn1_bits.specs.FixedBitString.{fixed_bits};

    ghost hash_input = { λ b. bits_fed (fixed_bits N b) };

    ghost respects_eq = { (alike_by (fixed_bits N)).fed };

    fn hash<H: Hasher>(&self, state: &mut H) {
        self.as_bitstr().hash(state);
    }
}

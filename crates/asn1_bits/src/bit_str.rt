//! Views of bits.

ghost use Rattle.std.specs.Prelude.{◌≡◌, ◌+◌, ◌*◌, ◌/◌, ◌^◌, ◌<◌, ◌≤◌, ◌-◌, ◌%◌, ◌↔◌, length, IsNone, IfSome, IsTrue, Some, All, take, drop, slice_get};
ghost use Rattle.asn1_bits.specs.Bits.{bits, number, ored};
ghost use Rattle.asn1_bits.specs.View.{IsWithin};

mod near;
mod octets;
mod order;
mod words;

use crate::single_bits::{bit_from, from_octet};
use crate::target::{BegunWord, Target};
use crate::turns::Turns;
use crate::window::{or_shifted_words, or_words};
use std::cmp::Ordering;
use std::hash::{Hash, Hasher};

/// A view of `len` bits of a storage of octets, from any of its bits on. Its equality, order and
/// hash are those of its list of bits.
#[derive(Clone, Copy, Debug)]
pub struct BitStr<'a> {
    storage: &'a [u8],
    // The first bit is `8 * octet + shift`, which may pass `usize::MAX`.
    octet: usize,
    shift: usize,
    len: usize,
    ghost below: { shift < 8 },
    /// The view's bits lie in the storage.
    pub ghost within: { IsWithin
        (record { storage = storage.now; first = 8 * octet + shift; len = len }) },
    /// The storage is one of octets.
    pub ghost octets: { All (λ o. o < 256) storage.now },
}

impl<'a> BitStr<'a> {
    ghost use Rattle.asn1_bits.specs.BitStr.{view_of, bits_of};
    ghost use Rattle.asn1_bits.specs.View.{whole, part};

    /// Returns the `len` bits of the octets from bit `first` on, or `None` if the octets have
    /// fewer.
    ///
    /// # Examples
    ///
    /// ```
    /// use asn1_bits::BitStr;
    ///
    /// let octets = [0b0101_1000];
    /// let view = BitStr::new(&octets, 1, 4);
    /// assert!(rt; view.is_some_and(|it| it.len() == 4));
    /// assert!(rt; BitStr::new(&octets, 5, 4).is_none());
    /// ```
    pub fn new(octets: &'a [u8], first: usize, len: usize) -> Option<BitStr<'a>>
        ensures none { IsNone result ↔ (8 * length octets.now < first + len) }
        ensures some { IfSome result
            (λ b. view_of b ≡ record { storage = octets.now; first = first; len = len }) }
    {
        if first as u128 + len as u128 > 8 * (octets.len() as u128) {
            return None;
        }
        Some(BitStr::part_of(octets, first, len))
    }

    /// Returns a view of all bits of the octets.
    ///
    /// The number of bits must fit `usize`.
    pub fn from_octets(octets: &'a [u8]) -> BitStr<'a>
        requires { 8 * length octets.now < 2 ^ 64 }
        ensures view { view_of result ≡ whole octets.now }
        ensures list { bits_of result ≡ bits octets.now }
    {
        BitStr::part_of(octets, 0, octets.len() * 8)
    }

    /// Returns the number of bits.
    pub fn len(&self) -> usize
        ensures len { result ≡ (view_of self.now).len }
        ensures list { result ≡ length (bits_of self.now) }
    {
        self.len
    }

    /// Returns whether the view is empty.
    pub fn is_empty(&self) -> bool
        ensures { IsTrue result ↔ ((view_of self.now).len ≡ 0) }
    {
        self.len == 0
    }

    /// Returns the number of bits of the first octet that lie before the view.
    pub fn shift(&self) -> usize
        ensures { result ≡ (view_of self.now).first % 8 }
    {
        self.shift
    }

    /// Returns bit `i`.
    ///
    /// The index must be below the length.
    pub fn get(&self, i: usize) -> bool
        requires { i < (view_of self.now).len }
        ensures { slice_get (bits_of self.now) i ≡ Some result }
    {
        bit_from(self.storage, self.octet, self.shift, i)
    }

    /// Returns the `len` bits from bit `from` on.
    ///
    /// The bits must lie within the view.
    #[inline(always)]
    pub fn slice(&self, from: usize, len: usize) -> BitStr<'a>
        requires { from + len ≤ (view_of self.now).len }
        ensures view { view_of result ≡ part (view_of self.now) from len }
        ensures list { bits_of result ≡ take len (drop from (bits_of self.now)) }
    {
        let low = self.shift + from % 8;
        BitStr {
            storage: self.storage,
            octet: self.octet + from / 8 + low / 8,
            shift: low % 8,
            len,
        }
    }

    /// Splits the view at bit `at`.
    ///
    /// The index must be at most the length.
    ///
    /// # Examples
    ///
    /// ```
    /// use asn1_bits::BitStr;
    ///
    /// let octets = [0b1010_0001];
    /// let (front, back) = BitStr::from_octets(&octets).split_at(3);
    /// assert!(rt; front.len() == 3 && front.get(2));
    /// assert!(rt; back.len() == 5 && !back.get(0));
    /// ```
    #[inline(always)]
    pub fn split_at(&self, at: usize) -> (BitStr<'a>, BitStr<'a>)
        requires { at ≤ (view_of self.now).len }
        ensures front { view_of result.0 ≡ part (view_of self.now) 0 at }
        ensures back { view_of result.1 ≡ part (view_of self.now) at ((view_of self.now).len - at) }
        ensures front_list { bits_of result.0 ≡ take at (bits_of self.now) }
        ensures back_list { bits_of result.1 ≡ drop at (bits_of self.now) }
    {
        (self.slice(0, at), self.slice(at, self.len - at))
    }

    /// Returns the `len` bits of the octets from bit `first` on, which lie within them.
    #[inline(always)]
    pub(crate) fn part_of(octets: &'a [u8], first: usize, len: usize) -> BitStr<'a>
        requires { first + len ≤ 8 * length octets.now }
        ensures view { view_of result ≡ record { storage = octets.now; first = first; len = len } }
        ensures list { bits_of result ≡ take len (drop first (bits octets.now)) }
    {
        BitStr {
            storage: octets,
            octet: first / 8,
            shift: first % 8,
            len,
        }
    }

    /// ORs the last `width` bits of a view of whole words into the front of an octet of the target.
    /// They complete a word whose first bits are stored.
    pub(crate) fn or_edge(&self, width: usize, dst: &mut Target<'_>, rest: BegunWord, octet: usize)
        requires some { 64 ≤ (view_of self.now).len }
        requires whole { (view_of self.now).len % 64 ≡ 0 }
        requires left { width ≤ rest.left }
        requires width { width ≤ 8 }
        requires within { 8 * octet + width ≤ 8 * length dst.old.octets.now }
        ensures bits { bits dst.new.octets.now
            ≡ ored (bits dst.old.octets.now) (8 * octet)
            (take width (drop ((view_of self.now).len - width) (bits_of self.now))) }
        ensures same_reference { dst.new.octets.ghost_name ≡ dst.old.octets.ghost_name }
        ensures length { length dst.new.octets.now ≡ length dst.old.octets.now }
        ensures placed { dst.new.placed.count ≡ dst.old.placed.count }
    {
        if width > 0 {
            dst.or_rest(rest, octet, self.last_word(), width);
        }
    }

    /// ORs `count` words of 64 bits, taken from bit `64 - spill` on, into `dst` from octet `first`
    /// on. Ticks once for each word.
    pub(crate) fn or_words(
        &self,
        spill: usize,
        dst: &mut Target<'_>,
        first: usize,
        count: usize,
        turns: &mut Turns,
    )
        requires spill { spill < 8 }
        requires within { 64 - spill + 64 * count ≤ (view_of self.now).len }
        requires room { first + 8 * count ≤ length dst.old.octets.now }
        ensures bits { bits dst.new.octets.now
            ≡ ored (bits dst.old.octets.now) (8 * first)
            (take (64 * count) (drop (64 - spill) (bits_of self.now))) }
        ensures same_reference { dst.new.octets.ghost_name ≡ dst.old.octets.ghost_name }
        ensures length { length dst.new.octets.now ≡ length dst.old.octets.now }
        ensures each_turn_places { turns.new.count + dst.old.placed.count
            ≡ turns.old.count + dst.new.placed.count }
        ensures turns { turns.new.count ≡ turns.old.count + count }
    {
        let low = self.shift + 8 - spill;
        let octet = self.octet + low / 8;
        if low % 8 == 0 {
            let src = from_octet(self.storage, octet + 7);
            or_words(dst, first, src, count, turns);
        } else {
            // Start seven octets earlier, so that the second load of each pair does not read past
            // the last octet.
            let src = from_octet(self.storage, octet);
            or_shifted_words(dst, first, src, 56 + low % 8, count, turns);
        }
    }
}

impl PartialEq for BitStr<'_> {
    ghost use Rattle.std.specs.Cmp.{partial_equiv_from_equiv};
    ghost use Rattle.std.specs.Ordering.{on};
    ghost use Rattle.asn1_bits.specs.BitLists.{bits_eq, equiv_by};
    ghost use Rattle.asn1_bits.specs.BitStr.{bits_of};

    ghost eq = { on bits_of bits_eq };

    ghost laws = { partial_equiv_from_equiv (equiv_by bits_of) };

    fn eq(&self, other: &Self) -> bool {
        self.cmp(other) == Ordering::Equal
    }
}

impl Eq for BitStr<'_> {
    ghost use Rattle.asn1_bits.specs.BitLists.{equiv_by};
    ghost use Rattle.asn1_bits.specs.BitStr.{bits_of};

    ghost laws = { equiv_by bits_of };
}

impl Ord for BitStr<'_> {
    ghost use Rattle.std.specs.Ordering.{on};
    ghost use Rattle.asn1_bits.specs.BitLists.{bits_cmp, total_by, agrees_by, ties_by};
    ghost use Rattle.asn1_bits.specs.BitStr.{bits_of};

    ghost cmp = { on bits_of bits_cmp };

    ghost total = { total_by bits_of };

    ghost matches_partial_cmp = { agrees_by bits_of };

    ghost matches_eq = { ties_by bits_of };

    fn cmp(&self, other: &Self) -> Ordering {
        if self.len >= 64 && other.len >= 64 {
            let (one, two) = (self.first_word(), other.first_word());
            if one != two {
                return one.cmp(&two);
            }
        }
        self.cmp_words(*other)
    }
}

impl PartialOrd for BitStr<'_> {
    ghost use Rattle.std.specs.Ordering.{on, as_partial_cmp};
    ghost use Rattle.std.specs.Cmp.{partial_order_from_agreeing_total};
    ghost use Rattle.asn1_bits.specs.BitLists.{bits_cmp, total_by, agrees_by, ties_by};
    ghost use Rattle.asn1_bits.specs.BitStr.{bits_of};

    ghost partial_cmp = { as_partial_cmp (on bits_of bits_cmp) };

    ghost laws = { partial_order_from_agreeing_total (on bits_of bits_cmp) (total_by bits_of)
        (agrees_by bits_of) (ties_by bits_of) };

    fn partial_cmp(&self, other: &Self) -> Option<Ordering> {
        Some(self.cmp(other))
    }
}

impl Hash for BitStr<'_> {
    ghost use Rattle.asn1_bits.specs.BitLists.{bits_fed, alike_by};
    ghost use Rattle.asn1_bits.specs.BitStr.{bits_of};

    ghost hash_input = { λ b. bits_fed (bits_of b) };

    ghost respects_eq = { (alike_by bits_of).fed };

    fn hash<H: Hasher>(&self, state: &mut H) {
        state.write_usize(self.len);
        let words = self.len / 64;
        for k in 0..words {
            state.write_u64(self.word_of_64(64 * k));
        }
        let (_, tail) = self.split_at(64 * words);
        if tail.len > 0 {
            state.write_u64(tail.first_u128::<false>(tail.len) as u64);
        }
    }
}

//! Octets that words are stored in. The stores themselves are in `stores`, private to this module:
//! a body elsewhere that holds a `Target` stores by its methods alone, which count each word and
//! take its turn.

ghost use Rattle.std.specs.Prelude.{◌≡◌, ◌+◌, ◌-◌, ◌*◌, ◌++◌, ◌/◌, ◌%◌, ◌≤◌, ◌<◌, ◌^◌, length, take, drop};
ghost use Rattle.std.specs.Int.{div_ceil};
ghost use Rattle.asn1_bits.specs.Bits.{bits, digits, ored, overwritten, IsZeroFrom};

use crate::turns::Turns;
use stores::{
    add_octets, or_eight, or_front, or_octets, or_short, or_upper, or_word, put_pair, set_word,
    store_octets,
};

mod stores;

/// Octets in which only these methods store. A method that places a word of at most 64 bits counts
/// it in `placed` and takes one turn for it: in at most two stores, or octet by octet where fewer
/// than eight octets are left. `put_pair` places up to two words so, and `or_rest` completes a word
/// that `or_begun` has counted. So where `turns` and `placed` grow alike, no word was stored
/// without a turn, and no turn was taken without a word. `placed` takes no bytes.
#[derive(Drop)]
pub(crate) struct Target<'a> {
    octets: &'a mut [u8],
    placed: Turns,
}

/// A begun word, of which at most `left` bits are still to be stored. Its turn is taken, and the
/// value is used once.
#[derive(Drop)]
pub(crate) struct BegunWord {
    left: usize,
}

impl<'a> Target<'a> {
    /// Returns the octets as a target, in which no word was placed.
    #[inline(always)]
    pub(crate) fn new(octets: &'a mut [u8]) -> Target<'a>
        ensures same_reference { result.octets.ghost_name ≡ octets.entry.ghost_name }
        ensures octets { result.octets.now ≡ octets.old }
    {
        Target {
            octets,
            placed: Turns::new(),
        }
    }

    /// Takes the octets and their count out, and leaves none after. A loop over a target of its
    /// own keeps the address of the octets in registers; through a reference it is loaded for each
    /// word, since a store might have changed it.
    #[inline(always)]
    pub(crate) fn take(&mut self) -> Target<'a>
        ensures octets { result.octets.now ≡ self.old.octets.now }
        ensures same_reference { result.octets.ghost_name ≡ self.old.octets.ghost_name }
        ensures placed { result.placed.count ≡ self.old.placed.count }
    {
        std::mem::replace(self, Target::new(&mut []))
    }

    /// ORs the lowest `width` digits of the word in from bit `position` on: one turn.
    #[inline(always)]
    pub(crate) fn or_word(&mut self, position: usize, word: u64, width: usize, turns: &mut Turns)
        requires width { width ≤ 64 }
        requires within { position + width ≤ 8 * length self.old.octets.now }
        ensures bits { bits self.new.octets.now
            ≡ ored (bits self.old.octets.now) position (digits word width) }
        ensures same_reference { self.new.octets.ghost_name ≡ self.old.octets.ghost_name }
        ensures length { length self.new.octets.now ≡ length self.old.octets.now }
        ensures placed { self.new.placed.count ≡ self.old.placed.count + 1 }
        ensures turn { turns.new.count ≡ turns.old.count + 1 }
    {
        or_word(self.octets, position, word, width);
        self.placed.tick();
        turns.tick();
    }

    /// ORs the digits of the word into the eight octets from one of them on: one turn.
    #[inline(always)]
    pub(crate) fn or_octets(&mut self, first: usize, word: u64, turns: &mut Turns)
        requires { first + 8 ≤ length self.old.octets.now }
        ensures bits { bits self.new.octets.now
            ≡ ored (bits self.old.octets.now) (8 * first) (digits word 64) }
        ensures same_reference { self.new.octets.ghost_name ≡ self.old.octets.ghost_name }
        ensures length { length self.new.octets.now ≡ length self.old.octets.now }
        ensures placed { self.new.placed.count ≡ self.old.placed.count + 1 }
        ensures turn { turns.new.count ≡ turns.old.count + 1 }
    {
        or_octets(self.octets, first, word);
        self.placed.tick();
        turns.tick();
    }

    /// ORs eight octets of `src`, from octet `at` on, into those from octet `first` on: one turn.
    #[inline(always)]
    pub(crate) fn or_eight(&mut self, first: usize, src: &[u8], at: usize, turns: &mut Turns)
        requires room { first + 8 ≤ length self.old.octets.now }
        requires source { at + 8 ≤ length src.now }
        ensures bits { bits self.new.octets.now
            ≡ ored (bits self.old.octets.now) (8 * first) (bits (take 8 (drop at src.now))) }
        ensures same_reference { self.new.octets.ghost_name ≡ self.old.octets.ghost_name }
        ensures length { length self.new.octets.now ≡ length self.old.octets.now }
        ensures placed { self.new.placed.count ≡ self.old.placed.count + 1 }
        ensures turn { turns.new.count ≡ turns.old.count + 1 }
    {
        or_eight(self.octets, first, src, at);
        self.placed.tick();
        turns.tick();
    }

    /// ORs the first digits of a word in, as many as reach the end of the eight octets from that of
    /// `position` on, and counts one turn. `or_rest` stores the others later.
    #[inline(always)]
    pub(crate) fn or_begun(&mut self, position: usize, word: u64, turns: &mut Turns) -> BegunWord
        requires { position / 8 + 8 ≤ length self.old.octets.now }
        ensures bits { bits self.new.octets.now
            ≡ ored (bits self.old.octets.now) position
            (digits (word / 2 ^ (position % 8)) (64 - position % 8)) }
        ensures same_reference { self.new.octets.ghost_name ≡ self.old.octets.ghost_name }
        ensures length { length self.new.octets.now ≡ length self.old.octets.now }
        ensures left { result.left ≡ position % 8 }
        ensures placed { self.new.placed.count ≡ self.old.placed.count + 1 }
        ensures turn { turns.new.count ≡ turns.old.count + 1 }
    {
        or_upper(self.octets, position, word);
        self.placed.tick();
        turns.tick();
        BegunWord { left: position % 8 }
    }

    /// ORs the rest of a begun word in, from the first bit of an octet on. `or_begun` has counted
    /// its turn.
    #[inline(always)]
    pub(crate) fn or_rest(&mut self, _rest: BegunWord, octet: usize, word: u64, width: usize)
        requires left { width ≤ _rest.left }
        requires width { width ≤ 8 }
        requires within { 8 * octet + width ≤ 8 * length self.old.octets.now }
        ensures bits { bits self.new.octets.now
            ≡ ored (bits self.old.octets.now) (8 * octet) (digits word width) }
        ensures same_reference { self.new.octets.ghost_name ≡ self.old.octets.ghost_name }
        ensures length { length self.new.octets.now ≡ length self.old.octets.now }
        ensures placed { self.new.placed.count ≡ self.old.placed.count }
    {
        or_front(self.octets, octet, word, width);
    }

    /// Returns how many octets there are.
    #[inline(always)]
    pub(crate) fn octet_count(&self) -> usize
        ensures { result ≡ length self.now.octets.now }
    {
        self.octets.len()
    }

    /// Slow path of `or_word` for the last octets of a slice: digits within eight octets, octet by
    /// octet. Counts one turn.
    #[inline(always)]
    pub(crate) fn or_short(&mut self, position: usize, word: u64, width: usize, turns: &mut Turns)
        requires width { position % 8 + width ≤ 64 }
        requires within { position + width ≤ 8 * length self.old.octets.now }
        ensures bits { bits self.new.octets.now
            ≡ ored (bits self.old.octets.now) position (digits word width) }
        ensures same_reference { self.new.octets.ghost_name ≡ self.old.octets.ghost_name }
        ensures length { length self.new.octets.now ≡ length self.old.octets.now }
        ensures placed { self.new.placed.count ≡ self.old.placed.count + 1 }
        ensures turn { turns.new.count ≡ turns.old.count + 1 }
    {
        or_short(self.octets, position, word, width);
        self.placed.tick();
        turns.tick();
    }

    /// Writes a number over zeros from bit `position` on, and counts one turn. Its digits lie
    /// within eight octets of the slice.
    #[inline(always)]
    pub(crate) fn put_word(&mut self, position: usize, word: u64, width: usize, turns: &mut Turns)
        requires some { 0 < width }
        requires width { position % 8 + width ≤ 64 }
        requires below { word < 2 ^ width }
        requires eight { position / 8 + 8 ≤ length self.old.octets.now }
        requires zeros { IsZeroFrom position (bits self.old.octets.now) }
        ensures bits { bits self.new.octets.now
            ≡ ored (bits self.old.octets.now) position (digits word width) }
        ensures same_reference { self.new.octets.ghost_name ≡ self.old.octets.ghost_name }
        ensures length { length self.new.octets.now ≡ length self.old.octets.now }
        ensures placed { self.new.placed.count ≡ self.old.placed.count + 1 }
        ensures turn { turns.new.count ≡ turns.old.count + 1 }
    {
        add_octets(self.octets, position, word << (64 - width - position % 8));
        self.placed.tick();
        turns.tick();
    }

    /// Writes a number over zeros from bit `position` on, and counts a turn for each 64 digits.
    /// They lie within sixteen octets of the slice.
    #[inline(always)]
    pub(crate) fn put_pair(
        &mut self,
        position: usize,
        number: u128,
        width: usize,
        turns: &mut Turns,
    )
        requires some { 0 < width }
        requires width { position % 8 + width ≤ 128 }
        requires below { number < 2 ^ width }
        requires sixteen { position / 8 + 16 ≤ length self.old.octets.now }
        requires zeros { IsZeroFrom position (bits self.old.octets.now) }
        ensures bits { bits self.new.octets.now
            ≡ ored (bits self.old.octets.now) position (digits number width) }
        ensures same_reference { self.new.octets.ghost_name ≡ self.old.octets.ghost_name }
        ensures length { length self.new.octets.now ≡ length self.old.octets.now }
        ensures placed { self.new.placed.count ≡ self.old.placed.count + div_ceil width 64 }
        ensures turns { turns.new.count ≡ turns.old.count + div_ceil width 64 }
    {
        put_pair(self.octets, position, number, width);
        self.placed.tick();
        turns.tick();
        if width > 64 {
            self.placed.tick();
            turns.tick();
        }
    }

    /// Stores eight octets over those from octet `first` on: one turn.
    #[inline(always)]
    pub(crate) fn put_eight(&mut self, first: usize, octets: [u8; 8], turns: &mut Turns)
        requires { first + 8 ≤ length self.old.octets.now }
        ensures octets { self.new.octets.now
            ≡ take first self.old.octets.now ++ (octets ++ drop (first + 8) self.old.octets.now) }
        ensures same_reference { self.new.octets.ghost_name ≡ self.old.octets.ghost_name }
        ensures length { length self.new.octets.now ≡ length self.old.octets.now }
        ensures placed { self.new.placed.count ≡ self.old.placed.count + 1 }
        ensures turn { turns.new.count ≡ turns.old.count + 1 }
    {
        store_octets(self.octets, first, octets);
        self.placed.tick();
        turns.tick();
    }
    /// Writes the lowest `width` digits of the word over the bits from bit `position` on: one turn.
    #[inline(always)]
    pub(crate) fn set_word(&mut self, position: usize, word: u64, width: usize, turns: &mut Turns)
        requires width { width ≤ 64 }
        requires within { position + width ≤ 8 * length self.old.octets.now }
        requires fits { position + width < 2 ^ 64 }
        ensures bits { bits self.new.octets.now
            ≡ overwritten (bits self.old.octets.now) position (digits word width) }
        ensures same_reference { self.new.octets.ghost_name ≡ self.old.octets.ghost_name }
        ensures length { length self.new.octets.now ≡ length self.old.octets.now }
        ensures placed { self.new.placed.count ≡ self.old.placed.count + 1 }
        ensures turn { turns.new.count ≡ turns.old.count + 1 }
    {
        set_word(self.octets, position, word, width);
        self.placed.tick();
        turns.tick();
    }
}

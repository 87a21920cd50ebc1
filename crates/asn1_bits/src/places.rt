//! Lists of bits that words are ORed into, and a view that is placed in one.

ghost use Rattle.std.specs.Prelude.{◌≡◌, ℕ, ◌+◌, ◌*◌, ◌^◌, ◌<◌, ◌≤◌, List, Bool, length};
ghost use Rattle.std.specs.Int.{div_ceil};
ghost use Rattle.asn1_bits.specs.Bits.{bits, digits, ored};
ghost use Rattle.asn1_bits.specs.BitStr.{view_of, bits_of};
ghost use Rattle.asn1_bits.specs.Turns.{turns_for};

use crate::bit_str::BitStr;
use crate::single_bits::from_octet;
use crate::target::Target;
use crate::turns::Turns;
use crate::window::or_words;

/// A list of bits into which words are ORed, at any bit.
pub trait Places {
    /// The bits.
    ghost list: { Self → List Bool };

    /// The number of calls of `place`. Implement it as the `count` of a `Turns` field that `place`
    /// ticks.
    ghost placements: { Self → ℕ };

    /// The ghost name of the `&mut` that this target writes through, if any. Without it a contract
    /// says nothing of the borrowed slice.
    ghost reference: { Self → ℕ } = { λ _. 0 };

    /// Returns the number of bits.
    fn len(&self) -> u128
        ensures { result ≡ length (list self.now) };

    /// ORs the lowest `width` binary digits of `word` in from bit `position` on, most significant
    /// first. It takes one turn.
    ///
    /// The width must be at most 64, and the bits must lie within the list.
    fn place(&mut self, position: usize, word: u64, width: usize, turns: &mut Turns)
        requires width { width ≤ 64 }
        requires within { position + width ≤ length (list self.old) }
        ensures list { list self.new ≡ ored (list self.old) position (digits word width) }
        ensures counted { placements self.new ≡ placements self.old + 1 }
        ensures same_reference { reference self.new ≡ reference self.old }
        ensures turn { turns.new.count ≡ turns.old.count + 1 };
}

impl Places for Target<'_> {
    ghost list = { λ t. bits t.octets.now };

    ghost placements = { λ t. t.placed.count };

    ghost reference = { λ t. t.octets.ghost_name };

    #[inline(always)]
    fn len(&self) -> u128 {
        8 * self.octet_count() as u128
    }

    #[inline(always)]
    fn place(&mut self, position: usize, word: u64, width: usize, turns: &mut Turns) {
        self.or_word(position, word, width, turns);
    }
}

/// ORs the view into the target from bit `position` on. It takes one turn for each word that the
/// target places.
///
/// The bits must lie within the target, and the bit after them must fit `usize`.
pub fn place_bits<D: Places>(target: &mut D, position: usize, src: BitStr<'_>, turns: &mut Turns)
    requires fits { position + (view_of src).len < 2 ^ 64 }
    requires within { position + (view_of src).len ≤ length (D.list target.old) }
    ensures list { D.list target.new ≡ ored (D.list target.old) position (bits_of src.entry) }
    ensures same_reference { D.reference target.new ≡ D.reference target.old }
    // Each turn is a word that the target placed.
    ensures each_turn_places { turns.new.count + D.placements target.old
        ≡ turns.old.count + D.placements target.new }
    ensures at_least { turns.old.count + div_ceil (view_of src.entry).len 64 ≤ turns.new.count }
    ensures at_most { turns.new.count ≤ turns.old.count + turns_for (view_of src.entry).len }
{
    let words = src.len() / 64;
    for k in 0..words {
        target.place(position + 64 * k, src.word_of_64(64 * k), 64, turns);
    }
    let (_, tail) = src.split_at(64 * words);
    place_word(target, position + 64 * words, tail, turns);
}

/// ORs a view of at most a word into the target from bit `position` on, in one turn.
#[inline(always)]
pub(crate) fn place_word<D: Places>(
    target: &mut D,
    position: usize,
    src: BitStr<'_>,
    turns: &mut Turns,
)
    requires short { (view_of src).len ≤ 64 }
    requires within { position + (view_of src).len ≤ length (D.list target.old) }
    ensures list { D.list target.new ≡ ored (D.list target.old) position (bits_of src.entry) }
    ensures same_reference { D.reference target.new ≡ D.reference target.old }
    ensures each_turn_places { turns.new.count + D.placements target.old
        ≡ turns.old.count + D.placements target.new }
    ensures turns { turns.new.count ≡ turns.old.count + div_ceil (view_of src.entry).len 64 }
{
    let len = src.len();
    if len > 0 {
        target.place(position, src.own_word(), len, turns);
    }
}

/// ORs octets into the target from octet `first` on: a turn for each eight of them, and one for the
/// rest. Not inlined, since its caller needs more registers for bits off the octet boundary.
#[inline(never)]
pub(crate) fn or_aligned<'a>(
    target: Target<'a>,
    first: usize,
    src: &[u8],
    turns: &mut Turns,
) -> Target<'a>
    requires room { first + length src.now ≤ length target.octets.now }
    requires fits { 8 * (first + length src.now) < 2 ^ 64 }
    ensures bits { bits result.octets.now
        ≡ ored (bits target.entry.octets.now) (8 * first) (bits src.now) }
    ensures same_reference { result.octets.ghost_name ≡ target.entry.octets.ghost_name }
    ensures length { length result.octets.now ≡ length target.entry.octets.now }
    ensures each_turn_places { turns.new.count + target.entry.placed.count
        ≡ turns.old.count + result.placed.count }
    ensures turns { turns.new.count ≡ turns.old.count + div_ceil (8 * length src.now) 64 }
{
    let mut own = target;
    let words = src.len() / 8;
    or_words(&mut own, first, src, words, turns);
    let tail = BitStr::from_octets(from_octet(src, 8 * words));
    place_word(&mut own, 8 * (first + 8 * words), tail, turns);
    own
}

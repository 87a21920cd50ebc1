//! The dotted text of object identifiers: the decimals of the arcs, joined by full stops.

ghost use Rattle.std.specs.Prelude.{◌≡◌, ◌≢◌, ◌↔◌, ◌⊎◌, ◌<◌, ◌≤◌, ◌+◌, ◌*◌, ◌^◌, ℕ, List, ◌∷◌, ◌++◌, IsTrue, length, take, drop, decimal};
ghost use Rattle.asn1_oid.specs.Arcs.{IsValidArcs, dotted, full_stop};
ghost use Rattle.asn1_oid.specs.DottedText.{IsDottedText};

use crate::codes::{ARCS, DONE, ROOM, TEXT, TOO_MANY};
use asn1_values::{Oid, parse_arcs};

/// What is between arcs.
const FULL_STOP: u8 = b'.';

/// The decimal of a number after a full stop, at the end of the octets.
#[derive(Clone, Copy, Debug)]
struct Decimal {
    octets: [u8; 11],
    first: usize,
}

impl Decimal {
    /// Returns the decimal of a number.
    fn of(number: u32) -> Decimal
        ensures text { drop result.first result.octets ≡ full_stop ∷ decimal number }
        ensures digits { drop (result.first + 1) result.octets ≡ decimal number }
        ensures within { result.first < 10 }
    {
        let mut octets = [FULL_STOP; 11];
        let mut left = number;
        for i in 0..10 {
            octets[10 - i] = b'0' + (left % 10) as u8;
            left /= 10;
            if left == 0 {
                octets[9 - i] = FULL_STOP;
                return Decimal {
                    octets,
                    first: 9 - i,
                };
            }
        }
        unreachable!()
    }

    /// Returns the full stop and the digits.
    fn with_stop(&self) -> &[u8]
        requires { self.now.first < 10 }
        ensures { result.now ≡ drop self.now.first self.now.octets }
    {
        &self.octets[self.first..]
    }

    /// Returns the digits.
    fn digits(&self) -> &[u8]
        requires { self.now.first < 10 }
        ensures { result.now ≡ drop (self.now.first + 1) self.now.octets }
    {
        &self.octets[self.first + 1..]
    }
}

/// Writes the dotted text of the arcs to the front of the room, of which eleven octets for each arc
/// are always enough. How many octets the text has is returned also where the room is too small.
#[unsafe(no_mangle)]
pub extern "C" fn asn1v_oid_text(arcs: &[u32], room: &mut [u8], count: &mut usize) -> u32
    ensures written { result ≡ 0 → take count.new room.new ≡ dotted arcs.now }
    ensures rest { result ≡ 0 → drop count.new room.new ≡ drop count.new room.old }
    ensures count { (result ≡ 0) ⊎ (result ≡ 3) → count.new ≡ length (dotted arcs.now) }
    ensures most { (result ≡ 0) ⊎ (result ≡ 3) → count.new ≤ 11 * length arcs.now }
    ensures arcs { result ≡ 8 ↔ ¬ (IsValidArcs arcs.now) }
    ensures too_many { result ≡ 23
        ↔ (IsValidArcs arcs.now × (2 ^ 64 ≤ length (dotted arcs.now))) }
    ensures room { result ≡ 3 → length room.old < length (dotted arcs.now) }
    ensures enough { result ≡ 0 → length (dotted arcs.now) ≤ length room.old }
    ensures codes { result ≢ 0 → result ≢ 8 → result ≢ 23 → result ≡ 3 }
    ensures unchanged { result ≢ 0 → room.new ≡ room.old }
    ensures kept { result ≢ 0 → result ≢ 3 → count.new ≡ count.old }
{
    if !are_valid(arcs) {
        return ARCS;
    }
    let [first, others @ ..] = arcs else {
        return ARCS;
    };
    let length = text_length(*first, others);
    if length > usize::MAX as u128 {
        return TOO_MANY;
    }
    *count = length as usize;
    if length > room.len() as u128 {
        return ROOM;
    }
    put_text(*first, others, room);
    DONE
}

/// Returns how many octets the dotted text has.
fn text_length(first: u32, others: &[u32]) -> u128
    ensures length { result ≡ length (dotted (first ∷ others.now)) }
    ensures most { result ≤ 11 * (length others.now + 1) }
{
    let mut total = Decimal::of(first).digits().len() as u128;
    for arc in others {
        total += Decimal::of(*arc).with_stop().len() as u128;
    }
    total
}

/// Writes the dotted text to the front of the room.
fn put_text(first: u32, others: &[u32], room: &mut [u8])
    requires { length (dotted (first ∷ others.now)) ≤ length room.old }
    ensures { room.new ≡ dotted (first ∷ others.now)
        ++ drop (length (dotted (first ∷ others.now))) room.old }
{
    let mut at = put_at(Decimal::of(first).digits(), room, 0);
    for arc in others {
        at = put_at(Decimal::of(*arc).with_stop(), room, at);
    }
}

/// Writes the octets to the room from an index on, and returns the index after them.
pub(crate) fn put_at(octets: &[u8], room: &mut [u8], at: usize) -> usize
    requires { at + length octets.now ≤ length room.old }
    ensures put { room.new
        ≡ take at room.old ++ (octets.now ++ drop (at + length octets.now) room.old) }
    ensures place { result ≡ at + length octets.now }
{
    let end = at + octets.len();
    room[at..end].copy_from_slice(octets);
    end
}

/// Writes the arcs of which the octets are the dotted text to the front of the room: half as many
/// as there are octets, and one more, are always enough. How many arcs there are is returned also where
/// the room is too small.
#[unsafe(no_mangle)]
pub extern "C" fn asn1v_oid_from_text(text: &[u8], room: &mut [u32], count: &mut usize) -> u32
    ensures written { result ≡ 0 → IsDottedText (take count.new room.new) text.now }
    ensures within { result ≡ 0 → count.new ≤ length room.new }
    ensures rest { result ≡ 0 → drop count.new room.new ≡ drop count.new room.old }
    ensures text { result ≡ 16 ↔ ((arcs : List ℕ) → ¬ (IsDottedText arcs text.now)) }
    ensures count { result ≢ 16 → (arcs : List ℕ) → IsDottedText arcs text.now
        → count.new ≡ length arcs }
    ensures most { result ≢ 16 → 2 * count.new ≤ length text.now + 1 }
    ensures room { result ≡ 3 → length room.old < count.new }
    ensures codes { result ≢ 0 → result ≢ 16 → result ≡ 3 }
    ensures unchanged { result ≢ 0 → room.new ≡ room.old }
    ensures kept { result ≡ 16 → count.new ≡ count.old }
{
    let Some(found) = parse_arcs(text, &mut []) else {
        return TEXT;
    };
    *count = found;
    if found > room.len() {
        return ROOM;
    }
    match parse_arcs(text, room) {
        Some(_) => DONE,
        None => unreachable!(),
    }
}

/// Returns whether the arcs are those of an identifier.
fn are_valid(arcs: &[u32]) -> bool
    ensures { IsTrue result ↔ IsValidArcs arcs.now }
{
    Oid::new(arcs).is_some()
}

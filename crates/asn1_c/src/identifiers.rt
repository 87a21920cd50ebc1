//! Object identifiers (X.660) and their contents (X.690 8.19).

ghost use Rattle.std.specs.Prelude.{◌≡◌, ◌≢◌, ◌↔◌, ◌⊎◌, ◌+◌, ◌-◌, ◌*◌, ◌<◌, ◌≤◌, ◌^◌, ℕ, List, Ok, IfSome, IfNone, length, take, drop};
ghost use Rattle.asn1_oid.specs.Arcs.{IsValidArcs};
ghost use Rattle.asn1_oid.specs.Contents.{IsContents, FitU32};
ghost use Rattle.asn1_oid.specs.Reading.{contents_reading};
ghost use Rattle.asn1_c.specs.Arcs.{more_arcs};

use crate::codes::{ARC_COUNT, ARC_TOO_LARGE, ARCS, DONE, MALFORMED, ROOM, TOO_MANY};
use asn1_values::{ContentsError, OctetSource, Oid, OidContents, check_contents};

/// Checks that the octets are the contents of an identifier whose arcs all fit 32 bits.
#[unsafe(no_mangle)]
pub extern "C" fn asn1v_oid_check(octets: &[u8]) -> u32
    ensures done { result ≡ 0
        ↔ ((arcs : List ℕ) × IsContents arcs octets.now × FitU32 arcs) }
    ensures arc_too_large { result ≡ 7
        ↔ ((arcs : List ℕ) × IsContents arcs octets.now × ¬ (FitU32 arcs)) }
    ensures malformed { result ≡ 6 ↔ ((arcs : List ℕ) → ¬ (IsContents arcs octets.now)) }
    ensures codes { result ≢ 0 → result ≢ 7 → result ≡ 6 }
{
    code_of_contents(&octets)
}

/// Checks any list of octets as `asn1v_oid_check` does.
pub(crate) fn code_of_contents<S: OctetSource>(source: &S) -> u32
    ensures done { result ≡ 0
        ↔ ((arcs : List ℕ) × IsContents arcs (S.list source.now) × FitU32 arcs) }
    ensures arc_too_large { result ≡ 7
        ↔ ((arcs : List ℕ) × IsContents arcs (S.list source.now) × ¬ (FitU32 arcs)) }
    ensures malformed { result ≡ 6
        ↔ ((arcs : List ℕ) → ¬ (IsContents arcs (S.list source.now))) }
    ensures codes { result ≢ 0 → result ≢ 7 → result ≡ 6 }
{
    match check_contents(source) {
        Ok(()) => DONE,
        Err(ContentsError::ArcTooLarge) => ARC_TOO_LARGE,
        Err(_) => MALFORMED,
    }
}

/// Checks that the arcs are those of an identifier.
#[unsafe(no_mangle)]
pub extern "C" fn asn1v_oid_check_arcs(arcs: &[u32]) -> u32
    ensures done { result ≡ 0 ↔ IsValidArcs arcs.now }
    ensures arcs { result ≢ 0 → result ≡ 8 }
{
    match Oid::new(arcs) {
        Some(_) => DONE,
        None => ARCS,
    }
}

/// Writes the contents of the arcs into the room, of which five octets an arc are always enough.
/// How many octets they are is returned also where the room is too small.
#[unsafe(no_mangle)]
#[tactic(auto, using(asn1_oid::specs::Laws::WritingLaws::contents_only))]
pub extern "C" fn asn1v_oid_contents(arcs: &[u32], room: &mut [u8], count: &mut usize) -> u32
    ensures written { result ≡ 0 → IsContents arcs.now (take count.new room.new) }
    ensures within { result ≡ 0 → count.new ≤ length room.new }
    ensures rest { result ≡ 0 → drop count.new room.new ≡ drop count.new room.old }
    ensures arcs { result ≡ 8 ↔ ¬ (IsValidArcs arcs.now) }
    ensures arc_count { result ≡ 9 ↔ (IsValidArcs arcs.now × (length arcs.now ≡ 1)) }
    ensures room { result ≡ 3 → (octets : List ℕ) → IsContents arcs.now octets
        → length room.old < length octets }
    ensures count { (result ≡ 0) ⊎ (result ≡ 3) → (octets : List ℕ) → IsContents arcs.now octets
        → count.new ≡ length octets }
    ensures most { (result ≡ 0) ⊎ (result ≡ 3) → count.new ≤ 5 * length arcs.now }
    ensures too_many { result ≡ 23 → (octets : List ℕ) → IsContents arcs.now octets
        → 2 ^ 64 ≤ length octets }
    ensures codes { result ≢ 0 → result ≢ 8 → result ≢ 9 → result ≢ 23 → result ≡ 3 }
    ensures unchanged { result ≢ 0 → room.new ≡ room.old }
    ensures kept { result ≢ 0 → result ≢ 3 → count.new ≡ count.old }
{
    let Some(oid) = Oid::new(arcs) else {
        return ARCS;
    };
    let (Some(contents), Some(len)) = (oid.contents(), oid.contents_len()) else {
        return ARC_COUNT;
    };
    if len > usize::MAX as u128 {
        return TOO_MANY;
    }
    *count = len as usize;
    if len > room.len() as u128 {
        return ROOM;
    }
    put_each(contents, room);
    DONE
}

/// The largest number of a first subidentifier: 40 times 2, and the largest arc.
const LARGEST_FIRST: u64 = 4_294_967_375;

/// Writes the arcs that contents octets encode to the front of the room, and returns how
/// many, also where the room is too small. One arc more than there are octets is always enough.
#[unsafe(no_mangle)]
pub extern "C" fn asn1v_oid_arcs(octets: &[u8], room: &mut [u32], count: &mut usize) -> u32
    ensures written { result ≡ 0 → IsContents (take count.new room.new) octets.now }
    ensures within { result ≡ 0 → count.new ≤ length room.new }
    ensures arc_too_large { result ≡ 7
        ↔ ((arcs : List ℕ) × IsContents arcs octets.now × ¬ (FitU32 arcs)) }
    ensures malformed { result ≡ 6 ↔ ((arcs : List ℕ) → ¬ (IsContents arcs octets.now)) }
    ensures room { result ≡ 3 → length room.old < count.new }
    ensures count { result ≡ 3 → (arcs : List ℕ) → IsContents arcs octets.now
        → count.new ≡ length arcs }
    ensures most { (result ≡ 0) ⊎ (result ≡ 3) → count.new ≤ length octets.now + 1 }
    ensures codes { result ≢ 0 → result ≢ 7 → result ≢ 6 → result ≡ 3 }
    ensures same_length { length room.new ≡ length room.old }
    ensures unchanged { result ≢ 0 → room.new ≡ room.old }
    ensures kept { result ≢ 0 → result ≢ 3 → count.new ≡ count.old }
{
    match check_contents(&octets) {
        Ok(()) => {
            let needed = count_arcs(octets);
            *count = needed;
            if needed > room.len() {
                return ROOM;
            }
            match write_arcs(octets, room) {
                Some(written) => {
                    *count = written;
                    DONE
                }
                None => unreachable!(),
            }
        }
        Err(ContentsError::ArcTooLarge) => ARC_TOO_LARGE,
        Err(_) => MALFORMED,
    }
}

/// Returns how many arcs contents have.
fn count_arcs(octets: &[u8]) -> usize
    ensures counted { (arcs : List ℕ) → contents_reading octets.now ≡ Ok arcs
        → result ≡ length arcs }
    ensures most { result ≤ length octets.now + 1 }
{
    let mut count = 0;
    for octet in octets {
        if *octet <= 127 {
            count = next_count(count);
        }
    }
    count
}

/// Returns how many arcs there are with one number more: the first two arcs have one number.
fn next_count(count: usize) -> usize
    requires { count < 2 ^ 64 - 1 }
    ensures first { count ≡ 0 → result ≡ 2 }
    ensures other { count ≢ 0 → result ≡ count + 1 }
{
    if count == 0 { 2 } else { count + 1 }
}

/// Writes the arcs of contents, if there is room for them, and returns how many.
fn write_arcs(octets: &[u8], room: &mut [u32]) -> Option<usize>
    requires { (arcs : List ℕ) × (contents_reading octets.now ≡ Ok arcs) }
    ensures within { IfSome result (λ k. k ≤ length room.new) }
    ensures written { IfSome result (λ k. contents_reading octets.now ≡ Ok (take k room.new)) }
    ensures none { IfNone result ((arcs : List ℕ) → contents_reading octets.now ≡ Ok arcs
        → length room.old < length arcs) }
    ensures same_length { length room.new ≡ length room.old }
{
    let mut number = 0u64;
    let mut count = 0;
    for octet in octets {
        number = (128 * number + u64::from(*octet % 128)).min(LARGEST_FIRST + 1);
        if *octet < 128 {
            let Some(more) = put_number(number, count, room) else {
                return None;
            };
            count = more;
            number = 0;
        }
    }
    Some(count)
}

/// Writes the arcs of one more number after `count` others, the first two arcs where there are
/// none, if there is room.
fn put_number(number: u64, count: usize, room: &mut [u32]) -> Option<usize>
    requires first { count ≡ 0 → number ≤ 4294967375 }
    requires other { count ≢ 0 → number < 2 ^ 32 }
    requires within { count ≤ length room.old }
    ensures within { IfSome result (λ k. k ≤ length room.new) }
    ensures written { IfSome result
        (λ k. take k room.new ≡ more_arcs (take count room.old) number) }
    ensures none { IfNone result
        (length room.old < length (more_arcs (take count room.old) number)) }
    ensures same_length { length room.new ≡ length room.old }
{
    if count > 0 {
        if count == room.len() {
            return None;
        }
        room[count] = number as u32;
        return Some(count + 1);
    }
    if room.len() < 2 {
        return None;
    }
    let x = (number / 40).min(2);
    room[0] = x as u32;
    room[1] = (number - 40 * x) as u32;
    Some(2)
}

/// Writes the octets to the front of the room.
fn put_each(octets: OidContents<'_>, room: &mut [u8])
    requires { length octets ≤ length room.old }
    ensures front { take (length octets.entry) room.new ≡ octets.entry }
    ensures rest { drop (length octets.entry) room.new ≡ drop (length octets.entry) room.old }
    ensures same { length room.new ≡ length room.old }
{
    let mut at = 0;
    for octet in octets {
        room[at] = octet;
        at += 1;
    }
}

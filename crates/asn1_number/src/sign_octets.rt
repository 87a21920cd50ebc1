//! The octets before the shortest ones, which only repeat a sign or are zero.
ghost use Rattle.std.specs.Prelude.{◌≡◌, ℕ, pos, ◌<◌, ◌≤◌, ◌↔◌, ◌⊎◌, length, drop, IsTrue};
ghost use Rattle.asn1_number.specs.Octets.{IsShortest, IsShortestUnsigned, signed};

/// Returns whether the first octet only repeats the sign of the second.
fn repeats_sign(first: u8, second: u8) -> bool
    ensures { IsTrue result ↔ (((first ≡ 0) × (second < 128)) ⊎ ((first ≡ 255) × (128 ≤ second))) }
{
    first == 0 && second < 128 || first == 255 && second >= 128
}

/// Returns whether the first octet alone shows that the octets are the shortest of their two's
/// complement value (X.690 8.3.2), as it mostly does.
pub(crate) fn is_shortest_at_once(octets: &[u8]) -> bool
    requires { 0 < length octets.now }
    ensures { IsTrue result → IsShortest (signed octets.now) octets.now }
{
    octets.len() == 1 || octets[0].wrapping_add(1) > 1
}

/// Returns the end of the octets that is the shortest encoding of the same two's complement value
/// (X.690 8.3.2). It is empty for no octets.
pub fn without_redundant_sign_octets(octets: &[u8]) -> &[u8]
    ensures end { (k : ℕ) × (k ≤ length octets.now) × (result.now ≡ drop k octets.now) }
    ensures shortest { 0 < length octets.now → IsShortest (signed octets.now) result.now }
{
    let mut rest = octets;
    while let [first, second, ..] = rest {
        if !repeats_sign(*first, *second) {
            break;
        }
        rest = &rest[1..];
    }
    rest
}

/// Does what `without_redundant_sign_octets` does. Mostly one octet shows that there are none.
pub(crate) fn without_redundant_sign_octets_fast(octets: &[u8]) -> &[u8]
    requires { 0 < length octets.now }
    ensures { IsShortest (signed octets.now) result.now }
{
    if is_shortest_at_once(octets) {
        return octets;
    }
    without_redundant_sign_octets(octets)
}

/// Returns how many first octets of a number's shortest two's complement octets only say that it is
/// not negative: one zero octet before others, or none.
pub(crate) fn leading_sign_octets(octets: &[u8]) -> usize
    ensures within { result ≤ length octets.now }
    ensures shortest { (n : ℕ) → IsShortest (pos n) octets.now
        → IsShortestUnsigned n (drop result octets.now) }
{
    match octets {
        [0, _, ..] => 1,
        _ => 0,
    }
}

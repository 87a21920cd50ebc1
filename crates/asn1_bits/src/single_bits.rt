//! Single bits of a slice of octets.

ghost use Rattle.std.specs.Prelude.{◌≡◌, ◌+◌, ◌*◌, ◌<◌, ◌≤◌, ◌-◌, ◌++◌, false, length, take, drop, replicate, slice_index_or, slice_set};
ghost use Rattle.std.specs.Int.{div_ceil};
ghost use Rattle.asn1_bits.specs.Bits.{bits};

/// Returns bit `i` of those from bit `shift` of an octet on.
pub(crate) fn bit_from(octets: &[u8], octet: usize, shift: usize, i: usize) -> bool
    requires shift { shift < 8 }
    requires within { 8 * octet + shift + i < 8 * length octets.now }
    ensures { result ≡ slice_index_or (bits octets.now) (8 * octet + shift + i) false }
{
    let low = shift + i % 8;
    (octets[octet + i / 8 + low / 8] >> (7 - low % 8)) & 1 == 1
}

/// Returns the octets from one of them on.
pub(crate) fn from_octet(octets: &[u8], at: usize) -> &[u8]
    requires { at ≤ length octets.now }
    ensures { result.now ≡ drop at octets.now }
{
    let (_, rest) = octets.split_at(at);
    rest
}

/// Makes bit `i` of the octets that bit.
pub(crate) fn set_bit(octets: &mut [u8], i: usize, bit: bool)
    requires { i < 8 * length octets.old }
    ensures { bits octets.new ≡ slice_set (bits octets.old) i bit }
{
    let mask = 1u8 << (7 - i % 8);
    let octet = octets[i / 8];
    octets[i / 8] = if bit { octet | mask } else { octet & !mask };
}

/// Clears the bits from bit `from` on, all of which lie in the last octet.
pub(crate) fn clear_from(octets: &mut [u8], from: usize)
    requires { length octets.old ≡ div_ceil from 8 }
    ensures { bits octets.new ≡ take from (bits octets.old)
        ++ replicate (8 * length octets.old - from) false }
{
    for k in 0..(8 - from % 8) % 8 {
        set_bit(octets, from + k, false);
    }
}

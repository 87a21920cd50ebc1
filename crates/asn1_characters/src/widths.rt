//! Widths of characters in bits (X.691 30.5.2).
ghost use Rattle.std.specs.Prelude.{◌≡◌, ◌≤◌, ◌^◌};
ghost use Rattle.asn1_characters.specs.Widths.{IsLeastWidth, ceil_log2, align, width_for};

/// Returns the least number of bits in which `count` things have distinct codes. It is 0 for one
/// thing or none.
///
/// The count must be at most 2^32.
pub fn ceil_log2(count: u64) -> u32
    requires { count ≤ 2 ^ 32 }
    ensures value { result ≡ ceil_log2 count }
    ensures least { IsLeastWidth count result }
    ensures bound { result ≤ 32 }
{
    if count <= 1 {
        return 0;
    }
    64 - (count - 1).leading_zeros()
}

/// Returns the number of codes of a width in bits: 2 to the power of the width.
///
/// The width must be at most 32.
pub fn codes_of(width: u32) -> u64
    requires { width ≤ 32 }
    ensures { result ≡ 2 ^ width }
{
    1 << width
}

/// Returns the width, or in the aligned variant the least power of two that is not below it, which
/// is 1 for 0.
///
/// The width must be at most 32.
pub fn align(aligned: bool, width: u32) -> u32
    requires { width ≤ 32 }
    ensures value { result ≡ align aligned width }
    ensures bound { result ≤ 32 }
    ensures grows { width ≤ result }
{
    if aligned {
        codes_of(ceil_log2(width as u64)) as u32
    } else {
        width
    }
}

/// Returns the width in bits of the characters of a set of `count` characters. It is 0 for one
/// character or none.
///
/// The count must be at most 2^32.
pub fn width_for(aligned: bool, count: u64) -> u32
    requires { count ≤ 2 ^ 32 }
    ensures value { result ≡ width_for aligned count }
    ensures bound { result ≤ 32 }
    ensures enough { count ≤ 2 ^ result }
{
    if count <= 1 {
        0
    } else {
        align(aligned, ceil_log2(count))
    }
}

//! The contents octets of primitive elements of DER (X.690 8.2, 8.6, 11.7, 11.8): Booleans,
//! strings of bits, times.

ghost use Rattle.std.specs.Prelude.{◌≡◌, ◌≢◌, ◌↔◌, ◌⊎◌, ◌+◌, ◌*◌, ◌^◌, ◌<◌, ◌≤◌, ℕ, Bool, List, length, take, drop, slice_index};
ghost use Rattle.asn1_bits.specs.Bits.{bits};
ghost use Rattle.asn1_schema.specs.Times.{pair_at, IsDigit, IsUtcTime};
ghost use Rattle.asn1_x690.specs.Leaves.{IsBoolean, IsBitString};
ghost use Rattle.asn1_c.specs.Contents.{IsMomentOf, IsUtcTimeOf, IsWholeTime, IsGeneralizedTimeOf};

use crate::codes::{CONTENTS, DONE, TOO_MANY};
use asn1_schema::{Length, NumberSource, Part, Span, TimeKind, is_time};
use asn1_x690_leaves::{bit_string, boolean};

/// A time, as C sees it.
#[repr(C)]
#[derive(Clone, Copy, Debug)]
pub struct Time {
    /// The year, 0 to 9999.
    pub year: u16,
    /// The month, 1 for January.
    pub month: u8,
    /// The day of the month, from 1 on.
    pub day: u8,
    /// The hour, 0 to 23.
    pub hour: u8,
    /// The minute, 0 to 59.
    pub minute: u8,
    /// The second, 0 to 59.
    pub second: u8,
}

/// Returns all bits of octets.
fn whole(octets: &[u8]) -> Span
    requires { 8 * length octets.now < 2 ^ 64 }
    ensures at { result.at ≡ 0 }
    ensures count { result.count ≡ 8 * length octets.now }
{
    Span {
        at: 0,
        count: 8 * octets.len(),
    }
}

/// Reads the Boolean that the contents of a BOOLEAN are (X.690 8.2, 11.1).
#[unsafe(no_mangle)]
pub extern "C" fn asn1v_der_boolean(octets: &[u8], value: &mut bool) -> u32
    ensures read { result ≡ 0 → IsBoolean value.new (bits octets.now) }
    ensures invalid { result ≡ 32 → (b : Bool) → IsBoolean b (bits octets.now) → ⊥ }
    ensures code { (result ≡ 0) ⊎ ((result ≡ 23) ⊎ (result ≡ 32)) }
    ensures too_many { result ≡ 23 ↔ (2 ^ 64 ≤ 8 * length octets.now) }
    ensures unchanged { result ≢ 0 → value.new ≡ value.old }
{
    if octets.len() > usize::MAX / 8 {
        return TOO_MANY;
    }
    let Ok(part) = boolean(octets, whole(octets)) else {
        return CONTENTS;
    };
    let Part::Truth(read) = part else {
        return CONTENTS;
    };
    *value = read;
    DONE
}

/// Returns how many bits the contents of a BIT STRING hold, from the second octet on (X.690 8.6,
/// 11.2.1).
#[unsafe(no_mangle)]
pub extern "C" fn asn1v_der_bit_string(octets: &[u8], count: &mut usize) -> u32
    ensures read { result ≡ 0
        → IsBitString (take count.new (drop 8 (bits octets.now))) (bits octets.now) }
    ensures within { result ≡ 0 → 8 + count.new ≤ 8 * length octets.now }
    ensures invalid { result ≡ 32 → (x : List Bool) → IsBitString x (bits octets.now) → ⊥ }
    ensures code { (result ≡ 0) ⊎ ((result ≡ 23) ⊎ (result ≡ 32)) }
    ensures too_many { result ≡ 23 ↔ (2 ^ 64 ≤ 8 * length octets.now) }
    ensures unchanged { result ≢ 0 → count.new ≡ count.old }
{
    if octets.len() > usize::MAX / 8 {
        return TOO_MANY;
    }
    let any = Length::AtLeast { least: 0 };
    let Ok(_) = bit_string(octets, whole(octets), any, true, false) else {
        return CONTENTS;
    };
    *count = 8 * (octets.len() - 1) - octets[0] as usize;
    DONE
}

/// The octets of a time, each the number of a character.
#[derive(Clone, Copy, Debug)]
struct Characters<'a> {
    octets: &'a [u8],
}

impl NumberSource for Characters<'_> {
    ghost list = { λ c. c.octets.now };

    fn count(&self) -> usize {
        self.octets.len()
    }

    fn number(&self, index: usize) -> u64 {
        u64::from(self.octets[index])
    }
}

/// Returns the number of the two digits at an index.
fn pair(octets: &[u8], index: usize) -> u8
    requires within { index + 1 < length octets.now }
    requires tens { IsDigit (slice_index octets.now index) }
    requires ones { IsDigit (slice_index octets.now (index + 1)) }
    ensures value { result ≡ pair_at octets.now index }
    ensures few { result < 100 }
{
    10 * (octets[index] - 48) + (octets[index + 1] - 48)
}

/// Returns the time of a year and of ten digits, from an index on.
fn time_at(octets: &[u8], year: u16, from: usize) -> Time
    requires within { from + 10 < length octets.now }
    requires digits { (i : ℕ) → from ≤ i → i < from + 10 → IsDigit (slice_index octets.now i) }
    ensures { IsMomentOf octets.now year from result }
{
    Time {
        year,
        month: pair(octets, from),
        day: pair(octets, from + 2),
        hour: pair(octets, from + 4),
        minute: pair(octets, from + 6),
        second: pair(octets, from + 8),
    }
}

/// Reads the time that the contents of a UTCTime are, in the years 1950 to 2049 (X.690 11.8, RFC 5280
/// 4.1.2.5.1).
#[unsafe(no_mangle)]
pub extern "C" fn asn1v_der_utc_time(octets: &[u8], time: &mut Time) -> u32
    ensures read { result ≡ 0 → IsUtcTimeOf octets.now time.new }
    ensures invalid { result ≡ 32 → IsUtcTime octets.now → ⊥ }
    ensures code { (result ≡ 0) ⊎ (result ≡ 32) }
    ensures unchanged { result ≢ 0 → time.new ≡ time.old }
{
    if !is_time(&Characters { octets }, TimeKind::Utc) {
        return CONTENTS;
    }
    let year = u16::from(pair(octets, 0));
    let year = if year < 50 { 2000 + year } else { 1900 + year };
    *time = time_at(octets, year, 2);
    DONE
}

/// Reads the time that the contents of a GeneralizedTime are, without a fraction of a second
/// (X.690 11.7, RFC 5280 4.1.2.5.2).
#[unsafe(no_mangle)]
pub extern "C" fn asn1v_der_generalized_time(octets: &[u8], time: &mut Time) -> u32
    ensures read { result ≡ 0 → IsGeneralizedTimeOf octets.now time.new }
    ensures invalid { result ≡ 32 → IsWholeTime octets.now → ⊥ }
    ensures code { (result ≡ 0) ⊎ (result ≡ 32) }
    ensures unchanged { result ≢ 0 → time.new ≡ time.old }
{
    if octets.len() != 15 || !is_time(&Characters { octets }, TimeKind::Generalized) {
        return CONTENTS;
    }
    let century = u16::from(pair(octets, 0));
    let year = u16::from(pair(octets, 2));
    *time = time_at(octets, 100 * century + year, 4);
    DONE
}

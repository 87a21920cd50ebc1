//! REAL by its contents octets (X.690 8.5, 11.3).

use std::alloc::{AllocError, Global};
use std::num::{f64_from_bits_with_nan, f64_to_bits_with_nan};

/// The contents octet of minus zero (X.690 8.5.9).
const MINUS_ZERO: u8 = 0x43;

/// The value of a REAL.
#[derive(Clone, Copy, Debug, PartialEq)]
pub enum Real<'o> {
    /// Minus zero, or a value that is no number, by its name in JSON (X.697).
    Named(&'static str),
    /// A number of base 2 that 64 bits of IEEE 754 hold.
    Binary(f64),
    /// A number of base 10: its characters (ISO 6093 NR3).
    Decimal(&'o [u8]),
}

/// Returns the exponent in one or two octets of two's complement (X.690 8.5.7.4). `None` for any other
/// number of octets.
fn exponent_of(octets: &[u8]) -> Option<i32> {
    match octets {
        [one] => Some(i8::from_be_bytes([*one]) as i32),
        [first, second] => Some(i16::from_be_bytes([*first, *second]) as i32),
        _ => None,
    }
}

/// Returns the mantissa in octets of an unsigned number, the highest octet first (X.690 8.5.7.5). `None`
/// for more than seven octets.
fn mantissa_of(octets: &[u8]) -> Option<u64> {
    if octets.len() > 7 {
        return None;
    }
    let mut number = 0u64;
    for octet in octets {
        number = number.wrapping_mul(256).wrapping_add(*octet as u64);
    }
    Some(number)
}

/// Returns the bits of `mantissa * 2^exponent` as IEEE 754 has them, if 64 bits hold it.
fn bits_of(mantissa: u64, exponent: i32) -> Option<u64> {
    let length = 64 - mantissa.leading_zeros() as i32;
    if length == 0 || length > 53 {
        return None;
    }
    let top = exponent.saturating_add(length - 1);
    if top > 1023 || exponent < -1074 {
        return None;
    }
    if top < -1022 {
        let shift = exponent.wrapping_add(1074) as u32;
        return Some(mantissa.wrapping_shl(shift));
    }
    let fraction = mantissa.wrapping_shl((53 - length) as u32) & 0x000F_FFFF_FFFF_FFFF;
    let biased = top.wrapping_add(1023) as u64;
    Some(biased.wrapping_shl(52) | fraction)
}

/// Returns the number of base 2 of contents octets after the first, if 64 bits hold it.
fn binary_of(first: u8, rest: &[u8]) -> Option<f64> {
    let (count, rest) = if first % 4 == 3 {
        let (count, rest) = rest.split_first()?;
        (*count as usize, rest)
    } else {
        ((first % 4) as usize + 1, rest)
    };
    if count > rest.len() {
        return None;
    }
    let (exponent, mantissa) = rest.split_at(count);
    let bits = bits_of(mantissa_of(mantissa)?, exponent_of(exponent)?)?;
    let sign = if first & 64 == 64 { 1u64 << 63 } else { 0 };
    Some(f64_from_bits_with_nan(sign | bits))
}

/// Returns the value that contents octets encode. `None` for a number of base 2 that 64 bits of IEEE 754 do not
/// hold, and if the first octet encodes no value.
pub fn real_of(octets: &[u8]) -> Option<Real<'_>> {
    let Some((first, rest)) = octets.split_first() else {
        return Some(Real::Binary(0.0));
    };
    match *first {
        3 => Some(Real::Decimal(rest)),
        0x40 => Some(Real::Named("INF")),
        0x41 => Some(Real::Named("-INF")),
        0x42 => Some(Real::Named("NaN")),
        MINUS_ZERO => Some(Real::Named("-0")),
        first if first >= 128 => Some(Real::Binary(binary_of(first, rest)?)),
        _ => None,
    }
}

/// Returns the contents octet of a special value by its name in JSON (X.690 8.5.9, X.697). `None` if
/// there is none with this name.
pub fn special_of(name: &str) -> Option<u8> {
    match name {
        "INF" => Some(0x40),
        "-INF" => Some(0x41),
        "NaN" => Some(0x42),
        "-0" => Some(MINUS_ZERO),
        _ => None,
    }
}

/// Appends the octets of a number from the first that is not 0 on.
fn append_minimal(octets: &mut Vec<u8>, number: u64) -> Result<(), AllocError> {
    let mut begun = false;
    for octet in number.to_be_bytes() {
        begun = begun || octet != 0;
        if begun {
            octets.push(octet)?;
        }
    }
    Ok(())
}

/// Appends the contents octets of plus or minus `mantissa * 2^exponent` in the form of X.690 11.3.1. Returns whether
/// they were appended.
///
/// Zero has no octets. It returns `false` and appends nothing if the exponent of the odd mantissa exceeds three
/// octets.
///
/// # Errors
///
/// Returns an error if out of memory. Some of the octets may have been appended then.
pub fn append_binary(
    octets: &mut Vec<u8>,
    is_negative: bool,
    mantissa: u64,
    exponent: i32,
) -> Result<bool, AllocError> {
    if mantissa == 0 {
        return Ok(true);
    }
    let zeros = mantissa.trailing_zeros();
    let exponent = exponent.saturating_add(zeros as i32);
    let sign = if is_negative { 64u8 } else { 0 };
    let [_, high, middle, low] = exponent.to_be_bytes();
    if -128 <= exponent && exponent <= 127 {
        octets.push(128 | sign)?;
    } else if -32768 <= exponent && exponent <= 32767 {
        octets.push(129 | sign)?;
        octets.push(middle)?;
    } else if -8388608 <= exponent && exponent <= 8388607 {
        octets.push(130 | sign)?;
        octets.push(high)?;
        octets.push(middle)?;
    } else {
        return Ok(false);
    }
    octets.push(low)?;
    append_minimal(octets, mantissa.wrapping_shr(zeros))?;
    Ok(true)
}

/// Appends the contents octets of a number of 64 bits (X.690 8.5, 11.3.1).
///
/// # Errors
///
/// Returns an error if out of memory. Some of the octets may have been appended then.
pub fn append_float(octets: &mut Vec<u8>, number: f64) -> Result<(), AllocError> {
    let bits = f64_to_bits_with_nan(number);
    let is_negative = bits >> 63 == 1;
    let biased = (bits >> 52) & 0x7FF;
    let fraction = bits & 0x000F_FFFF_FFFF_FFFF;
    if biased == 0x7FF {
        octets.push(if fraction != 0 {
            0x42
        } else if is_negative {
            0x41
        } else {
            0x40
        })?;
        return Ok(());
    }
    if biased == 0 && fraction == 0 {
        if is_negative {
            octets.push(MINUS_ZERO)?;
        }
        return Ok(());
    }
    let (mantissa, exponent) = if biased == 0 {
        (fraction, -1074i32)
    } else {
        (fraction | (1 << 52), biased as i32 - 1075)
    };
    // The exponent is that of a number of 64 bits, and has at most two octets.
    let _ = append_binary(octets, is_negative, mantissa, exponent)?;
    Ok(())
}

/// Appends the contents octets of base 10 of a decimal number, as `-25e-3`, in the form of X.690 11.3.2. Returns
/// whether they were appended.
///
/// Zero has no octets, and minus zero is a special value (X.690 8.5.2, 8.5.9). It returns `false` and appends
/// nothing if 32 bits do not hold the exponent in the text.
///
/// # Errors
///
/// Returns an error if out of memory. Some of the octets may have been appended then.
pub fn append_decimal(octets: &mut Vec<u8>, alloc: Global, text: &str) -> Result<bool, AllocError> {
    let (sign, text) = match text.strip_prefix('-') {
        Some(text) => ("-", text),
        None => ("", text),
    };
    let (number, exponent) = match text.split_once('e').or(text.split_once('E')) {
        Some((number, exponent)) => (number, exponent),
        None => (text, "0"),
    };
    let (whole, part) = match number.split_once('.') {
        Some((whole, part)) => (whole, part),
        None => (number, ""),
    };
    let Ok(exponent) = exponent
        .strip_prefix('+')
        .unwrap_or(exponent)
        .parse::<i32>()
    else {
        return Ok(false);
    };
    let mut all = String::from_str(alloc, whole)?;
    all.push_str(part)?;
    let digits = all.as_str().trim_start_matches('0');
    let kept = digits.trim_end_matches('0');
    if kept.is_empty() {
        if !sign.is_empty() {
            octets.push(MINUS_ZERO)?;
        }
        return Ok(true);
    }
    let zeros = digits.len().saturating_sub(kept.len());
    let exponent = (exponent as i64)
        .saturating_sub(part.len() as i64)
        .saturating_add(zeros as i64);
    octets.push(3)?;
    let exponent = if exponent == 0 {
        String::from_str(alloc, "+0")?
    } else {
        format!(in alloc; "{exponent}")?
    };
    let nr3 = format!(in alloc; "{sign}{kept}.E{exponent}")?;
    octets.extend_from_slice(nr3.as_bytes())?;
    Ok(true)
}

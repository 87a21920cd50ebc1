//! Values of REAL (X.680 21), as contents octets (X.690 8.5, 11.3).

use crate::governed::{Governed, Types};
use crate::pieces::Pieces;
use crate::values::Values;
use asn1_definitions::Place;
use asn1_notation::{Item, Word};
use asn1_reals::{append_binary, append_decimal, special_of};
use asn1_schema::Part;
use std::alloc::{AllocError, Global};
use std::str;

/// Returns the contents octet of a special value (X.680 21.6). `None` if the word is none.
fn special(word: Option<Word>) -> Option<u8> {
    match word {
        Some(Word::PlusInfinity) => special_of("INF"),
        Some(Word::MinusInfinity) => special_of("-INF"),
        Some(Word::NotANumber) => special_of("NaN"),
        _ => None,
    }
}

/// Returns the number after a name in braces, and takes the comma after it. `None` if it is absent.
fn component(types: Types<'_>, pieces: &mut Pieces, name: &[u8]) -> Option<i128> {
    let piece = pieces.next(types)?;
    if types.scope.text_of(types.scope.entry(piece.index)) != name {
        return None;
    }
    let number = types.scope.number(pieces.next(types)?, None).ok()?;
    match pieces.next(types) {
        Some(comma) if types.scope.item(comma) != Item::Comma => None,
        _ => Some(number),
    }
}

/// Returns the numbers of the mantissa, the base and the exponent in braces (X.680 21.5). `None` if the braces
/// have anything else.
fn components(types: Types<'_>, braces: Place) -> Option<(i128, i128, i128)> {
    let mut pieces = Pieces::new(types, braces);
    let mantissa = component(types, &mut pieces, b"mantissa")?;
    let base = component(types, &mut pieces, b"base")?;
    let exponent = component(types, &mut pieces, b"exponent")?;
    if pieces.next(types).is_some() {
        return None;
    }
    Some((mantissa, base, exponent))
}

/// Appends the contents octets of a value in braces. Returns whether it is read.
fn append_components(
    octets: &mut Vec<u8>,
    alloc: Global,
    types: Types<'_>,
    braces: Place,
) -> Result<bool, AllocError> {
    let Some((mantissa, base, exponent)) = components(types, braces) else {
        return Ok(false);
    };
    if base == 2 {
        let (Ok(magnitude), Ok(exponent)) = (
            u64::try_from(mantissa.unsigned_abs()),
            i32::try_from(exponent),
        ) else {
            return Ok(false);
        };
        return append_binary(octets, mantissa < 0, magnitude, exponent);
    }
    if base != 10 {
        return Ok(false);
    }
    let text = format!(in alloc; "{mantissa}E{exponent}")?;
    append_decimal(octets, alloc, text.as_str())
}

/// Appends the contents octets of a number with or without a fraction, which is one of base 10 (X.680 21.6).
/// Returns whether it is read.
fn append_number(
    octets: &mut Vec<u8>,
    alloc: Global,
    sign: &str,
    digits: &[u8],
) -> Result<bool, AllocError> {
    let Ok(digits) = str::from_utf8(digits) else {
        return Ok(false);
    };
    let text = format!(in alloc; "{sign}{digits}")?;
    append_decimal(octets, alloc, text.as_str())
}

impl Values {
    /// Returns the part of a REAL. `None` if the value is none, or its mantissa of base 2 exceeds 64 bits, or
    /// its exponent 32 bits.
    pub(crate) fn real(
        &mut self,
        types: Types<'_>,
        governed: Governed,
    ) -> Result<Option<Part>, AllocError> {
        let entry = types.scope.entry(governed.value.index);
        let text = types.scope.text_of(entry);
        let mut octets = Vec::new(self.alloc);
        let is_read = match entry.item {
            Item::WordValue => match special(entry.word) {
                Some(octet) => {
                    octets.push(octet)?;
                    true
                }
                None => false,
            },
            Item::Number => append_number(&mut octets, self.alloc, "", text)?,
            Item::Negative => append_number(&mut octets, self.alloc, "-", text)?,
            Item::Real => match text.strip_prefix(b"-") {
                Some(rest) => append_number(&mut octets, self.alloc, "-", rest.trim_ascii_start())?,
                None => append_number(&mut octets, self.alloc, "", text)?,
            },
            Item::Braces => append_components(&mut octets, self.alloc, types, governed.value)?,
            _ => false,
        };
        if !is_read {
            return Ok(None);
        }
        Ok(Some(Part::Octets(self.add_octets(octets.as_slice())?)))
    }
}

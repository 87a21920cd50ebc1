//! REAL in JSON (X.697) and in the notation of values (X.680 21).

use crate::parse::{JsonError, Maker, expected};
use crate::print::PrintError;
use crate::printer::{NO_VALUE, Printer};
use crate::tree::Kind;
use asn1_reals::{Real, append_decimal, append_float, real_of, special_of};
use asn1_schema::Part;
use ryu::Buffer;
use std::str;

const TOO_FINE: PrintError = PrintError::Unsupported(
    "a REAL of base 2 that 64 bits of IEEE 754 do not hold",
);

/// Returns the name of a special value in the notation of values (X.680 21.6).
fn notation_of(name: &'static str) -> &'static str {
    match name {
        "INF" => "PLUS-INFINITY",
        "-INF" => "MINUS-INFINITY",
        "NaN" => "NOT-A-NUMBER",
        _ => "-0",
    }
}

impl<'a> Printer<'a> {
    /// Prints a REAL by its contents octets. A number of base 2 is a number, and one of base 10 an
    /// object with `base10Value`.
    pub(crate) fn real(&mut self, octets: &[u8]) -> Result<(), PrintError> {
        match real_of(octets).ok_or(TOO_FINE)? {
            Real::Named(name) => {
                if self.notation().is_some() {
                    return self.word(notation_of(name));
                }
                self.word(name)
            }
            Real::Binary(number) => {
                let mut buffer = Buffer::new();
                self.number(buffer.format(number))
            }
            Real::Decimal(digits) => self.decimal(digits),
        }
    }

    /// Prints a number of base 10 by its characters, of which the full stop after the digits is left
    /// out.
    fn decimal(&mut self, characters: &[u8]) -> Result<(), PrintError> {
        let text = str::from_utf8(characters).map_err(|_| NO_VALUE)?;
        let (digits, exponent) = text.split_once('.').ok_or(NO_VALUE)?;
        let number = format!(in self.alloc; "{digits}{exponent}")?;
        if self.notation().is_some() {
            return self.number(number.as_str());
        }
        self.begin_object()?;
        self.key("base10Value")?;
        self.number(number.as_str())?;
        self.end_object()
    }
}

impl<'a, 's, 't> Maker<'a, 's, 't> {
    /// Returns the part of a REAL. A number is the nearest one of base 2 that 64 bits hold.
    pub(crate) fn real(&mut self, item: usize) -> Result<Part, JsonError<'s>> {
        let mut octets = Vec::new(self.alloc);
        let is_one = match self.item(item)?.kind {
            Kind::Number(text) => match text.parse::<f64>() {
                Ok(number) if number.is_finite() => {
                    append_float(&mut octets, number)?;
                    true
                }
                _ => false,
            },
            Kind::Text(name) => match special_of(name) {
                Some(octet) => {
                    octets.push(octet)?;
                    true
                }
                None => false,
            },
            _ => self.decimal(item, &mut octets)?,
        };
        if !is_one {
            return Err(expected(
                item,
                "a number of 64 bits, INF, -INF, NaN, -0, or an object with `base10Value` alone",
            ));
        }
        Ok(Part::Octets(self.draft.add(octets.as_slice())?))
    }

    /// Appends the contents octets of an object whose only member is `base10Value`, a number. Returns
    /// `false` for any other item.
    fn decimal(&self, item: usize, octets: &mut Vec<u8>) -> Result<bool, JsonError<'s>> {
        let Some(value) = self.tree.member(item, "base10Value") else {
            return Ok(false);
        };
        if self.tree.count_in(item) != 1 {
            return Ok(false);
        }
        match self.item(value)?.kind {
            Kind::Number(text) => Ok(append_decimal(octets, self.alloc, text)?),
            _ => Ok(false),
        }
    }
}

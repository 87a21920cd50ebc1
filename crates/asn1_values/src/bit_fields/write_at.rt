//! Writing fields over the bits of octets.

ghost use Rattle.std.specs.Prelude.{◌≡◌, Bool, List, Err, ◌+◌, ◌*◌, ◌^◌, ◌<◌, ◌≤◌, length, IfOk, IfErr, OnOk, OnErr, IsOk, IfSome};
ghost use Rattle.asn1_bits.specs.Bits.{bits, overwritten};
ghost use Rattle.asn1_values.specs.Fields.{IsSpelledBy, AreSpelledBy, HaveOneSpelling};
ghost use Rattle.asn1_values.specs.Plain.{plain_field, plain_fields};
ghost use Rattle.asn1_values.specs.Refusals.{IsPast, IsWriteAtRefusal};
ghost use Rattle.asn1_values.specs.Steps.{EndsAt, EndWithin, FitsWithin, Overwrites, OverwritesAll, MeasuresAll};

use super::error::WriteError;
use super::field::Field;
use super::write::{end_after, end_or_misfit, len_or_misfit};
use super::{bits, character, counted_integer, identifier, integer, number, octets};

/// Writes the fields' bits over those of the octets from bit `position` on, one after another, and
/// returns the bit after them. Every other bit is unchanged. It allocates nothing.
///
/// # Errors
///
/// The first field that does not fit is named, as by `write_fields`. If all fit, it returns
/// `TooLong` if they end after the octets, or if the bit after them exceeds `usize::MAX`. It never
/// returns `Memory`. After an error the octets are unchanged.
///
/// # Examples
///
/// ```
/// use asn1_values::{Field, write_fields_at};
///
/// let mut octets = [0xFF, 0xFF];
/// let end = write_fields_at(&mut octets, 4, &[Field::Number { value: 1, width: 8 }])?;
/// assert!(rt; end == 12 && octets == [0xF0, 0x1F]);
/// ```
pub fn write_fields_at(
    octets: &mut [u8],
    position: usize,
    fields: &[Field<'_, '_>],
) -> Result<usize, WriteError>
    // A concatenation of the fields' encodings is at the position, and the result is the bit after
    // it.
    ensures written { IfOk result
        (λ next. (list : List Bool) × AreSpelledBy (plain_fields fields.now) list
        × (bits octets.new ≡ overwritten (bits octets.old) position list)
        × (next ≡ position + length list)) }
    // It is the one concatenation, if no alphabet has a character with two codes.
    ensures one { HaveOneSpelling (plain_fields fields.now)
        → (list : List Bool) → AreSpelledBy (plain_fields fields.now) list
        → OnOk result (bits octets.new ≡ overwritten (bits octets.old) position list) }

    // Where all fit, it succeeds exactly where they end within the octets, at a bit that `usize`
    // counts.
    ensures too_long { (list : List Bool) → AreSpelledBy (plain_fields fields.now) list
        → IsPast (8 * length octets.old) (position + length list) → result
        ≡ Err WriteError.TooLong }
    ensures accepted { (list : List Bool) → AreSpelledBy (plain_fields fields.now) list
        → position + length list ≤ 8 * length octets.old → position + length list < 2 ^ 64
        → IsOk result }

    // An error names the first field that doesn't fit, with its reason; where all fit, where they
    // end. The error is unique.
    ensures refused { IfErr result
        (IsWriteAtRefusal (8 * length octets.old) position (plain_fields fields.now)) }
    ensures named { (e : WriteError)
        → IsWriteAtRefusal (8 * length octets.old) position (plain_fields fields.now) e → result
        ≡ Err e }
    ensures unchanged { OnErr result (octets.new ≡ octets.old) }
{
    let end = overwrite_end(position, fields)?;
    if end > usize::MAX as u128 || end > 8 * octets.len() as u128 {
        return Err(WriteError::TooLong);
    }
    Ok(overwrite_all(octets, position, fields))
}

/// Returns the bit after the fields, if all fit.
#[inline(always)]
fn overwrite_end(position: usize, fields: &[Field<'_, '_>]) -> Result<u128, WriteError>
    ensures { MeasuresAll position (plain_fields fields.now) result }
{
    match overwrite_end_if_all_fit(position, fields) {
        Some(end) => Ok(end as u128),
        None => overwrite_end_or_misfit(position, fields),
    }
}

/// Returns the bit after the fields, if all fit and `usize` counts it. It does not say which field
/// does not fit.
#[inline(always)]
fn overwrite_end_if_all_fit(position: usize, fields: &[Field<'_, '_>]) -> Option<usize>
    ensures { IfSome result (EndsAt IsSpelledBy position (plain_fields fields.now)) }
{
    let mut end = position;
    for field in fields {
        let Ok(additional) = len_or_misfit(field, 0) else {
            return None;
        };
        end = end_after(end, additional)?;
    }
    Some(end)
}

/// Does what `overwrite_end` does for fields that do not fit, or that end far after.
#[cold]
#[inline(never)]
fn overwrite_end_or_misfit(position: usize, fields: &[Field<'_, '_>]) -> Result<u128, WriteError>
    ensures { MeasuresAll position (plain_fields fields.now) result }
{
    end_or_misfit(position, fields)
}

/// Writes fields that end within the target, and returns the bit after them.
fn overwrite_all(target: &mut [u8], position: usize, fields: &[Field<'_, '_>]) -> usize
    requires { EndWithin (8 * length target.old) position (plain_fields fields.now) }
    ensures { OverwritesAll (plain_fields fields.now) position (bits target.old) (bits target.new)
        result }
{
    let mut next = position;
    for field in fields {
        next = overwrite(target, next, field);
    }
    next
}

/// Writes a field that ends within the target, and returns the bit after it.
fn overwrite(target: &mut [u8], position: usize, field: &Field<'_, '_>) -> usize
    requires { FitsWithin (8 * length target.old) position (plain_field field.now) }
    ensures { Overwrites (plain_field field.now) position (bits target.old) (bits target.new)
        result }
{
    match field {
        Field::Number { value, width } => number::overwrite(target, position, *value, *width),
        Field::Octets(octets) => octets::overwrite(target, position, octets),
        Field::Bits(view) => bits::overwrite(target, position, view),
        Field::Integer(number) => integer::overwrite(target, position, number),
        Field::Character {
            alphabet,
            character,
        } => character::overwrite(target, position, alphabet, *character),
        Field::CountedInteger(number) => counted_integer::overwrite(target, position, number),
        Field::Oid(oid) => identifier::overwrite(target, position, oid),
    }
}

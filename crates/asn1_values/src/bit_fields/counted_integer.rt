//! An integer as a field, after the octet that counts its shortest octets (the short form of a
//! length, X.690 8.1.3.4).

ghost use Rattle.std.specs.Prelude.{Err, ◌+◌, ◌*◌, ◌<◌, length, IfOk, Ok, take, vec_len, vec_capacity};
ghost use Rattle.asn1_bits.specs.BitAppender.{room};
ghost use Rattle.asn1_bits.specs.BitReader.{bits_left};
ghost use Rattle.asn1_bits.specs.Bits.{bits, number};
ghost use Rattle.asn1_values.specs.Fields as plain;
ghost use Rattle.asn1_values.specs.Steps.{HasRoomFor, PushesOne, FitsWithin, Measures, Overwrites, TakesCount, TakesCounted, ExaminesBits, AppendsNext};
ghost use Rattle.asn1_values.specs.Walk.{field_at};

use super::error::{ReadError, WriteError};
use super::field::Field;
use super::integer::{self, overwrite_shortest, push_shortest};
use super::number::overwrite_digits;
use super::take::take_few;
use asn1_bits::{BitAppender, BitReader, Turns};
use asn1_integer::{Integer, read_signed};
use std::alloc::Global;

/// Returns how many bits the shortest octets and the octet before them have, if they are at most
/// 127.
#[inline(always)]
pub(super) fn len_or_misfit(number: &Integer, field: usize) -> Result<u128, WriteError>
    ensures { Measures field (plain.CountedInteger number.now) result }
{
    let octets = number.signed_len();
    if octets > 127 {
        return Err(WriteError::IntegerLength { field });
    }
    Ok(8 + 8 * octets as u128)
}

/// Pushes a counted integer that fits the room: the number of its octets, and these.
#[inline(always)]
pub(super) fn push(appender: &mut BitAppender<'_>, number: &Integer, turns: &mut Turns)
    requires { HasRoomFor (plain.CountedInteger number.now) (room appender.old) }
    ensures { PushesOne (plain.CountedInteger number.now) appender.old appender.new
        turns.old.count turns.new.count }
{
    appender.push_wide(number.signed_len() as u128, 8, turns);
    push_shortest(appender, number, turns);
}

/// Writes a counted integer over the old bits, and returns the bit after it.
pub(super) fn overwrite(target: &mut [u8], position: usize, number: &Integer) -> usize
    requires { FitsWithin (8 * length target.old) position (plain.CountedInteger number.now) }
    ensures { Overwrites (plain.CountedInteger number.now) position (bits target.old)
        (bits target.new) result }
{
    let next = overwrite_digits(target, position, number.signed_len() as u128, 8);
    overwrite_shortest(target, next, number)
}

/// Reads a counted integer, and returns the octets after its first, if that is 1 to 127, and as
/// many octets are the shortest of a number.
#[inline(always)]
pub(super) fn take_value<'a>(
    reader: &mut BitReader<'a>,
    field: usize,
) -> Result<BitReader<'a>, ReadError>
    ensures { ExaminesBits (TakesCounted reader.old reader.new) field
        (field_at plain.OfCountedInteger (bits_left reader.old)) reader.new result }
{
    let octets = take_count(reader, field)?;
    integer::take_value(reader, usize::from(octets), field)
}

/// Takes the octet that counts, if it is 1 to 127.
#[inline(always)]
#[tactic(auto, unfolding(crate::specs::Walk::field_at, crate::specs::Walk::counted_at))]
fn take_count(reader: &mut BitReader<'_>, field: usize) -> Result<u8, ReadError>
    ensures { TakesCount field reader.old reader.new result }
{
    let octet = take_few(reader, 8, field)?.first_u128(8) as u8;
    if octet == 0 || octet > 127 {
        return Err(ReadError::Length { field, octet });
    }
    Ok(octet)
}

/// Appends the next counted integer to the fields, for which there is room.
pub(super) fn read_into<'a>(
    fields: &mut Vec<Field<'a, '_>>,
    alloc: Global,
    reader: &mut BitReader<'a>,
    field: usize,
) -> Result<(), ReadError>
    requires { vec_len fields.old < vec_capacity fields.old }
    ensures { AppendsNext plain.OfCountedInteger field reader.old reader.new fields.old fields.new
        result }
{
    let front = take_value(reader, field)?;
    let number = read_signed(alloc, &front)?;
    fields.push_reserved(Field::CountedInteger(number));
    Ok(())
}

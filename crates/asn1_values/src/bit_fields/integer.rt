//! An integer as a field: its shortest octets (X.690 8.3).

ghost use Rattle.std.specs.Prelude.{ℕ, List, Err, ◌+◌, ◌*◌, ◌<◌, ◌≤◌, length, IfOk, Ok, take, vec_len, vec_capacity};
ghost use Rattle.asn1_bits.specs.BitAppender.{room};
ghost use Rattle.asn1_bits.specs.BitReader.{bits_left};
ghost use Rattle.asn1_bits.specs.Bits.{bits, number};
ghost use Rattle.asn1_number.specs.Octets.{IsShortest};
ghost use Rattle.asn1_values.specs.Fields as plain;
ghost use Rattle.asn1_values.specs.Steps.{FitsIn, HasRoomFor, PushesOne, IsReached, FitsWithin, WritesOver, Overwrites, Takes, ExaminesBits, AppendsNext, PushesList};
ghost use Rattle.asn1_values.specs.Walk.{field_at, integer_at};

use super::error::ReadError;
use super::field::Field;
use super::number::overwrite_digits;
use super::octets::overwrite_octets;
use super::take::take_bits;
use asn1_bits::{BitAppender, BitReader, Turns};
use asn1_integer::{Integer, read_signed};
use std::alloc::{AllocError, Global};

/// Returns how many bits the shortest octets have.
#[inline(always)]
pub(super) fn len_or_misfit(number: &Integer) -> u128
    ensures { FitsIn (plain.Integer number.now) result }
{
    8 * number.signed_len() as u128
}

/// Pushes an integer that fits the room.
#[inline(always)]
pub(super) fn push(appender: &mut BitAppender<'_>, number: &Integer, turns: &mut Turns)
    requires { HasRoomFor (plain.Integer number.now) (room appender.old) }
    ensures { PushesOne (plain.Integer number.now) appender.old appender.new turns.old.count
        turns.new.count }
{
    push_shortest(appender, number, turns);
}

/// Pushes the shortest octets of a number, which fit the room: up to sixteen of them as one number.
#[inline(always)]
pub(super) fn push_shortest(appender: &mut BitAppender<'_>, number: &Integer, turns: &mut Turns)
    requires { (octets : List ℕ) → IsShortest number.now octets → 8 * length octets
        ≤ room appender.old }
    ensures { (octets : List ℕ) → IsShortest number.now octets
        → PushesList (bits octets) appender.old appender.new turns.old.count
        turns.new.count }
{
    match number.to_i128() {
        Some(value) => {
            // The word holds sixteen octets, of which the lowest are the shortest.
            appender.push_wide(value.cast_unsigned(), 8 * number.signed_len(), turns);
        }
        None => push_long(appender, number, turns),
    }
}

/// Does what `push_shortest` does for more than sixteen octets. Not inlined, since it is rare.
#[inline(never)]
fn push_long(appender: &mut BitAppender<'_>, number: &Integer, turns: &mut Turns)
    requires { (octets : List ℕ) → IsShortest number.now octets → 8 * length octets
        ≤ room appender.old }
    ensures { (octets : List ℕ) → IsShortest number.now octets
        → PushesList (bits octets) appender.old appender.new turns.old.count
        turns.new.count }
{
    appender.push_octets(number.signed_octets().as_ref(), turns);
}

/// Writes an integer over the old bits, and returns the bit after it.
pub(super) fn overwrite(target: &mut [u8], position: usize, number: &Integer) -> usize
    requires { FitsWithin (8 * length target.old) position (plain.Integer number.now) }
    ensures { Overwrites (plain.Integer number.now) position (bits target.old) (bits target.new)
        result }
{
    overwrite_shortest(target, position, number)
}

/// Writes the shortest octets of a number over the old bits, and returns the bit after them:
/// up to sixteen of them as one number.
pub(super) fn overwrite_shortest(target: &mut [u8], position: usize, number: &Integer) -> usize
    requires { (octets : List ℕ) → IsShortest number.now octets
        → IsReached (8 * length target.old) (position + 8 * length octets) }
    ensures { (octets : List ℕ) → IsShortest number.now octets
        → WritesOver (bits octets) position (bits target.old) (bits target.new) result }
{
    match number.to_i128() {
        Some(value) => {
            // As in `push_shortest`.
            let word = value.cast_unsigned();
            overwrite_digits(target, position, word, 8 * number.signed_len())
        }
        None => overwrite_octets(target, position, number.signed_octets().as_ref()),
    }
}

/// Reads an integer, and returns its octets, if they are the shortest of a number: if the first
/// nine of their bits are not all alike (X.690 8.3.2), or there is one octet.
#[tactic(auto, unfolding(crate::specs::Walk::integer_at, crate::specs::Walk::cut_at))]
pub(super) fn take_value<'a>(
    reader: &mut BitReader<'a>,
    octets: usize,
    field: usize,
) -> Result<BitReader<'a>, ReadError>
    ensures { ExaminesBits (Takes (8 * octets) reader.old reader.new) field
        (integer_at octets (bits_left reader.old)) reader.new result }
{
    if octets == 0 {
        return Err(ReadError::Integer { field });
    }
    let front = take_bits(reader, 8 * octets as u128, field)?;
    if octets > 1 {
        let nine = front.first_bits(9);
        if nine == 0 || nine == 0x1FF {
            return Err(ReadError::Integer { field });
        }
    }
    Ok(front)
}

/// Appends the next integer to the fields, for which there is room.
#[tactic(auto, unfolding(crate::specs::Walk::field_at))]
pub(super) fn read_into<'a>(
    fields: &mut Vec<Field<'a, '_>>,
    alloc: Global,
    reader: &mut BitReader<'a>,
    octets: usize,
    field: usize,
) -> Result<(), ReadError>
    requires { vec_len fields.old < vec_capacity fields.old }
    ensures { AppendsNext (plain.OfInteger octets) field reader.old reader.new fields.old fields.new
        result }
{
    let front = take_value(reader, octets, field)?;
    let number = read_signed(alloc, &front)?;
    fields.push_reserved(Field::Integer(number));
    Ok(())
}

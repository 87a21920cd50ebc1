//! A number of up to 128 bits as a field: its binary digits.

ghost use Rattle.std.specs.Prelude.{◌≡◌, Err, ◌+◌, ◌*◌, ◌<◌, length, OnOk, IfOk, Ok, take, vec_len, vec_capacity};
ghost use Rattle.asn1_bits.specs.BitAppender.{room};
ghost use Rattle.asn1_bits.specs.BitReader.{bits_left};
ghost use Rattle.asn1_bits.specs.Bits.{bits, digits};
ghost use Rattle.asn1_values.specs.Fields as plain;
ghost use Rattle.asn1_values.specs.Steps.{HasRoomBehind, PushesBehind, FitsWithin, Measures, WritesOver, Overwrites, ExaminesValue, AppendsNext, DigitsFit};
ghost use Rattle.asn1_values.specs.Walk.{field_at};

use super::error::{ReadError, WriteError};
use super::field::Field;
use super::gathered::Gathered;
use super::take::take_few;
use asn1_bits::{BitAppender, BitReader, Turns, overwrite_number};

/// Returns the width, if it is at most 128 and the number is below 2 to its power.
#[inline(always)]
pub(super) fn len_or_misfit(value: u128, width: usize, field: usize) -> Result<u128, WriteError>
    ensures { Measures field (plain.Number value width) result }
{
    // A short number that fits has no upper word, and nothing of its lower one above its width.
    if width < 64 {
        if (value >> 64) as u64 == 0 && (value as u64) >> width == 0 {
            return Ok(width as u128);
        }
        return fitting_wide(value, width, field);
    }
    // Of a longer one the upper word alone is shifted.
    if width < 128 && (value >> 64) as u64 >> (width - 64) == 0 {
        return Ok(width as u128);
    }
    fitting_wide(value, width, field)
}

/// Does what `len_or_misfit` does for any number.
#[inline(always)]
fn fitting_wide(value: u128, width: usize, field: usize) -> Result<u128, WriteError>
    ensures { Measures field (plain.Number value width) result }
{
    if width > 128 {
        return Err(WriteError::NumberWidth { field, width });
    }
    if width < 128 && value >> width != 0 {
        return Err(WriteError::Number { field });
    }
    Ok(width as u128)
}

/// Gathers a number of at most 21 bits, of which three fit a word, or pushes it after those that
/// are gathered.
#[inline(always)]
pub(super) fn push(
    appender: &mut BitAppender<'_>,
    gathered: &mut Gathered,
    value: u128,
    width: usize,
    turns: &mut Turns,
)
    requires { HasRoomBehind (plain.Number value width) gathered.old.width (room appender.old) }
    ensures { PushesBehind (plain.Number value width) appender.old appender.new gathered.old.word
        gathered.old.width gathered.new.word gathered.new.width turns.old.count turns.new.count }
{
    if width <= 21 {
        gathered.add(appender, value as u64, width, turns);
    } else {
        gathered.push(appender, turns);
        appender.push_number(value, width, turns);
    }
}

/// Writes a number over the old bits, and returns the bit after it.
pub(super) fn overwrite(target: &mut [u8], position: usize, value: u128, width: usize) -> usize
    requires { FitsWithin (8 * length target.old) position (plain.Number value width) }
    ensures { Overwrites (plain.Number value width) position (bits target.old) (bits target.new)
        result }
{
    overwrite_digits(target, position, value, width)
}

/// Writes the lowest `width` binary digits of a number over the old bits, and returns the bit
/// after them.
pub(super) fn overwrite_digits(
    target: &mut [u8],
    position: usize,
    value: u128,
    width: usize,
) -> usize
    requires { DigitsFit (8 * length target.old) position width }
    ensures { WritesOver (digits value width) position (bits target.old) (bits target.new) result }
{
    overwrite_number(target, position, value, width, &mut Turns::new());
    position + width
}

/// Reads a number, and returns it.
#[inline(always)]
#[tactic(auto, unfolding(crate::specs::Walk::field_at, crate::specs::Walk::cut_at))]
pub(super) fn take_value(
    reader: &mut BitReader<'_>,
    width: usize,
    field: usize,
) -> Result<u128, ReadError>
    ensures { ExaminesValue (λ n. plain.Number n width) width field (plain.OfNumber width)
        reader.old reader.new result }
{
    // A width of 1 to 64 bits is the common one. The compiler tests it by one comparison.
    if 0 < width && width <= 64 {
        let word = take_few(reader, width, field)?;
        return Ok(word.first_u128(width));
    }
    if width > 128 {
        return Err(ReadError::NumberWidth { field, width });
    }
    let front = take_few(reader, width, field)?;
    Ok(front.first_u128(width))
}

/// Appends the next number to the fields, for which there is room.
pub(super) fn read_into<'a>(
    fields: &mut Vec<Field<'a, '_>>,
    reader: &mut BitReader<'a>,
    width: usize,
    field: usize,
) -> Result<(), ReadError>
    requires { vec_len fields.old < vec_capacity fields.old }
    ensures { AppendsNext (plain.OfNumber width) field reader.old reader.new fields.old fields.new
        result }
{
    let value = take_value(reader, width, field)?;
    fields.push_reserved(Field::Number { value, width });
    Ok(())
}

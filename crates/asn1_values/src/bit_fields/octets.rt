//! Octets as a field.

ghost use Rattle.std.specs.Prelude.{◌+◌, ◌*◌, ◌<◌, length, IfOk, Ok, take, vec_len, vec_capacity};
ghost use Rattle.asn1_bits.specs.BitAppender.{room};
ghost use Rattle.asn1_bits.specs.BitReader.{bits_left};
ghost use Rattle.asn1_bits.specs.Bits.{bits};
ghost use Rattle.asn1_bits.specs.Octets.{octets_in};
ghost use Rattle.asn1_values.specs.Fields as plain;
ghost use Rattle.asn1_values.specs.Steps.{FitsIn, HasRoomBehind, PushesBehind, IsReached, FitsWithin, WritesOver, Overwrites, Takes, ExaminesBits, AppendsNext};
ghost use Rattle.asn1_values.specs.Walk.{field_at};

use super::bits;
use super::error::ReadError;
use super::field::Field;
use super::gathered::Gathered;
use super::take::take_bits;
use asn1_bits::{BitAppender, BitReader, BitStr, Octets, Turns};
use std::alloc::Global;

/// Returns how many bits the octets have.
#[inline(always)]
pub(super) fn len_or_misfit(octets: &Octets<'_>) -> u128
    ensures { FitsIn (plain.Octets (octets_in octets.now)) result }
{
    8 * octets.as_ref().len() as u128
}

/// Gathers at most four octets, or pushes more after what is gathered.
#[inline(always)]
pub(super) fn push(
    appender: &mut BitAppender<'_>,
    gathered: &mut Gathered,
    octets: &Octets<'_>,
    turns: &mut Turns,
)
    requires { HasRoomBehind (plain.Octets (octets_in octets.now)) gathered.old.width
        (room appender.old) }
    ensures { PushesBehind (plain.Octets (octets_in octets.now)) appender.old appender.new
        gathered.old.word gathered.old.width gathered.new.word gathered.new.width turns.old.count
        turns.new.count }
{
    // For the proof: `room()` ensures that the room, and so the number of bits of octets that fit it,
    // is below 2^64.
    let _room = appender.room();
    let bits = BitStr::from_octets(octets.as_ref());
    bits::push(appender, gathered, &bits, turns);
}

/// Writes octets over the old bits, and returns the bit after them.
pub(super) fn overwrite(target: &mut [u8], position: usize, octets: &Octets<'_>) -> usize
    requires { FitsWithin (8 * length target.old) position (plain.Octets (octets_in octets.now)) }
    ensures { Overwrites (plain.Octets (octets_in octets.now)) position (bits target.old)
        (bits target.new) result }
{
    overwrite_octets(target, position, octets.as_ref())
}

/// Writes the bits of octets over the old bits, and returns the bit after them.
pub(super) fn overwrite_octets(target: &mut [u8], position: usize, octets: &[u8]) -> usize
    requires { IsReached (8 * length target.old) (position + 8 * length octets.now) }
    ensures { WritesOver (bits octets.now) position (bits target.old) (bits target.new) result }
{
    bits::overwrite_view(target, position, BitStr::from_octets(octets))
}

/// Reads `count` octets, and returns them.
#[tactic(auto, unfolding(crate::specs::Walk::field_at, crate::specs::Walk::cut_at))]
pub(super) fn take_value<'a>(
    reader: &mut BitReader<'a>,
    count: usize,
    field: usize,
) -> Result<BitReader<'a>, ReadError>
    ensures { ExaminesBits (Takes (8 * count) reader.old reader.new) field
        (field_at (plain.OfOctets count) (bits_left reader.old)) reader.new result }
{
    take_bits(reader, 8 * count as u128, field)
}

/// Appends the next `count` octets to the fields, for which there is room.
pub(super) fn read_into<'a>(
    fields: &mut Vec<Field<'a, '_>>,
    alloc: Global,
    reader: &mut BitReader<'a>,
    count: usize,
    field: usize,
) -> Result<(), ReadError>
    requires { vec_len fields.old < vec_capacity fields.old }
    ensures { AppendsNext (plain.OfOctets count) field reader.old reader.new fields.old fields.new
        result }
{
    let octets = take_value(reader, count, field)?.octets(alloc)?;
    fields.push_reserved(Field::Octets(octets));
    Ok(())
}

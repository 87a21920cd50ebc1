//! Bits as a field.

ghost use Rattle.std.specs.Prelude.{◌+◌, ◌*◌, ◌<◌, ◌≤◌, length, IfOk, Ok, take, vec_len, vec_capacity};
ghost use Rattle.asn1_bits.specs.BitAppender.{room};
ghost use Rattle.asn1_bits.specs.BitReader.{bits_left};
ghost use Rattle.asn1_bits.specs.BitStr.{view_of, bits_of};
ghost use Rattle.asn1_bits.specs.Bits.{bits};
ghost use Rattle.asn1_values.specs.Fields as plain;
ghost use Rattle.asn1_values.specs.Steps.{FitsIn, HasRoomFor, HasRoomBehind, PushesOne, PushesBehind, IsReached, FitsWithin, WritesOver, Overwrites, Takes, ExaminesBits, AppendsNext};
ghost use Rattle.asn1_values.specs.Walk.{field_at};

use super::error::ReadError;
use super::field::Field;
use super::gathered::Gathered;
use super::number::overwrite_digits;
use super::take::take_bits;
use asn1_bits::{BitAppender, BitReader, BitStr, Turns, overwrite_bitslice, read_u128};

/// Returns how many bits they are.
#[inline(always)]
pub(super) fn len_or_misfit(bits: &BitStr<'_>) -> u128
    ensures { FitsIn (plain.Bits (bits_of bits.now)) result }
{
    bits.len() as u128
}

/// Gathers at most 32 bits, or pushes more after those that are gathered.
#[inline(always)]
pub(super) fn push(
    appender: &mut BitAppender<'_>,
    gathered: &mut Gathered,
    bits: &BitStr<'_>,
    turns: &mut Turns,
)
    requires { HasRoomBehind (plain.Bits (bits_of bits.now)) gathered.old.width
        (room appender.old) }
    ensures { PushesBehind (plain.Bits (bits_of bits.now)) appender.old appender.new
        gathered.old.word gathered.old.width gathered.new.word gathered.new.width turns.old.count
        turns.new.count }
{
    let len = bits.len();
    if len <= 32 {
        gathered.add(appender, read_u128(*bits) as u64, len, turns);
    } else {
        gathered.push(appender, turns);
        push_apart(appender, bits, turns);
    }
}

/// Pushes bits that fit the room.
#[inline(always)]
fn push_apart(appender: &mut BitAppender<'_>, bits: &BitStr<'_>, turns: &mut Turns)
    requires { HasRoomFor (plain.Bits (bits_of bits.now)) (room appender.old) }
    ensures { PushesOne (plain.Bits (bits_of bits.now)) appender.old appender.new turns.old.count
        turns.new.count }
{
    if bits.len() <= 128 {
        push_few(appender, bits, turns);
    } else {
        appender.push_bitslice(*bits, turns);
    }
}

/// Pushes at most 128 bits as a number. Not inlined, so that the loop over fields stays short.
#[inline(never)]
fn push_few(appender: &mut BitAppender<'_>, bits: &BitStr<'_>, turns: &mut Turns)
    requires few { (view_of bits.now).len ≤ 128 }
    requires room { HasRoomFor (plain.Bits (bits_of bits.now)) (room appender.old) }
    ensures { PushesOne (plain.Bits (bits_of bits.now)) appender.old appender.new turns.old.count
        turns.new.count }
{
    appender.push_number(read_u128(*bits), bits.len(), turns);
}

/// Writes bits over the old bits, and returns the bit after them.
pub(super) fn overwrite(target: &mut [u8], position: usize, view: &BitStr<'_>) -> usize
    requires { FitsWithin (8 * length target.old) position (plain.Bits (bits_of view.now)) }
    ensures { Overwrites (plain.Bits (bits_of view.now)) position (bits target.old)
        (bits target.new) result }
{
    overwrite_view(target, position, *view)
}

/// Writes the bits of the view over the old bits, and returns the bit after them. Few bits
/// are written as a number, which clears nothing first.
pub(super) fn overwrite_view(target: &mut [u8], position: usize, view: BitStr<'_>) -> usize
    requires { IsReached (8 * length target.old) (position + (view_of view).len) }
    ensures { WritesOver (bits_of view.entry) position (bits target.old) (bits target.new) result }
{
    let len = view.len();
    if len <= 128 {
        return overwrite_digits(target, position, read_u128(view), len);
    }
    overwrite_bitslice(target, position, view, &mut Turns::new());
    position + len
}

/// Reads `length` bits, and returns them.
#[tactic(auto, unfolding(crate::specs::Walk::field_at, crate::specs::Walk::cut_at))]
pub(super) fn take_value<'a>(
    reader: &mut BitReader<'a>,
    length: usize,
    field: usize,
) -> Result<BitReader<'a>, ReadError>
    ensures { ExaminesBits (Takes length reader.old reader.new) field
        (field_at (plain.OfBits length) (bits_left reader.old)) reader.new result }
{
    take_bits(reader, length as u128, field)
}

/// Appends a view of the next bits to the fields, for which there is room.
pub(super) fn read_into<'a>(
    fields: &mut Vec<Field<'a, '_>>,
    reader: &mut BitReader<'a>,
    length: usize,
    field: usize,
) -> Result<(), ReadError>
    requires { vec_len fields.old < vec_capacity fields.old }
    ensures { AppendsNext (plain.OfBits length) field reader.old reader.new fields.old fields.new
        result }
{
    let front = take_value(reader, length, field)?;
    fields.push_reserved(Field::Bits(front.bits()));
    Ok(())
}

//! An object identifier as a field: its contents (X.690 8.19).

ghost use Rattle.std.specs.Prelude.{◌≡◌, Err, ◌+◌, ◌*◌, ◌/◌, ◌<◌, ◌≤◌, length, IfOk, Ok, take, vec_len, vec_capacity};
ghost use Rattle.asn1_bits.specs.BitAppender.{room};
ghost use Rattle.asn1_bits.specs.BitReader.{view_left, bits_left};
ghost use Rattle.asn1_bits.specs.Bits.{bits, number};
ghost use Rattle.asn1_oid.specs.Reading.{contents_reading};
ghost use Rattle.asn1_values.specs.Fields as plain;
ghost use Rattle.asn1_values.specs.Steps.{HasRoomFor, PushesOne, IsReached, FitsWithin, Measures, WritesOver, Overwrites, Takes, ExaminesBits, AppendsNext, PushesList};
ghost use Rattle.asn1_values.specs.Walk.{field_at, octets_of};

use super::error::{ReadError, WriteError};
use super::field::Field;
use super::number::overwrite_digits;
use super::take::take_bits;
use super::view_octets::ViewOctets;
use asn1_bits::{BitAppender, BitReader, Turns};
use asn1_oid::{ContentsError, ObjectIdentifier, OidContents, check_contents};
use std::alloc::{AllocError, Global};

/// Returns how many bits the contents have, if the identifier has two arcs.
#[inline(always)]
pub(super) fn len_or_misfit(oid: &ObjectIdentifier, field: usize) -> Result<u128, WriteError>
    ensures { Measures field (plain.Identifier oid.now) result }
{
    fitting_contents(oid, field)
}

/// Does what `len_or_misfit` does. Not inlined, so that the result's stack slot is initialised only
/// for identifiers.
#[inline(never)]
fn fitting_contents(oid: &ObjectIdentifier, field: usize) -> Result<u128, WriteError>
    ensures { Measures field (plain.Identifier oid.now) result }
{
    let arcs = oid.as_ref();
    // For the proof: `len()` ensures that the number of arcs is below 2^64, so that of their octets
    // fits `u128`.
    let _len = arcs.len();
    match oid.as_oid().contents_len() {
        Some(octets) => Ok(8 * octets),
        None => Err(WriteError::ArcCount { field }),
    }
}

/// Pushes the contents of an identifier, which fit the room.
#[inline(never)]
pub(super) fn push(appender: &mut BitAppender<'_>, oid: &ObjectIdentifier, turns: &mut Turns)
    requires { HasRoomFor (plain.Identifier oid.now) (room appender.old) }
    ensures { PushesOne (plain.Identifier oid.now) appender.old appender.new turns.old.count
        turns.new.count }
{
    match oid.as_oid().contents() {
        Some(octets) => push_each(appender, octets, turns),
        None => unreachable!(),
    }
}

/// Pushes octets that fit the room, sixteen at a time.
fn push_each(appender: &mut BitAppender<'_>, octets: OidContents<'_>, turns: &mut Turns)
    requires { 8 * length octets ≤ room appender.old }
    ensures { PushesList (bits octets.entry) appender.old appender.new turns.old.count
        turns.new.count }
{
    let mut word = 0u128;
    let mut width = 0usize;
    for octet in octets {
        if width == 128 {
            appender.push_wide(word, width, turns);
            word = 0;
            width = 0;
        }
        word = 256 * word + u128::from(octet);
        width += 8;
    }
    appender.push_wide(word, width, turns);
}

/// Writes the contents of an identifier over the old bits, and returns the bit after them.
pub(super) fn overwrite(target: &mut [u8], position: usize, oid: &ObjectIdentifier) -> usize
    requires { FitsWithin (8 * length target.old) position (plain.Identifier oid.now) }
    ensures { Overwrites (plain.Identifier oid.now) position (bits target.old) (bits target.new)
        result }
{
    match oid.as_oid().contents() {
        Some(octets) => overwrite_each(target, position, octets),
        None => unreachable!(),
    }
}

/// Writes octets one by one, and returns the bit after them.
fn overwrite_each(target: &mut [u8], position: usize, octets: OidContents<'_>) -> usize
    requires { IsReached (8 * length target.old) (position + 8 * length octets) }
    ensures { WritesOver (bits octets.entry) position (bits target.old) (bits target.new) result }
{
    let mut next = position;
    for octet in octets {
        next = overwrite_digits(target, next, u128::from(octet), 8);
    }
    next
}

/// Reads an identifier, and returns its contents, if the octets are contents.
#[tactic(auto, unfolding(crate::specs::Walk::field_at, crate::specs::Walk::cut_at))]
pub(super) fn take_value<'a>(
    reader: &mut BitReader<'a>,
    octet_count: usize,
    field: usize,
) -> Result<BitReader<'a>, ReadError>
    ensures { ExaminesBits (Takes (8 * octet_count) reader.old reader.new) field
        (field_at (plain.OfIdentifier octet_count) (bits_left reader.old)) reader.new result }
{
    if octet_count == 0 {
        return Err(ReadError::Identifier { field });
    }
    let front = take_bits(reader, 8 * octet_count as u128, field)?;
    match check_contents(&ViewOctets { bits: front.bits() }) {
        Ok(()) => Ok(front),
        Err(ContentsError::Malformed) => Err(ReadError::Identifier { field }),
        Err(ContentsError::ArcTooLarge) => Err(ReadError::Arc { field }),
        Err(ContentsError::Memory) => unreachable!(),
    }
}

/// Appends the next identifier to the fields, for which there is room.
#[tactic(auto, unfolding(crate::specs::Walk::field_at, crate::specs::Walk::cut_at))]
pub(super) fn read_into<'a>(
    fields: &mut Vec<Field<'a, '_>>,
    alloc: Global,
    reader: &mut BitReader<'a>,
    octets: usize,
    field: usize,
) -> Result<(), ReadError>
    requires { vec_len fields.old < vec_capacity fields.old }
    ensures { AppendsNext (plain.OfIdentifier octets) field reader.old reader.new fields.old
        fields.new result }
{
    let front = take_value(reader, octets, field)?;
    let oid = identifier_of(alloc, &front)?;
    fields.push_reserved(Field::Oid(oid));
    Ok(())
}

/// Returns the identifier whose contents are the octets that the reader has left.
#[inline(never)]
fn identifier_of(alloc: Global, reader: &BitReader<'_>) -> Result<ObjectIdentifier, AllocError>
    ensures { IfOk result (λ arcs.
        contents_reading (octets_of ((view_left reader.now).len / 8) (bits_left reader.now))
        ≡ Ok arcs) }
{
    let octets = ViewOctets {
        bits: reader.bits(),
    };
    let Ok(oid) = ObjectIdentifier::from_contents(alloc, &octets) else {
        return Err(AllocError);
    };
    Ok(oid)
}

//! Skips fields, and finds the first invalid one, without memory.

ghost use Rattle.std.specs.Prelude.{◌≡◌, Ok, Err, ◌*◌, ◌<◌, length, OnOk, IfErr, IsOk};
ghost use Rattle.asn1_bits.specs.BitReader.{bits_left};
ghost use Rattle.asn1_bits.specs.Bits.{bits, number};
ghost use Rattle.asn1_values.specs.Plain.{plain_shape, plain_shapes};
ghost use Rattle.asn1_values.specs.Steps.{Examines, ExaminesAll};
ghost use Rattle.asn1_values.specs.Walk.{field_at, fields_at};

use super::error::ReadError;
use super::shape::Shape;
use super::{bits, character, counted_integer, identifier, integer, number, octets};
use asn1_bits::BitReader;

/// Skips a field of each shape.
pub(super) fn skip_all(reader: BitReader<'_>, shapes: &[Shape<'_>]) -> Result<(), ReadError>
    ensures { ExaminesAll (plain_shapes shapes.now) reader.entry result }
{
    let mut left = reader;
    for (i, shape) in shapes.iter().enumerate() {
        skip(&mut left, shape, i)?;
    }
    Ok(())
}

/// Skips one field, if it has the shape.
#[inline(always)]
#[tactic(auto, unfolding(crate::specs::Walk::field_at))]
fn skip(reader: &mut BitReader<'_>, shape: &Shape<'_>, field: usize) -> Result<(), ReadError>
    ensures { Examines field (field_at (plain_shape shape.now) (bits_left reader.old)) reader.new
        result }
{
    match shape {
        Shape::Number { width } => {
            number::take_value(reader, *width, field)?;
        }
        Shape::Octets { count } => {
            octets::take_value(reader, *count, field)?;
        }
        Shape::Bits { length } => {
            bits::take_value(reader, *length, field)?;
        }
        Shape::Integer { octets } => {
            integer::take_value(reader, *octets, field)?;
        }
        Shape::Character { alphabet } => {
            character::take_value(reader, alphabet, field)?;
        }
        Shape::CountedInteger => {
            counted_integer::take_value(reader, field)?;
        }
        Shape::Oid { octets } => {
            identifier::take_value(reader, *octets, field)?;
        }
    }
    Ok(())
}

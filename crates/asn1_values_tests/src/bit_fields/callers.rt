//! Callers that are proved by the contracts of the two calls alone.

ghost use Rattle.std.specs.Prelude.{◌≡◌, ◌≤◌, ◌++◌, length, IfSome, IsOk};
ghost use Rattle.asn1_bits.specs.BitReader.{bits_left};
ghost use Rattle.asn1_values.specs.Fields.{GiveOneSpelling};
ghost use Rattle.asn1_values.specs.Plain.{plain_shapes};

use crate::bit_fields::words::{buffer_of, octets_of, push_number, push_state};
use asn1_values::{BitBuffer, BitReader, Shape, WriteError, read_fields, write_fields};
use std::alloc::Global;

/// Reads fields and writes them again. Returns what was written: the bits that were read.
fn copies_the_front(
    alloc: Global,
    reader: &mut BitReader<'_>,
    shapes: &[Shape<'_>],
) -> Option<BitBuffer>
    requires { GiveOneSpelling (plain_shapes shapes.now) }
    ensures { IfSome result (λ front. bits_left reader.old ≡ front ++ bits_left reader.new) }
{
    let fields = read_fields(alloc, reader, shapes).ok()?;
    let mut front = BitBuffer::new(alloc);
    write_fields(&mut front, fields.as_slice()).ok()?;
    Some(front)
}

/// Answers `OCTETS`: how many bits are left after a number of four bits and an octet, and these
/// fields, written again.
pub fn front(alloc: Global, text: &mut String, words: &[&str]) -> Option<()> {
    if let [octets] = words
        && let Some(octets) = octets_of(alloc, octets)
        && octets.len() <= 100
    {
        return tell_front(alloc, text, octets.as_slice());
    }
    None
}

fn tell_front(alloc: Global, text: &mut String, octets: &[u8]) -> Option<()>
    requires { length octets.now ≤ 100 }
{
    let mut reader = BitReader::from_octets(octets);
    let shapes = [Shape::Number { width: 4 }, Shape::Octets { count: 1 }];
    if let Some(front) = copies_the_front(alloc, &mut reader, &shapes)
        && let Some(()) = push_number(alloc, text, reader.len() as u128)
    {
        return push_state(alloc, text, &front);
    }
    None
}

/// Writes no fields, which allocates nothing.
fn writes_nothing(buffer: &mut BitBuffer) -> Result<(), WriteError>
    ensures fine { IsOk result }
    ensures same { buffer.new ≡ buffer.old }
{
    let _bits = buffer.len();
    write_fields(buffer, &[])
}

/// Answers `BITS`: a buffer of the bits after `writes_nothing`.
pub fn nothing(alloc: Global, text: &mut String, words: &[&str]) -> Option<()> {
    if let [bits] = words
        && let Some(mut buffer) = buffer_of(alloc, bits)
        && let Ok(()) = writes_nothing(&mut buffer)
    {
        return push_state(alloc, text, &buffer);
    }
    None
}

//! Fields written and read again.

use crate::row::{Row, Work};
use asn1_values::{
    BitBuffer, BitReader, CharacterAlphabet, Field, Ia5String, Integer, Octets, Shape, read_fields,
    write_fields,
};
use std::alloc::{AllocError, Global};

/// The letters of an alphabet of 32 characters without a gap.
const LETTERS: [u32; 32] = [
    64, 65, 66, 67, 68, 69, 70, 71, 72, 73, 74, 75, 76, 77, 78, 79, 80, 81, 82, 83, 84, 85, 86, 87,
    88, 89, 90, 91, 92, 93, 94, 95,
];

/// Returns the fields after three bits.
fn write_behind(alloc: Global, fields: &[Field<'_, '_>]) -> Result<BitBuffer, AllocError> {
    let mut buffer = BitBuffer::new(alloc);
    buffer.push_bits(5, 3)?;
    match write_fields(&mut buffer, fields) {
        Ok(()) => Ok(buffer),
        Err(_) => Err(AllocError),
    }
}

/// Returns how many fields of these shapes follow three bits, or 0 if they are not read.
fn read_behind(alloc: Global, buffer: &BitBuffer, shapes: &[Shape<'_>]) -> u64 {
    let mut reader = BitReader::new(buffer.as_bitstr());
    let _ = reader.split(3);
    match read_fields(alloc, &mut reader, shapes) {
        Ok(read) => read.len() as u64,
        Err(_) => 0,
    }
}

/// Writes the fields after three bits and reads them again. Returns the number of bits and of
/// fields.
fn there_and_back(
    alloc: Global,
    fields: &[Field<'_, '_>],
    shapes: &[Shape<'_>],
) -> Result<u64, AllocError> {
    let buffer = write_behind(alloc, fields)?;
    Ok((buffer.len() as u64).wrapping_add(read_behind(alloc, &buffer, shapes)))
}

/// Fields, written and read again.
#[derive(Drop)]
pub struct Fields<'a> {
    work: Work,
    times: u32,
    fields: Vec<Field<'a, 'a>>,
    shapes: Vec<Shape<'a>>,
}

impl<'a> Fields<'a> {
    /// Returns a thousand numbers of 7 bits, in `width` bits each.
    pub fn numbers(
        alloc: Global,
        width: usize,
        name: &'static str,
    ) -> Result<Fields<'a>, AllocError> {
        let mut row = Fields::new(alloc, name, 1000, 1);
        for i in 0..1000u32 {
            let value = u128::from(i % 128);
            row.add(Field::Number { value, width }, Shape::Number { width })?;
        }
        Ok(row)
    }

    /// Returns a thousand integers of two octets.
    pub fn integers(alloc: Global) -> Result<Fields<'a>, AllocError> {
        let name = "an integer of two octets written and read as a field";
        let mut row = Fields::new(alloc, name, 1000, 1);
        for i in 0..1000i64 {
            let number = Field::Integer(Integer::from(i + 128));
            row.add(number, Shape::Integer { octets: 2 })?;
        }
        Ok(row)
    }

    /// Returns a thousand characters of an alphabet of 32.
    pub fn characters(alloc: Global) -> Result<Fields<'a>, AllocError> {
        let alphabet = CharacterAlphabet::new::<Ia5String>(Some(&LETTERS), false);
        let name = "a character of 32 written and read as a field";
        let mut row = Fields::new(alloc, name, 1000, 1);
        for i in 0..1000usize {
            let character = LETTERS[i % 32];
            let field = Field::Character {
                alphabet,
                character,
            };
            row.add(field, Shape::Character { alphabet })?;
        }
        Ok(row)
    }

    /// Returns a message of a number, octets, a counted integer and an integer, a hundred times.
    pub fn message(alloc: Global) -> Result<Fields<'a>, AllocError> {
        let name = "a message of four fields written and read";
        let mut row = Fields::new(alloc, name, 100, 100);
        row.add(
            Field::Number { value: 5, width: 3 },
            Shape::Number { width: 3 },
        )?;
        let octets = Field::Octets(Octets::Borrowed(&[0xA5, 0x5A]));
        row.add(octets, Shape::Octets { count: 2 })?;
        let counted = Field::CountedInteger(Integer::from(51));
        row.add(counted, Shape::CountedInteger)?;
        let integer = Field::Integer(Integer::from(-129));
        row.add(integer, Shape::Integer { octets: 2 })?;
        Ok(row)
    }

    /// Makes a row without fields: of `pieces` pieces of work, done `times` times in a round.
    fn new(alloc: Global, name: &'static str, pieces: u64, times: u32) -> Fields<'a> {
        Fields {
            work: Work {
                name,
                pieces,
                octets: 0,
            },
            times,
            fields: Vec::new(alloc),
            shapes: Vec::new(alloc),
        }
    }

    /// Appends a field, and the shape that it is read by.
    fn add(&mut self, field: Field<'a, 'a>, shape: Shape<'a>) -> Result<(), AllocError> {
        self.fields.push(field)?;
        self.shapes.push(shape)?;
        Ok(())
    }
}

impl<'a> Row for Fields<'a> {
    fn work(&self) -> Work {
        self.work
    }

    fn round(&mut self, alloc: Global) -> Result<u64, AllocError> {
        let mut sum = 0u64;
        for _ in 0..self.times {
            let bits = there_and_back(alloc, self.fields.as_slice(), self.shapes.as_slice())?;
            sum = sum.wrapping_add(bits);
        }
        Ok(sum)
    }
}

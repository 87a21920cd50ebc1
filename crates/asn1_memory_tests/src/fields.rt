//! Fields of all kinds.

use crate::bits::{is_three_ones, three_ones};
use crate::failure::{met, met_before, settle};
use asn1_values::{
    BitBuffer, BitReader, BitStr, CharacterAlphabet, Field, Ia5String, Integer, ObjectIdentifier,
    Octets, ReadError, Shape, Turns, WriteError, read_fields, write_fields, write_fields_counted,
};
use std::alloc::Global;
use std::borrow::CowSlice;
use std::test::Fail;

/// Forty octets, and more zero octets than a small buffer has room for.
const OCTETS: [u8; 40] = [0xA5; 40];

const ZEROS: [u8; 4096] = [0; 4096];

/// The integer 128, a counted integer, and the contents of the arcs below.
const MIDDLE: [u8; 14] = [
    0x00, 0x80, 0x02, 0x00, 0x80, 0x60, 0x86, 0x48, 0x01, 0x65, 0x03, 0x04, 0x02, 0x03,
];

/// The bits 11110110, the forty octets and these.
const FRONT: [u8; 55] = [
    0xF6, 0xA5, 0xA5, 0xA5, 0xA5, 0xA5, 0xA5, 0xA5, 0xA5, 0xA5, 0xA5, 0xA5, 0xA5, 0xA5, 0xA5, 0xA5,
    0xA5, 0xA5, 0xA5, 0xA5, 0xA5, 0xA5, 0xA5, 0xA5, 0xA5, 0xA5, 0xA5, 0xA5, 0xA5, 0xA5, 0xA5, 0xA5,
    0xA5, 0xA5, 0xA5, 0xA5, 0xA5, 0xA5, 0xA5, 0xA5, 0xA5, 0x00, 0x80, 0x02, 0x00, 0x80, 0x60, 0x86,
    0x48, 0x01, 0x65, 0x03, 0x04, 0x02, 0x03,
];

/// The shortest octets of 2 to the power of 199.
const POWER: [u8; 26] = [
    0x00, 0x80, 0, 0, 0, 0, 0, 0, 0, 0, 0, 0, 0, 0, 0, 0, 0, 0, 0, 0, 0, 0, 0, 0, 0, 0,
];

/// Returns a field of each kind, without memory: five bits, octets, integers, an identifier, zero
/// octets, three bits and a character of one bit.
fn message() -> Result<[Field<'static, 'static>; 8], Fail> {
    let arcs = CowSlice::Borrowed(&[2, 16, 840, 1, 101, 3, 4, 2, 3]);
    let bits = BitStr::new(&[0xE0], 0, 3).ok_or("there")?;
    let oid = ObjectIdentifier::new(arcs).ok_or("valid")?;
    Ok([
        Field::Number {
            value: 0b10110,
            width: 5,
        },
        Field::Octets(Octets::Borrowed(&OCTETS)),
        Field::Integer(Integer::from(128)),
        Field::CountedInteger(Integer::from(128)),
        Field::Oid(oid),
        Field::Octets(Octets::Borrowed(&ZEROS)),
        Field::Bits(bits),
        Field::Character {
            alphabet: CharacterAlphabet::new::<Ia5String>(Some(&[97, 98]), false),
            character: 98,
        },
    ])
}

/// Returns whether the buffer holds 111 and the message.
fn holds_message(buffer: &BitBuffer) -> bool {
    let octets = buffer.as_bytes();
    buffer.len() == 33212
        && octets.len() == 4152
        && octets.starts_with(&FRONT)
        && octets.get(55..4151) == Some(ZEROS.as_slice())
        && octets.last() == Some(&0xF0)
}

/// Calls `write_fields` without its contract, so that callers are quick to prove.
fn write(buffer: &mut BitBuffer, fields: &[Field<'_, '_>]) -> Result<(), WriteError> {
    write_fields(buffer, fields)
}

/// Calls `read_fields` without its contract.
fn read<'a, 's>(
    alloc: Global,
    reader: &mut BitReader<'a>,
    shapes: &[Shape<'s>],
) -> Result<Vec<Field<'a, 's>>, ReadError> {
    read_fields(alloc, reader, shapes)
}

/// Checks that a call wrote the message after 111, or was out of memory and left 111.
fn answers(
    rt: &HostRuntime,
    call: &str,
    answer: Result<(), WriteError>,
    buffer: &BitBuffer,
) -> Result<(), Fail> {
    match answer {
        Ok(()) if holds_message(buffer) => Ok(()),
        Err(WriteError::Memory) if is_three_ones(buffer) => met(rt, call),
        _ => Err("another answer".into()),
    }
}

#[test]
fn fields_are_written(rt: HostRuntime) -> Result<(), Fail> {
    let fields = message()?;
    let Ok(mut buffer) = three_ones(rt.alloc()) else {
        return met_before(&rt, "write_fields");
    };
    let answer = write(&mut buffer, &fields);
    answers(&rt, "write_fields", answer, &buffer)
}

#[test]
fn fields_are_written_and_counted(rt: HostRuntime) -> Result<(), Fail> {
    let fields = message()?;
    let Ok(mut buffer) = three_ones(rt.alloc()) else {
        return met_before(&rt, "write_fields_counted");
    };
    let answer = write_fields_counted(&mut buffer, &fields, &mut Turns::new());
    answers(&rt, "write_fields_counted", answer, &buffer)
}

#[test]
fn a_field_within_an_octet_asks_for_nothing(rt: HostRuntime) -> Result<(), Fail> {
    let Ok(mut buffer) = three_ones(rt.alloc()) else {
        return met_before(&rt, "write_fields within an octet");
    };
    let five = Field::Number {
        value: 31,
        width: 5,
    };
    write(&mut buffer, &[five])?;
    assert!(rt; buffer.len() == 8 && buffer.as_bytes() == [0xFF].as_slice());
    Ok(())
}

#[test]
fn a_wrong_field_keeps_its_name_in_writing(rt: HostRuntime) -> Result<(), Fail> {
    let Ok(mut buffer) = three_ones(rt.alloc()) else {
        return met_before(&rt, "write_fields of a wrong field");
    };
    let fields = [
        Field::Octets(Octets::Borrowed(&ZEROS)),
        Field::Number { value: 2, width: 1 },
    ];
    let refused = write(&mut buffer, &fields).err();
    assert!(rt; refused == Some(WriteError::Number { field: 1 }));
    assert!(rt; is_three_ones(&buffer));
    Ok(())
}

/// Writes six bits, octets that do not begin at an octet, and an integer that exceeds `i128`, after
/// 111. `None` if out of memory.
fn bits_to_read(alloc: Global) -> Option<BitBuffer> {
    let power = Integer::from_signed_octets(alloc, &POWER).ok()?;
    let fields = [
        Field::Number {
            value: 0b101101,
            width: 6,
        },
        Field::Octets(Octets::Borrowed(&OCTETS)),
        Field::Integer(power),
        Field::Octets(Octets::Borrowed(&MIDDLE)),
    ];
    let mut buffer = three_ones(alloc).ok()?;
    write(&mut buffer, &fields).ok()?;
    Some(buffer)
}

/// Returns whether these are the fields that were written, the last octets as an integer, a counted
/// integer and an identifier.
fn are_those(fields: &[Field<'_, '_>]) -> bool {
    let [number, octets, power, integer, counted, oid] = fields else {
        return false;
    };
    matches!(
        number,
        Field::Number {
            value: 45,
            width: 6
        }
    ) && matches!(octets, Field::Octets(octets) if octets.as_ref() == OCTETS.as_slice())
        && matches!(power, Field::Integer(n) if n.signed_octets().as_ref() == POWER.as_slice())
        && matches!(integer, Field::Integer(n) if n.to_i128() == Some(128))
        && matches!(counted, Field::CountedInteger(n) if n.to_i128() == Some(128))
        && matches!(oid, Field::Oid(oid) if oid.eq_arcs(&[2, 16, 840, 1, 101, 3, 4, 2, 3]))
}

/// Reads the fields after 111. Returns whether they are read, and whether they are right and no bit
/// is left, or the error is out of memory and all bits are left.
fn outcome_of(alloc: Global, view: BitStr<'_>) -> (bool, bool) {
    let shapes = [
        Shape::Number { width: 6 },
        Shape::Octets { count: 40 },
        Shape::Integer { octets: 26 },
        Shape::Integer { octets: 2 },
        Shape::CountedInteger,
        Shape::Oid { octets: 9 },
    ];
    let mut reader = BitReader::new(view);
    match read(alloc, &mut reader, &shapes) {
        Ok(fields) => (true, are_those(fields.as_slice()) && reader.len() == 0),
        Err(error) => {
            let left = reader.bits();
            let is_memory = error == ReadError::Memory;
            (false, is_memory && left == view && left.shift() == 3)
        }
    }
}

#[test]
fn fields_are_read(rt: HostRuntime) -> Result<(), Fail> {
    let Some(buffer) = bits_to_read(rt.alloc()) else {
        return met_before(&rt, "read_fields");
    };
    // 6 bits and 80 octets, from bit 3 on.
    let Some(view) = BitStr::new(buffer.as_bytes(), 3, 646) else {
        return Err("there".into());
    };
    let (is_done, is_right) = outcome_of(rt.alloc(), view);
    settle(&rt, "read_fields", is_done, is_right)
}

#[test]
fn a_wrong_field_keeps_its_name_in_reading(rt: HostRuntime) -> Result<(), Fail> {
    let rows: [(&[u8], [Shape<'static>; 2], ReadError); 5] = [
        (
            &[0xFF, 0xFF],
            [Shape::Number { width: 3 }, Shape::Octets { count: 2 }],
            ReadError::Short { field: 1, bits: 3 },
        ),
        (
            &[0x01, 0x00, 0x05],
            [Shape::Octets { count: 1 }, Shape::Integer { octets: 2 }],
            ReadError::Integer { field: 1 },
        ),
        (
            &[0x01, 0x80],
            [Shape::Octets { count: 1 }, Shape::CountedInteger],
            ReadError::Length {
                field: 1,
                octet: 0x80,
            },
        ),
        (
            &[0x01, 0x2A, 0x86],
            [Shape::Octets { count: 1 }, Shape::Oid { octets: 2 }],
            ReadError::Identifier { field: 1 },
        ),
        (
            &[0x01, 0x90, 0x80, 0x80, 0x80, 0x50],
            [Shape::Octets { count: 1 }, Shape::Oid { octets: 5 }],
            ReadError::Arc { field: 1 },
        ),
    ];
    for (octets, shapes, error) in rows {
        let bits = octets.len().checked_mul(8).ok_or("fits")?;
        let view = BitStr::new(octets, 0, bits).ok_or("there")?;
        let mut reader = BitReader::new(view);
        let refused = read(rt.alloc(), &mut reader, &shapes).err();
        assert!(rt; refused == Some(error));
        assert!(rt; reader.bits() == view);
    }
    Ok(())
}

#[test]
fn no_shapes_ask_for_nothing(rt: HostRuntime) -> Result<(), Fail> {
    let mut reader = BitReader::from_octets(&[0xFF]);
    let fields = read(rt.alloc(), &mut reader, &[])?;
    assert!(rt; fields.is_empty());
    assert!(rt; reader.len() == 8);
    Ok(())
}

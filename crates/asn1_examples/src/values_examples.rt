//! The examples of `asn1_values`.

use asn1_values::{BitBuffer, BitReader, Field, Shape, read_fields, write_fields, write_fields_at};
use std::test::Fail;

/// The example of `read_fields`.
#[test]
fn read_fields_example(rt: HostRuntime) -> Result<(), Fail> {
    let mut reader = BitReader::from_octets(&[0b1011_1001, 0]);
    let shapes = [Shape::Number { width: 3 }, Shape::Number { width: 8 }];
    let fields = read_fields(rt.alloc(), &mut reader, &shapes)?;
    assert!(rt; fields.len() == 2 && reader.len() == 5);
    Ok(())
}

/// The example of `write_fields`.
#[test]
fn write_fields_example(rt: HostRuntime) -> Result<(), Fail> {
    let mut buffer = BitBuffer::new(rt.alloc());
    let version = Field::Number { value: 5, width: 3 };
    let length = Field::Number { value: 9, width: 8 };
    write_fields(&mut buffer, &[version, length])?;
    assert!(rt; buffer.as_bytes() == [0b1010_0001, 0b0010_0000].as_slice());
    Ok(())
}

/// The example of `write_fields_at`.
#[test]
fn write_fields_at_example(rt: HostRuntime) -> Result<(), Fail> {
    let mut octets = [0xFF, 0xFF];
    let end = write_fields_at(&mut octets, 4, &[Field::Number { value: 1, width: 8 }])?;
    assert!(rt; end == 12 && octets == [0xF0, 0x1F]);
    Ok(())
}

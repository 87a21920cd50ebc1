//! The examples of `asn1_bits`.

use asn1_bits::{BitBuffer, BitReader, BitStr, to_bitstring};
use std::test::Fail;

/// The example of `BitReader::split`.
#[test]
fn bit_reader_split_example(rt: HostRuntime) -> Result<(), Fail> {
    let mut reader = BitReader::from_octets(&[0b1011_1001]);
    let front = reader.split(3)?;
    assert!(rt; front.first_u128(3) == 0b101);
    assert!(rt; reader.len() == 5);
    Ok(())
}

/// The example of `BitStr::new`.
#[test]
fn bit_str_new_example(rt: HostRuntime) -> Result<(), Fail> {
    let octets = [0b0101_1000];
    let view = BitStr::new(&octets, 1, 4);
    assert!(rt; view.is_some_and(|it| it.len() == 4));
    assert!(rt; BitStr::new(&octets, 5, 4).is_none());
    Ok(())
}

/// The example of `BitStr::split_at`.
#[test]
fn bit_str_split_at_example(rt: HostRuntime) -> Result<(), Fail> {
    let octets = [0b1010_0001];
    let (front, back) = BitStr::from_octets(&octets).split_at(3);
    assert!(rt; front.len() == 3 && front.get(2));
    assert!(rt; back.len() == 5 && !back.get(0));
    Ok(())
}

/// The example of `to_bitstring`.
#[test]
fn to_bitstring_example(rt: HostRuntime) -> Result<(), Fail> {
    let octets = [0b0101_1000];
    let string = to_bitstring(rt.alloc(), BitStr::from_octets(&octets).slice(1, 4))?;
    assert!(rt; string.as_raw_slice() == [0b1011_0000].as_slice());
    Ok(())
}

/// The example of `asn1_bits`.
#[test]
fn asn1_bits_example(rt: HostRuntime) -> Result<(), Fail> {
    let octets = [0b0101_1000];
    let mut buffer = BitBuffer::new(rt.alloc());
    buffer.push_bits(200, 8)?;
    buffer.extend_from_bitslice(BitStr::from_octets(&octets).slice(1, 4))?;
    assert!(rt; buffer.as_bytes() == [200, 0b1011_0000].as_slice());
    assert!(rt; BitReader::new(buffer.as_bitstr()).len() == 12);
    Ok(())
}

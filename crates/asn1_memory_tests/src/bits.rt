//! Bits: buffers, bit strings, readers.

ghost use Rattle.std.specs.Prelude.{◌≡◌, length, IfOk};

use crate::failure::{met_before, settle};
use asn1_values::{
    BitBuffer, BitReader, BitStr, BitString, Octets, extend_bitstring, extend_vec_from_bitslice,
    to_bitstring,
};
use std::alloc::{AllocError, Global};
use std::test::Fail;

/// Sixty-four octets.
const OCTETS: [u8; 64] = [0x5A; 64];

/// Returns the three bits 111.
pub fn three_ones(alloc: Global) -> Result<BitBuffer, AllocError>
    ensures { IfOk result (λ bits. length bits ≡ 3) }
{
    let mut buffer = BitBuffer::new(alloc);
    buffer.push_bits(0b111, 3)?;
    Ok(buffer)
}

/// Returns the bits of the 64 octets.
fn octets(alloc: Global) -> Result<BitBuffer, AllocError>
    ensures { IfOk result (λ bits. length bits ≡ 512) }
{
    let mut buffer = BitBuffer::new(alloc);
    buffer.extend_from_bytes(&OCTETS)?;
    Ok(buffer)
}

/// Returns whether the buffer has `count` bits, in these octets.
fn holds(buffer: &BitBuffer, count: usize, octets: &[u8]) -> bool {
    buffer.len() == count && buffer.as_bytes() == octets
}

/// Returns whether the buffer holds 111 and no other bit.
pub fn is_three_ones(buffer: &BitBuffer) -> bool {
    holds(buffer, 3, &[0xE0])
}

/// The three bits 111, and the 64 octets 5A after them.
const FOLLOWED_BY_OCTETS: [u8; 65] = [
    0xEB, 0x4B, 0x4B, 0x4B, 0x4B, 0x4B, 0x4B, 0x4B, 0x4B, 0x4B, 0x4B, 0x4B, 0x4B, 0x4B, 0x4B, 0x4B,
    0x4B, 0x4B, 0x4B, 0x4B, 0x4B, 0x4B, 0x4B, 0x4B, 0x4B, 0x4B, 0x4B, 0x4B, 0x4B, 0x4B, 0x4B, 0x4B,
    0x4B, 0x4B, 0x4B, 0x4B, 0x4B, 0x4B, 0x4B, 0x4B, 0x4B, 0x4B, 0x4B, 0x4B, 0x4B, 0x4B, 0x4B, 0x4B,
    0x4B, 0x4B, 0x4B, 0x4B, 0x4B, 0x4B, 0x4B, 0x4B, 0x4B, 0x4B, 0x4B, 0x4B, 0x4B, 0x4B, 0x4B, 0x4B,
    0x40,
];

/// The bits 11101011, and 507 zeros after them.
const FOLLOWED_BY_ZEROS: [u8; 65] = [
    0xEB, 0, 0, 0, 0, 0, 0, 0, 0, 0, 0, 0, 0, 0, 0, 0, 0, 0, 0, 0, 0, 0, 0, 0, 0, 0, 0, 0, 0, 0, 0,
    0, 0, 0, 0, 0, 0, 0, 0, 0, 0, 0, 0, 0, 0, 0, 0, 0, 0, 0, 0, 0, 0, 0, 0, 0, 0, 0, 0, 0, 0, 0, 0,
    0, 0,
];

/// Returns whether the buffer has 111, followed by the 64 octets 5A if the call succeeded.
fn is_extended(buffer: &BitBuffer, is_done: bool) -> bool {
    if is_done {
        holds(buffer, 515, &FOLLOWED_BY_OCTETS)
    } else {
        is_three_ones(buffer)
    }
}

/// Returns whether the buffer has 512 ones, or 111 alone if the call failed.
fn is_resized(buffer: &BitBuffer, is_done: bool) -> bool {
    if is_done {
        holds(buffer, 512, &[0xFF; 64])
    } else {
        is_three_ones(buffer)
    }
}

/// Returns whether the string holds the 64 octets.
fn is_octets(string: &BitString) -> bool {
    string.as_raw_slice() == OCTETS.as_slice()
}

/// The 64 octets from bit 4 on, without the last four bits.
const TURNED: [u8; 63] = [0xA5; 63];

#[test]
fn bit_buffer_push(rt: HostRuntime) -> Result<(), Fail> {
    let mut buffer = BitBuffer::new(rt.alloc());
    let is_done = buffer.push(true).is_ok();
    let (count, octets): (usize, &[u8]) = if is_done { (1, &[0x80]) } else { (0, &[]) };
    settle(
        &rt,
        "BitBuffer::push",
        is_done,
        holds(&buffer, count, octets),
    )
}

#[test]
fn bit_buffer_push_bits(rt: HostRuntime) -> Result<(), Fail> {
    let mut buffer = BitBuffer::new(rt.alloc());
    let is_done = buffer.push_bits(0b101, 3).is_ok();
    let (count, octets): (usize, &[u8]) = if is_done { (3, &[0xA0]) } else { (0, &[]) };
    settle(
        &rt,
        "BitBuffer::push_bits",
        is_done,
        holds(&buffer, count, octets),
    )
}

#[test]
fn bit_buffer_push_bits_within_an_octet(rt: HostRuntime) -> Result<(), Fail> {
    let Ok(mut buffer) = three_ones(rt.alloc()) else {
        return met_before(&rt, "BitBuffer::push_bits within an octet");
    };
    // No octet is added, so nothing is allocated.
    let is_pushed = buffer.push_bits(31, 5).is_ok();
    assert!(rt; is_pushed && holds(&buffer, 8, &[0xFF]));
    Ok(())
}

#[test]
fn bit_buffer_resize(rt: HostRuntime) -> Result<(), Fail> {
    let Ok(mut buffer) = three_ones(rt.alloc()) else {
        return met_before(&rt, "BitBuffer::resize");
    };
    let is_done = buffer.resize(512, true).is_ok();
    settle(
        &rt,
        "BitBuffer::resize",
        is_done,
        is_resized(&buffer, is_done),
    )
}

#[test]
fn bit_buffer_extend_from_bytes(rt: HostRuntime) -> Result<(), Fail> {
    let Ok(mut buffer) = three_ones(rt.alloc()) else {
        return met_before(&rt, "BitBuffer::extend_from_bytes");
    };
    let is_done = buffer.extend_from_bytes(&OCTETS).is_ok();
    settle(
        &rt,
        "BitBuffer::extend_from_bytes",
        is_done,
        is_extended(&buffer, is_done),
    )
}

#[test]
fn bit_buffer_extend_from_bitslice(rt: HostRuntime) -> Result<(), Fail> {
    let Ok(mut buffer) = three_ones(rt.alloc()) else {
        return met_before(&rt, "BitBuffer::extend_from_bitslice");
    };
    let is_done = buffer
        .extend_from_bitslice(BitStr::from_octets(&OCTETS))
        .is_ok();
    settle(
        &rt,
        "BitBuffer::extend_from_bitslice",
        is_done,
        is_extended(&buffer, is_done),
    )
}

#[test]
fn bit_buffer_extend_from_buffer(rt: HostRuntime) -> Result<(), Fail> {
    let Ok(other) = octets(rt.alloc()) else {
        return met_before(&rt, "BitBuffer::extend_from_buffer");
    };
    let Ok(mut buffer) = three_ones(rt.alloc()) else {
        return met_before(&rt, "BitBuffer::extend_from_buffer");
    };
    let is_done = buffer.extend_from_buffer(&other).is_ok();
    let is_right = is_extended(&buffer, is_done) && other.as_bytes() == OCTETS.as_slice();
    settle(&rt, "BitBuffer::extend_from_buffer", is_done, is_right)
}

#[test]
fn bit_buffer_appender(rt: HostRuntime) -> Result<(), Fail> {
    let Ok(mut buffer) = three_ones(rt.alloc()) else {
        return met_before(&rt, "BitBuffer::appender");
    };
    let room = match buffer.appender(512) {
        Ok(mut appender) => {
            appender.push(0b01011, 5);
            Some(appender.room())
        }
        Err(_) => None,
    };
    let is_right = match room {
        // 111, 01011, and zeros for the room that is left.
        Some(room) => room == 507 && holds(&buffer, 515, &FOLLOWED_BY_ZEROS),
        None => is_three_ones(&buffer),
    };
    settle(&rt, "BitBuffer::appender", room.is_some(), is_right)
}

#[test]
fn bit_buffer_reserve_bytes(rt: HostRuntime) -> Result<(), Fail> {
    let Ok(mut buffer) = three_ones(rt.alloc()) else {
        return met_before(&rt, "BitBuffer::reserve_bytes");
    };
    let is_done = buffer.reserve_bytes(512).is_ok();
    settle(
        &rt,
        "BitBuffer::reserve_bytes",
        is_done,
        is_three_ones(&buffer),
    )
}

#[test]
fn bit_buffer_clone(rt: HostRuntime) -> Result<(), Fail> {
    let Ok(buffer) = three_ones(rt.alloc()) else {
        return met_before(&rt, "BitBuffer::clone");
    };
    let (is_done, is_right) = match buffer.clone() {
        Ok(copy) => (true, is_three_ones(&copy)),
        Err(_) => (false, true),
    };
    settle(
        &rt,
        "BitBuffer::clone",
        is_done,
        is_right && is_three_ones(&buffer),
    )
}

#[test]
fn to_bit_string(rt: HostRuntime) -> Result<(), Fail> {
    let (is_done, is_right) = match to_bitstring(rt.alloc(), BitStr::from_octets(&OCTETS)) {
        Ok(string) => (true, is_octets(&string)),
        Err(_) => (false, true),
    };
    settle(&rt, "to_bitstring", is_done, is_right)
}

#[test]
fn extend_bit_string(rt: HostRuntime) -> Result<(), Fail> {
    let mut string = BitString::new(rt.alloc());
    let is_done = extend_bitstring(&mut string, BitStr::from_octets(&OCTETS)).is_ok();
    let is_right = if is_done {
        is_octets(&string)
    } else {
        string.is_empty() && string.as_raw_slice().is_empty()
    };
    settle(&rt, "extend_bitstring", is_done, is_right)
}

#[test]
fn bit_string_clone(rt: HostRuntime) -> Result<(), Fail> {
    let Ok(string) = to_bitstring(rt.alloc(), BitStr::from_octets(&OCTETS)) else {
        return met_before(&rt, "BitString::clone");
    };
    let (is_done, is_right) = match string.clone() {
        Ok(copy) => (true, is_octets(&copy)),
        Err(_) => (false, true),
    };
    settle(
        &rt,
        "BitString::clone",
        is_done,
        is_right && is_octets(&string),
    )
}

#[test]
fn bit_reader_octets(rt: HostRuntime) -> Result<(), Fail> {
    // 504 bits from bit 4 on: A5 sixty-three times.
    let view = BitStr::new(&OCTETS, 4, 504).ok_or("there")?;
    let reader = BitReader::new(view);
    let (is_done, is_right) = match reader.octets(rt.alloc()) {
        Ok(octets) => (
            true,
            matches!(octets, Octets::Owned(_)) && octets.as_ref() == TURNED.as_slice(),
        ),
        Err(_) => (false, true),
    };
    settle(
        &rt,
        "BitReader::octets",
        is_done,
        is_right && reader.bits() == view,
    )
}

#[test]
fn bit_reader_octets_on_boundaries(rt: HostRuntime) -> Result<(), Fail> {
    // They are borrowed, so nothing is allocated.
    let octets = BitReader::from_octets(&OCTETS).octets(rt.alloc())?;
    assert!(rt; matches!(octets, Octets::Borrowed(_)));
    assert!(rt; octets.as_ref() == OCTETS.as_slice());
    Ok(())
}

/// The octets 11 and 22, and after them the 64 octets from bit 4 on, without the last four bits.
const EXTENDED: [u8; 65] = [
    0x11, 0x22, 0xA5, 0xA5, 0xA5, 0xA5, 0xA5, 0xA5, 0xA5, 0xA5, 0xA5, 0xA5, 0xA5, 0xA5, 0xA5, 0xA5,
    0xA5, 0xA5, 0xA5, 0xA5, 0xA5, 0xA5, 0xA5, 0xA5, 0xA5, 0xA5, 0xA5, 0xA5, 0xA5, 0xA5, 0xA5, 0xA5,
    0xA5, 0xA5, 0xA5, 0xA5, 0xA5, 0xA5, 0xA5, 0xA5, 0xA5, 0xA5, 0xA5, 0xA5, 0xA5, 0xA5, 0xA5, 0xA5,
    0xA5, 0xA5, 0xA5, 0xA5, 0xA5, 0xA5, 0xA5, 0xA5, 0xA5, 0xA5, 0xA5, 0xA5, 0xA5, 0xA5, 0xA5, 0xA5,
    0xA5,
];

#[test]
fn vector_from_bits(rt: HostRuntime) -> Result<(), Fail> {
    let view = BitStr::new(&OCTETS, 4, 504).ok_or("there")?;
    let Ok(mut octets) = Vec::from_slice(rt.alloc(), &[0x11, 0x22]) else {
        return met_before(&rt, "extend_vec_from_bitslice");
    };
    let is_done = extend_vec_from_bitslice(&mut octets, view).is_ok();
    let wanted: &[u8] = if is_done { &EXTENDED } else { &[0x11, 0x22] };
    let is_right = octets.as_slice() == wanted;
    settle(&rt, "extend_vec_from_bitslice", is_done, is_right)
}

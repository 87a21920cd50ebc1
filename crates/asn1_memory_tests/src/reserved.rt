//! Reserved capacity: appending within it allocates nothing.

use crate::failure::met_before;
use asn1_values::BitBuffer;
use std::test::Fail;

#[test]
fn bit_buffer_push_bits_into_reserved_octets(rt: HostRuntime) -> Result<(), Fail> {
    let mut buffer = BitBuffer::new(rt.alloc());
    let Ok(()) = buffer.reserve_bytes(8) else {
        return met_before(&rt, "BitBuffer::push_bits into reserved octets");
    };
    for octet in 0..8u64 {
        // The proof alone needs this test, that the length stays small.
        if buffer.len() < 64 {
            // There is room, so nothing is allocated.
            buffer.push_bits(u128::from(octet), 8)?;
        }
    }
    let wanted = [0, 1, 2, 3, 4, 5, 6, 7];
    assert!(rt; buffer.as_bytes() == wanted.as_slice());
    Ok(())
}

//! Octet streams.

use crate::failure::settle;
use octet_streams::{StreamError, read_to_end};
use std::test::Fail;

/// Five thousand octets: more than one read returns.
const OCTETS: [u8; 5000] = [0x5A; 5000];

#[test]
fn read_to_end_of_5000_octets(rt: HostRuntime) -> Result<(), Fail> {
    let mut input = OCTETS.as_slice();
    let (is_done, is_right) = match read_to_end(rt.alloc(), &mut input) {
        Ok(text) => (true, text.as_slice() == OCTETS.as_slice()),
        Err(error) => (false, error == StreamError::Memory),
    };
    settle(&rt, "read_to_end of 5,000 octets", is_done, is_right)
}

//! The examples of `asn1_x690_elements`.

use asn1_x690_elements::decode_elements;
use std::test::Fail;

/// The example of `decode_elements`.
#[test]
fn decode_elements_example(rt: HostRuntime) -> Result<(), Fail> {
    let message = [0x30, 3, 2, 1, 30];
    let count = decode_elements(&message, 10, &mut [])?;
    assert!(rt; count == 2);
    Ok(())
}

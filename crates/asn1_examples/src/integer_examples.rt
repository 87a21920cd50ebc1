//! The examples of `asn1_integer`.

use asn1_integer::IntegerType;
use std::test::Fail;

/// The example of `IntegerType::try_from_signed_bytes`.
#[test]
fn integer_type_try_from_signed_bytes_example(rt: HostRuntime) -> Result<(), Fail> {
    let port = u16::try_from_signed_bytes(rt.alloc(), &[0, 0xFF, 0xFF])?;
    assert!(rt; port == u16::MAX);
    assert!(rt; u8::try_from_signed_bytes(rt.alloc(), &[0xFF]).is_err());
    Ok(())
}

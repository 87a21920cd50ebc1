//! The examples of `asn1_number`.

use asn1_number::{ConstrainedInteger, Integer};
use std::test::Fail;

/// The example of `ConstrainedInteger`.
#[test]
fn constrained_integer_example(rt: HostRuntime) -> Result<(), Fail> {
    let month = ConstrainedInteger::<1, 12>::try_from(9)?;
    assert!(rt; month.to_i64() == Some(9));
    assert!(rt; ConstrainedInteger::<1, 12>::try_from(13).is_err());
    Ok(())
}

/// The example of `asn1_number`.
#[test]
fn asn1_number_example(rt: HostRuntime) -> Result<(), Fail> {
    let number = Integer::from_signed_octets(rt.alloc(), &[0xFF, 0x7F])?;
    assert!(rt; number.to_i64() == Some(-129));
    assert!(rt; Integer::from(128u8).signed_octets().as_ref() == [0, 128].as_slice());
    Ok(())
}

/// The example of `Integer::checked_add`.
#[test]
fn integer_checked_add_example(rt: HostRuntime) -> Result<(), Fail> {
    let sum = Integer::from(i64::MAX).checked_add(&Integer::one());
    assert!(rt; sum == Some(Integer::from(1i128 << 63)));
    Ok(())
}

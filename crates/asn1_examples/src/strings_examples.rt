//! The examples of `asn1_strings`.

use asn1_strings::{
    FixedOctetString, Ia5String, NumericString, OctetString, StaticPermittedAlphabet,
};
use std::test::Fail;

/// The example of `FixedOctetString::try_from_slice`.
#[test]
fn fixed_octet_string_try_from_slice_example(rt: HostRuntime) -> Result<(), Fail> {
    let key = FixedOctetString::<2>::try_from_slice(&[7, 8]);
    assert!(rt; key.is_some_and(|it| it.into_array() == [7, 8]));
    assert!(rt; FixedOctetString::<2>::try_from_slice(&[7]).is_none());
    Ok(())
}

/// The example of `asn1_strings`.
#[test]
fn asn1_strings_example(rt: HostRuntime) -> Result<(), Fail> {
    let name = Ia5String::try_from_slice(rt.alloc(), b"value")?;
    assert!(rt; name.len() == 5);
    assert!(rt; NumericString::try_from_slice(rt.alloc(), b"value").is_err());
    Ok(())
}

/// The example of `OctetString::from_slice`.
#[test]
fn octet_string_from_slice_example(rt: HostRuntime) -> Result<(), Fail> {
    let string = OctetString::from_slice(rt.alloc(), &[1, 2, 3])?;
    assert!(rt; string.as_ref() == [1, 2, 3].as_slice());
    Ok(())
}

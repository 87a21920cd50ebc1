//! The examples of `asn1_alphabets`.

use asn1_strings::{CharacterAlphabet, NumericString};
use std::test::Fail;

/// The example of `asn1_alphabets`.
#[test]
fn asn1_alphabets_example(rt: HostRuntime) -> Result<(), Fail> {
    let digits = CharacterAlphabet::new::<NumericString>(Some(&[0x31, 0x32, 0x33]), false);
    assert!(rt; digits.width() == 2);
    assert!(rt; digits.encode(0x33) == Ok(2));
    assert!(rt; digits.encode(0x34).is_err());
    Ok(())
}

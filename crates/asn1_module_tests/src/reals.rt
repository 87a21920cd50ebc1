use asn1_reals::{Real, append_binary, append_decimal, append_float, real_of, special_of};
use std::test::Fail;

/// The octets are those of Erlang's `asn1ct`, of `{mantissa, base 2, exponent}`.
#[test]
fn a_number_of_base_2_has_an_odd_mantissa(rt: HostRuntime) -> Result<(), Fail> {
    for (is_negative, mantissa, exponent, wanted) in [
        (false, 1, 100000, [0x82u8, 0x01, 0x86, 0xA0, 1].as_slice()),
        (true, 3, -32769, [0xC2, 0xFF, 0x7F, 0xFF, 3].as_slice()),
        (false, 3, 32767, [0x81, 0x7F, 0xFF, 3].as_slice()),
        (false, 1, -8388608, [0x82, 0x80, 0, 0, 1].as_slice()),
        (false, 12, 0, [0x80, 2, 3].as_slice()),
        (true, 0, 5, [].as_slice()),
    ] {
        let mut octets = Vec::new(rt.alloc());
        assert!(rt; append_binary(&mut octets, is_negative, mantissa, exponent)?);
        assert_eq!(rt; octets.as_slice(), wanted);
    }
    let mut octets = Vec::new(rt.alloc());
    assert!(rt; !append_binary(&mut octets, false, 2, 8388607)?);
    assert!(rt; octets.is_empty());
    Ok(())
}

/// X.690 11.3.1: by the definition of IEEE 754, with an odd mantissa.
#[test]
fn a_number_of_64_bits_has_an_odd_mantissa(rt: HostRuntime) -> Result<(), Fail> {
    for (number, wanted) in [
        (1.0f64, [0x80u8, 0, 1].as_slice()),
        (-1.5, [0xC0, 0xFF, 3].as_slice()),
        (0.0, [].as_slice()),
        (
            0.1,
            [0x80, 0xC9, 0x0C, 0xCC, 0xCC, 0xCC, 0xCC, 0xCC, 0xCD].as_slice(),
        ),
        (5e-324, [0x81, 0xFB, 0xCE, 1].as_slice()),
        (
            1e300,
            [0x81, 0x03, 0xB2, 0x05, 0xF9, 0x0F, 0x22, 0x00, 0x1D, 0x67].as_slice(),
        ),
    ] {
        let mut octets = Vec::new(rt.alloc());
        append_float(&mut octets, number)?;
        assert_eq!(rt; octets.as_slice(), wanted);
        assert!(rt; real_of(wanted) == Some(Real::Binary(number)));
    }
    Ok(())
}

/// X.690 11.3.2: neither zeros at the end nor a sign before an exponent, but for `+0`. X.690 8.5.2, 8.5.9:
/// zero has no octets, and minus zero has one.
#[test]
fn a_decimal_number_has_digits_and_an_exponent(rt: HostRuntime) -> Result<(), Fail> {
    for (text, wanted) in [
        ("25e-3", "\u{3}25.E-3"),
        ("-0.0025", "\u{3}-25.E-4"),
        ("100", "\u{3}1.E2"),
        ("1E+5", "\u{3}1.E5"),
        ("0.0", ""),
        ("-0.0", "\u{43}"),
        ("-0e5", "\u{43}"),
        ("12.50", "\u{3}125.E-1"),
        ("7", "\u{3}7.E+0"),
    ] {
        let mut octets = Vec::new(rt.alloc());
        assert!(rt; append_decimal(&mut octets, rt.alloc(), text)?);
        assert_eq!(rt; octets.as_slice(), wanted.as_bytes());
    }
    Ok(())
}

/// X.690 8.5.9, by the names of X.697.
#[test]
fn a_special_value_has_one_octet(rt: HostRuntime) {
    for (name, octet) in [("INF", 0x40), ("-INF", 0x41), ("NaN", 0x42), ("-0", 0x43)] {
        assert!(rt; special_of(name) == Some(octet));
        assert!(rt; real_of(&[octet]) == Some(Real::Named(name)));
    }
    assert!(rt; special_of("inf").is_none());
}

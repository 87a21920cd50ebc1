//! Whole numbers.

use crate::failure::{met, met_before, settle};
use asn1_values::{ConstrainedInteger, Integer, IntegerError, IntegerType};
use std::test::Fail;

/// The shortest octets of 2 to the power of 199: 24 zero octets after 80, and a zero octet for the
/// sign.
const POWER: [u8; 26] = [
    0x00, 0x80, 0, 0, 0, 0, 0, 0, 0, 0, 0, 0, 0, 0, 0, 0, 0, 0, 0, 0, 0, 0, 0, 0, 0, 0,
];

/// Returns whether the number is 2 to the power of 199.
fn is_power(number: &Integer) -> bool {
    number.signed_octets().as_ref() == POWER.as_slice()
}

/// The shortest octets of 2 to the power of 128, less 1.
const LARGEST: [u8; 17] = [
    0x00, 0xFF, 0xFF, 0xFF, 0xFF, 0xFF, 0xFF, 0xFF, 0xFF, 0xFF, 0xFF, 0xFF, 0xFF, 0xFF, 0xFF, 0xFF,
    0xFF,
];

/// Returns whether the number is 2 to the power of 128, less 1.
fn is_largest(number: &Integer) -> bool {
    number.signed_octets().as_ref() == LARGEST.as_slice()
}

/// Checks that a call returned 2 to the power of 199, or was out of memory.
fn gives_power(
    rt: &HostRuntime,
    call: &str,
    answer: Result<Integer, IntegerError>,
) -> Result<(), Fail> {
    match answer {
        Ok(number) if is_power(&number) => Ok(()),
        Err(IntegerError::Memory) => met(rt, call),
        _ => Err("another answer".into()),
    }
}

#[test]
fn integer_from_signed_octets(rt: HostRuntime) -> Result<(), Fail> {
    let read = Integer::from_signed_octets(rt.alloc(), &POWER);
    gives_power(&rt, "Integer::from_signed_octets", read)
}

#[test]
fn integer_from_unsigned_octets(rt: HostRuntime) -> Result<(), Fail> {
    let read = Integer::from_unsigned_octets(rt.alloc(), &POWER[1..]);
    gives_power(&rt, "Integer::from_unsigned_octets", read)
}

#[test]
fn integer_try_from_bytes(rt: HostRuntime) -> Result<(), Fail> {
    let read = <Integer as IntegerType>::try_from_bytes(rt.alloc(), &POWER);
    gives_power(&rt, "Integer::try_from_bytes", read)
}

#[test]
fn integer_try_from_signed_bytes(rt: HostRuntime) -> Result<(), Fail> {
    let read = <Integer as IntegerType>::try_from_signed_bytes(rt.alloc(), &POWER);
    gives_power(&rt, "Integer::try_from_signed_bytes", read)
}

#[test]
fn integer_try_from_unsigned_bytes(rt: HostRuntime) -> Result<(), Fail> {
    let read = <Integer as IntegerType>::try_from_unsigned_bytes(rt.alloc(), &POWER[1..]);
    gives_power(&rt, "Integer::try_from_unsigned_bytes", read)
}

#[test]
fn integer_from_u128(rt: HostRuntime) -> Result<(), Fail> {
    // Seventeen octets, the first of them 0.
    let (is_done, is_right) = match Integer::from_u128(rt.alloc(), u128::MAX) {
        Ok(number) => (true, is_largest(&number)),
        Err(_) => (false, true),
    };
    settle(&rt, "Integer::from_u128", is_done, is_right)
}

#[test]
fn native_to_integer(rt: HostRuntime) -> Result<(), Fail> {
    let (is_done, is_right) = match u128::MAX.to_integer(rt.alloc()) {
        Ok(number) => (true, is_largest(&number)),
        Err(_) => (false, true),
    };
    settle(&rt, "u128::to_integer", is_done, is_right)
}

#[test]
fn integer_clone(rt: HostRuntime) -> Result<(), Fail> {
    let Ok(number) = Integer::from_signed_octets(rt.alloc(), &POWER) else {
        return met_before(&rt, "Integer::clone");
    };
    let (is_done, is_right) = match number.clone() {
        Ok(copy) => (true, is_power(&copy)),
        Err(_) => (false, true),
    };
    settle(
        &rt,
        "Integer::clone",
        is_done,
        is_right && is_power(&number),
    )
}

#[test]
fn refused_conversion_clone(rt: HostRuntime) -> Result<(), Fail> {
    let Ok(number) = Integer::from_signed_octets(rt.alloc(), &POWER) else {
        return met_before(&rt, "TryFromIntegerError::clone");
    };
    // The conversion returns the number, and allocates nothing.
    let Err(refused) = i64::try_from(number) else {
        return Err("too large".into());
    };
    let (is_done, is_right) = match refused.clone() {
        Ok(copy) => (true, is_power(&copy.into_original())),
        Err(_) => (false, true),
    };
    let is_right = is_right && is_power(&refused.into_original());
    settle(&rt, "TryFromIntegerError::clone", is_done, is_right)
}

#[test]
fn a_short_number_in_many_octets_asks_for_nothing(rt: HostRuntime) -> Result<(), Fail> {
    let minus_one = Integer::from_signed_octets(rt.alloc(), &[0xFF; 40])?;
    assert!(rt; minus_one.to_i128() == Some(-1));
    Ok(())
}

#[test]
fn a_short_number_is_cloned_without_memory(rt: HostRuntime) -> Result<(), Fail> {
    let is_made = match Integer::from_u128(rt.alloc(), 5) {
        Ok(number) => number.to_i128() == Some(5),
        Err(_) => false,
    };
    let is_cloned = matches!(Integer::from(5).clone(), Ok(copy) if copy.to_i128() == Some(5));
    assert!(rt; is_made && is_cloned);
    Ok(())
}

#[test]
fn a_constrained_number_is_cloned_without_memory(rt: HostRuntime) -> Result<(), Fail> {
    let Ok(within) = ConstrainedInteger::<-8, 360>::try_from(360i64) else {
        return Err("within".into());
    };
    let is_cloned = matches!(within.clone(), Ok(copy) if copy.to_i128() == Some(360));
    assert!(rt; is_cloned);
    Ok(())
}

#[test]
fn a_native_number_asks_for_nothing(rt: HostRuntime) -> Result<(), Fail> {
    assert!(rt; i8::try_from_signed_bytes(rt.alloc(), &[0xFB]) == Ok(-5));
    Ok(())
}

#[test]
fn wrong_octets_keep_their_names(rt: HostRuntime) -> Result<(), Fail> {
    let refused = i8::try_from_signed_bytes(rt.alloc(), &[0x00, 0x05]).err();
    assert!(rt;
        refused
            == Some(IntegerError::Overflow {
                max_integer_bits: 8
            })
    );
    let refused = Integer::from_signed_octets(rt.alloc(), &[]).err();
    assert!(rt; refused == Some(IntegerError::UnexpectedEmptyInput));
    Ok(())
}

#[test]
fn long_numbers_are_compared_and_spelled_without_memory(rt: HostRuntime) -> Result<(), Fail> {
    let Ok(number) = Integer::from_signed_octets(rt.alloc(), &POWER) else {
        return met_before(&rt, "comparisons of long numbers");
    };
    let is_compared = number > Integer::from(5) && number == number;
    let is_past = number.signed_len() == 26 && number.checked_add(&Integer::from(1)).is_none();
    assert!(rt; is_compared && is_past);
    Ok(())
}

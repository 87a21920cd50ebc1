//! Native numbers made of whole ones, if they hold them.
ghost use Rattle.std.specs.Prelude.{◌≡◌, pos, Some, Ok, Err, codes, IfOk, OnErr, MatchOption};
ghost use Rattle.asn1_number.specs.Conversions.{Converts};
ghost use Rattle.asn1_number.specs.Readings.{FitsI128};
ghost use Rattle.asn1_number.specs.Readings.{kind_u8, kind_u16, kind_u32, kind_u64};
ghost use Rattle.asn1_number.specs.Readings.{kind_i8, kind_i16, kind_i32, kind_i64};
ghost use Rattle.asn1_number.specs.Readings.{kind_u128, kind_i128, kind_usize, kind_isize};

use crate::integer::Integer;
use std::alloc::AllocError;
use std::error::Error;
use std::fmt;
use std::marker::Model;

/// A number that the requested type does not hold. It is seen as that number.
#[derive(Debug, Drop, PartialEq, Eq)]
pub struct TryFromIntegerError {
    original: Integer,
}

impl Model for TryFromIntegerError {
    ghost use Rattle.std.specs.Prelude.{ℤ};

    ghost Value = { ℤ };

    ghost view = { λ e. e.original };

    ghost inverse = { λ n. record { original = n } };
}

impl TryFromIntegerError {
    pub(crate) fn new(original: Integer) -> TryFromIntegerError
        ensures { result ≡ original }
    {
        TryFromIntegerError { original }
    }

    /// Borrows the number that the type does not hold.
    pub fn original(&self) -> &Integer
        ensures { result.now ≡ self.now }
    {
        &self.original
    }

    /// Returns the number that the type does not hold.
    pub fn into_original(self) -> Integer
        ensures { result ≡ self }
    {
        let TryFromIntegerError { original } = self;
        original
    }

    /// Copies the error.
    ///
    /// # Errors
    ///
    /// Returns `AllocError` if out of memory, which only a number outside `i128` needs.
    pub fn clone(&self) -> Result<TryFromIntegerError, AllocError>
        ensures value { IfOk result (λ e. e ≡ self.now) }
        ensures memory { OnErr result (¬ (FitsI128 self.now)) }
    {
        let original = self.original.clone()?;
        Ok(TryFromIntegerError { original })
    }
}

impl fmt::Display for TryFromIntegerError {
    ghost output = { λ _.
        Some (codes "out of range conversion regarding integer conversion attempted") };

    fn fmt<W: fmt::Write>(&self, f: &mut fmt::Formatter<W>) -> fmt::Result {
        write!(
            f,
            "out of range conversion regarding integer conversion attempted"
        )
    }
}

impl Error for TryFromIntegerError {}

/// Returns the value if the type holds the number, otherwise the number itself.
#[inline(always)]
fn kept_or_back<T: Copy>(value: Option<T>, number: Integer) -> Result<T, TryFromIntegerError>
    ensures { MatchOption value (result ≡ Err number) (λ x. result ≡ Ok x) }
{
    match value {
        Some(value) => Ok(value),
        None => Err(TryFromIntegerError::new(number)),
    }
}

impl TryFrom<Integer> for u8 {
    type Error = TryFromIntegerError;

    ghost try_from_gives = { λ n r. Converts kind_u8 (λ x. pos x) n r };

    /// Returns the number as `u8`.
    ///
    /// # Errors
    ///
    /// Returns `TryFromIntegerError` with the number if `u8` does not hold it.
    fn try_from(number: Integer) -> Result<u8, TryFromIntegerError> {
        kept_or_back(number.to_i128().and_then(|n| u8::try_from(n).ok()), number)
    }
}

impl TryFrom<Integer> for i8 {
    type Error = TryFromIntegerError;

    ghost try_from_gives = { λ n r. Converts kind_i8 (λ x. x) n r };

    /// Returns the number as `i8`.
    ///
    /// # Errors
    ///
    /// Returns `TryFromIntegerError` with the number if `i8` does not hold it.
    fn try_from(number: Integer) -> Result<i8, TryFromIntegerError> {
        kept_or_back(number.to_i128().and_then(|n| i8::try_from(n).ok()), number)
    }
}

impl TryFrom<Integer> for u16 {
    type Error = TryFromIntegerError;

    ghost try_from_gives = { λ n r. Converts kind_u16 (λ x. pos x) n r };

    /// Returns the number as `u16`.
    ///
    /// # Errors
    ///
    /// Returns `TryFromIntegerError` with the number if `u16` does not hold it.
    fn try_from(number: Integer) -> Result<u16, TryFromIntegerError> {
        kept_or_back(number.to_i128().and_then(|n| u16::try_from(n).ok()), number)
    }
}

impl TryFrom<Integer> for i16 {
    type Error = TryFromIntegerError;

    ghost try_from_gives = { λ n r. Converts kind_i16 (λ x. x) n r };

    /// Returns the number as `i16`.
    ///
    /// # Errors
    ///
    /// Returns `TryFromIntegerError` with the number if `i16` does not hold it.
    fn try_from(number: Integer) -> Result<i16, TryFromIntegerError> {
        kept_or_back(number.to_i128().and_then(|n| i16::try_from(n).ok()), number)
    }
}

impl TryFrom<Integer> for u32 {
    type Error = TryFromIntegerError;

    ghost try_from_gives = { λ n r. Converts kind_u32 (λ x. pos x) n r };

    /// Returns the number as `u32`.
    ///
    /// # Errors
    ///
    /// Returns `TryFromIntegerError` with the number if `u32` does not hold it.
    fn try_from(number: Integer) -> Result<u32, TryFromIntegerError> {
        kept_or_back(number.to_i128().and_then(|n| u32::try_from(n).ok()), number)
    }
}

impl TryFrom<Integer> for i32 {
    type Error = TryFromIntegerError;

    ghost try_from_gives = { λ n r. Converts kind_i32 (λ x. x) n r };

    /// Returns the number as `i32`.
    ///
    /// # Errors
    ///
    /// Returns `TryFromIntegerError` with the number if `i32` does not hold it.
    fn try_from(number: Integer) -> Result<i32, TryFromIntegerError> {
        kept_or_back(number.to_i128().and_then(|n| i32::try_from(n).ok()), number)
    }
}

impl TryFrom<Integer> for u64 {
    type Error = TryFromIntegerError;

    ghost try_from_gives = { λ n r. Converts kind_u64 (λ x. pos x) n r };

    /// Returns the number as `u64`.
    ///
    /// # Errors
    ///
    /// Returns `TryFromIntegerError` with the number if `u64` does not hold it.
    fn try_from(number: Integer) -> Result<u64, TryFromIntegerError> {
        kept_or_back(number.to_i128().and_then(|n| u64::try_from(n).ok()), number)
    }
}

impl TryFrom<Integer> for i64 {
    type Error = TryFromIntegerError;

    ghost try_from_gives = { λ n r. Converts kind_i64 (λ x. x) n r };

    /// Returns the number as `i64`.
    ///
    /// # Errors
    ///
    /// Returns `TryFromIntegerError` with the number if `i64` does not hold it.
    fn try_from(number: Integer) -> Result<i64, TryFromIntegerError> {
        kept_or_back(number.to_i128().and_then(|n| i64::try_from(n).ok()), number)
    }
}

impl TryFrom<Integer> for u128 {
    type Error = TryFromIntegerError;

    ghost try_from_gives = { λ n r. Converts kind_u128 (λ x. pos x) n r };

    /// Returns the number as `u128`.
    ///
    /// # Errors
    ///
    /// Returns `TryFromIntegerError` with the number if `u128` does not hold it.
    fn try_from(number: Integer) -> Result<u128, TryFromIntegerError> {
        kept_or_back(number.to_u128(), number)
    }
}

impl TryFrom<Integer> for i128 {
    type Error = TryFromIntegerError;

    ghost try_from_gives = { λ n r. Converts kind_i128 (λ x. x) n r };

    /// Returns the number as `i128`.
    ///
    /// # Errors
    ///
    /// Returns `TryFromIntegerError` with the number if `i128` does not hold it.
    fn try_from(number: Integer) -> Result<i128, TryFromIntegerError> {
        kept_or_back(number.to_i128(), number)
    }
}

impl TryFrom<Integer> for usize {
    type Error = TryFromIntegerError;

    ghost try_from_gives = { λ n r. Converts kind_usize (λ x. pos x) n r };

    /// Returns the number as `usize`.
    ///
    /// # Errors
    ///
    /// Returns `TryFromIntegerError` with the number if `usize` does not hold it.
    fn try_from(number: Integer) -> Result<usize, TryFromIntegerError> {
        kept_or_back(
            number.to_i128().and_then(|n| usize::try_from(n).ok()),
            number,
        )
    }
}

impl TryFrom<Integer> for isize {
    type Error = TryFromIntegerError;

    ghost try_from_gives = { λ n r. Converts kind_isize (λ x. x) n r };

    /// Returns the number as `isize`.
    ///
    /// # Errors
    ///
    /// Returns `TryFromIntegerError` with the number if `isize` does not hold it.
    fn try_from(number: Integer) -> Result<isize, TryFromIntegerError> {
        kept_or_back(
            number.to_i128().and_then(|n| isize::try_from(n).ok()),
            number,
        )
    }
}

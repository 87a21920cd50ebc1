//! Whole numbers within bounds that a type names.
ghost use Rattle.std.specs.Prelude.{◌≡◌, IfOk, IsOk};
ghost use Rattle.asn1_number.specs.Readings.{FitsI128};

use crate::integer::Integer;
use crate::try_from_integer::TryFromIntegerError;
use std::alloc::AllocError;
use std::ops::Deref;

/// A whole number from `START` to `END`, both included.
///
/// # Examples
///
/// ```
/// use asn1_number::ConstrainedInteger;
///
/// let month = ConstrainedInteger::<1, 12>::try_from(9)?;
/// assert!(rt; month.to_i64() == Some(9));
/// assert!(rt; ConstrainedInteger::<1, 12>::try_from(13).is_err());
/// ```
#[derive(Debug, Drop, PartialEq, Eq, PartialOrd, Ord, Hash)]
pub struct ConstrainedInteger<const START: i64, const END: i64> {
    kept: KeptInline,
}

/// A number within `i128`, which takes no memory.
#[derive(Debug, Drop, PartialEq, Eq, PartialOrd, Ord, Hash)]
struct KeptInline {
    number: Integer,
    ghost inline: { FitsI128 number },
}

impl KeptInline {
    fn of(number: i128) -> KeptInline
        ensures { result.number ≡ number }
    {
        KeptInline {
            number: Integer::inline(number),
        }
    }

    fn clone(&self) -> KeptInline
        ensures { result.number ≡ self.now.number }
    {
        match self.number.to_i128() {
            Some(number) => KeptInline::of(number),
            None => unreachable!(),
        }
    }

    fn into_number(self) -> Integer
        ensures { result ≡ self.number }
    {
        self.number
    }
}

impl<const START: i64, const END: i64> ConstrainedInteger<START, END> {
    ghost use Rattle.asn1_number.specs.Constrained.{constrained_number};

    /// Copies the number.
    ///
    /// # Errors
    ///
    /// Never returns an error: it allocates nothing.
    pub fn clone(&self) -> Result<ConstrainedInteger<START, END>, AllocError>
        ensures value { IfOk result (λ c. constrained_number c ≡ constrained_number self.now) }
        ensures free { IsOk result }
    {
        let kept = self.kept.clone();
        Ok(ConstrainedInteger { kept })
    }

    /// Returns the number, which lies from `START` to `END`.
    pub fn into_inner(self) -> Integer
        ensures { result ≡ constrained_number self.entry }
    {
        let ConstrainedInteger { kept } = self;
        kept.into_number()
    }
}

impl<const START: i64, const END: i64> Deref for ConstrainedInteger<START, END> {
    type Target = Integer;

    ghost use Rattle.std.specs.Prelude.{◌≡◌};
    ghost use Rattle.asn1_number.specs.Constrained.{constrained_number};

    ghost deref_gives = { λ c n. n ≡ constrained_number c };

    fn deref(&self) -> &Integer {
        &self.kept.number
    }
}

impl<const START: i64, const END: i64> TryFrom<i128> for ConstrainedInteger<START, END> {
    type Error = TryFromIntegerError;

    ghost use Rattle.asn1_number.specs.Constrained.{AcceptsFrom};

    ghost try_from_gives = { λ n r. AcceptsFrom START END n r };

    /// Returns the number if it lies from `START` to `END`.
    ///
    /// # Errors
    ///
    /// Returns `TryFromIntegerError` with the number if it lies below `START` or above `END`.
    fn try_from(number: i128) -> Result<ConstrainedInteger<START, END>, TryFromIntegerError> {
        if i128::from(START) <= number && number <= i128::from(END) {
            Ok(ConstrainedInteger {
                kept: KeptInline::of(number),
            })
        } else {
            Err(TryFromIntegerError::new(Integer::from(number)))
        }
    }
}

impl<const START: i64, const END: i64> TryFrom<i64> for ConstrainedInteger<START, END> {
    type Error = TryFromIntegerError;

    ghost use Rattle.asn1_number.specs.Constrained.{AcceptsFrom};

    ghost try_from_gives = { λ n r. AcceptsFrom START END n r };

    /// Returns the number if it lies from `START` to `END`.
    ///
    /// # Errors
    ///
    /// Returns `TryFromIntegerError` with the number if it lies below `START` or above `END`.
    fn try_from(number: i64) -> Result<ConstrainedInteger<START, END>, TryFromIntegerError> {
        ConstrainedInteger::try_from(i128::from(number))
    }
}

impl<const START: i64, const END: i64> TryFrom<i32> for ConstrainedInteger<START, END> {
    type Error = TryFromIntegerError;

    ghost use Rattle.asn1_number.specs.Constrained.{AcceptsFrom};

    ghost try_from_gives = { λ n r. AcceptsFrom START END n r };

    /// Returns the number if it lies from `START` to `END`.
    ///
    /// # Errors
    ///
    /// Returns `TryFromIntegerError` with the number if it lies below `START` or above `END`.
    fn try_from(number: i32) -> Result<ConstrainedInteger<START, END>, TryFromIntegerError> {
        ConstrainedInteger::try_from(i128::from(number))
    }
}

impl<const START: i64, const END: i64> TryFrom<isize> for ConstrainedInteger<START, END> {
    type Error = TryFromIntegerError;

    ghost use Rattle.asn1_number.specs.Constrained.{AcceptsFrom};

    ghost try_from_gives = { λ n r. AcceptsFrom START END n r };

    /// Returns the number if it lies from `START` to `END`.
    ///
    /// # Errors
    ///
    /// Returns `TryFromIntegerError` with the number if it lies below `START` or above `END`.
    fn try_from(number: isize) -> Result<ConstrainedInteger<START, END>, TryFromIntegerError> {
        ConstrainedInteger::try_from(number as i128)
    }
}

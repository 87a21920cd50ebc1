//! Errors of reading octets as an integer.
use std::alloc::AllocError;
use thiserror::Error;

/// Why octets were not read as an integer. Both numbers are the width of the requested type in
/// bits.
#[derive(Clone, Copy, Debug, Drop, Error, PartialEq, Eq, PartialOrd, Ord, Hash)]
pub enum IntegerError {
    /// There are no octets; X.690 8.3.1 requires at least one.
    #[error("empty input")]
    UnexpectedEmptyInput,
    /// There are more octets than fit the type. An unsigned type that reads two's complement allows
    /// one leading zero octet more.
    #[error("more than {max_integer_bits} bits")]
    Overflow { max_integer_bits: u32 },
    /// The value is negative, and the type has no sign; or the octets were read as unsigned, and
    /// their value exceeds the largest number of the signed type.
    #[error("no value of {bits} bits")]
    TypeConversionFailed { bits: u32 },
    /// Out of memory for a number outside `i128`.
    #[error("out of memory")]
    Memory,
}

impl From<AllocError> for IntegerError {
    ghost use Rattle.std.specs.Prelude.{◌≡◌};
    ghost use Rattle.asn1_number.specs.declared.error.IntegerError.TheVariants.{Memory};

    ghost from_gives = { λ _ e. e ≡ Memory };

    fn from(_error: AllocError) -> IntegerError {
        IntegerError::Memory
    }
}

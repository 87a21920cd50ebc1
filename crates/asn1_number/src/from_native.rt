//! Whole numbers made of native ones. Only a number beyond `i128::MAX` allocates.
ghost use Rattle.std.specs.Prelude.{◌≡◌, ◌≤◌, ◌^◌, pos, IfOk, OnErr};

use crate::integer::Integer;
use std::alloc::{AllocError, Global};

impl Integer {
    /// Returns the number as an `Integer`.
    ///
    /// # Errors
    ///
    /// Returns `AllocError` if out of memory, never for a number up to `i128::MAX`.
    pub fn from_u128(alloc: Global, number: u128) -> Result<Integer, AllocError>
        ensures value { IfOk result (λ n. n ≡ pos number) }
        ensures memory { OnErr result (2 ^ 127 ≤ number) }
    {
        if let Ok(inline) = i128::try_from(number) {
            return Ok(Integer::inline(inline));
        }
        let Ok(integer) = Integer::from_unsigned_octets(alloc, &number.to_be_bytes()) else {
            return Err(AllocError);
        };
        Ok(integer)
    }
}

impl From<i128> for Integer {
    ghost from_gives = { λ n number. number ≡ n };

    // Inlined, so that the caller stores the number directly, and copies no result.
    #[inline(always)]
    fn from(n: i128) -> Integer {
        Integer::inline(n)
    }
}

impl From<u8> for Integer {
    ghost from_gives = { λ n number. number ≡ pos n };

    fn from(n: u8) -> Integer {
        Integer::from(i128::from(n))
    }
}

impl From<i8> for Integer {
    ghost from_gives = { λ n number. number ≡ n };

    fn from(n: i8) -> Integer {
        Integer::from(i128::from(n))
    }
}

impl From<u16> for Integer {
    ghost from_gives = { λ n number. number ≡ pos n };

    fn from(n: u16) -> Integer {
        Integer::from(i128::from(n))
    }
}

impl From<i16> for Integer {
    ghost from_gives = { λ n number. number ≡ n };

    fn from(n: i16) -> Integer {
        Integer::from(i128::from(n))
    }
}

impl From<u32> for Integer {
    ghost from_gives = { λ n number. number ≡ pos n };

    fn from(n: u32) -> Integer {
        Integer::from(i128::from(n))
    }
}

impl From<i32> for Integer {
    ghost from_gives = { λ n number. number ≡ n };

    fn from(n: i32) -> Integer {
        Integer::from(i128::from(n))
    }
}

impl From<u64> for Integer {
    ghost from_gives = { λ n number. number ≡ pos n };

    fn from(n: u64) -> Integer {
        Integer::from(i128::from(n))
    }
}

impl From<i64> for Integer {
    ghost from_gives = { λ n number. number ≡ n };

    fn from(n: i64) -> Integer {
        Integer::from_i64_inline(n)
    }
}

impl From<usize> for Integer {
    ghost from_gives = { λ n number. number ≡ pos n };

    fn from(n: usize) -> Integer {
        Integer::from(n as i128)
    }
}

impl From<isize> for Integer {
    ghost from_gives = { λ n number. number ≡ n };

    fn from(n: isize) -> Integer {
        Integer::from(n as i128)
    }
}

//! Sums, differences and products of whole numbers.
ghost use Rattle.std.specs.Prelude.{◌↔◌, pos, ◌+ℤ◌, ◌-ℤ◌, ◌*ℤ◌, ◌<ℤ◌, IsTrue};
ghost use Rattle.asn1_number.specs.Sums.{IsNumberOfTwo};

use crate::integer::Integer;

impl Integer {
    /// Returns whether the number is below 0.
    pub fn is_negative(&self) -> bool
        ensures { IsTrue result ↔ (self.now <ℤ pos 0) }
    {
        match self.to_i128() {
            Some(number) => number < 0,
            None => *self < Integer::zero(),
        }
    }

    /// Returns the sum if it and both numbers lie within `i128`, otherwise `None`.
    ///
    /// # Examples
    ///
    /// ```
    /// use asn1_number::Integer;
    ///
    /// let sum = Integer::from(i64::MAX).checked_add(&Integer::one());
    /// assert!(rt; sum == Some(Integer::from(1i128 << 63)));
    /// ```
    pub fn checked_add(&self, other: &Integer) -> Option<Integer>
        ensures { IsNumberOfTwo self.now other.now (self.now +ℤ other.now) result }
    {
        let sum = self.to_i128()?.checked_add(other.to_i128()?)?;
        Some(Integer::from(sum))
    }

    /// Returns the difference if it and both numbers lie within `i128`, otherwise `None`.
    pub fn checked_sub(&self, other: &Integer) -> Option<Integer>
        ensures { IsNumberOfTwo self.now other.now (self.now -ℤ other.now) result }
    {
        let difference = self.to_i128()?.checked_sub(other.to_i128()?)?;
        Some(Integer::from(difference))
    }

    /// Returns the product if it and both numbers lie within `i128`, otherwise `None`.
    pub fn checked_mul(&self, other: &Integer) -> Option<Integer>
        ensures { IsNumberOfTwo self.now other.now (self.now *ℤ other.now) result }
    {
        let product = self.to_i128()?.checked_mul(other.to_i128()?)?;
        Some(Integer::from(product))
    }
}

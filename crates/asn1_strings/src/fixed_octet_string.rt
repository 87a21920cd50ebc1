//! Octet strings of one length.
ghost use Rattle.std.specs.Prelude.{◌≡◌, ◌≢◌, ◌↔◌, length, replicate, IsSome, IsErr, IfSome, IfOk, IfErr, MatchResult};
ghost use Rattle.std.specs.Borrow.{sem, Lends, Array, u8 as octet};

use crate::octet_string::OctetString;
use std::array::TryFromSliceError;
use std::convert::AsSlice;
use std::ops::{Deref, DerefMut};

/// An OCTET STRING of `N` octets (X.680 23), inline.
#[derive(Clone, Copy, Debug, PartialEq, Eq, PartialOrd, Ord, Hash)]
pub struct FixedOctetString<const N: usize> {
    /// The octets.
    pub octets: [u8; N],
}

impl<const N: usize> FixedOctetString<N> {
    /// Returns the string of these octets.
    pub fn new(octets: [u8; N]) -> FixedOctetString<N>
        ensures { result.octets ≡ octets.entry }
    {
        FixedOctetString { octets }
    }

    /// Returns the string of these octets, or `None` if there are not `N`.
    ///
    /// # Examples
    ///
    /// ```
    /// use asn1_strings::FixedOctetString;
    ///
    /// let key = FixedOctetString::<2>::try_from_slice(&[7, 8]);
    /// assert!(rt; key.is_some_and(|it| it.into_array() == [7, 8]));
    /// assert!(rt; FixedOctetString::<2>::try_from_slice(&[7]).is_none());
    /// ```
    pub fn try_from_slice(octets: &[u8]) -> Option<FixedOctetString<N>>
        ensures some { IsSome result ↔ (length octets.now ≡ N) }
        ensures value { IfSome result (λ s. s.octets ≡ octets.now) }
    {
        match <[u8; N]>::try_from(octets) {
            Ok(octets) => Some(FixedOctetString { octets }),
            Err(_) => None,
        }
    }

    /// Returns the string of these octets.
    ///
    /// # Errors
    ///
    /// Returns the vector if there are not `N` octets.
    pub fn try_from_vec(octets: Vec<u8>) -> Result<FixedOctetString<N>, Vec<u8>>
        ensures err { IsErr result ↔ (length octets.items ≢ N) }
        ensures value { IfOk result (λ s. s.octets ≡ octets.items) }
        ensures back { IfErr result (λ v. v.items ≡ octets.items) }
    {
        match FixedOctetString::try_from_slice(octets.as_slice()) {
            Some(fixed) => Ok(fixed),
            None => Err(octets),
        }
    }

    /// Returns the string of these octets, or `None` if there are not `N`.
    pub fn try_from_octet_string(octets: &OctetString) -> Option<FixedOctetString<N>>
        ensures some { IsSome result ↔ (length octets.now ≡ N) }
        ensures value { IfSome result (λ s. s.octets ≡ octets.now) }
    {
        FixedOctetString::try_from_slice(octets.as_ref())
    }

    /// Returns the array of the octets.
    pub fn into_array(self) -> [u8; N]
        ensures { result ≡ self.entry.octets }
    {
        let FixedOctetString { octets } = self;
        octets
    }
}

impl<const N: usize> TryFrom<&[u8]> for FixedOctetString<N> {
    type Error = TryFromSliceError;

    ghost try_from_gives = { λ octets r. MatchResult r
        (λ s. s.octets ≡ octets.now) (λ _. length octets.now ≢ N) };

    /// Returns the string of these octets.
    ///
    /// # Errors
    ///
    /// Returns `TryFromSliceError` if there are not `N` octets.
    fn try_from(octets: &[u8]) -> Result<FixedOctetString<N>, TryFromSliceError> {
        let octets = <[u8; N]>::try_from(octets)?;
        Ok(FixedOctetString { octets })
    }
}

impl<const N: usize> AsSlice<u8> for FixedOctetString<N> {
    ghost items = { λ s. s.octets };

    fn as_slice(&self) -> &[u8] {
        &self.octets
    }
}

impl<const N: usize> From<[u8; N]> for FixedOctetString<N> {
    ghost from_gives = { λ octets s. s.octets ≡ octets };

    fn from(octets: [u8; N]) -> FixedOctetString<N> {
        FixedOctetString { octets }
    }
}

impl<const N: usize> Default for FixedOctetString<N> {
    ghost is_default = { λ s. s.octets ≡ replicate N 0 };

    fn default() -> FixedOctetString<N> {
        FixedOctetString { octets: [0; N] }
    }
}

impl<const N: usize> Deref for FixedOctetString<N> {
    type Target = [u8; N];

    ghost deref_gives = { λ s octets. octets ≡ s.octets };

    /// Borrows the array of the octets.
    fn deref(&self) -> &[u8; N] {
        &self.octets
    }
}

impl<const N: usize> DerefMut for FixedOctetString<N> {
    ghost use Rattle.asn1_strings.specs.contracts.fixed_octet_string.FixedOctetString.{the_row};

    ghost deref_mut_gives = { λ s octets. octets ≡ s.octets };

    /// Borrows the array of the octets mutably: the string ends with what was last written there.
    fn deref_mut(&mut self) -> &mut [u8; N]
        ensures shows { result.now ≡ self.old.octets }
        ensures* writes_back { sem 𝓛 (Lends (the_row N.row) (Array octet N) self.entry result
            (λ w. record { octets = w })) }
    {
        &mut self.octets
    }
}

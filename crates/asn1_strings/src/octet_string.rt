//! Octet strings.
ghost use Rattle.std.specs.Prelude.{◌≡◌, ◌≢◌, ◌↔◌, ℕ, List, [], length, IsTrue, IsOkAnd, OnErr, IfOk, IfErr};

use bytes::Bytes;
use std::alloc::{AllocError, Global};
use std::convert::AsSlice;
use std::marker::Model;

/// An OCTET STRING (X.680 23): a list of octets, which its clones share.
#[derive(Debug, PartialEq, Eq, PartialOrd, Ord, Hash, Drop)]
pub struct OctetString {
    bytes: Bytes,
}

impl Model for OctetString {
    ghost Value = { List ℕ };

    ghost view = { λ s. s.bytes };

    ghost inverse = { λ octets. record { bytes = octets } };
}

impl OctetString {
    /// Returns a string of `'static` octets. It allocates nothing.
    pub fn from_static(octets: &'static [u8]) -> OctetString
        ensures { result ≡ octets.now }
    {
        OctetString {
            bytes: Bytes::from_static(octets),
        }
    }

    /// Copies the octets.
    ///
    /// # Errors
    ///
    /// Returns `AllocError` if out of memory. An empty slice never fails.
    ///
    /// # Examples
    ///
    /// ```
    /// use asn1_strings::OctetString;
    ///
    /// let string = OctetString::from_slice(rt.alloc(), &[1, 2, 3])?;
    /// assert!(rt; string.as_ref() == [1, 2, 3].as_slice());
    /// ```
    pub fn from_slice(alloc: Global, octets: &[u8]) -> Result<OctetString, AllocError>
        ensures octets { IfOk result (λ s. s ≡ octets.now) }
        ensures memory { OnErr result (octets.now ≢ []) }
    {
        if octets.is_empty() {
            return Ok(OctetString::default());
        }
        Ok(OctetString {
            bytes: Bytes::copy_from_slice(alloc, octets)?,
        })
    }

    /// Copies the array's octets.
    ///
    /// # Errors
    ///
    /// Returns `AllocError` if out of memory. An empty array never fails.
    pub fn from_array<const N: usize>(
        alloc: Global,
        octets: [u8; N],
    ) -> Result<OctetString, AllocError>
        ensures octets { IfOk result (λ s. s ≡ octets.entry) }
        ensures memory { OnErr result (N ≢ 0) }
    {
        OctetString::from_slice(alloc, &octets)
    }

    /// Returns the vector's octets as a string, without a copy.
    ///
    /// # Errors
    ///
    /// Returns the vector if out of memory for the reference count. An empty vector never fails.
    pub fn from_vec(octets: Vec<u8>) -> Result<OctetString, Vec<u8>>
        ensures octets { IfOk result (λ s. s ≡ octets.items) }
        ensures back { IfErr result (λ v. v.items ≡ octets.items) }
        ensures memory { OnErr result (octets.items ≢ []) }
    {
        match Bytes::from_vec(octets) {
            Ok(bytes) => Ok(OctetString { bytes }),
            Err(refused) => Err(refused.value),
        }
    }

    /// Returns the string of shared octets. It allocates nothing.
    pub fn from_bytes(bytes: Bytes) -> OctetString
        ensures { result ≡ bytes }
    {
        OctetString { bytes }
    }

    /// Shares the octets. It may allocate if there are any.
    ///
    /// # Errors
    ///
    /// Returns `AllocError` if out of memory. Empty `Bytes` never fail.
    pub fn from_bytes_ref(bytes: &Bytes) -> Result<OctetString, AllocError>
        ensures octets { IfOk result (λ s. s ≡ bytes.now) }
        ensures memory { OnErr result (bytes.now ≢ []) }
    {
        if bytes.is_empty() {
            return Ok(OctetString::default());
        }
        Ok(OctetString {
            bytes: bytes.clone()?,
        })
    }

    /// Returns the octets as `Bytes`, which they are already.
    ///
    /// # Errors
    ///
    /// Never returns an error.
    pub fn into_bytes(self, _alloc: Global) -> Result<Bytes, OctetString>
        ensures { IsOkAnd result (λ b. b ≡ self) }
    {
        Ok(self.bytes)
    }

    /// Shares the octets as `Bytes`. It may allocate if there are any.
    ///
    /// # Errors
    ///
    /// Returns `AllocError` if out of memory. An empty string never fails.
    pub fn to_bytes(&self, _alloc: Global) -> Result<Bytes, AllocError>
        ensures octets { IfOk result (λ b. b ≡ self.now) }
        ensures memory { OnErr result (self.now ≢ []) }
    {
        if self.bytes.is_empty() {
            return Ok(Bytes::new());
        }
        self.bytes.clone()
    }

    /// Borrows the octets.
    pub fn as_ref(&self) -> &[u8]
        ensures { result.now ≡ self.now }
    {
        self.bytes.as_slice()
    }

    /// Returns the number of octets.
    pub fn len(&self) -> usize
        ensures { result ≡ length self.now }
    {
        self.bytes.len()
    }

    /// Returns whether there are no octets.
    pub fn is_empty(&self) -> bool
        ensures { IsTrue result ↔ (self.now ≡ []) }
    {
        self.as_ref().is_empty()
    }

    /// Returns whether the octets are these.
    pub fn eq_bytes(&self, octets: &[u8]) -> bool
        ensures { IsTrue result ↔ (self.now ≡ octets.now) }
    {
        self.as_ref() == octets
    }

    /// Shares the octets. It may allocate if there are any.
    ///
    /// # Errors
    ///
    /// Returns `AllocError` if out of memory. An empty string never fails.
    pub fn clone(&self) -> Result<OctetString, AllocError>
        ensures octets { IfOk result (λ s. s ≡ self.now) }
        ensures memory { OnErr result (self.now ≢ []) }
    {
        OctetString::from_bytes_ref(&self.bytes)
    }
}

impl Default for OctetString {
    ghost is_default = { λ s. s ≡ [] };

    fn default() -> OctetString {
        OctetString {
            bytes: Bytes::new(),
        }
    }
}

impl AsSlice<u8> for OctetString {
    ghost items = { λ s. s };

    fn as_slice(&self) -> &[u8] {
        self.as_ref()
    }
}

//! Identifiers that own their arcs, or borrow them for good.

ghost use Rattle.std.specs.Prelude.{◌≡◌, ◌↔◌, ℕ, List, IsTrue, IfOk, IsOkUnless, Err, Some, MatchOption, nat_eq, refl};
ghost use Rattle.std.specs.Cmp.{partial_equiv_from_equiv, unsigned_Decides};
ghost use Rattle.std.specs.Cmp.Lexicographic.{pointwise, slice_cmp, nat_list_eq_equiv, nat_list_cmp_total, texts_po, texts_ties, pointwise_decides};
ghost use Rattle.std.specs.Cow.{cow_slice_items};
ghost use Rattle.std.specs.Hash as fed;
ghost use Rattle.std.specs.Hash.{same_Alike};
ghost use Rattle.std.specs.Ordering.{nat_cmp};
ghost use Rattle.asn1_oid.specs.Arcs.{IsValidArcs, dotted};
ghost use Rattle.asn1_oid.specs.Contents.{IsContents, FitU32};
ghost use Rattle.asn1_oid.specs.DottedText.{IsDottedText};
ghost use Rattle.asn1_oid.specs.Oid.{arcs_of};

use crate::contents::{ContentsError, OctetSource, arcs_in, examine};
use crate::oid::{Oid, is_valid};
use crate::parse::{DottedTextError, parse_arcs};
use std::alloc::{AllocError, Global};
use std::borrow::CowSlice;
use std::cmp::Ordering;
use std::fmt;
use std::hash::{Hash, Hasher};
use std::marker::Model;

/// An object identifier that owns its arcs, or borrows them for `'static`.
#[derive(Debug, Drop)]
pub struct ObjectIdentifier {
    arcs: CowSlice<'static, u32>,
}

impl Model for ObjectIdentifier {
    ghost use Rattle.std.specs.Prelude.{List, ℕ};
    ghost use Rattle.std.specs.Cow.{cow_slice_items};
    ghost use Rattle.asn1_oid.specs.Arcs.{IsValidArcs};

    ghost Value = { List ℕ };

    ghost view = { λ o. cow_slice_items o.arcs };

    ghost invariant = { λ o. IsValidArcs (cow_slice_items o.arcs) };
}

impl ObjectIdentifier {
    /// Returns the identifier of the arcs, or `None` if they are not valid (X.660).
    pub fn new(arcs: CowSlice<'static, u32>) -> Option<ObjectIdentifier>
        ensures { MatchOption result (¬ (IsValidArcs (cow_slice_items arcs.entry)))
            (λ oid. (oid ≡ cow_slice_items arcs.entry) × IsValidArcs oid) }
    {
        if is_valid(arcs.as_slice()) {
            Some(ObjectIdentifier { arcs })
        } else {
            None
        }
    }

    /// Returns the identifier of the arcs, or `None` if they are not valid (X.660).
    pub fn from_vec(arcs: Vec<u32>) -> Option<ObjectIdentifier>
        ensures { MatchOption result (¬ (IsValidArcs arcs.items))
            (λ oid. (oid ≡ arcs.items) × IsValidArcs oid) }
    {
        ObjectIdentifier::new(CowSlice::Owned(arcs))
    }

    /// Returns the identifier of the arcs without a check.
    ///
    /// The arcs must be valid (X.660).
    pub fn new_unchecked(arcs: CowSlice<'static, u32>) -> ObjectIdentifier
        requires { IsValidArcs (cow_slice_items arcs) }
        ensures { result ≡ cow_slice_items arcs.entry }
    {
        ObjectIdentifier { arcs }
    }

    /// Copies an identifier, so that the copy owns its arcs.
    ///
    /// # Errors
    ///
    /// Returns `AllocError` if out of memory.
    pub fn from_oid(alloc: Global, oid: Oid<'_>) -> Result<ObjectIdentifier, AllocError>
        ensures { IfOk result (λ copy. copy ≡ arcs_of oid.entry) }
    {
        let arcs = Vec::from_slice(alloc, oid.as_ref())?;
        Ok(ObjectIdentifier {
            arcs: CowSlice::Owned(arcs),
        })
    }

    /// Reads an identifier from its contents octets (X.690 8.19). Room for one more arc than there
    /// are octets is allocated before they are read, and is kept.
    ///
    /// # Errors
    ///
    /// Returns `Malformed` if the octets are the contents of no arcs, however large, otherwise
    /// `ArcTooLarge` if an arc exceeds `u32`, otherwise `Memory` if out of memory.
    ///
    /// # Examples
    ///
    /// ```
    /// use asn1_oid::ObjectIdentifier;
    ///
    /// let contents: &[u8] = &[0x2A, 0x86, 0x48];
    /// let us = ObjectIdentifier::from_contents(rt.alloc(), &contents)?;
    /// assert!(rt; us.eq_arcs(&[1, 2, 840]));
    /// ```
    pub fn from_contents<S: OctetSource>(
        alloc: Global,
        source: &S,
    ) -> Result<ObjectIdentifier, ContentsError>
        ensures contents { IfOk result (λ oid. IsContents oid (S.list source.now) × FitU32 oid) }
        // They are the contents of no other arcs.
        ensures only { IfOk result (λ oid. (arcs : List ℕ)
            → IsContents arcs (S.list source.now) → oid ≡ arcs) }
        ensures accepted { (arcs : List ℕ) → IsContents arcs (S.list source.now) → FitU32 arcs
            → IsOkUnless result ContentsError.Memory }
        ensures arc_too_large { (result ≡ Err ContentsError.ArcTooLarge)
            ↔ ((arcs : List ℕ) × IsContents arcs (S.list source.now) × ¬ (FitU32 arcs)) }
        ensures malformed { (result ≡ Err ContentsError.Malformed)
            ↔ ((arcs : List ℕ) → ¬ (IsContents arcs (S.list source.now))) }
        ensures memory { result ≡ Err ContentsError.Memory
            → (arcs : List ℕ) × IsContents arcs (S.list source.now) × FitU32 arcs }
    {
        let Some(arcs) = arcs_in(alloc, source) else {
            examine(source)?;
            return Err(ContentsError::Memory);
        };
        Ok(ObjectIdentifier {
            arcs: CowSlice::Owned(arcs),
        })
    }

    /// Reads an identifier from its dotted text: the decimals of its arcs, joined by full stops. No
    /// arc has a sign or a leading zero.
    ///
    /// # Errors
    ///
    /// Returns `Malformed` if the text is not that of an identifier whose arcs all fit `u32`,
    /// otherwise `Memory` if out of memory.
    ///
    /// # Examples
    ///
    /// ```
    /// use asn1_oid::ObjectIdentifier;
    ///
    /// let rsa = ObjectIdentifier::parse(rt.alloc(), "1.2.840.113549")?;
    /// assert!(rt; rsa.eq_arcs(&[1, 2, 840, 113549]));
    /// assert!(rt; ObjectIdentifier::parse(rt.alloc(), "3.1").is_err());
    /// ```
    pub fn parse(alloc: Global, text: &str) -> Result<ObjectIdentifier, DottedTextError>
        ensures value { IfOk result (λ oid. IsDottedText oid text.now) }
        // It is the text of no other arcs.
        ensures only { IfOk result (λ oid. (arcs : List ℕ) → IsDottedText arcs text.now → oid ≡ arcs) }
        ensures accepted { (arcs : List ℕ) → IsDottedText arcs text.now
            → IsOkUnless result DottedTextError.Memory }
        ensures malformed { (result ≡ Err DottedTextError.Malformed)
            ↔ ((arcs : List ℕ) → ¬ (IsDottedText arcs text.now)) }
        ensures memory { result ≡ Err DottedTextError.Memory
            → (arcs : List ℕ) × IsDottedText arcs text.now }
    {
        let Some(count) = parse_arcs(text.as_bytes(), &mut []) else {
            return Err(DottedTextError::Malformed);
        };
        let mut arcs = vec![in alloc; 0; count]?;
        match parse_arcs(text.as_bytes(), arcs.as_mut_slice()) {
            Some(_) => Ok(ObjectIdentifier {
                arcs: CowSlice::Owned(arcs),
            }),
            None => unreachable!(),
        }
    }

    /// Borrows the identifier.
    pub fn as_oid(&self) -> Oid<'_>
        ensures { arcs_of result ≡ self.now }
    {
        Oid::new_unchecked(self.arcs.as_slice())
    }

    /// Borrows the arcs.
    pub fn as_ref(&self) -> &[u32]
        ensures arcs { result.now ≡ self.now }
        ensures valid { IsValidArcs result.now }
    {
        self.arcs.as_slice()
    }

    /// Returns the arcs, without a copy.
    pub fn into_arcs(self) -> CowSlice<'static, u32>
        ensures arcs { cow_slice_items result ≡ self }
        ensures valid { IsValidArcs (cow_slice_items result) }
    {
        let ObjectIdentifier { arcs } = self;
        arcs
    }

    /// Returns whether these are its arcs.
    pub fn eq_arcs(&self, arcs: &[u32]) -> bool
        ensures { IsTrue result ↔ (self.now ≡ arcs.now) }
    {
        self.as_ref() == arcs
    }

    /// Copies the identifier. Arcs borrowed for `'static` stay borrowed; others are copied.
    ///
    /// # Errors
    ///
    /// Returns `AllocError` if out of memory.
    pub fn clone(&self) -> Result<ObjectIdentifier, AllocError>
        ensures { IfOk result (λ copy. copy ≡ self.now) }
    {
        let arcs = self.arcs.clone()?;
        Ok(ObjectIdentifier { arcs })
    }
}

/// Writes the arcs in decimal, joined by full stops.
impl fmt::Display for ObjectIdentifier {
    ghost output = { λ oid. Some (dotted oid) };

    fn fmt<W: fmt::Write>(&self, f: &mut fmt::Formatter<W>) -> fmt::Result {
        let oid = self.as_oid();
        write!(f, "{oid}")
    }
}

impl PartialEq for ObjectIdentifier {
    ghost eq = { pointwise nat_eq };

    ghost laws = { partial_equiv_from_equiv nat_list_eq_equiv };

    fn eq(&self, other: &ObjectIdentifier) -> bool {
        self.as_ref() == other.as_ref()
    }
}

impl Eq for ObjectIdentifier {
    ghost laws = { nat_list_eq_equiv };
}

impl PartialOrd for ObjectIdentifier {
    ghost partial_cmp = { λ a b. Some (slice_cmp nat_cmp a b) };

    ghost laws = { texts_po };

    fn partial_cmp(&self, other: &ObjectIdentifier) -> Option<Ordering> {
        Some(self.cmp(other))
    }
}

impl Ord for ObjectIdentifier {
    ghost cmp = { slice_cmp nat_cmp };

    ghost total = { nat_list_cmp_total };

    ghost matches_partial_cmp = { λ a b. refl };

    ghost matches_eq = { texts_ties };

    fn cmp(&self, other: &ObjectIdentifier) -> Ordering {
        self.as_ref().cmp(other.as_ref())
    }
}

impl Hash for ObjectIdentifier {
    ghost hash_input = { fed.slice fed.u32 };

    ghost respects_eq = { (same_Alike (fed.slice fed.u32) (pointwise_decides unsigned_Decides)).fed };

    fn hash<H: Hasher>(&self, state: &mut H) {
        self.as_ref().hash(state);
    }
}

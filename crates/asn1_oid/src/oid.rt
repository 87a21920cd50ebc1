//! Identifiers that borrow their arcs.

ghost use Rattle.std.specs.Prelude.{◌≡◌, ◌<◌, ◌≤◌, ◌+◌, ◌*◌, ◌^◌, ◌↔◌, ℕ, List, ◌∷◌, Some, length, IsTrue, IfOk, IfSome, MatchOption};
ghost use Rattle.asn1_oid.specs.Arcs.{IsValidArcs, dotted};
ghost use Rattle.asn1_oid.specs.Contents.{IsContents, subidentifiers};

use crate::dotted::group_text;
use crate::object_identifier::ObjectIdentifier;
use crate::oid_contents::{OidContents, octet_count, octets_of_arcs};
use std::alloc::{AllocError, Global};
use std::fmt;

/// An object identifier that borrows its arcs.
#[derive(Clone, Copy, Debug, PartialEq, Eq, PartialOrd, Ord, Hash)]
pub struct Oid<'a> {
    arcs: &'a [u32],
    ghost valid: { IsValidArcs arcs.now },
}

/// Returns whether the arcs are those of an identifier.
pub(crate) fn is_valid(arcs: &[u32]) -> bool
    ensures { IsTrue result ↔ IsValidArcs arcs.now }
{
    match arcs {
        [] => false,
        [first] => *first <= 2,
        [first, second, ..] => *first == 2 || *first < 2 && *second <= 39,
    }
}

impl<'a> Oid<'a> {
    ghost use Rattle.asn1_oid.specs.Oid.{arcs_of};

    /// Returns the identifier of the arcs, or `None` if they are not valid (X.660).
    pub fn new(arcs: &'a [u32]) -> Option<Oid<'a>>
        ensures { MatchOption result (¬ (IsValidArcs arcs.now))
            (λ oid. (arcs_of oid ≡ arcs.now) × IsValidArcs arcs.now) }
    {
        if is_valid(arcs) {
            Some(Oid { arcs })
        } else {
            None
        }
    }

    /// Returns the identifier of the arcs without a check.
    ///
    /// The arcs must be valid (X.660).
    pub fn new_unchecked(arcs: &'a [u32]) -> Oid<'a>
        requires { IsValidArcs arcs.now }
        ensures { arcs_of result ≡ arcs.now }
    {
        Oid { arcs }
    }

    /// Borrows the arcs.
    pub fn as_ref(&self) -> &'a [u32]
        ensures arcs { result.now ≡ arcs_of self.now }
        ensures valid { IsValidArcs result.now }
    {
        self.arcs
    }

    /// Copies the identifier, so that the copy owns its arcs.
    ///
    /// # Errors
    ///
    /// Returns `AllocError` if out of memory.
    pub fn to_owned(&self, alloc: Global) -> Result<ObjectIdentifier, AllocError>
        ensures { IfOk result (λ copy. copy ≡ arcs_of self.now) }
    {
        ObjectIdentifier::from_oid(alloc, *self)
    }

    /// Returns the octets of its contents, one by one (X.690 8.19), or `None` if it has one arc.
    pub fn contents(&self) -> Option<OidContents<'a>>
        ensures { MatchOption result (length (arcs_of self.now) ≡ 1)
            (λ octets. IsContents (arcs_of self.now) octets) }
    {
        let (number, arcs) = self.subidentifiers()?;
        Some(OidContents::of(number, arcs))
    }

    /// Returns the number of octets of its contents, or `None` if it has one arc.
    pub fn contents_len(&self) -> Option<u128>
        ensures len { MatchOption result (length (arcs_of self.now) ≡ 1)
            (λ len. (octets : List ℕ) × IsContents (arcs_of self.now) octets
            × (len ≡ length octets)) }
        ensures bound { IfSome result (λ len. len ≤ 5 * length (arcs_of self.now)) }
    {
        let (number, arcs) = self.subidentifiers()?;
        Some(u128::from(octet_count(number)) + octets_of_arcs(arcs) as u128)
    }

    // The first subidentifier, of the first two arcs, and the arcs after these.
    fn subidentifiers(&self) -> Option<(u64, &'a [u32])>
        ensures numbers { MatchOption result (length (arcs_of self.now) ≡ 1)
            (λ r. subidentifiers (arcs_of self.now) ≡ r.0 ∷ r.1.now) }
        ensures two { IfSome result (λ r. length (arcs_of self.now) ≡ 2 + length r.1.now) }
        ensures below { IfSome result (λ r. r.0 < 2 ^ 35) }
    {
        match self.arcs {
            [x, y, arcs @ ..] => Some((40 * u64::from(*x) + u64::from(*y), arcs)),
            _ => None,
        }
    }

    /// Returns whether these are its arcs.
    pub fn eq_arcs(&self, arcs: &[u32]) -> bool
        ensures { IsTrue result ↔ (arcs_of self.now ≡ arcs.now) }
    {
        self.arcs == arcs
    }
}

/// Writes the arcs in decimal, joined by full stops.
impl fmt::Display for Oid<'_> {
    ghost use Rattle.std.specs.Prelude.{Some};
    ghost use Rattle.asn1_oid.specs.Arcs.{dotted};
    ghost use Rattle.asn1_oid.specs.Oid.{arcs_of};

    ghost output = { λ oid. Some (dotted (arcs_of oid)) };

    fn fmt<W: fmt::Write>(&self, f: &mut fmt::Formatter<W>) -> fmt::Result {
        let mut room = [b'.'; 88];
        let mut rest = self.arcs;
        // The first arc has no full stop before it.
        let mut skipped = 1;
        while !rest.is_empty() {
            let (group, others) = rest.split_at(rest.len().min(8));
            f.write_str(group_text(group, skipped, &mut room))?;
            rest = others;
            skipped = 0;
        }
        Ok(())
    }
}

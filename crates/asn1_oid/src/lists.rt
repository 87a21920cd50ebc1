//! Identifiers as lists of arcs, for generic code and for loops.

ghost use Rattle.std.specs.Prelude.{◌≡◌, ◌<◌, ◌^◌, ℕ, length};
ghost use Rattle.std.specs.Slice.Iter.{iter_rest};
ghost use Rattle.std.specs.Iterator.Adapters.{IterYieldsInOrder};
ghost use Rattle.asn1_oid.specs.Oid.{arcs_of};

use crate::object_identifier::ObjectIdentifier;
use crate::oid::Oid;
use std::convert::AsSlice;
use std::slice::Iter;

impl AsSlice<u32> for Oid<'_> {
    ghost items = { λ oid. arcs_of oid };

    fn as_slice(&self) -> &[u32] {
        Oid::as_ref(self)
    }
}

impl AsSlice<u32> for ObjectIdentifier {
    ghost items = { λ oid. oid };

    fn as_slice(&self) -> &[u32] {
        ObjectIdentifier::as_ref(self)
    }
}

impl<'a> IntoIterator for &Oid<'a> {
    type Item = &'a u32;

    type IntoIter = Iter<'a, u32>;

    ghost into_iter_gives = { λ oid r. (iter_rest r ≡ arcs_of oid.now)
        × (length (iter_rest r) < 2 ^ 64) × IterYieldsInOrder ℕ };

    /// Returns an iterator over the arcs.
    fn into_iter(self) -> Iter<'a, u32> {
        self.as_ref().iter()
    }
}

impl<'a> IntoIterator for &'a ObjectIdentifier {
    type Item = &'a u32;

    type IntoIter = Iter<'a, u32>;

    ghost into_iter_gives = { λ oid r. (iter_rest r ≡ oid.now)
        × (length (iter_rest r) < 2 ^ 64) × IterYieldsInOrder ℕ };

    /// Returns an iterator over the arcs.
    fn into_iter(self) -> Iter<'a, u32> {
        self.as_oid().as_ref().iter()
    }
}

//! The one type after the eight strings.
ghost use Rattle.std.specs.Prelude.{◌≡◌, ◌≢◌, ◌↔◌, ℕ, true, nat_eq, List, [], map, All, Some, IsTrue, IfOk, OnErr, refl};
ghost use Rattle.std.specs.Ordering.{nat_cmp};
ghost use Rattle.std.specs.Hash as fed;
ghost use Rattle.std.specs.Cmp.Lexicographic.{pointwise, slice_cmp, nat_list_eq_equiv, nat_list_cmp_total, texts_ties, texts_po};
ghost use Rattle.std.specs.Cmp.{partial_equiv_from_equiv};
ghost use Rattle.std.specs.Cmp.Rules.{hashing};
ghost use Rattle.std.proofs.Common.{rules};
ghost use Rattle.asn1_characters.specs.Sets.{base_set, base_count, base_largest, base_width, base_indexed, has_character};

use crate::chars::Chars;
use crate::code_unit::CodeUnit;
use crate::static_permitted_alphabet::StaticPermittedAlphabet;
use crate::string_kind::StringKind;
use asn1_characters::{CharacterRanges, CharacterSetName, HasCharacterSet};
use std::alloc::{AllocError, Global};
use std::cmp::Ordering;
use std::hash::{Hash, Hasher};
use std::marker::{Model, PhantomData};

/// A list of characters, each in the base set of the kind `K` (X.680 41).
#[derive(Debug, Drop)]
pub struct RestrictedString<K: StringKind> {
    units: Vec<K::T>,
    kind: PhantomData<K>,
}

impl<K: StringKind> Model for RestrictedString<K> {
    ghost Value = { List ℕ };

    ghost view = { λ s. map K.T.value s.units.items };

    ghost invariant = { λ s. All (λ c. has_character (base_set K.NAME) c ≡ true)
        (map K.T.value s.units.items) };
}

impl<K: StringKind> HasCharacterSet for RestrictedString<K> {
    ghost CHARACTER_SET_NAME = { K.NAME };

    const CHARACTER_SET_NAME: CharacterSetName = K::NAME;
}

impl<K: StringKind> StaticPermittedAlphabet for RestrictedString<K> {
    type T = K::T;

    ghost CHARACTER_SET_RANGES = { record { name = K.NAME } };

    const CHARACTER_SET_RANGES: CharacterRanges = CharacterRanges::of(K::NAME);

    ghost CHARACTER_SET_COUNT = { base_count K.NAME };

    const CHARACTER_SET_COUNT: u32 = CharacterSetName::count(K::NAME);

    ghost CHARACTER_SET_WIDTH = { base_width K.NAME };

    const CHARACTER_SET_WIDTH: usize = CharacterSetName::width(K::NAME);

    ghost CHARACTER_SET_MAX = { base_largest K.NAME };

    const CHARACTER_SET_MAX: u32 = CharacterSetName::largest(K::NAME);

    ghost IS_INDEXED = { base_indexed K.NAME };

    const IS_INDEXED: bool = CharacterSetName::is_indexed(K::NAME);

    ghost characters = { λ s. s };

    fn new(alloc: Global) -> Self {
        RestrictedString {
            units: Vec::new(alloc),
            kind: PhantomData,
        }
    }

    fn push_char(&mut self, character: u32) -> Result<(), AllocError> {
        self.units.push(K::T::from_character(character))?;
        Ok(())
    }

    fn reserve(&mut self, additional: usize) -> Result<(), AllocError> {
        self.units.reserve(additional)
    }

    fn len(&self) -> usize {
        self.units.len()
    }

    fn from_units(units: Vec<K::T>) -> Self
        requires { All (λ c. has_character (base_set K.NAME) c ≡ true) (map K.T.value units.items) }
        ensures { result ≡ map K.T.value units.items }
    {
        RestrictedString {
            units,
            kind: PhantomData,
        }
    }

    fn chars(&self) -> Chars<'_, K::T> {
        Chars::of(self.units.as_slice())
    }

    ghost ranges = { refl };

    ghost count = { refl };

    ghost width = { refl };

    ghost most = { refl };

    ghost indexed = { refl };

    ghost octets = { K.octets };

    ghost fits = { K.fits };
}

impl<K: StringKind> RestrictedString<K> {
    /// Borrows the units, one for each character.
    pub fn as_slice(&self) -> &[K::T]
        ensures list { map K.T.value result.now ≡ self.now }
        ensures in_set { All (λ c. has_character (base_set K.NAME) c ≡ true) self.now }
    {
        self.units.as_slice()
    }

    /// Returns whether there are no characters.
    pub fn is_empty(&self) -> bool
        ensures { IsTrue result ↔ (self.now ≡ []) }
    {
        self.units.is_empty()
    }

    /// Returns the units, one for each character, without a copy.
    pub fn into_vec(self) -> Vec<K::T>
        ensures list { map K.T.value result.items ≡ self }
        ensures in_set { All (λ c. has_character (base_set K.NAME) c ≡ true) self }
    {
        self.units
    }

    /// Returns the allocator of the string.
    pub(crate) fn allocator(&self) -> Global {
        *self.units.allocator()
    }

    /// Copies the string.
    ///
    /// # Errors
    ///
    /// Returns `AllocError` if out of memory. An empty string never fails.
    pub fn clone(&self) -> Result<Self, AllocError>
        ensures same { IfOk result (λ s. s ≡ self.now) }
        ensures memory { OnErr result (self.now ≢ []) }
    {
        let alloc = self.allocator();
        if self.units.is_empty() {
            return Ok(RestrictedString::new(alloc));
        }
        let units = Vec::from_slice(alloc, self.units.as_slice())?;
        Ok(RestrictedString {
            units,
            kind: PhantomData,
        })
    }
}

impl<K: StringKind> PartialEq for RestrictedString<K> {
    ghost eq = { pointwise nat_eq };

    ghost laws = { partial_equiv_from_equiv nat_list_eq_equiv };

    fn eq(&self, other: &Self) -> bool {
        K::T::are_equal(self.units.as_slice(), other.units.as_slice())
    }
}

impl<K: StringKind> Eq for RestrictedString<K> {
    ghost laws = { nat_list_eq_equiv };
}

impl<K: StringKind> PartialOrd for RestrictedString<K> {
    ghost partial_cmp = { λ x y. Some (slice_cmp nat_cmp x y) };

    ghost laws = { texts_po };

    fn partial_cmp(&self, other: &Self) -> Option<Ordering> {
        Some(self.cmp(other))
    }
}

impl<K: StringKind> Ord for RestrictedString<K> {
    ghost cmp = { slice_cmp nat_cmp };

    ghost total = { nat_list_cmp_total };

    ghost matches_partial_cmp = { λ x y. refl };

    ghost matches_eq = { texts_ties };

    fn cmp(&self, other: &Self) -> Ordering {
        K::T::compare(self.units.as_slice(), other.units.as_slice())
    }
}

impl<K: StringKind> Hash for RestrictedString<K> {
    ghost hash_input = { fed.slice fed.u32 };

    ghost respects_eq = { Prim.search (hashing, rules) };

    fn hash<H: Hasher>(&self, state: &mut H) {
        state.write_usize(self.len());
        for character in self.chars() {
            state.write_u32(character);
        }
    }
}

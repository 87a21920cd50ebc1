//! `BmpString`.
ghost use Rattle.std.specs.Prelude.{◌≡◌, ◌≢◌, ◌*◌, [], length, Ok, IfOk, OnErr, refl};
ghost use Rattle.std.specs.List.{flat_map};
ghost use Rattle.std.specs.Int.{w16, to_be_bytes};
ghost use Rattle.asn1_strings.specs.Strings.{character_octets, string_of_octets};
ghost use Rattle.asn1_characters.specs.Laws.SetLaws.{below_limit};
ghost use Rattle.asn1_characters.specs.declared.character_set.CharacterSetName.TheVariants.{Bmp as name};

use crate::chars::Chars;
use crate::restricted_string::RestrictedString;
use crate::static_permitted_alphabet::StaticPermittedAlphabet;
use crate::string_kind::StringKind;
use asn1_characters::CharacterSetName;
use std::alloc::AllocError;

/// The kind of `BmpString`.
#[derive(Clone, Copy, Debug)]
pub struct Bmp;

impl StringKind for Bmp {
    type T = u16;

    ghost NAME = { name };

    const NAME: CharacterSetName = CharacterSetName::Bmp;

    ghost fits = { below_limit name 65536 refl };

    ghost octets = { refl };
}

/// A `BmpString` (X.680 41): characters of 16 bits, 0 to FFFD.
pub type BmpString = RestrictedString<Bmp>;

impl RestrictedString<Bmp> {
    /// Returns two octets for each character, the higher first (X.690 8.23).
    ///
    /// # Errors
    ///
    /// Returns `AllocError` if out of memory. An empty string never fails.
    pub fn to_bytes(&self) -> Result<Vec<u8>, AllocError>
        ensures octets { IfOk result (λ v. v.items ≡ flat_map (to_be_bytes w16) self.now) }
        // `try_from_slice` of them is the same string.
        ensures read_back { let width = character_octets name in
            IfOk result (λ v. string_of_octets name width v.items ≡ Ok self.now) }
        ensures memory { OnErr result (self.now ≢ []) }
    {
        let units = self.as_slice();
        let mut bytes = Vec::new(self.allocator());
        bytes.resize(2 * units.len(), 0)?;
        put_octets(bytes.as_mut_slice(), units);
        Ok(bytes)
    }
}

/// Writes the two octets of each unit, the higher first.
fn put_octets(octets: &mut [u8], units: &[u16])
    requires { length octets.old ≡ 2 * length units.now }
    ensures { octets.new ≡ flat_map (to_be_bytes w16) units.now }
{
    for (i, unit) in units.iter().enumerate() {
        let [high, low] = unit.to_be_bytes();
        octets[2 * i] = high;
        octets[2 * i + 1] = low;
    }
}

impl<'a> IntoIterator for &'a RestrictedString<Bmp> {
    type Item = u32;

    type IntoIter = Chars<'a, u16>;

    ghost into_iter_gives = { λ s characters. characters ≡ s.now };

    /// Returns an iterator over the characters.
    fn into_iter(self) -> Chars<'a, u16> {
        StaticPermittedAlphabet::chars(self)
    }
}

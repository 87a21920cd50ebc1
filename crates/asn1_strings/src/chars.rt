//! The characters of a string, one by one.
ghost use Rattle.std.specs.Prelude.{◌≡◌, ℕ, List, map, length, IfSome, ⊤};
ghost use Rattle.std.specs.Iterator.{YieldsFirst, YieldsLast, item_count, UpTo};
ghost use Rattle.std.specs.Iterator.SizeHint.{IsExactHint, IsWithinCount};

use crate::code_unit::CodeUnit;
use crate::restricted_string::RestrictedString;
use crate::static_permitted_alphabet::StaticPermittedAlphabet;
use crate::string_kind::StringKind;
use std::alloc::AllocError;
use std::marker::Model;

/// An iterator over the characters of a string that are left, in their order.
#[derive(Debug, Drop)]
pub struct Chars<'a, T: CodeUnit> {
    units: &'a [T],
}

impl<'a, T: CodeUnit> Model for Chars<'a, T> {
    ghost Value = { List ℕ };

    ghost view = { λ s. map T.value s.units.now };
}

impl<'a, T: CodeUnit> Chars<'a, T> {
    /// Returns the characters of these units.
    pub(crate) fn of(units: &'a [T]) -> Chars<'a, T>
        ensures { result ≡ map T.value units.now }
    {
        Chars { units }
    }
}

impl<'a, T: CodeUnit> Iterator for Chars<'a, T> {
    type Item = u32;

    ghost next_gives = { YieldsFirst (λ s. s) };

    ghost remaining = { item_count (λ s. s) };

    fn next(&mut self) -> Option<u32> {
        let (first, others) = self.units.split_first()?;
        self.units = others;
        Some(first.to_character())
    }

    fn size_hint(&self) -> (usize, Option<usize>)
        ensures lower { IsWithinCount result.0 (item_count (λ s. s) self.now) }
        ensures upper { IfSome result.1 (UpTo (item_count (λ s. s) self.now)) }
        ensures exact { IsExactHint result (length self.now) }
    {
        let left = self.units.len();
        (left, Some(left))
    }
}

impl<'a, T: CodeUnit> ExactSizeIterator for Chars<'a, T> {
    fn len(&self) -> usize {
        self.units.len()
    }
}

impl<'a, T: CodeUnit> DoubleEndedIterator for Chars<'a, T> {
    ghost next_back_gives = { YieldsLast (λ s. s) };

    fn next_back(&mut self) -> Option<u32> {
        let (last, others) = self.units.split_last()?;
        self.units = others;
        Some(last.to_character())
    }
}

impl<'a, T: CodeUnit> Clone for Chars<'a, T> {
    ghost is_clone = { λ x y. y ≡ x };

    ghost is_infallible = { λ _. ⊤ };

    /// Returns an iterator over the same characters.
    ///
    /// # Errors
    ///
    /// Never returns an error: it allocates nothing.
    fn clone(&self) -> Result<Chars<'a, T>, AllocError> {
        Ok(Chars { units: self.units })
    }
}

impl<'a, K: StringKind<T = u8>> IntoIterator for &'a RestrictedString<K> {
    type Item = u32;

    type IntoIter = Chars<'a, u8>;

    ghost into_iter_gives = { λ s characters. characters ≡ s.now };

    /// Returns an iterator over the characters.
    fn into_iter(self) -> Chars<'a, u8> {
        StaticPermittedAlphabet::chars(self)
    }
}

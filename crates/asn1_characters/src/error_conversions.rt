//! Conversions between errors, so that `?` returns one from a caller.
ghost use Rattle.std.specs.Prelude.{◌≡◌};
ghost use Rattle.asn1_characters.specs.declared.error.InvalidRestrictedString.TheVariants as own;
ghost use Rattle.asn1_characters.specs.declared.error.PermittedAlphabetError.TheVariants.{InvalidRestrictedString as Refused};

use crate::error::{
    InvalidBmpString, InvalidGeneralString, InvalidGraphicString, InvalidIA5String,
    InvalidNumericString, InvalidPrintableString, InvalidRestrictedString, InvalidTeletexString,
    InvalidVisibleString, PermittedAlphabetError,
};

impl From<InvalidBmpString> for InvalidRestrictedString {
    ghost from_gives = { λ e r. r ≡ own.InvalidBmpString e };

    fn from(error: InvalidBmpString) -> InvalidRestrictedString {
        InvalidRestrictedString::InvalidBmpString(error)
    }
}

impl From<InvalidGeneralString> for InvalidRestrictedString {
    ghost from_gives = { λ e r. r ≡ own.InvalidGeneralString e };

    fn from(error: InvalidGeneralString) -> InvalidRestrictedString {
        InvalidRestrictedString::InvalidGeneralString(error)
    }
}

impl From<InvalidGraphicString> for InvalidRestrictedString {
    ghost from_gives = { λ e r. r ≡ own.InvalidGraphicString e };

    fn from(error: InvalidGraphicString) -> InvalidRestrictedString {
        InvalidRestrictedString::InvalidGraphicString(error)
    }
}

impl From<InvalidIA5String> for InvalidRestrictedString {
    ghost from_gives = { λ e r. r ≡ own.InvalidIA5String e };

    fn from(error: InvalidIA5String) -> InvalidRestrictedString {
        InvalidRestrictedString::InvalidIA5String(error)
    }
}

impl From<InvalidNumericString> for InvalidRestrictedString {
    ghost from_gives = { λ e r. r ≡ own.InvalidNumericString e };

    fn from(error: InvalidNumericString) -> InvalidRestrictedString {
        InvalidRestrictedString::InvalidNumericString(error)
    }
}

impl From<InvalidPrintableString> for InvalidRestrictedString {
    ghost from_gives = { λ e r. r ≡ own.InvalidPrintableString e };

    fn from(error: InvalidPrintableString) -> InvalidRestrictedString {
        InvalidRestrictedString::InvalidPrintableString(error)
    }
}

impl From<InvalidTeletexString> for InvalidRestrictedString {
    ghost from_gives = { λ e r. r ≡ own.InvalidTeletexString e };

    fn from(error: InvalidTeletexString) -> InvalidRestrictedString {
        InvalidRestrictedString::InvalidTeletexString(error)
    }
}

impl From<InvalidVisibleString> for InvalidRestrictedString {
    ghost from_gives = { λ e r. r ≡ own.InvalidVisibleString e };

    fn from(error: InvalidVisibleString) -> InvalidRestrictedString {
        InvalidRestrictedString::InvalidVisibleString(error)
    }
}

impl From<InvalidRestrictedString> for PermittedAlphabetError {
    ghost from_gives = { λ e r. r ≡ Refused e };

    fn from(source: InvalidRestrictedString) -> PermittedAlphabetError {
        PermittedAlphabetError::InvalidRestrictedString { source }
    }
}

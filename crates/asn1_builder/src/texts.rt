//! Strings of characters, and times.

ghost use Rattle.std.specs.Prelude.{◌≡◌, ◌≤◌, length, IfOk};
ghost use Rattle.std.specs.Str.{chars};
ghost use Rattle.asn1_builder.specs.declared.kind.Kind.TheVariants as kind;
ghost use Rattle.asn1_builder.specs.Drafts.{draft_of};
ghost use Rattle.asn1_builder.specs.Steps.{IsStep, any_text, octets_of as octets_in, text as text_of};

use crate::append::MOST_OCTETS;
use crate::builder::Builder;
use crate::error::BuildError;
use crate::kind::Kind;
use asn1_schema::{Characters, Codes, Node, Part};
use std::alloc::{AllocError, Global};

/// Returns how many characters a text has.
fn count_of(text: &str) -> usize
    ensures count { result ≡ length (chars text.now) }
    ensures most { result ≤ length text.now }
{
    text.chars().count()
}

/// Returns the number of each character, in four octets.
fn octets_of(alloc: Global, text: &str) -> Result<Vec<u8>, AllocError>
    ensures { IfOk result (λ v. v.items ≡ octets_in (chars text.now)) }
{
    let mut octets = Vec::new(alloc);
    for character in text.chars() {
        let number = character as u32;
        octets.extend_from_slice(number.to_be_bytes().as_slice())?;
    }
    Ok(octets)
}

impl<'s> Builder<'s> {
    /// Appends a string of characters of a kind.
    fn characters(&mut self, kind: Kind, text: &str) -> Result<(), BuildError>
        ensures { IsStep (text_of kind (chars text.now) (draft_of self.old)) result
            (draft_of self.old) (draft_of self.new) }
    {
        self.expect(kind)?;
        let count = count_of(text);
        if count > MOST_OCTETS / 4 || !self.has_room(4 * count) {
            return Err(BuildError::TooLong);
        }
        let octets = match octets_of(self.alloc, text) {
            Ok(octets) => octets,
            Err(_) => return Err(BuildError::Memory),
        };
        let part = Part::Text(Characters {
            at: self.span_of(0).at,
            count,
            width: 32,
            codes: Codes::Numbers,
        });
        self.put(part, octets.as_slice())
    }

    /// Appends a string of characters: a UTF8String, or a value of a type whose alphabet is known,
    /// such as VisibleString and BMPString.
    ///
    /// # Errors
    ///
    /// Returns [`BuildError::NoValue`] if no value may come next, [`BuildError::NoNode`] if the
    /// tables do not have its type, [`BuildError::OtherType`] if the next value is no such string,
    /// [`BuildError::TooLong`] if the whole value would have 2^61 octets or more, or
    /// [`BuildError::Memory`] if out of memory. Nothing has changed then.
    pub fn text(&mut self, text: &str) -> Result<(), BuildError>
        ensures { IsStep (any_text text.now (draft_of self.old)) result
            (draft_of self.old) (draft_of self.new) }
    {
        match self.expected()? {
            Node::Utf8String => self.octet_string(Kind::Utf8, text.as_bytes()),
            _ => self.characters(Kind::Text, text),
        }
    }

    /// Appends a UTCTime or a GeneralizedTime, as `260101120000Z`.
    ///
    /// # Errors
    ///
    /// Returns [`BuildError::NoValue`] if no value may come next, [`BuildError::NoNode`] if the
    /// tables do not have its type, [`BuildError::OtherType`] if the next value is no time,
    /// [`BuildError::TooLong`] if the whole value would have 2^61 octets or more, or
    /// [`BuildError::Memory`] if out of memory. Nothing has changed then.
    pub fn time(&mut self, text: &str) -> Result<(), BuildError>
        ensures { IsStep (text_of kind.Time (chars text.now) (draft_of self.old)) result
            (draft_of self.old) (draft_of self.new) }
    {
        self.characters(Kind::Time, text)
    }
}

//! Appends parts and octets.

ghost use Rattle.std.specs.Prelude.{◌+◌, ◌^◌, ◌<◌, length, Ok};
ghost use Rattle.asn1_builder.specs.Drafts.{draft_of};
ghost use Rattle.asn1_builder.specs.Steps.{IsStep, begin_with as begun_with, put as put_in};

use crate::builder::Builder;
use crate::error::BuildError;
use crate::expected::awaited;
use crate::frame::Frame;
use asn1_schema::Part;

/// The most octets of a value.
pub(crate) const MOST_OCTETS: usize = 2_305_843_009_213_693_951;

impl<'s> Builder<'s> {
    /// Appends a part, and octets in which it has its bits. The value is complete then.
    pub(crate) fn put(&mut self, part: Part, more: &[u8]) -> Result<(), BuildError>
        requires { length (draft_of self.old).octets + length more.now < 2 ^ 61 }
        ensures { IsStep (Ok (put_in (draft_of self.old) part more.now)) result
            (draft_of self.old) (draft_of self.new) }
    {
        if self.parts.reserve(1).is_err() || self.octets.extend_from_slice(more).is_err() {
            return Err(BuildError::Memory);
        }
        self.parts.push(part).unwrap();
        self.next = awaited(self.innermost());
        Ok(())
    }

    /// Appends a part of a value that is begun.
    pub(crate) fn begin_with(&mut self, part: Part, frame: Frame) -> Result<(), BuildError>
        ensures { IsStep (Ok (begun_with (draft_of self.old) part frame)) result
            (draft_of self.old) (draft_of self.new) }
    {
        if self.parts.reserve(1).is_err() || self.frames.push(frame).is_err() {
            return Err(BuildError::Memory);
        }
        self.parts.push(part).unwrap();
        self.next = awaited(Some(frame));
        Ok(())
    }
}

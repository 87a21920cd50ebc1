//! Values that hold others: where they begin and end.

ghost use Rattle.std.specs.Prelude.{◌≡◌, MatchResult, ℕ, Some};
ghost use Rattle.asn1_builder.specs.declared.frame.Frame.TheVariants as frame;
ghost use Rattle.asn1_builder.specs.Drafts.{draft_of, innermost as innermost_of};
ghost use Rattle.asn1_builder.specs.Steps.{Ends, EndsItems, EndsComponents, EndsNone, IsStep, begun, ended, phase_count as count_of};

use crate::builder::Builder;
use crate::error::BuildError;
use crate::expected::awaited;
use crate::frame::{Components, Frame};
use asn1_schema::{Node, Part};
use asn1_schema_values::values_from;

/// Returns how many components the root has, or how many additions there are where one was named.
fn phase_count(of: &Components) -> usize
    ensures { result ≡ count_of of.now }
{
    if of.is_extended {
        of.additions.count as usize
    } else {
        of.root.count as usize
    }
}

impl<'s> Builder<'s> {
    /// Begins a SEQUENCE, a SET, a SEQUENCE OF or a SET OF. The items of a list are the values that
    /// come next.
    ///
    /// # Errors
    ///
    /// Returns [`BuildError::NoValue`] if no value may come next, [`BuildError::NoNode`] if the tables
    /// do not have its type, [`BuildError::OtherType`] if the next value is no such value, or
    /// [`BuildError::Memory`] if out of memory. Nothing has changed then.
    pub fn begin(&mut self) -> Result<(), BuildError>
        ensures { IsStep (begun (draft_of self.old)) result (draft_of self.old) (draft_of self.new) }
    {
        let at = self.parts.len();
        match self.expected()? {
            Node::Sequence {
                root,
                additions,
                ..
            } => self.begin_with(
                Part::Sequence {
                    count: root.count as usize,
                    is_extended: false,
                },
                Frame::Components(Components {
                    at,
                    root,
                    additions,
                    is_extended: false,
                    passed: 0,
                }),
            ),
            Node::SequenceOf { item, .. } => {
                self.begin_with(Part::Count(0), Frame::Items { at, item })
            }
            Node::SetOf { item, .. } => self.begin_with(Part::Count(0), Frame::Items { at, item }),
            _ => Err(BuildError::OtherType),
        }
    }

    /// Leaves the innermost value that is not ended, which is complete.
    fn leave(&mut self)
        ensures { draft_of self.new ≡ ended (draft_of self.old) (draft_of self.old).parts }
    {
        let _ = self.frames.pop();
        self.next = awaited(self.innermost());
    }

    /// Ends the list that was begun last.
    fn end_items(&mut self, at: usize, item: usize) -> Result<(), BuildError>
        requires { innermost_of (draft_of self.old).frames ≡ Some (frame.Items at item) }
        ensures { MatchResult result
            (λ _. EndsItems (draft_of self.old) at item (draft_of self.new))
            (λ e. EndsNone (draft_of self.old) e × (draft_of self.new ≡ draft_of self.old)) }
    {
        let Some(from) = at.checked_add(1) else {
            return Err(BuildError::Unfinished);
        };
        let Some(count) = values_from(self.parts.as_slice(), from) else {
            return Err(BuildError::Unfinished);
        };
        if at < self.parts.len() {
            self.parts[at] = Part::Count(count);
        }
        self.leave();
        Ok(())
    }

    /// Ends the SEQUENCE or SET that was begun last.
    fn end_components(&mut self, of: &Components) -> Result<(), BuildError>
        requires { innermost_of (draft_of self.old).frames ≡ Some (frame.Components of.now) }
        ensures { MatchResult result
            (λ _. EndsComponents (draft_of self.old) of.now (draft_of self.new))
            (λ e. EndsNone (draft_of self.old) e × (draft_of self.new ≡ draft_of self.old)) }
    {
        if self.next.is_some() {
            return Err(BuildError::Unfinished);
        }
        let count = phase_count(of);
        if !of.is_extended && !self.may_be_absent(of.root, of.passed, count) {
            return Err(BuildError::Mandatory);
        }
        self.append_absent(count.saturating_sub(of.passed))?;
        self.leave();
        Ok(())
    }

    /// Ends the value that was begun last. Components that were not named are absent. It reads the
    /// parts of a list once.
    ///
    /// # Errors
    ///
    /// Returns [`BuildError::NotBegun`] if no value was begun that is not ended,
    /// [`BuildError::Unfinished`] if a value inside it is not finished, [`BuildError::Mandatory`] if a
    /// mandatory component of the root was not named, or [`BuildError::Memory`] if out of memory.
    /// Nothing has changed then.
    pub fn end(&mut self) -> Result<(), BuildError>
        ensures { MatchResult result
            (λ _. Ends (draft_of self.old) (draft_of self.new))
            (λ e. EndsNone (draft_of self.old) e × (draft_of self.new ≡ draft_of self.old)) }
    {
        match self.innermost() {
            None => Err(BuildError::NotBegun),
            Some(Frame::Components(of)) => self.end_components(&of),
            Some(Frame::Items { at, item }) => self.end_items(at, item),
        }
    }
}

//! SEQUENCE and SET: components by their names.

ghost use Rattle.std.specs.Prelude.{◌≡◌, ◌↔◌, ◌++◌, ◌+◌, ◌<◌, ◌≤◌, ◌^◌, IsTrue, MatchOption, MatchResult, Ok, false, true};
ghost use Rattle.asn1_builder.specs.Drafts.{draft_of};
ghost use Rattle.asn1_builder.specs.Steps.{IndexesComponent, IndexesNoComponent, IsIndexed, IsInside, IsInsideNone, IsStep, MayBeAbsent, NamesComponent, NamesNoComponent, Reaches, ReachesNone, RootMayBeAbsent, absent, is_passed as is_passed_by, passed_over, with_frames, with_innermost, with_marker, with_parts};

use crate::builder::Builder;
use crate::error::BuildError;
use crate::frame::{Components, Frame};
use crate::members::{is_optional, node_of, place_of};
use asn1_schema::{Part, Rows};

/// Returns whether a component was named before, or comes before one that was.
fn is_passed(of: &Components, is_addition: bool, index: usize) -> bool
    ensures { result ≡ is_passed_by of.now.is_extended is_addition of.now.passed index }
{
    match (of.is_extended, is_addition) {
        (true, false) => true,
        (false, true) => false,
        _ => index < of.passed,
    }
}

/// Returns whether the component of an index is an addition, and its index in the root or among the
/// additions.
fn place_at(of: &Components, index: usize) -> Option<(bool, usize)>
    ensures { MatchOption result (of.now.root.count + of.now.additions.count ≤ index)
        (λ p. IsIndexed index of.now p.0 p.1 × (p.1 < 2 ^ 32)) }
{
    let known = of.root.count as usize;
    if index < known {
        return Some((false, index));
    }
    if index - known < of.additions.count as usize {
        return Some((true, index - known));
    }
    None
}

impl<'s> Builder<'s> {
    /// Returns whether the components of the root from an index to another may be absent.
    pub(crate) fn may_be_absent(&self, root: Rows, from: usize, to: usize) -> bool
        ensures { IsTrue result ↔ MayBeAbsent (draft_of self.now) root from to }
    {
        for index in from..to {
            if !is_optional(&self.tables, root, index) {
                return false;
            }
        }
        true
    }

    /// Returns whether the components of the root before the one that is named may be absent.
    fn root_may_be_absent(&self, of: &Components, is_addition: bool, index: usize) -> bool
        ensures { IsTrue result ↔ RootMayBeAbsent (draft_of self.now) of.now is_addition index }
    {
        let end = if is_addition {
            of.root.count as usize
        } else {
            index
        };
        of.is_extended || self.may_be_absent(of.root, of.passed, end)
    }

    /// Appends parts of components that are absent.
    pub(crate) fn append_absent(&mut self, count: usize) -> Result<(), BuildError>
        ensures { IsStep (Ok (with_parts (draft_of self.old) ((draft_of self.old).parts ++ absent count)))
            result (draft_of self.old) (draft_of self.new) }
    {
        let Some(length) = self.parts.len().checked_add(count) else {
            return Err(BuildError::Memory);
        };
        match self.parts.resize(length, Part::Absent) {
            Ok(()) => Ok(()),
            Err(_) => Err(BuildError::Memory),
        }
    }

    /// Appends the number of additions, after the components of the root that are absent, and before the
    /// additions that are absent.
    fn append_additions(&mut self, of: &Components, index: usize) -> Result<(), BuildError>
        ensures { IsStep (Ok (with_parts (draft_of self.old)
            ((draft_of self.old).parts ++ passed_over false true of.now index)))
            result (draft_of self.old) (draft_of self.new) }
    {
        let length = self.parts.len();
        self.append_absent((of.root.count as usize).saturating_sub(of.passed))?;
        if self
            .parts
            .push(Part::Additions(of.additions.count as usize))
            .is_err()
            || self.append_absent(index).is_err()
        {
            self.parts.truncate(length);
            return Err(BuildError::Memory);
        }
        Ok(())
    }

    /// Appends the parts of what is skipped.
    fn append_passed(
        &mut self,
        of: &Components,
        is_addition: bool,
        index: usize,
    ) -> Result<(), BuildError>
        ensures { IsStep (Ok (with_parts (draft_of self.old)
            ((draft_of self.old).parts ++ passed_over of.now.is_extended is_addition of.now index)))
            result (draft_of self.old) (draft_of self.new) }
    {
        if is_addition && !of.is_extended {
            return self.append_additions(of, index);
        }
        self.append_absent(index.saturating_sub(of.passed))
    }

    /// Has the part of a SEQUENCE or a SET say that additions follow, where one does.
    fn mark_extended(&mut self, of: &Components, is_addition: bool)
        ensures { draft_of self.new ≡ with_parts (draft_of self.old)
            (with_marker is_addition of.now (draft_of self.old).parts) }
    {
        if is_addition && of.at < self.parts.len() {
            self.parts[of.at] = Part::Sequence {
                count: of.root.count as usize,
                is_extended: true,
            };
        }
    }

    /// Replaces the innermost value that is not ended.
    fn set_innermost(&mut self, frame: Frame)
        ensures { draft_of self.new ≡ with_frames (draft_of self.old)
            (with_innermost (draft_of self.old).frames frame) }
    {
        let count = self.frames.len();
        if count > 0 {
            self.frames[count - 1] = frame;
        }
    }

    /// Skips the components before one, whose value comes next.
    fn reach(&mut self, of: &Components, is_addition: bool, index: usize) -> Result<(), BuildError>
        requires { index < 2 ^ 32 }
        ensures { MatchResult result
            (λ _. Reaches (draft_of self.old) of.now is_addition index (draft_of self.new))
            (λ e. ReachesNone (draft_of self.old) of.now is_addition index e
            × (draft_of self.new ≡ draft_of self.old)) }
    {
        if is_passed(of, is_addition, index) {
            return Err(BuildError::Passed);
        }
        if !self.root_may_be_absent(of, is_addition, index) {
            return Err(BuildError::Mandatory);
        }
        let rows = if is_addition { of.additions } else { of.root };
        let Some(node) = node_of(&self.tables, rows, index) else {
            return Err(BuildError::NoNode);
        };
        self.append_passed(of, is_addition, index)?;
        self.mark_extended(of, is_addition);
        self.set_innermost(Frame::Components(Components {
            is_extended: is_addition,
            passed: index + 1,
            ..*of
        }));
        self.next = Some(node);
        Ok(())
    }

    /// Returns the SEQUENCE or SET that was begun last, if a component of it may be named.
    fn inside(&self) -> Result<Components, BuildError>
        ensures { MatchResult result (λ of. IsInside (draft_of self.now) of)
            (λ e. IsInsideNone (draft_of self.now) e) }
    {
        let Some(Frame::Components(of)) = self.innermost() else {
            return Err(BuildError::NoSequence);
        };
        if self.next.is_some() {
            return Err(BuildError::Unfinished);
        }
        Ok(of)
    }

    /// Names the component of the SEQUENCE or SET that was begun last. Its value comes next.
    ///
    /// Components come in the order of the type, those of a SET in the canonical order of their tags.
    /// Those that are skipped are absent: they are OPTIONAL, have a DEFAULT, or are additions.
    ///
    /// # Errors
    ///
    /// Returns [`BuildError::NoSequence`] if the value that was begun last is no SEQUENCE or SET,
    /// [`BuildError::Unfinished`] if the component that was named last has no value yet,
    /// [`BuildError::NoComponent`] if the type has no component with this name, [`BuildError::Passed`] if
    /// this component or a later one was named, [`BuildError::Mandatory`] if a mandatory component would
    /// be skipped, [`BuildError::NoNode`] if the tables have no such row, or [`BuildError::Memory`] if out
    /// of memory. Nothing has changed then.
    pub fn component(&mut self, name: &str) -> Result<(), BuildError>
        ensures { MatchResult result
            (λ _. NamesComponent (draft_of self.old) name.now (draft_of self.new))
            (λ e. NamesNoComponent (draft_of self.old) name.now e
            × (draft_of self.new ≡ draft_of self.old)) }
    {
        match self.inside() {
            Err(error) => Err(error),
            Ok(of) => match place_of(&self.names, of.root, of.additions, name) {
                None => Err(BuildError::NoComponent),
                Some((is_addition, index)) => self.reach(&of, is_addition, index),
            },
        }
    }

    /// Selects a component of the SEQUENCE or SET that was begun last, as [`Self::component`] does, by its
    /// index: from 0 on those of the root, and then the additions. An addition group has no name; it is
    /// one addition, a SEQUENCE.
    ///
    /// # Errors
    ///
    /// Returns the errors of [`Self::component`] in the same order, and [`BuildError::NoComponent`] if the
    /// type has no component at this index. Nothing has changed then.
    pub fn component_at(&mut self, index: usize) -> Result<(), BuildError>
        ensures { MatchResult result
            (λ _. IndexesComponent (draft_of self.old) index (draft_of self.new))
            (λ e. IndexesNoComponent (draft_of self.old) index e
            × (draft_of self.new ≡ draft_of self.old)) }
    {
        match self.inside() {
            Err(error) => Err(error),
            Ok(of) => match place_at(&of, index) {
                None => Err(BuildError::NoComponent),
                Some((is_addition, place)) => self.reach(&of, is_addition, place),
            },
        }
    }
}

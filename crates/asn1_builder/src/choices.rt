//! CHOICE: alternatives by their names.

ghost use Rattle.std.specs.Prelude.{◌≡◌, ◌∷◌, ◌++◌, [], MatchResult, Ok, Some};
ghost use Rattle.asn1_schema.specs.declared.part.Part.TheVariants.{Chosen};
ghost use Rattle.asn1_builder.specs.Drafts.{draft_of};
ghost use Rattle.asn1_builder.specs.Steps.{Chooses, ChoosesNone, IsStep, chosen};

use crate::builder::Builder;
use crate::error::BuildError;
use crate::members::{node_of, place_of};
use asn1_schema::{Node, Part};

impl<'s> Builder<'s> {
    /// Appends the index of an alternative, whose value is of the type at a node.
    fn choose(&mut self, index: usize, node: usize) -> Result<(), BuildError>
        ensures { IsStep (Ok (chosen (draft_of self.old) index node)) result
            (draft_of self.old) (draft_of self.new) }
    {
        if self.parts.push(Part::Chosen(index)).is_err() {
            return Err(BuildError::Memory);
        }
        self.next = Some(node);
        Ok(())
    }

    /// Chooses an alternative of a CHOICE. Its value comes next.
    ///
    /// # Errors
    ///
    /// Returns [`BuildError::NoValue`] if no value may come next, [`BuildError::NoNode`] if the tables
    /// do not have its type, [`BuildError::OtherType`] if the next value is no CHOICE,
    /// [`BuildError::NoComponent`] if it has no alternative with this name, [`BuildError::NoNode`] if
    /// the tables have no such row, or [`BuildError::Memory`] if out of memory. Nothing has changed
    /// then.
    pub fn alternative(&mut self, name: &str) -> Result<(), BuildError>
        ensures { MatchResult result
            (λ _. Chooses (draft_of self.old) name.now (draft_of self.new))
            (λ e. ChoosesNone (draft_of self.old) name.now e × (draft_of self.new ≡ draft_of self.old)) }
    {
        let Node::Choice {
            alternatives,
            additions,
            ..
        } = self.expected()?
        else {
            return Err(BuildError::OtherType);
        };
        let Some((is_addition, index)) = place_of(&self.names, alternatives, additions, name) else {
            return Err(BuildError::NoComponent);
        };
        let rows = if is_addition { additions } else { alternatives };
        let Some(node) = node_of(&self.tables, rows, index) else {
            return Err(BuildError::NoNode);
        };
        let before = if is_addition {
            alternatives.count as usize
        } else {
            0
        };
        self.choose(before + index, node)
    }
}

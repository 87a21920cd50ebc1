//! The values of ENUMERATED (X.680 20).

use crate::builder::{Builder, Enumeral, Key};
use crate::spans::span_of;
use asn1_definitions::{Place, Scope, hash_of};
use asn1_notation::{Item, NotationError, Problem, error_at, narrow};
use asn1_schema::{Node, Rows};

/// Returns whether a value of the root has this number in the text.
fn has_number(scope: Scope<'_>, place: Place, number: i128) -> Result<bool, NotationError> {
    let mut inside = scope.inside(place);
    for _ in 0..scope.most() {
        let Some(index) = inside.next(scope.tape) else {
            break;
        };
        let part = Place { index, ..place };
        if scope.item(part) == Item::Ellipsis {
            break;
        }
        if let Some(value) = scope.value_in(part)
            && scope.number(value, None)? == number
        {
            return Ok(true);
        }
    }
    Ok(false)
}

/// Returns how many values the root has.
fn root_count(scope: Scope<'_>, place: Place) -> usize {
    let mut count = 0usize;
    let mut inside = scope.inside(place);
    for _ in 0..scope.most() {
        let Some(index) = inside.next(scope.tape) else {
            break;
        };
        match scope.entry(index).item {
            Item::Name => count = count.saturating_add(1),
            Item::Ellipsis => break,
            _ => {}
        }
    }
    count
}

impl<'m> Builder<'m> {
    /// Returns the least number from `next` on that no value of the root has in the text.
    fn free_number(
        &mut self,
        scope: Scope<'_>,
        place: Place,
        next: i128,
    ) -> Result<i128, NotationError> {
        let mut number = next;
        for _ in 0..scope.most() {
            self.step(scope.at(place))?;
            if !has_number(scope, place, number)? {
                break;
            }
            number = number.saturating_add(1);
        }
        Ok(number)
    }

    /// Returns whether one of the values from an index on has this number.
    fn is_taken(&self, from: usize, number: i128) -> bool {
        for index in from..self.enumerals.count() {
            match self.enumerals.get(index) {
                Some(enumeral) if enumeral.number == number => return true,
                Some(_) => {}
                None => break,
            }
        }
        false
    }

    /// Appends a value, and its name to those that must be distinct.
    fn push_enumeral(&mut self, scope: Scope<'_>, place: Place, number: i128) {
        let name = span_of(scope, place);
        self.enumerals.push(Enumeral { name, number });
        self.names.push(Key {
            key: hash_of(scope.text_of(scope.entry(place.index))),
            is_root: true,
            span: name,
        });
    }

    /// Adds the values of the root, in the order of their numbers. Those without a number have the
    /// least ones, from 0 on, that no other has (X.680 20.3).
    fn add_root(&mut self, scope: Scope<'_>, place: Place) -> Result<(), NotationError> {
        let from = self.enumerals.count();
        let mut next = 0i128;
        let mut inside = scope.inside(place);
        for _ in 0..scope.most() {
            let Some(index) = inside.next(scope.tape) else {
                break;
            };
            let part = Place { index, ..place };
            match scope.item(part) {
                Item::Ellipsis => break,
                Item::Name => {
                    let number = match scope.value_in(part) {
                        Some(value) => scope.number(value, None)?,
                        None => {
                            let number = self.free_number(scope, place, next)?;
                            next = number.saturating_add(1);
                            number
                        }
                    };
                    self.push_enumeral(scope, part, number);
                }
                _ => {}
            }
        }
        let root = self.enumerals.rows_from(from);
        root.sort_unstable_by_key(|enumeral| enumeral.number);
        let mut last: Option<Enumeral> = None;
        for enumeral in root.iter() {
            if let Some(last) = last
                && last.number == enumeral.number
            {
                return Err(error_at(Problem::DuplicateNumber, enumeral.name.from));
            }
            last = Some(*enumeral);
        }
        Ok(())
    }

    /// Adds the additions, whose numbers ascend. One without a number has the least one that no value
    /// of the root has and that is greater than those of the additions before it (X.680 20.4).
    fn add_additions(
        &mut self,
        scope: Scope<'_>,
        place: Place,
        root: usize,
    ) -> Result<(), NotationError> {
        let mut next = 0i128;
        let mut is_first = true;
        let mut is_added = false;
        let mut inside = scope.inside(place);
        for _ in 0..scope.most() {
            let Some(index) = inside.next(scope.tape) else {
                break;
            };
            let part = Place { index, ..place };
            if scope.item(part) == Item::Ellipsis {
                is_added = true;
            }
            if !is_added || scope.item(part) != Item::Name {
                continue;
            }
            let number = match scope.value_in(part) {
                Some(value) => scope.number(value, None)?,
                None => self.untaken(scope, part, root, next)?,
            };
            if number < next && !is_first {
                return Err(scope.error(Problem::NotAscending, part));
            }
            if self.is_taken(root, number) {
                return Err(scope.error(Problem::DuplicateNumber, part));
            }
            next = number.saturating_add(1);
            is_first = false;
            self.push_enumeral(scope, part, number);
        }
        Ok(())
    }

    /// Returns the least number from `next` on that none of the values from an index on has.
    fn untaken(
        &mut self,
        scope: Scope<'_>,
        place: Place,
        from: usize,
        next: i128,
    ) -> Result<i128, NotationError> {
        let mut number = next;
        for _ in 0..scope.most() {
            self.step(scope.at(place))?;
            if !self.is_taken(from, number) {
                break;
            }
            number = number.saturating_add(1);
        }
        Ok(number)
    }

    /// Adds the values of an ENUMERATED, and returns its node and the rows of its values.
    pub(crate) fn enumerated(
        &mut self,
        scope: Scope<'_>,
        place: Place,
    ) -> Result<(Node, Rows), NotationError> {
        let from = self.enumerals.count();
        let root = root_count(scope, place);
        if root == 0 {
            return Err(scope.error(Problem::Expected("a value in the root"), place));
        }
        self.add_root(scope, place)?;
        self.add_additions(scope, place, from)?;
        self.check_names(scope.text)?;
        let count = narrow(self.enumerals.count().saturating_sub(from));
        let root = narrow(root);
        let node = Node::Enumerated {
            last: root.saturating_sub(1),
            is_extensible: scope.is_extensible(place),
            additions: count.saturating_sub(root),
        };
        Ok((node, Rows { from, count }))
    }
}

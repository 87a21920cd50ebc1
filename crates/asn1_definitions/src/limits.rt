//! The constraints that most types have: a range of numbers, or a SIZE of one.

use crate::constraints::{Role, Work};
use crate::permitted::{Hull, Permitted};
use crate::scope::{Place, Scope};
use asn1_notation::{Item, NotationError, Problem};

/// How many steps a SIZE of one range takes.
const SHORT: usize = 3;

impl<'r> Scope<'r> {
    /// Limits what a type permits by the only element of its next constraint, if that is a range of numbers or a
    /// SIZE of one. Returns whether it is.
    pub(crate) fn limit(
        self,
        found: &mut Permitted,
        only: Place,
        role: Role,
        work: &mut Work,
        steps: usize,
    ) -> Result<bool, NotationError> {
        if steps <= SHORT + 1 || work.left <= SHORT {
            return Ok(false);
        }
        match (self.item(only), role) {
            (Item::Values, Role::Numbers(governor)) => {
                work.left -= 1;
                found.limit_values(self.some_numbers(only, governor)?);
                Ok(true)
            }
            (Item::Size, _) => {
                let sizes = self.only_element(Place {
                    index: only.index.saturating_add(1),
                    ..only
                });
                if self.item(sizes) != Item::Values {
                    return Ok(false);
                }
                work.left -= SHORT;
                found.limit_sizes(self.some_numbers(sizes, None)?);
                Ok(true)
            }
            _ => Ok(false),
        }
    }

    /// Returns the numbers of a value or a range, or an error if there are none.
    fn some_numbers(self, place: Place, governor: Option<Place>) -> Result<Hull, NotationError> {
        let numbers = self.numbers(place, governor)?;
        if numbers.is_empty() {
            return Err(self.error(Problem::Empty, place));
        }
        Ok(numbers)
    }
}

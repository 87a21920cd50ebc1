//! The numbers and strings that values are.

use crate::names::MAX_STEPS;
use crate::scope::{Place, Scope};
use asn1_notation::{Entry, Item, NotationError, Problem};

/// Returns the number that digits are. `None` if it exceeds 2^127 - 1.
fn number_of_digits(digits: &[u8]) -> Option<i128> {
    let mut number = 0i128;
    for digit in digits {
        let digit = i128::from(digit.saturating_sub(b'0'));
        number = number.checked_mul(10)?.checked_add(digit)?;
    }
    Some(number)
}

impl<'r> Scope<'r> {
    /// Returns the number that an entry has.
    fn literal(self, entry: Entry, place: Place) -> Result<i128, NotationError> {
        match number_of_digits(self.text_of(entry)) {
            Some(number) if entry.item == Item::Negative => Ok(number.saturating_neg()),
            Some(number) => Ok(number),
            None => Err(self.error(Problem::TooLarge, place)),
        }
    }

    /// Returns the number of a value, through names. The named numbers of `governor`, an INTEGER, are looked
    /// up first (X.680 19).
    ///
    /// # Errors
    ///
    /// Returns [`Problem::TooLarge`] if the number is too large, [`Problem::Consequence`] if a definition has
    /// an error, [`Problem::Expected`] if the value is no number, the error of a name on the way, or
    /// [`Problem::Circular`] if the names do not end.
    pub fn number(self, place: Place, governor: Option<Place>) -> Result<i128, NotationError> {
        let mut found = place;
        let mut governor = governor;
        for _ in 0..MAX_STEPS {
            let entry = self.entry(found.index);
            match entry.item {
                Item::Number | Item::Negative => return self.literal(entry, found),
                Item::ValueReference | Item::ExternalValue | Item::PieceName => {
                    if let Some(value) = self.named_number(entry, governor) {
                        governor = None;
                        found = value;
                        continue;
                    }
                    let (value, of) = self.named_value(found)?;
                    governor = Some(self.base(of)?);
                    found = value;
                }
                Item::FromObject => {
                    governor = None;
                    found = self.from_object(found)?;
                }
                Item::Broken => return Err(self.error(Problem::Consequence, place)),
                _ => return Err(self.error(Problem::Expected("a number"), place)),
            }
        }
        Err(self.error(Problem::Circular, place))
    }

    /// Returns the value of a name among the named numbers of an INTEGER. `None` if it is none.
    fn named_number(self, name: Entry, governor: Option<Place>) -> Option<Place> {
        let governor = governor?;
        if name.item == Item::ExternalValue || self.item(governor) != Item::Integer {
            return None;
        }
        self.value_in(self.named_in(governor, Item::Name, name)?)
    }

    /// Returns the string or the braces of a value of characters, through names.
    ///
    /// # Errors
    ///
    /// Returns [`Problem::Consequence`] if a definition has an error, [`Problem::Expected`] if the value is
    /// no string, the error of a name on the way, or [`Problem::Circular`] if the names do not end.
    pub fn text_value(self, place: Place) -> Result<Place, NotationError> {
        let mut found = place;
        for _ in 0..MAX_STEPS {
            match self.item(found) {
                Item::Text | Item::Braces => return Ok(found),
                Item::ValueReference | Item::ExternalValue | Item::PieceName => {
                    let (value, _) = self.named_value(found)?;
                    found = value;
                }
                Item::FromObject => found = self.from_object(found)?,
                Item::Broken => return Err(self.error(Problem::Consequence, place)),
                _ => return Err(self.error(Problem::Expected("a string"), place)),
            }
        }
        Err(self.error(Problem::Circular, place))
    }

    /// Returns the numbers in braces, with a comma between each two: of a tuple two, and of a quadruple four.
    /// `None` if there are others.
    fn parts_of_character(self, braces: Place) -> Option<(usize, [u32; 4])> {
        let mut parts = [0u32; 4];
        let mut count = 0usize;
        let mut inside = self.inside(braces);
        for _ in 0..self.most() {
            let Some(index) = inside.next(self.tape) else {
                break;
            };
            let entry = self.entry(index);
            if entry.item != Item::Number {
                return None;
            }
            let number = u32::try_from(number_of_digits(self.text_of(entry))?).ok()?;
            *parts.get_mut(count)? = number;
            count = count.saturating_add(1);
            let comma = inside.next(self.tape);
            if comma.is_some_and(|index| self.entry(index).item != Item::Comma) {
                return None;
            }
        }
        Some((count, parts))
    }

    /// Returns the number of the character of a tuple or a quadruple (X.680 41.8). `None` if the braces are
    /// neither.
    pub fn character_of(self, braces: Place) -> Option<u32> {
        match self.parts_of_character(braces)? {
            (2, [column @ 0..=7, row @ 0..=15, ..]) => Some(column * 16 + row),
            (
                4,
                [
                    group @ 0..=127,
                    plane @ 0..=255,
                    row @ 0..=255,
                    cell @ 0..=255,
                ],
            ) => { Some(((group * 256 + plane) * 256 + row) * 256 + cell) }
            _ => None,
        }
    }
}

//! Sets of characters.

/// The most ranges of characters above ASCII that a set can hold.
pub const MAX_RANGES: usize = 16;

/// The number of characters of ASCII.
const ASCII: u32 = 128;

/// The characters from one number to another.
#[derive(Clone, Copy, PartialEq, Eq)]
pub struct CharacterRange {
    /// The first.
    pub first: u32,
    /// The last.
    pub last: u32,
}

/// A range, to fill room with.
const UNUSED: CharacterRange = CharacterRange { first: 0, last: 0 };

/// A set of characters, by their numbers.
#[derive(Clone, Copy, PartialEq, Eq)]
pub struct CharacterSet {
    /// The characters of ASCII: bit N is the character with the number N.
    ascii: u128,
    /// The ranges of the others, in ascending order. None touches the one before it.
    above: [CharacterRange; MAX_RANGES],
    /// How many ranges there are.
    count: usize,
    /// Whether the set has more ranges than it can hold.
    is_too_large: bool,
}

/// The set of no characters.
pub const NO_CHARACTERS: CharacterSet = CharacterSet {
    ascii: 0,
    above: [UNUSED; MAX_RANGES],
    count: 0,
    is_too_large: false,
};

/// Returns the characters of ASCII from one number to another, as bits.
fn ascii_between(first: u32, last: u32) -> u128 {
    if last < first || ASCII <= first {
        return 0;
    }
    let unused = 127 - last.min(127);
    (u128::MAX << first) & (u128::MAX >> unused)
}

impl CharacterSet {
    /// Returns the characters from one number to another.
    pub fn between(first: u32, last: u32) -> CharacterSet {
        let mut found = CharacterSet {
            ascii: ascii_between(first, last),
            ..NO_CHARACTERS
        };
        if first <= last && ASCII <= last {
            found.push(CharacterRange {
                first: first.max(ASCII),
                last,
            });
        }
        found
    }

    /// Returns the characters of a text.
    pub fn of(text: &str) -> CharacterSet {
        let mut found = NO_CHARACTERS;
        for character in text.chars() {
            let number = u32::from(character);
            found = found.or(CharacterSet::between(number, number));
        }
        found
    }

    /// Appends a range after the others.
    fn push(&mut self, range: CharacterRange) {
        match self.above.get_mut(self.count) {
            Some(place) => {
                *place = range;
                self.count += 1;
            }
            None => self.is_too_large = true,
        }
    }

    /// Returns the characters of ASCII, as bits.
    pub fn ascii(&self) -> u128 {
        self.ascii
    }

    /// Returns a range of the characters above ASCII. Those of a set ascend.
    pub fn range_above(&self, index: usize) -> Option<CharacterRange> {
        if index < self.count {
            self.above.get(index).copied()
        } else {
            None
        }
    }

    /// Returns whether there are no characters.
    pub fn is_empty(&self) -> bool {
        self.ascii == 0 && self.count == 0 && !self.is_too_large
    }

    /// Returns whether the set has more ranges above ASCII than it can hold. It then lacks some of its
    /// characters.
    pub fn is_too_large(&self) -> bool {
        self.is_too_large
    }

    /// Returns the set with a range of characters above ASCII.
    fn with(&self, range: CharacterRange) -> CharacterSet {
        let mut joined = range;
        let mut is_in = false;
        let mut found = CharacterSet {
            ascii: self.ascii,
            is_too_large: self.is_too_large,
            ..NO_CHARACTERS
        };
        for index in 0..MAX_RANGES {
            let Some(own) = self.range_above(index) else {
                break;
            };
            if own.last.saturating_add(1) < joined.first {
                found.push(own);
            } else if joined.last.saturating_add(1) < own.first {
                if !is_in {
                    found.push(joined);
                    is_in = true;
                }
                found.push(own);
            } else {
                joined = CharacterRange {
                    first: joined.first.min(own.first),
                    last: joined.last.max(own.last),
                };
            }
        }
        if !is_in {
            found.push(joined);
        }
        found
    }

    /// Returns the characters of either set.
    pub fn or(self, other: CharacterSet) -> CharacterSet {
        let mut found = self;
        for index in 0..MAX_RANGES {
            let Some(range) = other.range_above(index) else {
                break;
            };
            found = found.with(range);
        }
        found.ascii |= other.ascii;
        found.is_too_large |= other.is_too_large;
        found
    }

    /// Returns the characters that both sets have.
    pub fn and(self, other: CharacterSet) -> CharacterSet {
        let mut found = CharacterSet {
            ascii: self.ascii & other.ascii,
            is_too_large: self.is_too_large || other.is_too_large,
            ..NO_CHARACTERS
        };
        for index in 0..MAX_RANGES {
            let Some(own) = self.range_above(index) else {
                break;
            };
            for index in 0..MAX_RANGES {
                let Some(range) = other.range_above(index) else {
                    break;
                };
                let first = own.first.max(range.first);
                let last = own.last.min(range.last);
                if first <= last {
                    found.push(CharacterRange { first, last });
                }
            }
        }
        found
    }
}

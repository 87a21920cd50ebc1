//! What constraints permit: bounds of values, bounds of sizes, and alphabets.

use crate::characters::CharacterSet;

/// The least and the greatest of some numbers. `None` is the absence of a bound.
#[derive(Clone, Copy, PartialEq, Eq)]
pub struct Hull {
    /// The least.
    pub least: Option<i128>,
    /// The greatest.
    pub greatest: Option<i128>,
    /// Whether it has an extension marker.
    pub is_extensible: bool,
}

/// Numbers without bounds.
pub const ALL_NUMBERS: Hull = Hull {
    least: None,
    greatest: None,
    is_extensible: false,
};

/// What a constraint permits. A field is `None` if the constraint does not limit it, or not in a
/// way that is visible to the packed encoding rules (X.691 10.3).
#[derive(Clone, Copy, PartialEq, Eq)]
pub struct Permitted {
    /// The values of an INTEGER.
    pub values: Option<Hull>,
    /// The sizes of a string or a list.
    pub sizes: Option<Hull>,
    /// The characters of a string.
    pub alphabet: Option<CharacterSet>,
}

/// What a type without constraints permits.
pub const EVERYTHING: Permitted = Permitted {
    values: None,
    sizes: None,
    alphabet: None,
};

/// Returns the greater one of two lower bounds.
fn greater(a: Option<i128>, b: Option<i128>) -> Option<i128> {
    match (a, b) {
        (Some(a), Some(b)) => Some(a.max(b)),
        (None, b) => b,
        (a, None) => a,
    }
}

/// Returns the smaller one of two upper bounds.
fn smaller(a: Option<i128>, b: Option<i128>) -> Option<i128> {
    match (a, b) {
        (Some(a), Some(b)) => Some(a.min(b)),
        (None, b) => b,
        (a, None) => a,
    }
}

impl Hull {
    /// Returns the numbers of both.
    fn and(self, other: Hull) -> Hull {
        Hull {
            least: greater(self.least, other.least),
            greatest: smaller(self.greatest, other.greatest),
            is_extensible: self.is_extensible || other.is_extensible,
        }
    }

    /// Returns the hull of the numbers of either hull.
    pub fn or(self, other: Hull) -> Hull {
        let least = match (self.least, other.least) {
            (Some(a), Some(b)) => Some(a.min(b)),
            _ => None,
        };
        let greatest = match (self.greatest, other.greatest) {
            (Some(a), Some(b)) => Some(a.max(b)),
            _ => None,
        };
        Hull {
            least,
            greatest,
            is_extensible: self.is_extensible || other.is_extensible,
        }
    }

    /// Returns the numbers with or without an extension marker.
    fn marked(self, is_extensible: bool) -> Hull {
        Hull {
            is_extensible,
            ..self
        }
    }

    /// Returns whether the hull has no number.
    pub fn is_empty(self) -> bool {
        match (self.least, self.greatest) {
            (Some(least), Some(greatest)) => greatest < least,
            _ => false,
        }
    }
}

/// Returns the hull of both, where each one that says nothing changes nothing.
fn both(a: Option<Hull>, b: Option<Hull>) -> Option<Hull> {
    match (a, b) {
        (Some(a), Some(b)) => Some(a.and(b)),
        (None, b) => b,
        (a, None) => a,
    }
}

/// Returns the hull of either, where one that says nothing permits everything.
fn either(a: Option<Hull>, b: Option<Hull>) -> Option<Hull> {
    match (a, b) {
        (Some(a), Some(b)) => Some(a.or(b)),
        _ => None,
    }
}

/// Returns a hull with or without an extension marker.
fn marked(hull: Option<Hull>, is_extensible: bool) -> Option<Hull> {
    match hull {
        Some(hull) => Some(hull.marked(is_extensible)),
        None => None,
    }
}

impl Permitted {
    /// Returns what both permit. A limit that is not visible is ignored (X.691 10.3).
    pub fn and(self, other: Permitted) -> Permitted {
        Permitted {
            values: both(self.values, other.values),
            sizes: both(self.sizes, other.sizes),
            alphabet: match (self.alphabet, other.alphabet) {
                (Some(a), Some(b)) => Some(a.and(b)),
                (None, b) => b,
                (a, None) => a,
            },
        }
    }

    /// Returns what either permits. It limits nothing that one of them does not visibly limit.
    pub fn or(self, other: Permitted) -> Permitted {
        Permitted {
            values: either(self.values, other.values),
            sizes: either(self.sizes, other.sizes),
            alphabet: match (self.alphabet, other.alphabet) {
                (Some(a), Some(b)) => Some(a.or(b)),
                _ => None,
            },
        }
    }

    /// Returns what the constraint `last` permits on a type with this constraint. Only the last
    /// constraint makes a type extensible (X.680 50).
    pub fn followed_by(self, last: Permitted) -> Permitted {
        if last.values.is_none() && last.sizes.is_none() && last.alphabet.is_none() {
            self
        } else {
            self.without_marker().and(last)
        }
    }

    /// Adds a last constraint that permits values alone, as `followed_by` does.
    pub(crate) fn limit_values(&mut self, last: Hull) {
        self.values = both(marked(self.values, false), Some(last));
        self.sizes = marked(self.sizes, false);
    }

    /// Adds a last constraint that permits sizes alone, as `followed_by` does.
    pub(crate) fn limit_sizes(&mut self, last: Hull) {
        self.values = marked(self.values, false);
        self.sizes = both(marked(self.sizes, false), Some(last));
    }

    /// Returns the same without extension markers.
    pub fn without_marker(self) -> Permitted {
        Permitted {
            values: marked(self.values, false),
            sizes: marked(self.sizes, false),
            alphabet: self.alphabet,
        }
    }

    /// Returns the same with an extension marker. An alphabet with one is not visible.
    pub fn with_marker(self) -> Permitted {
        Permitted {
            values: marked(self.values, true),
            sizes: marked(self.sizes, true),
            alphabet: None,
        }
    }

    /// Returns whether nothing is permitted.
    pub fn is_empty(&self) -> bool {
        let has_no_value = match self.values {
            Some(values) => values.is_empty(),
            None => false,
        };
        let has_no_size = match self.sizes {
            Some(sizes) => sizes.is_empty(),
            None => false,
        };
        let has_no_character = match &self.alphabet {
            Some(characters) => characters.is_empty(),
            None => false,
        };
        has_no_value || has_no_size || has_no_character
    }
}

//! Encoding rules.

/// Encoding rules.
#[derive(Clone, Copy, Debug, PartialEq, Eq)]
pub enum Rules {
    /// DER (X.690 10, 11).
    Der,
    /// CANONICAL-PER, UNALIGNED (X.691).
    Uper,
    /// CANONICAL-PER, ALIGNED (X.691).
    Aper,
}

impl Rules {
    /// Returns the rules with a name. `None` if there are none.
    pub fn named(name: &str) -> Option<Rules> {
        match name {
            "der" => Some(Rules::Der),
            "uper" => Some(Rules::Uper),
            "aper" => Some(Rules::Aper),
            _ => None,
        }
    }
}

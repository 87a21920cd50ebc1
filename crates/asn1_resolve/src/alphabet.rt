//! The alphabets of strings, as ranges and as sets of characters.

use asn1_definitions::{CharacterSet, MAX_RANGES, NO_CHARACTERS};
use asn1_notation::{Sink, Word, narrow};
use asn1_schema::{Range, Rows};
use asn1_x690::CharacterSize;

/// The whole alphabets of the types (X.680 41), with which each table of
/// ranges begins.
pub const WHOLE_ALPHABETS: [Range; 13] = [
    Range {
        first: 32,
        last: 32,
    },
    Range {
        first: 48,
        last: 57,
    },
    Range {
        first: 32,
        last: 32,
    },
    Range {
        first: 39,
        last: 41,
    },
    Range {
        first: 43,
        last: 58,
    },
    Range {
        first: 61,
        last: 61,
    },
    Range {
        first: 63,
        last: 63,
    },
    Range {
        first: 65,
        last: 90,
    },
    Range {
        first: 97,
        last: 122,
    },
    Range {
        first: 32,
        last: 126,
    },
    Range {
        first: 0,
        last: 127,
    },
    Range {
        first: 0,
        last: 65_535,
    },
    Range {
        first: 0,
        last: 4_294_967_295,
    },
];

/// Returns the rows of the whole alphabet of a type. `None` if it is no string whose alphabet is
/// known.
pub fn whole_alphabet(word: Word) -> Option<Rows> {
    let (from, count) = match word {
        Word::NumericString => (0, 2),
        Word::PrintableString => (2, 7),
        Word::VisibleString | Word::Iso646String => (9, 1),
        Word::Ia5String => (10, 1),
        Word::BmpString => (11, 1),
        Word::UniversalString => (12, 1),
        _ => return None,
    };
    Some(Rows { from, count })
}

/// Returns how many octets a character of a type has in X.690.
pub fn character_size(word: Option<Word>) -> CharacterSize {
    match word {
        Some(Word::BmpString) => CharacterSize::Two,
        Some(Word::UniversalString) => CharacterSize::Four,
        _ => CharacterSize::One,
    }
}

/// Returns the characters that a set and a whole alphabet share.
pub fn within(characters: CharacterSet, whole: Rows) -> CharacterSet {
    let mut all = NO_CHARACTERS;
    for (index, range) in WHOLE_ALPHABETS.iter().enumerate() {
        if whole.from <= index && index - whole.from < whole.count as usize {
            all = all.or(CharacterSet::between(range.first, range.last));
        }
    }
    characters.and(all)
}

/// Appends the characters of ASCII as ranges. Returns the beginning of a last range that ends with ASCII.
fn push_ascii(ranges: &mut Sink<'_, Range>, ascii: u128) -> Option<u32> {
    let mut left = ascii;
    for _ in 0..64 {
        if left == 0 {
            break;
        }
        let first = left.trailing_zeros();
        // The zeros before the first character are ones too, so that the first zero is after the range.
        let end = (left | left.wrapping_sub(1)).trailing_ones();
        let Some(others) = u128::MAX.checked_shl(end) else {
            return Some(first);
        };
        ranges.push(Range {
            first,
            last: end.saturating_sub(1),
        });
        left &= others;
    }
    None
}

/// Appends characters as ranges, and returns their rows.
pub fn push_ranges(ranges: &mut Sink<'_, Range>, characters: CharacterSet) -> Rows {
    let from = ranges.count();
    let mut begun = push_ascii(ranges, characters.ascii());
    for index in 0..MAX_RANGES {
        let Some(range) = characters.range_above(index) else {
            break;
        };
        let first = match begun {
            Some(first) if range.first == 128 => first,
            Some(first) => {
                ranges.push(Range { first, last: 127 });
                range.first
            }
            None => range.first,
        };
        ranges.push(Range {
            first,
            last: range.last,
        });
        begun = None;
    }
    if let Some(first) = begun {
        ranges.push(Range { first, last: 127 });
    }
    Rows {
        from,
        count: narrow(ranges.count().saturating_sub(from)),
    }
}

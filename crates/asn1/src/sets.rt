//! The values to which parts belong.

use asn1_schema::Part;

/// Returns how many values follow a part that belong to it.
fn held_by(part: Part) -> usize {
    match part {
        Part::Sequence {
            count,
            is_extended: false,
        } => count,
        Part::Sequence {
            count,
            is_extended: true,
        } => count.saturating_add(1),
        Part::Additions(count) | Part::Count(count) => count,
        Part::Chosen(_) | Part::UnknownChosen(_) => 1,
        _ => 0,
    }
}

/// Returns the index of the part to which the value that begins at a part belongs. `None` if it
/// belongs to none.
pub fn holder_of(parts: &[Part], at: usize) -> Option<usize> {
    let mut complete = 0usize;
    for index in (0..at).rev() {
        let held = held_by(*parts.get(index)?);
        if held > complete {
            return Some(index);
        }
        complete = complete.saturating_sub(held).saturating_add(1);
    }
    None
}

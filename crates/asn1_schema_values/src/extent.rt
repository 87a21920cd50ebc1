//! Where a value ends among the parts.

ghost use Rattle.std.specs.Prelude.{◌≡◌, ◌+◌, ◌^◌, ◌≤◌, ℕ, length, MatchOption};
ghost use Rattle.asn1_schema_values.specs.Extents.{HasValues, held_by};

use asn1_schema::Part;

/// Returns how many values a part holds. `None` if the number does not fit `usize`.
fn values_held_by(part: &Part) -> Option<usize>
    ensures { MatchOption result (2 ^ 64 ≤ held_by part.now) (λ count. count ≡ held_by part.now) }
{
    match part {
        Part::Sequence {
            count,
            is_extended: false,
        } => Some(*count),
        Part::Sequence {
            count,
            is_extended: true,
        } => count.checked_add(1),
        Part::Additions(count) => Some(*count),
        Part::Count(count) => Some(*count),
        Part::Chosen(_) => Some(1),
        Part::UnknownChosen(_) => Some(1),
        _ => Some(0),
    }
}

/// Returns the index after `count` values that begin at part `at`. `None` if no part ends them.
///
/// It reads each of their parts once, at any depth.
pub fn end_of_values(parts: &[Part], at: usize, count: usize) -> Option<usize>
    ensures { MatchOption result ((end : ℕ) → HasValues parts.now at count end → ⊥)
        (λ end. HasValues parts.now at count end) }
{
    let mut left = parts.len().checked_sub(at)?;
    let mut pending = count;
    while pending > 0 {
        // Each value has a part of its own.
        if left < pending {
            return None;
        }
        let held = values_held_by(&parts[parts.len() - left])?;
        pending = (pending - 1).checked_add(held)?;
        left -= 1;
    }
    Some(parts.len() - left)
}

/// Returns the index after the value that begins at part `at`. `None` if no value begins there.
///
/// It reads each of its parts once, at any depth.
pub fn end_of(parts: &[Part], at: usize) -> Option<usize>
    ensures { MatchOption result ((end : ℕ) → HasValues parts.now at 1 end → ⊥)
        (λ end. HasValues parts.now at 1 end) }
{
    end_of_values(parts, at, 1)
}

/// Returns how many values the parts from an index on are, one after another. `None` if they are
/// not whole values.
///
/// It reads each of their parts once, at any depth.
pub fn values_from(parts: &[Part], from: usize) -> Option<usize>
    ensures { MatchOption result
        ((count : ℕ) → HasValues parts.now from count (length parts.now) → ⊥)
        (λ count. HasValues parts.now from count (length parts.now)) }
{
    if from > parts.len() {
        return None;
    }
    let mut at = from;
    let mut count = 0;
    while at < parts.len() {
        at = end_of(parts, at)?;
        count += 1;
    }
    Some(count)
}

/// Returns the index after a part. `None` if there is no such part.
pub(crate) fn after(parts: &[Part], at: usize) -> Option<usize>
    ensures { MatchOption result (length parts.now ≤ at) (λ next. next ≡ at + 1) }
{
    if at < parts.len() { Some(at + 1) } else { None }
}

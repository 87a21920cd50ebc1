//! Calls on each number of a range.

use crate::rows::Answers;
use crate::words::{RowError, show_value};
use std::alloc::Global;

/// Returns the answer to a call. If one of its words is a range, returns the answers for each
/// number, one after another: for `half 6..9` those to `half 6`, `half 7` and `half 8`.
pub fn answer_each<A: Answers>(
    alloc: Global,
    answers: &A,
    call: &str,
    words: &[&str],
) -> Result<String, RowError> {
    let Some((place, first, end)) = range_in(words) else {
        return answers.answer(alloc, call, words);
    };
    let mut text = String::new(alloc);
    for number in first..end {
        let answer = answer_at(alloc, answers, call, words, (place, number))?;
        if !text.is_empty() && !answer.is_empty() {
            text.push(' ')?;
        }
        text.push_str(answer.as_str())?;
    }
    Ok(text)
}

/// Returns the index of the first word that is a range, the range's first number, and the number
/// after its last.
fn range_in(words: &[&str]) -> Option<(usize, usize, usize)> {
    for (place, word) in words.iter().enumerate() {
        if let Some((first, end)) = word.split_once("..")
            && let Ok(first) = first.parse::<usize>()
            && let Ok(end) = end.parse::<usize>()
        {
            return Some((place, first, end));
        }
    }
    None
}

/// Returns the answer to a call with a number for one of its words.
fn answer_at<A: Answers>(
    alloc: Global,
    answers: &A,
    call: &str,
    words: &[&str],
    change: (usize, usize),
) -> Result<String, RowError> {
    let digits = show_value(alloc, change.1)?;
    let mut changed = Vec::new(alloc);
    for (at, word) in words.iter().enumerate() {
        changed.push(if at == change.0 {
            digits.as_str()
        } else {
            *word
        })?;
    }
    answers.answer(alloc, call, changed.as_slice())
}

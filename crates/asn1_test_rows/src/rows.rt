//! Reads and answers rows.

use crate::words::{RowError, parse_word, unfold_word};
use std::alloc::Global;
use std::io::{BufRead, Write};

/// What answers the rows of a program.
pub trait Answers {
    /// Returns the answer to a call, in words, or why the row cannot be read.
    fn answer(&self, alloc: Global, call: &str, words: &[&str]) -> Result<String, RowError>;
}

/// Reads rows to the end of the input. Writes a line for each row whose answer is not the expected
/// one or that cannot be read, and a last line with how many agree. Returns the exit status: 0 if
/// all agree, otherwise 1.
pub fn run<A: Answers, R: BufRead, W: Write>(
    alloc: Global,
    answers: &A,
    input: &mut R,
    output: &mut W,
) -> Result<u8, RowError> {
    let mut place = 0u64;
    let mut rows = 0u64;
    let mut agreeing = 0u64;
    for line in input.lines(alloc) {
        let line = line?;
        place = place.saturating_add(1);
        let row = line.as_str().trim_ascii();
        if row.is_empty() || row.starts_with('#') {
            continue;
        }
        rows = rows.saturating_add(1);
        match objection(alloc, answers, row)? {
            None => agreeing = agreeing.saturating_add(1),
            Some(text) => writeln!(output, "line {place}: {row}: {text}")?,
        }
    }
    writeln!(output, "{agreeing} of {rows} rows agree")?;
    output.flush()?;
    Ok(u8::from(agreeing != rows))
}

/// Returns the fault of a row, if it does not agree.
fn objection<A: Answers>(
    alloc: Global,
    answers: &A,
    row: &str,
) -> Result<Option<String>, RowError> {
    let Some((call, wanted)) = row.split_once(" = ") else {
        return Ok(Some(String::from_str(alloc, "no answer is wanted")?));
    };
    match answer_of(alloc, answers, call) {
        Ok(answer) => difference(alloc, answer.as_str(), wanted),
        Err(RowError::Word(text)) => Ok(Some(text)),
        Err(error) => Err(error),
    }
}

/// Returns the answer to a call with its words.
fn answer_of<A: Answers>(alloc: Global, answers: &A, call: &str) -> Result<String, RowError> {
    let words = words_of(alloc, call)?;
    match words.as_slice().split_first() {
        Some((name, words)) => answers.answer(alloc, name, words),
        None => Err(RowError::Word(String::from_str(alloc, "no call")?)),
    }
}

/// Returns the words of a call. A word with a count in braces is repeated.
fn words_of<'a>(alloc: Global, call: &'a str) -> Result<Vec<&'a str>, RowError> {
    let mut words = Vec::new(alloc);
    for word in call.split_ascii_whitespace() {
        let (word, count) = counted(alloc, word)?;
        for _ in 0..count {
            words.push(word)?;
        }
    }
    Ok(words)
}

/// Returns a word and the count in braces after it, or 1: `n1=1{70000}` is `n1=1` and 70,000.
fn counted<'a>(alloc: Global, word: &'a str) -> Result<(&'a str, u32), RowError> {
    if let Some(text) = word.strip_suffix('}')
        && let Some((word, count)) = text.split_once('{')
    {
        return Ok((word, parse_word::<u32>(alloc, count)?));
    }
    Ok((word, 1))
}

/// Returns the fault of an answer, if it is not the expected one.
fn difference(alloc: Global, answer: &str, wanted: &str) -> Result<Option<String>, RowError> {
    let mut spelled = String::new(alloc);
    let words = words_of(alloc, wanted)?;
    for word in words.as_slice() {
        if !spelled.is_empty() {
            spelled.push(' ')?;
        }
        if word.contains('*') {
            spelled.push_str(unfold_word(alloc, word)?.as_str())?;
        } else {
            spelled.push_str(word)?;
        }
    }
    if spelled.as_str() == answer {
        return Ok(None);
    }
    Ok(Some(format!(in alloc; "the answer is {answer}")?))
}

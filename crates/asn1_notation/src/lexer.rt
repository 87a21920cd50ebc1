//! Divides a text into items, one at a time.

ghost use Rattle.std.specs.Prelude.{◌≤◌, ◌<◌, ◌+◌, length, IfOk, IfSome};

use crate::error::Problem;
use crate::octet_kinds::{OctetKind, is_letter, kind_of};
use crate::token::{Symbol, Token, TokenKind};
use crate::word::Word;

/// Returns the octets of a text from an index on.
fn tail(text: &[u8], from: usize) -> &[u8] {
    &text[text.len().min(from)..]
}

/// Returns `count` octets of a text from an index on, as far as the text has them.
pub fn part_of(text: &[u8], from: usize, count: usize) -> &[u8] {
    let rest = tail(text, from);
    &rest[..rest.len().min(count)]
}

/// Returns the first item at or after an octet of the text. At the end of the text it is `End`.
pub fn next_token(text: &[u8], from: usize) -> Token {
    let rest = tail(text, from);
    let rest = &rest[blank_length(rest)..];
    match rest.first() {
        Some(octet) if !begins_gap(*octet) => {
            token_at(rest, text.len().saturating_sub(rest.len()))
        }
        _ => token_after_gaps(text, rest),
    }
}

/// Returns whether an octet other than white space may begin a comment or a NO-BREAK SPACE.
fn begins_gap(octet: u8) -> bool {
    octet == b'-' || octet == b'/' || octet == 0xC2
}

/// Returns the first item of the end of a text, after white space and comments.
fn token_after_gaps(text: &[u8], rest: &[u8]) -> Token {
    let mut rest = rest;
    for _ in 0..rest.len() {
        if rest.is_empty() {
            break;
        }
        let at = text.len().saturating_sub(rest.len());
        match gap_length(rest) {
            Ok(0) => return token_at(rest, at),
            Ok(gap) => rest = &rest[gap..],
            Err(problem) => return invalid(problem, at, text.len()),
        }
    }
    let end = text.len();
    Token {
        kind: TokenKind::End,
        at: end,
        from: end,
        count: 0,
        end,
    }
}

/// Returns the item of text that is none, and is followed by what is at another octet.
fn invalid(problem: Problem, at: usize, end: usize) -> Token {
    Token {
        kind: TokenKind::Invalid(problem),
        at,
        from: at,
        count: 0,
        end,
    }
}

/// Returns the item with which a text begins, whose first octet has this index.
fn token_at(rest: &[u8], at: usize) -> Token
    requires { 0 < length rest.now }
{
    match first_lexeme(rest) {
        Ok(found) => Token {
            kind: found.kind,
            at,
            from: at.saturating_add(found.skip),
            count: found.end - found.skip,
            end: at.saturating_add(found.length),
        },
        Err(problem) => invalid(problem, at, at.saturating_add(1)),
    }
}

/// An item at the beginning of a text. Its own text is from `skip` to `end`, without quotes.
#[derive(Drop)]
struct Lexeme {
    kind: TokenKind,
    skip: usize,
    end: usize,
    length: usize,
    ghost ordered: { skip ≤ end },
    ghost within: { end ≤ length },
    ghost moves: { 0 < length },
}

/// Returns an item whose own text is all of it.
fn plain(kind: TokenKind, length: usize) -> Lexeme
    requires { 0 < length }
    ensures { result.length ≤ length }
{
    Lexeme {
        kind,
        skip: 0,
        end: length,
        length,
    }
}

/// Returns how many octets of white space a text begins with, other than NO-BREAK SPACE (X.680 12.1.6).
#[inline(always)]
fn blank_length(rest: &[u8]) -> usize
    ensures { result ≤ length rest.now }
{
    for end in 0..rest.len() {
        if kind_of(rest[end]) != OctetKind::Blank {
            return end;
        }
    }
    rest.len()
}

/// Returns whether an octet ends a line (X.680 12.1.6): LF, VT, FF or CR.
fn is_line_end(octet: u8) -> bool {
    10 <= octet && octet <= 13
}

/// Returns an octet, or 0 after the last one.
fn octet_at(octets: &[u8], index: usize) -> u8
    ensures within { 0 < result → index < length octets.now }
{
    if index < octets.len() {
        octets[index]
    } else {
        0
    }
}

/// Returns how many octets of white space, or of one comment, a text begins with. A NO-BREAK SPACE is
/// white space.
fn gap_length(rest: &[u8]) -> Result<usize, Problem>
    ensures { IfOk result (λ n. n ≤ length rest.now) }
{
    if octet_at(rest, 0) == b'-' && octet_at(rest, 1) == b'-' {
        return Ok(line_comment(rest));
    }
    if octet_at(rest, 0) == b'/' && octet_at(rest, 1) == b'*' {
        return block_comment(rest).ok_or(Problem::OpenComment);
    }
    if octet_at(rest, 0) == 0xC2 && octet_at(rest, 1) == 0xA0 {
        return Ok(2);
    }
    Ok(blank_length(rest))
}

/// Returns the length of a comment from `--` to the next `--` or the end of the line (X.680 12.6.3).
fn line_comment(rest: &[u8]) -> usize
    requires { 2 ≤ length rest.now }
    ensures { result ≤ length rest.now }
{
    for end in 2..rest.len() {
        if is_line_end(rest[end]) {
            return end;
        }
        if rest[end] == b'-' && octet_at(rest, end + 1) == b'-' {
            return end + 2;
        }
    }
    rest.len()
}

/// Returns the length of a comment from `/*` to its `*/`, with others inside (X.680 12.6.4). `None`
/// if it has no end.
fn block_comment(rest: &[u8]) -> Option<usize>
    ensures { IfSome result (λ n. n ≤ length rest.now) }
{
    let mut depth = 0usize;
    let mut is_second = false;
    for end in 0..rest.len() {
        if is_second {
            is_second = false;
        } else if rest[end] == b'/' && octet_at(rest, end + 1) == b'*' {
            depth = depth.saturating_add(1);
            is_second = true;
        } else if rest[end] == b'*' && octet_at(rest, end + 1) == b'/' {
            depth = depth.saturating_sub(1);
            is_second = true;
            if depth == 0 {
                return Some(end + 2);
            }
        }
    }
    None
}

/// Returns the item with which a text begins that has neither white space nor a comment there.
fn first_lexeme(rest: &[u8]) -> Result<Lexeme, Problem>
    requires { 0 < length rest.now }
    ensures { IfOk result (λ item. item.length ≤ length rest.now) }
{
    match rest[0] {
        b'A'..=b'Z' | b'a'..=b'z' => Ok(name(rest)),
        b'0'..=b'9' => number(rest),
        b'"' => text(rest).ok_or(Problem::OpenString),
        b'\'' => quoted(rest),
        _ => match symbol(rest) {
            Some((symbol, length)) => Ok(Lexeme {
                kind: TokenKind::Symbol(symbol),
                skip: 0,
                end: length,
                length,
            }),
            None => Err(Problem::Character),
        },
    }
}

/// Returns the length of a name. It has no two hyphens in a row, and does not end in one (X.680
/// 12.2.1).
fn name_length(rest: &[u8]) -> usize
    requires { 0 < length rest.now }
    ensures least { 0 < result }
    ensures within { result ≤ length rest.now }
{
    for end in 1..rest.len() {
        let kind = kind_of(rest[end]);
        if kind == OctetKind::Letter {
            continue;
        }
        if kind != OctetKind::Hyphen || !is_letter(octet_at(rest, end + 1)) {
            return end;
        }
    }
    rest.len()
}

/// Returns a name or a reserved word.
fn name(rest: &[u8]) -> Lexeme
    requires { 0 < length rest.now }
    ensures { result.length ≤ length rest.now }
{
    let end = name_length(rest);
    let kind = match Word::of_text(&rest[..end]) {
        Some(word) => TokenKind::Word(word),
        None if rest[0].is_ascii_uppercase() => TokenKind::Upper,
        None => TokenKind::Lower,
    };
    plain(kind, end)
}

/// Returns the index after the digits from an index on.
fn digits(rest: &[u8], from: usize) -> usize
    requires { from ≤ length rest.now }
    ensures { (from ≤ result) × (result ≤ length rest.now) }
{
    for end in from..rest.len() {
        if !rest[end].is_ascii_digit() {
            return end;
        }
    }
    rest.len()
}

/// Returns a number, or a number with a fraction (X.680 12.8, 12.9).
fn number(rest: &[u8]) -> Result<Lexeme, Problem>
    requires { 0 < length rest.now }
    ensures { IfOk result (λ item. item.length ≤ length rest.now) }
{
    let whole = digits(rest, 1);
    if rest[0] == b'0' && 1 < whole {
        return Err(Problem::LeadingZero);
    }
    let mut end = whole;
    if octet_at(rest, whole) == b'.' && octet_at(rest, whole + 1).is_ascii_digit() {
        end = digits(rest, whole + 1);
    }
    end = exponent(rest, end);
    if whole < end {
        return Ok(plain(TokenKind::Real, end));
    }
    Ok(plain(TokenKind::Number, whole))
}

/// Returns the index after an exponent of ten, as `E3` or `e-3`: the index before it if there is none.
fn exponent(rest: &[u8], from: usize) -> usize
    requires { from ≤ length rest.now }
    ensures { (from ≤ result) × (result ≤ length rest.now) }
{
    let letter = octet_at(rest, from);
    if letter != b'e' && letter != b'E' {
        return from;
    }
    if octet_at(rest, from + 1).is_ascii_digit() {
        return digits(rest, from + 1);
    }
    if octet_at(rest, from + 1) == b'-' && octet_at(rest, from + 2).is_ascii_digit() {
        return digits(rest, from + 2);
    }
    from
}

/// Returns a string in double quotes, in which two of them are one (X.680 12.14). `None` if it has
/// no end.
fn text(rest: &[u8]) -> Option<Lexeme>
    requires { 0 < length rest.now }
    ensures { IfSome result (λ item. item.length ≤ length rest.now) }
{
    let mut is_second = false;
    for end in 1..rest.len() {
        if is_second || rest[end] != b'"' {
            is_second = false;
        } else if octet_at(rest, end + 1) == b'"' {
            is_second = true;
        } else {
            return Some(Lexeme {
                kind: TokenKind::Text,
                skip: 1,
                end,
                length: end + 1,
            });
        }
    }
    None
}

/// Returns a string in single quotes, with the letter after it (X.680 12.10, 12.12).
fn quoted(rest: &[u8]) -> Result<Lexeme, Problem>
    requires { 0 < length rest.now }
    ensures { IfOk result (λ item. item.length ≤ length rest.now) }
{
    let Some(inner) = rest[1..].iter().position(|b| *b == b'\'') else {
        return Err(Problem::OpenString);
    };
    let end = inner + 1;
    let kind = match octet_at(rest, end + 1) {
        b'B' => TokenKind::Bits,
        b'H' => TokenKind::Hex,
        _ => return Err(Problem::QuotedSuffix),
    };
    Ok(Lexeme {
        kind,
        skip: 1,
        end,
        length: end + 2,
    })
}

/// Returns the longest symbol with which a text begins, and its length. `None` if there is none.
fn symbol(rest: &[u8]) -> Option<(Symbol, usize)>
    requires { 0 < length rest.now }
    ensures { IfSome result (λ found. (0 < found.1) × (found.1 ≤ length rest.now)) }
{
    match rest {
        [b':', b':', b'=', ..] => Some((Symbol::Assign, 3)),
        [b'.', b'.', b'.', ..] => Some((Symbol::Ellipsis, 3)),
        [b'.', b'.', ..] => Some((Symbol::Range, 2)),
        [b'[', b'[', ..] => Some((Symbol::OpenGroup, 2)),
        [b']', b']', ..] => Some((Symbol::CloseGroup, 2)),
        [first, ..] => Some((symbol_of(*first)?, 1)),
        [] => None,
    }
}

/// Returns the symbol of one character. `None` if there is none.
fn symbol_of(octet: u8) -> Option<Symbol> {
    Some(match octet {
        b'{' => Symbol::OpenBrace,
        b'}' => Symbol::CloseBrace,
        b'[' => Symbol::OpenBracket,
        b']' => Symbol::CloseBracket,
        b'(' => Symbol::OpenParenthesis,
        b')' => Symbol::CloseParenthesis,
        b',' => Symbol::Comma,
        b';' => Symbol::Semicolon,
        b':' => Symbol::Colon,
        b'.' => Symbol::Dot,
        b'|' => Symbol::Bar,
        b'^' => Symbol::Caret,
        b'<' => Symbol::Less,
        b'>' => Symbol::Greater,
        b'@' => Symbol::At,
        b'-' => Symbol::Minus,
        b'!' => Symbol::Exclamation,
        b'*' => Symbol::Star,
        b'&' => Symbol::Ampersand,
        _ => return None,
    })
}

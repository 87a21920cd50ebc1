//! The lexical items of X.680 12.

use crate::error::Problem;
use crate::word::Word;

/// What an item is.
#[derive(Clone, Copy, PartialEq, Eq)]
pub enum TokenKind {
    /// The end of the text.
    End,
    /// A name that begins with a capital: of a type or a module.
    Upper,
    /// A name that begins with a small letter: of a component or a value.
    Lower,
    /// A reserved word.
    Word(Word),
    /// An unsigned number.
    Number,
    /// A number with a fraction.
    Real,
    /// `".."`, without its quotes.
    Text,
    /// `'..'B`, without its quotes.
    Bits,
    /// `'..'H`, without its quotes.
    Hex,
    /// One or more characters, as `::=`.
    Symbol(Symbol),
    /// Text that is no item.
    Invalid(Problem),
}

/// An item that has no letters or digits.
#[derive(Clone, Copy, PartialEq, Eq)]
pub enum Symbol {
    /// `::=`
    Assign,
    /// `..`
    Range,
    /// `...`
    Ellipsis,
    /// `[[`
    OpenGroup,
    /// `]]`
    CloseGroup,
    /// `{`
    OpenBrace,
    /// `}`
    CloseBrace,
    /// `[`
    OpenBracket,
    /// `]`
    CloseBracket,
    /// `(`
    OpenParenthesis,
    /// `)`
    CloseParenthesis,
    /// `,`
    Comma,
    /// `;`
    Semicolon,
    /// `:`
    Colon,
    /// `.`
    Dot,
    /// `|`
    Bar,
    /// `^`
    Caret,
    /// `<`
    Less,
    /// `>`
    Greater,
    /// `@`
    At,
    /// `-`
    Minus,
    /// `!`
    Exclamation,
    /// `*`
    Star,
    /// `&`
    Ampersand,
}

impl Symbol {
    /// Returns the text of the symbol, in quotes for a message.
    pub fn quoted(self) -> &'static str {
        match self {
            Symbol::Assign => "`::=`",
            Symbol::Range => "`..`",
            Symbol::Ellipsis => "`...`",
            Symbol::OpenGroup => "`[[`",
            Symbol::CloseGroup => "`]]`",
            Symbol::OpenBrace => "`{`",
            Symbol::CloseBrace => "`}`",
            Symbol::OpenBracket => "`[`",
            Symbol::CloseBracket => "`]`",
            Symbol::OpenParenthesis => "`(`",
            Symbol::CloseParenthesis => "`)`",
            Symbol::Comma => "`,`",
            Symbol::Semicolon => "`;`",
            Symbol::Dot => "`.`",
            Symbol::Less => "`<`",
            Symbol::Ampersand => "`&`",
            _ => "a symbol",
        }
    }
}

/// An item of a text.
#[derive(Clone, Copy, PartialEq, Eq)]
pub struct Token {
    /// What it is.
    pub kind: TokenKind,
    /// The index of its first octet.
    pub at: usize,
    /// The index of the first octet of its own text, without quotes.
    pub from: usize,
    /// How many octets its own text has.
    pub count: usize,
    /// The index of the octet after it.
    pub end: usize,
}

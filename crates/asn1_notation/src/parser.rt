//! The parser's position in a text, and the entries that it writes.

use crate::error::{NotationError, Problem, error_at};
use crate::lexer::{next_token, part_of};
use crate::sink::Sink;
use crate::tape::{Entry, Item, NO_ENTRY, narrow};
use crate::token::{Symbol, Token, TokenKind};
use crate::word::Word;

/// How deep types, values and constraints nest.
pub const MAX_DEPTH: usize = 100;

/// A parser of a text. It keeps the next two items.
#[derive(Drop)]
pub struct Parser<'m, 'a> {
    text: &'a [u8],
    first: Token,
    second: Token,
    /// The index of the octet after the last item that was taken.
    end: usize,
    tape: Sink<'m, Entry>,
}

impl<'m, 'a> Parser<'m, 'a> {
    /// Makes a parser at the beginning of a text.
    pub fn new(text: &'a [u8], room: &'m mut [Entry]) -> Parser<'m, 'a> {
        let first = next_token(text, 0);
        let second = next_token(text, first.end);
        Parser {
            text,
            first,
            second,
            end: 0,
            tape: Sink::new(room),
        }
    }

    /// Returns how many entries there are.
    pub fn count(&self) -> usize {
        self.tape.count()
    }

    /// Returns the next item.
    pub fn next(&self) -> Token {
        self.first
    }

    /// Returns what the next item is.
    pub fn kind(&self) -> TokenKind {
        self.first.kind
    }

    /// Returns whether the item after the next one is this symbol.
    pub fn sees_second_symbol(&self, symbol: Symbol) -> bool {
        match self.second.kind {
            TokenKind::Symbol(found) => found == symbol,
            _ => false,
        }
    }

    /// Returns whether the item after the next one is a name that begins with a capital.
    pub fn sees_second_upper(&self) -> bool {
        match self.second.kind {
            TokenKind::Upper => true,
            _ => false,
        }
    }

    /// Returns whether the item after the next one is this word.
    pub fn sees_second_word(&self, word: Word) -> bool {
        match self.second.kind {
            TokenKind::Word(found) => found == word,
            _ => false,
        }
    }

    /// Returns whether the next item is a name of capitals, digits and hyphens, as those of classes and
    /// the words of their notation are (X.681 7.1, 7.9).
    pub fn sees_capitals(&self) -> bool {
        let name = part_of(self.text, self.first.from, self.first.count);
        self.sees(TokenKind::Upper) && !name.iter().any(|octet| octet.is_ascii_lowercase())
    }

    /// Returns whether the next item names a class: as `sees_capitals` does, or TYPE-IDENTIFIER.
    pub fn sees_class(&self) -> bool {
        self.sees_capitals() || self.sees_word(Word::TypeIdentifier)
    }

    /// Returns whether the next item begins a line.
    pub fn is_at_line_start(&self) -> bool {
        match self.first.at.checked_sub(1) {
            None => true,
            Some(before) => match part_of(self.text, before, 1) {
                [octet] => *octet == b'\n' || *octet == b'\r',
                _ => false,
            },
        }
    }

    /// Returns whether an item before the next one is on the line of the next one.
    pub fn is_on_line_of(&self, before: Token) -> bool {
        let count = self.first.at.saturating_sub(before.end);
        !part_of(self.text, before.end, count)
            .iter()
            .any(|octet| *octet == b'\n' || *octet == b'\r')
    }

    /// Puts back the item that was taken last.
    pub fn put_back(&mut self, token: Token) {
        self.second = self.first;
        self.first = token;
    }

    /// Returns a number that is at least that of the items that are left.
    pub fn left(&self) -> usize {
        self.text.len().saturating_sub(self.first.at)
    }

    /// Takes the next item.
    pub fn take(&mut self) -> Token {
        let token = self.first;
        let second = next_token(self.text, self.second.end);
        self.end = token.end;
        self.first = self.second;
        self.second = second;
        token
    }

    /// Returns whether the next item is of this kind.
    pub fn sees(&self, kind: TokenKind) -> bool {
        self.first.kind == kind
    }

    /// Returns whether the next item is this symbol.
    pub fn sees_symbol(&self, symbol: Symbol) -> bool {
        match self.first.kind {
            TokenKind::Symbol(found) => found == symbol,
            _ => false,
        }
    }

    /// Returns whether the next item is this word.
    pub fn sees_word(&self, word: Word) -> bool {
        match self.first.kind {
            TokenKind::Word(found) => found == word,
            _ => false,
        }
    }

    /// Takes the next item if it is this symbol, and returns whether it is.
    pub fn accept_symbol(&mut self, symbol: Symbol) -> bool {
        let found = self.sees_symbol(symbol);
        if found {
            self.take();
        }
        found
    }

    /// Takes the next item if it is this word, and returns whether it is.
    pub fn accept_word(&mut self, word: Word) -> bool {
        let found = self.sees_word(word);
        if found {
            self.take();
        }
        found
    }

    /// Takes the next item, which must be of this kind.
    ///
    /// # Errors
    ///
    /// Returns an error if the next item is another.
    pub fn expect(
        &mut self,
        kind: TokenKind,
        expected: &'static str,
    ) -> Result<Token, NotationError> {
        if self.sees(kind) {
            Ok(self.take())
        } else {
            Err(self.expected(expected))
        }
    }

    /// Takes the next item, which must be this symbol.
    ///
    /// # Errors
    ///
    /// Returns an error if the next item is another.
    pub fn expect_symbol(&mut self, symbol: Symbol) -> Result<(), NotationError> {
        if self.accept_symbol(symbol) {
            Ok(())
        } else {
            Err(self.expected(symbol.quoted()))
        }
    }

    /// Takes the next item, which must be this word.
    ///
    /// # Errors
    ///
    /// Returns an error if the next item is another.
    pub fn expect_word(&mut self, word: Word) -> Result<(), NotationError> {
        if self.accept_word(word) {
            Ok(())
        } else {
            Err(self.expected(word.quoted()))
        }
    }

    /// Returns the error of a problem at the next item, or of that item if it is none.
    pub fn error(&self, problem: Problem) -> NotationError {
        match self.first.kind {
            TokenKind::Invalid(invalid) => error_at(invalid, self.first.at),
            _ => error_at(problem, self.first.at),
        }
    }

    /// Returns the error that another item was expected.
    pub fn expected(&self, expected: &'static str) -> NotationError {
        self.error(Problem::Expected(expected))
    }

    /// Begins an entry that is named by an item.
    pub fn open(&mut self, item: Item, word: Option<Word>, token: Token) -> usize {
        self.tape.push(Entry {
            item,
            word,
            from: narrow(token.from),
            count: narrow(token.count),
            ..NO_ENTRY
        })
    }

    /// Begins an entry that is named by the next item.
    pub fn begin(&mut self, item: Item) -> usize {
        let token = self.first;
        self.open(item, None, token)
    }

    /// Says that an entry is another item.
    pub fn turn_into(&mut self, index: usize, item: Item) {
        if let Some(entry) = self.tape.get(index) {
            self.tape.set(index, Entry { item, ..entry });
        }
    }

    /// Says that an entry is named by another item.
    pub fn rename(&mut self, index: usize, token: Token) {
        if let Some(entry) = self.tape.get(index) {
            let from = narrow(token.from);
            let count = narrow(token.count);
            self.tape.set(
                index,
                Entry {
                    from,
                    count,
                    ..entry
                },
            );
        }
    }

    /// Ends a definition with an error: what was read of it is replaced.
    pub fn break_off(&mut self, index: usize) {
        self.tape.truncate(index.saturating_add(1));
        let broken = self.begin(Item::Broken);
        self.close(broken);
        self.close(index);
    }

    /// Ends an entry: all entries after it are inside.
    pub fn close(&mut self, index: usize) {
        if let Some(entry) = self.tape.get(index) {
            let end = narrow(self.tape.count());
            self.tape.set(index, Entry { end, ..entry });
        }
    }

    /// Ends an entry whose span is the text from an octet to the last item that was taken.
    pub fn close_spanning(&mut self, index: usize, from: usize) {
        let count = narrow(self.end.saturating_sub(from));
        let from = narrow(from);
        self.close(index);
        if let Some(entry) = self.tape.get(index) {
            self.tape.set(
                index,
                Entry {
                    from,
                    count,
                    ..entry
                },
            );
        }
    }

    /// Adds an entry with none inside.
    pub fn add(&mut self, item: Item, word: Option<Word>, token: Token) {
        let end = narrow(self.tape.count().saturating_add(1));
        self.tape.push(Entry {
            item,
            word,
            from: narrow(token.from),
            count: narrow(token.count),
            end,
            ..NO_ENTRY
        });
    }

    /// Takes the next item as an entry with none inside.
    pub fn add_next(&mut self, item: Item) {
        let token = self.take();
        self.add(item, None, token);
    }
}

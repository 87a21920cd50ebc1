//! Values. Only their form is read here, since what a value in braces is depends on its type.

use crate::error::{NotationError, Problem};
use crate::parser::Parser;
use crate::tape::Item;
use crate::token::{Symbol, TokenKind};
use crate::word::Word;

/// Returns whether a word is a value, or the end of a range.
fn is_value(word: Word) -> bool {
    match word {
        Word::True
        | Word::False
        | Word::Null
        | Word::Min
        | Word::Max
        | Word::PlusInfinity
        | Word::MinusInfinity
        | Word::NotANumber => true,
        _ => false,
    }
}

impl<'m, 'a> Parser<'m, 'a> {
    /// Reads a number with its sign.
    fn signed_number(&mut self) -> Result<(), NotationError> {
        let from = self.next().at;
        let is_negative = self.accept_symbol(Symbol::Minus);
        match self.kind() {
            TokenKind::Real => {
                let index = self.begin(Item::Real);
                self.take();
                self.close_spanning(index, from);
            }
            TokenKind::Number if is_negative => self.add_next(Item::Negative),
            TokenKind::Number => self.add_next(Item::Number),
            _ => return Err(self.expected("a number")),
        }
        Ok(())
    }

    /// Reads the name of a value, which may be after that of its module.
    fn value_name(&mut self) -> Result<(), NotationError> {
        if self.sees(TokenKind::Upper) {
            let index = self.begin(Item::ExternalValue);
            self.take();
            self.expect_symbol(Symbol::Dot)?;
            let name = self.expect(TokenKind::Lower, "the name of a value")?;
            self.add(Item::ValueReference, None, name);
            self.close(index);
            return Ok(());
        }
        let name = self.expect(TokenKind::Lower, "the name of a value")?;
        if self.sees_symbol(Symbol::Dot) {
            let index = self.fields_of_object(Item::FromObject, name)?;
            self.close(index);
            return Ok(());
        }
        self.add(Item::ValueReference, None, name);
        Ok(())
    }

    /// Reads a value that is a word.
    fn word_value(&mut self, word: Word) -> Result<(), NotationError> {
        if !is_value(word) {
            return Err(self.expected("a value"));
        }
        let token = self.take();
        self.add(Item::WordValue, Some(word), token);
        Ok(())
    }

    /// Reads a value without braces or a colon.
    fn short_value(&mut self) -> Result<(), NotationError> {
        match self.kind() {
            TokenKind::Word(word) => self.word_value(word),
            TokenKind::Number | TokenKind::Real | TokenKind::Symbol(Symbol::Minus) => {
                self.signed_number()
            }
            TokenKind::Text => self.string_value(Item::Text),
            TokenKind::Bits => self.string_value(Item::Bits),
            TokenKind::Hex => self.string_value(Item::Hex),
            TokenKind::Lower | TokenKind::Upper => self.value_name(),
            _ => Err(self.expected("a value")),
        }
    }

    /// Reads a value that is a string.
    fn string_value(&mut self, item: Item) -> Result<(), NotationError> {
        self.add_next(item);
        Ok(())
    }

    /// Reads a value.
    ///
    /// # Errors
    ///
    /// Returns an error at the first item that is unexpected or nested too deep.
    #[cycle(values)]
    pub fn value(&mut self, depth: usize) -> Result<(), NotationError> {
        if depth == 0 {
            return Err(self.error(Problem::TooDeep));
        }
        if self.sees_symbol(Symbol::OpenBrace) {
            return self.braces(depth - 1);
        }
        if self.sees_second_symbol(Symbol::Colon) && self.sees_name_or_word() {
            return self.alternative(depth - 1);
        }
        self.short_value()
    }

    /// Returns whether the next item is a name or a reserved word.
    fn sees_name_or_word(&self) -> bool {
        match self.kind() {
            TokenKind::Lower | TokenKind::Upper | TokenKind::Word(_) => true,
            _ => false,
        }
    }

    /// Reads a value after the name of its alternative, or after its type (X.681 14.6).
    #[cycle(values)]
    fn alternative(&mut self, depth: usize) -> Result<(), NotationError> {
        let index = self.begin(Item::Alternative);
        self.take();
        self.take();
        self.value(depth)?;
        self.close(index);
        Ok(())
    }

    /// Reads a value in braces.
    #[cycle(values)]
    fn braces(&mut self, depth: usize) -> Result<(), NotationError> {
        let index = self.begin(Item::Braces);
        self.expect_symbol(Symbol::OpenBrace)?;
        for _ in 0..self.left() {
            if self.sees_symbol(Symbol::CloseBrace) {
                break;
            }
            self.piece(depth)?;
        }
        self.expect_symbol(Symbol::CloseBrace)?;
        self.close(index);
        Ok(())
    }

    /// Reads a comma, a name or a value in braces.
    #[cycle(values)]
    fn piece(&mut self, depth: usize) -> Result<(), NotationError> {
        if self.sees_symbol(Symbol::Comma) {
            self.add_next(Item::Comma);
            return Ok(());
        }
        if !self.sees(TokenKind::Lower)
            || self.sees_second_symbol(Symbol::Colon)
            || self.sees_second_symbol(Symbol::Dot)
        {
            return self.value(depth);
        }
        self.named_piece(depth)
    }

    /// Reads a name in braces, which may be followed by a value in parentheses.
    ///
    /// # Errors
    ///
    /// Returns an error at the first item that is unexpected or nested too deep.
    #[cycle(values)]
    pub fn named_piece(&mut self, depth: usize) -> Result<(), NotationError> {
        let index = self.begin(Item::PieceName);
        self.take();
        if self.accept_symbol(Symbol::OpenParenthesis) {
            self.value(depth)?;
            self.expect_symbol(Symbol::CloseParenthesis)?;
        }
        self.close(index);
        Ok(())
    }
}

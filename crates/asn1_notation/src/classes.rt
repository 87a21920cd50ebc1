//! Classes of information objects (X.681 9, 10), and the parameters of definitions (X.683 8).

use crate::error::NotationError;
use crate::parser::{MAX_DEPTH, Parser};
use crate::tape::Item;
use crate::token::{Symbol, TokenKind};
use crate::word::Word;

impl<'m, 'a> Parser<'m, 'a> {
    /// Reads what follows `::=` in the definition of a class.
    ///
    /// # Errors
    ///
    /// Returns an error at the first item that is unexpected, unsupported, or nested too deep.
    pub fn class_definition(&mut self) -> Result<(), NotationError> {
        let index = self.begin(Item::Class);
        self.take();
        self.expect_symbol(Symbol::OpenBrace)?;
        for _ in 0..self.left() {
            self.field()?;
            if !self.accept_symbol(Symbol::Comma) {
                break;
            }
        }
        self.end_of_list(Symbol::CloseBrace, "`,` or `}`")?;
        if self.accept_word(Word::With) {
            self.syntax()?;
        }
        self.close(index);
        Ok(())
    }

    /// Reads TYPE-IDENTIFIER as a class.
    pub fn builtin_class(&mut self) {
        let token = self.take();
        self.add(Item::Class, Some(Word::TypeIdentifier), token);
    }

    /// Reads a field (X.681 9.4 to 9.12).
    fn field(&mut self) -> Result<(), NotationError> {
        self.expect_symbol(Symbol::Ampersand)?;
        let is_value = self.sees(TokenKind::Lower);
        if !is_value && !self.sees(TokenKind::Upper) {
            return Err(self.expected("the name of a field"));
        }
        let index = self.begin(Item::Field);
        self.take();
        if self.sees_symbol(Symbol::Ampersand) {
            self.field_name()?;
        } else if is_value || !self.ends_type_field() {
            self.any_type(MAX_DEPTH)?;
        }
        let has_type = is_value || self.count() != index.saturating_add(1);
        if self.sees_word(Word::Unique) {
            self.add_next(Item::Unique);
        }
        if self.sees_word(Word::Optional) {
            self.add_next(Item::Optional);
        } else if self.sees_word(Word::Default) {
            self.field_default(is_value, has_type)?;
        }
        self.close(index);
        Ok(())
    }

    /// Returns whether the next item follows a field of types, which has no type of its own.
    fn ends_type_field(&self) -> bool {
        match self.kind() {
            TokenKind::Symbol(Symbol::Comma | Symbol::CloseBrace)
            | TokenKind::Word(Word::Optional | Word::Default) => true,
            _ => false,
        }
    }

    /// Reads DEFAULT in a field: a value or an object, a set, or a type.
    fn field_default(&mut self, is_value: bool, has_type: bool) -> Result<(), NotationError> {
        let index = self.begin(Item::Default);
        self.take();
        if self.sees_symbol(Symbol::OpenBrace) {
            self.object_braces(MAX_DEPTH)?;
        } else if is_value || has_type {
            self.value(MAX_DEPTH)?;
        } else {
            self.any_type(MAX_DEPTH)?;
        }
        self.close(index);
        Ok(())
    }

    /// Reads the notation of a class after WITH (X.681 10.5). Its groups of optional words are not
    /// entries of their own, but follow one another with their brackets.
    fn syntax(&mut self) -> Result<(), NotationError> {
        let index = self.begin(Item::Syntax);
        self.expect_word(Word::Syntax)?;
        self.expect_symbol(Symbol::OpenBrace)?;
        for _ in 0..self.left() {
            if self.sees_symbol(Symbol::CloseBrace) {
                break;
            }
            self.syntax_part()?;
        }
        self.expect_symbol(Symbol::CloseBrace)?;
        self.close(index);
        Ok(())
    }

    /// Reads a word, a field or a bracket of the notation of a class. `[[` is two brackets here.
    fn syntax_part(&mut self) -> Result<(), NotationError> {
        let token = self.next();
        match token.kind {
            TokenKind::Symbol(Symbol::OpenBracket) => self.add_next(Item::OpenOptional),
            TokenKind::Symbol(Symbol::CloseBracket) => self.add_next(Item::CloseOptional),
            TokenKind::Symbol(Symbol::OpenGroup) => {
                self.add(Item::OpenOptional, None, token);
                self.add_next(Item::OpenOptional);
            }
            TokenKind::Symbol(Symbol::CloseGroup) => {
                self.add(Item::CloseOptional, None, token);
                self.add_next(Item::CloseOptional);
            }
            TokenKind::Symbol(Symbol::Comma) => self.add_next(Item::Comma),
            TokenKind::Symbol(Symbol::Ampersand) => self.field_name()?,
            TokenKind::Word(word) if word.is_capitals() => self.add_next(Item::Literal),
            TokenKind::Upper if self.sees_capitals() => self.add_next(Item::Literal),
            _ => return Err(self.expected("a word in capitals, a field, `[`, `]`, `,` or `}`")),
        }
        Ok(())
    }

    /// Reads the parameters of a definition in braces.
    ///
    /// # Errors
    ///
    /// Returns an error at the first item that is unexpected, unsupported, or nested too deep.
    pub fn parameters(&mut self) -> Result<(), NotationError> {
        let index = self.begin(Item::Parameters);
        self.expect_symbol(Symbol::OpenBrace)?;
        for _ in 0..self.left() {
            self.parameter()?;
            if !self.accept_symbol(Symbol::Comma) {
                break;
            }
        }
        self.end_of_list(Symbol::CloseBrace, "`,` or `}`")?;
        self.close(index);
        Ok(())
    }

    /// Reads a parameter: its name, which may be after its governor.
    fn parameter(&mut self) -> Result<(), NotationError> {
        let index = self.begin(Item::Parameter);
        let is_alone = self.sees_second_symbol(Symbol::Comma)
            || self.sees_second_symbol(Symbol::CloseBrace);
        if !is_alone {
            self.any_type(2)?;
            self.end_of_list(Symbol::Colon, "`,`, `:` or `}`")?;
        }
        match self.kind() {
            TokenKind::Upper | TokenKind::Lower => {
                let name = self.take();
                self.rename(index, name);
            }
            _ => return Err(self.expected("the name of a parameter")),
        }
        self.close(index);
        Ok(())
    }

    /// Reads a table constraint in braces: a set of objects, and the components that select among them
    /// (X.682 10).
    ///
    /// # Errors
    ///
    /// Returns an error at the first item that is unexpected.
    pub fn table(&mut self) -> Result<(), NotationError> {
        let index = self.begin(Item::Table);
        self.expect_symbol(Symbol::OpenBrace)?;
        let name = self.expect(TokenKind::Upper, "the name of a set of objects")?;
        let set = self.open(Item::Reference, None, name);
        if self.accept_symbol(Symbol::Dot) {
            self.after_dot(set)?;
        }
        self.close(set);
        self.expect_symbol(Symbol::CloseBrace)?;
        if self.accept_symbol(Symbol::OpenBrace) {
            for _ in 0..self.left() {
                self.path()?;
                if !self.accept_symbol(Symbol::Comma) {
                    break;
                }
            }
            self.end_of_list(Symbol::CloseBrace, "`,` or `}`")?;
        }
        self.close(index);
        Ok(())
    }

    /// Reads `@` and the path of a component.
    fn path(&mut self) -> Result<(), NotationError> {
        let index = self.begin(Item::At);
        self.end_of_list(Symbol::At, "`@`")?;
        let levels = match self.kind() {
            TokenKind::Symbol(Symbol::Dot) => 1,
            TokenKind::Symbol(Symbol::Range) => 2,
            TokenKind::Symbol(Symbol::Ellipsis) => 3,
            _ => 0,
        };
        let dots = self.next();
        for _ in 0..levels {
            self.add(Item::Level, None, dots);
        }
        if levels != 0 {
            self.take();
        }
        for _ in 0..self.left() {
            let name = self.expect(TokenKind::Lower, "the name of a component")?;
            self.add(Item::PieceName, None, name);
            if !self.accept_symbol(Symbol::Dot) {
                break;
            }
        }
        self.close(index);
        Ok(())
    }
}

//! Names of types and values after those of their modules, fields of classes, and what is in braces
//! after them (X.681 14, X.683 9).

use crate::error::{NotationError, Problem};
use crate::parser::Parser;
use crate::tape::Item;
use crate::token::{Symbol, Token, TokenKind};
use crate::word::Word;

/// Returns whether a word is a value. NULL is read as a type.
fn is_value(word: Word) -> bool {
    match word {
        Word::True | Word::False | Word::PlusInfinity | Word::MinusInfinity | Word::NotANumber =>
            true,
        _ => false,
    }
}

/// Returns whether a word is none that begins a type or a value, so that an object may have it as a word
/// of its notation (X.681 10.6).
fn is_literal(word: Word) -> bool {
    match word {
        Word::Bit
        | Word::Boolean
        | Word::Character
        | Word::Choice
        | Word::Date
        | Word::DateTime
        | Word::Duration
        | Word::Embedded
        | Word::End
        | Word::Enumerated
        | Word::External
        | Word::Instance
        | Word::Integer
        | Word::Null
        | Word::Object
        | Word::Octet
        | Word::Real
        | Word::RelativeOid
        | Word::RelativeOidIri
        | Word::Sequence
        | Word::Set
        | Word::Time
        | Word::TimeOfDay => false,
        _ => word.is_capitals(),
    }
}

impl<'m, 'a> Parser<'m, 'a> {
    /// Reads what follows a dot: the name of a type, of a value, or of a field. `index` is the entry of
    /// what precedes the dot.
    ///
    /// # Errors
    ///
    /// Returns an error at the first item that is unexpected.
    pub fn after_dot(&mut self, index: usize) -> Result<(), NotationError> {
        match self.kind() {
            TokenKind::Upper => {
                self.turn_into(index, Item::ExternalReference);
                self.add_next(Item::ExternalName);
                if self.accept_symbol(Symbol::Dot) {
                    return self.fields_of_class(index);
                }
                Ok(())
            }
            TokenKind::Symbol(Symbol::Ampersand) => self.fields_of_class(index),
            _ => Err(self.expected("the name of a type or of a field")),
        }
    }

    /// Reads the fields after the name of a class, whose entry is at an index: each further field is one of
    /// the class of the field before it.
    fn fields_of_class(&mut self, index: usize) -> Result<(), NotationError> {
        self.turn_into(index, Item::FieldType);
        for _ in 0..self.left() {
            self.field_name()?;
            if !self.accept_symbol(Symbol::Dot) {
                break;
            }
        }
        Ok(())
    }

    /// Reads `&` and the name of a field.
    ///
    /// # Errors
    ///
    /// Returns an error at the first item that is unexpected.
    pub fn field_name(&mut self) -> Result<(), NotationError> {
        self.expect_symbol(Symbol::Ampersand)?;
        match self.kind() {
            TokenKind::Upper | TokenKind::Lower => {
                self.add_next(Item::FieldName);
                Ok(())
            }
            _ => Err(self.expected("the name of a field")),
        }
    }

    /// Begins what a field of an object is (X.681 15), after the name of the object: further fields are
    /// those of the object that the field before is.
    ///
    /// # Errors
    ///
    /// Returns an error at the first item that is unexpected.
    pub fn fields_of_object(&mut self, item: Item, name: Token) -> Result<usize, NotationError> {
        let index = self.open(item, None, name);
        for _ in 0..self.left() {
            if !self.accept_symbol(Symbol::Dot) {
                break;
            }
            self.field_name()?;
        }
        Ok(index)
    }

    /// Begins TYPE-IDENTIFIER as a class, or one of its fields (X.681 A).
    ///
    /// # Errors
    ///
    /// Returns an error at the first item that is unexpected.
    pub fn builtin_field(&mut self) -> Result<usize, NotationError> {
        let token = self.take();
        if !self.sees_symbol(Symbol::Dot) {
            return Ok(self.open(Item::Class, Some(Word::TypeIdentifier), token));
        }
        let index = self.open(Item::FieldType, Some(Word::TypeIdentifier), token);
        self.expect_symbol(Symbol::Dot)?;
        self.field_name()?;
        Ok(index)
    }

    /// Reads the arguments of a type in braces.
    ///
    /// # Errors
    ///
    /// Returns an error at the first item that is unexpected, unsupported, or nested too deep.
    #[cycle(types)]
    pub fn arguments(&mut self, depth: usize) -> Result<(), NotationError> {
        let index = self.begin(Item::Arguments);
        self.expect_symbol(Symbol::OpenBrace)?;
        for _ in 0..self.left() {
            self.argument(depth)?;
            if !self.accept_symbol(Symbol::Comma) {
                break;
            }
        }
        self.end_of_list(Symbol::CloseBrace, "`,` or `}`")?;
        self.close(index);
        Ok(())
    }

    /// Reads an argument: a type, a value, an object or a set.
    #[cycle(types)]
    fn argument(&mut self, depth: usize) -> Result<(), NotationError> {
        match self.kind() {
            TokenKind::Symbol(Symbol::OpenBrace) => self.object_braces(depth),
            TokenKind::Lower if self.sees_second_symbol(Symbol::Less) => self.any_type(depth),
            TokenKind::Lower
            | TokenKind::Number
            | TokenKind::Real
            | TokenKind::Text
            | TokenKind::Bits
            | TokenKind::Hex
            | TokenKind::Symbol(Symbol::Minus) => self.value(depth),
            TokenKind::Word(word) if is_value(word) => self.value(depth),
            _ => self.any_type(depth),
        }
    }

    /// Reads the braces of an object, of a set of objects, or of a value.
    ///
    /// # Errors
    ///
    /// Returns an error at the first item that is unexpected, unsupported, or nested too deep.
    #[cycle(types)]
    pub fn object_braces(&mut self, depth: usize) -> Result<(), NotationError> {
        self.object_pieces(depth, Item::Braces, Symbol::OpenBrace, Symbol::CloseBrace)
    }

    /// Reads the parts of an object, of a set of objects, or of a value between two symbols.
    #[cycle(types)]
    fn object_pieces(
        &mut self,
        depth: usize,
        item: Item,
        first: Symbol,
        last: Symbol,
    ) -> Result<(), NotationError> {
        if depth == 0 {
            return Err(self.error(Problem::TooDeep));
        }
        let index = self.begin(item);
        self.expect_symbol(first)?;
        for _ in 0..self.left() {
            if self.sees_symbol(last) {
                break;
            }
            self.object_piece(depth - 1)?;
        }
        self.expect_symbol(last)?;
        self.close(index);
        Ok(())
    }

    /// Reads one of the parts of an object, of a set of objects, or of a value in braces.
    #[cycle(types)]
    fn object_piece(&mut self, depth: usize) -> Result<(), NotationError> {
        match self.kind() {
            TokenKind::Symbol(Symbol::OpenBrace) => self.object_braces(depth),
            TokenKind::Symbol(Symbol::OpenParenthesis) => {
                let (first, last) = (Symbol::OpenParenthesis, Symbol::CloseParenthesis);
                self.object_pieces(depth, Item::Union, first, last)
            }
            TokenKind::Symbol(Symbol::Ampersand) => self.field_name(),
            TokenKind::Symbol(Symbol::OpenBracket) => self.any_type(depth),
            TokenKind::Symbol(symbol) => self.separator(symbol),
            TokenKind::Lower if self.sees_second_symbol(Symbol::Less) => self.any_type(depth),
            TokenKind::Lower
                if self.sees_second_symbol(Symbol::Colon) || self.sees_second_symbol(Symbol::Dot) =>
                { self.value(depth) }
            TokenKind::Lower => self.named_piece(depth),
            TokenKind::Upper if self.is_literal_next() => {
                self.add_next(Item::Literal);
                Ok(())
            }
            TokenKind::Upper => self.any_type(depth),
            TokenKind::Word(Word::Union) => self.separator(Symbol::Bar),
            TokenKind::Word(word) if is_value(word) => self.value(depth),
            TokenKind::Word(word) if is_literal(word) => {
                self.add_next(Item::Literal);
                Ok(())
            }
            TokenKind::Word(_) => self.any_type(depth),
            _ => self.value(depth),
        }
    }

    /// Reads a comma, `|`, `^`, `...`, or the sign of a number.
    fn separator(&mut self, symbol: Symbol) -> Result<(), NotationError> {
        match symbol {
            Symbol::Comma => self.add_next(Item::Comma),
            Symbol::Bar => self.add_next(Item::Bar),
            Symbol::Ellipsis => self.add_next(Item::Ellipsis),
            Symbol::Caret => self.add_next(Item::Literal),
            _ => return self.value(1),
        }
        Ok(())
    }

    /// Returns whether the next item, a name that begins with a capital, may be a word of the notation of
    /// an object.
    fn is_literal_next(&self) -> bool {
        self.sees_capitals()
            && !self.sees_second_symbol(Symbol::Dot)
            && !self.sees_second_symbol(Symbol::OpenParenthesis)
    }
}

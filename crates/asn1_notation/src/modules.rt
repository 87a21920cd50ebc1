//! Modules and their definitions (X.680 13 to 16).

use crate::error::{NotationError, Problem};
use crate::parser::{MAX_DEPTH, Parser};
use crate::sink::Sink;
use crate::tape::{Entry, Item, narrow};
use crate::token::{Symbol, Token, TokenKind};
use crate::word::Word;

/// How many entries and errors a text has.
#[derive(Clone, Copy, Debug, PartialEq, Eq)]
pub struct Counts {
    /// How many entries there are.
    pub entries: usize,
    /// How many errors there are.
    pub errors: usize,
}

/// Reads the modules of a text into entries, and returns how many entries there are.
///
/// `room` receives the first entries, as many as it has room for.
///
/// # Errors
///
/// Returns the first problem of the text.
pub fn parse(text: &[u8], room: &mut [Entry]) -> Result<usize, NotationError> {
    let mut errors = [NO_ERROR];
    let counts = parse_all(text, room, &mut errors);
    if counts.errors == 0 {
        Ok(counts.entries)
    } else {
        Err(errors[0])
    }
}

/// Reads the modules of a text into entries, and returns how many entries and how many errors there are.
///
/// A definition with an error has one entry inside, `Broken`, and the next definition follows it. `room`
/// receives the first entries, and `errors` the first errors, as many as they have room for.
pub fn parse_all(text: &[u8], room: &mut [Entry], errors: &mut [NotationError]) -> Counts {
    let mut found = Sink::new(errors);
    let mut parser = Parser::new(text, room);
    if let Err(error) = parser.modules(text, &mut found) {
        found.push(error);
    }
    Counts {
        entries: parser.count(),
        errors: found.count(),
    }
}

/// An error that says nothing.
const NO_ERROR: NotationError = NotationError {
    problem: Problem::TooLong,
    at: 0,
};

impl<'m, 'a> Parser<'m, 'a> {
    /// Reads the modules of a text.
    fn modules(
        &mut self,
        text: &[u8],
        errors: &mut Sink<'_, NotationError>,
    ) -> Result<(), NotationError> {
        if narrow(text.len()) == u32::MAX {
            return Err(self.error(Problem::TooLong));
        }
        self.module(errors)?;
        for _ in 0..self.left() {
            if self.sees(TokenKind::End) {
                break;
            }
            self.module(errors)?;
        }
        self.expect(TokenKind::End, "the end of the text")?;
        Ok(())
    }

    /// Reads a module. Its object identifier names it and has no entry.
    fn module(&mut self, errors: &mut Sink<'_, NotationError>) -> Result<(), NotationError> {
        let name = self.expect(TokenKind::Upper, "the name of a module")?;
        if self.sees_symbol(Symbol::OpenBrace) {
            self.identifier()?;
            if self.sees(TokenKind::Text) {
                self.take();
            }
        }
        self.expect_word(Word::Definitions)?;
        let tagging = self.tag_default()?;
        let index = self.open(Item::Module, Some(tagging), name);
        if self.sees_word(Word::Extensibility) {
            self.add_next(Item::ExtensibilityImplied);
            self.expect_word(Word::Implied)?;
        }
        self.expect_symbol(Symbol::Assign)?;
        self.expect_word(Word::Begin)?;
        self.exports()?;
        self.imports()?;
        if self.definitions(errors)? {
            self.expect_word(Word::End)?;
        }
        self.close(index);
        Ok(())
    }

    /// Goes to the end of the object identifier of a module.
    fn identifier(&mut self) -> Result<(), NotationError> {
        for _ in 0..self.left() {
            if self.sees_symbol(Symbol::CloseBrace) {
                break;
            }
            match self.kind() {
                TokenKind::Lower
                | TokenKind::Number
                | TokenKind::Symbol(
                    Symbol::OpenBrace | Symbol::OpenParenthesis | Symbol::CloseParenthesis,
                ) => {
                    self.take();
                }
                _ => return Err(self.expected("a part of the module's identifier")),
            }
        }
        self.expect_symbol(Symbol::CloseBrace)
    }

    /// Reads the default of tags. It is EXPLICIT if there is none (X.680 13.2).
    fn tag_default(&mut self) -> Result<Word, NotationError> {
        match self.kind() {
            TokenKind::Word(word @ (Word::Explicit | Word::Implicit | Word::Automatic)) => {
                self.take();
                self.expect_word(Word::Tags)?;
                Ok(word)
            }
            _ => Ok(Word::Explicit),
        }
    }

    /// Reads EXPORTS. With ALL, as without EXPORTS, it has no entry.
    fn exports(&mut self) -> Result<(), NotationError> {
        if !self.accept_word(Word::Exports) {
            return Ok(());
        }
        if self.accept_word(Word::All) {
            return self.expect_symbol(Symbol::Semicolon);
        }
        let index = self.begin(Item::Exports);
        for _ in 0..self.left() {
            match self.kind() {
                TokenKind::Upper | TokenKind::Lower => self.add_next(Item::Export),
                TokenKind::Symbol(Symbol::Comma | Symbol::OpenBrace | Symbol::CloseBrace) => {
                    self.take();
                }
                _ => break,
            }
        }
        self.close(index);
        self.end_of_list(Symbol::Semicolon, "a name or `;`")
    }

    /// Reads IMPORTS.
    fn imports(&mut self) -> Result<(), NotationError> {
        if !self.accept_word(Word::Imports) {
            return Ok(());
        }
        for _ in 0..self.left() {
            if self.sees_symbol(Symbol::Semicolon) {
                break;
            }
            self.imports_of_module()?;
        }
        self.expect_symbol(Symbol::Semicolon)
    }

    /// Reads names, FROM, and the module that they come from.
    fn imports_of_module(&mut self) -> Result<(), NotationError> {
        let index = self.begin(Item::Imports);
        for _ in 0..self.left() {
            match self.kind() {
                TokenKind::Upper | TokenKind::Lower => self.add_next(Item::Import),
                _ => return Err(self.expected("a name to import")),
            }
            self.empty_braces()?;
            if !self.accept_symbol(Symbol::Comma) {
                break;
            }
        }
        self.expect_word(Word::From)?;
        let module = self.expect(TokenKind::Upper, "the name of a module")?;
        self.add(Item::ImportModule, None, module);
        self.imported_identifier()?;
        self.selection()?;
        self.close(index);
        Ok(())
    }

    /// Takes the object identifier after the name of a module, or the name of its value. A name before a
    /// comma, a brace or FROM is the next name that is imported (X.680 13.1).
    fn imported_identifier(&mut self) -> Result<(), NotationError> {
        let is_symbol = self.sees_second_symbol(Symbol::Comma)
            || self.sees_second_symbol(Symbol::OpenBrace)
            || self.sees_second_word(Word::From);
        match self.kind() {
            TokenKind::Symbol(Symbol::OpenBrace) => self.identifier(),
            TokenKind::Lower if !is_symbol => {
                self.take();
                Ok(())
            }
            TokenKind::Upper if self.sees_second_symbol(Symbol::Dot) => {
                self.take();
                self.take();
                self.expect(TokenKind::Lower, "the name of a value")?;
                Ok(())
            }
            _ => Ok(()),
        }
    }

    /// Takes WITH SUCCESSORS or WITH DESCENDANTS (X.680 13.1).
    fn selection(&mut self) -> Result<(), NotationError> {
        if !self.accept_word(Word::With) {
            return Ok(());
        }
        if self.accept_word(Word::Successors) || self.accept_word(Word::Descendants) {
            Ok(())
        } else {
            Err(self.expected("`SUCCESSORS` or `DESCENDANTS`"))
        }
    }

    /// Takes the braces after the name of a parameterized definition (X.680 13.1).
    fn empty_braces(&mut self) -> Result<(), NotationError> {
        if self.accept_symbol(Symbol::OpenBrace) {
            self.expect_symbol(Symbol::CloseBrace)?;
        }
        Ok(())
    }

    /// Reads the definitions of a module. After one with an error it goes on at the next one, and returns
    /// whether there is one.
    fn definitions(&mut self, errors: &mut Sink<'_, NotationError>) -> Result<bool, NotationError> {
        for _ in 0..self.left() {
            if self.sees_word(Word::End) {
                break;
            }
            let item = match self.kind() {
                TokenKind::Upper => Item::TypeDefinition,
                TokenKind::Lower => Item::ValueDefinition,
                _ => return Err(self.expected("a definition or `END`")),
            };
            let index = self.begin(item);
            let read = match item {
                Item::TypeDefinition => self.type_definition(index),
                _ => self.value_definition(),
            };
            if let Err(error) = read {
                errors.push(error);
                self.break_off(index);
                if !self.go_to_definition() {
                    return Ok(false);
                }
            }
            self.close(index);
        }
        Ok(true)
    }

    /// Goes to the next definition, which has a name at the beginning of a line, before `::=`, or before
    /// a name of its line that is before `::=`; or to END. Returns whether there is one.
    fn go_to_definition(&mut self) -> bool {
        for _ in 0..self.left() {
            let is_definition = match self.kind() {
                TokenKind::Word(Word::End) => true,
                TokenKind::Upper | TokenKind::Lower => {
                    self.is_at_line_start() || self.sees_second_symbol(Symbol::Assign)
                }
                TokenKind::End => return false,
                _ => false,
            };
            if is_definition {
                return true;
            }
            let before = self.take();
            if self.is_governor_after(before) {
                self.put_back(before);
                return true;
            }
        }
        false
    }

    /// Returns whether the next item, before `::=`, is the type or the class after a name of its line.
    fn is_governor_after(&self, before: Token) -> bool {
        let is_name = match before.kind {
            TokenKind::Upper | TokenKind::Lower => true,
            _ => false,
        };
        is_name
            && self.sees(TokenKind::Upper)
            && self.sees_second_symbol(Symbol::Assign)
            && self.is_on_line_of(before)
    }

    /// Reads the definition of a type, a class, or a set of values or of objects.
    fn type_definition(&mut self, index: usize) -> Result<(), NotationError> {
        self.take();
        if self.sees_symbol(Symbol::OpenBrace) {
            self.parameters()?;
        }
        if !self.sees_symbol(Symbol::Assign) {
            return self.set_definition(index);
        }
        self.take();
        match self.kind() {
            TokenKind::Word(Word::Class) => self.class_definition(),
            TokenKind::Word(Word::TypeIdentifier) if !self.sees_second_symbol(Symbol::Dot) => {
                self.builtin_class();
                Ok(())
            }
            _ => self.any_type(MAX_DEPTH),
        }
    }

    /// Reads the definition of a set of values (X.680 16.6) or of objects (X.681 12), after its name. A set
    /// of values is the type with a constraint.
    fn set_definition(&mut self, index: usize) -> Result<(), NotationError> {
        let is_class = self.sees_class();
        let of = self.count();
        self.any_type(MAX_DEPTH)?;
        self.expect_symbol(Symbol::Assign)?;
        if is_class {
            self.turn_into(index, Item::SetDefinition);
            return self.object_braces(MAX_DEPTH);
        }
        let constraint = self.begin(Item::Constraint);
        self.expect_symbol(Symbol::OpenBrace)?;
        self.union(MAX_DEPTH)?;
        self.marker(MAX_DEPTH)?;
        self.expect_symbol(Symbol::CloseBrace)?;
        self.close(constraint);
        self.close(of);
        Ok(())
    }

    /// Reads the definition of a value or of an object (X.681 11).
    fn value_definition(&mut self) -> Result<(), NotationError> {
        self.take();
        if self.sees_symbol(Symbol::OpenBrace) {
            self.parameters()?;
        }
        let is_class = self.sees_class();
        self.any_type(MAX_DEPTH)?;
        self.expect_symbol(Symbol::Assign)?;
        if is_class && self.sees_symbol(Symbol::OpenBrace) {
            return self.object_braces(MAX_DEPTH);
        }
        self.value(MAX_DEPTH)
    }
}

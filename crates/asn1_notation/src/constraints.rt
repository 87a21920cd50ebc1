//! Constraints (X.680 49 to 51).

use crate::error::{NotationError, Problem};
use crate::parser::{MAX_DEPTH, Parser};
use crate::tape::Item;
use crate::token::{Symbol, TokenKind};
use crate::types::is_plain;
use crate::word::Word;

impl<'m, 'a> Parser<'m, 'a> {
    /// Reads a value or a range of values (X.680 51.2, 51.4).
    fn range(&mut self, depth: usize) -> Result<(), NotationError> {
        let index = self.begin(Item::Values);
        self.value(depth)?;
        self.range_end(depth)?;
        self.close(index);
        Ok(())
    }

    /// Reads what follows the first value of a range, if it is one.
    fn range_end(&mut self, depth: usize) -> Result<(), NotationError> {
        if self.sees_symbol(Symbol::Less) {
            self.add_next(Item::Above);
            if !self.sees_symbol(Symbol::Range) {
                return Err(self.expected(Symbol::Range.quoted()));
            }
        }
        if self.accept_symbol(Symbol::Range) {
            if self.sees_symbol(Symbol::Less) {
                self.add_next(Item::Below);
            }
            self.value(depth)?;
        }
        Ok(())
    }

    /// Reads the name of a value or of a type after that of its module, or a field of a class.
    #[cycle(constraints)]
    fn dotted(&mut self, depth: usize) -> Result<(), NotationError> {
        let index = self.begin(Item::Contained);
        let inner = self.begin(Item::Reference);
        self.take();
        self.expect_symbol(Symbol::Dot)?;
        if self.sees(TokenKind::Lower) {
            self.turn_into(index, Item::Values);
            self.turn_into(inner, Item::ExternalValue);
            self.add_next(Item::ValueReference);
            self.close(inner);
            self.range_end(depth)?;
        } else {
            self.after_dot(inner)?;
            if self.sees_symbol(Symbol::OpenParenthesis) {
                self.constraint(depth)?;
            }
            self.close(inner);
        }
        self.close(index);
        Ok(())
    }

    /// Reads the name of a type whose values are meant (X.680 51.3).
    fn contained(&mut self) -> Result<(), NotationError> {
        let index = self.begin(Item::Contained);
        let name = self.expect(TokenKind::Upper, "the name of a type")?;
        if self.sees_symbol(Symbol::OpenBrace) {
            let feature = "a parameterized type as a constraint (X.683 9)";
            return Err(self.error(Problem::Unsupported(feature)));
        }
        self.add(Item::Reference, None, name);
        self.close(index);
        Ok(())
    }

    /// Goes to the end of what is in braces.
    fn skip_braces(&mut self) -> Result<(), NotationError> {
        self.expect_symbol(Symbol::OpenBrace)?;
        let mut open = 1usize;
        for _ in 0..self.left() {
            match self.kind() {
                TokenKind::Symbol(Symbol::OpenBrace) => open = open.saturating_add(1),
                TokenKind::Symbol(Symbol::CloseBrace) => open = open.saturating_sub(1),
                TokenKind::End | TokenKind::Invalid(_) => break,
                _ => {}
            }
            self.take();
            if open == 0 {
                return Ok(());
            }
        }
        Err(self.expected(Symbol::CloseBrace.quoted()))
    }

    /// Reads the value after `!`, which may be after its type (X.680 53).
    ///
    /// # Errors
    ///
    /// Returns an error at the first item that is unexpected or nested too deep.
    pub fn exception(&mut self) -> Result<(), NotationError> {
        if self.accept_symbol(Symbol::Exclamation) {
            self.value(MAX_DEPTH)?;
        }
        Ok(())
    }

    /// Reads a constraint in parentheses.
    ///
    /// # Errors
    ///
    /// Returns an error at the first item that is unexpected, unsupported, or nested too deep.
    #[cycle(constraints)]
    pub fn constraint(&mut self, depth: usize) -> Result<(), NotationError> {
        if depth == 0 {
            return Err(self.error(Problem::TooDeep));
        }
        let index = self.begin(Item::Constraint);
        self.expect_symbol(Symbol::OpenParenthesis)?;
        if self.sees_symbol(Symbol::OpenBrace) && self.sees_second_upper() {
            self.table()?;
            self.exception()?;
            self.expect_symbol(Symbol::CloseParenthesis)?;
            self.close(index);
            return Ok(());
        }
        self.union(depth - 1)?;
        self.marker(depth - 1)?;
        self.exception()?;
        self.expect_symbol(Symbol::CloseParenthesis)?;
        self.close(index);
        Ok(())
    }

    /// Reads an extension marker and the elements after it, if there is one.
    ///
    /// # Errors
    ///
    /// Returns an error at the first item that is unexpected, unsupported, or nested too deep.
    #[cycle(constraints)]
    pub fn marker(&mut self, depth: usize) -> Result<(), NotationError> {
        if !self.accept_symbol(Symbol::Comma) {
            return Ok(());
        }
        if !self.sees_symbol(Symbol::Ellipsis) {
            return Err(self.expected(Symbol::Ellipsis.quoted()));
        }
        self.add_next(Item::Ellipsis);
        if self.accept_symbol(Symbol::Comma) {
            self.union(depth)?;
        }
        Ok(())
    }

    /// Reads a union (X.680 50.1).
    ///
    /// # Errors
    ///
    /// Returns an error at the first item that is unexpected, unsupported, or nested too deep.
    #[cycle(constraints)]
    pub fn union(&mut self, depth: usize) -> Result<(), NotationError> {
        let index = self.begin(Item::Union);
        for _ in 0..self.left() {
            self.intersection(depth)?;
            if !self.accept_symbol(Symbol::Bar) && !self.accept_word(Word::Union) {
                break;
            }
        }
        self.close(index);
        Ok(())
    }

    /// Reads an intersection.
    #[cycle(constraints)]
    fn intersection(&mut self, depth: usize) -> Result<(), NotationError> {
        let index = self.begin(Item::Intersection);
        for _ in 0..self.left() {
            self.exclusion(depth)?;
            if !self.accept_symbol(Symbol::Caret) && !self.accept_word(Word::Intersection) {
                break;
            }
        }
        self.close(index);
        Ok(())
    }

    /// Reads an element, and what is excluded from it.
    #[cycle(constraints)]
    fn exclusion(&mut self, depth: usize) -> Result<(), NotationError> {
        if self.sees_word(Word::All) {
            let index = self.begin(Item::AllExcept);
            self.take();
            self.expect_word(Word::Except)?;
            self.element(depth)?;
            self.close(index);
            return Ok(());
        }
        self.element(depth)?;
        if self.sees_word(Word::Except) {
            let index = self.begin(Item::Except);
            self.take();
            self.element(depth)?;
            self.close(index);
        }
        Ok(())
    }

    /// Reads an element of a set (X.680 51.1).
    #[cycle(constraints)]
    fn element(&mut self, depth: usize) -> Result<(), NotationError> {
        if depth == 0 {
            return Err(self.error(Problem::TooDeep));
        }
        match self.kind() {
            TokenKind::Symbol(Symbol::OpenParenthesis) => {
                self.take();
                self.union(depth - 1)?;
                self.expect_symbol(Symbol::CloseParenthesis)
            }
            TokenKind::Word(Word::Size) => self.applied(Item::Size, depth - 1),
            TokenKind::Word(Word::From) => self.applied(Item::From, depth - 1),
            TokenKind::Word(Word::Pattern) => {
                let index = self.begin(Item::Pattern);
                self.take();
                self.value(depth)?;
                self.close(index);
                Ok(())
            }
            TokenKind::Word(Word::Settings) => {
                Err(self.error(Problem::Unsupported("SETTINGS (X.680 51.10)")))
            }
            TokenKind::Word(Word::Includes) => {
                self.take();
                self.contained()
            }
            TokenKind::Upper if self.sees_second_symbol(Symbol::Dot) => self.dotted(depth - 1),
            TokenKind::Upper => self.contained(),
            TokenKind::Word(Word::Constrained) => {
                self.add_next(Item::UserDefined);
                self.expect_word(Word::By)?;
                self.skip_braces()
            }
            TokenKind::Word(Word::With) => self.inner_constraint(depth - 1),
            TokenKind::Word(word) if is_plain(word) && word != Word::Null => {
                let index = self.begin(Item::Contained);
                let inner = self.one_word(word)?;
                self.close(inner);
                self.close(index);
                Ok(())
            }
            _ => self.range(depth),
        }
    }

    /// Reads a word and the constraint after it.
    ///
    /// # Errors
    ///
    /// Returns an error at the first item that is unexpected, unsupported, or nested too deep.
    #[cycle(constraints)]
    pub fn applied(&mut self, item: Item, depth: usize) -> Result<(), NotationError> {
        let index = self.begin(item);
        self.take();
        self.constraint(depth)?;
        self.close(index);
        Ok(())
    }

    /// Reads WITH COMPONENT or WITH COMPONENTS (X.680 51.8).
    #[cycle(constraints)]
    fn inner_constraint(&mut self, depth: usize) -> Result<(), NotationError> {
        if self.sees_second_word(Word::Component) {
            self.take();
            return self.applied(Item::WithComponent, depth);
        }
        let index = self.begin(Item::WithComponents);
        self.take();
        self.expect_word(Word::Components)?;
        self.expect_symbol(Symbol::OpenBrace)?;
        if self.sees_symbol(Symbol::Ellipsis) {
            self.add_next(Item::Ellipsis);
            self.expect_symbol(Symbol::Comma)?;
        }
        for _ in 0..self.left() {
            self.inner_component(depth)?;
            if !self.accept_symbol(Symbol::Comma) {
                break;
            }
        }
        self.expect_symbol(Symbol::CloseBrace)?;
        self.close(index);
        Ok(())
    }

    /// Reads what WITH COMPONENTS says of a component.
    #[cycle(constraints)]
    fn inner_component(&mut self, depth: usize) -> Result<(), NotationError> {
        let index = self.begin(Item::Inner);
        self.expect(TokenKind::Lower, "the name of a component")?;
        if self.sees_symbol(Symbol::OpenParenthesis) {
            self.constraint(depth)?;
        }
        match self.kind() {
            TokenKind::Word(word @ (Word::Present | Word::Absent | Word::Optional)) => {
                let token = self.take();
                self.add(Item::Present, Some(word), token);
            }
            _ => {}
        }
        self.close(index);
        Ok(())
    }
}

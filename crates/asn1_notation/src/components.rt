//! The components of SEQUENCE and SET, and the alternatives of CHOICE (X.680 25, 27, 29).

use crate::error::NotationError;
use crate::parser::{MAX_DEPTH, Parser};
use crate::tape::Item;
use crate::token::{Symbol, TokenKind};
use crate::word::Word;

impl<'m, 'a> Parser<'m, 'a> {
    /// Reads the components of a SEQUENCE or SET, or the alternatives of a CHOICE, in braces.
    ///
    /// # Errors
    ///
    /// Returns an error at the first item that is unexpected, unsupported, or nested too deep.
    #[cycle(types)]
    pub fn members(&mut self, is_choice: bool, depth: usize) -> Result<(), NotationError> {
        self.expect_symbol(Symbol::OpenBrace)?;
        if !is_choice && self.accept_symbol(Symbol::CloseBrace) {
            return Ok(());
        }
        let mut markers = 0usize;
        for _ in 0..self.left() {
            match self.kind() {
                TokenKind::Symbol(Symbol::Ellipsis) if markers < 2 => {
                    markers += 1;
                    self.add_next(Item::Ellipsis);
                    self.exception()?;
                }
                TokenKind::Symbol(Symbol::OpenGroup) if markers == 1 => {
                    self.group(is_choice, depth)?;
                }
                _ => self.member(is_choice, depth)?,
            }
            if !self.accept_symbol(Symbol::Comma) {
                break;
            }
        }
        self.end_of_list(Symbol::CloseBrace, "`,` or `}`")
    }

    /// Reads an addition group, which may have a number (X.680 25.1).
    #[cycle(types)]
    fn group(&mut self, is_choice: bool, depth: usize) -> Result<(), NotationError> {
        let index = self.begin(Item::Group);
        self.take();
        if self.sees(TokenKind::Number) {
            self.take();
            self.end_of_list(Symbol::Colon, "`:`")?;
        }
        for _ in 0..self.left() {
            self.member(is_choice, depth)?;
            if !self.accept_symbol(Symbol::Comma) {
                break;
            }
        }
        self.end_of_list(Symbol::CloseGroup, "`,` or `]]`")?;
        self.close(index);
        Ok(())
    }

    /// Reads a component, an alternative, or COMPONENTS OF.
    #[cycle(types)]
    fn member(&mut self, is_choice: bool, depth: usize) -> Result<(), NotationError> {
        if !is_choice && self.sees_word(Word::Components) {
            let index = self.begin(Item::ComponentsOf);
            self.take();
            self.expect_word(Word::Of)?;
            self.any_type(depth)?;
            self.close(index);
            return Ok(());
        }
        let index = self.begin(Item::Component);
        self.expect(TokenKind::Lower, "the name of a component")?;
        self.any_type(depth)?;
        if !is_choice {
            self.presence()?;
        }
        self.close(index);
        Ok(())
    }

    /// Reads OPTIONAL, or DEFAULT and its value.
    fn presence(&mut self) -> Result<(), NotationError> {
        if self.sees_word(Word::Optional) {
            self.add_next(Item::Optional);
        } else if self.accept_word(Word::Default) {
            let from = self.next().at;
            let index = self.begin(Item::Default);
            self.value(MAX_DEPTH)?;
            self.close_spanning(index, from);
        }
        Ok(())
    }
}

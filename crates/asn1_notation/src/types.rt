//! Types (X.680 17 to 48).

use crate::error::{NotationError, Problem};
use crate::parser::Parser;
use crate::tape::Item;
use crate::token::{Symbol, TokenKind};
use crate::word::Word;

/// Returns whether a word alone is a type.
pub(crate) fn is_plain(word: Word) -> bool {
    match word {
        Word::Boolean
        | Word::Null
        | Word::Real
        | Word::Time
        | Word::Date
        | Word::TimeOfDay
        | Word::DateTime
        | Word::Duration
        | Word::RelativeOid
        | Word::OidIri
        | Word::RelativeOidIri
        | Word::BmpString
        | Word::GeneralString
        | Word::GraphicString
        | Word::Ia5String
        | Word::Iso646String
        | Word::NumericString
        | Word::PrintableString
        | Word::TeletexString
        | Word::T61String
        | Word::UniversalString
        | Word::Utf8String
        | Word::VideotexString
        | Word::VisibleString
        | Word::GeneralizedTime
        | Word::UtcTime
        | Word::ObjectDescriptor => true,
        _ => false,
    }
}

impl<'m, 'a> Parser<'m, 'a> {
    /// Reads a name of a number, a bit or an enumeration, or an extension marker.
    fn name(&mut self) -> Result<(), NotationError> {
        if self.sees_symbol(Symbol::Ellipsis) {
            self.add_next(Item::Ellipsis);
            return self.exception();
        }
        let index = self.begin(Item::Name);
        self.expect(TokenKind::Lower, "a name")?;
        if self.accept_symbol(Symbol::OpenParenthesis) {
            self.value(1)?;
            self.expect_symbol(Symbol::CloseParenthesis)?;
        }
        self.close(index);
        Ok(())
    }

    /// Reads names in braces.
    fn names(&mut self) -> Result<(), NotationError> {
        self.expect_symbol(Symbol::OpenBrace)?;
        for _ in 0..self.left() {
            self.name()?;
            if !self.accept_symbol(Symbol::Comma) {
                break;
            }
        }
        self.end_of_list(Symbol::CloseBrace, "`,` or `}`")
    }

    /// Takes the symbol that ends a list.
    ///
    /// # Errors
    ///
    /// Returns an error if the next item is another.
    pub fn end_of_list(
        &mut self,
        symbol: Symbol,
        expected: &'static str,
    ) -> Result<(), NotationError> {
        if self.accept_symbol(symbol) {
            Ok(())
        } else {
            Err(self.expected(expected))
        }
    }

    /// Reads names in braces, if there are any.
    fn optional_names(&mut self) -> Result<(), NotationError> {
        if self.sees_symbol(Symbol::OpenBrace) {
            self.names()
        } else {
            Ok(())
        }
    }

    /// Begins a type of two words, of which the second one is given.
    fn two_words(&mut self, item: Item, second: Word) -> Result<usize, NotationError> {
        let index = self.begin(item);
        self.take();
        self.expect_word(second)?;
        Ok(index)
    }

    /// Begins a type that is one word.
    ///
    /// # Errors
    ///
    /// Returns an error if the word is that of no such type.
    pub fn one_word(&mut self, word: Word) -> Result<usize, NotationError> {
        if !is_plain(word) {
            return Err(self.expected("a type"));
        }
        let token = self.take();
        Ok(self.open(Item::Plain, Some(word), token))
    }

    /// Begins ANY, whose type a component may determine (X.208 27).
    fn any(&mut self) -> Result<usize, NotationError> {
        let token = self.take();
        let index = self.open(Item::Plain, Some(Word::Any), token);
        if self.accept_word(Word::Defined) {
            self.expect_word(Word::By)?;
            self.expect(TokenKind::Lower, "the name of a component")?;
        }
        Ok(index)
    }

    /// Begins EXTERNAL, EMBEDDED PDV, CHARACTER STRING or INSTANCE OF, which have an associated type. The
    /// entry inside has the index of the name of that type.
    fn associated(&mut self, word: Word) -> Result<usize, NotationError> {
        let token = self.take();
        let index = self.open(Item::Plain, Some(word), token);
        self.add(Item::ExternalName, None, token);
        match word {
            Word::Embedded => self.expect_word(Word::Pdv)?,
            Word::Character => self.expect_word(Word::String)?,
            Word::Instance => {
                self.expect_word(Word::Of)?;
                self.class_name()?;
            }
            _ => {}
        }
        Ok(index)
    }

    /// Takes the name of a class, which may be after that of its module.
    fn class_name(&mut self) -> Result<(), NotationError> {
        if self.accept_word(Word::TypeIdentifier) {
            return Ok(());
        }
        self.expect(TokenKind::Upper, "the name of a class")?;
        if self.accept_symbol(Symbol::Dot) {
            self.expect(TokenKind::Upper, "the name of a class")?;
        }
        Ok(())
    }

    /// Begins a type with no other type inside.
    fn simple_type(&mut self) -> Result<usize, NotationError> {
        match self.kind() {
            TokenKind::Word(Word::Integer) => {
                let index = self.begin(Item::Integer);
                self.take();
                self.optional_names()?;
                Ok(index)
            }
            TokenKind::Word(Word::Enumerated) => {
                let index = self.begin(Item::Enumerated);
                self.take();
                self.names()?;
                Ok(index)
            }
            TokenKind::Word(Word::Bit) => {
                let index = self.two_words(Item::BitString, Word::String)?;
                self.optional_names()?;
                Ok(index)
            }
            TokenKind::Word(Word::Octet) => self.two_words(Item::OctetString, Word::String),
            TokenKind::Word(Word::Object) => {
                self.two_words(Item::ObjectIdentifier, Word::Identifier)
            }
            TokenKind::Word(Word::Any) => self.any(),
            TokenKind::Word(Word::TypeIdentifier) => self.builtin_field(),
            TokenKind::Word(
                word @ (Word::External | Word::Embedded | Word::Character | Word::Instance),
            ) => self.associated(word),
            TokenKind::Word(word) => self.one_word(word),
            _ => Err(self.expected("a type")),
        }
    }

    /// Begins the name of a type, which may be after that of its module, or a field of a class.
    #[cycle(types)]
    fn reference(&mut self, depth: usize) -> Result<usize, NotationError> {
        let token = self.take();
        let index = self.open(Item::Reference, None, token);
        if self.accept_symbol(Symbol::Dot) {
            self.after_dot(index)?;
        }
        if self.sees_symbol(Symbol::OpenBrace) {
            self.arguments(depth)?;
        }
        Ok(index)
    }

    /// Takes the class of a tag (X.680 31.2). `None` is the class context-specific.
    fn class(&mut self) -> Option<Word> {
        match self.kind() {
            TokenKind::Word(word @ (Word::Universal | Word::Application | Word::Private)) => {
                self.take();
                Some(word)
            }
            _ => None,
        }
    }

    /// Takes EXPLICIT or IMPLICIT.
    fn tagging(&mut self) {
        if self.sees_word(Word::Implicit) {
            self.add_next(Item::Implicit);
        } else if self.sees_word(Word::Explicit) {
            self.add_next(Item::Explicit);
        }
    }

    /// Reads a type with its constraints.
    ///
    /// # Errors
    ///
    /// Returns an error at the first item that is unexpected, unsupported, or nested too deep.
    #[cycle(types)]
    pub fn any_type(&mut self, depth: usize) -> Result<(), NotationError> {
        if depth == 0 {
            return Err(self.error(Problem::TooDeep));
        }
        let index = match self.kind() {
            TokenKind::Symbol(Symbol::OpenBracket) => self.tagged(depth - 1)?,
            TokenKind::Word(Word::Choice) => {
                let index = self.begin(Item::Choice);
                self.take();
                self.members(true, depth - 1)?;
                index
            }
            TokenKind::Word(Word::Sequence) => {
                self.collection(Item::Sequence, Item::SequenceOf, depth - 1)?
            }
            TokenKind::Word(Word::Set) => self.collection(Item::Set, Item::SetOf, depth - 1)?,
            TokenKind::Lower if self.sees_second_symbol(Symbol::Dot) => {
                let name = self.take();
                self.fields_of_object(Item::TypeFromObject, name)?
            }
            TokenKind::Lower => {
                let index = self.begin(Item::Selection);
                self.take();
                self.expect_symbol(Symbol::Less)?;
                self.any_type(depth - 1)?;
                index
            }
            TokenKind::Upper => self.reference(depth - 1)?,
            _ => self.simple_type()?,
        };
        for _ in 0..self.left() {
            if !self.sees_symbol(Symbol::OpenParenthesis) {
                break;
            }
            self.type_constraint(depth - 1)?;
        }
        self.close(index);
        Ok(())
    }

    /// Begins a type with a tag.
    #[cycle(types)]
    fn tagged(&mut self, depth: usize) -> Result<usize, NotationError> {
        let token = self.next();
        self.expect_symbol(Symbol::OpenBracket)?;
        let class = self.class();
        let index = self.open(Item::Tagged, class, token);
        self.value(1)?;
        self.expect_symbol(Symbol::CloseBracket)?;
        self.tagging();
        self.any_type(depth)?;
        Ok(index)
    }

    /// Begins a SEQUENCE or SET of components or of items.
    #[cycle(types)]
    fn collection(&mut self, one: Item, many: Item, depth: usize) -> Result<usize, NotationError> {
        if self.sees_second_symbol(Symbol::OpenBrace) {
            let index = self.begin(one);
            self.take();
            self.members(false, depth)?;
            return Ok(index);
        }
        let index = self.begin(many);
        self.take();
        if !self.sees_word(Word::Of) {
            self.size(depth)?;
        }
        self.expect_word(Word::Of)?;
        if self.sees(TokenKind::Lower) && !self.sees_second_symbol(Symbol::Less) {
            self.take();
        }
        self.any_type(depth)?;
        Ok(index)
    }

    /// Reads `SIZE (..)`, or a constraint in parentheses, before OF.
    fn size(&mut self, depth: usize) -> Result<(), NotationError> {
        if self.sees_symbol(Symbol::OpenParenthesis) {
            return self.constraint(depth);
        }
        if !self.sees_word(Word::Size) {
            return Err(self.expected("`{`, `SIZE`, `(` or `OF`"));
        }
        let index = self.begin(Item::Constraint);
        let union = self.begin(Item::Union);
        let intersection = self.begin(Item::Intersection);
        self.applied(Item::Size, depth)?;
        self.close(intersection);
        self.close(union);
        self.close(index);
        Ok(())
    }

    /// Reads a constraint after a type, which may name the type of its contents (X.682 11).
    #[cycle(types)]
    fn type_constraint(&mut self, depth: usize) -> Result<(), NotationError> {
        if self.sees_second_word(Word::Encoded) {
            self.take();
            return Err(self.error(Problem::Unsupported("ENCODED BY (X.682 11)")));
        }
        if !self.sees_second_word(Word::Containing) {
            return self.constraint(depth);
        }
        let index = self.begin(Item::Containing);
        self.take();
        self.take();
        self.any_type(depth)?;
        if self.accept_word(Word::Encoded) {
            self.expect_word(Word::By)?;
            self.value(depth)?;
        }
        self.expect_symbol(Symbol::CloseParenthesis)?;
        self.close(index);
        Ok(())
    }
}

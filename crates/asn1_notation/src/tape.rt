//! Entries: what a text says, in the order of the text. Each entry is followed by those inside it.

use crate::word::Word;

/// What an entry is. The comments have the entries inside it in braces.
#[derive(Clone, Copy, PartialEq, Eq)]
pub enum Item {
    /// A module. Its word is the default of its tags. { maybe ExtensibilityImplied, maybe Exports,
    /// Imports.., definitions }
    Module,
    /// EXTENSIBILITY IMPLIED.
    ExtensibilityImplied,
    /// The names that other modules can import. A module that exports all has none. { Export.. }
    Exports,
    /// A name that is exported.
    Export,
    /// Names that are imported from one module. { Import.., ImportModule }
    Imports,
    /// A name that is imported.
    Import,
    /// The module that names are imported from.
    ImportModule,
    /// { maybe Parameters, type or Class }
    TypeDefinition,
    /// A value or an object. { maybe Parameters, type, value or Braces }
    ValueDefinition,
    /// A set of objects (X.681 12). A set of values (X.680 16.6) is a `TypeDefinition` of its type with a
    /// constraint. { maybe Parameters, type, Braces }
    SetDefinition,
    /// The parameters of a definition (X.683 8.3). { Parameter.. }
    Parameters,
    /// A parameter. { maybe type }
    Parameter,
    /// The type and the value of a definition with an error.
    Broken,

    /// CLASS (X.681 9.3), or TYPE-IDENTIFIER by its word. { Field.., maybe Syntax }
    Class,
    /// A field, named without its `&`. { maybe type, maybe Unique, maybe Optional or Default }
    Field,
    /// UNIQUE.
    Unique,
    /// WITH SYNTAX. { Literal, FieldName, Comma, OpenOptional, CloseOptional .. }
    Syntax,
    /// A word of capitals in WITH SYNTAX or in the definition of an object. There it may also name a
    /// type. In a set of objects also `^`.
    Literal,
    /// The name of a field, without its `&`.
    FieldName,
    /// `[` in WITH SYNTAX.
    OpenOptional,
    /// `]` in WITH SYNTAX.
    CloseOptional,
    /// `|` in braces.
    Bar,

    /// A type whose word says what it is. { maybe ExternalName, Constraint.. }: each type has its
    /// constraints inside. EXTERNAL, EMBEDDED PDV, CHARACTER STRING and INSTANCE OF have an ExternalName.
    Plain,
    /// OCTET STRING.
    OctetString,
    /// OBJECT IDENTIFIER.
    ObjectIdentifier,
    /// { Name.. }
    Integer,
    /// { Name.. }
    BitString,
    /// { Name.., maybe Ellipsis, Name.. }
    Enumerated,
    /// { Component, ComponentsOf, Ellipsis, Group .. }
    Sequence,
    /// { Component, ComponentsOf, Ellipsis, Group .. }
    Set,
    /// { Component, Ellipsis, Group .. }
    Choice,
    /// { maybe Constraint, type }
    SequenceOf,
    /// { maybe Constraint, type }
    SetOf,
    /// A type with a tag, whose class is the word. { value, maybe Explicit or Implicit, type }
    Tagged,
    /// The name of a type. { maybe Arguments, Constraint.. }
    Reference,
    /// `Module.Type`, named by the module. { ExternalName, maybe Arguments, Constraint.. }
    ExternalReference,
    /// `CLASS.&field`, named by the class or its module (X.681 14.1), or of TYPE-IDENTIFIER by its word: each
    /// further field is one of the class of the field before it. { maybe ExternalName, FieldName..,
    /// Constraint.. }
    FieldType,
    /// A type that a field of an object is, named by the object (X.681 15). { FieldName.., Constraint.. }
    TypeFromObject,
    /// The arguments of a type (X.683 9.5). { type, value or Braces .. }
    Arguments,
    /// The name of a type after that of its module.
    ExternalName,
    /// `name < Type`. { type }
    Selection,

    /// EXPLICIT.
    Explicit,
    /// IMPLICIT.
    Implicit,
    /// A name of a number, a bit or an enumeration. { maybe value }
    Name,
    /// A component or an alternative. { type, maybe Optional or Default }
    Component,
    /// OPTIONAL.
    Optional,
    /// DEFAULT. Its span is the text of the value. { value }
    Default,
    /// COMPONENTS OF. { type }
    ComponentsOf,
    /// `...`
    Ellipsis,
    /// `[[ .. ]]`. { Component, ComponentsOf .. }
    Group,

    /// A value that is a word.
    WordValue,
    /// A number from 0 on.
    Number,
    /// A number below 0. Its span is its digits.
    Negative,
    /// A number with a fraction or an exponent of ten, and its sign.
    Real,
    /// A string of characters.
    Text,
    /// A string of bits.
    Bits,
    /// A string of octets.
    Hex,
    /// The name of a value.
    ValueReference,
    /// `Module.value`, named by the module. { ValueReference }
    ExternalValue,
    /// A value, an object or a set that a field of an object is, named by the object (X.681 15).
    /// { FieldName.. }
    FromObject,
    /// `name : value`, or `Type : value`. { value }
    Alternative,
    /// `{ .. }`. { values, PieceName, Comma .. }, and in an object or a set of objects also { types,
    /// Literal, FieldName, Bar, Ellipsis .. }
    Braces,
    /// A name in braces. { maybe value }
    PieceName,
    /// A comma in braces.
    Comma,

    /// A constraint in parentheses. { Union, maybe Ellipsis, maybe Union } or { Table }
    Constraint,
    /// A table constraint (X.682 10). { Reference or ExternalReference, At.. }
    Table,
    /// `@` and the path of a component. { Level.., PieceName.. }
    At,
    /// A dot after `@`.
    Level,
    /// { Intersection.. }, or in a set of objects the parts in parentheses, as in braces.
    Union,
    /// { elements, each maybe followed by Except }
    Intersection,
    /// EXCEPT. { element }
    Except,
    /// ALL EXCEPT. { element }
    AllExcept,
    /// A value, or a range of values. { value } or { value, maybe Above, maybe Below, value }
    Values,
    /// `<` after the lower end.
    Above,
    /// `<` before the upper end.
    Below,
    /// SIZE. { Constraint }
    Size,
    /// FROM. { Constraint }
    From,
    /// A type whose values are meant. { type }
    Contained,
    /// WITH COMPONENT. { Constraint }
    WithComponent,
    /// WITH COMPONENTS. { maybe Ellipsis, Inner .. }
    WithComponents,
    /// What WITH COMPONENTS says of a component. { maybe Constraint, maybe Present }
    Inner,
    /// PRESENT, ABSENT or OPTIONAL, by its word.
    Present,
    /// PATTERN. { value }
    Pattern,
    /// CONSTRAINED BY.
    UserDefined,
    /// CONTAINING. { type, maybe value }
    Containing,
}

/// An entry. The entries inside it follow it.
#[derive(Clone, Copy, PartialEq, Eq)]
pub struct Entry {
    /// What it is.
    pub item: Item,
    /// Its reserved word, if it has one.
    pub word: Option<Word>,
    /// The index of the first octet of its name or of its own text.
    pub from: u32,
    /// How many octets its name or its own text has.
    pub count: u32,
    /// The index of the entry after all entries inside it.
    pub end: u32,
    /// A number for those who read the entries. The parser sets it to 0.
    pub link: u32,
}

/// An empty entry, to fill room with.
pub const NO_ENTRY: Entry = Entry {
    item: Item::Comma,
    word: None,
    from: 0,
    count: 0,
    end: 0,
    link: 0,
};

/// Returns a number in 32 bits, or `u32::MAX` if it does not fit.
pub fn narrow(number: usize) -> u32 {
    u32::try_from(number).unwrap_or(u32::MAX)
}

/// Returns a number as an index.
pub fn wide(number: u32) -> usize {
    number as usize
}

impl Item {
    /// Returns whether an entry is a type.
    #[inline(always)]
    pub fn is_type(self) -> bool {
        match self {
            Item::Plain
            | Item::OctetString
            | Item::ObjectIdentifier
            | Item::Integer
            | Item::BitString
            | Item::Enumerated
            | Item::Sequence
            | Item::Set
            | Item::Choice
            | Item::SequenceOf
            | Item::SetOf
            | Item::Tagged
            | Item::Reference
            | Item::ExternalReference
            | Item::FieldType
            | Item::TypeFromObject
            | Item::Class
            | Item::Broken
            | Item::Selection => true,
            _ => false,
        }
    }

    /// Returns whether an entry is a value.
    pub fn is_value(self) -> bool {
        match self {
            Item::WordValue
            | Item::Number
            | Item::Negative
            | Item::Real
            | Item::Text
            | Item::Bits
            | Item::Hex
            | Item::ValueReference
            | Item::ExternalValue
            | Item::FromObject
            | Item::Alternative
            | Item::Broken
            | Item::Braces => true,
            _ => false,
        }
    }

    /// Returns whether an entry is a definition.
    #[inline(always)]
    pub fn is_definition(self) -> bool {
        match self {
            Item::TypeDefinition | Item::ValueDefinition | Item::SetDefinition => true,
            _ => false,
        }
    }
}

//! The problems of a text, and where they are.

use thiserror::Error;

/// A problem of a text.
#[derive(Clone, Copy, Debug, PartialEq, Eq, Error)]
pub enum Problem {
    /// The text has 2^32 - 1 octets or more.
    #[error("the text is longer than 4,294,967,294 octets")]
    TooLong,
    /// A character begins no item.
    #[error("invalid character")]
    Character,
    /// A string has no closing quote.
    #[error("the string has no closing quote")]
    OpenString,
    /// A comment has no end.
    #[error("the comment has no end")]
    OpenComment,
    /// A string in single quotes is followed by neither B nor H (X.680 12.10, 12.12).
    #[error("the string in single quotes must be followed by `B` or `H`")]
    QuotedSuffix,
    /// A number of two digits or more begins with 0 (X.680 12.8).
    #[error("the number begins with 0")]
    LeadingZero,
    /// Another item was expected.
    #[error("expected {0}")]
    Expected(&'static str),
    /// Types, values or constraints are nested too deep.
    #[error("nested deeper than 100 levels")]
    TooDeep,
    /// The names of the text lead to too much work, as with a `COMPONENTS OF` that doubles at each
    /// step.
    #[error("the definitions expand to too many components")]
    TooMuchWork,
    /// A number exceeds what the tables can hold.
    #[error("the number is too large")]
    TooLarge,
    /// A name has no definition.
    #[error("the name is not defined")]
    Undefined,
    /// An imported name comes from a module that the text does not have.
    #[error("the text does not have this module")]
    UnknownModule,
    /// An imported name is none of those after EXPORTS of its module (X.680 13.8).
    #[error("the module does not export this name")]
    NotExported,
    /// A name is defined twice.
    #[error("the name is already in use")]
    Duplicate,
    /// A number is in use for another name.
    #[error("the number is already in use")]
    DuplicateNumber,
    /// The numbers of the values after an extension marker do not ascend (X.680 20.4).
    #[error("the number is not greater than those of the additions before it")]
    NotAscending,
    /// A definition leads back to itself with no component between.
    #[error("the definition contains itself")]
    Circular,
    /// Components or alternatives that must have distinct tags have equal ones (X.680 25.6, 27.3,
    /// 29.3).
    #[error("the tag equals that of another component")]
    EqualTags,
    /// The name is that of a definition of another kind.
    #[error("the name must be that of {0}")]
    NotA(&'static str),
    /// A constraint permits no value.
    #[error("the constraint permits no value")]
    Empty,
    /// A type has more or fewer arguments than its definition has parameters (X.683 9.5).
    #[error("the number of arguments is not that of the parameters")]
    Arguments,
    /// The name is that of a definition with an error, which is reported on its own.
    #[error("the definition of the name has an error")]
    Consequence,
    /// The notation is correct and not supported.
    #[error("{0} is not supported")]
    Unsupported(&'static str),
}

/// A problem, and the index of the octet of the text where it is.
#[derive(Clone, Copy, Debug, PartialEq, Eq, Error)]
#[error("octet {at}: {problem}")]
pub struct NotationError {
    /// The problem.
    pub problem: Problem,
    /// The index of the octet.
    pub at: usize,
}

/// Returns an error with a problem and the index of its octet in the text.
pub fn error_at(problem: Problem, at: usize) -> NotationError {
    NotationError { problem, at }
}

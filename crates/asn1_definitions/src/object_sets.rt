//! The objects of sets of objects (X.681 12).

use crate::instances::PARAMETERIZED;
use crate::scope::{Place, Scope};
use asn1_notation::{Item, NotationError, Problem, Word, wide};

/// How deep sets of objects may be nested.
const MAX_SETS: usize = 32;

/// How many objects and parts of sets the objects of one set may lead to.
const MAX_WORK: usize = 1 << 16;

/// How many sets may decide, one inside another, which objects of a set are left.
const MAX_RESTRICTIONS: usize = 32;

/// A part of a set of objects: an element, and then others that restrict it.
#[derive(Clone, Copy)]
struct Term {
    /// The first element.
    first: Place,
    /// The index after the last one.
    end: usize,
}

/// The parts of a set of objects, one after another.
#[derive(Clone, Copy)]
struct Terms {
    /// The braces, or the parentheses.
    set: Place,
    /// The index of the next entry.
    at: usize,
    /// The part that was returned last.
    last: Option<Term>,
}

/// The objects of a set, one after another. An object that is in several of its parts is returned several times.
#[derive(Clone, Copy)]
pub struct Objects {
    sets: [Option<Terms>; MAX_SETS],
    depth: usize,
}

/// How many objects and parts of sets may still be examined.
#[derive(Drop)]
struct Work {
    left: usize,
}

/// Returns whether an entry is between two parts of a set.
fn is_separator(item: Item) -> bool {
    match item {
        Item::Comma | Item::Bar | Item::Ellipsis => true,
        _ => false,
    }
}

impl Terms {
    fn new(set: Place) -> Terms {
        Terms {
            set,
            at: set.index.saturating_add(1),
            last: None,
        }
    }

    /// Returns the next part. `None` if there is none.
    fn next(&mut self, scope: Scope<'_>) -> Option<Term> {
        let end = wide(scope.entry(self.set.index).end);
        let mut first = None;
        for _ in 0..scope.most() {
            if end <= self.at {
                break;
            }
            let entry = scope.entry(self.at);
            if is_separator(entry.item) && first.is_some() {
                break;
            }
            if !is_separator(entry.item) && first.is_none() {
                first = Some(Place {
                    index: self.at,
                    ..self.set
                });
            }
            self.at = wide(entry.end);
        }
        let term = Term {
            first: first?,
            end: self.at,
        };
        self.last = Some(term);
        Some(term)
    }
}

impl Term {
    /// Returns the element after the operator at an index, the operator's sense, and the index after the element.
    /// `None` at the end of the part.
    fn restriction(
        self,
        scope: Scope<'_>,
        at: usize,
    ) -> Result<Option<(bool, Place, usize)>, NotationError> {
        if self.end <= at {
            return Ok(None);
        }
        let operator = Place {
            index: at,
            ..self.first
        };
        let is_except = match scope.text_of(scope.entry(at)) {
            b"EXCEPT" => true,
            b"INTERSECTION" | b"^" => false,
            _ if scope.item(operator) == Item::Braces => {
                return Err(scope.error(Problem::Unsupported(PARAMETERIZED), self.first));
            }
            _ => return Err(scope.error(Problem::Expected("`|`, `^`, EXCEPT or `}`"), operator)),
        };
        let index = wide(scope.entry(at).end);
        if self.end <= index {
            return Err(scope.error(Problem::Expected("`|`, `}`, an object or a set"), operator));
        }
        let element = Place { index, ..operator };
        Ok(Some((is_except, element, wide(scope.entry(index).end))))
    }
}

/// What an element of a set is.
enum Element {
    /// An object: its braces.
    Object(Place),
    /// A set: its braces or parentheses.
    Set(Place),
    /// All objects, from which EXCEPT then takes some (X.681 12.3).
    All,
}

/// Returns whether the last field of an object is a set: its name begins with a capital (X.681 9.2).
fn is_set_of_object(scope: Scope<'_>, place: Place) -> bool {
    let mut inside = scope.inside(place);
    let mut is_set = false;
    for _ in 0..scope.most() {
        let Some(index) = inside.next(scope.tape) else {
            break;
        };
        let name = scope.text_of(scope.entry(index));
        is_set = name.first().is_some_and(|octet| octet.is_ascii_uppercase());
    }
    is_set
}

/// Returns what an element of a set that is a reserved word is: ALL, before EXCEPT.
fn all_objects(scope: Scope<'_>, place: Place) -> Result<Element, NotationError> {
    let entry = scope.entry(place.index);
    let after = scope.entry(wide(entry.end));
    let (word, next) = (
        Word::of_text(scope.text_of(entry)),
        Word::of_text(scope.text_of(after)),
    );
    match (word, next) {
        (Some(Word::All), Some(Word::Except)) => Ok(Element::All),
        _ => Err(scope.error(Problem::Expected("an object, a set or ALL EXCEPT"), place)),
    }
}

/// Returns what an element of a set is, through names.
fn element_of(scope: Scope<'_>, place: Place) -> Result<Element, NotationError> {
    match scope.item(place) {
        Item::Union => Ok(Element::Set(place)),
        Item::FromObject if is_set_of_object(scope, place) => {
            Ok(Element::Set(scope.braces_of(place)?))
        }
        Item::Braces | Item::PieceName | Item::FromObject => {
            Ok(Element::Object(scope.braces_of(place)?))
        }
        Item::Literal if Word::of_text(scope.text_of(scope.entry(place.index))).is_some() => {
            all_objects(scope, place)
        }
        Item::Literal | Item::Reference | Item::ExternalReference => {
            Ok(Element::Set(scope.braces_of(place)?))
        }
        Item::FieldType => {
            let feature = "a set of objects from a set of objects (X.681 15)";
            Err(scope.error(Problem::Unsupported(feature), place))
        }
        _ => Err(scope.error(Problem::Expected("an object or a set"), place)),
    }
}

impl Objects {
    /// Returns the objects of a set, from the first one on, by the set's name or its braces.
    ///
    /// # Errors
    ///
    /// Returns the errors of [`Scope::braces_of`].
    pub fn new(scope: Scope<'_>, set: Place) -> Result<Objects, NotationError> {
        let mut objects = Objects {
            sets: [None; MAX_SETS],
            depth: 0,
        };
        objects.enter(scope, scope.braces_of(set)?, set)?;
        Ok(objects)
    }

    /// Goes into a set that an element names.
    fn enter(&mut self, scope: Scope<'_>, set: Place, element: Place) -> Result<(), NotationError> {
        let around = self.sets.get(..self.depth).unwrap_or(&[]);
        if around
            .iter()
            .any(|terms| terms.is_some_and(|terms| terms.set == set))
        {
            return Err(scope.error(Problem::Circular, element));
        }
        let Some(room) = self.sets.get_mut(self.depth) else {
            let feature = "a set of objects nested deeper than 32 sets (X.681 12)";
            return Err(scope.error(Problem::Unsupported(feature), element));
        };
        *room = Some(Terms::new(set));
        self.depth = self.depth.saturating_add(1);
        Ok(())
    }

    /// Returns the next part of the innermost set. `None` if it has no other part: then that set is left.
    fn next_term(&mut self, scope: Scope<'_>) -> Option<Term> {
        let last = self.depth.saturating_sub(1);
        let term = match self.sets.get_mut(last) {
            Some(Some(terms)) => terms.next(scope),
            _ => None,
        };
        if term.is_none() {
            self.depth = last;
        }
        term
    }

    /// Returns the braces of the next object. `None` if there is none.
    ///
    /// # Errors
    ///
    /// Returns [`Problem::TooMuchWork`] if the set has too many parts, [`Problem::Expected`] if a part is no
    /// object or set, [`Problem::Unsupported`] if a part is not supported, the error of a name on the way, or
    /// [`Problem::Circular`] if a set contains itself.
    pub fn next(&mut self, scope: Scope<'_>) -> Result<Option<Place>, NotationError> {
        let mut work = Work { left: MAX_WORK };
        self.next_object(scope, None, &mut work, MAX_RESTRICTIONS)
    }

    /// Returns the next object that the restrictions of the parts around it leave. ALL has the object that is
    /// looked for.
    #[cycle(objects)]
    fn next_object(
        &mut self,
        scope: Scope<'_>,
        wanted: Option<Place>,
        work: &mut Work,
        steps: usize,
    ) -> Result<Option<Place>, NotationError> {
        for _ in 0..MAX_WORK {
            if self.depth == 0 {
                break;
            }
            let Some(term) = self.next_term(scope) else {
                continue;
            };
            if work.left == 0 {
                return Err(scope.error(Problem::TooMuchWork, term.first));
            }
            work.left -= 1;
            let object = match element_of(scope, term.first)? {
                Element::Set(set) => {
                    self.enter(scope, set, term.first)?;
                    None
                }
                Element::Object(object) => Some(object),
                Element::All if wanted.is_none() => {
                    let feature = "ALL EXCEPT that is not after `^` or EXCEPT (X.681 12.3)";
                    return Err(scope.error(Problem::Unsupported(feature), term.first));
                }
                Element::All => wanted,
            };
            if let Some(object) = object
                && self.leaves(scope, object, work, steps)?
            {
                return Ok(Some(object));
            }
        }
        Ok(None)
    }

    /// Returns whether the restrictions of the parts around an object leave it.
    #[cycle(objects)]
    fn leaves(
        &self,
        scope: Scope<'_>,
        object: Place,
        work: &mut Work,
        steps: usize,
    ) -> Result<bool, NotationError> {
        for terms in self.sets.get(..self.depth).unwrap_or(&[]) {
            let Some(term) = terms.and_then(|terms| terms.last) else {
                continue;
            };
            let mut at = wide(scope.entry(term.first.index).end);
            for _ in 0..scope.most() {
                let Some((is_except, element, after)) = term.restriction(scope, at)? else {
                    break;
                };
                if Objects::has(scope, element, object, work, steps)? == is_except {
                    return Ok(false);
                }
                at = after;
            }
        }
        Ok(true)
    }

    /// Returns whether an element is an object, or a set that has it.
    #[cycle(objects)]
    fn has(
        scope: Scope<'_>,
        element: Place,
        object: Place,
        work: &mut Work,
        steps: usize,
    ) -> Result<bool, NotationError> {
        if steps == 0 {
            return Err(scope.error(Problem::Circular, element));
        }
        let set = match element_of(scope, element)? {
            Element::Object(found) => return Ok(found == object),
            Element::Set(set) => set,
            Element::All => {
                return Err(scope.error(Problem::Expected("`(` before ALL EXCEPT"), element));
            }
        };
        let mut objects = Objects {
            sets: [None; MAX_SETS],
            depth: 0,
        };
        objects.enter(scope, set, element)?;
        for _ in 0..MAX_WORK {
            match objects.next_object(scope, Some(object), work, steps - 1)? {
                Some(found) if found == object => return Ok(true),
                Some(_) => {}
                None => break,
            }
        }
        Ok(false)
    }
}

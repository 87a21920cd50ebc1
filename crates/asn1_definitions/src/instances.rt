//! The instances of parameterized types and sets of objects (X.683): each use of one, with its arguments.

use crate::scope::{Place, Scope};
use asn1_notation::{Entry, Item, NotationError, Problem, Sink, error_at, wide};

/// The most instances that the types of a text may have.
pub const MAX_INSTANCES: usize = 1 << 14;

/// How deep the uses of parameterized types may be nested.
const MAX_NESTING: usize = 100;

/// A use of a parameterized type or set of objects. The first instance is the text itself, without its parameterized
/// types.
#[derive(Clone, Copy, Debug, PartialEq, Eq)]
pub struct Instance {
    /// The definition of the type.
    pub definition: Place,
    /// Its arguments.
    pub arguments: Place,
    /// The first node of its types.
    pub first_node: usize,
    /// The first instance of the types that are used in it.
    pub first_inner: usize,
}

/// The name of the unsupported parameterized definitions, for errors.
pub const PARAMETERIZED: &str =
    "a parameterized object, or a set whose name has no small letter (X.683 8.2)";

const TEXT: Place = Place {
    module: 0,
    index: 0,
    instance: 0,
};

/// The instance that is the text itself.
pub const NO_INSTANCE: Instance = Instance {
    definition: TEXT,
    arguments: TEXT,
    first_node: 0,
    first_inner: 1,
};

/// The entries of an instance, one after another.
#[derive(Clone, Copy)]
pub struct Walk {
    place: Place,
    end: usize,
}

impl Walk {
    /// Returns the next entry. `None` if there is none.
    ///
    /// In the text itself it skips the entries inside parameterized definitions, which belong to their instances.
    pub fn next(&mut self, scope: Scope<'_>) -> Option<Place> {
        if self.end <= self.place.index {
            return None;
        }
        let entry = scope.entry(self.place.index);
        if entry.item == Item::Module {
            self.place.module = self.place.index;
        }
        let found = self.place;
        self.place.index = self.place.index.saturating_add(1);
        if found.instance == 0
            && entry.item.is_definition()
            && end_of_parameters(scope.tape, found.index).is_some()
        {
            self.place.index = wide(entry.end).max(self.place.index);
        }
        Some(found)
    }

    /// Skips the entries inside one that was returned.
    pub fn skip_inside(&mut self, scope: Scope<'_>, place: Place) {
        let end = wide(scope.entry(place.index).end);
        self.place.index = self.place.index.max(end);
    }
}

/// Returns the end of the parameters of a definition. `None` if it has none.
fn end_of_parameters(tape: &[Entry], definition: usize) -> Option<usize> {
    let parameters = tape.get(definition.checked_add(1)?)?;
    if parameters.item == Item::Parameters {
        Some(wide(parameters.end))
    } else {
        None
    }
}

impl<'r> Scope<'r> {
    /// Returns the instance at an index, or the text itself if there is none.
    pub fn instance(self, index: usize) -> Instance {
        match self.instances.get(index) {
            Some(instance) => *instance,
            None => NO_INSTANCE,
        }
    }

    /// Returns whether a definition has parameters.
    pub fn is_parameterized(self, definition: Place) -> bool {
        self.item(definition).is_definition()
            && end_of_parameters(self.tape, definition.index).is_some()
    }

    /// Returns the entries of an instance.
    pub fn walk(self, index: usize) -> Walk {
        if index == 0 {
            return Walk {
                place: TEXT,
                end: self.most(),
            };
        }
        let definition = self.instance(index).definition;
        let from = end_of_parameters(self.tape, definition.index).unwrap_or(definition.index);
        Walk {
            place: Place {
                index: from,
                instance: index,
                ..definition
            },
            end: wide(self.entry(definition.index).end),
        }
    }

    /// Returns a definition in the instance that a name with arguments is.
    pub(crate) fn instantiated(
        self,
        name: Place,
        definition: Place,
    ) -> Result<Place, NotationError> {
        let is_parameterized = self.is_parameterized(definition);
        if self.item(self.type_in(definition)) == Item::Broken {
            return Ok(definition);
        }
        match self.find_in(name, Item::Arguments) {
            None if is_parameterized && self.item(name) == Item::Literal => {
                Err(self.error(Problem::Unsupported(PARAMETERIZED), name))
            }
            None if is_parameterized => Err(self.error(Problem::Arguments, name)),
            None => Ok(definition),
            Some(_) if !is_parameterized => Err(self.error(Problem::Arguments, name)),
            Some(arguments) => {
                let number = wide(self.entry(arguments.index).link).saturating_sub(1);
                let first = self.instance(name.instance).first_inner;
                let instance = first.saturating_add(number);
                Ok(Place {
                    instance,
                    ..definition
                })
            }
        }
    }

    /// Returns the parameter with a name, and its argument. `None` if the name is not that of a parameter.
    pub fn argument(self, name: Place) -> Option<(Place, Place)> {
        if name.instance == 0 {
            return None;
        }
        let entry = self.entry(name.index);
        let instance = self.instance(name.instance);
        let mut parameters = self.inside(Place {
            index: instance.definition.index.checked_add(1)?,
            ..name
        });
        let mut arguments = self.inside(instance.arguments);
        for _ in 0..self.most() {
            let parameter = parameters.next(self.tape)?;
            let argument = arguments.next(self.tape)?;
            if self.is_same(self.entry(parameter), entry) {
                let parameter = Place {
                    index: parameter,
                    ..name
                };
                let argument = Place {
                    index: argument,
                    ..instance.arguments
                };
                return Some((parameter, argument));
            }
        }
        None
    }

    /// Returns how many entries are inside another.
    fn count_in(self, place: Place) -> usize {
        let mut inside = self.inside(place);
        let mut count = 0usize;
        for _ in 0..self.most() {
            if inside.next(self.tape).is_none() {
                break;
            }
            count = count.saturating_add(1);
        }
        count
    }

    /// Returns the instance that a name with arguments is, without its nodes and inner instances.
    fn new_instance(self, name: Place, arguments: Place) -> Result<Instance, NotationError> {
        let definition = self.definition(name)?;
        if self.item(self.type_in(definition)) == Item::Broken {
            return Err(self.error(Problem::Consequence, name));
        }
        if !self.is_parameterized(definition) {
            return Err(self.error(Problem::Arguments, name));
        }
        if self.item(definition) == Item::ValueDefinition {
            return Err(self.error(Problem::Unsupported(PARAMETERIZED), name));
        }
        let parameters = Place {
            index: definition.index.saturating_add(1),
            ..definition
        };
        if self.count_in(parameters) != self.count_in(arguments) {
            return Err(self.error(Problem::Arguments, name));
        }
        let mut outer = name.instance;
        for _ in 0..MAX_NESTING {
            if outer == 0 {
                return Ok(Instance {
                    definition,
                    arguments,
                    ..NO_INSTANCE
                });
            }
            let instance = self.instance(outer);
            if instance.definition == definition {
                let feature = "a parameterized type or set inside itself (X.683 9)";
                return Err(self.error(Problem::Unsupported(feature), name));
            }
            outer = instance.arguments.instance;
        }
        Err(self.error(Problem::TooDeep, name))
    }
}

/// Returns the next name with arguments of an instance, and its arguments. `None` if there is none.
fn next_use(scope: Scope<'_>, walk: &mut Walk) -> Option<(Place, Place)> {
    for _ in 0..scope.most() {
        let place = walk.next(scope)?;
        match scope.item(place) {
            Item::Reference | Item::ExternalReference => {
                if let Some(arguments) = scope.find_in(place, Item::Arguments) {
                    return Some((place, arguments));
                }
            }
            _ => {}
        }
    }
    None
}

/// Numbers the arguments in each parameterized definition and in the text without them, from 1 on, in
/// their links.
fn number_arguments(tape: &mut [Entry]) {
    let mut in_text = 0u32;
    let mut in_type = 0u32;
    let mut type_end = 0usize;
    for index in 0..tape.len() {
        let parameters_end = end_of_parameters(tape, index);
        let Some(entry) = tape.get_mut(index) else {
            break;
        };
        if entry.item.is_definition() && parameters_end.is_some() {
            in_type = 0;
            type_end = wide(entry.end);
        }
        if entry.item != Item::Arguments {
            continue;
        }
        if index < type_end {
            in_type = in_type.saturating_add(1);
            entry.link = in_type;
        } else {
            in_text = in_text.saturating_add(1);
            entry.link = in_text;
        }
    }
}

/// Finds the instances of the parameterized types of a text: first the text itself, and then those that each
/// instance uses, in the order of the text.
///
/// If `instances` has too little room, it has the first ones, and counts only those that they use.
///
/// # Errors
///
/// Returns the first error of a use of a parameterized type: the error of its name, [`Problem::Consequence`] if its
/// definition has an error, [`Problem::Arguments`] if it has more or fewer arguments than parameters,
/// [`Problem::Unsupported`] for a use that is not supported, [`Problem::TooDeep`] if uses are nested too deep, or
/// [`Problem::TooMuchWork`] if there would be more than [`MAX_INSTANCES`].
pub fn find_instances(
    text: &[u8],
    tape: &mut [Entry],
    lists: &[u32],
    instances: &mut Sink<'_, Instance>,
) -> Result<(), NotationError> {
    number_arguments(tape);
    instances.push(NO_INSTANCE);
    for index in 0..MAX_INSTANCES {
        if instances.rows().len() <= index {
            break;
        }
        let first_inner = instances.count();
        if let Some(instance) = instances.get(index) {
            instances.set(
                index,
                Instance {
                    first_inner,
                    ..instance
                },
            );
        }
        find_inner(text, tape, lists, instances, index)?;
    }
    Ok(())
}

/// Appends the instances that an instance uses.
fn find_inner(
    text: &[u8],
    tape: &[Entry],
    lists: &[u32],
    instances: &mut Sink<'_, Instance>,
    index: usize,
) -> Result<(), NotationError> {
    let scope = Scope {
        text,
        tape,
        lists,
        instances: instances.rows(),
    };
    let mut walk = scope.walk(index);
    for _ in 0..tape.len() {
        let scope = Scope {
            text,
            tape,
            lists,
            instances: instances.rows(),
        };
        let Some((name, arguments)) = next_use(scope, &mut walk) else {
            break;
        };
        let instance = scope.new_instance(name, arguments)?;
        if MAX_INSTANCES <= instances.count() {
            let at = wide(scope.entry(name.index).from);
            return Err(error_at(Problem::TooMuchWork, at));
        }
        instances.push(instance);
    }
    Ok(())
}

/// Sets the first node of each instance, after those of the text itself, and returns how many nodes they
/// all have. The parameters of a type have in their link how many nodes it has.
pub(crate) fn place_nodes(tape: &[Entry], instances: &mut [Instance], in_text: usize) -> usize {
    let mut count = in_text;
    for (index, instance) in instances.iter_mut().enumerate() {
        if index == 0 {
            continue;
        }
        instance.first_node = count;
        if let Some(parameters) = tape.get(instance.definition.index.saturating_add(1)) {
            count = count.saturating_add(wide(parameters.link));
        }
    }
    count
}

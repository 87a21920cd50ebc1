//! Puts the definitions and imports of a text in lists, and numbers the types that have nodes of their own.

use crate::hash::list_of;
use crate::instances::{Instance, place_nodes};
use crate::scope::{Place, Scope};
use asn1_notation::{Entry, Item, NotationError, Problem, error_at, narrow, part_of, wide};

/// Puts a definition or an import in the list of its name, and returns its link.
fn put_in_list(
    text: &[u8],
    entry: Entry,
    index: usize,
    lists: &mut [u32],
) -> Result<u32, NotationError> {
    let from = wide(entry.from);
    let list = list_of(part_of(text, from, wide(entry.count)));
    let Some(first) = lists.get_mut(list) else {
        return Ok(0);
    };
    let link = *first;
    *first = narrow(index).saturating_add(1);
    Ok(link)
}

/// Puts each definition and each import into the list of its name.
///
/// # Errors
///
/// Returns [`Problem::Duplicate`] at the first module whose name an earlier module has, or the first
/// definition whose name an earlier one of its module has.
pub fn index_definitions(
    text: &[u8],
    tape: &mut [Entry],
    lists: &mut [u32],
) -> Result<(), NotationError> {
    let mut module = 0usize;
    for index in 0..tape.len() {
        let Some(entry) = tape.get(index).copied() else {
            break;
        };
        let mut link = 0;
        if entry.item == Item::Module {
            module = index;
            let earlier = Scope {
                text,
                tape: &tape[..index],
                lists,
                instances: &[],
            };
            if earlier.module_named(entry).is_some() {
                return Err(error_at(Problem::Duplicate, wide(entry.from)));
            }
        }
        if entry.item.is_definition() {
            let scope = Scope {
                text,
                tape,
                lists,
                instances: &[],
            };
            if scope.defined_in(module, entry).is_some() {
                return Err(error_at(Problem::Duplicate, wide(entry.from)));
            }
        }
        if entry.item.is_definition() || entry.item == Item::Import {
            link = put_in_list(text, entry, index, lists)?;
        }
        if let Some(kept) = tape.get_mut(index) {
            *kept = Entry { link, ..entry };
        }
    }
    Ok(())
}

/// Where the types of definitions are, as they are numbered.
#[derive(Clone, Copy)]
struct Numbering {
    /// The module.
    module: usize,
    /// The index after the types that have no nodes: those of values, of parameters, and of classes.
    without: usize,
    /// The parameters of the definition.
    parameters: usize,
    /// The index after the parameterized definition.
    parameterized_to: usize,
    /// How many types have nodes in the text itself.
    in_text: u32,
    /// How many types have nodes in the parameterized definition.
    in_type: u32,
}

impl Numbering {
    /// Takes note of an entry.
    fn enter(&mut self, scope: Scope<'_>, index: usize) {
        let place = Place {
            module: self.module,
            index,
            instance: 0,
        };
        let entry = scope.entry(index);
        match entry.item {
            Item::Module => self.module = index,
            Item::ValueDefinition if scope.is_parameterized(place) => {
                self.without = wide(entry.end);
            }
            Item::ValueDefinition | Item::SetDefinition => {
                let of = scope.type_in(place);
                self.without = wide(scope.entry(of.index).end);
            }
            Item::Parameters => {
                self.without = self.without.max(wide(entry.end));
                self.parameters = index;
                self.in_type = 0;
            }
            _ => {}
        }
        match entry.item {
            Item::TypeDefinition | Item::SetDefinition if scope.is_parameterized(place) => {
                self.parameterized_to = wide(entry.end);
            }
            _ => {}
        }
    }

    /// Returns the number of the next type, and the index of the parameters of the definition that it is
    /// in, if it has any.
    fn next(&mut self, index: usize) -> (u32, Option<usize>) {
        if index < self.parameterized_to {
            self.in_type = self.in_type.saturating_add(1);
            (self.in_type, Some(self.parameters))
        } else {
            self.in_text = self.in_text.saturating_add(1);
            (self.in_text, None)
        }
    }
}

/// Sets the link of an entry.
fn set_link(tape: &mut [Entry], index: usize, link: u32) {
    if let Some(entry) = tape.get_mut(index) {
        entry.link = link;
    }
}

/// Numbers the types that have nodes of their own, and returns how many nodes all instances have.
///
/// The numbers begin at 1 in the text itself and in each parameterized definition. The types of values have
/// none.
///
/// # Errors
///
/// Returns the error of the first type whose base is not found, as [`Scope::base`] does.
pub fn number_types(
    text: &[u8],
    tape: &mut [Entry],
    lists: &[u32],
    instances: &mut [Instance],
) -> Result<usize, NotationError> {
    let mut numbering = Numbering {
        module: 0,
        without: 0,
        parameters: 0,
        parameterized_to: 0,
        in_text: 0,
        in_type: 0,
    };
    for index in 0..tape.len() {
        let scope = Scope {
            text,
            tape,
            lists,
            instances,
        };
        numbering.enter(scope, index);
        if !scope.entry(index).item.is_type() || index < numbering.without {
            continue;
        }
        let place = Place {
            module: numbering.module,
            index,
            instance: 0,
        };
        let has_node = if index < numbering.parameterized_to {
            may_have_node(scope, place)
        } else {
            has_node(scope, place)?
        };
        if has_node {
            let (link, parameters) = numbering.next(index);
            set_link(tape, index, link);
            if let Some(parameters) = parameters {
                set_link(tape, parameters, link);
            }
        }
    }
    Ok(place_nodes(tape, instances, wide(numbering.in_text)))
}

/// Returns whether a type of a parameterized definition has a node of its own in each instance.
fn may_have_node(scope: Scope<'_>, place: Place) -> bool {
    match scope.item(place) {
        Item::Reference | Item::ExternalReference | Item::TypeFromObject => {
            scope.find_in(place, Item::Constraint).is_some()
                || scope.find_in(place, Item::Containing).is_some()
        }
        Item::Tagged | Item::Selection | Item::Class => false,
        _ => true,
    }
}

/// Returns whether a type has a node of its own: one that is no name and has no tag, or a name with
/// constraints that its encoding depends on.
fn has_node(scope: Scope<'_>, place: Place) -> Result<bool, NotationError> {
    let base = scope.base(place)?;
    if scope.item(base) == Item::Class {
        return Ok(false);
    }
    if base.index == place.index {
        return Ok(true);
    }
    if scope.find_in(place, Item::Constraint).is_none()
        && scope.find_in(place, Item::Containing).is_none()
        && !scope.is_from_set(place)
    {
        return Ok(false);
    }
    Ok(match scope.item(base) {
        Item::Integer
        | Item::BitString
        | Item::OctetString
        | Item::SequenceOf
        | Item::SetOf
        | Item::Plain => true,
        _ => false,
    })
}

/// Checks the names that modules import.
///
/// # Errors
///
/// Returns [`Problem::UnknownModule`] if the text does not have the module, [`Problem::Undefined`] if the
/// module does not define the name, [`Problem::NotExported`] if it does not export the name (X.680 13.8),
/// or [`Problem::Duplicate`] if the importing module also defines the name: the first of them in the order
/// of the text.
pub fn check_imports(scope: Scope<'_>) -> Result<(), NotationError> {
    let mut walk = scope.walk(0);
    for _ in 0..scope.most() {
        let Some(place) = walk.next(scope) else {
            break;
        };
        match scope.item(place) {
            Item::Imports => check_group(scope, place)?,
            item if item.is_definition() => walk.skip_inside(scope, place),
            _ => {}
        }
    }
    Ok(())
}

/// Returns whether a module exports a name: its EXPORTS has the name, or it has none.
fn is_exported(scope: Scope<'_>, module: usize, name: Entry) -> bool {
    let module = Place {
        module,
        index: module,
        instance: 0,
    };
    match scope.find_in(module, Item::Exports) {
        Some(exports) => scope.named_in(exports, Item::Export, name).is_some(),
        None => true,
    }
}

/// Returns an error if one of the names imported from a module is not defined or exported there, or is
/// also defined here.
fn check_group(scope: Scope<'_>, group: Place) -> Result<(), NotationError> {
    let Some(from) = scope.find_in(group, Item::ImportModule) else {
        return Ok(());
    };
    let Some(module) = scope.module_named(scope.entry(from.index)) else {
        return Err(scope.error(Problem::UnknownModule, from));
    };
    let mut inside = scope.inside(group);
    for _ in 0..scope.most() {
        let Some(index) = inside.next(scope.tape) else {
            break;
        };
        let name = scope.entry(index);
        if name.item != Item::Import {
            continue;
        }
        let place = Place { index, ..group };
        if scope.defined_in(module, name).is_none() {
            return Err(scope.error(Problem::Undefined, place));
        }
        if !is_exported(scope, module, name) {
            return Err(scope.error(Problem::NotExported, place));
        }
        if scope.defined_in(group.module, name).is_some() {
            return Err(scope.error(Problem::Duplicate, place));
        }
    }
    Ok(())
}

//! The components that determine the contents of an open type (X.682 10.7 to 10.12).

use asn1_definitions::{MAX_STEPS, Place, Scope};
use asn1_notation::{Entry, Item, NotationError, Problem, wide};

/// How many components may determine the contents of an open type.
pub(crate) const MAX_COMPONENTS: usize = 4;

/// How many types a component is looked for in, of those that COMPONENTS OF includes in one.
const MAX_INCLUDED: usize = 1000;

/// A component that the contents of an open type depend on.
#[derive(Clone, Copy, Debug, PartialEq, Eq)]
pub struct PathRow {
    /// The entry of the path.
    pub(crate) at: Place,
    /// How many of the types around the open type are inside the one in which the path begins.
    pub(crate) levels: usize,
    /// The type of the component: a field of a class.
    pub(crate) of: Place,
    /// The node of that type.
    pub(crate) node: usize,
    /// Whether the field is UNIQUE.
    pub(crate) is_unique: bool,
}

/// What the contents of an open type depend on.
#[derive(Clone, Copy)]
pub(crate) struct Governing {
    /// The class.
    pub(crate) class: Place,
    /// The set of objects.
    pub(crate) set: Place,
    /// The name of the field of the open type.
    pub(crate) field: Entry,
    /// The components, and then none.
    paths: [Option<PathRow>; MAX_COMPONENTS],
}

/// Returns the entry inside another that an entry is or is in. `None` if there is none.
fn toward(scope: Scope<'_>, from: Place, place: Place) -> Option<Place> {
    let mut inside = scope.inside(from);
    for _ in 0..scope.most() {
        let index = inside.next(scope.tape)?;
        if index <= place.index && place.index < wide(scope.entry(index).end) {
            return Some(Place { index, ..from });
        }
    }
    None
}

/// Returns whether an entry has components or alternatives.
fn has_components(scope: Scope<'_>, place: Place) -> bool {
    match scope.item(place) {
        Item::Sequence | Item::Set | Item::Choice => true,
        _ => false,
    }
}

/// Returns how many SEQUENCE, SET and CHOICE types of a definition an entry is in. `None` if it is in the
/// arguments of a type, or in a type after COMPONENTS OF.
fn count_around(scope: Scope<'_>, definition: Place, place: Place) -> Option<usize> {
    let mut found = definition;
    let mut count = 0usize;
    for _ in 0..scope.most() {
        let Some(next) = toward(scope, found, place) else {
            break;
        };
        found = next;
        match scope.item(found) {
            Item::Arguments | Item::ComponentsOf => return None,
            _ if has_components(scope, found) => count = count.saturating_add(1),
            _ => {}
        }
    }
    Some(count)
}

/// Returns the type around an entry in a definition after `outer` from the outermost one on. `None` if
/// there is none.
fn around(scope: Scope<'_>, definition: Place, place: Place, outer: usize) -> Option<Place> {
    let mut found = definition;
    let mut left = outer;
    for _ in 0..scope.most() {
        found = toward(scope, found, place)?;
        if !has_components(scope, found) {
            continue;
        }
        if left == 0 {
            return Some(found);
        }
        left = left.saturating_sub(1);
    }
    None
}

/// What looks for a component in a type, and in those that COMPONENTS OF includes in it.
#[derive(Drop)]
struct Search {
    /// The name of the component.
    name: Place,
    /// How many types may still be looked in.
    left: usize,
}

impl Search {
    /// Returns the component of a type. `None` if the type has none of this name.
    #[cycle(search)]
    fn component(
        &mut self,
        scope: Scope<'_>,
        of: Place,
        depth: usize,
    ) -> Result<Option<Place>, NotationError> {
        if depth == 0 || self.left == 0 {
            return Err(scope.error(Problem::TooMuchWork, self.name));
        }
        self.left -= 1;
        let found = scope.named_in(of, Item::Component, scope.entry(self.name.index));
        if found.is_some() {
            return Ok(found);
        }
        let mut inside = scope.inside(of);
        for _ in 0..scope.most() {
            let Some(index) = inside.next(scope.tape) else {
                break;
            };
            let part = Place { index, ..of };
            if scope.item(part) != Item::ComponentsOf {
                continue;
            }
            let included = scope.base(scope.type_in(part))?;
            let found = self.component(scope, included, depth - 1)?;
            if found.is_some() {
                return Ok(found);
            }
        }
        Ok(None)
    }
}

/// Returns the component or alternative of a type with a name.
fn component_of(scope: Scope<'_>, of: Place, name: Place) -> Result<Place, NotationError> {
    let base = scope.base(of)?;
    if scope.item(base) == Item::Broken {
        return Err(scope.error(Problem::Consequence, name));
    }
    if !has_components(scope, base) {
        return Err(scope.error(Problem::Undefined, name));
    }
    let mut search = Search {
        name,
        left: MAX_INCLUDED,
    };
    let found = search.component(scope, base, MAX_STEPS)?;
    found.ok_or(scope.error(Problem::Undefined, name))
}

/// Returns the component that a path leads to, from a type on.
fn component_at(scope: Scope<'_>, from: Place, path: Place) -> Result<Place, NotationError> {
    let mut of = from;
    let mut found = path;
    let mut inside = scope.inside(path);
    for _ in 0..scope.most() {
        let Some(index) = inside.next(scope.tape) else {
            break;
        };
        let name = Place { index, ..path };
        if scope.item(name) == Item::PieceName {
            found = component_of(scope, of, name)?;
            of = scope.type_in(found);
        }
    }
    Ok(found)
}

/// Returns the field of a class that the type of a component is, through names and tags.
fn field_of(scope: Scope<'_>, component: Place, path: Place) -> Result<Place, NotationError> {
    let mut found = scope.type_in(component);
    for _ in 0..MAX_STEPS {
        if scope.item(found) == Item::FieldType {
            return Ok(found);
        }
        match scope.inner(found)? {
            Some(inner) => found = inner,
            None => break,
        }
    }
    if scope.item(found) == Item::Broken {
        return Err(scope.error(Problem::Consequence, path));
    }
    Err(scope.error(Problem::NotA("a component with a field of the class"), path))
}

/// Returns how many of the types around an entry are outside the one in which a path begins (X.682 10.8):
/// with dots as many are counted from the innermost one on, and without them it is the outermost one, or
/// for a CHOICE without an alternative of this name the next one.
fn outer_of(
    scope: Scope<'_>,
    definition: Place,
    place: Place,
    path: Place,
    count: usize,
) -> Option<usize> {
    let mut inside = scope.inside(path);
    let mut dots = 0usize;
    for _ in 0..scope.most() {
        let index = inside.next(scope.tape)?;
        if scope.item(Place { index, ..path }) == Item::Level {
            dots = dots.saturating_add(1);
            continue;
        }
        if dots != 0 {
            return count.checked_sub(dots);
        }
        for outer in 0..count {
            let of = around(scope, definition, place, outer)?;
            let is_next = scope.item(of) == Item::Choice
                && scope
                    .named_in(of, Item::Component, scope.entry(index))
                    .is_none();
            if !is_next {
                return Some(outer);
            }
        }
        return None;
    }
    None
}

/// Returns the component that a path leads to from an open type in a definition, with `count` types around
/// it. `None` if the type of the component is a field of a field.
fn row_of(
    scope: Scope<'_>,
    definition: Place,
    place: Place,
    path: Place,
    count: usize,
) -> Result<Option<PathRow>, NotationError> {
    let outer = outer_of(scope, definition, place, path, count);
    let from = outer.and_then(|outer| around(scope, definition, place, outer));
    let (Some(outer), Some(from)) = (outer, from) else {
        return Err(scope.error(Problem::Undefined, path));
    };
    let component = component_at(scope, from, path)?;
    let of = field_of(scope, component, path)?;
    if scope.next_field_name(of, scope.field_name(of)).is_some() {
        return Ok(None);
    }
    Ok(Some(PathRow {
        at: path,
        levels: count.saturating_sub(outer).saturating_sub(1),
        of,
        node: scope.node_of(of)?,
        is_unique: scope.is_unique(of)?,
    }))
}

/// Returns the table constraint of a type. `None` if it has none.
fn table_of(scope: Scope<'_>, place: Place) -> Option<Place> {
    scope.find_in(scope.find_in(place, Item::Constraint)?, Item::Table)
}

impl Governing {
    /// Returns what the contents of an open type in a definition depend on. `None` if the type has no table
    /// constraint with the paths of components, is in the arguments of a type, or if it or one of the
    /// components is a field of a field.
    ///
    /// # Errors
    ///
    /// Returns an error if a path leads to no component, or to one that is no field of a class.
    pub(crate) fn of(
        scope: Scope<'_>,
        place: Place,
        definition: Place,
    ) -> Result<Option<Governing>, NotationError> {
        let Some(table) = table_of(scope, place) else {
            return Ok(None);
        };
        let Some(count) = count_around(scope, definition, place) else {
            return Ok(None);
        };
        let field = scope.field_name(place);
        if scope.next_field_name(place, field).is_some() {
            return Ok(None);
        }
        let mut paths = [None; MAX_COMPONENTS];
        let mut found = 0usize;
        let mut inside = scope.inside(table);
        for _ in 0..scope.most() {
            let Some(index) = inside.next(scope.tape) else {
                break;
            };
            let path = Place { index, ..table };
            if scope.item(path) != Item::At {
                continue;
            }
            let Some(row) = row_of(scope, definition, place, path, count)? else {
                return Ok(None);
            };
            let Some(room) = paths.get_mut(found) else {
                let feature = "a table constraint with more than four components (X.682 10.7)";
                return Err(scope.error(Problem::Unsupported(feature), path));
            };
            *room = Some(row);
            found = found.saturating_add(1);
        }
        if found == 0 {
            return Ok(None);
        }
        Ok(Some(Governing {
            class: class_or_field(scope, place)?,
            set: Place {
                index: table.index.saturating_add(1),
                ..table
            },
            field: scope.entry(field.index),
            paths,
        }))
    }

    /// Returns the component at an index. `None` if there is none.
    pub(crate) fn path(self, index: usize) -> Option<PathRow> {
        self.paths.get(index).copied().flatten()
    }

    /// Returns the values that an object has of the components. `None` if it has none of one of them.
    pub(crate) fn keys(
        self,
        scope: Scope<'_>,
        object: Place,
    ) -> Result<Option<[Place; MAX_COMPONENTS]>, NotationError> {
        let mut keys = [object; MAX_COMPONENTS];
        for (index, key) in keys.iter_mut().enumerate() {
            let Some(path) = self.path(index) else {
                break;
            };
            let name = scope.entry(scope.field_name(path.of).index);
            match scope.setting(self.class, object, name)? {
                Some(setting) => *key = setting,
                None => return Ok(None),
            }
        }
        Ok(Some(keys))
    }
}

/// Returns the class of a field. For TYPE-IDENTIFIER it is the entry of the field itself.
fn class_or_field(scope: Scope<'_>, place: Place) -> Result<Place, NotationError> {
    if scope.entry(place.index).word.is_some() {
        return Ok(place);
    }
    scope.class_of(place)
}

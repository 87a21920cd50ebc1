//! Objects and sets of objects (X.681), and the open types whose contents they determine (X.682 10).

use crate::builder::Builder;
use crate::open_types::{Governing, MAX_COMPONENTS};
use crate::room::NO_PLACE;
use asn1_definitions::{Objects, Place, Scope};
use asn1_notation::{Item, NotationError, Problem, wide};

/// How many objects a set may have.
const MAX_OBJECTS: usize = 1 << 18;

/// An object on which an open type depends. An open type that depends on several components has a row for each
/// of them and each object.
#[derive(Clone, Copy, Debug, PartialEq, Eq)]
pub struct ObjectRow {
    /// The entry of the component's value by which the object is found.
    pub(crate) key: Place,
    /// The type that it has.
    pub(crate) node: usize,
}

/// An open type whose contents depend on other components, or an OCTET STRING or BIT STRING with CONTAINING,
/// which has one object and no component.
#[derive(Clone, Copy, Debug, PartialEq, Eq)]
pub struct OpenRow {
    /// The open type.
    pub(crate) node: usize,
    /// The first of its paths.
    pub(crate) first_path: usize,
    /// How many they are.
    pub(crate) paths: usize,
    /// The first of the rows of its objects.
    pub(crate) from: usize,
    /// How many they are.
    pub(crate) count: usize,
}

/// Returns an error if a set of objects is not of its class, or its type is no class.
fn check_set(scope: Scope<'_>, definition: Place) -> Result<(), NotationError> {
    let of = scope.type_in(definition);
    let class = scope.base(of)?;
    if scope.item(class) == Item::Broken {
        return Ok(());
    }
    if scope.item(class) != Item::Class {
        let feature = "a set of values whose type has a name of capitals (X.680 16.6)";
        return Err(scope.error(Problem::Unsupported(feature), definition));
    }
    let braces = scope.braces_of(definition)?;
    let mut objects = Objects::new(scope, braces)?;
    for _ in 0..MAX_OBJECTS {
        if objects.next(scope)?.is_none() {
            return check_inline(scope, class, braces);
        }
    }
    Err(scope.error(Problem::TooMuchWork, definition))
}

/// Returns an error if an object in the braces of a set is not as its class says.
fn check_inline(scope: Scope<'_>, class: Place, braces: Place) -> Result<(), NotationError> {
    let end = wide(scope.entry(braces.index).end);
    let mut index = braces.index.saturating_add(1);
    for _ in 0..scope.most() {
        if end <= index {
            break;
        }
        let place = Place { index, ..braces };
        index = match scope.item(place) {
            Item::Union => index.saturating_add(1),
            Item::Braces => {
                scope.check_object(class, place)?;
                wide(scope.entry(index).end)
            }
            _ => wide(scope.entry(index).end),
        };
    }
    Ok(())
}

/// Returns an error if the objects and the sets of objects of a text are not as their classes say.
pub(crate) fn check_objects(scope: Scope<'_>) -> Result<(), NotationError> {
    let mut walk = scope.walk(0);
    for _ in 0..scope.most() {
        let Some(place) = walk.next(scope) else {
            break;
        };
        let item = scope.item(place);
        if item.is_definition() {
            walk.skip_inside(scope, place);
        }
        match item {
            Item::SetDefinition | Item::ValueDefinition if scope.is_parameterized(place) => {}
            Item::SetDefinition => check_set(scope, place)?,
            Item::ValueDefinition => {
                let class = scope.base(scope.type_in(place))?;
                if scope.item(class) == Item::Class {
                    scope.check_object(class, scope.braces_of(place)?)?;
                }
            }
            _ => {}
        }
    }
    Ok(())
}

impl<'m> Builder<'m> {
    /// Appends the objects of a set that have the fields of an open type.
    fn add_objects(&mut self, scope: Scope<'_>, governing: Governing) -> Result<(), NotationError> {
        let mut objects = Objects::new(scope, governing.set)?;
        for _ in 0..MAX_OBJECTS {
            let Some(object) = objects.next(scope)? else {
                return Ok(());
            };
            self.step(scope.at(object))?;
            self.add_object(scope, object, governing)?;
        }
        Err(scope.error(Problem::TooMuchWork, governing.set))
    }

    /// Appends an object, if it has the fields of an open type.
    fn add_object(
        &mut self,
        scope: Scope<'_>,
        object: Place,
        governing: Governing,
    ) -> Result<(), NotationError> {
        let keys = governing.keys(scope, object)?;
        let of = scope.setting(governing.class, object, governing.field)?;
        let (Some(keys), Some(of)) = (keys, of) else {
            return Ok(());
        };
        if !scope.item(of).is_type() && scope.item(of) != Item::Literal {
            return Err(scope.error(Problem::Expected("a type"), of));
        }
        let node = self.used_node(scope, of, None, false)?;
        for (index, key) in keys.iter().enumerate() {
            if governing.path(index).is_some() {
                self.objects.push(ObjectRow { key: *key, node });
            }
        }
        Ok(())
    }

    /// Appends an OCTET STRING or a BIT STRING whose contents are a value of a type (X.682 11), unless ENCODED
    /// BY names the rules that encode it.
    pub(crate) fn add_containing(
        &mut self,
        scope: Scope<'_>,
        place: Place,
        node: usize,
    ) -> Result<(), NotationError> {
        let Some(containing) = scope.find_in(place, Item::Containing) else {
            return Ok(());
        };
        if scope.value_in(containing).is_some() {
            return Ok(());
        }
        let inner = self.used_node(scope, scope.type_in(containing), None, false)?;
        let from = self.objects.count();
        self.objects.push(ObjectRow {
            key: NO_PLACE,
            node: inner,
        });
        self.opens.push(OpenRow {
            node,
            first_path: 0,
            paths: 0,
            from,
            count: 1,
        });
        Ok(())
    }

    /// Appends the open type of an entry, if other components determine its contents.
    pub(crate) fn add_open(
        &mut self,
        scope: Scope<'_>,
        place: Place,
        definition: Place,
        node: usize,
    ) -> Result<(), NotationError> {
        let Some(governing) = Governing::of(scope, place, definition)? else {
            return Ok(());
        };
        let from = self.objects.count();
        self.add_objects(scope, governing)?;
        let count = self.objects.count().saturating_sub(from);
        let first_path = self.paths.count();
        for index in 0..MAX_COMPONENTS {
            if let Some(path) = governing.path(index) {
                self.paths.push(path);
            }
        }
        self.opens.push(OpenRow {
            node,
            first_path,
            paths: self.paths.count().saturating_sub(first_path),
            from,
            count,
        });
        Ok(())
    }
}

//! The tags of types, for the rules of X.690.

use crate::alphabet::character_size;
use crate::builder::{ANY_TAG, Builder, NO_SOURCE};
use asn1_definitions::{MAX_STEPS, Place, Scope, context};
use asn1_notation::{Item, NotationError, Problem, Word, narrow};
use asn1_schema::{Node, Rows};
use asn1_x690::{CharacterSize, Class, FirstTags, Tag, TypeTags};

/// No tags.
pub(crate) const NO_TAGS: Rows = Rows { from: 0, count: 0 };

/// A tag that says nothing.
pub(crate) const NO_TAG: Tag = Tag {
    class: Class::Universal,
    number: 0,
};

/// A type of which no tags are known.
pub(crate) const NO_TYPE_TAGS: TypeTags = TypeTags {
    tags: NO_TAGS,
    numbers: 0,
    characters: CharacterSize::One,
    is_any: false,
};

/// First tags of which none is known.
pub(crate) const NO_FIRST_TAGS: FirstTags = FirstTags {
    tags: NO_TAGS,
    is_any: false,
    group: None,
};

/// Returns the tag that a number orders (X.680 8.6).
pub(crate) fn tag_of_order(order: u64) -> Tag {
    let class = match order >> 32 {
        0 => Class::Universal,
        1 => Class::Application,
        2 => Class::Context,
        _ => Class::Private,
    };
    Tag {
        class,
        number: order % (1 << 32),
    }
}

/// Returns whether a type is ANY or an open type.
pub(crate) fn is_any(scope: Scope<'_>, place: Place) -> bool {
    scope.is_open(place)
        || scope.item(place) == Item::Plain && scope.entry(place.index).word == Some(Word::Any)
}

/// Returns whether a type has no tag: a CHOICE or ANY, before which a tag is explicit (X.680 31.2.7,
/// X.208 27.8).
fn is_untagged(scope: Scope<'_>, place: Place) -> Result<bool, NotationError> {
    let named = scope.named_type(place)?;
    Ok(scope.item(named) == Item::Choice || is_any(scope, named))
}

/// Returns whether the tag that is written before a type replaces the first tag of the type (X.680
/// 31.2.7).
fn is_implicit(scope: Scope<'_>, place: Place) -> Result<bool, NotationError> {
    if scope.find_in(place, Item::Explicit).is_some() {
        return Ok(false);
    }
    let is_default = match scope.entry(place.module).word {
        Some(Word::Implicit | Word::Automatic) => true,
        _ => false,
    };
    if !is_default && scope.find_in(place, Item::Implicit).is_none() {
        return Ok(false);
    }
    Ok(!is_untagged(scope, scope.type_in(place))?)
}

/// Returns the type in a type with tags, through all of them.
fn without_tags(scope: Scope<'_>, place: Place) -> Place {
    let mut own = place;
    for _ in 0..scope.most() {
        if scope.item(own) != Item::Tagged {
            break;
        }
        own = scope.type_in(own);
    }
    own
}

/// Returns whether a type has a tag before the name of another one, so that its tags are not those of
/// its node.
fn has_tag_before_name(scope: Scope<'_>, place: Place) -> Result<bool, NotationError> {
    let mut found = place;
    let mut is_tagged = false;
    for _ in 0..MAX_STEPS {
        if scope.own_node(found).is_some() {
            return Ok(false);
        }
        match scope.item(found) {
            Item::Tagged => is_tagged = true,
            _ if is_tagged => return Ok(true),
            _ => {}
        }
        match scope.inner(found)? {
            Some(inner) => found = inner,
            None => return Ok(false),
        }
    }
    Err(scope.error(Problem::Circular, place))
}

impl<'m> Builder<'m> {
    /// Appends the tags of a type, from the outermost to the innermost (X.680 31.2). An automatic tag is
    /// the first one.
    fn push_tags(
        &mut self,
        scope: Scope<'_>,
        place: Place,
        automatic: Option<u32>,
    ) -> Result<Rows, NotationError> {
        let from = self.tag_rows.count();
        let mut is_replaced = false;
        if let Some(number) = automatic {
            self.tag_rows.push(tag_of_order(context(number).order()));
            is_replaced = !is_untagged(scope, place)?;
        }
        let mut found = place;
        for _ in 0..MAX_STEPS {
            let is_tagged = scope.item(found) == Item::Tagged;
            let inner = scope.inner(found)?;
            if is_tagged || inner.is_none() {
                if let Some(tag) = scope.tag_of(found)?
                    && !is_replaced
                {
                    self.tag_rows.push(tag_of_order(tag.order()));
                }
                is_replaced = is_tagged && is_implicit(scope, found)?;
            }
            match inner {
                Some(inner) => found = inner,
                None => break,
            }
        }
        Ok(Rows {
            from,
            count: narrow(self.tag_rows.count().saturating_sub(from)),
        })
    }

    /// Sets the tags of a node, and what else X.690 requires of it.
    fn set_tags(
        &mut self,
        scope: Scope<'_>,
        node: usize,
        place: Place,
        tags: Rows,
    ) -> Result<(), NotationError> {
        let base = scope.base(place)?;
        self.type_tags.set(
            node,
            TypeTags {
                tags,
                characters: character_size(scope.entry(base.index).word),
                is_any: is_any(scope, base),
                ..NO_TYPE_TAGS
            },
        );
        Ok(())
    }

    /// Sets the tags of each type of an instance that has a node: those with the tags that are written
    /// before it.
    pub(crate) fn add_tags(
        &mut self,
        scope: Scope<'_>,
        instance: usize,
    ) -> Result<(), NotationError> {
        let mut tagged_to = 0usize;
        let mut walk = scope.walk(instance);
        for _ in 0..scope.most() {
            let Some(place) = walk.next(scope) else {
                break;
            };
            let item = scope.item(place);
            // The types inside a type with a tag come after it, and their tags with it.
            if !item.is_type() || place.index < tagged_to {
                continue;
            }
            let own = without_tags(scope, place);
            if item == Item::Tagged {
                tagged_to = own.index.saturating_add(1);
            }
            if let Some(node) = scope.own_node(own) {
                let tags = self.push_tags(scope, place, None)?;
                self.set_tags(scope, node, place, tags)?;
            }
        }
        Ok(())
    }

    /// Returns the node of a type where it is used: one of its own if its tags are others than those
    /// of the type that it names. `is_included` says that the component is another type's (X.680 25.5).
    pub(crate) fn used_node(
        &mut self,
        scope: Scope<'_>,
        place: Place,
        automatic: Option<u32>,
        is_included: bool,
    ) -> Result<usize, NotationError> {
        let node = scope.node_of(place)?;
        if automatic.is_none() && !has_tag_before_name(scope, place)? {
            return Ok(node);
        }
        let tags = self.push_tags(scope, place, automatic)?;
        let own = without_tags(scope, place);
        if scope.own_node(own).is_some() && !is_included {
            self.set_tags(scope, node, place, tags)?;
            return Ok(node);
        }
        let copy = self.push_node(Node::Null);
        self.sources.set(copy, node);
        self.set_tags(scope, copy, place, tags)?;
        Ok(copy)
    }

    /// Appends the tags that the encoding of a component can begin with: those from an index on.
    pub(crate) fn push_first_tags(&mut self, from: usize) -> FirstTags {
        let start = self.first_rows.count();
        let mut is_any = false;
        for index in from..self.tags.count() {
            let tag = match self.tags.get(index) {
                Some(key) if key.key == ANY_TAG => {
                    is_any = true;
                    continue;
                }
                Some(key) => tag_of_order(key.key),
                None => NO_TAG,
            };
            self.first_rows.push(tag);
        }
        FirstTags {
            is_any,
            ..self.first_tags_from(start)
        }
    }

    /// Returns the first tags from an index on.
    pub(crate) fn first_tags_from(&self, start: usize) -> FirstTags {
        FirstTags {
            tags: Rows {
                from: start,
                count: narrow(self.first_rows.count().saturating_sub(start)),
            },
            ..NO_FIRST_TAGS
        }
    }

    /// Returns the first tags of an addition group of these components, those from an index on.
    pub(crate) fn first_tags_of_group(&self, root: Rows, start: usize) -> FirstTags {
        FirstTags {
            is_any: self.begins_with_any(root),
            group: Some(root),
            ..self.first_tags_from(start)
        }
    }

    /// Returns whether one of the members of rows can begin with any tag.
    fn begins_with_any(&self, rows: Rows) -> bool {
        for index in 0..rows.count as usize {
            if let Some(first) = self.member_tags.get(rows.from.saturating_add(index))
                && first.is_any
            {
                return true;
            }
        }
        false
    }

    /// Fills the nodes that are others with tags of their own, and sets where the numbers of each
    /// ENUMERATED are.
    pub(crate) fn fill_copies(&mut self) {
        for row in 0..self.nodes.count() {
            let source = self.sources.get(row).unwrap_or(NO_SOURCE);
            if source != NO_SOURCE {
                self.copy_node(source, row);
            }
            if let Some(rows) = self.node_enumerals.get(row)
                && let Some(tags) = self.type_tags.get(row)
            {
                let numbers = rows.from;
                self.type_tags.set(row, TypeTags { numbers, ..tags });
            }
        }
    }

    /// Copies a node, its values and its name, but for a name that it has.
    fn copy_node(&mut self, source: usize, row: usize) {
        if let Some(node) = self.nodes.get(source) {
            self.nodes.set(row, node);
        }
        if let Some(rows) = self.node_enumerals.get(source) {
            self.node_enumerals.set(row, rows);
        }
        if let Some(name) = self.node_names.get(row)
            && name.count == 0
            && let Some(name) = self.node_names.get(source)
        {
            self.node_names.set(row, name);
        }
    }
}

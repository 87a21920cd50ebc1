//! Open types, and strings with CONTAINING, from JSON.

use crate::draft::Draft;
use crate::parse::{JsonError, Maker, expected};
use crate::printer::CONTAINING;
use crate::tree::Kind;
use asn1_resolve::{OpenKey, OpenPath, OpenType};
use std::str;

/// The most levels of nesting of the component that determines the type of the contents of an open type.
const KEY_DEPTH: usize = 3;

/// An open type whose contents were found by the components that determine them.
#[derive(Drop)]
pub(crate) struct FoundOpen {
    /// The node of the open type.
    node: usize,
    /// The items of the components.
    keys: Vec<usize>,
    /// The node of the contents' type, if an object has these values.
    contents: Option<usize>,
}

impl<'a, 's, 't> Maker<'a, 's, 't> {
    /// Appends an OCTET STRING or a BIT STRING with CONTAINING (X.682 11) whose contents are in the JSON: an
    /// object with a member `containing`. Returns whether it is one.
    pub(crate) fn containing(
        &mut self,
        node: usize,
        item: usize,
        is_bits: bool,
    ) -> Result<bool, JsonError<'s>> {
        let (Some(inner), Kind::Object) = (self.schema.contents_type(node), self.item(item)?.kind)
        else {
            return Ok(false);
        };
        match self.tree.member(item, CONTAINING) {
            Some(contents) if self.tree.count_in(item) == 1 => {
                self.draft.push_pending(inner, contents, is_bits)?;
                Ok(true)
            }
            None if is_bits => Ok(false),
            _ => Err(expected(item, "hexadecimal digits, or an object with `containing`")),
        }
    }

    /// Appends a value of an open type whose contents are in the JSON: an object with a member
    /// `containing`. Returns whether it is one.
    #[cycle(making)]
    pub(crate) fn open(
        &mut self,
        depth: usize,
        node: usize,
        value: usize,
    ) -> Result<bool, JsonError<'s>> {
        let (Some(open), Kind::Object) = (self.schema.open_type(node), self.item(value)?.kind)
        else {
            return Ok(false);
        };
        let Some(contents) = self.tree.member(value, CONTAINING) else {
            return Err(expected(value, "hexadecimal digits, or an object with `containing`"));
        };
        if self.tree.count_in(value) != 1 {
            return Err(expected(value, "an object with one member"));
        }
        let Some(keys) = self.keys(open)? else {
            let what = "hexadecimal digits, since a component that tells its type is absent";
            return Err(expected(value, what));
        };
        match self.contents_by(depth, open, keys)? {
            Some(inner) => {
                self.draft.push_pending(inner, contents, false)?;
                Ok(true)
            }
            None => Err(expected(value, "hexadecimal digits, since no object has this value")),
        }
    }

    /// Returns the items of the components that determine the contents of an open type. `None` if one
    /// of them is absent.
    fn keys(&self, open: OpenType) -> Result<Option<Vec<usize>>, JsonError<'s>> {
        let mut keys = Vec::new(self.alloc);
        for path in self.schema.paths_of(open) {
            match self.item_at(*path) {
                Some(key) => keys.push(key)?,
                None => return Ok(None),
            }
        }
        Ok(Some(keys))
    }

    /// Returns the item of the component that a path leads to. `None` if it is absent.
    fn item_at(&self, path: OpenPath) -> Option<usize> {
        let outer = self.around.len().checked_sub(path.levels)?.checked_sub(1)?;
        let mut found = *self.around.as_slice().get(outer)?;
        for name in self.schema.names_of(path) {
            let name = str::from_utf8(self.schema.text_of(*name)).ok()?;
            found = self.tree.member(found, name)?;
        }
        Some(found)
    }

    /// Returns the node of the type of an open type's contents, by the items of the components that say
    /// it. `None` if no object has their values.
    #[cycle(making)]
    fn contents_by(
        &mut self,
        depth: usize,
        open: OpenType,
        keys: Vec<usize>,
    ) -> Result<Option<usize>, JsonError<'s>> {
        if let Some(last) = &self.last
            && last.node == open.node
            && last.keys.as_slice() == keys.as_slice()
        {
            return Ok(last.contents);
        }
        let mut drafts = Vec::new(self.alloc);
        for (path, key) in self
            .schema
            .paths_of(open)
            .iter()
            .zip(keys.as_slice().iter())
        {
            let mut maker = Maker::new(self.alloc, self.schema, self.tree);
            // A component is mostly a number or an identifier, and at most a CHOICE of such ones.
            maker.value(depth.min(KEY_DEPTH), path.node, *key)?;
            let Maker { draft, .. } = maker;
            drafts.push(draft)?;
        }
        let mut values = Vec::new(self.alloc);
        for draft in drafts.as_slice() {
            values.push(OpenKey {
                parts: draft.parts(),
                octets: draft.octets(),
            })?;
        }
        let contents = self.schema.contents_of(open, values.as_slice());
        self.last = Some(FoundOpen {
            node: open.node,
            keys,
            contents,
        });
        Ok(contents)
    }
}

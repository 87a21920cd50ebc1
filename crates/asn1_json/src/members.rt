//! The members of JSON objects.

use crate::tree::{Kind, Tree};

impl<'t> Tree<'t> {
    /// Returns the item after the key of an object with this name: its value. `None` if the object
    /// has no such key.
    pub(crate) fn member(&self, object: usize, name: &str) -> Option<usize> {
        self.key_before(object, name, usize::MAX)
            .map(|key| key.saturating_add(1))
    }

    /// Returns the first key of an object with this name, before an index. `None` if there is none.
    pub(crate) fn key_before(&self, object: usize, name: &str, limit: usize) -> Option<usize> {
        let end = self.item(object)?.end.min(limit);
        let mut key = object.saturating_add(1);
        for _ in 0..self.len() {
            if end <= key {
                return None;
            }
            let item = self.item(key)?;
            if let Kind::Key(found) = item.kind
                && found == name
            {
                return Some(key);
            }
            key = item.end;
        }
        None
    }

    /// Returns how many keys an object has, or items an array.
    pub(crate) fn count_in(&self, index: usize) -> usize {
        let mut count = 0usize;
        let end = match self.item(index) {
            Some(item) => item.end,
            None => 0,
        };
        let mut inner = index.saturating_add(1);
        for _ in 0..self.len() {
            if end <= inner {
                break;
            }
            let Some(item) = self.item(inner) else {
                break;
            };
            count = count.saturating_add(1);
            inner = item.end;
        }
        count
    }
}

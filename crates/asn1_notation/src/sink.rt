//! Room in which a table is built.

/// A table in the caller's room. It counts rows for which there is no room, and does not keep them.
#[derive(Drop)]
pub struct Sink<'m, T: Copy> {
    room: &'m mut [T],
    count: usize,
    most: usize,
}

impl<'m, T: Copy> Sink<'m, T> {
    /// Makes an empty table.
    pub fn new(room: &'m mut [T]) -> Sink<'m, T> {
        Sink {
            room,
            count: 0,
            most: 0,
        }
    }

    /// Returns how many rows the table has.
    pub fn count(&self) -> usize {
        self.count
    }

    /// Returns the most rows that the table had at any time.
    pub fn most(&self) -> usize {
        self.most
    }

    /// Appends a row, and returns its index.
    pub fn push(&mut self, row: T) -> usize {
        let index = self.count;
        self.set(index, row);
        self.reserve(1);
        index
    }

    /// Appends `count` rows, which are set later.
    pub fn reserve(&mut self, count: usize) {
        self.count = self.count.saturating_add(count);
        self.most = self.most.max(self.count);
    }

    /// Removes the rows from an index on.
    pub fn truncate(&mut self, count: usize) {
        self.count = self.count.min(count);
    }

    /// Returns the row at an index. `None` if the room does not hold it.
    pub fn get(&self, index: usize) -> Option<T> {
        self.room.get(index).copied()
    }

    /// Sets the row at an index, if the room holds it.
    pub fn set(&mut self, index: usize, row: T) {
        if let Some(kept) = self.room.get_mut(index) {
            *kept = row;
        }
    }

    /// Returns the rows, as far as the room holds them.
    pub fn rows(&self) -> &[T] {
        let end = self.count.min(self.room.len());
        &self.room[..end]
    }

    /// Returns the rows from an index on, as far as the room holds them.
    pub fn rows_from(&mut self, from: usize) -> &mut [T] {
        let end = self.count.min(self.room.len());
        let from = from.min(end);
        &mut self.room[from..end]
    }
}

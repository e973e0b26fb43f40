//! Items of cubes, in the order of a tree, and looking them up.

use crate::tree_order::tree_order;
use kernel::Cube;
use std::alloc::{AllocError, Global};
use std::cmp::Ordering;

/// A cube, and an item of it.
#[derive(Drop)]
struct OfCube<T> {
    cube: Cube,
    item: T,
}

/// Items of cubes, in the order in which a tree is gone through from left to right, and of each cube
/// in the order in which they were put in. It takes memory by the cubes' literals and by the items.
#[derive(Drop)]
pub struct CubeTable<T> {
    entries: Vec<OfCube<T>>,
}

impl<T: Drop> CubeTable<T> {
    /// Nothing of any cube. It takes no memory.
    pub fn new(alloc: Global) -> CubeTable<T> {
        CubeTable {
            entries: Vec::new(alloc),
        }
    }

    /// Puts an item of a cube in. Before items are looked up they have to be sorted. It fails where
    /// a request for memory is refused: the item is dropped then.
    pub fn put(&mut self, cube: Cube, item: T) -> Result<(), AllocError> {
        self.entries.push(OfCube { cube, item })?;
        Ok(())
    }

    /// Sorts what was put in. It fails where a request for memory is refused.
    pub fn sort(&mut self) -> Result<(), AllocError> {
        self.entries
            .sort_by(|one, other| tree_order(&one.cube, &other.cube))?;
        Ok(())
    }

    /// What is of a cube: two binary searches.
    fn of(&self, cube: &Cube) -> &[OfCube<T>] {
        let entries = self.entries.as_slice();
        let start = entries.partition_point(|entry| tree_order(&entry.cube, cube).is_lt());
        let end = entries.partition_point(|entry| tree_order(&entry.cube, cube).is_le());
        &entries[start..end.max(start)]
    }

    /// How many items the cube has.
    pub fn count(&self, cube: &Cube) -> usize {
        self.of(cube).len()
    }

    /// The item of the cube with this number, from 0 on.
    pub fn item(&self, cube: &Cube, number: usize) -> Option<&T> {
        match self.of(cube).get(number) {
            Some(entry) => Some(&entry.item),
            None => None,
        }
    }

    /// How many items there are.
    pub fn len(&self) -> usize {
        self.entries.len()
    }

    /// The item at this place of the order, from 0 on, if it is the last one of its cube.
    pub fn last_at(&self, place: usize) -> Option<&T> {
        let entry = self.entries.get(place)?;
        match self.entries.get(place.saturating_add(1)) {
            Some(next) if tree_order(&next.cube, &entry.cube).is_eq() => None,
            _ => Some(&entry.item),
        }
    }
}

//! The traversal of a tree of splits, from left to right and without recursion: into a split, away
//! from a leaf or a split. It knows nothing of what a leaf is, nor of what is made of the halves.
ghost use Rattle.std.specs.Prelude.{◌≡◌, [], ◌∷◌, reverse, None, IfOk, OnOk};
ghost use Rattle.cubes.specs.Traversal.{Turns};

use std::alloc::{AllocError, Global};
use std::marker::Model;

/// A split on the way from the root. The way goes on in its left half, or, once that is done and
/// came to a value, in its right half.
#[derive(Drop)]
pub struct Split<T> {
    pub var: u32,
    pub left: Option<T>,
}

/// Where the traversal comes to from a place that is done.
#[derive(Drop)]
pub enum Turn<T> {
    /// The right half of the split on this variable.
    Right(u32),

    /// The split on this variable, of which both halves are done now, and came to these values.
    Both { var: u32, left: T, right: T },

    /// The end: the root is done, and came to this value.
    End(T),
}

/// A place in a tree of splits: the splits on the way to it. It takes up memory for each of them.
#[derive(Drop)]
pub struct Walk<T> {
    splits: Vec<Split<T>>,
}

impl<T> Model for Walk<T> {
    ghost use Rattle.std.specs.Prelude.{List, reverse};
    ghost use Rattle.cubes.specs.declared.traversal.Split.{Split};

    ghost Value = { List (Split T) };

    ghost view = { λ w. reverse w.splits.items };
}

impl<T: Drop> Walk<T> {
    /// At the root. It takes no memory.
    pub fn start(alloc: Global) -> Walk<T>
        ensures { result ≡ [] }
    {
        Walk {
            splits: Vec::new(alloc),
        }
    }

    /// At the root, with memory for ways of so many splits.
    pub fn with_room(alloc: Global, splits: usize) -> Result<Walk<T>, AllocError>
        ensures { IfOk result (λ w. w ≡ []) }
    {
        Ok(Walk {
            splits: Vec::with_capacity(alloc, splits)?,
        })
    }

    /// The splits on the way, from the root on.
    pub fn splits(&self) -> &[Split<T>]
        ensures { result.now ≡ reverse self.now }
    {
        &self.splits
    }

    /// Enters a split on this variable, which stands at this place: the way goes on in its left
    /// half. Where a request for memory is refused, the place stays.
    pub fn enter(&mut self, var: u32) -> Result<(), AllocError>
        ensures { OnOk result (self.new ≡ record { var = var; left = None } ∷ self.old) }
    {
        self.splits.push(Split { var, left: None })?;
        Ok(())
    }

    /// Comes to the place of another walk. It takes no memory while there is room for as many splits.
    /// Where a request for memory is refused, it comes to a place above.
    pub fn stand_at(&mut self, other: &Walk<T>) -> Result<(), AllocError>
    where
        T: Copy,
        ensures { OnOk result (self.new ≡ other.now) }
    {
        self.splits.clear();
        for split in &other.splits {
            let (var, left) = (split.var, split.left);
            self.splits.push(Split { var, left })?;
        }
        Ok(())
    }

    /// Leaves this place, which is done and came to this value.
    pub fn leave(&mut self, done: T) -> Result<Turn<T>, AllocError>
        ensures { IfOk result (λ t. Turns self.old done t self.new) }
    {
        let Some(split) = self.splits.pop() else {
            return Ok(Turn::End(done));
        };
        let Split { var, left } = split;
        match left {
            Some(left) => Ok(Turn::Both {
                var,
                left,
                right: done,
            }),
            None => {
                let left = Some(done);
                self.splits.push(Split { var, left })?;
                Ok(Turn::Right(var))
            }
        }
    }
}

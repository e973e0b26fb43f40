//! The cubes that hands have before them.
ghost use Rattle.std.specs.Prelude.{◌≡◌, List, [], ◌∷◌, ◌++◌, Contains, IfOk, IfSome, IfNone, slice_get};
ghost use Rattle.theory.specs.Literals.{Literal};

use kernel::Cube;
use std::alloc::{AllocError, Global};
use std::sync::atomic::{AtomicU64, Ordering};

/// The cubes of a part, from left to right, which hands take one after the other.
#[derive(Drop)]
pub(crate) struct Waiting {
    cubes: Vec<Cube>,
    /// The place of the next one.
    next: AtomicU64,
}

impl Waiting {
    pub(crate) fn of(cubes: Vec<Cube>) -> Waiting
        ensures { result.cubes ≡ cubes }
    {
        Waiting {
            cubes,
            next: AtomicU64::new(0),
        }
    }

    /// A copy of the cube at a place, if there is one.
    fn at(&self, place: usize) -> Result<Option<Cube>, AllocError>
        ensures { IfOk result (λ cube. cube ≡ slice_get self.now.cubes.items place) }
    {
        match self.cubes.get(place) {
            Some(cube) => Ok(Some(cube.copied()?)),
            None => Ok(None),
        }
    }

    /// The next cube, if one is left. No contract knows which place a hand comes to.
    fn take(&self) -> Result<Option<Cube>, AllocError>
        ensures { IfOk result (λ next. IfSome next (λ cube. Contains self.now.cubes.items cube)) }
    {
        let place = self.next.fetch_add(1, Ordering::SeqCst);
        let next = self.at(place as usize)?;
        Ok(next)
    }

    /// Leaves the cubes that weren't taken.
    fn leave(&self) {
        self.next.store(self.cubes.len() as u64, Ordering::SeqCst);
    }
}

/// The way of a hand: what the splits of the cube that it took leave, the last one first, and then
/// the cubes that wait.
#[derive(Drop)]
pub(crate) struct Way<'a> {
    pub(crate) own: Vec<Cube>,
    waiting: &'a Waiting,
}

impl<'a> Way<'a> {
    pub(crate) fn of(alloc: Global, waiting: &'a Waiting) -> Way<'a>
        ensures own { result.own.items ≡ [] }
        ensures waiting { result.waiting.now.cubes ≡ waiting.now.cubes }
    {
        Way {
            own: Vec::new(alloc),
            waiting,
        }
    }

    /// The next cube, if one is left: the last one of its own, or where it has none, one that waits.
    pub(crate) fn next(&mut self) -> Result<Option<Cube>, AllocError>
        ensures own { (cubes : List (List Literal)) (cube : List Literal) → self.old.own.items ≡ cubes ++ cube ∷ [] → (result ≡ Ok (Some cube)) × (self.new.own.items ≡ cubes) }
        ensures none { self.old.own.items ≡ [] → self.new.own.items ≡ [] }
        ensures last { IfOk result (λ next. IfNone next (self.new.own.items ≡ [])) }
        ensures waiting { self.old.own.items ≡ [] → IfOk result (λ next. IfSome next (λ cube. Contains self.old.waiting.now.cubes.items cube)) }
    {
        match self.own.pop() {
            Some(cube) => Ok(Some(cube)),
            None => self.waiting.take(),
        }
    }

    /// Leaves its own cubes, and those that wait.
    pub(crate) fn leave(&mut self)
        ensures { self.new.own.items ≡ [] }
    {
        self.own.clear();
        self.waiting.leave();
    }
}

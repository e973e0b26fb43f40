//! Outcomes of cubes that are known, and looking them up.
ghost use Rattle.std.specs.Prelude.{◌≡◌, ◌≢◌, List, Some, None, IfOk, OnOk};
ghost use Rattle.theory.specs.Literals.{Literal};
ghost use Rattle.trail.specs.Cubes.{AreOfVariables};
ghost use Rattle.cubes.specs.Known.{AreKnown, known_of};
ghost use Rattle.cubes.specs.Solved.{results_by};

use crate::solved::{Solved, What};
use cdcl::{KeepsLines, Outcome};
use cnf::Lit;
use kernel::Cube;
use std::alloc::{AllocError, Global};
use std::collections::HashMap;

/// Outcomes of cubes, by the cubes' literals.
#[derive(Drop)]
pub(crate) struct Known<L> {
    outcomes: HashMap<Vec<Lit>, Outcome<L>>,
}

impl<L: KeepsLines> Known<L> {
    /// The outcomes among the results. Of two outcomes of one cube the later one serves.
    pub(crate) fn new(alloc: Global, results: Vec<Solved<L>>) -> Result<Known<L>, AllocError>
        ensures { IfOk result (λ k. AreKnown L.lines (results_by L.lines results.items) k) }
    {
        let mut known = Known {
            outcomes: HashMap::new(alloc),
        };
        for solved in results {
            let Solved { cube, what } = solved;
            match what {
                What::Done(outcome) => known.put(alloc, &cube, outcome)?,
                What::Skipped(_) => {}
            }
        }
        Ok(known)
    }

    fn put(&mut self, alloc: Global, cube: &Cube, outcome: Outcome<L>) -> Result<(), AllocError>
        ensures outcome { OnOk result (known_of self.new cube.now ≡ Some outcome) }
        ensures others { OnOk result ((Q : List Literal) → AreOfVariables Q → Q ≢ cube.now → known_of self.new Q ≡ known_of self.old Q) }
        ensures variables { AreOfVariables cube.now }
    {
        let lits = Vec::from_slice(alloc, cube.lits())?;
        self.outcomes.insert(lits, outcome)?;
        Ok(())
    }

    /// The outcome of the cube, if it is known; it is handed out once. It costs a look-up.
    pub(crate) fn take(&mut self, cube: &Cube) -> Option<Outcome<L>>
        ensures outcome { result ≡ known_of self.old cube.now }
        ensures gone { known_of self.new cube.now ≡ None }
        ensures others { (Q : List Literal) → AreOfVariables Q → Q ≢ cube.now → known_of self.new Q ≡ known_of self.old Q }
        ensures variables { AreOfVariables cube.now }
    {
        self.outcomes.remove(cube.lits())
    }
}

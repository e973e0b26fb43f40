//! Facts from bytes that nobody vouches for.
ghost use Rattle.std.specs.Prelude.{◌≡◌, ℕ, [], IfOk, MatchOption};
ghost use Rattle.theory.specs.Literals.{IsCube};
ghost use Rattle.theory.specs.Truth.{IsOver};
ghost use Rattle.packs.specs.declared.fact.Claim as claims;
ghost use Rattle.packs.specs.declared.fact.Fact as facts;
ghost use Rattle.packs.specs.Facts.{hints_of, lines_behind, IsClaimOver, IsReadAs};

use crate::fact::{Claim, Fact};
use cnf::Lit;
use kernel::Cube;
use lines::Row;
use lrat::Held;
use std::alloc::{AllocError, Global};
use std::marker::Model;

/// Reads facts of cubes over the variables from 1 on, one after the other. It takes memory by the
/// variables, and by the longest cube.
#[derive(Drop)]
pub struct FactReader {
    alloc: Global,
    // the literals of the cube that is read; none between two facts
    held: Held,
}

impl Model for FactReader {
    ghost use Rattle.std.specs.Prelude.{◌≡◌, ℕ, []};

    // how many variables there are
    ghost Value = { ℕ };

    ghost view = { λ a. a.held.vars };

    ghost invariant = { λ a. a.held.literals ≡ [] };
}

/// What the hints of a fact's first line and the lines behind it say of its cube.
fn claim_of(vars: u32, hints: &[u64], left: Row) -> Option<Claim>
    ensures { MatchOption result
        ((claim : claims.Claim) → hints.now ≡ hints_of claim → left ≡ lines_behind claim → IsClaimOver vars claim → ⊥)
        (λ claim. (hints.now ≡ hints_of claim) × (left ≡ lines_behind claim) × IsClaimOver vars claim) }
{
    if hints.len() == 1 && hints[0] == 2 {
        return Some(Claim::Refuted(left));
    }
    if left.len() > 0 {
        return None;
    }
    if hints.len() == 1 && hints[0] == 3 {
        return Some(Claim::Model);
    }
    if hints.len() == 2 && hints[0] == 1 && 1 <= hints[1] && hints[1] <= u64::from(vars) {
        return Some(Claim::Split(hints[1] as u32));
    }
    None
}

/// The cube of these literals, if they are one over the variables of `held`, which holds none, and
/// as many of them as are read afterwards.
fn cube_of(alloc: Global, held: &mut Held, literals: &[Lit]) -> Result<Option<Cube>, AllocError>
    requires { held.old.literals ≡ [] }
    ensures cube { IfOk result (λ o. MatchOption o
        (IsCube literals.now → IsOver held.old.vars literals.now → ⊥)
        (λ q. (q ≡ literals.now) × IsCube literals.now × IsOver held.old.vars literals.now)) }
    ensures vars { held.new.vars ≡ held.old.vars }
{
    let mut cube = Cube::root(alloc);
    for lit in literals {
        let lit = *lit;
        if lit.var() > held.vars() {
            return Ok(None);
        }
        if held.value(lit.var()).is_some() {
            return Ok(None);
        }
        held.push(lit)?;
        cube.push(lit)?;
    }
    Ok(Some(cube))
}

impl FactReader {
    /// A reader of facts over so many variables. It fails where a request for memory is refused.
    pub fn open(alloc: Global, vars: u32) -> Result<FactReader, AllocError>
        ensures { IfOk result (λ r. r ≡ vars) }
    {
        Ok(FactReader {
            alloc,
            held: Held::new(alloc, vars)?,
        })
    }

    /// The fact that bytes are, if they are one: of a cube over the variables, and with a split on
    /// one of these. They may be any. The lines of a refuted cube stay in their memory. It takes
    /// time by the bytes and memory by the cube, and fails where a request for memory is refused; it
    /// can be asked again then.
    pub fn read(&mut self, bytes: Vec<u8>) -> Result<Option<Fact>, AllocError>
        ensures fact { IfOk result (λ o. MatchOption o
            ((f : facts.Fact) → ¬ (IsReadAs self.old bytes.items f))
            (λ f. IsReadAs self.old bytes.items f)) }
        ensures stays { self.new ≡ self.old }
    {
        let Some(mut lines) = Row::from_bytes(bytes) else {
            return Ok(None);
        };
        let mut literals = Vec::new(self.alloc);
        let mut hints = Vec::new(self.alloc);
        let mut forgets = Vec::new(self.alloc);
        if !lines.take_first(&mut literals, &mut hints, &mut forgets)? || !forgets.is_empty() {
            return Ok(None);
        }
        let Some(claim) = claim_of(self.held.vars(), &hints, lines) else {
            return Ok(None);
        };
        let cube = cube_of(self.alloc, &mut self.held, &literals);
        self.held.go_back(0);
        match cube? {
            Some(cube) => Ok(Some(Fact { cube, claim })),
            None => Ok(None),
        }
    }
}

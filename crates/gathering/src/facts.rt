//! Facts from what solvers come to, and back.
ghost use Rattle.std.specs.Prelude.{◌≡◌, MatchOption};
ghost use Rattle.packs.specs.declared.fact.Claim.TheVariants.{Model};
ghost use Rattle.cdcl.specs.Outcome.{outcome_of};
ghost use Rattle.theory.specs.Results.{done};
ghost use Rattle.gathering.specs.Facts.{claim_of, IsDoneAs, IsSolvedAs};

use cdcl::Outcome;
use cubes::{Solved, What};
use kernel::Cube;
use lines::Row;
use packs::{Claim, Fact};

/// What is said of a cube that was solved. A model's truth values aren't kept.
pub fn fact_of(cube: Cube, outcome: Outcome<Row>) -> Fact
    ensures { result ≡ record { cube = cube; claim = claim_of (outcome_of outcome) } }
{
    let claim = match outcome {
        Outcome::Model(_) => Claim::Model,
        Outcome::Refuted(row) => Claim::Refuted(row),
        Outcome::Exhausted(var) => Claim::Split(var),
    };
    Fact { cube, claim }
}

/// The outcome that a claim says. Of a model, which is only claimed, there is none.
pub(crate) fn outcome_of_claim(claim: Claim) -> Option<Outcome<Row>>
    ensures { MatchOption result (claim ≡ Model) (λ o. IsDoneAs claim (done (outcome_of o))) }
{
    match claim {
        Claim::Split(var) => Some(Outcome::Exhausted(var)),
        Claim::Refuted(row) => Some(Outcome::Refuted(row)),
        Claim::Model => None,
    }
}

/// What became of a cube, if the fact that is said of it is so. Of a model, which is only claimed,
/// there is none.
pub(crate) fn solved_of(fact: Fact) -> Option<Solved<Row>>
    ensures { MatchOption result (fact.claim ≡ Model) (λ s. IsSolvedAs fact s) }
{
    let Fact { cube, claim } = fact;
    match outcome_of_claim(claim) {
        Some(outcome) => Some(Solved {
            cube,
            what: What::Done(outcome),
        }),
        None => None,
    }
}

//! A look at a cube, which takes the place of its search where a formula is divided.
ghost use Rattle.std.specs.Prelude.{◌≡◌, ◌<◌, ◌^◌, [], List, take, false, IfOk, OnOk};
ghost use Rattle.theory.specs.Literals.{Literal};
ghost use Rattle.theory.specs.Truth.{Formula, IsOver};
ghost use Rattle.theory.specs.Trails.{current_level, cube_trail};
ghost use Rattle.theory.specs.Held.{least_held};
ghost use Rattle.theory.specs.Looking.{SplitsInto, Looks};
ghost use Rattle.kernel.specs.declared.order.Order.TheVariants.{ByPlace};
ghost use Rattle.lookahead.specs.Rankings.{IsRanking};
ghost use Rattle.lookahead.specs.Resting.{IsAtRest};
ghost use Rattle.cdcl.specs.Outcome.{outcome_of};
ghost use Rattle.cdcl.specs.Searching.{IsReady};
ghost use Rattle.cdcl.specs.Focusing.{IsEquipped, IsFocusing, Continues, IsKept};

use cdcl::{FocusedSearch, LineLog, Outcome};
use kernel::Cube;
use lookahead::{Ranking, choose};
use std::alloc::AllocError;

/// The variables of the formula by rank.
pub(crate) fn rank(search: &FocusedSearch) -> Result<Ranking, AllocError>
    requires { search.now.kernel.vars < 2 ^ 31 }
    ensures { IfOk result (IsRanking search.now.kernel.vars (take search.now.kernel.first search.now.kernel.clauses)) }
{
    Ranking::of(search.allocator(), &search.kernel)
}

/// Where propagation came to rest: the model where no held variable is free, and else the variable
/// that the cube is split on.
fn look_at_rest(
    search: &mut FocusedSearch,
    ranking: &Ranking,
) -> Result<Outcome<LineLog>, AllocError>
    requires focusing { IsFocusing search.old }
    requires rest { IsAtRest search.old.kernel }
    requires ranking { IsRanking search.old.kernel.vars search.old.kernel.clauses ranking.now }
    ensures splits { IfOk result (λ o. (F : Formula) → search.old.kernel.vars ≡ F.vars → search.old.kernel.clauses ≡ F.clauses →
        SplitsInto F search.old.kernel.trail (least_held F search.old.kernel.trail) (outcome_of o)) }
    ensures kept { OnOk result (Continues search.old search.new) }
{
    let alloc = search.allocator();
    match choose(alloc, &mut search.kernel, ranking)? {
        None => Ok(Outcome::Model(search.values()?)),
        Some(var) => Ok(Outcome::Exhausted(var)),
    }
}

/// A look at the cube that was begun.
fn look_from_here(
    search: &mut FocusedSearch,
    ranking: &Ranking,
) -> Result<Outcome<LineLog>, AllocError>
    requires focusing { IsFocusing search.old }
    requires level { current_level search.old.kernel.trail ≡ 0 }
    requires ranking { IsRanking search.old.kernel.vars search.old.kernel.clauses ranking.now }
    ensures looks { IfOk result (λ o. (F : Formula) (Q : List Literal) → search.old.kernel.vars ≡ F.vars → search.old.kernel.clauses ≡ F.clauses →
        search.old.kernel.trail ≡ cube_trail Q → search.old.lines ≡ [] → Looks F Q (outcome_of o)) }
    ensures kept { OnOk result (Continues search.old search.new) }
{
    match search.propagate()? {
        None => look_at_rest(search, ranking),
        Some(refuted) => Ok(refuted),
    }
}

/// A look at a cube: propagation alone, and then the variable that is worth most.
pub(crate) fn look(
    search: &mut FocusedSearch,
    cube: &Cube,
    ranking: &Ranking,
) -> Result<Outcome<LineLog>, AllocError>
    requires over { search.old.kernel.out_of_memory ≡ false → IsOver search.old.kernel.vars cube.now }
    requires equipped { IsEquipped search.old }
    requires ready { (F : Formula) × IsReady ByPlace F search.old.kernel × IsRanking F.vars F.clauses ranking.now }
    ensures looks { IfOk result (λ o. (F : Formula) → IsReady ByPlace F search.old.kernel → Looks F cube.now (outcome_of o)) }
    ensures kept { OnOk result (IsKept search.old search.new) }
{
    let before = search.counts().conflicts;
    search.begin(cube)?;
    let outcome = look_from_here(search, ranking)?;
    let conflicts = search.counts().conflicts.saturating_sub(before);
    search.add_look(&outcome, conflicts);
    Ok(outcome)
}

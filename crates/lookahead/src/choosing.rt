//! A look at a cube: what the decision of each candidate brings.
ghost use Rattle.std.specs.Prelude.{◌≡◌, ◌≤◌, ◌↔◌, ℕ, true, false, filter, All, IfOk, IfSome, IsNone, OnOk};
ghost use Rattle.theory.specs.Literals.{IsVariable, has_var};
ghost use Rattle.theory.specs.Trails.{literals, variables};
ghost use Rattle.theory.specs.Held.{is_held};
ghost use Rattle.theory.specs.Looking.{Brings, IsWorth, no_choice, better_choice, Chooses, ranks, best_ones, max_candidates};
ghost use Rattle.lookahead.specs.Rankings.{IsRanking};
ghost use Rattle.lookahead.specs.Resting.{IsAtRest};

use crate::ranking::Ranking;
use cnf::Lit;
use kernel::{Closed, SearchKernel};
use std::alloc::{AllocError, Global};
use std::marker::Model;

/// How many entries the decision of a free literal brings to the trail, itself among them; none
/// where a clause comes to be false. It leaves the kernel as it was, except where memory is
/// refused.
fn brings(kernel: &mut SearchKernel, lit: Lit) -> Result<Option<u64>, AllocError>
    requires rest { IsAtRest kernel.old }
    requires free { IsVariable kernel.old.vars lit.var × (has_var (literals kernel.old.trail) lit.var ≡ false) }
    ensures brings { IfOk result (Brings kernel.old.clauses kernel.old.trail lit) }
    ensures few { IfOk result (λ count. IfSome count (λ n. n ≤ kernel.old.vars)) }
    ensures kept { OnOk result (kernel.new ≡ kernel.old) }
{
    let before = kernel.trail().len();
    kernel.decide(lit);
    let closed = kernel.close()?;
    let count = (kernel.trail().len() - before) as u64;
    kernel.back_to(0);
    match closed {
        Closed::Quiet => Ok(Some(count)),
        Closed::Conflict(_) => Ok(None),
    }
}

/// What a free variable is worth; none where one of its literals fails. Its negation is tried
/// first.
fn worth(kernel: &mut SearchKernel, var: u32) -> Result<Option<u64>, AllocError>
    requires rest { IsAtRest kernel.old }
    requires free { IsVariable kernel.old.vars var × (has_var (literals kernel.old.trail) var ≡ false) }
    ensures worth { IfOk result (IsWorth kernel.old.clauses kernel.old.trail var) }
    ensures kept { OnOk result (kernel.new ≡ kernel.old) }
{
    match brings(kernel, Lit::of(var, false))? {
        None => Ok(None),
        Some(a) => match brings(kernel, Lit::of(var, true))? {
            None => Ok(None),
            Some(b) => Ok(Some(1024 * a * b + a + b)),
        },
    }
}

/// A variable, and what it is worth.
#[derive(Clone, Copy)]
struct Choice {
    var: u32,
    worth: u64,
}

impl Model for Choice {
    ghost use Rattle.theory.specs.Looking as looking;

    ghost Value = { looking.Choice };

    ghost view = { λ c. record { var = c.var; worth = c.worth } };

    ghost inverse = { λ c. record { var = c.var; worth = c.worth } };
}

/// The one that is worth more, of equal ones the first.
fn better(first: Choice, second: Choice) -> Choice
    ensures { result ≡ better_choice first second }
{
    if first.worth < second.worth {
        second
    } else {
        first
    }
}

/// The first of the candidates of which a literal fails, or, where there is none, the one that is
/// worth most.
fn best(kernel: &mut SearchKernel, candidates: &[u32]) -> Result<u32, AllocError>
    requires rest { IsAtRest kernel.old }
    requires free { All (λ x. IsVariable kernel.old.vars x × (has_var (literals kernel.old.trail) x ≡ false)) candidates.now }
    ensures chooses { IfOk result (Chooses kernel.old.clauses kernel.old.trail no_choice candidates.now) }
    ensures kept { OnOk result (kernel.new ≡ kernel.old) }
{
    let mut choice = Choice { var: 0, worth: 0 };
    for var in candidates {
        match worth(kernel, *var)? {
            None => return Ok(*var),
            Some(worth) => choice = better(choice, Choice { var: *var, worth }),
        }
    }
    Ok(choice.var)
}

/// The variable that a cube is split on, where propagation left the kernel's trail at level 0; none
/// where no variable that a clause holds is free. It takes time by the propagation of two literals
/// for each of at most 32 candidates, and leaves the kernel as it was, except where memory is
/// refused.
pub fn choose(
    alloc: Global,
    kernel: &mut SearchKernel,
    ranking: &Ranking,
) -> Result<Option<u32>, AllocError>
    requires rest { IsAtRest kernel.old }
    requires ranking { IsRanking kernel.old.vars kernel.old.clauses ranking.now }
    ensures none { IfOk result (λ found. IsNone found ↔
        ((v : ℕ) → IsVariable kernel.old.vars v → is_held kernel.old.clauses v ≡ true → has_var (literals kernel.old.trail) v ≡ true)) }
    ensures chooses { IfOk result (λ found. IfSome found (Chooses kernel.old.clauses kernel.old.trail no_choice
        (best_ones max_candidates (filter (is_held kernel.old.clauses) (variables kernel.old.vars))
        (ranks kernel.old.vars kernel.old.clauses) (literals kernel.old.trail)))) }
    ensures kept { OnOk result (kernel.new ≡ kernel.old) }
{
    let candidates = ranking.candidates(alloc, kernel)?;
    if candidates.is_empty() {
        return Ok(None);
    }
    let var = best(kernel, &candidates)?;
    Ok(Some(var))
}

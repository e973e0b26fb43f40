//! The variables of a formula by their ranks: which of them a look tries.
ghost use Rattle.std.specs.Prelude.{◌≡◌, ◌<◌, ◌≤◌, ◌+◌, ◌*◌, ◌^◌, ℕ, List, take, length, map, filter, IfOk, vec_len};
ghost use Rattle.std.specs.List.Sorted.{IsPermutation, IsSortedBy};
ghost use Rattle.std.specs.Ordering.{is_lt};
ghost use Rattle.theory.specs.Literals.{Literal, Clause};
ghost use Rattle.theory.specs.Trails.{literals, variables};
ghost use Rattle.theory.specs.Held.{is_held};
ghost use Rattle.theory.specs.Looking.{rank, ranks, best_ones, max_candidates};
ghost use Rattle.cnf.specs.Lits.{code};
ghost use Rattle.lookahead.specs.Tables.{at, AreOccurrences};
ghost use Rattle.lookahead.specs.Rankings.{goes_before, ranked_by, first_free, IsRanking};

use crate::occurrences::occurrences;
use cnf::Lit;
use kernel::SearchKernel;
use std::alloc::{AllocError, Global};
use std::cmp::Ordering;
use std::marker::Model;

/// So many variables are tried in a look, if as many are free.
const MAX_CANDIDATES: usize = 32;

/// The rank of a variable that no clause holds.
const NOT_HELD: u64 = 1;

/// A variable with its rank.
#[derive(Clone, Copy)]
pub(crate) struct Ranked {
    pub(crate) rank: u64,
    pub(crate) var: u32,
}

/// Which of two goes first: that of greater rank, of the same rank the greater variable.
fn compare(a: &Ranked, b: &Ranked) -> Ordering
    ensures { is_lt result ≡ goes_before a.now b.now }
{
    if a.rank != b.rank {
        return b.rank.cmp(&a.rank);
    }
    b.var.cmp(&a.var)
}

/// Sorts variables so that those of greatest rank come first.
fn sort(ranked: &mut [Ranked])
    ensures permutation { IsPermutation ranked.old ranked.new }
    ensures sorted { IsSortedBy goes_before ranked.new }
{
    ranked.sort_unstable_by(|a, b| compare(a, b));
}

/// The rank of a variable, where its literals stand in so many clauses.
fn rank_of(counts: &[u32], var: u32) -> u64
    requires variable { (1 ≤ var) × (var < 2 ^ 31) }
    requires room { 2 * var + 1 < length counts.now }
    requires few { (l : Literal) → l.var ≡ var → at counts.now (code l) < 2 ^ 31 }
    ensures { (K : List Clause) (V : ℕ) → AreOccurrences V K counts.now → var ≤ V → result ≡ rank K var }
{
    let positive = counts[Lit::of(var, true).code()];
    let negative = counts[Lit::of(var, false).code()];
    (u64::from(positive) + 1) * (u64::from(negative) + 1)
}

/// Whether a clause holds the variable, where its literals stand in so many clauses.
pub(crate) fn is_held(counts: &[u32], var: u32) -> bool
    requires variable { (1 ≤ var) × (var < 2 ^ 31) }
    requires room { 2 * var + 1 < length counts.now }
    requires few { (l : Literal) → l.var ≡ var → at counts.now (code l) < 2 ^ 31 }
    ensures { (K : List Clause) (V : ℕ) → AreOccurrences V K counts.now → var ≤ V → result ≡ is_held K var }
{
    rank_of(counts, var) > NOT_HELD
}

/// The variables that clauses hold in their own order, each with its rank.
fn rank_held(alloc: Global, counts: &[u32], vars: u32) -> Result<Vec<Ranked>, AllocError>
    requires vars { vars < 2 ^ 31 }
    requires room { length counts.now ≡ 2 * vars + 2 }
    requires few { (l : Literal) → l.var ≤ vars → at counts.now (code l) < 2 ^ 31 }
    ensures { IfOk result (λ r. (K : List Clause) → AreOccurrences vars K counts.now →
        r.items ≡ map (ranked_by (rank K)) (filter (is_held K) (variables vars))) }
{
    let mut ranked = Vec::new(alloc);
    for before in 0..vars {
        let var = before + 1;
        if is_held(counts, var) {
            let rank = rank_of(counts, var);
            ranked.push(Ranked { rank, var })?;
        }
    }
    Ok(ranked)
}

/// The variables that a kernel's first clauses hold, by falling rank: a variable ranks high where
/// both of its literals stand in many of them.
#[derive(Drop)]
pub struct Ranking {
    ranked: Vec<Ranked>,
}

impl Model for Ranking {
    ghost use Rattle.std.specs.Prelude.{List};
    ghost use Rattle.lookahead.specs.declared.ranking.Ranked.{Ranked};

    ghost Value = { List Ranked };

    ghost view = { λ r. r.ranked.items };
}

impl Ranking {
    /// Ranks the variables. It takes time by the literals of the first clauses and a sort of the
    /// variables, and 16 bytes a variable.
    pub fn of(alloc: Global, kernel: &SearchKernel) -> Result<Ranking, AllocError>
        requires { kernel.now.vars < 2 ^ 31 }
        ensures { IfOk result (IsRanking kernel.now.vars (take kernel.now.first kernel.now.clauses)) }
    {
        let counts = occurrences(alloc, kernel)?;
        let mut ranked = rank_held(alloc, &counts, kernel.vars())?;
        sort(&mut ranked);
        Ok(Ranking { ranked })
    }

    /// The variables to try: the first ones that are free. It takes time by those that stand before
    /// them.
    pub(crate) fn candidates(
        &self,
        alloc: Global,
        kernel: &SearchKernel,
    ) -> Result<Vec<u32>, AllocError>
        ensures { IfOk result (λ xs. xs.items ≡ first_free max_candidates (literals kernel.now.trail) self.now) }
    {
        let mut candidates = Vec::new(alloc);
        let mut place = 0;
        while place < self.ranked.len() && candidates.len() < MAX_CANDIDATES {
            let var = self.ranked[place].var;
            if kernel.value(var).is_none() {
                candidates.push(var)?;
            }
            place += 1;
        }
        Ok(candidates)
    }
}

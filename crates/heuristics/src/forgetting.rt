//! Which learnt clauses the focused search forgets.
ghost use Rattle.std.specs.Prelude.{◌≡◌, ◌-◌, ◌/◌, not, map, filter, length, vec_len, IfOk};
ghost use Rattle.std.specs.List.Sorted.{IsPermutation, IsSortedBy};
ghost use Rattle.std.specs.Ordering.{is_lt};
ghost use Rattle.theory.specs.Forgetting as forgetting;
ghost use Rattle.heuristics.specs.Lateness.{AreOfDistinctNumbers};

use crate::candidate::Candidate;
use std::alloc::{AllocError, Global};
use std::cmp::Ordering;

/// Which of two candidates goes first: that of less glue, of the same glue the smaller one, and of
/// the same size too the one of greater number.
fn compare(a: &Candidate, b: &Candidate) -> Ordering
    ensures { is_lt result ≡ forgetting.goes_before a.now b.now }
{
    if a.glue != b.glue {
        return a.glue.cmp(&b.glue);
    }
    if a.size != b.size {
        return a.size.cmp(&b.size);
    }
    b.number.cmp(&a.number)
}

/// Sorts candidates so that those come last that are to be forgotten.
fn sort(candidates: &mut [Candidate])
    ensures permutation { IsPermutation candidates.old candidates.new }
    ensures sorted { IsSortedBy forgetting.goes_before candidates.new }
{
    candidates.sort_unstable_by(|a, b| compare(a, b));
}

/// The same candidates, sorted.
fn sorted(alloc: Global, candidates: &[Candidate]) -> Result<Vec<Candidate>, AllocError>
    ensures permutation { IfOk result (λ sorted. IsPermutation candidates.now sorted.items) }
    ensures sorted { IfOk result (λ sorted. IsSortedBy forgetting.goes_before sorted.items) }
{
    let mut sorted = Vec::from_slice(alloc, candidates)?;
    sort(&mut sorted);
    Ok(sorted)
}

/// The numbers of those candidates that don't go before one, in the candidates' order.
fn not_before(
    alloc: Global,
    candidates: &[Candidate],
    one: &Candidate,
) -> Result<Vec<u64>, AllocError>
    ensures { IfOk result (λ numbers. numbers.items
        ≡ map (λ a. a.number) (filter (λ a. not (forgetting.goes_before a one.now)) candidates.now)) }
{
    candidates
        .iter()
        .filter(|it| !compare(it, one).is_lt())
        .map(|it| it.number)
        .collect(alloc)
}

/// The numbers of all but the first quarter of the candidates, in the candidates' order. It takes
/// the time of a sort.
pub fn late_ones(alloc: Global, candidates: &[Candidate]) -> Result<Vec<u64>, AllocError>
    requires { AreOfDistinctNumbers candidates.now }
    ensures numbers { IfOk result (λ numbers. numbers.items ≡ forgetting.late_ones candidates.now) }
    ensures count { IfOk result (λ numbers. vec_len numbers ≡ length candidates.now - length candidates.now / 4) }
{
    let sorted = sorted(alloc, candidates)?;
    match sorted.get(sorted.len() / 4) {
        None => Ok(Vec::new(alloc)),
        Some(first) => not_before(alloc, candidates, first),
    }
}

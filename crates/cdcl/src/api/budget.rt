//! A cube's budget of conflicts.
ghost use Rattle.std.specs.Prelude.{◌≡◌, ◌≤◌, List, length};
ghost use Rattle.theory.specs.Literals.{Literal};
ghost use Rattle.theory.specs.Plans.{Constants};
ghost use Rattle.theory.specs.Search.{budget_within, max_focused};
ghost use Rattle.theory.specs.Runs.{most_conflicts, cube_budget};
ghost use Rattle.cdcl.specs.Plans.{search_of};

use crate::api::plan::{Plan, Search};

/// No cube has a greater budget by this search.
fn most_conflicts(search: Search) -> u32
    ensures same { (c : Constants) → result ≡ most_conflicts (search_of search c) }
    ensures within { (1 ≤ result) × (result ≤ max_focused) }
{
    match search {
        Search::Ordered => 1_000_000,
        Search::Focused => 1_000_000_000,
    }
}

/// The conflict that exhausts a cube of so many literals, where the root has this budget, and none is
/// greater than `most`.
fn within(most: u32, budget: u32, literals: usize) -> u32
    requires most { (1 ≤ most) × (most ≤ max_focused) }
    requires budget { (1 ≤ budget) × (budget ≤ max_focused) }
    ensures same { (Q : List Literal) → length Q ≡ literals → result ≡ budget_within most budget Q }
    ensures some { 1 ≤ result }
    ensures most { result ≤ most }
{
    // more literals than conflicts make no difference, and so the product can't wrap
    let most = u64::from(most);
    let literals = (literals as u64).min(most);
    (u64::from(budget) * (literals + 1)).min(most) as u32
}

/// The conflict that exhausts a cube of so many literals by this plan.
pub fn budget_of(plan: &Plan, literals: usize) -> u32
    ensures same { (Q : List Literal) → length Q ≡ literals → result ≡ cube_budget plan.now Q }
    ensures some { 1 ≤ result }
    ensures most { result ≤ max_focused }
{
    within(most_conflicts(plan.search()), plan.budget(), literals)
}

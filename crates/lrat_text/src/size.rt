//! How long the text of a step is.
ghost use Rattle.std.specs.Prelude.{◌≤◌};

use crate::step::{Addition, Deletion, Group, Step};
use cnf::Lit;

/// How many bytes a number has, and the space behind it.
fn number_size(n: u64) -> usize
    ensures { result ≤ 21 }
{
    n.checked_ilog10().unwrap_or(0) as usize + 2
}

/// How many bytes numbers have, each with a space behind it. Sizes stop at the greatest one.
fn numbers_size(numbers: &[u64]) -> usize {
    let mut size = 0usize;
    for number in numbers {
        size = size.saturating_add(number_size(*number));
    }
    size
}

/// How many bytes literals have, each with a space behind it.
fn literals_size(lits: &[Lit]) -> usize {
    let mut size = 0usize;
    for lit in lits {
        let sign = usize::from(!lit.positive());
        size = size.saturating_add(sign + number_size(lit.var() as u64));
    }
    size
}

/// How many bytes groups have.
fn groups_size(groups: &[Group]) -> usize {
    let mut size = 0usize;
    for group in groups {
        let candidate = 1 + number_size(group.candidate());
        size = size
            .saturating_add(candidate)
            .saturating_add(numbers_size(group.hints()));
    }
    size
}

/// How many bytes an addition has: two zeros stand in it.
fn addition_size(addition: &Addition) -> usize {
    (number_size(addition.id()) + 4)
        .saturating_add(literals_size(addition.clause()))
        .saturating_add(numbers_size(addition.hints()))
        .saturating_add(groups_size(addition.groups()))
}

/// How many bytes a deletion has: a `d` and a zero stand in it.
fn deletion_size(deletion: &Deletion) -> usize {
    (number_size(deletion.id()) + 4).saturating_add(numbers_size(deletion.ids()))
}

/// How many bytes the step's line has. A size stops at the greatest one.
pub fn line_size(step: &Step) -> usize {
    match step {
        Step::Add(addition) => addition_size(addition),
        Step::Delete(deletion) => deletion_size(deletion),
    }
}

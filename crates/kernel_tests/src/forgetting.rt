//! Forgetting learnt clauses, where the kernel's contract allows it, and what propagation then
//! answers.
ghost use Rattle.std.specs.Prelude.{◌≡◌, ◌<◌, ◌≤◌, true, false, None, All, length};
ghost use Rattle.theory.specs.Literals.{has, negated};
ghost use Rattle.theory.specs.Status.{is_false};
ghost use Rattle.theory.specs.Trails.{literals};
ghost use Rattle.theory.specs.Propagation.{least_false};
ghost use Rattle.theory.specs.Forgetting.{is_number, is_reason};

use crate::acts::{Act, Case, Opening, Row};
use cnf::Lit;
use kernel::{Closed, Entry, SearchKernel};
use std::alloc::AllocError;

fn is_number(number: u64, reason: Option<u64>) -> bool
    ensures { result ≡ is_number number reason }
{
    match reason {
        None => false,
        Some(reason) => number == reason,
    }
}

/// Whether the clause of a number is a reason on the trail.
pub fn is_reason(trail: &[Entry], number: u64) -> bool
    ensures { result ≡ is_reason trail.now number }
{
    for entry in trail {
        let entry = *entry;
        if is_number(number, entry.reason) {
            return true;
        }
    }
    false
}

/// Whether a learnt clause of this number is there, and no reason.
fn may_go(kernel: &SearchKernel, number: u64) -> bool
    ensures { result ≡ true → (kernel.now.first < number) × (number ≤ length kernel.now.clauses) × (is_reason kernel.now.trail number ≡ false) }
{
    if number <= kernel.first_count() || number > kernel.count() {
        return false;
    }
    !is_reason(kernel.trail(), number)
}

fn all_may_go(kernel: &SearchKernel, numbers: &[u64]) -> bool
    ensures { result ≡ true → All (λ n. (kernel.now.first < n) × (n ≤ length kernel.now.clauses) × (is_reason kernel.now.trail n ≡ false)) numbers.now }
{
    for number in numbers {
        if !may_go(kernel, *number) {
            return false;
        }
    }
    true
}

fn is_false(kernel: &SearchKernel, lit: Lit) -> bool
    ensures { result ≡ false → has (literals kernel.now.trail) (negated lit) ≡ false }
{
    let _trail = kernel.trail(); // it ensures what the proof needs of the trail
    match kernel.value(lit.var()) {
        None => false,
        Some(value) => value != lit.positive(),
    }
}

fn all_false(kernel: &SearchKernel, clause: &[Lit]) -> bool
    ensures { result ≡ false → is_false (literals kernel.now.trail) clause.now ≡ false }
{
    for lit in clause {
        if !is_false(kernel, *lit) {
            return false;
        }
    }
    true
}

/// Whether no clause is false.
fn is_open(kernel: &SearchKernel) -> bool
    ensures { result ≡ true → least_false (literals kernel.now.trail) kernel.now.clauses ≡ None }
{
    let mut number = 0;
    while number < kernel.count() {
        number += 1;
        if all_false(kernel, kernel.arranged(number)) {
            return false;
        }
    }
    true
}

/// Forgets clauses, if they may go. Whether they could.
pub fn forget(kernel: &mut SearchKernel, numbers: &[u64]) -> Result<bool, AllocError> {
    if !is_open(kernel) || !all_may_go(kernel, numbers) {
        return Ok(false);
    }
    kernel.forget(numbers)?;
    Ok(true)
}

pub static CASES: [Case; 2] = [
    // A learnt clause propagates until it is forgotten; the next one has the next number, and
    // another cube begins with none.
    Case {
        name: "a clause that is forgotten",
        text: "p cnf 4 1\n1 2 3 4 0\n",
        opening: Opening::Cube(&[]),
        rows: &[
            Row(Act::Decide(-1), Closed::Quiet, &[(-1, 0, 1)]),
            Row(Act::Decide(-2), Closed::Quiet, &[(-1, 0, 1), (-2, 0, 2)]),
            Row(
                Act::LearnPair(1, 1, 3),
                Closed::Quiet,
                &[(-1, 0, 1), (3, 2, 1)],
            ),
            Row(Act::BackTo(0), Closed::Quiet, &[]),
            Row(Act::Forget(&[2]), Closed::Quiet, &[]),
            Row(Act::Decide(-1), Closed::Quiet, &[(-1, 0, 1)]),
            Row(Act::Decide(-2), Closed::Quiet, &[(-1, 0, 1), (-2, 0, 2)]),
            Row(
                Act::LearnPair(1, 1, 4),
                Closed::Quiet,
                &[(-1, 0, 1), (4, 3, 1)],
            ),
            Row(Act::Restart(&[-1]), Closed::Quiet, &[(-1, 0, 0)]),
            Row(Act::Decide(-2), Closed::Quiet, &[(-1, 0, 0), (-2, 0, 1)]),
        ],
    },
    // Of three learnt clauses the middle one is forgotten; the other two stay as they were.
    Case {
        name: "a clause between two others",
        text: "p cnf 5 1\n1 2 3 4 5 0\n",
        opening: Opening::Cube(&[]),
        rows: &[
            Row(Act::Decide(-1), Closed::Quiet, &[(-1, 0, 1)]),
            Row(Act::Decide(-2), Closed::Quiet, &[(-1, 0, 1), (-2, 0, 2)]),
            Row(
                Act::LearnPair(1, 1, 3),
                Closed::Quiet,
                &[(-1, 0, 1), (3, 2, 1)],
            ),
            Row(
                Act::Decide(-2),
                Closed::Quiet,
                &[(-1, 0, 1), (3, 2, 1), (-2, 0, 2)],
            ),
            Row(
                Act::LearnPair(1, 1, 4),
                Closed::Quiet,
                &[(-1, 0, 1), (3, 2, 1), (4, 3, 1)],
            ),
            Row(
                Act::Decide(-2),
                Closed::Quiet,
                &[(-1, 0, 1), (3, 2, 1), (4, 3, 1), (-2, 0, 2)],
            ),
            Row(
                Act::LearnPair(1, 1, 5),
                Closed::Quiet,
                &[(-1, 0, 1), (3, 2, 1), (4, 3, 1), (5, 4, 1)],
            ),
            Row(Act::BackTo(0), Closed::Quiet, &[]),
            Row(Act::Forget(&[3]), Closed::Quiet, &[]),
            Row(
                Act::Decide(-1),
                Closed::Quiet,
                &[(-1, 0, 1), (3, 2, 1), (5, 4, 1)],
            ),
        ],
    },
];

//! Random sequences of clauses and questions over a few variables, beside a truth table.

use crate::asked::{add, ask};
use crate::truth_table::{are_true, assignment_of, has_model, satisfies};
use session::{Answer, Never, Session};
use std::alloc::{AllocError, Global};
use std::process::Abort;
use std::test::Fail;

/// The variables are 1 to this.
const VARS: u32 = 7;

/// Random numbers, by a linear congruence.
#[derive(Drop)]
struct Numbers {
    state: u64,
}

impl Numbers {
    /// A number below a bound above 0.
    fn below(&mut self, bound: u32) -> u32 {
        self.state = self
            .state
            .wrapping_mul(6_364_136_223_846_793_005)
            .wrapping_add(1_442_695_040_888_963_407);
        ((self.state >> 33) as u32).checked_rem(bound).unwrap_or(0)
    }

    /// The number of a literal.
    fn literal(&mut self) -> i32 {
        let var = (self.below(VARS) % 16) as i32 + 1;
        if self.below(2) == 0 { var } else { -var }
    }

    /// Up to so many literals.
    fn literals(&mut self, alloc: Global, most: u32) -> Result<Vec<i32>, AllocError> {
        let count = self.below(most.saturating_add(1));
        let mut literals = Vec::new(alloc);
        for _ in 0..count {
            literals.push(self.literal())?;
        }
        Ok(literals)
    }
}

/// Whether the numbers of a core's literals are among the assumptions.
fn is_part(core: &[i32], assumptions: &[i32]) -> bool {
    for number in core {
        if !assumptions.contains(number) {
            return false;
        }
    }
    true
}

/// Whether the answer is right.
fn is_right(
    alloc: Global,
    answer: &Answer,
    clauses: &[Vec<i32>],
    assumptions: &[i32],
) -> Result<bool, AllocError> {
    match answer {
        Answer::Model(values) => {
            let assignment = assignment_of(values);
            Ok(satisfies(assignment, clauses) && are_true(assignment, assumptions))
        }
        Answer::Unsatisfiable(core) => {
            let mut numbers = Vec::new(alloc);
            for lit in core {
                numbers.push(lit.number())?;
            }
            Ok(is_part(&numbers, assumptions) && !has_model(VARS, clauses, &numbers))
        }
        Answer::Unknown => Ok(false),
    }
}

/// Whether each answer of a sequence of ten rounds is right: some clauses, then a question.
fn are_right(alloc: Global, seed: u64) -> Result<bool, AllocError> {
    let mut numbers = Numbers { state: seed };
    let mut session = Session::open(alloc)?;
    let mut clauses = Vec::new(alloc);
    for _ in 0..10 {
        for _ in 0..numbers.below(6) {
            let clause = numbers.literals(alloc, 4)?;
            if clause.len() > 1 || numbers.below(8) == 0 {
                add(alloc, &mut session, &clause)?;
                clauses.push(clause)?;
            }
        }
        let assumptions = numbers.literals(alloc, 5)?;
        let answer = ask(alloc, &mut session, &assumptions, &Never)?;
        if !is_right(alloc, &answer, &clauses, &assumptions)? {
            return Ok(false);
        }
    }
    Ok(true)
}

#[test]
fn random_sequences(rt: HostRuntime) -> Result<(), Fail> {
    for seed in 0..300 {
        assert!(rt; are_right(rt.alloc(), seed)?, "{seed}");
    }
    Ok(())
}

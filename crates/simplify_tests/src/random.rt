//! Random formulas of a few variables: each assignment before a simplification and behind it.

use crate::shown::Patient;
use crate::truth_table::{satisfies, values_of};
use cnf::{Formula, read_formula};
use simplify::{Simplification, simplify};
use std::alloc::{AllocError, Global};
use std::fmt::Write;
use std::process::Abort;
use std::test::Fail;

/// Random numbers, by a linear congruence.
#[derive(Drop)]
struct Numbers {
    state: u64,
}

impl Numbers {
    /// A number below a bound above 0.
    fn below(&mut self, bound: u32) -> u32 {
        self.state = self
            .state
            .wrapping_mul(6_364_136_223_846_793_005)
            .wrapping_add(1_442_695_040_888_963_407);
        ((self.state >> 33) as u32).checked_rem(bound).unwrap_or(0)
    }
}

/// Puts a random clause over the variables 1 to `vars`: of two to four literals, seldom of one.
fn put_clause(text: &mut String, numbers: &mut Numbers, vars: u32) -> Result<(), AllocError> {
    let more = numbers.below(2) % 2 + numbers.below(2) % 2;
    let count = if numbers.below(100) == 0 { 1 } else { more + 2 };
    for _ in 0..count {
        let sign = if numbers.below(2) == 0 { "-" } else { "" };
        let var = 1 + numbers.below(vars) % 16;
        write!(text, "{sign}{var} ")?;
    }
    write!(text, "0\n")
}

/// The text of a random formula: up to eight variables, up to 31 clauses.
fn random_text(alloc: Global, seed: u64) -> Result<String, AllocError> {
    let mut numbers = Numbers { state: seed };
    let vars = 1 + numbers.below(8) % 8;
    let clauses = numbers.below(32) % 32;
    let mut text = String::new(alloc);
    write!(text, "p cnf {vars} {clauses}\n")?;
    for _ in 0..clauses {
        put_clause(&mut text, &mut numbers, vars)?;
    }
    Ok(text)
}

/// Whether an assignment that satisfies the formula satisfies what is left; and one that satisfies
/// what is left satisfies the formula, with the eliminated variables' values.
fn is_right_at(formula: &Formula, made: &Simplification, mut values: Vec<bool>) -> bool {
    let left = satisfies(made.formula(), &values);
    if !left {
        return !satisfies(formula, &values);
    }
    if values.len() != made.formula().vars() as usize {
        return false;
    }
    made.extend(&mut values);
    satisfies(formula, &values)
}

/// Whether each assignment is right.
fn is_right(alloc: Global, seed: u64) -> Result<bool, Fail> {
    let text = random_text(alloc, seed)?;
    let formula = read_formula(alloc, text.as_bytes())?;
    let vars = formula.vars();
    if vars < 1 || vars > 8 {
        return Ok(false);
    }
    let made = simplify(alloc, &formula, &Patient)?;
    for bits in 0..1u32 << vars {
        let values = values_of(alloc, vars, bits)?;
        if !is_right_at(&formula, &made, values) {
            return Ok(false);
        }
    }
    Ok(true)
}

// Of these formulas 127 are satisfiable. 63 are refuted by resolvents alone, and 15 others keep some
// clauses.
#[test]
fn random_formulas(rt: HostRuntime) -> Result<(), Fail> {
    for seed in 0..200 {
        assert!(rt; is_right(rt.alloc(), seed)?, "{seed}");
    }
    Ok(())
}

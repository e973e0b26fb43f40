//! Facts that are checked or not, by both searches.

use cnf::{Formula, Lit, read_formula};
use lines::Row;
use packs::{Claim, Fact, FactChecker};
use std::alloc::{AllocError, Global};
use std::test::Fail;
use test_samples::cube_of;

/// All four clauses over two variables.
static FOUR: &str = "p cnf 2 4\n1 2 0\n1 -2 0\n-1 2 0\n-1 -2 0\n";

/// What is said of a cube; where it is refuted, by one line with these hints.
#[derive(Clone, Copy)]
enum Said<'a> {
    Split(u32),
    Refuted(&'a [u64]),
    Model,
}

/// A name, a cube over three variables, what is said of it, and whether that is checked by the
/// ordered and by the focused search.
type Case<'a> = (&'a str, &'a [i32], Said<'a>, bool, bool);

static CASES: [Case; 10] = [
    ("the least split", &[], Said::Split(1), true, true),
    ("another split", &[], Said::Split(2), false, true),
    ("a split on nothing", &[], Said::Split(0), false, false),
    ("a split in the cube", &[1], Said::Split(1), false, false),
    (
        "a split of a refuted cube",
        &[1],
        Said::Split(2),
        false,
        true,
    ),
    (
        "a split of a cube that isn't the formula's",
        &[3],
        Said::Split(1),
        false,
        false,
    ),
    (
        "lines that replay",
        &[-1],
        Said::Refuted(&[1, 2]),
        true,
        true,
    ),
    (
        "lines that don't",
        &[-1],
        Said::Refuted(&[3, 4]),
        false,
        false,
    ),
    (
        "lines of a cube that isn't the formula's",
        &[1, 3],
        Said::Refuted(&[3, 4]),
        false,
        false,
    ),
    ("a model", &[], Said::Model, false, false),
];

/// The fact of a case.
fn fact_of(alloc: Global, case: &Case) -> Result<Fact, AllocError> {
    let claim = match case.2 {
        Said::Split(var) => Claim::Split(var),
        Said::Refuted(hints) => {
            let no_literals: [Lit; 0] = [];
            let mut row = Row::new(alloc);
            row.push(&no_literals, hints, &[])?;
            Claim::Refuted(row)
        }
        Said::Model => Claim::Model,
    };
    Ok(Fact {
        cube: cube_of(alloc, 3, case.1)?,
        claim,
    })
}

/// Whether a fact is checked by the ordered search.
fn by_order(alloc: Global, formula: &Formula, fact: &Fact) -> Result<bool, AllocError> {
    let mut checker = FactChecker::ordered(alloc, formula)?;
    let answer = checker.is_checked(formula, fact)?;
    Ok(answer)
}

/// Whether it is by the focused one.
fn by_focus(alloc: Global, formula: &Formula, fact: &Fact) -> Result<bool, AllocError> {
    let mut checker = FactChecker::focused(alloc, formula)?;
    let answer = checker.is_checked(formula, fact)?;
    Ok(answer)
}

/// The name of the first case that comes to something else.
fn first_other<'a>(alloc: Global, cases: &[Case<'a>]) -> Result<Option<&'a str>, Fail> {
    let formula = read_formula(alloc, FOUR.as_bytes())?;
    for case in cases {
        let fact = fact_of(alloc, case)?;
        let found = (
            by_order(alloc, &formula, &fact)?,
            by_focus(alloc, &formula, &fact)?,
        );
        if found != (case.3, case.4) {
            return Ok(Some(case.0));
        }
    }
    Ok(None)
}

#[test]
fn facts_are_checked_or_not(rt: HostRuntime) -> Result<(), Fail> {
    assert_eq!(rt; first_other(rt.alloc(), &CASES)?, None);
    Ok(())
}

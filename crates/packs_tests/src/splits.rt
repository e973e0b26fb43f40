//! Splits of cubes: which are the least ones, and which are fit.
ghost use Rattle.packs.specs.Splits.{IsReady};

use cnf::{Formula, read_formula};
use packs::{LeastSplits, is_fit_split};
use std::alloc::Global;
use std::test::Fail;
use test_samples::cube_of;

/// No variable is pure.
static FORMULA: &str = "p cnf 4 3\n1 2 0\n-1 3 0\n4 1 0\n";

/// A cube, a variable, whether it is the least one to split on, and whether it is fit for that.
type Case<'a> = (&'a [i32], u32, bool, bool);

static CASES: [Case; 12] = [
    (&[], 1, true, true),
    (&[], 2, false, true),
    (&[], 0, false, false),
    (&[], 5, false, false),
    (&[1], 2, true, true),
    (&[1], 3, false, true),
    (&[1], 1, false, false),
    (&[-1], 3, true, true),
    (&[-1], 2, false, true),
    (&[-1, -2], 3, false, true),
    (&[1, 2, 4], 3, false, true),
    (&[], 1, true, true),
];

/// Here 2 is pure.
static WITH_PURE: &str = "p cnf 3 1\n1 3 0\n";

static PURE_CASES: [Case; 3] = [
    (&[1], 3, true, true),
    (&[1], 2, false, true),
    (&[-1], 2, false, true),
];

/// Whether a cube's split on a variable is the least one, and whether it is fit.
fn split_of(
    alloc: Global,
    formula: &Formula,
    splits: &mut LeastSplits,
    case: &Case,
) -> Result<(bool, bool), Fail>
    requires { IsReady formula.now splits.old }
    ensures { IsReady formula.now splits.new }
{
    let cube = cube_of(alloc, formula.vars(), case.0)?;
    let least = splits.is_least(formula, &cube, case.1)?;
    Ok((least, is_fit_split(formula, &cube, case.1)))
}

/// The place of the first case that comes to something else.
fn first_of(alloc: Global, formula: &Formula, cases: &[Case]) -> Result<Option<usize>, Fail> {
    let mut splits = LeastSplits::open(alloc, formula)?;
    for index in 0..cases.len() {
        let case = cases[index];
        if split_of(alloc, formula, &mut splits, &case)? != (case.2, case.3) {
            return Ok(Some(index));
        }
    }
    Ok(None)
}

/// The same, of the formula of a text.
fn first_other(alloc: Global, text: &str, cases: &[Case]) -> Result<Option<usize>, Fail> {
    let formula = read_formula(alloc, text.as_bytes())?;
    first_of(alloc, &formula, cases)
}

#[test]
fn splits_are_least_or_not(rt: HostRuntime) -> Result<(), Fail> {
    assert_eq!(rt; first_other(rt.alloc(), FORMULA, &CASES)?, None);
    Ok(())
}

#[test]
fn pure_variables_are_not_free(rt: HostRuntime) -> Result<(), Fail> {
    assert_eq!(rt; first_other(rt.alloc(), WITH_PURE, &PURE_CASES)?, None);
    Ok(())
}

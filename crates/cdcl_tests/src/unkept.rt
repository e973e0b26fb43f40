//! Searches that keep no lines: a cube is refuted as by one that does, and no row is to be had.
use cdcl::{Outcome, Plan, Solver, Unkept, Unwatched};
use cnf::read_formula;
use kernel::Cube;
use lines::Row;
use std::alloc::{AllocError, Global};
use std::test::Fail;
use test_samples::{EIGHT, FOUR};

/// Whether the formula, which isn't satisfiable, is refuted by this plan, and its lines are refused.
fn comes(alloc: Global, text: &str, plan: Plan) -> Result<bool, Fail> {
    let formula = read_formula(alloc, text.as_bytes())?;
    let root = Cube::root(alloc);
    let mut solver = Solver::keeping(alloc, &formula, plan, false)?;
    let outcome: Outcome<Unkept> = solver.solve_as(&root, &Unwatched)?;
    let lines: Result<Outcome<Row>, AllocError> = solver.solve(&root);
    Ok(matches!(&outcome, Outcome::Refuted(_)) && lines.is_err())
}

#[test]
fn no_line_is_kept(rt: HostRuntime) -> Result<(), Fail> {
    for text in [FOUR, EIGHT] {
        assert!(rt; comes(rt.alloc(), text, Plan::ordered(1000))?, "{text}");
        assert!(rt; comes(rt.alloc(), text, Plan::focused(1000))?, "{text}");
    }
    Ok(())
}

//! Formulas that are made clause by clause.
use cnf::{Formula, Lit, read_formula};
use std::test::Fail;

#[test]
fn formulas_that_are_made(rt: HostRuntime) -> Result<(), Fail> {
    let mut formula = Formula::without_clauses(rt.alloc(), 3);
    formula.push(&[Lit::of(1, true), Lit::of(3, false)])?;
    formula.push(&[])?;
    formula.push(&[Lit::of(2, false)])?;
    let read = read_formula(rt.alloc(), b"p cnf 3 3\n1 -3 0\n0\n-2 0\n")?;
    assert!(rt; formula.vars() == read.vars());
    assert!(rt; formula.clause_count() == read.clause_count());
    assert!(rt; formula.literal_count() == read.literal_count());
    for place in 0..3 {
        assert!(rt; formula.clause(place).len() == read.clause(place).len());
        for at in 0..formula.clause(place).len() {
            assert!(rt; formula.clause(place)[at].same(&read.clause(place)[at]));
        }
    }
    Ok(())
}

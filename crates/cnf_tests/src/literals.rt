//! Literals, and formulas under truth values.
use cnf::{Lit, read_formula};
use std::test::Fail;

#[test]
fn literals(rt: HostRuntime) -> Result<(), Fail> {
    let lit = Lit::new(-3).ok_or("a literal")?;
    assert!(rt; lit.number() == -3 && lit.var() == 3 && !lit.positive());
    assert!(rt; lit.negated().number() == 3);
    assert!(rt; lit.same(&lit) && !lit.same(&lit.negated()));
    assert!(rt; Lit::of(3, false) == lit);
    assert!(rt; Lit::of(2_147_483_647, true).number() == 2_147_483_647);
    assert!(rt; Lit::new(0).is_none() && Lit::new(i32::MIN).is_none());
    Ok(())
}

#[test]
fn satisfied_by(rt: HostRuntime) -> Result<(), Fail> {
    let formula = read_formula(rt.alloc(), b"p cnf 2 2\n1 2 0\n-1 -2 0\n")?;
    assert!(rt; formula.vars() == 2);
    assert!(rt; formula.satisfied_by(&[true, false]));
    assert!(rt; !formula.satisfied_by(&[true, true]));
    assert!(rt; !formula.satisfied_by(&[false, false]));
    Ok(())
}

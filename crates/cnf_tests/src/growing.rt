//! Values and literals at the end of lists that grow.
use cnf::{Lit, put_last, put_literals};
use std::test::Fail;

#[test]
fn lists_that_grow(rt: HostRuntime) -> Result<(), Fail> {
    let clause = [Lit::of(1, true), Lit::of(2, false), Lit::of(3, true)];
    let mut numbers: Vec<u64> = Vec::new(rt.alloc());
    let mut literals = Vec::new(rt.alloc());
    for number in 0..100 {
        put_last(&mut numbers, number)?;
        put_literals(&mut literals, &clause)?;
    }
    assert!(rt; numbers.len() == 100 && numbers.last() == Some(&99));
    assert!(rt; literals.len() == 300 && literals.last() == clause.last());
    Ok(())
}

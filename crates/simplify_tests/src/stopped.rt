//! A simplification that is stopped.

use crate::shown::Patient;
use cnf::read_formula;
use simplify::{Simplification, Watcher, simplify};
use std::alloc::{AllocError, Global};
use std::process::Abort;
use std::test::Fail;

/// It stops each simplification as soon as it is asked.
struct Impatient;

impl Watcher for Impatient {
    fn looked_at(&self, _literals: u64) {}

    fn stops(&self) -> bool {
        true
    }
}

/// What a simplification under this watcher comes to.
fn simplified<W: Watcher>(
    alloc: Global,
    watcher: &W,
) -> Result<Result<Simplification, AllocError>, Fail> {
    let formula = read_formula(alloc, "p cnf 2 2\n1 2 0\n-1 -2 0\n".as_bytes())?;
    if formula.vars() < 1 {
        return Err("a formula without variables".into());
    }
    Ok(simplify(alloc, &formula, watcher))
}

#[test]
fn stopped_simplification(rt: HostRuntime) -> Result<(), Fail> {
    assert!(rt; simplified(rt.alloc(), &Impatient)?.is_err());
    let _ = simplified(rt.alloc(), &Patient)??;
    Ok(())
}

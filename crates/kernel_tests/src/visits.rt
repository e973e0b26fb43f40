//! How many visits of clauses propagation makes.
use crate::acts::{decide, opened};
use kernel::{Closed, SearchKernel};
use std::alloc::{AllocError, Global};
use std::test::Fail;

/// The formula of four variables that has one clause a thousand times.
pub fn thousand(alloc: Global) -> Result<Vec<u8>, AllocError> {
    let mut text = Vec::new(alloc);
    text.extend_from_slice(b"p cnf 4 1000\n")?;
    for _ in 0..1000 {
        text.extend_from_slice(b"2 3 0\n")?;
    }
    Ok(text)
}

/// Decides a literal, and how many visits propagation then makes.
fn visits_after(kernel: &mut SearchKernel, number: i32) -> Result<Option<u64>, AllocError> {
    let before = kernel.visits();
    if !decide(kernel, number)? || kernel.close()? != Closed::Quiet {
        return Ok(None);
    }
    Ok(Some(kernel.visits().saturating_sub(before)))
}

/// The visits before a decision, those after it and after another one, and the clause that gave
/// variable 3 its value.
type Visits = (u64, Option<u64>, Option<u64>, Option<u64>);

fn visits(kernel: &mut SearchKernel) -> Result<Visits, Fail> {
    let before = kernel.visits();
    let unwatched = visits_after(kernel, -1)?;
    let watched = visits_after(kernel, -2)?;
    let reason = match kernel.entry(3) {
        Some(entry) => entry.reason,
        None => None,
    };
    Ok((before, unwatched, watched, reason))
}

fn visits_of_a_thousand(alloc: Global) -> Result<Visits, Fail> {
    let mut kernel = opened(alloc, &thousand(alloc)?, &[])?;
    visits(&mut kernel)
}

#[test]
fn only_clauses_that_watch_it_are_visited(rt: HostRuntime) -> Result<(), Fail> {
    let found = visits_of_a_thousand(rt.alloc())?;
    assert!(rt; found == (0, Some(0), Some(1000), Some(1)), "{found:?}");
    Ok(())
}

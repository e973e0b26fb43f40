//! Worked look-ups: values, entries, levels and the least free variable; and cubes.
use crate::acts::{Act, acts, decide, opened};
use kernel::{Closed, Cube, SearchKernel};
use std::alloc::{AllocError, Global};
use std::test::Fail;
use test_samples::{cube_of, reads};

/// What look-ups answer after propagation came to rest: the level, the least free variable, and the
/// values of the numbers from 0 on.
#[derive(Clone, Copy)]
struct Seen<'a> {
    act: Act<'a>,
    level: u32,
    least_free: Option<u32>,
    values: &'a [Option<bool>],
}

/// Whether the variables have these values and, where they have one, an entry of that sign, in its
/// place.
fn has_values(kernel: &SearchKernel, wanted: &[Option<bool>]) -> bool {
    let mut var = 0u32;
    for value in wanted {
        let positive = kernel.entry(var).map(|entry| entry.lit.positive());
        if kernel.value(var) != *value || positive != *value || !has_place(kernel, var) {
            return false;
        }
        var = var.saturating_add(1);
    }
    true
}

/// Whether a variable's place is that of its entry, and none while it is free.
fn has_place(kernel: &SearchKernel, var: u32) -> bool {
    match kernel.place(var) {
        None => kernel.value(var).is_none(),
        Some(place) => match kernel.trail().get(place) {
            None => false,
            Some(entry) => {
                let entry = *entry;
                entry.lit.var() == var
            }
        },
    }
}

fn sees(alloc: Global, kernel: &mut SearchKernel, seen: &Seen) -> Result<bool, AllocError> {
    if !acts(alloc, kernel, seen.act)? || kernel.close()? != Closed::Quiet {
        return Ok(false);
    }
    let found = (kernel.level(), kernel.least_free());
    Ok(found == (seen.level, seen.least_free) && has_values(kernel, seen.values))
}

fn first_failed(
    alloc: Global,
    kernel: &mut SearchKernel,
    rows: &[Seen],
) -> Result<Option<usize>, Fail> {
    for place in 0..rows.len() {
        if !sees(alloc, kernel, &rows[place])? {
            return Ok(Some(place));
        }
    }
    Ok(None)
}

/// The place of the first row that a kernel which is opened at the root doesn't see, if there is
/// one.
fn failed_row(alloc: Global, text: &[u8], rows: &[Seen]) -> Result<Option<usize>, Fail> {
    let mut kernel = opened(alloc, text, &[])?;
    first_failed(alloc, &mut kernel, rows)
}

static NO_VARIABLES: [Seen; 1] = [Seen {
    act: Act::Nothing,
    level: 0,
    least_free: None,
    values: &[None, None],
}];

/// Whether a formula without variables has none, and no value of one that no formula has.
fn has_no_variables(alloc: Global) -> Result<bool, Fail> {
    let kernel = opened(alloc, b"p cnf 0 0\n", &[])?;
    Ok(kernel.vars() == 0 && kernel.value(u32::MAX).is_none())
}

const YES: Option<bool> = Some(true);

const NO: Option<bool> = Some(false);

const DECIDED_ONE: [Option<bool>; 6] = [None, YES, YES, None, None, None];

const DECIDED_BOTH: [Option<bool>; 6] = [None, YES, YES, NO, NO, None];

static THERE_AND_BACK: [Seen; 5] = [
    Seen {
        act: Act::Decide(1),
        level: 1,
        least_free: Some(3),
        values: &DECIDED_ONE,
    },
    Seen {
        act: Act::Decide(-3),
        level: 2,
        least_free: None,
        values: &DECIDED_BOTH,
    },
    Seen {
        act: Act::BackTo(1),
        level: 1,
        least_free: Some(3),
        values: &DECIDED_ONE,
    },
    Seen {
        act: Act::Decide(-3),
        level: 2,
        least_free: None,
        values: &DECIDED_BOTH,
    },
    Seen {
        act: Act::BackTo(0),
        level: 0,
        least_free: Some(1),
        values: &[None, None, None, None, None, None],
    },
];

#[test]
fn looks_up_and_goes_back(rt: HostRuntime) -> Result<(), Fail> {
    let text = b"p cnf 4 2\n2 -1 0\n-4 3 0\n";
    assert!(rt; failed_row(rt.alloc(), text, &THERE_AND_BACK)?.is_none());
    assert!(rt; failed_row(rt.alloc(), b"p cnf 0 0\n", &NO_VARIABLES)?.is_none());
    assert!(rt; has_no_variables(rt.alloc())?);
    Ok(())
}

/// Decides the least free variable, false, while there is one. The level that this comes to, if it
/// is as it is to be.
fn decide_all(kernel: &mut SearchKernel) -> Result<Option<u32>, Fail> {
    for var in 1..=kernel.vars() {
        if kernel.least_free() != Some(var) || !decide_least(kernel)? {
            return Ok(None);
        }
    }
    if kernel.least_free().is_some() {
        return Ok(None);
    }
    Ok(Some(kernel.level()))
}

fn decide_least(kernel: &mut SearchKernel) -> Result<bool, AllocError> {
    match kernel.least_free() {
        Some(var) if var < 262144 => decide(kernel, -(var as i32)),
        _ => Ok(false),
    }
}

fn levels(alloc: Global, text: &[u8]) -> Result<Option<u32>, Fail> {
    let mut kernel = opened(alloc, text, &[])?;
    decide_all(&mut kernel)
}

/// Whether a cube is what is pushed into it, and a pop takes the last literal.
fn is_popped(alloc: Global) -> Result<bool, AllocError> {
    let mut cube = cube_of(alloc, 9, &[3, -1, 3, 10])?;
    let is_pushed = reads(cube.lits(), &[3, -1]);
    let is_last = matches!(cube.pop(), Some(lit) if lit.number() == -1);
    Ok(is_pushed && is_last && reads(cube.lits(), &[3]))
}

#[test]
fn many_variables_and_cubes(rt: HostRuntime) -> Result<(), Fail> {
    assert!(rt; levels(rt.alloc(), b"p cnf 262143 0\n")? == Some(262143));
    assert!(rt; is_popped(rt.alloc())?);
    assert!(rt; Cube::root(rt.alloc()).lits().is_empty());
    Ok(())
}

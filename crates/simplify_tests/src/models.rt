//! Worked rows: models with the eliminated variables' values.

use crate::shown::simplified;
use std::alloc::{AllocError, Global};
use std::process::Abort;
use std::test::Fail;

/// A formula, a model of what its simplification leaves, and the model that it becomes; the literals
/// of the variables 1, 2 and so on that are true. The values that the first one has for eliminated
/// variables don't count.
struct Case {
    what: &'static str,
    formula: &'static str,
    given: &'static [i32],
    wanted: &'static [i32],
}

static CASES: [Case; 8] = [
    Case {
        what: "true where a clause needs it, else false",
        formula: "p cnf 3 2\n1 2 0\n1 3 0\n",
        given: &[-1, 2, 3],
        wanted: &[1, -2, -3],
    },
    Case {
        what: "a unit, and a variable that nothing holds",
        formula: "p cnf 2 1\n2 0\n",
        given: &[1, -2],
        wanted: &[-1, 2],
    },
    Case {
        what: "the second one, which is false, makes the first one true",
        formula: "p cnf 2 2\n1 2 0\n-1 -2 0\n",
        given: &[-1, 2],
        wanted: &[1, -2],
    },
    Case {
        what: "the second one, which is true, leaves the first one false",
        formula: "p cnf 3 3\n1 2 0\n-1 3 0\n-2 -3 0\n",
        given: &[1, -2, 3],
        wanted: &[-1, 2, -3],
    },
    Case {
        what: "units that make units",
        formula: "p cnf 3 3\n1 0\n-1 2 0\n-2 3 0\n",
        given: &[-1, -2, -3],
        wanted: &[1, 2, 3],
    },
    Case {
        what: "a unit of the negation",
        formula: "p cnf 3 4\n-1 0\n1 2 0\n-1 3 0\n1 -2 -3 0\n",
        given: &[1, 2, 3],
        wanted: &[-1, 2, -3],
    },
    Case {
        what: "a clause with both signs of the variable needs nothing",
        formula: "p cnf 2 2\n1 -1 2 0\n-1 2 0\n",
        given: &[1, 1],
        wanted: &[-1, -2],
    },
    Case {
        what: "none that is eliminated: an empty clause",
        formula: "p cnf 2 1\n0\n",
        given: &[1, -2],
        wanted: &[1, -2],
    },
];

/// The values that make these literals true.
fn values_of(alloc: Global, numbers: &[i32]) -> Result<Vec<bool>, AllocError> {
    let mut values = Vec::new(alloc);
    for number in numbers {
        values.push(*number > 0)?;
    }
    Ok(values)
}

/// Whether the model becomes what the row says.
fn is_as_worked(alloc: Global, case: &Case) -> Result<bool, Fail> {
    let made = simplified(alloc, case.formula)?;
    let mut values = values_of(alloc, case.given)?;
    if values.len() != made.formula().vars() as usize {
        return Ok(false);
    }
    made.extend(&mut values);
    let wanted = values_of(alloc, case.wanted)?;
    Ok(values.as_slice() == wanted.as_slice())
}

#[test]
fn extended_models(rt: HostRuntime) -> Result<(), Fail> {
    for case in &CASES {
        assert!(rt; is_as_worked(rt.alloc(), case)?, "{}", case.what);
    }
    Ok(())
}

/// A variable is eliminated whose clauses have variables that stay, each of which has more than a
/// hundred pairs.
fn staying_text(alloc: Global) -> Result<String, AllocError> {
    let mut text = String::from_str(alloc, "p cnf 4 104\n1 2 0\n-1 3 0\n-1 4 0\n")?;
    for _ in 0..101 {
        text.push_str("-2 -3 -4 0\n")?;
    }
    Ok(text)
}

/// Whether a model of what is left becomes this one.
fn becomes(alloc: Global, given: &[i32], wanted: &[i32]) -> Result<bool, Fail> {
    let text = staying_text(alloc)?;
    let made = simplified(alloc, text.as_str())?;
    let mut values = values_of(alloc, given)?;
    if made.eliminated_count() != 1 || values.len() != made.formula().vars() as usize {
        return Ok(false);
    }
    made.extend(&mut values);
    Ok(values.as_slice() == values_of(alloc, wanted)?.as_slice())
}

#[test]
fn models_of_what_stays(rt: HostRuntime) -> Result<(), Fail> {
    assert!(rt; becomes(rt.alloc(), &[1, 2, -3, -4], &[-1, 2, -3, -4])?);
    assert!(rt; becomes(rt.alloc(), &[-1, -2, 3, 4], &[1, -2, 3, 4])?);
    Ok(())
}

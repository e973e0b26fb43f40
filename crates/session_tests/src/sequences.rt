//! Worked sequences: clauses and questions one after the other, with the answers that the definition
//! has.

use crate::asked::{add, ask, has_number};
use session::{Answer, Never, Session};
use std::alloc::{AllocError, Global};
use std::process::Abort;
use std::test::Fail;

/// What a question comes to.
#[derive(Clone, Copy)]
enum Wanted {
    /// A model in which these literals are true.
    Model(&'static [i32]),
    /// A core of exactly these assumptions.
    Core(&'static [i32]),
}

/// What is done.
#[derive(Clone, Copy)]
enum Step {
    Add(&'static [i32]),
    Ask(&'static [i32], Wanted),
}

static ROWS: [(&str, &[Step]); 13] = [
    (
        "no clauses",
        &[
            Step::Ask(&[], Wanted::Model(&[])),
            Step::Ask(&[3, -1], Wanted::Model(&[3, -1])),
        ],
    ),
    (
        "an empty clause, for good",
        &[
            Step::Add(&[1, 2]),
            Step::Add(&[]),
            Step::Ask(&[], Wanted::Core(&[])),
            Step::Ask(&[1], Wanted::Core(&[])),
            Step::Add(&[3]),
            Step::Ask(&[-3], Wanted::Core(&[])),
        ],
    ),
    (
        "literals that repeat, and both signs",
        &[
            Step::Add(&[1, 1, 1]),
            Step::Add(&[2, -2, 3]),
            Step::Add(&[-3, -3, -1]),
            Step::Ask(&[], Wanted::Model(&[1, -3])),
            Step::Ask(&[3], Wanted::Core(&[3])),
        ],
    ),
    (
        "assumptions that repeat, and contradictory ones",
        &[
            Step::Add(&[1, 2]),
            Step::Ask(&[-1, -1], Wanted::Model(&[-1, 2])),
            Step::Ask(&[1, -1], Wanted::Core(&[1, -1])),
            Step::Ask(&[4, 2, -4], Wanted::Core(&[4, -4])),
        ],
    ),
    (
        "a core leaves out what isn't needed",
        &[
            Step::Add(&[-1, 2]),
            Step::Add(&[-2, 3]),
            Step::Ask(&[5, 1, 4, -3], Wanted::Core(&[1, -3])),
            Step::Ask(&[5, 1, 4], Wanted::Model(&[5, 1, 4, 2, 3])),
        ],
    ),
    (
        "clauses behind a question",
        &[
            Step::Add(&[1, 2]),
            Step::Ask(&[], Wanted::Model(&[])),
            Step::Add(&[-1]),
            Step::Ask(&[], Wanted::Model(&[-1, 2])),
            Step::Add(&[-2, 3]),
            Step::Ask(&[], Wanted::Model(&[-1, 2, 3])),
            Step::Ask(&[-3], Wanted::Core(&[-3])),
            Step::Add(&[-3]),
            Step::Ask(&[], Wanted::Core(&[])),
        ],
    ),
    (
        "what is learnt doesn't depend on the assumptions",
        &[
            Step::Add(&[-9, 1, 2]),
            Step::Add(&[-9, 1, -2]),
            Step::Add(&[-9, -1, 2]),
            Step::Add(&[-9, -1, -2]),
            Step::Ask(&[9], Wanted::Core(&[9])),
            Step::Ask(&[], Wanted::Model(&[-9])),
            Step::Ask(&[9, 3], Wanted::Core(&[9])),
        ],
    ),
    (
        "variables that come late",
        &[
            Step::Add(&[1, 100]),
            Step::Ask(&[-1], Wanted::Model(&[-1, 100])),
            Step::Add(&[-100, 5000]),
            Step::Ask(&[-1], Wanted::Model(&[-1, 100, 5000])),
            Step::Ask(&[-5000, -1], Wanted::Core(&[-5000, -1])),
        ],
    ),
    (
        "variables far apart",
        &[
            Step::Add(&[1, -1_000_000]),
            Step::Ask(&[], Wanted::Model(&[])),
            Step::Ask(&[1_000_000], Wanted::Model(&[1, 1_000_000])),
            Step::Add(&[-1, 500_000]),
            Step::Add(&[2, 1_000_000]),
            Step::Ask(&[-500_000], Wanted::Model(&[-1, 2, -500_000, -1_000_000])),
            Step::Ask(
                &[3, 1_000_000, -500_000],
                Wanted::Core(&[1_000_000, -500_000]),
            ),
            Step::Add(&[1_000_000]),
            Step::Ask(&[-1], Wanted::Core(&[-1])),
            Step::Ask(&[-500_000], Wanted::Core(&[-500_000])),
        ],
    ),
    (
        "variables in falling order",
        &[
            Step::Add(&[900, 700]),
            Step::Add(&[-900, 500]),
            Step::Ask(&[-700], Wanted::Model(&[900, -700, 500])),
            Step::Add(&[-500, 300, 100]),
            Step::Ask(&[-700, -100], Wanted::Model(&[900, -700, 500, 300, -100])),
            Step::Ask(&[-100, -300, -700], Wanted::Core(&[-100, -300, -700])),
            Step::Ask(&[-300, 700, -500], Wanted::Model(&[-300, 700, -500, -900])),
        ],
    ),
    (
        "what stands nowhere is false",
        &[
            Step::Add(&[6]),
            Step::Ask(&[-3, 8], Wanted::Model(&[-1, -2, -3, -4, -5, 6, -7, 8])),
            Step::Add(&[-2, 4]),
            Step::Ask(&[2, 9], Wanted::Model(&[-1, 2, 4, -5, 6, -7, 9])),
        ],
    ),
    (
        "assumptions that name variables",
        &[
            Step::Ask(&[40, -20], Wanted::Model(&[40, -20])),
            Step::Ask(&[20, 60, -20], Wanted::Core(&[20, -20])),
            Step::Add(&[-60, 20]),
            Step::Ask(&[60, 80], Wanted::Model(&[60, 80, 20])),
            Step::Ask(&[100, 60, -20], Wanted::Core(&[60, -20])),
        ],
    ),
    (
        "three pigeons and two holes, with a switch for each pigeon",
        &[
            Step::Add(&[-7, 1, 2]),
            Step::Add(&[-8, 3, 4]),
            Step::Add(&[-9, 5, 6]),
            Step::Add(&[-1, -3]),
            Step::Add(&[-1, -5]),
            Step::Add(&[-3, -5]),
            Step::Add(&[-2, -4]),
            Step::Add(&[-2, -6]),
            Step::Add(&[-4, -6]),
            Step::Ask(&[7, 8], Wanted::Model(&[7, 8])),
            Step::Ask(&[7, 8, 9], Wanted::Core(&[7, 8, 9])),
            Step::Ask(&[8, 9], Wanted::Model(&[8, 9])),
            Step::Ask(&[7, 8, 9, 1], Wanted::Core(&[7, 8, 9])),
        ],
    ),
];

/// Whether the model makes these true.
fn makes_true(values: &[bool], numbers: &[i32]) -> bool {
    for number in numbers {
        let at = number.unsigned_abs() as usize;
        let value = values.get(at.wrapping_sub(1)).copied();
        if value != Some(*number > 0) {
            return false;
        }
    }
    true
}

/// Whether an answer is what is wanted.
fn is_wanted(answer: &Answer, wanted: Wanted) -> bool {
    match (answer, wanted) {
        (Answer::Model(values), Wanted::Model(numbers)) => makes_true(values, numbers),
        (Answer::Unsatisfiable(core), Wanted::Core(numbers)) => {
            core.len() == numbers.len() && numbers.iter().all(|number| has_number(core, *number))
        }
        _ => false,
    }
}

/// Whether the steps come to what is wanted.
fn comes(alloc: Global, steps: &[Step]) -> Result<bool, AllocError> {
    let mut session = Session::open(alloc)?;
    for step in steps {
        match *step {
            Step::Add(numbers) => add(alloc, &mut session, numbers)?,
            Step::Ask(numbers, wanted) => {
                let answer = ask(alloc, &mut session, numbers, &Never)?;
                if !is_wanted(&answer, wanted) {
                    return Ok(false);
                }
            }
        }
    }
    Ok(true)
}

#[test]
fn sequences(rt: HostRuntime) -> Result<(), Fail> {
    for (name, steps) in &ROWS {
        assert!(rt; comes(rt.alloc(), steps)?, "{name}");
    }
    Ok(())
}

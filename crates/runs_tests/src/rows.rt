//! Worked rows of runs with memory, readers and writers that serve.
ghost use Rattle.std.specs.Prelude.{◌≤◌};

use cubes::{HandCount, OpenGate};
use runs::{RunFault, Verdict, run, run_one, runs_write_the_same};
use std::alloc::Global;
use std::sync::Wait;
use std::test::Fail;
use std::thread::Threads;
use std::time::Clock;
use test_samples::{EIGHT, FOUR, FOUR_PROOF};

/// A formula, a budget, its proof and its answer.
#[derive(Clone, Copy)]
struct Row<'a> {
    text: &'a str,
    budget: u32,
    proof: &'a str,
    answer: &'a str,
}

impl Row<'_> {
    /// What its answer says.
    fn verdict(&self) -> Verdict {
        if self.answer == UNSATISFIABLE {
            Verdict::Unsatisfiable
        } else {
            Verdict::Satisfiable
        }
    }
}

/// Variable 3 stands in no clause.
const FOUR_AND_UNUSED: &str = "p cnf 3 4\n1 2 0\n1 -2 0\n-1 2 0\n-1 -2 0\n";

const UNSATISFIABLE: &str = "s UNSATISFIABLE\n";

/// Whether these texts are the row's.
fn is_written(row: &Row<'_>, proof: &[u8], answer: &[u8]) -> bool {
    proof == row.proof.as_bytes() && answer == row.answer.as_bytes()
}

/// Whether a run without threads writes the row's texts, and the verdict that they say.
fn is_right(alloc: Global, row: &Row<'_>) -> Result<bool, RunFault>
    requires { (1 ≤ row.now.budget) × (row.now.budget ≤ 100000) }
{
    let mut proof = Vec::new(alloc);
    let mut answer = Vec::new(alloc);
    let text = row.text.as_bytes();
    let verdict = run_one(alloc, text, &mut answer, &mut proof, row.budget)?;
    Ok(verdict == row.verdict() && is_written(row, &proof, &answer))
}

/// Whether so many hands write the same.
fn hands_agree<R: Threads + Wait + Clock + Sync>(
    rt: &R,
    alloc: Global,
    row: &Row<'_>,
    hands: HandCount,
) -> Result<bool, RunFault>
    requires { (1 ≤ row.now.budget) × (row.now.budget ≤ 100000) }
{
    let mut proof = Vec::new(alloc);
    let mut answer = Vec::new(alloc);
    let text = row.text.as_bytes();
    let budget = row.budget;
    let gate = OpenGate;
    let verdict = run(
        rt,
        alloc,
        text,
        &mut answer,
        &mut proof,
        budget,
        hands.get(),
        &gate,
    )?;
    Ok(verdict == row.verdict() && is_written(row, &proof, &answer))
}

/// Whether a row's run is right without threads, and by one, two and eight hands.
fn holds<R: Threads + Wait + Clock + Sync>(
    rt: &R,
    alloc: Global,
    row: &Row<'_>,
) -> Result<bool, RunFault> {
    if row.budget < 1 || row.budget > 100_000 || !is_right(alloc, row)? {
        return Ok(false);
    }
    for hands in [1, 2, 8] {
        if !hands_agree(rt, alloc, row, HandCount::of(hands))? {
            return Ok(false);
        }
    }
    Ok(true)
}

/// True just where one of the first 39 variables is.
const DEEP: &str = "p cnf 40 2
1 2 3 4 5 6 7 8 9 10 11 12 13 14 15 16 17 18 19 20 21 22 23 24 25 26 27 28 29 30 31 32 33 34 35 36 37 38 39 40 0
1 2 3 4 5 6 7 8 9 10 11 12 13 14 15 16 17 18 19 20 21 22 23 24 25 26 27 28 29 30 31 32 33 34 35 36 37 38 39 -40 0
";

static ROWS: [Row; 25] = [
    Row {
        text: "p cnf 0 1\n0\n",
        budget: 1,
        proof: "2 0 1 0\n",
        answer: UNSATISFIABLE,
    },
    Row {
        text: "p cnf 1 2\n1 0\n-1 0\n",
        budget: 1,
        proof: "3 0 1 2 0\n",
        answer: UNSATISFIABLE,
    },
    Row {
        text: FOUR,
        budget: 1,
        proof: FOUR_PROOF,
        answer: UNSATISFIABLE,
    },
    Row {
        text: FOUR,
        budget: 2,
        proof: "5 1 0 1 2 0\n6 0 5 3 4 0\n",
        answer: UNSATISFIABLE,
    },
    Row {
        text: EIGHT,
        budget: 1,
        proof: "9 2 1 0 1 2 0\n10 1 0 9 3 4 0\n10 d 9 0\n11 2 -1 0 5 6 0\n12 -1 0 11 7 8 0\n12 d 11 0\n13 0 10 12 0\n",
        answer: UNSATISFIABLE,
    },
    Row {
        text: EIGHT,
        budget: 2,
        proof: "9 2 1 0 1 2 0\n10 1 0 9 3 4 0\n10 d 9 0\n11 2 -1 0 5 6 0\n12 -1 0 11 7 8 0\n12 d 11 0\n13 0 10 12 0\n",
        answer: UNSATISFIABLE,
    },
    Row {
        text: EIGHT,
        budget: 4,
        proof: "9 1 2 0 1 2 0\n10 1 0 9 3 4 0\n11 2 0 10 5 6 0\n12 0 10 11 7 8 0\n",
        answer: UNSATISFIABLE,
    },
    Row {
        text: FOUR_AND_UNUSED,
        budget: 2,
        proof: "5 -3 0 0\n6 1 0 1 2 0\n7 0 6 3 4 0\n",
        answer: UNSATISFIABLE,
    },
    Row {
        text: FOUR_AND_UNUSED,
        budget: 1,
        proof: "5 -3 0 0\n6 1 0 1 2 0\n7 -1 0 3 4 0\n8 0 6 7 0\n",
        answer: UNSATISFIABLE,
    },
    Row {
        text: "p cnf 3 5\n1 -3 0\n1 2 0\n1 -2 0\n-1 2 0\n-1 -2 0\n",
        budget: 1,
        proof: "6 -3 0 0\n7 1 0 2 3 0\n8 -1 0 4 5 0\n9 0 7 8 0\n",
        answer: UNSATISFIABLE,
    },
    Row {
        text: "p cnf 0 0\n",
        budget: 1,
        proof: "",
        answer: "s SATISFIABLE\nv 0\n",
    },
    Row {
        text: "p cnf 2 1\n1 2 0\n",
        budget: 1,
        proof: "",
        answer: "s SATISFIABLE\nv -1 2 0\n",
    },
    Row {
        text: "p cnf 2 2\n1 2 0\n1 -2 0\n",
        budget: 1,
        proof: "",
        answer: "s SATISFIABLE\nv 1 -2 0\n",
    },
    Row {
        text: "p cnf 2 2\n1 -1 0\n2 2 0\n",
        budget: 1000,
        proof: "",
        answer: "s SATISFIABLE\nv -1 2 0\n",
    },
    Row {
        text: "c x\np cnf 2 1\n1\nc mid\n2 0\n",
        budget: 1000,
        proof: "",
        answer: "s SATISFIABLE\nv -1 2 0\n",
    },
    Row {
        text: "p cnf 2 1\r\n1 2 0\r\n",
        budget: 1000,
        proof: "",
        answer: "s SATISFIABLE\nv -1 2 0\n",
    },
    Row {
        text: "p cnf 1 1\n1 0\nc",
        budget: 1000,
        proof: "",
        answer: "s SATISFIABLE\nv 1 0\n",
    },
    Row {
        text: "p cnf 4 2\n1 3 4 0\n1 3 -4 0\n",
        budget: 1,
        proof: "",
        answer: "s SATISFIABLE\nv -1 -2 3 -4 0\n",
    },
    Row {
        text: "p cnf 4 2\n1 3 4 0\n1 3 -4 0\n",
        budget: 2,
        proof: "",
        answer: "s SATISFIABLE\nv -1 -2 3 -4 0\n",
    },
    Row {
        text: "p cnf 3 2\n1 2 3 0\n1 2 -3 0\n",
        budget: 1,
        proof: "",
        answer: "s SATISFIABLE\nv -1 2 -3 0\n",
    },
    Row {
        text: "p cnf 3 4\n1 2 3 0\n1 2 -3 0\n-1 2 3 0\n-1 2 -3 0\n",
        budget: 1,
        proof: "",
        answer: "s SATISFIABLE\nv -1 2 -3 0\n",
    },
    // No clause asks for variable 2, so it is pure; a proof would begin with its line.
    Row {
        text: "p cnf 2 1\n1 -2 0\n",
        budget: 1,
        proof: "",
        answer: "s SATISFIABLE\nv -1 -2 0\n",
    },
    // the last value line that is full, and the first one that is too long
    Row {
        text: "p cnf 21 0\n",
        budget: 1000,
        proof: "",
        answer: "s SATISFIABLE\nv -1 -2 -3 -4 -5 -6 -7 -8 -9 -10 -11 -12 -13 -14 -15 -16 -17 -18 -19 -20 -21 0\n",
    },
    Row {
        text: "p cnf 22 0\n",
        budget: 1000,
        proof: "",
        answer: "s SATISFIABLE\nv -1 -2 -3 -4 -5 -6 -7 -8 -9 -10 -11 -12 -13 -14 -15 -16 -17 -18 -19 -20 -21\nv -22 0\n",
    },
    // a deep tree: at budget 1 the root is exhausted by its first conflict; only the variable 39 is
    // true in the first model
    Row {
        text: DEEP,
        budget: 1,
        proof: "",
        answer: "s SATISFIABLE\nv -1 -2 -3 -4 -5 -6 -7 -8 -9 -10 -11 -12 -13 -14 -15 -16 -17 -18 -19 -20 -21\nv -22 -23 -24 -25 -26 -27 -28 -29 -30 -31 -32 -33 -34 -35 -36 -37 -38 39 -40 0\n",
    },
];

#[test]
fn worked_rows(rt: HostRuntime) -> Result<(), Fail> {
    runs_write_the_same();
    for row in &ROWS {
        assert!(rt; holds(&rt, rt.alloc(), row)?, "{}", row.text);
    }
    Ok(())
}

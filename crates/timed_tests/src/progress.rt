//! `--progress` of runs that take seconds by their clock: each line, and that none of them stands
//! on a terminal when the answer comes, with a proof and without one.
use crate::lowered::HIGHER;
use crate::slow_runs::{SOLVED, SlowRun, holds};
use cubesat::Screen;
use std::test::Fail;
use test_console::Paths;
use test_console::clocks::{LONG, Pace};
use test_console::fake::Fake;
use test_samples::{EIGHT, FOUR, FOUR_PROOF, HARD_EIGHT};

/// No proof is asked for.
const UNPROVED: SlowRun = SlowRun {
    words: &[
        "cubesat",
        "solve",
        "--progress",
        "--search",
        "ordered",
        "FORMULA",
    ],
    waits: &[1, 2],
    log: "c 1 s: reading\nc 2 s: 2 conflicts, 1 cubes solved, at most 2 waiting, depth 0, at least 0.00 % of the tree closed\ns UNSATISFIABLE\n",
    ..SOLVED
};

/// The limit of a second is reached while the end of reading waits for a line.
const CUT_OFF: SlowRun = SlowRun {
    words: &[
        "cubesat",
        "solve",
        "--progress",
        "--seconds",
        "1",
        "FORMULA",
    ],
    screen: Screen::Terminal,
    waits: &[1],
    status: 0,
    log: "\rc 1 s: reading\x1b[K\r\x1b[Ks UNKNOWN\n",
    ..SOLVED
};

/// The search that is made first meets a conflict; then the focused one is asked for models in which
/// the first variable is false, and the second, and the third.
const LOWERED: SlowRun = SlowRun {
    formula: HIGHER,
    words: &[
        "cubesat",
        "solve",
        "--progress",
        "--search",
        "automatic",
        "--budget",
        "1",
        "FORMULA",
    ],
    // a line of progress, the status line, and one more of progress
    waits: &[1, 3],
    status: 10,
    log: "c 1 s: reading\ns SATISFIABLE\nc 2 s: lowering, 3 of 3 variables settled, 3 questions, 1 without a model\nv -1 2 -3 0\n",
    ..UNPROVED
};

/// A check of the proof of the four clauses, line under line.
const CHECKED: SlowRun = SlowRun {
    formula: FOUR,
    proof: FOUR_PROOF,
    words: &["cubesat", "check", "--progress", "FORMULA", "PROOF"],
    screen: Screen::Stream,
    slow: "PROOF",
    // two reads of a look whether it is in binary, two for its first bytes, and one at its end
    waits: &[0, 0, 1, 1, 2],
    status: 0,
    log: "c 1 s: 0 lines, 0 bytes of the proof read, 0 %\nc 2 s: 3 lines, 35 bytes of the proof read, 100 %\naccepted\n",
    behind: "",
};

static RUNS: [SlowRun; 24] = [
    SOLVED,
    SlowRun {
        screen: Screen::Terminal,
        log: "\rc 1 s: reading\x1b[K\rc 2 s: 2 conflicts, 1 cubes solved, at most 2 waiting, depth 0, at least 0.00 % of the tree closed\x1b[K\rc 3 s: joining\x1b[K\rc 4 s: 2 lines, 24 bytes of the proof written\x1b[K\r\x1b[Ks UNSATISFIABLE\n",
        ..SOLVED
    },
    // five conflicts in two seconds, with two of them in each half
    SlowRun {
        formula: EIGHT,
        words: &[
            "cubesat",
            "solve",
            "--progress",
            "--search",
            "focused",
            "--simplify",
            "no",
            "--divide",
            "0",
            "--budget",
            "1",
            "--proof",
            "PROOF",
            "FORMULA",
        ],
        log: "c 1 s: reading\nc 2 s: 5 conflicts, 2 a second, 0 rounds, 4 learnt clauses, 2 variables fixed, 3 cubes solved\nc 3 s: joining\nc 4 s: 9 lines, 136 bytes of the proof written\ns UNSATISFIABLE\n",
        ..SOLVED
    },
    // 1840 conflicts before the formula is divided, one in each look at a half, and one in each of four
    // quarters, which all close a quarter of the tree
    SlowRun {
        formula: HARD_EIGHT,
        words: &[
            "cubesat",
            "solve",
            "--progress",
            "--search",
            "focused",
            "--simplify",
            "no",
            "--divide",
            "64",
            "--budget",
            "1840",
            "--proof",
            "PROOF",
            "FORMULA",
        ],
        log: "c 1 s: reading\nc 2 s: 1846 conflicts, ",
        behind: " a second, 64 of at most 64 cubes done, 100 %\nc 3 s: joining\nc 4 s: 17 lines, 277 bytes of the proof written\ns UNSATISFIABLE\n",
        ..SOLVED
    },
    SlowRun {
        formula: "p cnf 2 1\n1 3 0\n",
        screen: Screen::Terminal,
        slow: "FORMULA",
        waits: &[1],
        status: 1,
        log: "\rc 1 s: reading\x1b[K\r\x1b[Kfault 51: refusal 5 at line 2, column 3",
        ..SOLVED
    },
    SlowRun {
        formula: "p cnf 2 1\n1 3 0\n",
        slow: "FORMULA",
        waits: &[1],
        status: 1,
        log: "c 1 s: reading\nfault 51: refusal 5 at line 2, column 3",
        ..SOLVED
    },
    // no line is due
    SlowRun {
        formula: "p cnf 2 1\n1 3 0\n",
        waits: &[],
        status: 1,
        log: "fault 51: refusal 5 at line 2, column 3",
        ..SOLVED
    },
    SlowRun {
        words: &[
            "cubesat",
            "solve",
            "--progress",
            "--proof",
            "/dev/full",
            "FORMULA",
        ],
        screen: Screen::Terminal,
        waits: &[0, 0, 1],
        status: 1,
        log: "\rc 1 s: joining\x1b[K\r\x1b[Kfault 53",
        ..SOLVED
    },
    UNPROVED,
    SlowRun {
        screen: Screen::Terminal,
        log: "\rc 1 s: reading\x1b[K\rc 2 s: 2 conflicts, 1 cubes solved, at most 2 waiting, depth 0, at least 0.00 % of the tree closed\x1b[K\r\x1b[Ks UNSATISFIABLE\n",
        ..UNPROVED
    },
    SlowRun {
        formula: "p cnf 2 1\n1 3 0\n",
        screen: Screen::Terminal,
        slow: "FORMULA",
        waits: &[1],
        status: 1,
        log: "\rc 1 s: reading\x1b[K\r\x1b[Kfault 51: refusal 5 at line 2, column 3",
        ..UNPROVED
    },
    CUT_OFF,
    SlowRun {
        words: &[
            "cubesat",
            "solve",
            "--progress",
            "--seconds",
            "1",
            "--proof",
            "PROOF",
            "FORMULA",
        ],
        ..CUT_OFF
    },
    // the search that is made first decides the formula
    SlowRun {
        words: &["cubesat", "solve", "--progress", "FORMULA"],
        log: "c 1 s: reading\nc 2 s: first search, 2 conflicts\ns UNSATISFIABLE\n",
        ..UNPROVED
    },
    // its one conflict is used up, and the focused search has two
    SlowRun {
        words: &[
            "cubesat",
            "solve",
            "--progress",
            "--search",
            "automatic",
            "--budget",
            "1",
            "FORMULA",
        ],
        log: "c 1 s: reading\nc 2 s: 3 conflicts, 1 a second, 0 rounds, 2 learnt clauses, 1 variables fixed, 1 cubes solved\ns UNSATISFIABLE\n",
        ..UNPROVED
    },
    LOWERED,
    // no line of it stands on a terminal when the answer comes
    SlowRun {
        // that the first one is erased ends a line too
        waits: &[1, 4],
        screen: Screen::Terminal,
        log: "\rc 1 s: reading\x1b[K\r\x1b[Ks SATISFIABLE\n\rc 2 s: lowering, 3 of 3 variables settled, 3 questions, 1 without a model\x1b[K\r\x1b[Kv -1 2 -3 0\n",
        ..LOWERED
    },
    SlowRun {
        words: &[
            "cubesat",
            "solve",
            "--progress",
            "--search",
            "automatic",
            "--budget",
            "1",
            "--any-model",
            "FORMULA",
        ],
        waits: &[1, 2],
        log: "c 1 s: reading\nc 2 s: 1 conflicts, 0 a second, 0 rounds, 0 learnt clauses, 0 variables fixed, 1 cubes solved\ns SATISFIABLE\nv 1 2 3 0\n",
        ..LOWERED
    },
    CHECKED,
    SlowRun {
        proof: "5 1 0 1 2 0\n",
        screen: Screen::Terminal,
        status: 1,
        log: "\rc 1 s: 0 lines, 0 bytes of the proof read, 0 %\x1b[K\rc 2 s: 1 lines, 12 bytes of the proof read, 100 %\x1b[K\r\x1b[Krefused 30\n",
        ..CHECKED
    },
    SlowRun {
        formula: "p cnf 2 1\n1 3 0\n",
        screen: Screen::Terminal,
        slow: "FORMULA",
        waits: &[1],
        status: 1,
        log: "\rc 1 s: 0 lines, 0 bytes of the proof read, 0 %\x1b[K\r\x1b[Kfault 51: refusal 5 at line 2, column 3",
        ..CHECKED
    },
    // of what is no regular file no part is known
    SlowRun {
        words: &["cubesat", "check", "--progress", "FORMULA", "-"],
        slow: "-",
        waits: &[1, 1, 2],
        log: "c 1 s: 0 lines, 0 bytes of the proof read\nc 2 s: 3 lines, 35 bytes of the proof read\naccepted\n",
        ..CHECKED
    },
    SlowRun {
        words: &["cubesat", "check", "--progress", "FORMULA", "."],
        slow: ".",
        waits: &[1],
        status: 1,
        log: "c 1 s: 0 lines, 0 bytes of the proof read\nfault 55",
        ..CHECKED
    },
    // no line is due
    SlowRun {
        formula: "p cnf 2 1\n1 3 0\n",
        waits: &[],
        status: 1,
        log: "fault 51: refusal 5 at line 2, column 3",
        ..CHECKED
    },
];

#[test]
fn progress(rt: HostRuntime) -> Result<(), Fail> {
    let paths = Paths::of(&rt, "progress.cnf")?;
    for run in &RUNS {
        let pace = Pace::new(run.waits, LONG);
        let fake = Fake::slowed(&rt, &pace, paths.word(run.slow));
        assert!(rt;
            holds(&fake, &paths, run, &pace)?,
            "{:?} {}",
            run.words,
            run.log
        );
    }
    Ok(())
}

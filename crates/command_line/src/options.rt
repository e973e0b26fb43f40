//! The options and words of the command line, as rows.

use crate::row::{FLAG, Form, Presence, Row, Value, WORD};

/// The name by which a command line asks for standard input.
pub const STANDARD_INPUT: &str = "-";

pub(crate) const SEARCH: Row = Row {
    name: "search",
    form: Form::Option("NAME"),
    value: Value::Search,
    help: "Automatic tries the ordered search first, then the focused one, and gives the first model; ordered gives the first model; focused gives one of several, and decides most large formulas sooner [default: automatic, or ordered where a budget is given]",
    ..FLAG
};

const BUDGET: Row = Row {
    name: "budget",
    form: Form::Option("N"),
    value: Value::Within(1, 1_000_000_000),
    ..FLAG
};

pub(crate) const SOLVE_BUDGET: Row = Row {
    help: "Conflicts that the first cube may have before it is split, 1 to 100000, or 1000000000 with the focused search; a cube of d literals has d + 1 times as many, at most 1000000, or 1000000000; with the automatic search, those of the ordered search that it tries first [default: 1000, or 100000000 with the focused search]",
    ..BUDGET
};

pub(crate) const DIVIDE_BUDGET: Row = Row {
    help: "Conflicts that the first cube may have before it is split, 1 to 100000, or 1000000000 with the focused search; a cube of d literals has d + 1 times as many, at most 1000000, or 1000000000; with the automatic search, those of the ordered search that it tries first [default: 1000, or 100000 with the focused search]",
    ..BUDGET
};

pub(crate) const DIVIDE: Row = Row {
    name: "divide",
    form: Form::Option("N"),
    value: Value::Within(0, 65_536),
    help: "Cubes into which the focused search divides a formula first, if its first conflicts tell that this helps, 0 to 65536; 0 and 1 divide none; not with the ordered search [default: 64]",
    ..FLAG
};

pub(crate) const WANTED: Row = Row {
    name: "divide",
    form: Form::Option("N"),
    value: Value::Within(1, 65_536),
    presence: Presence::Default("1024"),
    help: "Cubes that are to be open for the machines, 1 to 65536",
    ..FLAG
};

pub(crate) const SIMPLIFY: Row = Row {
    name: "simplify",
    form: Form::Option("YES/NO"),
    value: Value::YesOrNo,
    help: "Whether the focused search simplifies a formula that its first 1000 conflicts don't decide, before it goes on; not with the ordered search [default: yes]",
    ..FLAG
};

pub(crate) const ANY_MODEL: Row = Row {
    name: "any-model",
    help: "Answer the model that is found, where the automatic search would go on to the first one",
    ..FLAG
};

pub(crate) const HANDS: Row = Row {
    name: "hands",
    form: Form::Option("N"),
    value: Value::Within(1, 16),
    presence: Presence::Default("1"),
    help: "Threads that solve cubes side by side, 1 to 16",
    ..FLAG
};

const HANDS_OF_RUN: Row = Row {
    form: Form::Option("H"),
    ..HANDS
};

pub(crate) const CONQUER_HANDS: Row = Row {
    help: "Threads that solve cubes of the part side by side, 1 to 16",
    ..HANDS_OF_RUN
};

pub(crate) const GATHER_HANDS: Row = Row {
    help: "Threads that check what was found side by side, 1 to 16",
    ..HANDS_OF_RUN
};

pub(crate) const SECONDS: Row = Row {
    name: "seconds",
    form: Form::Option("N"),
    value: Value::Within(1, 1_000_000_000),
    help: "Answer `s UNKNOWN`, status 0, unless the formula is decided in so many seconds; a model that isn't made the first one by then is answered as it is",
    ..FLAG
};

pub(crate) const PROOF: Row = Row {
    name: "proof",
    form: Form::Option("PATH"),
    help: "Where the LRAT proof is written, in PATH.part until it is whole; without it none is written",
    ..FLAG
};

pub(crate) const GATHER_PROOF: Row = Row {
    presence: Presence::Required,
    help: "Where the LRAT proof is written, in PATH.part until it is whole",
    ..PROOF
};

/// The proof behind the formula, as CaDiCaL and Kissat take it.
pub(crate) const PLACED_PROOF: Row = Row {
    name: "PROOF",
    presence: Presence::Optional,
    rival: Some("proof"),
    help: "The same as --proof PROOF",
    ..WORD
};

pub(crate) const LENIENT: Row = Row {
    name: "lenient",
    help: "Read the formula as MiniSat does: whatever its header counts, with `+` and leading zeros, comments behind clauses, and up to a `%`",
    ..FLAG
};

pub(crate) const LARGE: Row = Row {
    name: "large",
    help: "Read a formula of up to 100,000,000 variables, 1,000,000,000 clauses and 1 TiB of text",
    ..FLAG
};

pub(crate) const CHECK_LARGE: Row = Row {
    help: "Read a formula of up to 100,000,000 variables, 1,000,000,000 clauses and 1 TiB of text, and a proof of up to 4 EiB",
    ..LARGE
};

pub(crate) const SOLVE_STATS: Row = Row {
    name: "stats",
    help: "Print to standard error what the run took: conflicts, cubes, lines, times, memory",
    ..FLAG
};

pub(crate) const CHECK_STATS: Row = Row {
    help: "Print to standard error what the run took: lines and bytes that were read, time, memory",
    ..SOLVE_STATS
};

pub(crate) const GATHER_STATS: Row = Row {
    help: "Print to standard error what the packs had",
    ..SOLVE_STATS
};

pub(crate) const SOLVE_PROGRESS: Row = Row {
    name: "progress",
    help: "Print to standard error about once a second how far the run is",
    ..FLAG
};

pub(crate) const CHECK_PROGRESS: Row = Row {
    help: "Print to standard error about once a second how much of the proof is read",
    ..SOLVE_PROGRESS
};

pub(crate) const CUBE_PROGRESS: Row = Row {
    help: "Print to standard error about once a second how many cubes are solved",
    ..SOLVE_PROGRESS
};

pub(crate) const GATHER_PROGRESS: Row = Row {
    help: "Print to standard error about once a second how much of the proof is written",
    ..SOLVE_PROGRESS
};

pub(crate) const VERBOSE: Row = Row {
    name: "verbose",
    help: "Print to standard error what is done, and what a fault or refusal means",
    ..FLAG
};

pub(crate) const DRAT: Row = Row {
    name: "drat",
    help: "The proof is in DRAT, text or binary, as its first bytes tell; hints are found by propagation",
    ..FLAG
};

pub(crate) const BINARY: Row = Row {
    name: "binary",
    help: "With --drat: the proof is in binary, whatever its first bytes are",
    ..FLAG
};

pub(crate) const KEPT_LRAT: Row = Row {
    name: "lrat",
    form: Form::Option("PATH"),
    help: "With --drat: the proof in LRAT that is made goes to this file, once it is accepted",
    ..FLAG
};

pub(crate) const EXTENDED: Row = Row {
    name: "extended",
    help: "Let the proof's clauses have variables above the formula's, as extended resolution defines them, up to 262143, or 100000000 with --large",
    ..FLAG
};

pub(crate) const DISTINCT_STATUS: Row = Row {
    name: "distinct-status",
    help: "Exit with status 2 on a fault, and with 1 for a refused proof alone",
    ..FLAG
};

pub(crate) const MODEL: Row = Row {
    name: "model",
    form: Form::Option("WHETHER"),
    value: Value::YesOrNo,
    presence: Presence::Default("yes"),
    help: "Whether `v` lines with a model follow `s SATISFIABLE`",
    ..FLAG
};

pub(crate) const LIMIT: Row = Row {
    name: "limit",
    form: Form::Option("N"),
    value: Value::Within(1, 4_294_967_295),
    help: "End once there are so many models, 1 to 4294967295",
    ..FLAG
};

pub(crate) const PROJECT: Row = Row {
    name: "project",
    form: Form::Option("VARIABLES"),
    help: "Variables with commas between them, as 1,2,5: models that agree on these are one, of which the literals of these are printed [default: all]",
    ..FLAG
};

pub(crate) const COUNT: Row = Row {
    name: "count",
    help: "Print how many models there are, and nothing else",
    ..FLAG
};

pub(crate) const INTO: Row = Row {
    name: "into",
    form: Form::Option("RUN"),
    presence: Presence::Required,
    help: "The folder of the run",
    ..FLAG
};

pub(crate) const ROUND: Row = Row {
    name: "round",
    form: Form::Option("R"),
    value: Value::Within(1, 9999),
    presence: Presence::Required,
    help: "The round, from 1 on",
    ..FLAG
};

pub(crate) const PART: Row = Row {
    name: "part",
    form: Form::Option("K/M"),
    presence: Presence::Required,
    help: "Solve each M-th cube of the round, from the K-th on",
    ..FLAG
};

pub(crate) const MINUTES: Row = Row {
    name: "minutes",
    form: Form::Option("T"),
    value: Value::Within(1, 1_000_000),
    help: "End with status 75 after so many minutes; the cubes that are left stay open",
    ..FLAG
};

pub(crate) const SOLVES: Row = Row {
    name: "solve",
    help: "Solve the cubes that are missing, too",
    ..FLAG
};

pub(crate) const FORMULA_FILE: Row = Row {
    name: "FILE",
    help: "The formula, in DIMACS CNF; - is standard input",
    ..WORD
};

pub(crate) const CHECKED_FORMULA: Row = Row {
    name: "FORMULA",
    ..FORMULA_FILE
};

pub(crate) const DIVIDED_FORMULA: Row = Row {
    name: "FORMULA",
    presence: Presence::Optional,
    help: "The formula, in DIMACS CNF; without it the next round of the run is written",
    ..WORD
};

pub(crate) const CHECKED_PROOF: Row = Row {
    name: "PROOF",
    help: "The proof, in LRAT, or with --drat in DRAT; - is standard input",
    ..WORD
};

pub(crate) const QUESTIONS: Row = Row {
    name: "FILE",
    presence: Presence::Default(STANDARD_INPUT),
    help: "Clauses and questions, in iCNF; - is standard input",
    ..WORD
};

pub(crate) const RUN: Row = Row {
    name: "RUN",
    help: "The folder of the run",
    ..WORD
};

pub(crate) const NUMBER: Row = Row {
    name: "NUMBER",
    value: Value::Within(0, 4_294_967_295),
    help: "The number behind `fault` or `refused`",
    ..WORD
};

pub(crate) const REFUSAL: Row = Row {
    name: "REFUSAL",
    presence: Presence::Optional,
    help: "The number behind `refusal`",
    ..NUMBER
};

//! What the command line asks for.

use crate::effort::Asked;
use crate::spread_arguments::Spread;
use cnf::Limits;

/// The file of a formula, and whether it is read leniently.
#[derive(Clone, Copy)]
pub struct FormulaFile<'a> {
    pub path: &'a str,
    pub is_lenient: bool,
}

/// What is shown of a run, beside its answer and its faults.
#[derive(Clone, Copy)]
pub struct Shown {
    pub stats: bool,
    pub progress: bool,
    pub verbose: bool,
}

/// Which models of a formula are asked for, and what is printed of them.
#[derive(Clone, Copy)]
pub struct ModelsAsked<'a> {
    pub formula: FormulaFile<'a>,
    pub limits: Limits,
    /// The most models, if not all.
    pub limit: Option<u32>,
    /// The variables in which they are to differ, as they are typed, if not all.
    pub projection: Option<&'a str>,
    /// Whether only their number is printed.
    pub is_counted: bool,
}

/// The file of a proof in DRAT.
#[derive(Clone, Copy)]
pub struct DratFile<'a> {
    pub path: &'a str,
    /// Whether it is in binary, whatever its first bytes are.
    pub is_binary: bool,
    /// Where the proof in LRAT goes that is made of it, if that is to be kept.
    pub kept: Option<&'a str>,
}

/// What the command line asks for.
#[derive(Clone, Copy)]
pub enum Request<'a> {
    /// Decide the formula, and write its proof to `proof`, if there is to be one.
    Solve {
        asked: Asked,
        proof: Option<&'a str>,
        formula: FormulaFile<'a>,
        shown: Shown,
    },
    /// Check the proof in `proof` against the formula.
    Check {
        formula: FormulaFile<'a>,
        proof: &'a str,
        limits: Limits,
        /// Whether the proof's clauses may have variables that the formula doesn't have.
        is_extended: bool,
        /// Whether a fault and a refused proof are to have two exit statuses.
        distinct_status: bool,
        shown: Shown,
    },
    /// Check the proof in DRAT against the formula.
    CheckDrat {
        formula: FormulaFile<'a>,
        proof: DratFile<'a>,
        limits: Limits,
        /// As for `Check`.
        is_extended: bool,
        distinct_status: bool,
        shown: Shown,
    },
    /// Write the formula again, without what repeats.
    Tidy {
        formula: FormulaFile<'a>,
        limits: Limits,
    },
    /// Answer the questions of a text in iCNF.
    Session {
        file: &'a str,
        /// Whether the answer to a question has its model.
        shows_models: bool,
    },
    /// Print the models of the formula.
    Models(ModelsAsked<'a>),
    /// Say what a number that the program printed means, and the one behind it.
    Explain {
        number: u32,
        behind: Option<u32>,
    },
    /// Work on a run that is spread over machines.
    Spread(Spread<'a>),
}

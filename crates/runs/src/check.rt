//! A run of the checker of proofs.
ghost use Rattle.std.specs.Prelude.{◌≡◌, MatchResult};
ghost use Rattle.cnf.specs.Limits.{limits_of};
ghost use Rattle.lrat.specs.Extended.{checked_formula};
ghost use Rattle.runs.specs.Check.{CheckSays, checked_by};
ghost use Rattle.runs.specs.Streamed.{Judges, IsStop};

use crate::checked_line::{Checked, checked_line};
use crate::fault::RunFault;
use crate::output::write_text;
use crate::proof_input::feed_all;
use cnf::{Formula, Limits, read_from_within};
use lrat::{ProofStream, Refusal, Variables};
use messages::Refused;
use std::alloc::Global;
use std::io::{Read, Write};
use strategies::Observer;

/// How large the files of a check may be, and which variables the proof's clauses may have.
#[derive(Clone, Copy)]
pub struct CheckRules {
    pub limits: Limits,
    pub variables: Variables,
}

impl CheckRules {
    /// The proof's clauses may have the formula's variables, within these limits.
    pub fn within(limits: Limits) -> CheckRules
        ensures { result ≡ record { limits = limits; variables = Variables.OfFormula } }
    {
        CheckRules {
            limits,
            variables: Variables::OfFormula,
        }
    }
}

/// The checker's verdict on a proof, and what words of a refusal need.
#[derive(Clone, Copy)]
pub struct Told {
    /// The verdict that the line tells.
    pub checked: Checked,
    /// The fault and its place, where the proof is refused; else none.
    pub why: Option<Refused>,
}

/// Why a proof is refused, whose step at fault names this clause wrongly, if it is that.
pub(crate) fn why_refused(verdict: Result<(), Refusal>, named: Option<u64>) -> Option<Refused> {
    match verdict {
        Ok(()) => None,
        Err(Refusal::Text(fault)) => Some(Refused {
            number: fault.number(),
            line: fault.line(),
            named: None,
        }),
        Err(Refusal::Steps(fault)) => Some(Refused {
            number: fault.number(),
            line: fault.step(),
            named,
        }),
    }
}

/// The checker's verdict on a proof, and the clause that its step at fault names wrongly, if it is
/// that.
#[derive(Clone, Copy)]
pub(crate) struct Judged {
    pub(crate) verdict: Result<(), Refusal>,
    pub(crate) named: Option<u64>,
}

/// What the checker says of a reader's bytes as the proof of a formula. `RunFault` says when each
/// fault comes.
pub(crate) fn judge<P: Read>(
    alloc: Global,
    formula: Formula,
    proof: &mut P,
    rules: CheckRules,
) -> Result<Judged, RunFault>
    ensures { MatchResult result
        (λ j. Judges (limits_of rules.limits) (checked_formula (limits_of rules.limits) rules.variables formula) (P.remaining proof.old) j.verdict)
        IsStop }
{
    let limits = rules.limits;
    let vars = rules.variables.allowed(&formula, limits);
    let mut stream = match ProofStream::over(alloc, &formula, vars) {
        Ok(stream) => stream,
        Err(_) => return Err(RunFault::NoMemory),
    };
    drop(formula);
    feed_all(alloc, proof, &mut stream, limits)?;
    let verdict = stream.verdict_within(limits);
    let named = stream.named_wrongly();
    Ok(Judged { verdict, named })
}

/// Checks a proof against the formula of a DIMACS text, by the checker of `lrat`: reads the
/// formula, then the proof until there is one byte more than it may have, and writes and flushes
/// one line, `accepted` or why it is refused. Each step is checked as its line ends, so it takes
/// memory for the clauses that are there, and none for the text. `RunFault` says when each fault
/// comes and what is written then. The answer also says why the proof is refused, if it is. An observer is
/// told once, before the line is written.
pub fn check_with<R: Read + Drop, P: Read + Drop, W: Write, O: Observer>(
    alloc: Global,
    formula: R,
    mut proof: P,
    rules: CheckRules,
    answer: &mut W,
    observer: &O,
) -> Result<Told, RunFault>
    ensures { CheckSays (limits_of rules.limits) rules.variables (R.remaining formula) (P.remaining proof) (W.contents answer.old) (W.contents answer.new) (checked_by result) }
{
    let formula = match read_from_within(alloc, formula, rules.limits) {
        Ok(formula) => formula,
        Err(fault) => return Err(RunFault::of_read(fault)),
    };
    let judged = judge(alloc, formula, &mut proof, rules)?;
    let line = match checked_line(alloc, judged.verdict) {
        Ok(line) => line,
        Err(_) => return Err(RunFault::NoMemory),
    };
    observer.answers();
    write_text(answer, &line.text, RunFault::AnswerWriteFailed)?;
    let checked = line.checked;
    let why = why_refused(judged.verdict, judged.named);
    Ok(Told { checked, why })
}

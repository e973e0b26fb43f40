//! A run of the checker of proofs in DRAT.
ghost use Rattle.std.specs.Prelude.{◌≡◌, MatchResult};
ghost use Rattle.cnf.specs.Limits.{limits_of};
ghost use Rattle.lrat.specs.Extended.{checked_formula};
ghost use Rattle.runs.specs.Drat.{DratSays, JudgesDrat, IsDratStop, drat_by};

use crate::check::{CheckRules, Judged, judge, why_refused};
use crate::checked_line::Checked;
use crate::drat_line::drat_line;
use crate::fault::RunFault;
use crate::kept_text::KeptText;
use crate::output::write_text;
use cnf::{Formula, read_from_within};
use drat::{DratFault, DratForm, HintedProof, Passed};
use messages::Refused;
use std::alloc::Global;
use std::io::{Read, Write};

/// A proof in DRAT, and the writer of the one in LRAT that is made of it, if that is to be kept.
#[derive(Drop)]
pub struct DratProof<P, K> {
    pub file: P,
    pub form: DratForm,
    pub kept: Option<K>,
}

/// The checker's verdict on a proof in DRAT, and what words about it need.
#[derive(Clone, Copy)]
pub struct DratTold {
    /// The verdict that the line tells.
    pub checked: Checked,
    /// The proof's own fault, if it has one.
    pub fault: Option<DratFault>,
    /// Why the proof in LRAT that was made of it is refused, if it is.
    pub why: Option<Refused>,
    pub passed: Passed,
}

/// The verdict on the proof in LRAT, the fault of that in DRAT, and the deletions passed over.
#[derive(Clone, Copy)]
struct DratJudged {
    judged: Judged,
    fault: Option<DratFault>,
    passed: Passed,
}

/// What the checker says of a proof in DRAT of a formula. The proof in LRAT is kept where that is
/// accepted.
fn judge_drat<P: Read + Drop, K: Write + Drop>(
    alloc: Global,
    formula: Formula,
    proof: DratProof<P, K>,
    rules: CheckRules,
) -> Result<DratJudged, RunFault>
    ensures { MatchResult result
        (λ j. JudgesDrat (limits_of rules.limits) (checked_formula (limits_of rules.limits) rules.variables formula) j.judged.verdict)
        IsDratStop }
{
    let vars = rules.variables.allowed(&formula, rules.limits);
    let inner = match HintedProof::of(alloc, &formula, vars, proof.form, proof.file) {
        Ok(inner) => inner,
        Err(_) => return Err(RunFault::NoMemory),
    };
    let mut text = KeptText {
        inner,
        kept: proof.kept,
        is_unwritten: false,
    };
    let judged = match judge(alloc, formula, &mut text, rules) {
        Ok(judged) => judged,
        Err(_) if text.is_unwritten => return Err(RunFault::ProofWriteFailed),
        Err(fault) => return Err(fault),
    };
    if judged.verdict.is_ok() && !text.end() {
        return Err(RunFault::ProofWriteFailed);
    }
    Ok(DratJudged {
        judged,
        fault: text.inner.fault(),
        passed: text.inner.passed(),
    })
}

/// Checks a proof in DRAT against the formula of a DIMACS text: reads the formula, makes a proof in
/// LRAT as it reads the proof, checks that as `check_with` does, and writes and flushes one line,
/// `accepted` or why it is refused. The proof in LRAT is kept before the line is written, where that
/// is to be and it is accepted. `RunFault` says when each fault comes and what is written then.
pub fn check_drat<R: Read + Drop, P: Read + Drop, K: Write + Drop, W: Write>(
    alloc: Global,
    formula: R,
    proof: DratProof<P, K>,
    rules: CheckRules,
    answer: &mut W,
) -> Result<DratTold, RunFault>
    ensures { DratSays (limits_of rules.limits) (R.remaining formula) (W.contents answer.old) (W.contents answer.new) (drat_by result) }
{
    let formula = match read_from_within(alloc, formula, rules.limits) {
        Ok(formula) => formula,
        Err(fault) => return Err(RunFault::of_read(fault)),
    };
    let DratJudged {
        judged,
        fault,
        passed,
    } = judge_drat(alloc, formula, proof, rules)?;
    let line = match drat_line(alloc, judged.verdict, fault) {
        Ok(line) => line,
        Err(_) => return Err(RunFault::NoMemory),
    };
    write_text(answer, &line.text, RunFault::AnswerWriteFailed)?;
    let checked = line.checked;
    let why = why_refused(judged.verdict, judged.named);
    Ok(DratTold {
        checked,
        fault,
        why,
        passed,
    })
}

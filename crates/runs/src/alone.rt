//! A run without threads.
ghost use Rattle.std.specs.Prelude.{◌≡◌, ◌≤◌, ℕ, [], ◌++◌, take, IfOk, OnOk, MatchResult};
ghost use Rattle.std.specs.Io.KnownBytes.{Appends};
ghost use Rattle.theory.specs.Plans as plans;
ghost use Rattle.theory.specs.Plans.{ordered, ordered_within};
ghost use Rattle.strategies.specs.Strategies.{by_plan, search_by};
ghost use Rattle.strategies.specs.Deciding.{IsDecidedAs};
ghost use Rattle.theory.specs.Reading.{standard};
ghost use Rattle.theory.specs.Texts.{proof_text};
ghost use Rattle.cdcl.specs.Plans.{search_from};
ghost use Rattle.cnf.specs.Limits.{limits_of};
ghost use Rattle.join.specs.Before.{before_left, IsBefore};
ghost use Rattle.join.specs.Walking.{lines_left, IsBetweenNodes};
ghost use Rattle.strategies.specs.Begun.{formula_in, lines_in};
ghost use Rattle.runs.specs.declared.verdict.Verdict.TheVariants as Verdict;
ghost use Rattle.cubes.specs.Result.{Says};
ghost use Rattle.runs.specs.Answer.{IsRightAnswer};
ghost use Rattle.runs.specs.Run.{AreTexts, RunSays};
ghost use Rattle.runs.specs.Written.{IsAnswer};

use crate::fault::RunFault;
use crate::output::write_text;
use crate::proof_output::{lines_before, room, write_lines, write_proof};
use crate::verdict::Verdict;
use cdcl::Plan;
use cnf::{Formula, Limits, read_from};
use cubes::Tree;
use join::{Lines, LinesBefore, answer_bytes};
use lines::Row;
use std::alloc::{AllocError, Global};
use std::io::{Read, Write};
use strategies::{Begun, Decided, Strategy, solve_one};

/// What a run is to write.
pub(crate) struct Output {
    pub(crate) verdict: Verdict,

    /// The proof's first lines, before those of its tree.
    pub(crate) before: LinesBefore,

    /// The tree's lines, which are made as they are written.
    pub(crate) lines: Lines,

    /// Room for them on their way.
    pub(crate) buffer: Vec<u8>,
    pub(crate) answer: Vec<u8>,
}

// written out, so that proofs of its owners stay short (docs/PROVING.md)
impl Drop for Output {
    fn drop(self) {
        let Output {
            verdict: _,
            before: _,
            lines: _,
            buffer: _,
            answer: _,
        } = self;
    }
}

/// The verdict and the text of the answer.
pub(crate) fn answer_of<L>(
    alloc: Global,
    formula: &Formula,
    tree: &Tree<L>,
) -> Result<(Verdict, Vec<u8>), AllocError>
    requires { (search : plans.Search) × Says search formula.now tree.now }
    ensures { IfOk result (λ p. IsAnswer tree.now p.0 p.1.items) }
{
    match tree {
        Tree::Model(values) => {
            let answer = answer_bytes(alloc, formula, Some(values))?;
            Ok((Verdict::Satisfiable, answer))
        }
        Tree::Refuted(_) => {
            let answer = answer_bytes(alloc, formula, None)?;
            Ok((Verdict::Unsatisfiable, answer))
        }
    }
}

/// The lines before those of a result's tree; that of a model has none.
fn before_of(
    alloc: Global,
    formula: &Formula,
    begun: &mut Begun,
    verdict: Verdict,
) -> Result<LinesBefore, AllocError>
    ensures satisfiable { verdict ≡ Verdict.Satisfiable → IfOk result (λ l. before_left l ≡ []) }
    ensures unsatisfiable { verdict ≡ Verdict.Unsatisfiable → IfOk result (λ l. before_left l ≡ lines_in begun.old formula.now) }
    ensures lawful { IfOk result IsBefore }
    ensures formula { OnOk result (formula_in begun.new formula.now ≡ formula_in begun.old formula.now) }
{
    match verdict {
        Verdict::Satisfiable => {
            let none = LinesBefore::of(alloc, 0, Row::new(alloc))?;
            Ok(none)
        }
        Verdict::Unsatisfiable => {
            let lines = lines_before(alloc, formula, begun)?;
            Ok(lines)
        }
    }
}

/// What is to be written for a formula, which came to the tree by the strategy. From here on the
/// run takes no more memory, but for the parts of several hands.
pub(crate) fn output_of(
    alloc: Global,
    formula: &Formula,
    limits: Limits,
    strategy: Strategy,
    decided: Decided<Row>,
) -> Result<Output, AllocError>
    requires result { IsDecidedAs formula.now strategy (search_from decided.plan.search) decided.begun decided.tree }
    requires says { Says (search_by strategy) formula.now decided.tree }
    ensures texts { IfOk result (λ o. AreTexts (limits_of limits) formula.now strategy o.verdict (proof_text (before_left o.before ++ lines_left o.lines)) o.answer.items) }
    ensures before { IfOk result (λ o. IsBefore o.before) }
    ensures lines { IfOk result (λ o. IsBetweenNodes o.lines) }
    ensures buffer { IfOk result (λ o. o.buffer.items ≡ []) }
{
    let (_limits, _strategy) = (limits, strategy); // they are there for the contract alone
    let _vars = formula.vars(); // it ensures what the proof needs of the formula
    let Decided {
        plan,
        mut begun,
        tree,
    } = decided;
    let search = plan.search();
    let (verdict, answer) = answer_of(alloc, formula, &tree)?;
    let before = before_of(alloc, formula, &mut begun, verdict)?;
    let searched = begun.formula(formula);
    let _searched_vars = searched.vars(); // and this of what is searched
    let lines = Lines::of(alloc, searched, search, tree)?;
    let buffer = room(alloc, &before, &lines)?;
    Ok(Output {
        verdict,
        before,
        lines,
        buffer,
        answer,
    })
}

/// Writes the proof of what is to be written, and flushes the writer. A write or a flush fails as in
/// `write_text`; then a beginning of the text is written.
fn write_output<W: Write>(writer: &mut W, output: &mut Output) -> Result<(), RunFault>
    requires before { IsBefore output.old.before }
    requires lines { IsBetweenNodes output.old.lines }
    requires buffer { output.old.buffer.items ≡ [] }
    ensures written { MatchResult result (λ _. Appends (W.contents writer.old) (W.contents writer.new) (proof_text (before_left output.old.before ++ lines_left output.old.lines)))
        (λ e. (e ≡ RunFault.ProofWriteFailed) × (count : ℕ) × Appends (W.contents writer.old) (W.contents writer.new) (take count (proof_text (before_left output.old.before ++ lines_left output.old.lines)))) }
    ensures kept { (output.new.verdict ≡ output.old.verdict) × (output.new.answer ≡ output.old.answer) }
{
    write_lines(writer, &mut output.before, &mut output.buffer)?;
    write_proof(writer, &mut output.lines, &mut output.buffer)?;
    Ok(())
}

/// What `run` does by a plan, without threads.
fn run_alone<R: Read + Drop, W: Write, P: Write>(
    alloc: Global,
    input: R,
    answer: &mut W,
    proof: &mut P,
    plan: Plan,
) -> Result<Verdict, RunFault>
    ensures says { RunSays standard (R.remaining input) (by_plan plan) (P.contents proof.old) (P.contents proof.new) (W.contents answer.old) (W.contents answer.new) result }
    ensures answer_is_right { IfOk result (IsRightAnswer standard plan.search (R.remaining input) (P.contents proof.old) (P.contents proof.new) (W.contents answer.old) (W.contents answer.new)) }
{
    let formula = match read_from(alloc, input) {
        Ok(formula) => formula,
        Err(fault) => return Err(RunFault::of_read(fault)),
    };
    let _vars = formula.vars(); // it ensures what the proof needs of the formula
    let Ok(decided) = solve_one(alloc, &formula, plan) else {
        return Err(RunFault::NoMemory);
    };
    let strategy = Strategy::of(plan);
    let mut output = match output_of(alloc, &formula, Limits::Standard, strategy, decided) {
        Ok(output) => output,
        Err(_) => return Err(RunFault::NoMemory),
    };
    write_output(proof, &mut output)?;
    write_text(answer, &output.answer, RunFault::AnswerWriteFailed)?;
    Ok(output.verdict)
}

/// What `run` does, without threads.
pub fn run_one<R: Read + Drop, W: Write, P: Write>(
    alloc: Global,
    input: R,
    answer: &mut W,
    proof: &mut P,
    budget: u32,
) -> Result<Verdict, RunFault>
    requires { (1 ≤ budget) × (budget ≤ 100000) }
    ensures says { RunSays standard (R.remaining input) (by_plan (ordered_within budget)) (P.contents proof.old) (P.contents proof.new) (W.contents answer.old) (W.contents answer.new) result }
    ensures answer_is_right { IfOk result (IsRightAnswer standard ordered (R.remaining input) (P.contents proof.old) (P.contents proof.new) (W.contents answer.old) (W.contents answer.new)) }
{
    run_alone(alloc, input, answer, proof, Plan::ordered(budget))
}

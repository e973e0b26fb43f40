//! A run, which ends where a limit is reached.
ghost use Rattle.std.specs.Prelude.{IfOk};
ghost use Rattle.cdcl.specs.Plans.{search_from};
ghost use Rattle.cubes.specs.Result.{Says};
ghost use Rattle.strategies.specs.Strategies.{search_by};
ghost use Rattle.strategies.specs.Deciding.{IsDecidedAs, IsDecidedBy};
ghost use Rattle.cnf.specs.Limits.{limits_of};
ghost use Rattle.runs.specs.Answer.{IsRightEnd};
ghost use Rattle.runs.specs.Ending.{AnswerIsWritten, DecidedIsWritten, EndsUnsolved, TextsAreWritten};
ghost use Rattle.runs.specs.Limited.{LimitedAnswerSays, LimitedRunSays};

use crate::alone::output_of;
use crate::by_hands::{parts_for, write_output_by_hands};
use crate::fault::RunFault;
use crate::limit::LimitedGate;
use crate::model_answer::{write_model, write_model_and_proof};
use crate::options::Options;
use crate::output::write_text;
use crate::verdict::{RunEnd, Verdict};
use cdcl::Unkept;
use cnf::{Formula, read_from_within};
use cubes::{Gate, Limit, Tree};
use join::answer_bytes;
use lines::Row;
use std::alloc::{AllocError, Global};
use std::io::{Read, Write};
use std::sync::Wait;
use std::thread::Threads;
use std::time::Clock;
use strategies::{Context, Decided, Observer, decide};

/// Decides the formula of a DIMACS text by the options' strategy: writes the proof, flushes it, and
/// then writes and flushes the answer. The proof of a satisfiable formula is empty. Whatever the
/// hands, the gate and the schedule, the same bytes are written. The status line of a satisfiable
/// formula is flushed as soon as a model is known; where that is lowered to the first one and the
/// limit is reached before, the answer has the model at hand, and says so. Where the limit is reached
/// before the formula is decided, it writes `s UNKNOWN` as the answer and no proof. `RunFault` says
/// when each fault comes and what is written then; where memory is refused while a model is lowered,
/// the status line stands alone. Of the two clauses `says` is all of it, with the very bytes;
/// `answer_is_right` says of a verdict only that it is right, with its answer.
pub fn run_with<
    T: Threads + Wait + Clock + Sync,
    R: Read + Drop,
    W: Write,
    P: Write,
    G: Gate + Sync,
    L: Limit + Sync,
    O: Observer,
>(
    rt: &T,
    alloc: Global,
    input: R,
    options: &Options<'_, G, L, O>,
    answer: &mut W,
    proof: &mut P,
) -> Result<RunEnd, RunFault>
    ensures says { LimitedRunSays (limits_of options.now.limits) (L.is_reached options.now.limit.now) (R.remaining input) options.now.strategy (P.contents proof.old) (P.contents proof.new) (W.contents answer.old) (W.contents answer.new) result }
    ensures answer_is_right { IfOk result (IsRightEnd (limits_of options.now.limits) (search_by options.now.strategy) (R.remaining input) (P.contents proof.old) (P.contents proof.new) (W.contents answer.old) (W.contents answer.new)) }
{
    let (hands, strategy, observer) = (options.hands, options.strategy, options.observer);
    let formula = match read_from_within(alloc, input, options.limits) {
        Ok(formula) => formula,
        Err(fault) => return Err(RunFault::of_read(fault)),
    };
    observer.read(&formula);
    let gate = &LimitedGate::of(options);
    let context = Context {
        rt,
        alloc,
        hands,
        gate,
        observer,
    };
    let Ok(decided) = decide(&context, &formula, strategy) else {
        return end_unsolved(answer, options.limit, observer);
    };
    write_decided(rt, alloc, &formula, options, decided, answer, proof)
}

/// What `run_with` does, but that no proof is made, and none of its lines is kept. The answer's
/// bytes are the same.
pub fn answer_with<
    T: Threads + Wait + Clock + Sync,
    R: Read + Drop,
    W: Write,
    G: Gate + Sync,
    L: Limit + Sync,
    O: Observer,
>(
    rt: &T,
    alloc: Global,
    input: R,
    options: &Options<'_, G, L, O>,
    answer: &mut W,
) -> Result<RunEnd, RunFault>
    ensures { LimitedAnswerSays (limits_of options.now.limits) (L.is_reached options.now.limit.now) (R.remaining input) options.now.strategy (W.contents answer.old) (W.contents answer.new) result }
{
    let (hands, strategy, observer) = (options.hands, options.strategy, options.observer);
    let formula = match read_from_within(alloc, input, options.limits) {
        Ok(formula) => formula,
        Err(fault) => return Err(RunFault::of_read(fault)),
    };
    observer.read(&formula);
    let gate = &LimitedGate::of(options);
    let context = Context {
        rt,
        alloc,
        hands,
        gate,
        observer,
    };
    let decided: Result<Decided<Unkept>, AllocError> = decide(&context, &formula, strategy);
    let Ok(decided) = decided else {
        return end_unsolved(answer, options.limit, observer);
    };
    write_answer(alloc, &formula, options, decided, answer)
}

/// What a run answers that wasn't decided: where the limit is reached, it writes that the answer is
/// unknown, and else memory was refused.
fn end_unsolved<W: Write, L: Limit, O: Observer>(
    answer: &mut W,
    limit: &L,
    observer: &O,
) -> Result<RunEnd, RunFault>
    ensures { EndsUnsolved (L.is_reached limit.now) (W.contents answer.old) (W.contents answer.new) result }
{
    if !limit.reached() {
        return Err(RunFault::NoMemory);
    }
    observer.answers();
    write_text(answer, b"s UNKNOWN\n", RunFault::AnswerWriteFailed)?;
    Ok(RunEnd::Unknown)
}

/// Writes the proof and the answer of a formula that is decided.
fn write_decided<T: Threads + Sync, W: Write, P: Write, G: Gate, L: Limit, O: Observer>(
    rt: &T,
    alloc: Global,
    formula: &Formula,
    options: &Options<'_, G, L, O>,
    decided: Decided<Row>,
    answer: &mut W,
    proof: &mut P,
) -> Result<RunEnd, RunFault>
    requires { IsDecidedBy (λ row. row) formula.now options.now.strategy decided }
    ensures { DecidedIsWritten (limits_of options.now.limits) formula.now options.now.strategy (L.is_reached options.now.limit.now) (P.contents proof.old) (P.contents proof.new) (W.contents answer.old) (W.contents answer.new) result }
{
    let _vars = formula.vars(); // it ensures what the proof needs of the formula
    let Decided { plan, begun, tree } = decided;
    match tree {
        Tree::Model(values) => {
            write_model_and_proof(alloc, formula, options, plan, values, answer, proof)
        }
        Tree::Refuted(nodes) => {
            let tree = Tree::Refuted(nodes);
            options.observer.solved(&tree);
            let refuted = Decided { plan, begun, tree };
            write_refutation(rt, alloc, formula, options, refuted, answer, proof)
        }
    }
}

/// Writes the proof and then the answer of a formula that is refuted.
fn write_refutation<T: Threads + Sync, W: Write, P: Write, G, L, O: Observer>(
    rt: &T,
    alloc: Global,
    formula: &Formula,
    options: &Options<'_, G, L, O>,
    decided: Decided<Row>,
    answer: &mut W,
    proof: &mut P,
) -> Result<RunEnd, RunFault>
    requires result { IsDecidedAs formula.now options.now.strategy (search_from decided.plan.search) decided.begun decided.tree }
    requires says { Says (search_by options.now.strategy) formula.now decided.tree }
    ensures { TextsAreWritten (limits_of options.now.limits) formula.now options.now.strategy (P.contents proof.old) (P.contents proof.new) (W.contents answer.old) (W.contents answer.new) result }
{
    let (strategy, hands, observer) = (options.strategy, options.hands, options.observer);
    let mut output = match output_of(alloc, formula, options.limits, strategy, decided) {
        Ok(output) => output,
        Err(_) => return Err(RunFault::NoMemory),
    };
    let Ok(mut parts) = parts_for(alloc, &output.lines, hands.get()) else {
        return Err(RunFault::NoMemory);
    };
    observer.joined();
    write_output_by_hands(rt, proof, &mut output, &mut parts)?;
    observer.written();
    observer.answers();
    write_text(answer, &output.answer, RunFault::AnswerWriteFailed)?;
    Ok(RunEnd::Decided(output.verdict))
}

/// Writes the answer of a formula that is decided, with no line kept.
fn write_answer<W: Write, G: Gate, L: Limit, O: Observer>(
    alloc: Global,
    formula: &Formula,
    options: &Options<'_, G, L, O>,
    decided: Decided<Unkept>,
    answer: &mut W,
) -> Result<RunEnd, RunFault>
    requires { IsDecidedBy (λ unkept. unkept) formula.now options.now.strategy decided }
    ensures { AnswerIsWritten (limits_of options.now.limits) formula.now options.now.strategy (L.is_reached options.now.limit.now) (W.contents answer.old) (W.contents answer.new) result }
{
    let _vars = formula.vars(); // it ensures what the proof needs of the formula
    let Decided {
        plan,
        begun: _,
        tree,
    } = decided;
    match tree {
        Tree::Model(values) => write_model(alloc, formula, options, plan, values, answer),
        Tree::Refuted(_) => {
            options.observer.decided();
            let Ok(text) = answer_bytes(alloc, formula, None) else {
                return Err(RunFault::NoMemory);
            };
            options.observer.answers();
            write_text(answer, &text, RunFault::AnswerWriteFailed)?;
            Ok(RunEnd::Decided(Verdict::Unsatisfiable))
        }
    }
}

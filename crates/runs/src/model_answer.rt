//! The answer to a formula whose model is known: the status line at once, and the value lines as soon as
//! the model is the one that is the answer.
ghost use Rattle.std.specs.Prelude.{◌≡◌, ◌⊎◌, true, false, IfOk};
ghost use Rattle.theory.specs.Plans.{ordered};
ghost use Rattle.theory.specs.Truth.{Satisfies};
ghost use Rattle.strategies.specs.Deciding.{IsFoundBy};
ghost use Rattle.strategies.specs.Lowering.{IsLowered};
ghost use Rattle.cnf.specs.Limits.{limits_of};
ghost use Rattle.runs.specs.Ending.{DecidedIsWritten, HasAnswer, IsBelowStatus, ModelIsWritten};

use crate::fault::RunFault;
use crate::limit::LimitedGate;
use crate::options::Options;
use crate::output::write_text;
use crate::verdict::{RunEnd, Verdict};
use cdcl::Plan;
use cnf::Formula;
use cubes::{Gate, Limit};
use join::{answer_bytes, bytes_at_limit, value_bytes};
use std::alloc::{AllocError, Global};
use std::io::Write;
use strategies::{Lowered, Observer, Strategy, is_lowered, lower};

/// What is written for a formula of which the plan found this model. The status line comes before a
/// model is lowered: whoever waits for the first one knows by then that there is one. A write fails
/// as in `write_text`.
pub(crate) fn write_model<W: Write, G: Gate, L: Limit, O: Observer>(
    alloc: Global,
    formula: &Formula,
    options: &Options<'_, G, L, O>,
    plan: Plan,
    model: Vec<bool>,
    answer: &mut W,
) -> Result<RunEnd, RunFault>
    requires { IsFoundBy formula.now options.now.strategy plan model.items }
    ensures { ModelIsWritten formula.now options.now.strategy (L.is_reached options.now.limit.now) (W.contents answer.old) (W.contents answer.new) result }
{
    let _vars = formula.vars(); // it ensures what the proof needs of the formula
    let strategy = options.strategy;
    if is_lowered(strategy, plan) {
        return write_lowered(alloc, formula, options, model, answer);
    }
    options.observer.decided();
    let Ok(text) = text_of_found(alloc, formula, strategy, plan, &model) else {
        return Err(RunFault::NoMemory);
    };
    options.observer.answers();
    write_text(answer, &text, RunFault::AnswerWriteFailed)?;
    Ok(RunEnd::Decided(Verdict::Satisfiable))
}

/// The same beside a proof, which is empty. It is flushed before the first byte of the answer, and all
/// that is written at once is made before that.
pub(crate) fn write_model_and_proof<W: Write, P: Write, G: Gate, L: Limit, O: Observer>(
    alloc: Global,
    formula: &Formula,
    options: &Options<'_, G, L, O>,
    plan: Plan,
    model: Vec<bool>,
    answer: &mut W,
    proof: &mut P,
) -> Result<RunEnd, RunFault>
    requires { IsFoundBy formula.now options.now.strategy plan model.items }
    ensures { DecidedIsWritten (limits_of options.now.limits) formula.now options.now.strategy (L.is_reached options.now.limit.now) (P.contents proof.old) (P.contents proof.new) (W.contents answer.old) (W.contents answer.new) result }
{
    let _vars = formula.vars(); // it ensures what the proof needs of the formula
    let strategy = options.strategy;
    if is_lowered(strategy, plan) {
        write_text(proof, b"", RunFault::ProofWriteFailed)?;
        return write_lowered(alloc, formula, options, model, answer);
    }
    options.observer.decided();
    let Ok(text) = text_of_found(alloc, formula, strategy, plan, &model) else {
        return Err(RunFault::NoMemory);
    };
    write_text(proof, b"", RunFault::ProofWriteFailed)?;
    options.observer.answers();
    write_text(answer, &text, RunFault::AnswerWriteFailed)?;
    Ok(RunEnd::Decided(Verdict::Satisfiable))
}

/// The answer with a model that isn't lowered.
fn text_of_found(
    alloc: Global,
    formula: &Formula,
    strategy: Strategy,
    plan: Plan,
    model: &[bool],
) -> Result<Vec<u8>, AllocError>
    requires found { IsFoundBy formula.now strategy plan model.now }
    requires kept { (strategy.lowers ≡ false) ⊎ (plan.search ≡ ordered) }
    ensures { IfOk result (λ text. HasAnswer formula.now strategy text.items) }
{
    let (_strategy, _plan) = (strategy, plan); // they are there for the contract alone
    let _vars = formula.vars(); // it ensures what the proof needs of the formula
    answer_bytes(alloc, formula, Some(model))
}

/// The same, where the model is lowered to the first one: where the limit is reached before, the model
/// at hand is written, and what it is.
fn write_lowered<W: Write, G: Gate, L: Limit, O: Observer>(
    alloc: Global,
    formula: &Formula,
    options: &Options<'_, G, L, O>,
    model: Vec<bool>,
    answer: &mut W,
) -> Result<RunEnd, RunFault>
    requires lowers { options.now.strategy.lowers ≡ true }
    requires model { Satisfies formula.now model.items }
    ensures { ModelIsWritten formula.now options.now.strategy (L.is_reached options.now.limit.now) (W.contents answer.old) (W.contents answer.new) result }
{
    let observer = options.observer;
    observer.has_model();
    write_text(answer, b"s SATISFIABLE\n", RunFault::AnswerWriteFailed)?;
    let lowered = lower(alloc, formula, model, &LimitedGate::of(options), observer);
    let Ok(lowered) = lowered else {
        return Err(RunFault::NoMemory);
    };
    if let Lowered::First(_) = &lowered {
        observer.decided();
    }
    let is_reached = options.limit.reached();
    let (end, text) = match values_of(alloc, formula, &lowered, is_reached) {
        Ok(pair) => pair,
        Err(_) => return Err(RunFault::NoMemory),
    };
    observer.answers();
    write_text(answer, &text, RunFault::AnswerWriteFailed)?;
    Ok(end)
}

/// What stands below the status line for what a lowering came to. It fails where a request for memory
/// is refused, and where something else than the limit has stopped the lowering.
fn values_of(
    alloc: Global,
    formula: &Formula,
    lowered: &Lowered,
    is_reached: bool,
) -> Result<(RunEnd, Vec<u8>), AllocError>
    requires { IsLowered formula.now lowered.now }
    ensures { IfOk result (λ p. IsBelowStatus formula.now is_reached p.0 p.1.items) }
{
    let _vars = formula.vars(); // it ensures what the proof needs of the formula
    match lowered {
        Lowered::First(values) => {
            let text = value_bytes(alloc, formula, values)?;
            Ok((RunEnd::Decided(Verdict::Satisfiable), text))
        }
        Lowered::Stopped(values, settled) => {
            if !is_reached {
                return Err(AllocError);
            }
            let text = bytes_at_limit(alloc, formula, values, *settled)?;
            Ok((RunEnd::NotFirst, text))
        }
    }
}

//! A run over facts that are kept elsewhere and that nobody vouches for. It goes
//! through the formula's tree once: the proof is written as the nodes come.
ghost use Rattle.std.specs.Prelude.{◌≡◌, ◌⊎◌, [], length, IsNone, IfOk, IfErr, IfSome, MatchResult};
ghost use Rattle.cdcl.specs.Plans.{search_from, first_units};
ghost use Rattle.strategies.specs.Strategies.{by_plan};
ghost use Rattle.cnf.specs.Limits.{limits_of};
ghost use Rattle.join.specs.Joining.{before_nodes};
ghost use Rattle.join.specs.Before.{before_left, IsBefore};
ghost use Rattle.join.specs.Walking.{joined};
ghost use Rattle.runs.specs.Answer.{IsRightAnswer};
ghost use Rattle.runs.specs.Run.{WritesBoth};
ghost use Rattle.runs.specs.Stored.{AreTrueStored, IsStreamFor};
ghost use Rattle.runs.specs.AtOnce.{HasNoProof, LeavesAtOnce, WritesAllIfRefuted, WritesIfRefuted};

use crate::fault::RunFault;
use crate::output::write_text;
use crate::proof_output::{lines_before, write_lines};
use crate::proof_stream::ProofStream;
use crate::stored::{GatheredFrom, Gathering};
use crate::verdict::Verdict;
use cdcl::Plan;
use cnf::{Formula, Limits, read_from_within};
use cubes::{GivesOutcomes, OpenGate, Tree, go_through};
use gathering::{CountsOutcomes, KeepsFacts, ManyHands, OneHand, OpensOutcomes};
use join::{LinesBefore, answer_bytes};
use std::alloc::Global;
use std::io::{Read, Write};
use std::thread::Threads;
use strategies::{Unobserved, begun};

/// Goes through a formula's tree, and writes its proof through a stream that no node came to;
/// whether the formula is refuted. If it isn't, some of a proof may be written that has no end.
pub(crate) fn write_if_refuted<O: GivesOutcomes, P: Write>(
    alloc: Global,
    formula: &Formula,
    plan: Plan,
    outcomes: &mut O,
    stream: &mut ProofStream,
    proof: &mut P,
) -> Result<bool, RunFault>
    requires gives { O.gives outcomes.old formula.now plan }
    requires stream { IsStreamFor (search_from plan.search) formula.now stream.old }
    requires joined { joined stream.old.joiner ≡ before_nodes (length formula.now.clauses) (first_units (search_from plan.search) formula.now) }
    requires buffer { stream.old.buffer.items ≡ [] }
    ensures { MatchResult result
        (WritesIfRefuted formula.now plan (O.gives_own outcomes.old formula.now plan) (P.contents proof.old) (P.contents proof.new))
        (λ e. (e ≡ RunFault.NoMemory) ⊎ (e ≡ RunFault.ProofWriteFailed)) }
{
    match go_through(alloc, formula, plan, outcomes, stream, proof) {
        Ok(Tree::Refuted(_)) => {
            stream.end(proof)?;
            Ok(true)
        }
        Ok(Tree::Model(_)) => Ok(false),
        Err(_) => Err(stream.fault()),
    }
}

/// What `write_if_refuted` does, behind the lines before.
pub(crate) fn write_all_if_refuted<O: GivesOutcomes, P: Write>(
    alloc: Global,
    searched: &Formula,
    plan: Plan,
    outcomes: &mut O,
    before: &mut LinesBefore,
    stream: &mut ProofStream,
    proof: &mut P,
) -> Result<bool, RunFault>
    requires gives { O.gives outcomes.old searched.now plan }
    requires before { IsBefore before.old }
    requires stream { IsStreamFor (search_from plan.search) searched.now stream.old }
    requires joined { joined stream.old.joiner ≡ before_nodes (length searched.now.clauses) (first_units (search_from plan.search) searched.now) }
    requires buffer { stream.old.buffer.items ≡ [] }
    ensures { MatchResult result
        (WritesAllIfRefuted searched.now plan (O.gives_own outcomes.old searched.now plan) (before_left before.old) (P.contents proof.old) (P.contents proof.new))
        (λ e. (e ≡ RunFault.NoMemory) ⊎ (e ≡ RunFault.ProofWriteFailed)) }
{
    write_lines(proof, before, &mut stream.buffer)?;
    write_if_refuted(alloc, searched, plan, outcomes, stream, proof)
}

/// What `gather_at_once` does, by these hands.
fn gather_at_once_by<R: Read + Drop, S: KeepsFacts + Drop, H: OpensOutcomes<S>, W: Write, P: Write>(
    alloc: Global,
    input: R,
    limits: Limits,
    store: S,
    answer: &mut W,
    proof: &mut P,
    plan: Plan,
    hands: &H,
) -> Result<Option<GatheredFrom>, RunFault>
    requires { H.opens hands.now }
    ensures answer_is_right { IfOk result (λ o. IfSome o (λ g. IsRightAnswer (limits_of limits) plan.search (R.remaining input) (P.contents proof.old) (P.contents proof.new) (W.contents answer.old) (W.contents answer.new) g.verdict)) }
    ensures refuted { IfOk result (λ o. IfSome o (λ g. g.verdict ≡ Verdict.Unsatisfiable)) }
    ensures none { IfOk result (λ o. IsNone o → HasNoProof (limits_of limits) (R.remaining input) (W.contents answer.old) (W.contents answer.new)) }
    ensures leaves { IfErr result (LeavesAtOnce (limits_of limits) plan.search (R.remaining input) (P.contents proof.old) (P.contents proof.new) (W.contents answer.old) (W.contents answer.new)) }
    ensures says { AreTrueStored S.facts (limits_of limits) (R.remaining input) plan store →
        IfOk result (λ o. IfSome o (λ g. WritesBoth (limits_of limits) (R.remaining input) (by_plan plan) (P.contents proof.old) (P.contents proof.new) (W.contents answer.old) (W.contents answer.new) g.verdict)) }
{
    let formula = match read_from_within(alloc, input, limits) {
        Ok(formula) => formula,
        Err(fault) => return Err(RunFault::of_read(fault)),
    };
    let _vars = formula.vars(); // it ensures what the proof needs of the formula
    let Ok(mut begun) = begun(alloc, &formula, plan, &OpenGate, &Unobserved) else {
        return Err(RunFault::NoMemory);
    };
    let Ok(mut before) = lines_before(alloc, &formula, &mut begun) else {
        return Err(RunFault::NoMemory);
    };
    let searched = begun.formula(&formula);
    let _searched_vars = searched.vars(); // and this of what is searched
    let Ok(mut outcomes) = hands.open(alloc, searched, plan, store) else {
        return Err(RunFault::NoMemory);
    };
    let Ok(text) = answer_bytes(alloc, &formula, None) else {
        return Err(RunFault::NoMemory);
    };
    let Ok(mut stream) = ProofStream::begin(alloc, searched, plan.search()) else {
        return Err(RunFault::NoMemory);
    };
    if !write_all_if_refuted(
        alloc,
        searched,
        plan,
        &mut outcomes,
        &mut before,
        &mut stream,
        proof,
    )? {
        return Ok(None);
    }
    write_text(answer, &text, RunFault::AnswerWriteFailed)?;
    Ok(Some(GatheredFrom {
        verdict: Verdict::Unsatisfiable,
        taken: outcomes.taken(),
        solved: outcomes.solved(),
    }))
}

/// What `gather_stored` does by the strategy's plan, for a formula that isn't satisfiable, by going
/// through its tree once: each fact is asked for and checked once, and the proof is written as the nodes come. Where a cube
/// turns out to have a model, it answers none: nothing of the answer is written, but some of a proof
/// may be, which the formula hasn't. Who calls it begins the proof anew then, and calls
/// `gather_stored`. `RunFault` says when each fault comes, but that want of memory, too, may come
/// behind a beginning of the proof; once all nodes came, it is a proof that can't be written.
pub fn gather_at_once<T: Threads + Sync, R: Read + Drop, S: KeepsFacts + Drop, W: Write, P: Write>(
    rt: &T,
    alloc: Global,
    input: R,
    gathering: Gathering<S>,
    answer: &mut W,
    proof: &mut P,
) -> Result<Option<GatheredFrom>, RunFault>
    ensures answer_is_right { IfOk result (λ o. IfSome o (λ g. IsRightAnswer (limits_of gathering.limits) gathering.strategy.plan.search (R.remaining input) (P.contents proof.old) (P.contents proof.new) (W.contents answer.old) (W.contents answer.new) g.verdict)) }
    ensures refuted { IfOk result (λ o. IfSome o (λ g. g.verdict ≡ Verdict.Unsatisfiable)) }
    ensures none { IfOk result (λ o. IsNone o → HasNoProof (limits_of gathering.limits) (R.remaining input) (W.contents answer.old) (W.contents answer.new)) }
    ensures leaves { IfErr result (LeavesAtOnce (limits_of gathering.limits) gathering.strategy.plan.search (R.remaining input) (P.contents proof.old) (P.contents proof.new) (W.contents answer.old) (W.contents answer.new)) }
    ensures says { AreTrueStored S.facts (limits_of gathering.limits) (R.remaining input) gathering.strategy.plan gathering.store →
        IfOk result (λ o. IfSome o (λ g. WritesBoth (limits_of gathering.limits) (R.remaining input) (by_plan gathering.strategy.plan) (P.contents proof.old) (P.contents proof.new) (W.contents answer.old) (W.contents answer.new) g.verdict)) }
{
    let Gathering {
        store,
        limits,
        strategy,
        hands,
    } = gathering;
    let (plan, count) = (strategy.plan(), hands.get());
    if count == 1 {
        return gather_at_once_by(alloc, input, limits, store, answer, proof, plan, &OneHand);
    }
    let hands = ManyHands { rt, count };
    gather_at_once_by(alloc, input, limits, store, answer, proof, plan, &hands)
}

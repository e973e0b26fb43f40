//! A run over facts that are kept elsewhere and that nobody vouches for. Its proof
//! is written while they are read again, so that no more than one of them is in memory.
ghost use Rattle.std.specs.Prelude.{◌≡◌, List, ◌++◌, None, IfOk, IfErr, MatchResult, ℕ};
ghost use Rattle.std.specs.Io.KnownBytes.{Appends};
ghost use Rattle.theory.specs.Truth.{Satisfiable};
ghost use Rattle.theory.specs.Texts.{proof_text};
ghost use Rattle.cnf.specs.Limits.{limits_of};
ghost use Rattle.join.specs.Before.{before_left, IsBefore};
ghost use Rattle.strategies.specs.Strategies.{search_by};
ghost use Rattle.runs.specs.Answer.{IsRightAnswer};
ghost use Rattle.runs.specs.Run.{WritesBoth};
ghost use Rattle.runs.specs.Stored.{AreTrueStored, IsProofOf, IsProofText, IsRefutedTree, IsUnwritten, LeavesStored};

use crate::alone::answer_of;
use crate::at_once::write_all_if_refuted;
use crate::fault::RunFault;
use crate::output::write_text;
use crate::proof_output::lines_before;
use crate::proof_stream::ProofStream;
use crate::verdict::Verdict;
use cdcl::{Plan, Unkept};
use cnf::{Formula, Limits, read_from_within};
use cubes::{GivesOutcomes, HandCount, OpenGate, Tree, Untaken, go_through};
use gathering::{CountsOutcomes, KeepsFacts, ManyHands, OneHand, OpensOutcomes};
use join::LinesBefore;
use std::alloc::Global;
use std::io::{Read, Write};
use std::thread::Threads;
use strategies::{Strategy, Unobserved, answered, begun};

/// What a run over stored facts comes to.
#[derive(Clone, Copy, Debug, PartialEq, Eq)]
pub struct GatheredFrom {
    pub verdict: Verdict,
    /// So many facts were taken to come to the verdict. The number stops at the greatest one.
    pub taken: u64,
    /// So many cubes were solved for it, since no fact of them was checked.
    pub solved: u64,
}

/// Facts of a formula's cubes that are kept elsewhere, and how a run goes over them.
#[derive(Drop)]
pub struct Gathering<S> {
    pub store: S,
    /// How large the formula may be.
    pub limits: Limits,
    pub strategy: Strategy,
    /// How many hands check facts. Several do so before their cubes are asked for, if the store has
    /// them in the order of a tree, each in a thread of its own where one can be started. What is
    /// written is the same.
    pub hands: HandCount,
}

/// Writes the proof of what is searched, which isn't satisfiable, from the outcomes of its cubes,
/// behind the lines before.
fn write_refutation<O: GivesOutcomes, P: Write>(
    alloc: Global,
    searched: &Formula,
    plan: Plan,
    outcomes: &mut O,
    before: &mut LinesBefore,
    proof: &mut P,
) -> Result<(), RunFault>
    requires gives { O.gives outcomes.old searched.now plan }
    requires before { IsBefore before.old }
    requires refuted { ¬ (Satisfiable searched.now) }
    ensures { MatchResult result
        (λ _. (text : List ℕ) × IsProofText searched.now plan (O.gives_own outcomes.old searched.now plan) text
        × Appends (P.contents proof.old) (P.contents proof.new) (proof_text (before_left before.old) ++ text))
        (IsUnwritten (P.contents proof.old) (P.contents proof.new)) }
{
    let Ok(mut stream) = ProofStream::begin(alloc, searched, plan.search()) else {
        return Err(RunFault::NoMemory);
    };
    match write_all_if_refuted(alloc, searched, plan, outcomes, before, &mut stream, proof) {
        Ok(true) => Ok(()),
        Ok(false) => unreachable!(),
        Err(_) => Err(RunFault::ProofWriteFailed),
    }
}

/// Writes the proof for a result; that of a model is empty.
fn write_proof_of<O: GivesOutcomes, P: Write>(
    alloc: Global,
    searched: &Formula,
    plan: Plan,
    tree: &Tree<Unkept>,
    outcomes: &mut O,
    before: &mut LinesBefore,
    proof: &mut P,
) -> Result<(), RunFault>
    requires gives { O.gives outcomes.old searched.now plan }
    requires before { IsBefore before.old }
    requires refuted { IsRefutedTree tree.now → ¬ (Satisfiable searched.now) }
    ensures { MatchResult result
        (λ _. (text : List ℕ) × IsProofOf searched.now plan (O.gives_own outcomes.old searched.now plan) (before_left before.old) tree.now text × Appends (P.contents proof.old) (P.contents proof.new) text)
        (IsUnwritten (P.contents proof.old) (P.contents proof.new)) }
{
    match tree {
        Tree::Model(_) => write_text(proof, &[], RunFault::ProofWriteFailed),
        Tree::Refuted(_) => write_refutation(alloc, searched, plan, outcomes, before, proof),
    }
}

/// What `gather_stored` does, by these hands.
fn gather_stored_by<R: Read + Drop, S: KeepsFacts + Drop, H: OpensOutcomes<S>, W: Write, P: Write>(
    alloc: Global,
    input: R,
    limits: Limits,
    store: S,
    answer: &mut W,
    proof: &mut P,
    strategy: Strategy,
    hands: &H,
) -> Result<GatheredFrom, RunFault>
    requires opens { H.opens hands.now }
    requires alone { strategy.first ≡ None }
    ensures answer_is_right { IfOk result (λ g. IsRightAnswer (limits_of limits) (search_by strategy) (R.remaining input) (P.contents proof.old) (P.contents proof.new) (W.contents answer.old) (W.contents answer.new) g.verdict) }
    ensures leaves { IfErr result (LeavesStored (limits_of limits) (search_by strategy) (R.remaining input) (P.contents proof.old) (P.contents proof.new) (W.contents answer.old) (W.contents answer.new)) }
    ensures says { AreTrueStored S.facts (limits_of limits) (R.remaining input) strategy.plan store →
        IfOk result (λ g. WritesBoth (limits_of limits) (R.remaining input) strategy (P.contents proof.old) (P.contents proof.new) (W.contents answer.old) (W.contents answer.new) g.verdict) }
{
    let formula = match read_from_within(alloc, input, limits) {
        Ok(formula) => formula,
        Err(fault) => return Err(RunFault::of_read(fault)),
    };
    let _vars = formula.vars(); // it ensures what the proof needs of the formula
    let plan = strategy.plan();
    let Ok(mut begun) = begun(alloc, &formula, plan, &OpenGate, &Unobserved) else {
        return Err(RunFault::NoMemory);
    };
    let searched = begun.formula(&formula);
    let _searched_vars = searched.vars(); // and this of what is searched
    let Ok(mut outcomes) = hands.open(alloc, searched, plan, store) else {
        return Err(RunFault::NoMemory);
    };
    let Ok(tree) = go_through(alloc, searched, plan, &mut outcomes, &mut Untaken, &mut ()) else {
        return Err(RunFault::NoMemory);
    };
    let (taken, solved) = (outcomes.taken(), outcomes.solved());
    let Ok(tree) = answered(
        alloc,
        &formula,
        &begun,
        strategy,
        tree,
        &OpenGate,
        &Unobserved,
    ) else {
        return Err(RunFault::NoMemory);
    };
    let Ok(mut before) = lines_before(alloc, &formula, &mut begun) else {
        return Err(RunFault::NoMemory);
    };
    let (verdict, text) = match answer_of(alloc, &formula, &tree) {
        Ok(pair) => pair,
        Err(_) => return Err(RunFault::NoMemory),
    };
    let searched = begun.formula(&formula);
    write_proof_of(
        alloc,
        searched,
        plan,
        &tree,
        &mut outcomes,
        &mut before,
        proof,
    )?;
    write_text(answer, &text, RunFault::AnswerWriteFailed)?;
    Ok(GatheredFrom {
        verdict,
        taken,
        solved,
    })
}

/// What `run_with` does, where facts of the formula's cubes are kept elsewhere: it goes through the
/// formula's tree twice, once to come to the verdict and once to write the proof, and asks for each
/// cube's facts when it comes there. Nobody vouches for these: of the cubes that it needs, it takes
/// what a check bears out, each time, and solves the others. So its answer is right whatever the
/// store gives, and also where that changes in between; where the store tells what it gives, and all
/// of that is true of the formula by the plan, the very bytes of `run_with` are written. The
/// strategy has no search before its plan: whoever began the run has chosen that; its model may be
/// lowered to the first one. It takes memory by the formula, a few bytes for each node of the tree,
/// and the longest fact; by several hands, for each of them that of the formula once more, and of a
/// few facts. `RunFault` says when each fault comes; in the second way through the tree want of
/// memory is a proof that can't be written.
pub fn gather_stored<T: Threads + Sync, R: Read + Drop, S: KeepsFacts + Drop, W: Write, P: Write>(
    rt: &T,
    alloc: Global,
    input: R,
    gathering: Gathering<S>,
    answer: &mut W,
    proof: &mut P,
) -> Result<GatheredFrom, RunFault>
    requires { gathering.strategy.first ≡ None }
    ensures answer_is_right { IfOk result (λ g. IsRightAnswer (limits_of gathering.limits) (search_by gathering.strategy) (R.remaining input) (P.contents proof.old) (P.contents proof.new) (W.contents answer.old) (W.contents answer.new) g.verdict) }
    ensures leaves { IfErr result (LeavesStored (limits_of gathering.limits) (search_by gathering.strategy) (R.remaining input) (P.contents proof.old) (P.contents proof.new) (W.contents answer.old) (W.contents answer.new)) }
    ensures says { AreTrueStored S.facts (limits_of gathering.limits) (R.remaining input) gathering.strategy.plan gathering.store →
        IfOk result (λ g. WritesBoth (limits_of gathering.limits) (R.remaining input) gathering.strategy (P.contents proof.old) (P.contents proof.new) (W.contents answer.old) (W.contents answer.new) g.verdict) }
{
    let Gathering {
        store,
        limits,
        strategy,
        hands,
    } = gathering;
    let count = hands.get();
    if count == 1 {
        return gather_stored_by(
            alloc, input, limits, store, answer, proof, strategy, &OneHand,
        );
    }
    let hands = ManyHands { rt, count };
    gather_stored_by(alloc, input, limits, store, answer, proof, strategy, &hands)
}

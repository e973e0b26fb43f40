//! `gather`: what is said of cubes that are missing, of packs and faults, and its statuses.
ghost use Rattle.std.specs.Prelude.{◌≡◌, ◌⊎◌, IfErr, IfSome, IsNone};
ghost use Rattle.std.specs.Io.KnownBytes.{Keeps};
ghost use Rattle.std.specs.Thread.{IsSync};
ghost use Rattle.commands.specs.Status.{verdict_status};
ghost use Rattle.spread.specs.RunFiles.{written_by};
ghost use Rattle.cubesat.specs.Ends.{IsEndOf, IsGatherEnd, IsGatherStatus};

use crate::gathered_store::{Held, formula_of, held_in, print_missing, store_for};
use commands::{
    FAILED, Input, Known, Locks, PlacedProof, SATISFIABLE, UNSATISFIABLE, begin_proof, open_input,
    print_fault_of, print_no_memory, print_not_begun, print_not_opened,
};
use cubes::HandCount;
use files::{NoticedReader, NoticedWriter};
use runs::{GatheredFrom, Gathering, RunFault, Verdict, gather_at_once, gather_stored};
use spread::{Folder, PackStore, Said, StoreCounts, unproved_in};
use statistics::{Board, CountedWriter, Manner, Stage, Watch, show_progress};
use std::alloc::Global;
use std::fs::Files;
use std::io::{Empty, Write};
use std::sync::Wait;
use std::thread;
use std::thread::Threads;
use std::time::Clock;

/// What gathering came to.
#[derive(Clone, Copy, Debug, PartialEq, Eq)]
enum End {
    /// A verdict or a fault, with what is to be said of it said.
    Status(u8),
    /// A cube of which no fact is so, and which isn't to be solved.
    Unproved,
}

/// Prints what the packs of a run had, and what was taken of it.
fn print_counts<E: Write>(faults: &mut E, counts: StoreCounts, gathered: &GatheredFrom) {
    let StoreCounts {
        facts,
        passed_over,
        broken_off,
    } = counts;
    let taken = gathered.taken;
    let solved = gathered.solved;
    let _ = writeln!(
        faults,
        "c packs: {facts} facts, {taken} of them taken, {solved} cubes solved again, {passed_over} passed over, {broken_off} packs break off"
    );
}

/// The status of a verdict.
fn status_of(verdict: Verdict) -> u8
    ensures { result ≡ verdict_status verdict }
{
    match verdict {
        Verdict::Satisfiable => SATISFIABLE,
        Verdict::Unsatisfiable => UNSATISFIABLE,
    }
}

/// What gathering came to, of which it is said what happened if it came to a fault. `has_ended` tells
/// whether it ended at a cube of which no fact is so.
fn end_gather<R: Files, E: Write>(
    rt: &R,
    faults: &mut E,
    gathered: Result<GatheredFrom, RunFault>,
    known: &Known<'_>,
    counts: Option<StoreCounts>,
    has_ended: bool,
) -> End
    ensures { IsEndOf gathered has_ended result }
{
    let gathered = match gathered {
        Ok(gathered) => gathered,
        Err(_) if has_ended => return End::Unproved,
        Err(fault) => return End::Status(print_fault_of(rt, faults, fault, known, false)),
    };
    if let Some(counts) = counts {
        print_counts(faults, counts, &gathered);
    }
    End::Status(status_of(gathered.verdict))
}

/// A run whose result is gathered, and where the proof goes.
#[derive(Drop)]
struct GatheredRun<'a, R: Files> {
    held: &'a Held,
    /// The formula's path, and the file there, so that the proof isn't written over it.
    formula: &'a str,
    input: &'a Input<R::File, Empty>,
    proof: &'a str,
    hands: HandCount,
    /// What is printed of its packs.
    counts: Option<StoreCounts>,
    /// Where the proof is counted.
    board: &'a Board,
}

impl<R: Files> GatheredRun<'_, R> {
    /// What is gathered, from this store.
    fn over<S>(&self, store: S) -> Gathering<S>
        ensures limits { result.limits ≡ self.now.held.now.run.limits }
        ensures strategy { result.strategy ≡ written_by self.now.held.now.run }
    {
        Gathering {
            store,
            limits: self.held.run.limits,
            strategy: self.held.run.strategy(),
            hands: self.hands,
        }
    }
}

/// Begins the file of the proof; or else the status.
fn proof_begun<'a, R: Files, E: Write, L: Locks<R::File>>(
    rt: &'a R,
    alloc: Global,
    run: &GatheredRun<'_, R>,
    faults: &mut E,
    locks: &L,
) -> Result<PlacedProof<'a, R>, u8>
    ensures { IfErr result (λ status. status ≡ 1) }
{
    match begin_proof(rt, alloc, run.proof, run.input, locks) {
        Ok(proof) => Ok(proof),
        Err(why) => Err(print_not_begun(faults, why, run.formula, run.proof, false)),
    }
}

/// Gathers the result of a run by going through its tree once; what it came to, if it came to an end.
/// Otherwise the formula has a model, and nothing is printed or stands in the proof's place.
fn gather_once<R: Files + Threads + Wait + Clock + Sync, W: Write, E: Write>(
    rt: &R,
    alloc: Global,
    run: &GatheredRun<'_, R>,
    store: &mut PackStore<'_, R>,
    proof: PlacedProof<'_, R>,
    answer: &mut NoticedWriter<W>,
    faults: &mut E,
) -> Option<End>
    ensures end { IfSome result (IsGatherEnd run.now.held.now (W.contents answer.old.inner) (W.contents answer.new.inner)) }
    ensures none { IsNone result → Keeps (W.contents answer.old.inner) (W.contents answer.new.inner) }
{
    let mut input = NoticedReader::of(run.held.formula.as_slice());
    let watch = Watch {
        rt,
        alloc,
        board: run.board,
    };
    let counted = CountedWriter {
        inner: proof,
        counter: &watch,
    };
    let mut output = NoticedWriter::of(counted);
    let gathered = gather_at_once(
        rt,
        alloc,
        &mut input,
        run.over(&mut *store),
        &mut *answer,
        &mut output,
    );
    let gathered = gathered.transpose()?;
    let known = Known {
        formula: run.formula,
        proof: run.proof,
        added_lines: 0,
        beginning: input.beginning(),
        formula_error: input.error(),
        proof_error: output.error(),
        answer_error: answer.error(),
        limits: run.held.run.limits,
    };
    let has_ended = store.has_ended();
    let end = end_gather(rt, faults, gathered, &known, run.counts, has_ended);
    Some(end)
}

/// Gathers the result of a run by going through its tree twice; what it came to.
fn gather_twice<R: Files + Threads + Wait + Clock + Sync, W: Write, E: Write>(
    rt: &R,
    alloc: Global,
    run: &GatheredRun<'_, R>,
    store: &mut PackStore<'_, R>,
    proof: PlacedProof<'_, R>,
    answer: &mut NoticedWriter<W>,
    faults: &mut E,
) -> End
    ensures { IsGatherEnd run.now.held.now (W.contents answer.old.inner) (W.contents answer.new.inner) result }
{
    let mut input = NoticedReader::of(run.held.formula.as_slice());
    let watch = Watch {
        rt,
        alloc,
        board: run.board,
    };
    let counted = CountedWriter {
        inner: proof,
        counter: &watch,
    };
    let mut output = NoticedWriter::of(counted);
    let gathered = gather_stored(
        rt,
        alloc,
        &mut input,
        run.over(&mut *store),
        &mut *answer,
        &mut output,
    );
    let known = Known {
        formula: run.formula,
        proof: run.proof,
        added_lines: 0,
        beginning: input.beginning(),
        formula_error: input.error(),
        proof_error: output.error(),
        answer_error: answer.error(),
        limits: run.held.run.limits,
    };
    let has_ended = store.has_ended();
    end_gather(rt, faults, gathered, &known, run.counts, has_ended)
}

/// Gathers the result of a run from what its packs have; what it came to. It goes through the tree once
/// where they claim no model, and the proof can be begun anew if there is one.
fn gather_opened<R: Files + Threads + Wait + Clock + Sync, W: Write, E: Write, L: Locks<R::File>>(
    rt: &R,
    alloc: Global,
    run: &GatheredRun<'_, R>,
    store: &mut PackStore<'_, R>,
    answer: &mut NoticedWriter<W>,
    faults: &mut E,
    locks: &L,
) -> End
    ensures { IsGatherEnd run.now.held.now (W.contents answer.old.inner) (W.contents answer.new.inner) result }
{
    let mut proof = match proof_begun(rt, alloc, run, faults, locks) {
        Ok(proof) => proof,
        Err(status) => return End::Status(status),
    };
    if !store.claims_model() && proof.is_apart() {
        if let Some(end) = gather_once(rt, alloc, run, store, proof, answer, faults) {
            return end;
        }
        proof = match proof_begun(rt, alloc, run, faults, locks) {
            Ok(proof) => proof,
            Err(status) => return End::Status(status),
        };
    }
    gather_twice(rt, alloc, run, store, proof, answer, faults)
}

/// Says what has no fact that is so, and that the answer is unknown; the status.
fn end_unproved<R: Files, W: Write, E: Write>(
    alloc: Global,
    folder: Folder<'_>,
    held: &Held,
    store: &mut PackStore<'_, R>,
    answer: &mut W,
    faults: &mut E,
) -> u8
    ensures { (result ≡ 0) ⊎ (result ≡ 1) }
{
    let Ok(formula) = formula_of(alloc, held) else {
        return print_no_memory(faults, folder.path, false);
    };
    let Some(formula) = formula else {
        return FAILED; // it was read before
    };
    match unproved_in(alloc, folder, &held.run, &formula, store, faults) {
        Ok(missing) => print_missing(answer, faults, folder.path, missing),
        Err(Said) => FAILED,
    }
}

/// Gathers the result of a run as `gather_opened` does, and says what it came to; the status.
fn gather_told<R: Files + Threads + Wait + Clock + Sync, W: Write, E: Write, L: Locks<R::File>>(
    rt: &R,
    alloc: Global,
    folder: Folder<'_>,
    run: &GatheredRun<'_, R>,
    store: &mut PackStore<'_, R>,
    answer: &mut NoticedWriter<W>,
    faults: &mut E,
    locks: &L,
) -> u8
    ensures { IsGatherStatus run.now.held.now (W.contents answer.old.inner) (W.contents answer.new.inner) result }
{
    match gather_opened(rt, alloc, run, store, answer, faults, locks) {
        End::Status(status) => status,
        End::Unproved => end_unproved(alloc, folder, run.held, store, answer, faults),
    }
}

/// Gathers the result of a run as `gather_told` does, with its progress shown by a thread beside it.
/// What it says is printed behind that.
fn gather_beside<
    R: Files + Threads + Wait + Clock + Sync,
    W: Write,
    E: Write + Send,
    L: Locks<R::File>,
>(
    rt: &R,
    alloc: Global,
    folder: Folder<'_>,
    run: &GatheredRun<'_, R>,
    store: &mut PackStore<'_, R>,
    answer: &mut NoticedWriter<W>,
    faults: &mut E,
    locks: &L,
) -> u8
    ensures { IsGatherStatus run.now.held.now (W.contents answer.old.inner) (W.contents answer.new.inner) result }
{
    let board = run.board;
    let mut said = Vec::new(alloc);
    let (_, status) = thread::join_mut(
        rt,
        &mut || show_progress(rt, board, faults, Manner::Listed),
        &mut || -> u8
            requires { IsSync R.row }
            ensures { IsGatherStatus run.entry.now.held.now (W.contents answer.entry.now.inner) (W.contents answer.exit.now.inner) result }
        {
            let status = gather_told(rt, alloc, folder, run, store, answer, &mut said, locks);
            board.end_progress(rt);
            status
        },
    );
    let _ = faults.write_all(&said);
    status
}

/// Gathers the result of a run, with its proof written to a file; the status.
pub(crate) fn gather<
    R: Files + Threads + Wait + Clock + Sync + Alloc + Clone + Drop,
    W: Write,
    E: Write + Send,
    L: Locks<R::File>,
>(
    rt: &R,
    alloc: Global,
    folder: Folder<'_>,
    path: &str,
    hands: HandCount,
    solves: bool,
    stats: bool,
    shows: bool,
    answer: &mut W,
    faults: &mut E,
    locks: &L,
) -> u8
where
    R::File: Send,
    R::Dir: Send,
{
    let Ok(held) = held_in(rt, alloc, folder, faults) else {
        return FAILED;
    };
    let mut store = match store_for(rt, alloc, folder, &held, hands, solves, answer, faults) {
        Ok(store) => store,
        Err(status) => return status,
    };
    let Ok(file) = folder.formula(alloc) else {
        return print_no_memory(faults, folder.path, false);
    };
    let file = file.as_str();
    // it was read; it is opened so that the proof isn't written over it
    let input: Input<R::File, Empty> = match open_input(rt, file, &mut None) {
        Ok(input) => input,
        Err(error) => return print_not_opened(faults, file, error, false),
    };
    let board = Board::new(rt, Stage::Writing);
    let run = GatheredRun {
        held: &held,
        formula: file,
        input: &input,
        proof: path,
        hands,
        counts: if stats { Some(store.counts()) } else { None },
        board: &board,
    };
    let store = &mut store;
    let mut answer = NoticedWriter::of(answer);
    let answer = &mut answer;
    if shows {
        gather_beside(rt, alloc, folder, &run, store, answer, faults, locks)
    } else {
        gather_told(rt, alloc, folder, &run, store, answer, faults, locks)
    }
}

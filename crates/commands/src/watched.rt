//! Runs and checks that are counted on a board.
ghost use Rattle.std.specs.Prelude.{IsSome, option_map};
ghost use Rattle.cnf.specs.Limits.{limits_of};
ghost use Rattle.runs.specs.Check.{CheckSays, checked_by};
ghost use Rattle.runs.specs.Limited.{LimitedSays};

use command_line::Effort;
use runs::{
    CheckRules, Limit, Options, RunEnd, RunFault, TimeLimit, Told, answer_with, check_with,
    run_with,
};
use statistics::{Board, CountedReader, CountedWriter, NotedLimit, TextWatch, Watch};
use std::alloc::Global;
use std::fs::Files;
use std::io::{Read, Write};
use std::sync::Wait;
use std::thread::Threads;
use std::time::Clock;

/// A run that is watched. Without a writer for the proof, none is made.
fn run_watched<
    'x,
    R: Files + Threads + Wait + Clock + Sync,
    I: Read + Drop,
    W: Write,
    P: Write + Drop,
    L: Limit + Sync,
>(
    watch: &'x Watch<'x, R>,
    limit: &'x L,
    effort: Effort,
    input: I,
    answer: &mut W,
    proof: Option<P>,
) -> Result<RunEnd, RunFault>
    ensures { LimitedSays (limits_of effort.limits) (L.is_reached limit.now) (I.remaining input) effort.strategy (option_map P.contents proof) (W.contents answer.old) (W.contents answer.new) result }
{
    let options = Options {
        limits: effort.limits,
        strategy: effort.strategy,
        hands: effort.hands,
        gate: watch,
        limit,
        observer: watch,
    };
    let (rt, alloc) = (watch.rt, watch.alloc);
    match proof {
        Some(proof) => {
            let mut counted = CountedWriter {
                inner: proof,
                counter: watch,
            };
            run_with(rt, alloc, input, &options, answer, &mut counted)
        }
        None => answer_with(rt, alloc, input, &options, answer),
    }
}

/// A run that is counted on a board, and then ends the showing of progress. Without a writer for
/// the proof, none is made.
pub(crate) fn run_counted<
    R: Files + Threads + Wait + Clock + Sync,
    I: Read + Drop,
    W: Write,
    P: Write + Drop,
>(
    rt: &R,
    alloc: Global,
    board: &Board,
    effort: Effort,
    input: I,
    answer: &mut W,
    proof: Option<P>,
) -> Result<RunEnd, RunFault>
    ensures { LimitedSays (limits_of effort.limits) (IsSome effort.seconds) (I.remaining input) effort.strategy (option_map P.contents proof) (W.contents answer.old) (W.contents answer.new) result }
{
    let watch = Watch { rt, alloc, board };
    let limit = TimeLimit::begin(rt, effort.seconds);
    let noted = NotedLimit {
        rt,
        board,
        limit: &limit,
    };
    let result = run_watched(&watch, &noted, effort, input, answer, proof);
    board.end_progress(rt);
    result
}

/// A check that is counted on a board, and then ends the showing of progress.
pub(crate) fn check_counted<R: Files + Wait + Clock, F: Read + Drop, P: Read + Drop, W: Write>(
    rt: &R,
    alloc: Global,
    board: &Board,
    formula: F,
    proof: P,
    rules: CheckRules,
    answer: &mut W,
) -> Result<Told, RunFault>
    ensures { CheckSays (limits_of rules.limits) rules.variables (F.remaining formula) (P.remaining proof) (W.contents answer.old) (W.contents answer.new) (checked_by result) }
{
    let watch = Watch { rt, alloc, board };
    let text_watch = TextWatch { rt, board };
    let text = CountedReader {
        inner: formula,
        counter: &text_watch,
    };
    let counted = CountedReader {
        inner: proof,
        counter: &watch,
    };
    let result = check_with(alloc, text, counted, rules, answer, &watch);
    watch.checked();
    board.end_progress(rt);
    result
}

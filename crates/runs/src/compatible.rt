//! Runs within the standard limits as other programs call them: by the ordered search, with a budget
//! of 1 to 100,000 conflicts for the root.
ghost use Rattle.std.specs.Prelude.{◌≤◌, IfOk};
ghost use Rattle.theory.specs.Reading.{standard};
ghost use Rattle.theory.specs.Plans.{ordered, ordered_within};
ghost use Rattle.strategies.specs.Strategies.{by_plan};
ghost use Rattle.runs.specs.Answer.{IsRightAnswer};
ghost use Rattle.runs.specs.Check.{CheckSays, checked_by};
ghost use Rattle.runs.specs.Run.{RunSays};

use crate::check::{CheckRules, check_with};
use crate::checked_line::Checked;
use crate::fault::RunFault;
use crate::limited::run_with;
use crate::options::Options;
use crate::verdict::{RunEnd, Verdict};
use cdcl::Plan;
use cnf::Limits;
use cubes::{Gate, HandCount, TimeLimit};
use lrat::Variables;
use std::alloc::Global;
use std::io::{Read, Write};
use std::sync::Wait;
use std::thread::Threads;
use std::time::Clock;
use strategies::{Strategy, Unobserved};

/// What `run_with` does, by 1 to 16 hands and without a limit.
pub fn run<T: Threads + Wait + Clock + Sync, R: Read + Drop, W: Write, P: Write, G: Gate + Sync>(
    rt: &T,
    alloc: Global,
    input: R,
    answer: &mut W,
    proof: &mut P,
    budget: u32,
    hands: usize,
    gate: &G,
) -> Result<Verdict, RunFault>
    requires budget { (1 ≤ budget) × (budget ≤ 100000) }
    requires hands { (1 ≤ hands) × (hands ≤ 16) }
    ensures says { RunSays standard (R.remaining input) (by_plan (ordered_within budget)) (P.contents proof.old) (P.contents proof.new) (W.contents answer.old) (W.contents answer.new) result }
    ensures answer_is_right { IfOk result (IsRightAnswer standard ordered (R.remaining input) (P.contents proof.old) (P.contents proof.new) (W.contents answer.old) (W.contents answer.new)) }
{
    let options = Options {
        limits: Limits::Standard,
        strategy: Strategy::of(Plan::ordered(budget)),
        hands: HandCount::of(hands),
        gate,
        limit: &TimeLimit::begin(rt, None),
        observer: &Unobserved,
    };
    let end = run_with(rt, alloc, input, &options, answer, proof)?;
    match end {
        RunEnd::Decided(verdict) => Ok(verdict),
        RunEnd::NotFirst => unreachable!(),
        RunEnd::Unknown => unreachable!(),
    }
}

/// What `check_with` does, without the reasons: of the proof it reads 4,294,967,297 bytes at most.
pub fn check_run<R: Read + Drop, P: Read + Drop, W: Write>(
    alloc: Global,
    formula: R,
    proof: P,
    answer: &mut W,
) -> Result<Checked, RunFault>
    ensures { CheckSays standard Variables.OfFormula (R.remaining formula) (P.remaining proof) (W.contents answer.old) (W.contents answer.new) result }
{
    let rules = CheckRules::within(Limits::Standard);
    match check_with(alloc, formula, proof, rules, answer, &Unobserved) {
        Ok(told) => Ok(told.checked),
        Err(fault) => Err(fault),
    }
}

//! A check of a proof whose text comes in pieces. Each step is checked as its line ends, and then
//! let go.
ghost use Rattle.std.specs.Prelude.{◌≡◌, ◌+◌, ◌<◌, ◌≤◌, ◌^◌, ℕ, None, length, IfOk, OnOk, MatchResult};
ghost use Rattle.theory.specs.Reading.{standard};
ghost use Rattle.theory.specs.Checking.{accepted};
ghost use Rattle.cnf.specs.Limits.{limits_of};
ghost use Rattle.lrat_text.specs.Pieces.{IsText, stream_at};
ghost use Rattle.lrat.specs.Running.{IsReadyUnless, IsRunning, IsSaid, named_at, progress_of, stream_of, vars_of};
ghost use Rattle.lrat_text.specs.Steps.{step_of};
ghost use Rattle.lrat_text.specs.Streams.{begin, checked, checked_step, feed, feed_byte, finish};

use crate::check_fault::{CheckFault, Fault};
use crate::checker::Checker;
use crate::refusal::Refusal;
use cnf::{Formula, Limits};
use lrat_text::{Step, Text, TextFault};
use std::alloc::{AllocError, Global};

/// The first step at fault.
#[derive(Clone, Copy)]
struct Stop {
    fault: Fault,
    step: u64,
}

/// A check of which so much of the proof's text came. It holds the clauses that are there and one
/// line's lists, whatever the length of the text.
#[derive(Drop)]
pub struct ProofStream {
    alloc: Global,
    text: Text,
    checker: Checker,
    stopped: Option<Stop>,

    /// How many bytes came.
    seen: u64,
}

/// Checks a step, which is one of this number, unless an earlier one was at fault.
fn test(
    alloc: Global,
    checker: &mut Checker,
    stopped: &mut Option<Stop>,
    step: &Step,
    number: u64,
) -> Result<(), AllocError>
    requires { IsReadyUnless stopped.old checker.old }
    ensures progress { OnOk result (progress_of stopped.new checker.new ≡ checked_step checker.old.vars number (progress_of stopped.old checker.old) (step_of step.now)) }
    ensures ready { OnOk result (IsReadyUnless stopped.new checker.new) }
    ensures vars { checker.new.vars ≡ checker.old.vars }
{
    if stopped.is_some() {
        return Ok(());
    }
    if let Some(fault) = checker.test(alloc, step)? {
        *stopped = Some(Stop {
            fault,
            step: number,
        });
    }
    Ok(())
}

impl ProofStream {
    /// The check of a proof that a formula isn't satisfiable, before any of its text. It takes
    /// memory by the formula's literals, which it copies.
    pub fn new(alloc: Global, formula: &Formula) -> Result<ProofStream, AllocError>
        ensures begin { IfOk result (λ s. stream_of s ≡ begin formula.now) }
        ensures vars { IfOk result (λ s. vars_of s ≡ formula.now.vars) }
        ensures running { IfOk result IsRunning }
    {
        ProofStream::over(alloc, formula, formula.vars())
    }

    /// The same where the proof's clauses may have so many variables. Beside the literals it takes
    /// memory by the greatest variable that a clause has.
    pub fn over(alloc: Global, formula: &Formula, vars: u32) -> Result<ProofStream, AllocError>
        requires { formula.now.vars ≤ vars }
        ensures begin { IfOk result (λ s. stream_of s ≡ begin formula.now) }
        ensures vars { IfOk result (λ s. vars_of s ≡ vars) }
        ensures running { IfOk result IsRunning }
    {
        Ok(ProofStream {
            alloc,
            text: Text::new(alloc),
            checker: Checker::new(alloc, formula, vars)?,
            stopped: None,
            seen: 0,
        })
    }

    /// Takes a byte.
    fn take(&mut self, byte: u8) -> Result<(), AllocError>
        requires text { IsText self.old.text }
        requires ready { IsReadyUnless self.old.stopped self.old.checker }
        requires few { self.old.text.number < 2 ^ 63 }
        ensures text { OnOk result (IsText self.new.text) }
        ensures ready { OnOk result (IsReadyUnless self.new.stopped self.new.checker) }
        ensures number { OnOk result (self.new.text.number ≤ self.old.text.number + 1) }
        ensures taken { OnOk result ((m : ℕ) → stream_at (m + 1) (progress_of self.new.stopped self.new.checker) self.new.text
            ≡ feed_byte (vars_of self.old) (stream_at m (progress_of self.old.stopped self.old.checker) self.old.text) byte) }
        ensures vars { vars_of self.new ≡ vars_of self.old }
        ensures seen { self.new.seen ≡ self.old.seen }
    {
        let number = self.text.number();
        match self.text.take(byte)? {
            Some(step) => test(
                self.alloc,
                &mut self.checker,
                &mut self.stopped,
                &step,
                number,
            ),
            None => Ok(()),
        }
    }

    /// Takes the next piece of the text, at best one of some thousand bytes. All pieces together
    /// may have up to 2^63 bytes. Where memory is refused, the check can't go on.
    pub fn feed(&mut self, piece: &[u8]) -> Result<(), AllocError>
        requires running { IsRunning self.old }
        requires few { (stream_of self.old).seen + length piece.now < 2 ^ 63 }
        ensures fed { OnOk result (stream_of self.new ≡ feed (vars_of self.old) (stream_of self.old) piece.now) }
        ensures vars { OnOk result (vars_of self.new ≡ vars_of self.old) }
        ensures running { OnOk result (IsRunning self.new) }
    {
        let mut at = 0;
        while at < piece.len() {
            at = self.text.take_words(piece, at)?;
            if at < piece.len() {
                self.take(piece[at])?;
                at += 1;
            }
        }
        self.seen += piece.len() as u64;
        Ok(())
    }

    /// The number of the clause that the first step at fault names wrongly, by a hint or as a
    /// candidate, where it is that: there is none of this number, or it is neither false nor unit.
    pub fn named_wrongly(&self) -> Option<u64>
        ensures { result ≡ named_at self.now.stopped }
    {
        match self.stopped {
            Some(stop) => stop.fault.named(),
            None => None,
        }
    }

    /// What the check comes to if the text ends here: a text of more than 4,294,967,296 bytes is
    /// too long, then the first line at fault decides, then the first step. With none, a step has
    /// to have added the empty clause.
    pub fn verdict(&self) -> Result<(), Refusal>
        ensures { MatchResult result (λ _. finish standard (stream_of self.now) ≡ checked accepted) (IsSaid (finish standard (stream_of self.now))) }
    {
        self.verdict_within(Limits::Standard)
    }

    /// The same within these limits of a proof's text.
    pub fn verdict_within(&self, limits: Limits) -> Result<(), Refusal>
        ensures { MatchResult result (λ _. finish (limits_of limits) (stream_of self.now) ≡ checked accepted)
            (IsSaid (finish (limits_of limits) (stream_of self.now))) }
    {
        if self.seen > limits.proof_bytes() {
            return Err(Refusal::Text(TextFault::TooLong));
        }
        if let Some(fault) = self.text.fault() {
            return Err(Refusal::Text(fault));
        }
        match self.stopped {
            Some(stop) => Err(Refusal::Steps(CheckFault::at(stop.fault, stop.step))),
            None if self.checker.is_refutation() => Ok(()),
            None => Err(Refusal::Steps(CheckFault::NoEmptyClause)),
        }
    }
}

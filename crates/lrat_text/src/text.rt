//! The text of a proof while it is read in pieces, byte by byte.
ghost use Rattle.std.specs.Prelude.{◌≡◌, ℕ, ◌+◌, ◌<◌, ◌≤◌, true, None, IfOk, OnOk, length};
ghost use Rattle.theory.specs.Tokens.{is_blank};
ghost use Rattle.lrat_text.specs.LineMachine.{IsWithin};
ghost use Rattle.lrat_text.specs.LineStates.{state_of};
ghost use Rattle.lrat_text.specs.Streams.{Progress, fresh, on_feed, ended, kept_after};
ghost use Rattle.lrat_text.specs.Begun.{begun_of, IsCounted};
ghost use Rattle.lrat_text.specs.Pieces.{IsBegunWord, IsText, TakesBytes, EndsAt, part_of, after, closing};

use crate::begun::{Begun, end_word, take_word, with_byte};
use crate::fault::{LineFault, TextFault};
use crate::line::Line;
use crate::step::Step;
use crate::word::{LINE_FEED, is_blank};
use std::alloc::{AllocError, Global};

/// What the line that is read came to so far.
#[derive(Clone, Copy)]
pub(crate) enum Stage {
    /// No byte of it came.
    Fresh,
    InLine,

    /// A word can't stand; the fault waits for the line's end.
    HeldBack(LineFault),

    /// The line's end came, and it is at fault.
    Closed(LineFault),
}

/// A text of which so many bytes came.
#[derive(Drop)]
pub struct Text {
    line: Line,
    begun: Begun,
    stage: Stage,
    number: u64,
}

/// Ends the line that is read: its step, or its fault.
fn end_line(line: &mut Line, begun: Begun) -> Result<Result<Step, LineFault>, AllocError>
    requires within { IsWithin (state_of line.old) }
    requires begun { IsBegunWord begun }
    ensures { IfOk result (λ r. (V n : ℕ) (p : Progress) → on_feed V n p (ended (state_of line.old) (begun_of begun)) ≡ closing V n p r) }
{
    if let Some(fault) = end_word(line, begun)? {
        return Ok(Err(fault));
    }
    match line.finish()? {
        Some(step) => Ok(Ok(step)),
        None => Ok(Err(LineFault::BadShape)),
    }
}

impl Text {
    /// A text of which nothing came.
    pub fn new(alloc: Global) -> Text
        ensures part { part_of result ≡ fresh }
        ensures number { result.number ≡ 1 }
        ensures text { IsText result }
    {
        Text {
            line: Line::new(alloc),
            begun: Begun::Nothing,
            stage: Stage::Fresh,
            number: 1,
        }
    }

    /// The number of the line that is read, from 1 on.
    pub fn number(&self) -> u64
        ensures { result ≡ self.now.number }
    {
        self.number
    }

    /// Takes the bytes of the word that is begun, from `start` on, and says where the first byte
    /// stands that wasn't taken. It takes none where no line is begun.
    fn take_word(&mut self, bytes: &[u8], start: usize) -> usize
        requires text { IsText self.old }
        requires inside { start ≤ length bytes.now }
        ensures text { IsText self.new }
        ensures number { self.new.number ≡ self.old.number }
        ensures taken { TakesBytes bytes.now self.old start self.new result }
        ensures forward { start ≤ result }
        ensures within { result ≤ length bytes.now }
    {
        if let Stage::InLine = self.stage {
            let (begun, end) = take_word(self.begun, bytes, start);
            self.begun = begun;
            end
        } else {
            start
        }
    }

    /// Takes the numbers that stand whole from `start` on, where a line is begun and no word of it,
    /// and says where the first byte stands that wasn't taken. Most of a proof's bytes are of such
    /// numbers, and here each digit is one step of a loop that writes nothing.
    fn take_run(&mut self, bytes: &[u8], start: usize) -> Result<usize, AllocError>
        requires text { IsText self.old }
        requires inside { start ≤ length bytes.now }
        ensures text { OnOk result (IsText self.new) }
        ensures number { OnOk result (self.new.number ≡ self.old.number) }
        ensures taken { IfOk result (TakesBytes bytes.now self.old start self.new) }
        ensures forward { IfOk result (λ end. (start ≤ end) × (end ≤ length bytes.now)) }
    {
        match (self.stage, self.begun) {
            (Stage::InLine, Begun::Nothing) => Ok(self.line.take_run(bytes, start)?),
            _ => Ok(start),
        }
    }

    /// Takes the words of the line that is begun, from `start` on, with the blanks behind them, and
    /// says where the first byte stands that wasn't taken. It takes none where no line is begun.
    pub fn take_words(&mut self, bytes: &[u8], start: usize) -> Result<usize, AllocError>
        requires text { IsText self.old }
        requires inside { start ≤ length bytes.now }
        ensures text { OnOk result (IsText self.new) }
        ensures number { OnOk result (self.new.number ≡ self.old.number) }
        ensures taken { IfOk result (TakesBytes bytes.now self.old start self.new) }
        ensures forward { IfOk result (λ end. (start ≤ end) × (end ≤ length bytes.now)) }
    {
        let mut at = self.take_word(bytes, start);
        while at < bytes.len() && is_blank(bytes[at]) && self.is_in_line() {
            self.take_blank(bytes[at])?;
            let rest = self.take_run(bytes, at + 1)?;
            at = self.take_word(bytes, rest);
        }
        Ok(at)
    }

    /// Whether a line is begun, and none of its words is at fault.
    fn is_in_line(&self) -> bool
        ensures { result ≡ true → self.now.stage ≡ Stage.InLine }
    {
        matches!(self.stage, Stage::InLine)
    }

    /// The fault of the text, if it ends here and has one.
    pub fn fault(&self) -> Option<TextFault>
        ensures { EndsAt self.now.number (part_of self.now) result }
    {
        match self.stage {
            Stage::Fresh => None,
            Stage::InLine | Stage::HeldBack(_) => Some(TextFault::LineNotEnded(self.number)),
            Stage::Closed(fault) => Some(fault.at(self.number)),
        }
    }

    /// Takes a blank of a line that is begun.
    fn take_blank(&mut self, byte: u8) -> Result<(), AllocError>
        requires stage { self.old.stage ≡ Stage.InLine }
        requires text { IsText self.old }
        requires blank { is_blank byte ≡ true }
        ensures text { OnOk result (IsText self.new) }
        ensures number { OnOk result (self.new.number ≡ self.old.number) }
        ensures kept { OnOk result ((V : ℕ) (p : Progress) → kept_after V self.old.number p (part_of self.old) byte
            ≡ record { line = self.new.number; part = part_of self.new; progress = p }) }
    {
        match end_word(&mut self.line, self.begun)? {
            Some(fault) => self.stage = Stage::HeldBack(fault),
            None => self.begun = Begun::Nothing,
        }
        Ok(())
    }

    /// Takes a byte of a line that is begun, and answers the line's step where it ends the line.
    fn take_in_line(&mut self, byte: u8) -> Result<Option<Step>, AllocError>
        requires stage { self.old.stage ≡ Stage.InLine }
        requires text { IsText self.old }
        requires few { self.old.number < 9223372036854775808 }
        ensures text { IfOk result (λ _. IsText self.new) }
        ensures number { IfOk result (λ _. self.new.number ≤ self.old.number + 1) }
        ensures kept { IfOk result (λ s. (V : ℕ) (p : Progress) → kept_after V self.old.number p (part_of self.old) byte
            ≡ record { line = self.new.number; part = part_of self.new; progress = after V self.old.number p s }) }
    {
        if byte == LINE_FEED {
            match end_line(&mut self.line, self.begun)? {
                Ok(step) => {
                    self.stage = Stage::Fresh;
                    self.number += 1;
                    Ok(Some(step))
                }
                Err(fault) => {
                    self.stage = Stage::Closed(fault);
                    Ok(None)
                }
            }
        } else if is_blank(byte) {
            self.take_blank(byte)?;
            Ok(None)
        } else {
            self.begun = with_byte(self.begun, byte);
            Ok(None)
        }
    }

    /// Takes a byte, and answers a line's step where it ends the line.
    pub fn take(&mut self, byte: u8) -> Result<Option<Step>, AllocError>
        requires text { IsText self.old }
        requires few { self.old.number < 9223372036854775808 }
        ensures text { IfOk result (λ _. IsText self.new) }
        ensures number { IfOk result (λ _. self.new.number ≤ self.old.number + 1) }
        ensures kept { IfOk result (λ s. (V : ℕ) (p : Progress) → kept_after V self.old.number p (part_of self.old) byte
            ≡ record { line = self.new.number; part = part_of self.new; progress = after V self.old.number p s }) }
    {
        match self.stage {
            Stage::InLine => self.take_in_line(byte),
            Stage::Fresh => {
                self.line.begin();
                self.begun = Begun::Nothing;
                self.stage = Stage::InLine;
                self.take_in_line(byte)
            }
            Stage::HeldBack(fault) => {
                if byte == LINE_FEED {
                    self.stage = Stage::Closed(fault);
                }
                Ok(None)
            }
            Stage::Closed(_) => Ok(None),
        }
    }
}

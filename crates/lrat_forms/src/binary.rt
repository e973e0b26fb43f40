//! Steps of a binary proof as lines of text, byte by byte.

use crate::form::{Broken, BrokenBy};
use crate::number::{Begun, Grown, unbegun};
use arrayvec::ArrayVec;
use itoa::Buffer;

/// How many bytes of text are kept until they are given on.
pub(crate) const ROOM: usize = 4096;

/// The most bytes of text that one byte, or the end, comes to: a number of 20 digits, ` d `, and
/// what ends a line.
pub(crate) const MOST: usize = 32;

/// The text that steps come to.
pub(crate) type Text = ArrayVec<u8, ROOM>;

/// What the next byte belongs to.
#[derive(Clone, Copy, PartialEq, Eq)]
enum Part {
    /// It begins a step.
    Step,

    /// The number of an added clause.
    Id,

    /// The literals of an added clause, or the 0 behind them.
    Clause,

    /// Hints, or the numbers of clauses that are taken away, or the 0 behind them.
    Last,
}

/// What is known of a binary proof while it is read.
#[derive(Clone, Copy)]
pub(crate) struct Steps {
    part: Part,
    number: Begun,

    /// The number of the last addition, and at first 1: a deletion's line begins with it.
    last: u64,

    /// How many bytes came.
    bytes: u64,

    /// How many steps have ended.
    ended: u64,

    broken: Option<Broken>,
}

/// Writes a number at the end of a text, with a `-` before it where the lowest bit of its code is
/// set.
fn push_coded(text: &mut Text, code: u64) {
    if code % 2 == 1 {
        let _ = text.try_push(b'-');
    }
    push_number(text, code / 2);
}

fn push_number(text: &mut Text, number: u64) {
    let mut buffer = Buffer::new();
    let _ = text.try_extend_from_slice(buffer.format(number).as_bytes());
}

impl Steps {
    /// Of a proof of which nothing has come.
    pub(crate) fn new() -> Steps {
        Steps {
            part: Part::Step,
            number: unbegun(),
            last: 1,
            bytes: 0,
            ended: 0,
            broken: None,
        }
    }

    /// Where the proof can't be read on, if it can't.
    pub(crate) fn broken(&self) -> Option<Broken> {
        self.broken
    }

    /// Keeps that the byte that came last can't be read, and ends the text there by a word that is
    /// no number.
    fn break_by(&mut self, by: BrokenBy, text: &mut Text, word: &[u8]) {
        self.broken = Some(Broken {
            by,
            byte: self.bytes,
            step: self.ended.saturating_add(1),
        });
        let _ = text.try_extend_from_slice(word);
    }

    /// Takes a step's first byte.
    fn begin(&mut self, byte: u8, text: &mut Text) {
        match byte {
            b'a' => self.part = Part::Id,
            b'd' => {
                self.part = Part::Last;
                push_number(text, self.last);
                let _ = text.try_extend_from_slice(b" d ");
            }
            _ => self.break_by(BrokenBy::StepByte, text, b"?\n"),
        }
    }

    /// Takes the next number of a step. Only that of an addition is no code: it has no sign.
    fn end_number(&mut self, code: u64, text: &mut Text) {
        if self.part == Part::Id {
            push_number(text, code);
        } else {
            push_coded(text, code);
        }
        let is_line_end = self.part == Part::Last && code == 0;
        let _ = text.try_push(if is_line_end { b'\n' } else { b' ' });
        match self.part {
            Part::Id => {
                self.last = code;
                self.part = Part::Clause;
            }
            Part::Clause if code == 0 => self.part = Part::Last,
            Part::Last if code == 0 => {
                self.part = Part::Step;
                self.ended = self.ended.saturating_add(1);
            }
            _ => {}
        }
    }

    /// Takes the next byte, and puts what it comes to, at most `MOST` bytes, at the end of the text.
    pub(crate) fn take(&mut self, byte: u8, text: &mut Text) {
        self.bytes = self.bytes.saturating_add(1);
        if self.part == Part::Step {
            self.begin(byte, text);
            return;
        }
        match self.number.with(byte) {
            Grown::GoesOn(number) => self.number = number,
            Grown::Ended(code) => {
                self.number = unbegun();
                self.end_number(code, text);
            }
            Grown::TooLarge => self.break_by(BrokenBy::Number, text, b"?\n"),
        }
    }

    /// Takes the end of the proof. Inside a step the text's last line isn't ended either.
    pub(crate) fn end(&mut self, text: &mut Text) {
        if self.part != Part::Step && self.broken.is_none() {
            self.break_by(BrokenBy::End, text, b"?");
        }
    }
}

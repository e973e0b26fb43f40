//! Steps of a proof in text, byte by byte: a `d` before a clause that is taken away, literals, and a
//! 0. Line ends are blanks, and a step that would begin with a `c` is a comment up to its line's end.

use crate::fault::Wrong;
use crate::step::{ByteTaken, StepRead};
use std::alloc::AllocError;

/// Where the next byte stands.
#[derive(Clone, Copy, PartialEq, Eq)]
enum LinePart {
    /// Between steps.
    Outside,
    Comment,
    /// Behind a `d`.
    Mark,
    /// Between the numbers of a step.
    Between,
    /// Behind a minus.
    Minus,
    Number,
}

/// What is known of a text while it is read.
#[derive(Clone, Copy)]
pub(crate) struct TextSteps {
    part: LinePart,
    line: u64,
    // the line in which the step begins
    begun: u64,
    positive: bool,
    size: u64,
}

fn is_blank(byte: u8) -> bool {
    byte == b' ' || byte == b'\t' || byte == b'\n' || byte == b'\r'
}

impl TextSteps {
    /// Of a text of which nothing came.
    pub(crate) fn new() -> TextSteps {
        TextSteps {
            part: LinePart::Outside,
            line: 1,
            begun: 1,
            positive: true,
            size: 0,
        }
    }

    /// The line of the byte that comes next.
    pub(crate) fn line(&self) -> u64 {
        self.line
    }

    /// The line in which the last step begins.
    pub(crate) fn begun(&self) -> u64 {
        self.begun
    }

    /// Begins a number by its first byte.
    fn begin_number(&mut self, byte: u8) -> ByteTaken {
        self.positive = byte != b'-';
        self.size = 0;
        if byte == b'-' {
            self.part = LinePart::Minus;
            ByteTaken::Inside
        } else {
            self.take_digit(byte)
        }
    }

    /// Takes a byte that has to be a digit.
    fn take_digit(&mut self, byte: u8) -> ByteTaken {
        let digit = match byte {
            b'0'..=b'9' => u64::from(byte - b'0'),
            _ => return ByteTaken::Fails(Wrong::BadNumber),
        };
        // a number that is too large stays so
        self.size = self.size.saturating_mul(10).saturating_add(digit);
        self.part = LinePart::Number;
        ByteTaken::Inside
    }

    /// Begins a step, or a comment, by its first byte, which is no blank.
    fn begin(&mut self, byte: u8, step: &mut StepRead) -> ByteTaken {
        self.begun = self.line;
        match byte {
            b'c' => {
                self.part = LinePart::Comment;
                ByteTaken::Inside
            }
            b'd' => {
                step.begin(true);
                self.part = LinePart::Mark;
                ByteTaken::Inside
            }
            _ => {
                step.begin(false);
                self.begin_number(byte)
            }
        }
    }

    /// Ends the number that is begun.
    fn end_number(&mut self, step: &mut StepRead) -> Result<ByteTaken, AllocError> {
        let taken = step.take(self.positive, self.size)?;
        self.part = if taken == ByteTaken::Ended {
            LinePart::Outside
        } else {
            LinePart::Between
        };
        Ok(taken)
    }

    /// Takes a blank.
    fn take_blank(&mut self, byte: u8, step: &mut StepRead) -> Result<ByteTaken, AllocError> {
        let taken = match self.part {
            LinePart::Number => self.end_number(step)?,
            LinePart::Minus => ByteTaken::Fails(Wrong::BadNumber),
            LinePart::Mark => {
                self.part = LinePart::Between;
                ByteTaken::Inside
            }
            LinePart::Comment if byte == b'\n' => {
                self.part = LinePart::Outside;
                ByteTaken::Inside
            }
            LinePart::Outside | LinePart::Comment | LinePart::Between => ByteTaken::Inside,
        };
        if byte == b'\n' {
            self.line = self.line.saturating_add(1);
        }
        Ok(taken)
    }

    /// Takes the next byte.
    pub(crate) fn take(&mut self, byte: u8, step: &mut StepRead) -> Result<ByteTaken, AllocError> {
        if is_blank(byte) {
            return self.take_blank(byte, step);
        }
        Ok(match self.part {
            LinePart::Outside => self.begin(byte, step),
            LinePart::Comment => ByteTaken::Inside,
            LinePart::Mark => ByteTaken::Fails(Wrong::BadNumber),
            LinePart::Between => self.begin_number(byte),
            LinePart::Minus | LinePart::Number => self.take_digit(byte),
        })
    }

    /// Takes the end of the text, which ends a number too.
    pub(crate) fn end(&mut self, step: &mut StepRead) -> Result<ByteTaken, AllocError> {
        match self.part {
            LinePart::Outside | LinePart::Comment => Ok(ByteTaken::Inside),
            LinePart::Number => match self.end_number(step)? {
                ByteTaken::Inside => Ok(ByteTaken::Fails(Wrong::NotEnded)),
                other => Ok(other),
            },
            LinePart::Mark | LinePart::Between | LinePart::Minus => Ok(ByteTaken::Fails(
                Wrong::NotEnded,
            )),
        }
    }
}

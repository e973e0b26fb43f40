//! A proof in DRAT, read as the text of one in LRAT.
ghost use Rattle.std.specs.Prelude.{◌≤◌, length};

use crate::binary::BinarySteps;
use crate::fault::{DratFault, FaultPlace, Wrong};
use crate::finder::Finder;
use crate::input::ByteInput;
use crate::passed::Passed;
use crate::step::{ByteTaken, StepRead};
use crate::text::TextSteps;
use cnf::Formula;
use std::alloc::{AllocError, Global};
use std::io;
use std::io::Read;

/// How many bytes of text are made before they are given on.
const ENOUGH: usize = 65_536;

/// Which form a proof has.
#[derive(Clone, Copy, Debug, PartialEq, Eq)]
pub enum DratForm {
    /// Its first bytes tell.
    Seen,

    Binary,
}

/// The steps of a proof, by its form.
#[derive(Clone, Copy)]
enum StepReader {
    /// Not all of its first bytes are looked at.
    Unknown,
    Text(TextSteps),
    Binary(BinarySteps),
}

/// Reads a proof in DRAT, step by step, and gives it as the text of LRAT up to its first empty
/// clause or its first fault. Nothing is claimed of the text: whoever reads it checks it.
#[derive(Drop)]
pub struct HintedProof<I> {
    inner: I,
    vars: u32,
    input: ByteInput,
    steps: StepReader,
    step: StepRead,
    finder: Finder,
    given: usize,
    is_over: bool,
    fault: Option<DratFault>,
}

impl StepReader {
    /// The steps of a proof of this form, of which nothing came.
    fn new(form: DratForm) -> StepReader {
        match form {
            DratForm::Seen => StepReader::Unknown,
            DratForm::Binary => StepReader::Binary(BinarySteps::new()),
        }
    }

    /// Takes the next byte.
    fn take(&mut self, byte: u8, step: &mut StepRead) -> Result<ByteTaken, AllocError> {
        match self {
            StepReader::Unknown => Ok(ByteTaken::Inside),
            StepReader::Text(steps) => steps.take(byte, step),
            StepReader::Binary(steps) => steps.take(byte, step),
        }
    }

    /// Takes the end of the proof.
    fn end(&mut self, step: &mut StepRead) -> Result<ByteTaken, AllocError> {
        match self {
            StepReader::Unknown => Ok(ByteTaken::Inside),
            StepReader::Text(steps) => steps.end(step),
            StepReader::Binary(steps) => Ok(steps.end()),
        }
    }

    /// The place of what is wrong: where the step begins, or where what can't be read stands.
    fn place_of(&self, wrong: Wrong) -> FaultPlace {
        let is_of_step = match wrong {
            Wrong::NotImplied | Wrong::OutOfRange => true,
            Wrong::BadNumber | Wrong::NotEnded => false,
        };
        match self {
            StepReader::Text(steps) if is_of_step => FaultPlace::Line(steps.begun()),
            StepReader::Text(steps) => FaultPlace::Line(steps.line()),
            StepReader::Binary(steps) if is_of_step => FaultPlace::Byte(steps.begun()),
            StepReader::Binary(steps) => FaultPlace::Byte(steps.byte()),
            StepReader::Unknown => FaultPlace::Line(1),
        }
    }
}

impl<I> HintedProof<I> {
    /// The first fault of the proof, if it has one and was read up to there.
    pub fn fault(&self) -> Option<DratFault> {
        self.fault
    }

    /// The deletions that were passed over.
    pub fn passed(&self) -> Passed {
        self.finder.passed()
    }

    /// The reader of the proof's own bytes.
    pub fn inner(&self) -> &I {
        &self.inner
    }

    /// Ends the text at a fault.
    fn fail(&mut self, wrong: Wrong) {
        self.is_over = true;
        let place = self.steps.place_of(wrong);
        self.fault = Some(DratFault { wrong, place });
    }

    /// Does the step that was read.
    fn do_step(&mut self) -> Result<(), AllocError> {
        let literals = &self.step.literals;
        if self.step.is_deletion {
            self.finder.delete(literals)?;
        } else if !self.finder.make_room(literals, self.vars)? {
            self.fail(Wrong::OutOfRange);
        } else if !self.finder.add(literals)? {
            self.fail(Wrong::NotImplied);
        }
        Ok(())
    }

    /// Goes on by what a byte came to.
    fn go_on(&mut self, taken: ByteTaken) -> Result<(), AllocError> {
        match taken {
            ByteTaken::Inside => {}
            ByteTaken::Fails(wrong) => self.fail(wrong),
            ByteTaken::Ended => {
                self.do_step()?;
                if self.finder.is_refuted() {
                    self.is_over = true;
                }
            }
        }
        Ok(())
    }

    /// Takes the end of the proof.
    fn end(&mut self) -> Result<(), AllocError> {
        let taken = self.steps.end(&mut self.step)?;
        self.go_on(taken)?;
        self.is_over = true;
        Ok(())
    }

    /// Takes the bytes that were read, until there is enough text.
    fn take_bytes(&mut self) -> Result<(), AllocError> {
        for _ in 0..u64::MAX {
            if self.is_over || self.finder.text().len() >= ENOUGH {
                break;
            }
            let Some(byte) = self.input.next() else {
                break;
            };
            let taken = self.steps.take(byte, &mut self.step)?;
            self.go_on(taken)?;
        }
        Ok(())
    }

    /// Gives what is made of the text and not given on, as far as there is room; how many bytes.
    fn give(&mut self, buf: &mut [u8]) -> usize
        ensures { result ≤ length buf.new }
    {
        let text = self.finder.text();
        let start = self.given.min(text.len());
        let left = &text[start..];
        let count = buf.len().min(left.len());
        buf[..count].copy_from_slice(&left[..count]);
        self.given = start + count;
        count
    }
}

impl<I: Drop> HintedProof<I> {
    /// The text of a formula's proof of this form, of which nothing was read, and whose clauses may
    /// have the variables up to `vars`. It takes memory by the formula's literals, and as it is read
    /// by the proof's.
    pub fn of(
        alloc: Global,
        formula: &Formula,
        vars: u32,
        form: DratForm,
        inner: I,
    ) -> Result<HintedProof<I>, AllocError> {
        let finder = Finder::new(alloc, formula)?;
        let is_over = finder.is_refuted();
        Ok(HintedProof {
            inner,
            vars,
            input: ByteInput::new(alloc)?,
            steps: StepReader::new(form),
            step: StepRead::new(alloc),
            finder,
            given: 0,
            is_over,
            fault: None,
        })
    }
}

impl<I: Read> HintedProof<I> {
    /// Looks which form the proof has, unless that is known.
    fn look(&mut self) -> io::Result<()> {
        if let StepReader::Unknown = self.steps {
            self.steps = if self.input.look(&mut self.inner)? {
                StepReader::Binary(BinarySteps::new())
            } else {
                StepReader::Text(TextSteps::new())
            };
        }
        Ok(())
    }

    /// Makes more of the text, once all before it is given on; whether another call may make more.
    fn make_more(&mut self) -> io::Result<bool> {
        self.look()?;
        self.take_bytes()?;
        if self.finder.text().is_empty() && !self.is_over {
            if !self.input.refill(&mut self.inner)? {
                self.end()?;
            }
        }
        Ok(self.finder.text().is_empty() && !self.is_over)
    }
}

impl<I: Read> Read for HintedProof<I> {
    fn read(&mut self, buf: &mut [u8]) -> io::Result<usize> {
        if self.given >= self.finder.text().len() && !self.is_over {
            self.finder.clear();
            self.given = 0;
            for _ in 0..u64::MAX {
                if !self.make_more()? {
                    break;
                }
            }
        }
        Ok(self.give(buf))
    }
}

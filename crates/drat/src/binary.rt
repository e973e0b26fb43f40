//! Steps of a proof in binary, byte by byte: an `a` or a `d`, literals, and a 0. A literal is twice
//! its variable, and one more where it is negative, in seven bits a byte, the lowest first.

use crate::fault::Wrong;
use crate::step::{ByteTaken, StepRead};
use std::alloc::AllocError;

/// What the lowest bit of a number's last byte counts at most: no literal has more than five bytes.
const LAST_WEIGHT: u64 = 1 << 28;

/// What is known of a proof in binary while it is read.
#[derive(Clone, Copy)]
pub(crate) struct BinarySteps {
    is_inside: bool,
    value: u64,
    weight: u64,
    // how many bytes came
    bytes: u64,
    // the byte with which the step begins
    begun: u64,
}

impl BinarySteps {
    /// Of a proof of which nothing came.
    pub(crate) fn new() -> BinarySteps {
        BinarySteps {
            is_inside: false,
            value: 0,
            weight: 1,
            bytes: 0,
            begun: 0,
        }
    }

    /// The place of the byte that came last, from 1 on.
    pub(crate) fn byte(&self) -> u64 {
        self.bytes
    }

    /// The place of the byte with which the last step begins.
    pub(crate) fn begun(&self) -> u64 {
        self.begun
    }

    /// Takes a step's first byte.
    fn begin(&mut self, byte: u8, step: &mut StepRead) -> ByteTaken {
        if byte != b'a' && byte != b'd' {
            return ByteTaken::Fails(Wrong::BadNumber);
        }
        self.begun = self.bytes;
        self.is_inside = true;
        step.begin(byte == b'd');
        ByteTaken::Inside
    }

    /// Ends the number that is begun.
    fn end_number(&mut self, step: &mut StepRead) -> Result<ByteTaken, AllocError> {
        let value = self.value;
        self.value = 0;
        self.weight = 1;
        let taken = step.take(value % 2 == 0, value / 2)?;
        self.is_inside = taken != ByteTaken::Ended;
        Ok(taken)
    }

    /// Takes the next byte.
    pub(crate) fn take(&mut self, byte: u8, step: &mut StepRead) -> Result<ByteTaken, AllocError> {
        self.bytes = self.bytes.saturating_add(1);
        if !self.is_inside {
            return Ok(self.begin(byte, step));
        }
        if self.weight > LAST_WEIGHT {
            return Ok(ByteTaken::Fails(Wrong::BadNumber));
        }
        let bits = u64::from(byte % 128).saturating_mul(self.weight);
        self.value = self.value.saturating_add(bits);
        self.weight = self.weight.saturating_mul(128);
        if byte < 128 {
            return self.end_number(step);
        }
        Ok(ByteTaken::Inside)
    }

    /// Takes the end of the proof.
    pub(crate) fn end(&self) -> ByteTaken {
        if self.is_inside {
            ByteTaken::Fails(Wrong::NotEnded)
        } else {
            ByteTaken::Inside
        }
    }
}

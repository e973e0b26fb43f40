//! A binary proof as a reader's text, in pieces.
ghost use Rattle.std.specs.Prelude.{◌≤◌, length};
ghost use Rattle.std.specs.Io.{ReadsAtMost};

use crate::binary::{MOST, Steps, Text};
use crate::form::Broken;
use arrayvec::ArrayVec;
use std::io;
use std::io::Read;

/// How many bytes of a proof are read at once.
const CHUNK: usize = 4096;

/// The text of a binary proof while it is read.
#[derive(Drop)]
pub(crate) struct Translation {
    steps: Steps,
    read: ArrayVec<u8, CHUNK>,

    /// How many bytes of what was read are translated.
    taken: usize,
    text: Text,

    /// How many bytes of the text are given on.
    given: usize,
    is_over: bool,
}

impl Translation {
    /// Of a proof of which nothing was read.
    pub(crate) fn new() -> Translation {
        Translation {
            steps: Steps::new(),
            read: ArrayVec::new(),
            taken: 0,
            text: ArrayVec::new(),
            given: 0,
            is_over: false,
        }
    }

    /// Takes the first bytes of the proof.
    pub(crate) fn begin(&mut self, first: &[u8]) {
        let _ = self.read.try_extend_from_slice(first);
    }

    /// Where the proof can't be read on, if it can't.
    pub(crate) fn broken(&self) -> Option<Broken> {
        self.steps.broken()
    }

    /// Reads the next bytes of the proof, once all before them are translated.
    fn read_more<I: Read>(&mut self, inner: &mut I) -> io::Result<()> {
        let mut chunk = [0u8; CHUNK];
        let count = inner.read(&mut chunk)?;
        self.read.clear();
        self.taken = 0;
        let _ = self.read.try_extend_from_slice(&chunk[..count]);
        if count == 0 {
            self.steps.end(&mut self.text);
            self.is_over = true;
        }
        Ok(())
    }

    /// Translates what was read, as far as there is room for the text.
    fn translate(&mut self) {
        while self.taken < self.read.len()
            && self.text.remaining_capacity() >= MOST
            && !self.is_over
        {
            self.steps
                .take(self.read.as_slice()[self.taken], &mut self.text);
            self.taken += 1;
            self.is_over = self.steps.broken().is_some();
        }
    }

    /// Makes more of the text, once all before it is given on; whether another call may make more.
    fn make_more<I: Read>(&mut self, inner: &mut I) -> io::Result<bool> {
        self.text.clear();
        self.given = 0;
        if self.taken >= self.read.len() {
            self.read_more(inner)?;
        }
        self.translate();
        Ok(self.text.is_empty() && !self.is_over)
    }

    /// Gives what is made of the text and not given on, as far as there is room; how many bytes.
    fn give(&mut self, buf: &mut [u8]) -> usize
        ensures { result ≤ length buf.new }
    {
        let start = self.given.min(self.text.len());
        let left = &self.text.as_slice()[start..];
        let count = buf.len().min(left.len());
        buf[..count].copy_from_slice(&left[..count]);
        self.given = start + count;
        count
    }

    /// Reads the text of the proof whose further bytes this reader gives. It has no more than it
    /// gives of a proof that can't be read on.
    pub(crate) fn read<I: Read>(&mut self, inner: &mut I, buf: &mut [u8]) -> io::Result<usize>
        ensures { ReadsAtMost result buf.new }
    {
        if self.given >= self.text.len() && !self.is_over {
            for _ in 0..u64::MAX {
                if !self.make_more(inner)? {
                    break;
                }
            }
        }
        Ok(self.give(buf))
    }
}

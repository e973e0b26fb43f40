//! A proof's reader, read as text.
ghost use Rattle.std.specs.Prelude.{◌≡◌, ◌⊎◌, ◌+◌, ◌≤◌, ◌<◌, length, take, OnOk, IfOk};
ghost use Rattle.std.specs.Io.{ReadsAtMost};
ghost use Rattle.std.specs.Io.KnownBytes.{Consumes, Keeps, IsAtEnd, ReadConsumes, prepend_known};
ghost use Rattle.lrat_forms.specs.Forms.{text_of};
ghost use Rattle.lrat_forms.specs.Remaining.{text_remaining, IsLookedAt};

use crate::first::{FIRST, is_binary};
use crate::form::{Broken, Form};
use crate::translation::Translation;
use arrayvec::ArrayVec;
use std::io;
use std::io::Read;

/// How far a proof is read.
#[derive(Clone, Copy)]
enum Reading {
    /// Not all of its first bytes are looked at.
    First,

    /// It is a text, of which so many of the first bytes are given on.
    Text(usize),
    Binary,
}

/// Reads a proof, and gives it as the text of LRAT. A text is passed on as it is; of a proof in
/// binary come its steps as lines. The first read looks which of the two it is.
#[derive(Drop)]
pub struct ProofText<I> {
    inner: I,
    first: ArrayVec<u8, FIRST>,
    reading: Reading,
    translation: Translation,
}

impl<I> ProofText<I> {
    /// The form of the proof; that of a text where not all of its first bytes were read.
    pub fn form(&self) -> Form {
        match self.reading {
            Reading::First | Reading::Text(_) => Form::Text,
            Reading::Binary => Form::Binary,
        }
    }

    /// The reader of the proof's own bytes.
    pub fn inner(&self) -> &I {
        &self.inner
    }

    /// Where a binary proof can't be read on, if it can't and was read up to there.
    pub fn broken(&self) -> Option<Broken> {
        self.translation.broken()
    }
}

impl<I: Read> ProofText<I> {
    /// The text of a proof of which nothing was read.
    pub fn of(inner: I) -> ProofText<I>
        ensures { text_remaining I.remaining result ≡ text_of (I.remaining inner) }
    {
        ProofText {
            inner,
            first: ArrayVec::new(),
            reading: Reading::First,
            translation: Translation::new(),
        }
    }

    /// Reads some of the first bytes, while not all are there; how many.
    fn read_first(&mut self) -> io::Result<usize>
        requires { length self.old.first.items < FIRST }
        ensures keeps { Keeps (prepend_known self.old.first.items (I.remaining self.old.inner)) (prepend_known self.new.first.items (I.remaining self.new.inner)) }
        ensures same { self.new.reading ≡ self.old.reading }
        ensures more { IfOk result (λ count. length self.new.first.items ≡ length self.old.first.items + count) }
        ensures at_end { IfOk result (λ count. count ≡ 0 → IsAtEnd (I.remaining self.new.inner)) }
    {
        let mut chunk = [0u8; FIRST];
        let room = self.first.remaining_capacity();
        let count = self.inner.read(&mut chunk[..room])?;
        let _ = self.first.try_extend_from_slice(&chunk[..count]);
        Ok(count)
    }

    /// Reads the first bytes: all 64, or those of a shorter proof.
    fn fill_first(&mut self) -> io::Result<()>
        ensures keeps { Keeps (prepend_known self.old.first.items (I.remaining self.old.inner)) (prepend_known self.new.first.items (I.remaining self.new.inner)) }
        ensures same { self.new.reading ≡ self.old.reading }
        ensures all { OnOk result ((length self.new.first.items ≡ FIRST) ⊎ IsAtEnd (I.remaining self.new.inner)) }
    {
        while !self.first.is_full() {
            if self.read_first()? == 0 {
                break;
            }
        }
        Ok(())
    }

    /// Looks at the first bytes, of which not all were looked at before.
    fn look_first(&mut self) -> io::Result<()>
        requires { self.old.reading ≡ Reading.First }
        ensures keeps { Keeps (text_remaining I.remaining self.old) (text_remaining I.remaining self.new) }
        ensures known { OnOk result (IsLookedAt self.new.reading) }
    {
        self.fill_first()?;
        let first = self.first.as_slice();
        if is_binary(first) {
            self.translation.begin(first);
            self.reading = Reading::Binary;
        } else {
            self.reading = Reading::Text(0);
        }
        Ok(())
    }

    /// Looks at the first bytes, unless that is done.
    fn look(&mut self) -> io::Result<()>
        ensures keeps { Keeps (text_remaining I.remaining self.old) (text_remaining I.remaining self.new) }
        ensures known { OnOk result (IsLookedAt self.new.reading) }
    {
        match self.reading {
            Reading::First => self.look_first(),
            Reading::Text(_) | Reading::Binary => Ok(()),
        }
    }

    /// Gives the first bytes of a text behind those that are given, as far as there is room; how
    /// many.
    fn give_first(&mut self, given: usize, buf: &mut [u8]) -> usize
        requires reading { self.old.reading ≡ Reading.Text given }
        requires left { given < length self.old.first.items }
        ensures bound { result ≤ length buf.new }
        ensures bytes { Consumes (text_remaining I.remaining self.old) (text_remaining I.remaining self.new) (take result buf.new) }
        ensures some { 0 < length buf.new → 0 < result }
    {
        let left = &self.first.as_slice()[given..];
        let count = buf.len().min(left.len());
        buf[..count].copy_from_slice(&left[..count]);
        self.reading = Reading::Text(given + count);
        count
    }

    /// Reads of a proof that was looked at.
    fn read_on(&mut self, buf: &mut [u8]) -> io::Result<usize>
        requires { IsLookedAt self.old.reading }
        ensures bound { ReadsAtMost result buf.new }
        ensures bytes { ReadConsumes (text_remaining I.remaining self.old) (text_remaining I.remaining self.new) result buf.new }
    {
        match self.reading {
            Reading::Text(given) if given < self.first.len() => Ok(self.give_first(given, buf)),
            Reading::Text(_) | Reading::First => self.inner.read(buf),
            Reading::Binary => self.translation.read(&mut self.inner, buf),
        }
    }
}

impl<I: Read> Read for ProofText<I> {
    ghost use Rattle.lrat_forms.specs.Remaining.{text_remaining};

    ghost remaining = { text_remaining I.remaining };

    fn read(&mut self, buf: &mut [u8]) -> io::Result<usize> {
        self.look()?;
        self.read_on(buf)
    }
}

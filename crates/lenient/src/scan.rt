//! A text, word by word: what is passed over, and the strict text. What stays keeps its line and its
//! column, but for what stands behind the header's numbers; where the header is missing, a line with
//! one stands before all others.

use crate::number::Number;
use crate::passed::{Counts, PassedHeader, PassedOver};
use crate::text::LenientText;
use std::alloc::{AllocError, Global};

/// What the next word of a text is.
#[derive(Clone, Copy, PartialEq, Eq)]
enum Part {
    /// The `p` of the header.
    Mark,
    /// Its `cnf`.
    Format,
    /// Its number of variables.
    Vars,
    /// Its number of clauses.
    Clauses,
    /// A literal, or the 0 behind a clause.
    Body,
    /// A part of what stays as it is, since the text can't be read.
    Rest,
}

/// What is looked at behind a word.
#[derive(Clone, Copy, PartialEq, Eq)]
enum Next {
    Word,
    Line,
    Nothing,
}

/// A text of which so much was read.
#[derive(Drop)]
pub(crate) struct Scan {
    part: Part,
    /// The number of the line that is read.
    line: u64,
    /// The strict text before the header's numbers, these, and the strict text behind them.
    head: Vec<u8>,
    numbers: Vec<u8>,
    body: Vec<u8>,
    /// Whether a word of the line was read.
    is_line_begun: bool,
    /// Whether a clause is begun and not ended.
    is_inside: bool,
    /// The header's number of variables, once it is read, and its counts, once both are.
    vars: u64,
    header: Option<Counts>,
    /// Whether the clauses began without a header.
    is_headless: bool,
    found: Counts,
    passed: PassedOver,
}

/// Vertical tabs and form feeds are blanks to C's `isspace`, and so to MiniSat.
fn is_blank(byte: u8) -> bool {
    matches!(byte, b' ' | b'\t' | b'\r' | b'\x0b' | b'\x0c')
}

impl Scan {
    /// Nothing was read.
    pub(crate) fn new(alloc: Global) -> Scan {
        Scan {
            part: Part::Mark,
            line: 0,
            head: Vec::new(alloc),
            numbers: Vec::new(alloc),
            body: Vec::new(alloc),
            is_line_begun: false,
            is_inside: false,
            vars: 0,
            header: None,
            is_headless: false,
            found: Counts::none(),
            passed: PassedOver::nothing(),
        }
    }

    /// Puts bytes behind those of the strict text.
    fn put(&mut self, bytes: &[u8]) -> Result<(), AllocError> {
        let out = match self.part {
            Part::Mark | Part::Format | Part::Vars => &mut self.head,
            Part::Clauses => &mut self.numbers,
            Part::Body | Part::Rest => &mut self.body,
        };
        out.extend_from_slice(bytes)
    }

    /// Puts a number in plain digits at the end of the place that its word had.
    fn put_number(&mut self, number: &Number<'_>, word: &[u8]) -> Result<(), AllocError> {
        let width = number.digits().len() + usize::from(number.is_negative());
        if width < word.len() {
            self.passed.numbers = self.passed.numbers.saturating_add(1);
        }
        for _ in width..word.len() {
            self.put(b" ")?;
        }
        if number.is_negative() {
            self.put(b"-")?;
        }
        self.put(number.digits())
    }

    /// Puts a word that stays, and makes all that comes stay.
    fn give_up(&mut self, word: &[u8]) -> Result<Next, AllocError> {
        self.part = Part::Rest;
        self.put(word)?;
        Ok(Next::Word)
    }

    /// Passes over a comment that doesn't begin its line.
    fn pass_comment(&mut self) -> Next {
        self.passed.comments = self.passed.comments.saturating_add(1);
        Next::Line
    }

    /// Takes the first word of all: the header's `p`, or a number where the header is missing.
    fn take_first(&mut self, word: &[u8]) -> Result<Next, AllocError> {
        if word.starts_with(b"c") {
            return Ok(self.pass_comment());
        }
        if Number::of(word).is_none() {
            return self.take_mark(word, b"p", Part::Format);
        }
        self.is_headless = true;
        self.part = Part::Body;
        self.take_body(word)
    }

    /// Takes the header's `p` or `cnf`, before that part.
    fn take_mark(&mut self, word: &[u8], mark: &[u8], next: Part) -> Result<Next, AllocError> {
        if word != mark {
            return self.give_up(word);
        }
        self.put(word)?;
        self.part = next;
        Ok(Next::Word)
    }

    /// Takes a number of the header.
    fn take_count(&mut self, word: &[u8]) -> Result<Next, AllocError> {
        let Some(number) = Number::of(word) else {
            return self.give_up(word);
        };
        if number.is_negative() {
            return self.give_up(word);
        }
        let is_last = self.part == Part::Clauses;
        self.part = Part::Clauses;
        self.put_number(&number, word)?;
        if is_last {
            self.header = Some(Counts {
                vars: self.vars,
                clauses: number.size(),
            });
            self.part = Part::Body;
        } else {
            self.vars = number.size();
        }
        Ok(Next::Word)
    }

    /// Takes a literal, or the 0 behind a clause.
    fn take_literal(&mut self, number: &Number<'_>, word: &[u8]) -> Result<Next, AllocError> {
        self.put_number(number, word)?;
        self.is_inside = !number.is_zero();
        if self.is_inside {
            self.found.vars = self.found.vars.max(number.size());
        } else {
            self.found.clauses = self.found.clauses.saturating_add(1);
        }
        Ok(Next::Word)
    }

    /// Takes a word behind the header. A comment may stand at a line's beginning, and it and a `%`
    /// where a clause may begin. A header behind clauses isn't read, so that it is missing.
    fn take_body(&mut self, word: &[u8]) -> Result<Next, AllocError> {
        match word {
            [b'c', ..] if !self.is_inside || !self.is_line_begun => Ok(self.pass_comment()),
            [b'%', ..] if !self.is_inside => {
                self.passed.end = Some(self.line);
                Ok(Next::Nothing)
            }
            [b'p'] if self.is_headless => {
                self.is_headless = false;
                self.give_up(word)
            }
            _ => match Number::of(word) {
                Some(number) => self.take_literal(&number, word),
                None => self.give_up(word),
            },
        }
    }

    fn take_word(&mut self, word: &[u8]) -> Result<Next, AllocError> {
        if word.is_empty() {
            return Ok(Next::Word);
        }
        match self.part {
            Part::Mark => self.take_first(word),
            Part::Format => self.take_mark(word, b"cnf", Part::Vars),
            Part::Vars | Part::Clauses => self.take_count(word),
            Part::Body => self.take_body(word),
            Part::Rest => self.give_up(word),
        }
    }

    /// Takes the words of a line. A header that isn't whole at its line's end ends the reading.
    fn take_words(&mut self, line: &[u8]) -> Result<Next, AllocError> {
        self.is_line_begun = false;
        let mut is_first = true;
        for word in line.split(|byte| is_blank(*byte)) {
            if !is_first {
                self.put(b" ")?;
            }
            is_first = false;
            let next = self.take_word(word)?;
            self.is_line_begun = self.is_line_begun || !word.is_empty();
            if next != Next::Word {
                return Ok(next);
            }
        }
        if matches!(self.part, Part::Format | Part::Vars | Part::Clauses) {
            self.part = Part::Rest;
        }
        Ok(Next::Line)
    }

    /// Takes a line; whether more is looked at. A line that begins with `c` is a comment.
    fn take_line(&mut self, line: &[u8]) -> Result<bool, AllocError> {
        if self.line > 0 {
            self.put(b"\n")?;
        }
        self.line = self.line.saturating_add(1);
        if line.starts_with(b"c") {
            self.put(line)?;
            return Ok(true);
        }
        Ok(self.take_words(line)? != Next::Nothing)
    }

    /// Takes a text, or as much of it as is looked at.
    pub(crate) fn take(&mut self, text: &[u8]) -> Result<(), AllocError> {
        for line in text.split(|byte| *byte == b'\n') {
            if !self.take_line(line)? {
                break;
            }
        }
        Ok(())
    }

    /// The counts that the text needs in its header, if that counts so many: variables that no clause
    /// has are kept. Behind a word that can't be read there may be more clauses.
    fn counts_needed(&self, header: Counts) -> Counts {
        let begun = u64::from(self.is_inside);
        let clauses = self.found.clauses.saturating_add(begun);
        let least = if self.part == Part::Rest {
            header.clauses
        } else {
            0
        };
        Counts {
            vars: header.vars.max(self.found.vars),
            clauses: clauses.max(least),
        }
    }

    /// The header of a text that has none; else nothing.
    fn missing_header(&mut self, alloc: Global) -> Result<Vec<u8>, AllocError> {
        if !self.is_headless && self.part != Part::Mark {
            return Ok(Vec::new(alloc));
        }
        let counts = self.counts_needed(Counts::none());
        self.passed.header = PassedHeader::Added(counts);
        let (vars, clauses) = (counts.vars, counts.clauses);
        Ok(format!(in alloc; "p cnf {vars} {clauses}\n")?.into_bytes())
    }

    /// Writes the header's numbers anew where they aren't those of the text.
    fn correct_counts(&mut self, alloc: Global) -> Result<(), AllocError> {
        let Some(header) = self.header else {
            return Ok(());
        };
        let text = self.counts_needed(header);
        if text == header {
            return Ok(());
        }
        self.passed.header = PassedHeader::Corrected { header, text };
        let (vars, clauses) = (text.vars, text.clauses);
        self.numbers = format!(in alloc; "{vars} {clauses}")?.into_bytes();
        Ok(())
    }

    /// The strict text, and what was passed over.
    pub(crate) fn finish(mut self, alloc: Global) -> Result<LenientText, AllocError> {
        let mut text = self.missing_header(alloc)?;
        self.correct_counts(alloc)?;
        let Scan {
            part: _,
            line: _,
            head,
            numbers,
            body,
            is_line_begun: _,
            is_inside: _,
            vars: _,
            header: _,
            is_headless: _,
            found: _,
            passed,
        } = self;
        text.extend_from_slice(&head)?;
        text.extend_from_slice(&numbers)?;
        text.extend_from_slice(&body)?;
        Ok(LenientText { text, passed })
    }
}

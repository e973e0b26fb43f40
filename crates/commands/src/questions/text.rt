//! A text of questions, as far as it has been taken.
ghost use Rattle.std.specs.Prelude.{◌≡◌};

use crate::questions::item::Item;
use crate::questions::word::{literal_of, number_of, seconds_of};
use cnf::{Lit, Place, ReadFault};
use std::alloc::Global;

/// So many bytes of a word are kept. A longer one is no number within the limit, and no other word.
const LONGEST: usize = 24;

/// Which word comes next.
#[derive(Clone, Copy, Debug, PartialEq, Eq)]
enum Next {
    /// The header's `p`.
    Header,
    /// Its `inccnf`.
    Format,
    /// The first one of a clause, `a` or `t`.
    Any,
    /// A clause's literal, or 0.
    InClause,
    /// A question's literal, or 0.
    InQuestion,
    /// A number of seconds.
    InLimit,
}

/// A text in iCNF, byte by byte: the header `p inccnf`, and then clauses, questions and limits, in
/// whatever lines. A line whose first byte is `c` is a comment. It keeps one word and the literals of
/// one clause or question, and so takes memory by the longest of these.
#[derive(Drop)]
pub struct Text {
    // where the next byte stands
    place: Place,
    is_comment: bool,
    // the beginning of the word that the last byte belongs to, and where it stands
    word: Vec<u8>,
    begun: Place,
    next: Next,
    lits: Vec<Lit>,
}

impl Text {
    /// Nothing was taken yet.
    pub fn new(alloc: Global) -> Text {
        let start = Place { line: 1, column: 1 };
        Text {
            place: start,
            is_comment: false,
            word: Vec::new(alloc),
            begun: start,
            next: Next::Header,
            lits: Vec::new(alloc),
        }
    }

    /// The literals of the clause or question that ended last.
    pub fn lits(&self) -> &[Lit]
        ensures { result.now ≡ self.now.lits.items }
    {
        &self.lits
    }

    /// Takes the next byte, and answers what ends with it: with the blank or line feed behind its last
    /// word. It fails at the first word that can't stand where it does, and where memory is refused.
    pub fn take(&mut self, byte: u8) -> Result<Option<Item>, ReadFault> {
        let here = self.place;
        self.step_over(byte);
        if self.is_comment {
            self.is_comment = byte != b'\n';
            return Ok(None);
        }
        match byte {
            b' ' | b'\t' | b'\r' | b'\n' => self.end_word(),
            b'c' if here.column == 1 => {
                self.is_comment = true;
                Ok(None)
            }
            _ => self.lengthen(byte, here),
        }
    }

    /// The text ends here: what ends with its last word.
    pub fn take_end(&mut self) -> Result<Option<Item>, ReadFault> {
        self.end_word()
    }

    /// Whether the text may end here, once its last word has.
    pub fn ends(&self) -> Result<(), ReadFault> {
        match self.next {
            Next::Any => Ok(()),
            Next::Header => Err(ReadFault::NoHeader(self.place)),
            Next::Format => Err(ReadFault::BadHeader(self.place)),
            Next::InClause | Next::InQuestion | Next::InLimit => {
                Err(ReadFault::ClauseNotEnded(self.place))
            }
        }
    }

    fn step_over(&mut self, byte: u8) {
        if byte == b'\n' {
            self.place = Place {
                line: self.place.line.saturating_add(1),
                column: 1,
            };
        } else {
            self.place.column = self.place.column.saturating_add(1);
        }
    }

    fn lengthen(&mut self, byte: u8, here: Place) -> Result<Option<Item>, ReadFault> {
        if self.word.is_empty() {
            self.begun = here;
        }
        if self.word.len() < LONGEST {
            return match self.word.push(byte) {
                Ok(()) => Ok(None),
                Err(_) => Err(ReadFault::NoMemory),
            };
        }
        Ok(None)
    }

    /// The word ends, if there is one.
    fn end_word(&mut self) -> Result<Option<Item>, ReadFault> {
        if self.word.is_empty() {
            return Ok(None);
        }
        let item = match self.next {
            Next::Header => self.take_header(),
            Next::Format => self.take_format(),
            Next::Any => self.take_first(),
            Next::InClause => self.take_literal(Item::Clause),
            Next::InQuestion => self.take_literal(Item::Question),
            Next::InLimit => self.take_seconds(),
        };
        self.word.clear();
        item
    }

    fn take_header(&mut self) -> Result<Option<Item>, ReadFault> {
        if self.word.as_slice() != b"p".as_slice() {
            return Err(ReadFault::NoHeader(self.begun));
        }
        self.next = Next::Format;
        Ok(None)
    }

    fn take_format(&mut self) -> Result<Option<Item>, ReadFault> {
        if self.word.as_slice() != b"inccnf".as_slice() {
            return Err(ReadFault::BadHeader(self.begun));
        }
        self.next = Next::Any;
        Ok(None)
    }

    fn take_first(&mut self) -> Result<Option<Item>, ReadFault> {
        self.lits.clear();
        if self.word.as_slice() == b"a".as_slice() {
            self.next = Next::InQuestion;
            return Ok(None);
        }
        if self.word.as_slice() == b"t".as_slice() {
            self.next = Next::InLimit;
            return Ok(None);
        }
        if self.word.as_slice() == b"p".as_slice() {
            return Err(ReadFault::SecondHeader(self.begun));
        }
        self.next = Next::InClause;
        self.take_literal(Item::Clause)
    }

    /// A literal of a clause or question, or the 0 that ends it.
    fn take_literal(&mut self, item: Item) -> Result<Option<Item>, ReadFault> {
        if self.word.as_slice() == b"0".as_slice() {
            self.next = Next::Any;
            return Ok(Some(item));
        }
        let Some(number) = number_of(&self.word) else {
            return Err(ReadFault::BadNumber(self.begun));
        };
        let Some(lit) = literal_of(number) else {
            return Err(ReadFault::OverLimit(self.begun));
        };
        match self.lits.push(lit) {
            Ok(()) => Ok(None),
            Err(_) => Err(ReadFault::NoMemory),
        }
    }

    fn take_seconds(&mut self) -> Result<Option<Item>, ReadFault> {
        match seconds_of(&self.word) {
            Some(seconds) => {
                self.next = Next::Any;
                Ok(Some(Item::Limit(seconds)))
            }
            None => Err(ReadFault::BadNumber(self.begun)),
        }
    }
}

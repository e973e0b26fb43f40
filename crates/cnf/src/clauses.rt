//! The clauses of a text, token by token.
ghost use Rattle.std.specs.Prelude.{◌≡◌, ◌+◌, ◌≤◌, ◌<◌, [], ◌∷◌, ◌++◌, map, sum_by, length, slice_range, vec_len, MatchResult};
ghost use Rattle.theory.specs.Reading.{end_of, large, max_bytes, max_vars, max_literals};
ghost use Rattle.theory.proofs.reading.ReadingMachine.{at_body};
ghost use Rattle.cnf.specs.Faults.{IsRefusal, IsReadAs};
ghost use Rattle.cnf.specs.Limits.{limits_of};
ghost use Rattle.cnf.specs.Tokens.{behind_header};
ghost use Rattle.cnf.specs.Words.{word_at, IsWordAt, IsNumberOf};
ghost use Rattle.cnf.specs.Machine.{TakesToken, Refuses, run, reads_from, reading_of};

use crate::fault::ReadFault;
use crate::flat::FlatClauses;
use crate::formula::Formula;
use crate::header::Header;
use crate::limits::Limits;
use crate::lit::Lit;
use crate::number::{Number, read_number};
use crate::scan::{is_text, place_at, skip_to_token};
use std::alloc::Global;

/// The clauses read so far.
#[derive(Drop)]
struct Clauses {
    /// How large the formula may be.
    limits: Limits,

    /// The header's number of variables.
    vars: u32,

    /// The header's number of clauses.
    wanted: u32,

    /// The clauses that are ended.
    whole: FlatClauses,

    /// The literals behind the last of them. It grows to the longest clause and is emptied at each
    /// clause's end.
    begun: Vec<Lit>,

    ghost few: { sum_by length whole + vec_len begun ≤ max_literals (limits_of limits) },
    ghost small: { vars ≤ max_vars large },
    ghost room: { length whole ≤ wanted },
}

impl Clauses {
    ghost use Rattle.cnf.specs.Clauses.{state_of};

    /// No clauses, behind a header.
    fn new(alloc: Global, header: &Header, limits: Limits) -> Clauses
        requires { header.now.vars ≤ max_vars large }
        ensures state { state_of result ≡ at_body header.now.vars header.now.clauses [] [] }
        ensures limits { result.limits ≡ limits }
    {
        Clauses {
            limits,
            vars: header.vars,
            wanted: header.clauses,
            whole: FlatClauses::new(alloc),
            begun: Vec::new(alloc),
        }
    }

    /// Ends the clause begun. After an error it is as it was.
    #[inline]
    fn end_clause(&mut self) -> Result<(), ReadFault>
        requires { length self.old.whole < self.old.wanted }
        ensures limits { self.new.limits ≡ self.old.limits }
        ensures state { MatchResult result
            (λ _. state_of self.new
            ≡ at_body self.old.vars self.old.wanted (self.old.whole ++ self.old.begun.items ∷ []) [])
            (λ e. e ≡ ReadFault.NoMemory) }
    {
        self.whole
            .push(&self.begun)
            .map_err(|_| ReadFault::NoMemory)?;
        self.begun.clear();
        Ok(())
    }

    /// Puts a literal behind those of the clause begun. After an error it is as it was.
    #[inline]
    fn push(&mut self, lit: Lit) -> Result<(), ReadFault>
        requires { sum_by length self.old.whole + vec_len self.old.begun < max_literals (limits_of self.old.limits) }
        ensures limits { self.new.limits ≡ self.old.limits }
        ensures state { MatchResult result
            (λ _. state_of self.new
            ≡ at_body self.old.vars self.old.wanted self.old.whole (self.old.begun.items ++ lit ∷ []))
            (λ e. e ≡ ReadFault.NoMemory) }
    {
        self.begun.push(lit).map_err(|_| ReadFault::NoMemory)
    }

    /// Takes the word that begins at `start`, and which is this number or none.
    #[inline]
    fn take(&mut self, bytes: &[u8], start: usize, number: &Number) -> Result<(), ReadFault>
        requires word { IsWordAt bytes.now start number.now.end }
        requires within { number.now.end ≤ length bytes.now }
        requires number { IsNumberOf (slice_range bytes.now start number.now.end) number.now.natural number.now.negative number.now.size }
        ensures limits { self.new.limits ≡ self.old.limits }
        ensures state { MatchResult result
            (λ _. TakesToken (limits_of self.old.limits) (state_of self.old) (word_at bytes.now start number.now.end) (state_of self.new))
            (IsRefusal (Refuses (limits_of self.old.limits) (state_of self.old) (word_at bytes.now start number.now.end))) }
    {
        if !number.natural && !number.negative {
            let place = place_at(bytes, start);
            return if is_text(&bytes[start..number.end], b"p") {
                Err(ReadFault::SecondHeader(place))
            } else {
                Err(ReadFault::BadNumber(place))
            };
        }
        if self.whole.len() == self.wanted as usize {
            return Err(ReadFault::TooManyClauses(place_at(bytes, start)));
        }
        if number.size == 0 {
            return self.end_clause();
        }
        if number.size > u64::from(self.vars) {
            return Err(ReadFault::VariableOutOfRange(place_at(bytes, start)));
        }
        if self.whole.literal_count() + self.begun.len() == self.limits.literals() as usize {
            return Err(ReadFault::OverLimit(place_at(bytes, start)));
        }
        self.push(Lit::of(number.size as u32, !number.negative))
    }

    /// The formula at the end of the text.
    fn finish(self, bytes: &[u8]) -> Result<Formula, ReadFault>
        requires short { length bytes.now ≤ max_bytes (limits_of self.limits) }
        requires all { reading_of (limits_of self.limits) bytes.now ≡ run (limits_of self.limits) (state_of self) [] (end_of bytes.now) }
        ensures { IsReadAs (limits_of self.limits) bytes.now result }
    {
        if !self.begun.is_empty() {
            return Err(ReadFault::ClauseNotEnded(place_at(bytes, bytes.len())));
        }
        if self.whole.len() != self.wanted as usize {
            return Err(ReadFault::TooFewClauses(place_at(bytes, bytes.len())));
        }
        Ok(Formula::new(self.vars, self.whole))
    }
}

/// The formula of a text, behind its header. The loop stands apart from its callers: inlined, it
/// kept the text's address in memory and not in a register.
#[inline(never)]
pub fn read_clauses(
    alloc: Global,
    bytes: &[u8],
    header: &Header,
    limits: Limits,
) -> Result<Formula, ReadFault>
    requires short { length bytes.now ≤ max_bytes (limits_of limits) }
    requires within { header.now.end ≤ length bytes.now }
    requires vars { header.now.vars ≤ max_vars large }
    requires so_far { reading_of (limits_of limits) bytes.now
        ≡ reads_from (limits_of limits) (at_body header.now.vars header.now.clauses [] []) behind_header bytes.now header.now.end }
    ensures { IsReadAs (limits_of limits) bytes.now result }
{
    let mut clauses = Clauses::new(alloc, header, limits);
    let mut at = skip_to_token(bytes, header.end);
    while at < bytes.len() {
        let number = read_number(bytes, at);
        clauses.take(bytes, at, &number)?;
        at = skip_to_token(bytes, number.end);
    }
    clauses.finish(bytes)
}

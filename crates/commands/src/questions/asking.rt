//! Clauses that are added and questions of them, each answered before the next one is read.

ghost use Rattle.std.specs.Prelude.{◌≡◌, ◌⊎◌, ℕ, List, Option, true, IfOk, OnOk};
ghost use Rattle.commands.specs.declared.solving.TheConstants.{UNKNOWN};
ghost use Rattle.commands.specs.Questions.{core_text, IsAnswered, IsFollowed, IsModelText, IsSessionStatus};

use crate::fault_lines::print_not_opened;
use crate::input::open_input;
use crate::questions::fault::{Fault, print_fault_of};
use crate::questions::item::Item;
use crate::questions::text::Text;
use crate::questions::word::MOST_VARS;
use crate::solving::{SATISFIABLE, UNKNOWN, UNSATISFIABLE};
use cnf::{Formula, Lit};
use join::answer_bytes;
use lrat_text::append_literals;
use runs::{Limit, TimeLimit};
use session::{Answer, Interrupt, Session};
use std::alloc::{AllocError, Global};
use std::fs::Files;
use std::io::{Read, Write};
use std::time::Clock;

/// So many bytes are read at most before the questions among them are answered.
const CHUNK: usize = 4096;

/// Interrupts a question once its time is over.
#[derive(Drop)]
struct OutOfTime<'a, R> {
    limit: TimeLimit<'a, R>,
}

impl<R: Clock> Interrupt for OutOfTime<'_, R> {
    ghost may_interrupt = { λ o. true };

    fn interrupts(&self) -> bool {
        self.limit.reached()
    }
}

/// The line of a core.
fn core_line(alloc: Global, core: &[Lit]) -> Result<Vec<u8>, AllocError>
    ensures { IfOk result (λ line. line.items ≡ core_text core.now) }
{
    let mut line = Vec::from_slice(alloc, b"s UNSATISFIABLE\nc core ")?;
    append_literals(core, &mut line)?;
    line.extend_from_slice(b"0\n")?;
    Ok(line)
}

/// The lines of a model.
fn model_lines(alloc: Global, values: &[bool], shows_models: bool) -> Result<Vec<u8>, AllocError>
    ensures { IfOk result (λ lines. IsModelText shows_models values.now lines.items) }
{
    if !shows_models || values.len() > MOST_VARS as usize {
        return Vec::from_slice(alloc, b"s SATISFIABLE\n");
    }
    let formula = Formula::without_clauses(alloc, values.len() as u32);
    answer_bytes(alloc, &formula, Some(values))
}

/// A session under way.
#[derive(Drop)]
struct Asking<'a, R> {
    rt: &'a R,
    alloc: Global,
    session: Session,
    text: Text,
    /// Of the next question, if it has one.
    seconds: Option<u32>,
    shows_models: bool,
    status: u8,
}

impl<'a, R: Clock> Asking<'a, R> {
    fn open(rt: &'a R, alloc: Global, shows_models: bool) -> Result<Asking<'a, R>, AllocError>
        ensures { IfOk result (λ asking. asking.status ≡ UNKNOWN) }
    {
        Ok(Asking {
            rt,
            alloc,
            session: Session::open(alloc)?,
            text: Text::new(alloc),
            seconds: None,
            shows_models,
            status: UNKNOWN,
        })
    }

    /// The lines of the answer to a question, of which the assumptions were just read.
    fn answered(&mut self) -> Result<Vec<u8>, Fault>
        ensures answered { IfOk result (λ lines. IsAnswered self.new.session.formula self.old.text.lits.items self.old.shows_models self.new.status lines.items) }
        ensures clauses { self.new.session.formula.clauses ≡ self.old.session.formula.clauses }
        ensures same { (self.new.text ≡ self.old.text) × (self.new.shows_models ≡ self.old.shows_models) }
    {
        let limit = TimeLimit::begin(self.rt, self.seconds);
        self.seconds = None;
        let answer = self.session.solve(self.text.lits(), &OutOfTime { limit })?;
        let (status, lines) = match answer {
            Answer::Model(values) => {
                let lines = model_lines(self.alloc, &values, self.shows_models)?;
                (SATISFIABLE, lines)
            }
            Answer::Unsatisfiable(core) => (UNSATISFIABLE, core_line(self.alloc, &core)?),
            Answer::Unknown => (UNKNOWN, Vec::from_slice(self.alloc, b"s UNKNOWN\n")?),
        };
        self.status = status;
        Ok(lines)
    }

    /// Does what was just read.
    fn follow<W: Write>(&mut self, item: Item, answer: &mut W) -> Result<(), Fault>
        ensures { OnOk result (IsFollowed item self.new.session.formula self.old.text.lits.items self.old.shows_models self.old.status self.new.status (W.contents answer.old) (W.contents answer.new)) }
    {
        match item {
            Item::Clause => self.session.add_clause(self.text.lits())?,
            Item::Limit(seconds) => self.seconds = Some(seconds),
            Item::Question => {
                let lines = self.answered()?;
                answer.write_all(&lines).map_err(Fault::NotWritten)?;
                answer.flush().map_err(Fault::NotWritten)?;
            }
        }
        Ok(())
    }

    /// Does what a piece of the text asks for.
    fn take<W: Write>(&mut self, piece: &[u8], answer: &mut W) -> Result<(), Fault>
        ensures { (a : Option (List ℕ)) → IsSessionStatus self.old.status a (W.contents answer.old) → OnOk result (IsSessionStatus self.new.status a (W.contents answer.new)) }
    {
        for byte in piece {
            if let Some(item) = self.text.take(*byte).map_err(Fault::Text)? {
                self.follow(item, answer)?;
            }
        }
        Ok(())
    }

    /// Does what the whole text asks for.
    fn take_all<I: Read, W: Write>(&mut self, input: &mut I, answer: &mut W) -> Result<(), Fault>
        requires { self.old.status ≡ UNKNOWN }
        ensures { OnOk result (IsSessionStatus self.new.status (W.contents answer.old) (W.contents answer.new)) }
    {
        let mut chunk = [0u8; CHUNK];
        // no text has so many pieces
        for _ in 0..u64::MAX {
            let count = input.read(&mut chunk).map_err(Fault::NotRead)?;
            if count == 0 {
                break;
            }
            self.take(&chunk[..count], answer)?;
        }
        if let Some(item) = self.text.take_end().map_err(Fault::Text)? {
            self.follow(item, answer)?;
        }
        self.text.ends().map_err(Fault::Text)
    }
}

/// Answers the questions of a text in iCNF, in a file or in the standard input, each as soon as it is
/// read; the status of the last answer, 0 without one, or 1 on a fault.
pub fn session<R: Files + Clock, I: Read + Drop, W: Write, E: Write>(
    rt: &R,
    alloc: Global,
    file: &str,
    shows_models: bool,
    standard: I,
    answer: &mut W,
    faults: &mut E,
) -> u8
    ensures { (result ≡ 1) ⊎ IsSessionStatus result (W.contents answer.old) (W.contents answer.new) }
{
    let mut input = match open_input(rt, file, &mut Some(standard)) {
        Ok(input) => input,
        Err(error) => return print_not_opened(faults, file, error, false),
    };
    let mut asking = match Asking::open(rt, alloc, shows_models) {
        Ok(asking) => asking,
        Err(_) => return print_fault_of(faults, file, Fault::NoMemory),
    };
    match asking.take_all(&mut input, answer) {
        Ok(()) => asking.status,
        Err(fault) => print_fault_of(faults, file, fault),
    }
}

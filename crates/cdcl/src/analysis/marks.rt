//! Sets of literals that are false on the trail, as marks of their variables: what resolution works
//! on. Each step costs what it looks at, and a logarithm for each place of level 0 that waits.
ghost use Rattle.std.specs.Prelude.{◌≡◌, ◌<◌, ◌≤◌, ◌+◌, ◌∷◌, [], ℕ, IfOk, OnOk, length, take, true, false, Some, None, slice_get, slice_index_or};
ghost use Rattle.theory.specs.Literals.{Clause, has, negated, without};
ghost use Rattle.theory.specs.Trails.{Entry, literals, entry_of, current_level};
ghost use Rattle.theory.specs.Status.{is_false};
ghost use Rattle.theory.specs.Lawful.{IsLawful};
ghost use Rattle.theory.specs.Learning.{with_literal, with_literals, resolved, reason_used};
ghost use Rattle.kernel.specs.State.{State};
ghost use Rattle.cdcl.specs.Marks.{IsMarked, IsSet, IsClear, HasRoom, CanJoin, CanResolve, Meets, is_open};

use crate::analysis::places::Places;
use cnf::Lit;
use kernel::{Entry, SearchKernel};
use std::alloc::{AllocError, Global};
use std::marker::Model;

/// A set of literals that are false on the trail.
pub(crate) struct Marks {
    /// By variable: whether its literal is in the set.
    pub(crate) marked: Vec<bool>,
    /// How many of the literals are of the current level.
    pub(crate) current: usize,
    /// The variables of all literals that were put in.
    pub(crate) seen: Vec<u32>,
    /// The places on the trail that are yet to be looked at: those of the literals of level 0 or of
    /// the current one.
    pub(crate) pending: Places,
}

// written out, so that proofs of its owners stay short (docs/PROVING.md)
impl Drop for Marks {
    fn drop(self) {
        let Marks {
            marked: _,
            current: _,
            seen: _,
            pending: _,
        } = self;
    }
}

impl Marks {
    /// The empty set over the variables below a number, in new room.
    fn with_room(alloc: Global, count: usize) -> Result<Marks, AllocError>
        ensures long { IfOk result (λ m. length m.marked.items ≡ count) }
        ensures clear { IfOk result IsClear }
    {
        Ok(Marks {
            marked: vec![in alloc; false; count]?,
            current: 0,
            seen: Vec::new(alloc),
            pending: Places::with_room(alloc, count)?,
        })
    }
}

/// Puts the negation of the literal at a place into the set, which doesn't have it, but has room for
/// its variable. `level` is the current one.
// A call, since most literals that `put` is given are in the set and end there. It makes no room, and
// so calls nothing but at its end: it has no registers to save, which were a third of it.
#[inline(never)]
fn put_at(
    kernel: &SearchKernel,
    marks: &mut Marks,
    level: u32,
    place: usize,
) -> Result<(), AllocError>
    requires level { level ≡ current_level kernel.now.trail }
    requires room { HasRoom 1 marks.old }
    requires marks { CanJoin kernel.now [] marks.old }
    requires inside { place < length kernel.now.trail }
    requires is_new { (e : Entry) → slice_get kernel.now.trail place ≡ Some e → slice_index_or marks.old.marked.items e.lit.var false ≡ false }
    ensures set { OnOk result ((S : Clause) → (bound : ℕ) → (e : Entry) → slice_get kernel.now.trail place ≡ Some e → place < bound
        → IsSet kernel.now [] S bound marks.old → IsSet kernel.now [] (with_literal (negated e.lit) S) bound marks.new) }
    ensures met { OnOk result ((e : Entry) → slice_get kernel.now.trail place ≡ Some e → Meets marks.old (negated e.lit ∷ []) marks.new) }
    ensures room { (n : ℕ) → HasRoom (n + 1) marks.old → HasRoom n marks.new }
{
    let entry = kernel.trail()[place];
    let var = entry.lit.var();
    marks.marked[var as usize] = true;
    marks.seen.push_reserved(var);
    if entry.level == level {
        marks.current += 1;
        marks.pending.push_near(place)?;
    } else if entry.level == 0 {
        marks.pending.push_far(place)?;
    }
    Ok(())
}

/// Puts a literal into the set, which has room for its variable.
#[inline]
fn put(kernel: &SearchKernel, marks: &mut Marks, level: u32, lit: Lit) -> Result<(), AllocError>
    requires level { level ≡ current_level kernel.now.trail }
    requires room { HasRoom 1 marks.old }
    requires marks { CanJoin kernel.now (lit ∷ []) marks.old }
    ensures set { OnOk result ((S : Clause) → (bound : ℕ) → has (literals (take bound kernel.now.trail)) (negated lit) ≡ true
        → IsSet kernel.now [] S bound marks.old → IsSet kernel.now [] (with_literal lit S) bound marks.new) }
    ensures met { OnOk result (Meets marks.old (lit ∷ []) marks.new) }
    ensures room { (n : ℕ) → HasRoom (n + 1) marks.old → HasRoom n marks.new }
{
    let var = lit.var();
    if marks.marked[var as usize] {
        return Ok(());
    }
    match kernel.place(var) {
        Some(place) => put_at(kernel, marks, level, place),
        None => Ok(()),
    }
}

/// Puts the literals of a clause into the set. `level` is the current one: to read it from the trail
/// for each literal took a fiftieth of a search of parity chains.
pub(crate) fn put_all(
    kernel: &SearchKernel,
    marks: &mut Marks,
    level: u32,
    clause: &[Lit],
) -> Result<(), AllocError>
    requires level { level ≡ current_level kernel.now.trail }
    requires marks { CanJoin kernel.now clause.now marks.old }
    ensures set { OnOk result ((S : Clause) → (bound : ℕ) → is_false (literals (take bound kernel.now.trail)) clause.now ≡ true
        → IsSet kernel.now [] S bound marks.old → IsSet kernel.now [] (with_literals clause.now S) bound marks.new) }
    ensures met { OnOk result (Meets marks.old clause.now marks.new) }
{
    let count = clause.len();
    marks.seen.reserve(count)?;
    for done in 0..count {
        put(kernel, marks, level, clause[count - 1 - done])?;
    }
    Ok(())
}

/// Puts the literals of a clause other than `except` into the set.
fn put_others(
    kernel: &SearchKernel,
    marks: &mut Marks,
    level: u32,
    clause: &[Lit],
    except: Lit,
) -> Result<(), AllocError>
    requires level { level ≡ current_level kernel.now.trail }
    requires marks { CanJoin kernel.now (without clause.now except) marks.old }
    ensures set { OnOk result ((S : Clause) → (bound : ℕ) → is_false (literals (take bound kernel.now.trail)) (without clause.now except) ≡ true
        → IsSet kernel.now [] S bound marks.old → IsSet kernel.now [] (with_literals (without clause.now except) S) bound marks.new) }
    ensures met { OnOk result (Meets marks.old (without clause.now except) marks.new) }
{
    let count = clause.len();
    marks.seen.reserve(count)?;
    for done in 0..count {
        let lit = clause[count - 1 - done];
        if !except.same(&lit) {
            put(kernel, marks, level, lit)?;
        }
    }
    Ok(())
}

/// Takes the negation of an entry's literal out of the set, which has it.
fn take(kernel: &SearchKernel, marks: &mut Marks, level: u32, entry: Entry)
    requires level { level ≡ current_level kernel.now.trail }
    requires marks { CanResolve kernel.now entry [] marks.old }
    ensures set { (S : Clause) → (bound : ℕ) → slice_get kernel.now.trail bound ≡ Some entry → IsSet kernel.now [] S bound marks.old
        → IsSet kernel.now [] (without S (negated entry.lit)) bound marks.new }
    ensures seen { marks.new.seen ≡ marks.old.seen }
{
    marks.marked[entry.lit.var() as usize] = false;
    if entry.level == level {
        marks.current -= 1;
    }
}

/// Resolves the set with the reason of the entry that was looked at last, the negation of whose
/// literal is in the set.
pub(crate) fn resolve(
    kernel: &SearchKernel,
    marks: &mut Marks,
    level: u32,
    entry: Entry,
    reason: &[Lit],
) -> Result<(), AllocError>
    requires level { level ≡ current_level kernel.now.trail }
    requires marks { CanResolve kernel.now entry (without reason.now entry.lit) marks.old }
    ensures set { OnOk result ((S : Clause) → (bound : ℕ) → slice_get kernel.now.trail bound ≡ Some entry
        → is_false (literals (take bound kernel.now.trail)) (without reason.now entry.lit) ≡ true → IsSet kernel.now [] S bound marks.old
        → IsSet kernel.now [] (resolved S entry.lit reason.now) bound marks.new) }
    ensures met { OnOk result (Meets marks.old (without reason.now entry.lit) marks.new) }
{
    take(kernel, marks, level, entry);
    put_others(kernel, marks, level, reason, entry.lit)
}

/// The clause with which the set is resolved at an entry of level 0 or of the current one, the
/// negation of whose literal is in the set.
pub(crate) fn reason_used(marks: &Marks, entry: Entry) -> Option<u64>
    ensures { (k : State) → (S : Clause) → IsLawful k.clauses k.trail → IsMarked k S marks.now.marked.items marks.now.current
        → entry_of k.trail entry.lit.var ≡ Some entry → is_open k.trail [] S (Some entry) ≡ true → result ≡ reason_used k.trail [] S entry }
{
    if entry.level == 0 || marks.current >= 2 {
        entry.reason
    } else {
        None
    }
}

/// Room for marks, that is used again and again.
#[derive(Drop)]
pub(crate) struct AnalysisScratch {
    kept: Option<Marks>,
}

impl Model for AnalysisScratch {
    ghost use Rattle.std.specs.Prelude.{IfSome};
    ghost use Rattle.cdcl.specs.Marks.{IsClear};

    ghost Value = { Unit {0} };

    ghost view = { λ a. tt };

    ghost invariant = { λ a. IfSome a.kept IsClear };
}

impl AnalysisScratch {
    /// No room yet. It takes no memory.
    pub(crate) fn new() -> AnalysisScratch {
        AnalysisScratch { kept: None }
    }

    /// The empty set over the variables, in the room that there is, or else in new one.
    pub(crate) fn take(&mut self, alloc: Global, vars: u32) -> Result<Marks, AllocError>
        ensures long { IfOk result (λ m. vars < length m.marked.items) }
        ensures clear { IfOk result IsClear }
    {
        let count = vars as usize + 1;
        match self.kept.take() {
            Some(marks) if marks.marked.len() >= count => Ok(marks),
            _ => Marks::with_room(alloc, count),
        }
    }

    /// Puts the room back, without a mark, for the next use.
    pub(crate) fn put_back(&mut self, marks: Marks)
        requires { IsClear marks }
    {
        self.kept = Some(marks);
    }
}

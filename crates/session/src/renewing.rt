//! How the kernel gets the clauses that were added since: one by one, or opened anew, with room for
//! more variables and without learnt clauses that are of little use.
ghost use Rattle.std.specs.Prelude.{◌≡◌, ◌≤◌, ◌<◌, ◌+◌, ℕ, Bool, List, [], take, length, true, false, IfOk, OnOk};
ghost use Rattle.theory.specs.Literals.{Clause};
ghost use Rattle.theory.specs.Truth.{AreTrue, is_true_clause};
ghost use Rattle.theory.specs.Trails.{literals};
ghost use Rattle.theory.specs.Reading.{large, max_vars};
ghost use Rattle.session.specs.Choosing.{HasChoice};
ghost use Rattle.session.specs.Loading.{IsFit, IsLoaded, IsPut, IsPutBehind};

use crate::choice::Choice;
use crate::growing::GrowingFormula;
use crate::loading::put_from;
use crate::search::{Search, open_kernel};
use crate::values::is_true;
use cdcl::Lessons;
use cnf::{Formula, Limits, Lit};
use kernel::SearchKernel;
use std::alloc::{AllocError, Global};

/// So many clauses may be learnt before the kernel is opened anew, and a third of those that it has.
const LEARNT: usize = 5000;

/// Glues from this one on count as equal.
const GLUES: usize = 64;

/// Clauses of this glue or below are always kept.
const KEPT_GLUE: u32 = 2;

/// The number of variables that there is room for, where so many more are needed than there is room
/// for now: at first just as many, since each model has values of all of them; then twice as many, so
/// that each variable is moved to new room only a few times.
fn room_for(room: u32, vars: u32) -> u32
    requires room { room ≤ max_vars large }
    requires vars { vars ≤ max_vars large }
    ensures enough { vars ≤ result }
    ensures more { room ≤ result }
    ensures few { result ≤ max_vars large }
{
    if vars <= room {
        return room;
    }
    if room == 0 {
        return vars;
    }
    (2 * vars).min(Limits::Large.vars())
}

/// Whether a literal of a clause is true on the trail.
fn is_satisfied(kernel: &SearchKernel, clause: &[Lit]) -> bool
    ensures { result ≡ true → (m : ℕ → Bool) → AreTrue m (literals kernel.now.trail) → is_true_clause m clause.now ≡ true }
{
    for lit in clause {
        if is_true(kernel, *lit) {
            return true;
        }
    }
    false
}

/// Puts those of the clauses added that aren't true on the trail into an empty formula.
fn put_added(
    kernel: &SearchKernel,
    formula: &GrowingFormula,
    clauses: &mut Formula,
) -> Result<(), AllocError>
    requires empty { clauses.old.clauses ≡ [] }
    requires room { formula.now.vars ≤ clauses.old.vars }
    ensures put { OnOk result (IsPut formula.now.clauses clauses.new.clauses (length formula.now.clauses) (literals kernel.now.trail)) }
    ensures vars { clauses.new.vars ≡ clauses.old.vars }
{
    for place in 0..formula.clause_count() {
        let clause = formula.clause(place);
        if !is_satisfied(kernel, clause) {
            clauses.push(clause)?;
        }
    }
    Ok(())
}

/// The greatest glue that about half of the learnt clauses have or are below.
fn middle_glue(glues: &[u32]) -> u32 {
    let mut counts = [0usize; GLUES];
    let mut learnt = 0usize;
    for glue in glues {
        let glue = *glue;
        if glue > 0 {
            let at = (glue as usize).min(GLUES - 1);
            counts[at] = counts[at].saturating_add(1);
            learnt = learnt.saturating_add(1);
        }
    }
    let mut sum = 0usize;
    for at in 0..GLUES {
        sum = sum.saturating_add(counts[at]);
        if sum >= learnt / 2 {
            return at as u32;
        }
    }
    GLUES as u32
}

/// Puts the learnt clauses of a kernel up to a glue that aren't true on its trail behind the clauses
/// of a formula, with their glues.
fn put_learnt(
    kernel: &SearchKernel,
    glues: &[u32],
    most: u32,
    clauses: &mut Formula,
    new_glues: &mut Vec<u32>,
) -> Result<(), AllocError>
    requires room { kernel.now.vars ≤ clauses.old.vars }
    ensures put { OnOk result (IsPutBehind kernel.now.clauses clauses.old.clauses clauses.new.clauses) }
    ensures vars { clauses.new.vars ≡ clauses.old.vars }
{
    let _trail = kernel.trail(); // it ensures what the proof needs of the clauses
    for index in 0..kernel.count() {
        let glue = glues.get(index as usize).copied().unwrap_or(0);
        if glue > 0 && glue <= most {
            let clause = kernel.arranged(index + 1);
            if !is_satisfied(kernel, clause) {
                clauses.push(clause)?;
                new_glues.push(glue)?;
            }
        }
    }
    Ok(())
}

/// Notes of the clauses behind those noted, up to so many in all, that they were added.
fn note_added(glues: &mut Vec<u32>, count: usize) -> Result<(), AllocError> {
    for _ in glues.len()..count {
        glues.push(0)?;
    }
    Ok(())
}

/// How many clauses of a formula have one literal.
fn units_in(clauses: &Formula) -> usize {
    let mut units = 0usize;
    for place in 0..clauses.clause_count() {
        if clauses.clause(place).len() == 1 {
            units = units.saturating_add(1);
        }
    }
    units
}

/// How many of the clauses from one on have one literal.
fn units_from(formula: &GrowingFormula, from: usize) -> usize {
    let mut units = 0usize;
    for place in from..formula.clause_count() {
        if formula.clause(place).len() == 1 {
            units = units.saturating_add(1);
        }
    }
    units
}

impl Search {
    /// Whether so many clauses were learnt that the kernel is to be opened anew.
    pub(crate) fn is_full(&self) -> bool {
        self.kernel.count() as usize > self.limit
    }

    /// Gives the kernel the clauses that were added behind the first so many.
    pub(crate) fn load(&mut self, formula: &GrowingFormula, loaded: usize) -> Result<(), AllocError>
        requires { IsLoaded formula.now.clauses (take loaded formula.now.clauses) self.old }
        ensures loaded { OnOk result (IsLoaded formula.now.clauses formula.now.clauses self.new) }
        ensures vars { OnOk result (formula.now.vars ≤ self.new.kernel.vars) }
    {
        self.renew_where_due(formula, loaded)?;
        self.choice.widen(self.kernel.vars(), formula.vars());
        Ok(())
    }

    /// Puts the clauses that the kernel lacks into it, or opens it anew.
    fn renew_where_due(&mut self, formula: &GrowingFormula, loaded: usize) -> Result<(), AllocError>
        requires { IsLoaded formula.now.clauses (take loaded formula.now.clauses) self.old }
        ensures loaded { OnOk result (IsLoaded formula.now.clauses formula.now.clauses self.new) }
        ensures vars { OnOk result (formula.now.vars ≤ self.new.kernel.vars) }
    {
        if self.is_due(formula, loaded) {
            self.renew(formula)?;
            return Ok(());
        }
        if self.put_rest(formula, loaded)? {
            return Ok(());
        }
        self.renew(formula)?;
        Ok(())
    }

    /// Lets the next search begin with these values, of the numbers from 0 on, once the kernel has all
    /// clauses.
    pub(crate) fn prefer(
        &mut self,
        formula: &GrowingFormula,
        loaded: &mut usize,
        values: &[bool],
    ) -> Result<(), AllocError>
        requires { IsLoaded formula.now.clauses (take loaded.old formula.now.clauses) self.old }
        ensures loaded { OnOk result (IsLoaded formula.now.clauses (take loaded.new formula.now.clauses) self.new) }
        ensures within { OnOk result (loaded.new ≤ length formula.now.clauses) }
    {
        self.load(formula, *loaded)?;
        *loaded = formula.clause_count();
        self.choice.take_saved(self.kernel.vars(), values);
        Ok(())
    }

    /// Whether the kernel has to be opened anew: for want of variables, or since it has too many
    /// clauses; or whether that takes less time than to put in what it lacks, one clause after the
    /// other: each takes a step for each clause of one literal, and opening one for each literal.
    fn is_due(&self, formula: &GrowingFormula, loaded: usize) -> bool
        ensures { result ≡ false → formula.now.vars ≤ self.now.kernel.vars }
    {
        if formula.vars() > self.kernel.vars() || self.is_full() {
            return true;
        }
        let pending = formula.clause_count().saturating_sub(loaded);
        pending > loaded / 4 || pending.saturating_mul(self.units) > formula.literal_count()
    }

    /// Puts in the clauses behind the first so many, as far as the first empty one. Whether all are
    /// put.
    fn put_rest(&mut self, formula: &GrowingFormula, loaded: usize) -> Result<bool, AllocError>
        requires loaded { IsLoaded formula.now.clauses (take loaded formula.now.clauses) self.old }
        requires vars { formula.now.vars ≤ self.old.kernel.vars }
        ensures all { IfOk result (λ all. all ≡ true → IsLoaded formula.now.clauses formula.now.clauses self.new) }
        ensures part { IfOk result (λ all. all ≡ false → IsLoaded formula.now.clauses (take loaded formula.now.clauses) self.new) }
        ensures vars { OnOk result (self.new.kernel.vars ≡ self.old.kernel.vars) }
    {
        if loaded >= formula.clause_count() {
            return Ok(true);
        }
        let alloc = *self.marked.allocator();
        let all = put_from(alloc, &mut self.kernel, &mut self.held, formula, loaded)?;
        note_added(&mut self.glues, self.kernel.count() as usize)?;
        self.units = self.units.saturating_add(units_from(formula, loaded));
        Ok(all)
    }

    /// The greatest glue of the learnt clauses that are kept.
    fn most_glue(&self) -> u32 {
        if self.is_full() {
            middle_glue(&self.glues).max(KEPT_GLUE)
        } else {
            u32::MAX
        }
    }

    /// Opens the kernel anew, over all clauses added and over learnt ones: where there are too many
    /// of these, over those of small glue. It takes time by all of them.
    fn renew(&mut self, formula: &GrowingFormula) -> Result<(), AllocError>
        requires { (D : List Clause) × IsLoaded formula.now.clauses D self.old }
        ensures loaded { OnOk result (IsLoaded formula.now.clauses formula.now.clauses self.new) }
        ensures vars { OnOk result (formula.now.vars ≤ self.new.kernel.vars) }
    {
        let alloc = *self.marked.allocator();
        let most = self.most_glue();
        let room = room_for(self.kernel.vars(), formula.vars());
        let mut clauses = Formula::without_clauses(alloc, room);
        self.kernel.keep_learnt()?;
        self.kernel.restart(&self.facts)?;
        put_added(&self.kernel, formula, &mut clauses)?;
        let mut glues = vec![in alloc; 0; clauses.clause_count()]?;
        put_learnt(&self.kernel, &self.glues, most, &mut clauses, &mut glues)?;
        self.make_room(alloc, room)?;
        self.before = self.counts();
        self.kernel = open_kernel(alloc, &clauses)?;
        self.glues = glues;
        let count = clauses.clause_count();
        self.limit = count.saturating_add(count / 3).saturating_add(LEARNT);
        self.units = units_in(&clauses);
        Ok(())
    }

    /// Makes room for more variables beside the kernel, if it has fewer. Their scores begin anew
    /// then; the values that variables had last stay.
    fn make_room(&mut self, alloc: Global, room: u32) -> Result<(), AllocError>
        requires fit { IsFit self.old }
        requires more { self.old.kernel.vars ≤ room }
        ensures same { self.new ≡ record self.old { lessons = self.new.lessons; choice = self.new.choice; marked = self.new.marked } }
        ensures lessons { OnOk result (self.new.lessons.vars ≡ room) }
        ensures choice { OnOk result (HasChoice room self.new.choice) }
        ensures marked { OnOk result (length self.new.marked.items ≡ room + 1) }
    {
        if self.kernel.vars() >= room {
            return Ok(());
        }
        let mut choice = Choice::open(alloc, room)?;
        choice.take_saved(room, &self.choice.saved);
        let lessons = Lessons::open(alloc, room)?;
        let marked = vec![in alloc; false; room as usize + 1]?;
        self.lessons = lessons;
        self.choice = choice;
        self.marked = marked;
        Ok(())
    }
}

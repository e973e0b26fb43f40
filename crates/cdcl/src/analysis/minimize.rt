//! Which literals of a set follow from its others, by their reasons, so that a learnt clause does
//! without them. Minimisation of Sörensson and Biere (SAT 2009), without recursion.
ghost use Rattle.std.specs.Prelude.{◌≡◌, ◌<◌, ◌≤◌, ◌+◌, ◌++◌, ◌∷◌, ◌||◌, ◌⊎◌, ℕ, Bool, true, false, [], All, IfOk, OnOk, length, get_or, nat_eq, slice_index_or, Some, None};
ghost use Rattle.theory.specs.Literals.{Clause, has_var};
ghost use Rattle.theory.specs.Trails.{Entry, entry_of, level_of, current_level};
ghost use Rattle.cdcl.specs.Numbers.{is_one_of};
ghost use Rattle.cdcl.specs.Marks.{IsMarked, AreSeen};
ghost use Rattle.cdcl.specs.Removing.{removable_of, IsBetween, IsKnown, IsAsking, IsReasonOf, IsAnswered, HasRoomFor, Reaches, KnowsStill, KnowsAll, is_known, is_covered_by, reason_at};
ghost use Rattle.cdcl.specs.declared.analysis.minimize.Standing.TheVariants.{Covered, Kept, Unknown};

use crate::analysis::marks::Marks;
use crate::analysis::numbers::Numbers;
use crate::search::tally::Total;
use cnf::{Lit, put_last};
use kernel::SearchKernel;
use std::alloc::{AllocError, Global};

/// What is known of the variables between level 0 and the current one, for one conflict.
///
/// A literal is removable if the other literals of its reason are of level 0, in the set, or
/// removable. A question reaches all that the reason needs, and all that those reasons need, until
/// nothing is left to be reached, or something is reached that isn't removable. Its answer is kept:
/// a variable is asked for once in a conflict, and so is each one on the way to what wasn't removable.
pub(crate) struct Minimizer {
    /// Variables whose literals are removable.
    pub(crate) removable: Numbers,
    /// Variables whose literals aren't.
    pub(crate) kept: Numbers,
    /// The variables that a question has reached, in this order, the one asked for first.
    pub(crate) reached: Numbers,
    /// For each of these the place there of the one whose reason has it.
    pub(crate) parents: Vec<usize>,
    /// How many literals were removed from learnt clauses.
    removed: Total,
}

// written out, so that proofs of its owners stay short (docs/PROVING.md)
impl Drop for Minimizer {
    fn drop(self) {
        let Minimizer {
            removable: _,
            kept: _,
            reached: _,
            parents: _,
            removed: _,
        } = self;
    }
}

/// How a literal of a reason stands.
enum Standing {
    /// It is of level 0, in the set, removable, or reached.
    Covered,
    /// It is none of these, and isn't removable.
    Kept,
    /// It isn't known, and has a reason.
    Unknown,
}

/// The reason of a variable.
fn reason_at(kernel: &SearchKernel, var: u32) -> Option<u64>
    ensures { result ≡ reason_at (entry_of kernel.now.trail var) }
{
    match kernel.entry(var) {
        Some(entry) => entry.reason,
        None => None,
    }
}

/// How a literal of a reason stands.
fn standing_of(kernel: &SearchKernel, marks: &Marks, removing: &Minimizer, lit: Lit) -> Standing
    requires marks { lit.var < length marks.now.marked.items }
    requires room { (lit.var < removing.now.removable.bound) × (lit.var < removing.now.kept.bound) × (lit.var < removing.now.reached.bound) }
    ensures covered { result ≡ Covered → is_covered_by kernel.now.trail marks.now.marked.items removing.now lit ≡ true }
    ensures kept { result ≡ Kept → (is_one_of removing.now.reached.numbers lit.var ≡ false) × (nat_eq (level_of kernel.now.trail lit) 0 ≡ false) × (slice_index_or marks.now.marked.items lit.var false ≡ false)
        × ((is_one_of removing.now.kept.numbers lit.var ≡ true) ⊎ ((e : Entry) × (entry_of kernel.now.trail lit.var ≡ Some e) × (e.reason ≡ None))) }
    ensures unknown { result ≡ Unknown → (is_one_of removing.now.reached.numbers lit.var ≡ false)
        × (nat_eq (level_of kernel.now.trail lit) 0 ≡ false) × (slice_index_or marks.now.marked.items lit.var false ≡ false)
        × ((e : Entry) × (n : ℕ) × (entry_of kernel.now.trail lit.var ≡ Some e) × (1 ≤ e.level) × (e.reason ≡ Some n)) }
{
    let var = lit.var();
    if marks.marked[var as usize]
        || removing.removable.contains(var)
        || removing.reached.contains(var)
    {
        return Standing::Covered;
    }
    let Some(entry) = kernel.entry(var) else {
        return Standing::Covered;
    };
    if entry.level == 0 {
        Standing::Covered
    } else if entry.reason.is_none() || removing.kept.contains(var) {
        Standing::Kept
    } else {
        Standing::Unknown
    }
}

impl Minimizer {
    /// Room for variables below a number.
    pub(crate) fn with_room(alloc: Global, bound: usize) -> Result<Minimizer, AllocError>
        ensures { IfOk result (λ a. (a.removable.bound ≡ bound) × (a.kept.bound ≡ bound) × (a.reached.bound ≡ bound)) }
    {
        Ok(Minimizer {
            removable: Numbers::with_room(alloc, bound)?,
            kept: Numbers::with_room(alloc, bound)?,
            reached: Numbers::with_room(alloc, bound)?,
            parents: Vec::new(alloc),
            removed: Total::none(),
        })
    }

    /// So many literals of a set are removed.
    pub(crate) fn add_removed(&mut self, count: usize)
        ensures { self.new ≡ self.old }
    {
        self.removed.add(count);
    }

    /// How many literals were removed so far.
    pub(crate) fn removed(&self) -> u64 {
        self.removed.count()
    }

    /// Forgets what is known, for the next conflict.
    fn clear(&mut self)
        ensures removable { self.new.removable ≡ record self.old.removable { numbers = [] } }
        ensures kept { self.new.kept ≡ record self.old.kept { numbers = [] } }
        ensures reached { self.new.reached ≡ self.old.reached }
    {
        self.removable.clear();
        self.kept.clear();
    }

    /// Begins a question for a variable.
    fn begin(&mut self, root: u32) -> Result<(), AllocError>
        requires room { root < self.old.reached.bound }
        ensures reached { OnOk result (self.new.reached ≡ record self.old.reached { numbers = root ∷ [] }) }
        ensures parents { OnOk result (self.new.parents.items ≡ 0 ∷ []) }
        ensures removable { self.new.removable ≡ self.old.removable }
        ensures kept { self.new.kept ≡ self.old.kept }
    {
        self.reached.clear();
        self.parents.clear();
        self.reach(root, 0)
    }

    /// A variable that wasn't reached is, by the reason of the one at a place.
    fn reach(&mut self, var: u32, parent: usize) -> Result<(), AllocError>
        requires room { var < self.old.reached.bound }
        requires is_new { is_one_of self.old.reached.numbers var ≡ false }
        ensures reached { OnOk result (self.new.reached ≡ record self.old.reached { numbers = self.old.reached.numbers ++ var ∷ [] }) }
        ensures parents { OnOk result (self.new.parents.items ≡ self.old.parents.items ++ parent ∷ []) }
        ensures removable { self.new.removable ≡ self.old.removable }
        ensures kept { self.new.kept ≡ self.old.kept }
    {
        self.reached.insert(var)?;
        put_last(&mut self.parents, parent)?;
        Ok(())
    }

    /// All that was reached is removable.
    fn accept(&mut self) -> Result<(), AllocError>
        requires room { self.old.reached.bound ≤ self.old.removable.bound }
        ensures removable { OnOk result ((v : ℕ) → is_one_of self.new.removable.numbers v
            ≡ (is_one_of self.old.reached.numbers v || is_one_of self.old.removable.numbers v)) }
        ensures bound { self.new.removable.bound ≡ self.old.removable.bound }
        ensures kept { self.new.kept ≡ self.old.kept }
        ensures reached { self.new.reached ≡ self.old.reached }
    {
        for at in 0..self.reached.list().len() {
            let var = self.reached.list()[at];
            self.removable.insert(var)?;
        }
        Ok(())
    }

    /// What was reached at a place isn't removable, and so isn't what led there.
    fn refuse(&mut self, at: usize) -> Result<(), AllocError>
        requires inside { at < length self.old.reached.numbers }
        requires room { self.old.reached.bound ≤ self.old.kept.bound }
        requires parents { (length self.old.parents.items ≡ length self.old.reached.numbers)
            × ((i : ℕ) → 1 ≤ i → i < length self.old.reached.numbers → get_or self.old.parents.items i 0 < i) }
        ensures first { OnOk result (is_one_of self.new.kept.numbers (get_or self.old.reached.numbers 0 0) ≡ true) }
        ensures more { OnOk result ((v : ℕ) → is_one_of self.old.kept.numbers v ≡ true → is_one_of self.new.kept.numbers v ≡ true) }
        ensures kept { OnOk result ((p : ℕ → Bool) → p (get_or self.old.reached.numbers at 0) ≡ false
            → ((i : ℕ) → 1 ≤ i → i < length self.old.reached.numbers → p (get_or self.old.reached.numbers i 0) ≡ false → p (get_or self.old.reached.numbers (get_or self.old.parents.items i 0) 0) ≡ false)
            → ((v : ℕ) → is_one_of self.old.kept.numbers v ≡ true → p v ≡ false) → (v : ℕ) → is_one_of self.new.kept.numbers v ≡ true → p v ≡ false) }
        ensures bound { self.new.kept.bound ≡ self.old.kept.bound }
        ensures removable { self.new.removable ≡ self.old.removable }
        ensures reached { self.new.reached ≡ self.old.reached }
    {
        let mut at = at;
        'parents: loop {
            self.kept.insert(self.reached.list()[at])?;
            if at == 0 {
                return Ok(());
            }
            at = self.parents[at];
        }
    }

    /// Whether all literals of the reason at a place are covered, where those that aren't known are
    /// reached.
    fn reach_all(
        &mut self,
        kernel: &SearchKernel,
        marks: &Marks,
        clause: &[Lit],
        at: usize,
    ) -> Result<bool, AllocError>
        requires asking { (S : Clause) × IsMarked kernel.now S marks.now.marked.items marks.now.current × IsAsking kernel.now S marks.now.marked.items self.old at }
        requires room { HasRoomFor kernel.now.vars self.old }
        requires inside { at < length self.old.reached.numbers }
        requires reason { IsReasonOf kernel.now (get_or self.old.reached.numbers at 0) clause.now }
        ensures asking { IfOk result (λ all. (S : Clause) → IsMarked kernel.now S marks.now.marked.items marks.now.current → IsAsking kernel.now S marks.now.marked.items self.old at
            → IsAnswered kernel.now S marks.now.marked.items at all self.new) }
        ensures reaches { OnOk result (Reaches self.old self.new) }
        ensures known { OnOk result (KnowsStill self.old self.new) }
        ensures room { OnOk result (HasRoomFor kernel.now.vars self.new) }
    {
        let _trail = kernel.trail(); // it ensures what the proof needs of the trail
        for lit in clause {
            match standing_of(kernel, marks, self, *lit) {
                Standing::Covered => {}
                Standing::Kept => return Ok(false),
                Standing::Unknown => self.reach(lit.var(), at)?,
            }
        }
        Ok(true)
    }

    /// Whether all that is needed at a place is covered, where what isn't known is reached.
    fn go_through(
        &mut self,
        kernel: &SearchKernel,
        marks: &Marks,
        at: usize,
    ) -> Result<bool, AllocError>
        requires asking { (S : Clause) × IsMarked kernel.now S marks.now.marked.items marks.now.current × IsAsking kernel.now S marks.now.marked.items self.old at }
        requires room { HasRoomFor kernel.now.vars self.old }
        requires inside { at < length self.old.reached.numbers }
        ensures asking { IfOk result (λ all. (S : Clause) → IsMarked kernel.now S marks.now.marked.items marks.now.current → IsAsking kernel.now S marks.now.marked.items self.old at
            → IsAnswered kernel.now S marks.now.marked.items at all self.new) }
        ensures reaches { OnOk result (Reaches self.old self.new) }
        ensures known { OnOk result (KnowsStill self.old self.new) }
        ensures room { OnOk result (HasRoomFor kernel.now.vars self.new) }
    {
        let _trail = kernel.trail(); // it ensures what the proof needs of the trail
        let var = self.reached.list()[at];
        match reason_at(kernel, var) {
            None => Ok(false),
            Some(number) => {
                let all = self.reach_all(kernel, marks, kernel.arranged(number), at)?;
                Ok(all)
            }
        }
    }

    /// Asks whether the literal of a variable is removable. It is known then.
    fn ask(&mut self, kernel: &SearchKernel, marks: &Marks, root: u32) -> Result<(), AllocError>
        requires set { (S : Clause) × IsMarked kernel.now S marks.now.marked.items marks.now.current × IsKnown kernel.now S self.old }
        requires between { IsBetween kernel.now root }
        requires room { HasRoomFor kernel.now.vars self.old }
        ensures known { OnOk result ((S : Clause) → IsMarked kernel.now S marks.now.marked.items marks.now.current → IsKnown kernel.now S self.old → IsKnown kernel.now S self.new) }
        ensures answered { OnOk result (is_known self.new root ≡ true) }
        ensures still { OnOk result (KnowsStill self.old self.new) }
        ensures room { OnOk result (HasRoomFor kernel.now.vars self.new) }
    {
        let _trail = kernel.trail(); // it ensures what the proof needs of the trail
        self.begin(root)?;
        let mut at = 0;
        while at < self.reached.list().len() {
            if !self.go_through(kernel, marks, at)? {
                self.refuse(at)?;
                return Ok(());
            }
            at += 1;
        }
        self.accept()?;
        Ok(())
    }

    /// Asks for a variable of the set, if its literal may be removable, and isn't known yet.
    fn ask_for(
        &mut self,
        kernel: &SearchKernel,
        marks: &Marks,
        level: u32,
        var: u32,
    ) -> Result<(), AllocError>
        requires level { level ≡ current_level kernel.now.trail }
        requires var { var ≤ kernel.now.vars }
        requires set { (S : Clause) × IsMarked kernel.now S marks.now.marked.items marks.now.current × IsKnown kernel.now S self.old }
        requires room { HasRoomFor kernel.now.vars self.old }
        ensures known { OnOk result ((S : Clause) → IsMarked kernel.now S marks.now.marked.items marks.now.current → IsKnown kernel.now S self.old → IsKnown kernel.now S self.new) }
        ensures answered { OnOk result (IsBetween kernel.now var → is_known self.new var ≡ true) }
        ensures still { OnOk result (KnowsStill self.old self.new) }
        ensures room { OnOk result (HasRoomFor kernel.now.vars self.new) }
    {
        let Some(entry) = kernel.entry(var) else {
            return Ok(());
        };
        if entry.level == 0 || entry.level >= level || entry.reason.is_none() {
            return Ok(());
        }
        if self.removable.contains(var) || self.kept.contains(var) {
            return Ok(());
        }
        self.ask(kernel, marks, var)?;
        Ok(())
    }

    /// Asks for each variable of the set.
    pub(crate) fn ask_for_all(
        &mut self,
        kernel: &SearchKernel,
        marks: &Marks,
    ) -> Result<(), AllocError>
        requires set { (S : Clause) × IsMarked kernel.now S marks.now.marked.items marks.now.current × AreSeen kernel.now.vars S marks.now.seen.items }
        requires room { HasRoomFor kernel.now.vars self.old }
        ensures known { OnOk result ((S : Clause) → IsMarked kernel.now S marks.now.marked.items marks.now.current → IsKnown kernel.now S self.new) }
        ensures all { OnOk result ((S : Clause) → IsMarked kernel.now S marks.now.marked.items marks.now.current → AreSeen kernel.now.vars S marks.now.seen.items → KnowsAll kernel.now S self.new) }
        ensures room { OnOk result (HasRoomFor kernel.now.vars self.new) }
    {
        self.clear();
        let level = kernel.level();
        for at in 0..marks.seen.len() {
            let var = marks.seen[at];
            if marks.marked[var as usize] {
                self.ask_for(kernel, marks, level, var)?;
            }
        }
        Ok(())
    }
}

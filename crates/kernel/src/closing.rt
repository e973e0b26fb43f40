//! Propagation: unit clauses put their literals on the trail, one after the other, in an order.
//!
//! Clauses that are found unit in the visits of lists wait in line, each with the literal that it
//! is unit in and with its place as the trail then is. Both stay right while it is unit: what comes
//! onto the trail later makes none of its literals false but that one. So the line is in order
//! whatever made a clause unit, also where several entries were served at once, as a cube's, and no
//! clause is read once more when its turn comes. In the order of numbers each place is 0.
ghost use Rattle.std.specs.Prelude.{◌≡◌, ◌+◌, ◌<◌, ◌≤◌, ◌*◌, ◌∷◌, [], ◌++◌, All, IfOk, OnOk, IfSome, IfNone, Some, None, length, ℕ};
ghost use Rattle.std.specs.List.{Contains};
ghost use Rattle.std.specs.List.Sorted.{IsPermutation};
ghost use Rattle.theory.specs.Truth.{IsOver};
ghost use Rattle.theory.specs.Trails.{literals, current_level};
ghost use Rattle.theory.specs.Propagation.{Propagates};
ghost use Rattle.theory.specs.Lawful.{IsLawful};
ghost use Rattle.theory.specs.Propagation as closing;
ghost use Rattle.theory.specs.Trails as closing_trails;
ghost use Rattle.kernel.specs.Answer.{closed_of};
ghost use Rattle.kernel.specs.Rules.{rule_of};
ghost use Rattle.theory.specs.Literals.{Clause};
ghost use Rattle.kernel.specs.declared.order.Order.{Order};
ghost use Rattle.kernel.specs.Watching.{At, IsServed, WasUnit};
ghost use Rattle.kernel.specs.Visiting.{kept_of, tending, AreEntries};
ghost use Rattle.kernel.specs.Placing.{clauses_of, kept_with, place_in, IsLastOf, AreInLine};

use crate::closed::Closed;
use crate::order::Order;
use crate::propagator::{Propagator, Unit};
use crate::units::last_false::{last_place, open_literal};
use crate::units::unit_queue::{UnitQueue, Waiting};
use cnf::Lit;
use std::alloc::AllocError;
use trail::{Entry, Trail};

/// The place with which a unit clause waits.
fn waiting_place(order: Order, trail: &Trail, lits: &[Lit]) -> usize
    requires { IsOver trail.now.vars lits.now }
    ensures { result ≡ place_in order trail.now.entries lits.now }
{
    match order {
        Order::ByNumber => 0,
        Order::ByPlace => last_place(trail, lits),
    }
}

impl Propagator {
    /// A unit clause as it waits in line.
    fn waiting(&self, order: Order, trail: &Trail, clause: u32) -> Waiting
        requires over { All (IsOver trail.now.vars) self.now.clauses.given }
        requires within { clause < length self.now.clauses.given }
        requires unit { (c : Clause) → At self.now.clauses.given clause c → WasUnit (literals trail.now.entries) c }
        ensures clause { result.clause ≡ clause }
        ensures waits { (c : Clause) → At self.now.clauses.given clause c → IsLastOf (literals trail.now.entries) c result.lit × (result.place ≡ place_in order trail.now.entries c) }
    {
        let lits = self.clauses.arranged(clause as usize);
        let lit = open_literal(trail, lits);
        let place = waiting_place(order, trail, lits);
        Waiting { place, clause, lit }
    }

    /// Puts the clauses in line that were learnt or that wait from the beginning on.
    fn line_up(
        &mut self,
        order: Order,
        trail: &Trail,
        line: &mut UnitQueue,
    ) -> Result<(), AllocError>
        requires over { All (IsOver trail.now.vars) self.old.clauses.given }
        requires units { (n : ℕ) → Contains self.old.units n → (n < length self.old.clauses.given) × ((c : Clause) → At self.old.clauses.given n c → WasUnit (literals trail.now.entries) c) }
        ensures waiting { OnOk result (IsPermutation (clauses_of line.old ++ self.old.units) (clauses_of line.new)) }
        ensures units { OnOk result (self.new.units ≡ []) }
        ensures line { OnOk result (AreInLine order self.old.clauses.given trail.now.entries line.old → AreInLine order self.old.clauses.given trail.now.entries line.new) }
        ensures kept { (self.new.clauses.given ≡ self.old.clauses.given) × (self.new.clauses.pairs ≡ self.old.clauses.pairs) × (self.new.lists ≡ self.old.lists) × (self.new.conflict ≡ self.old.conflict) }
    {
        while let Some(clause) = self.units.pop() {
            let waiting = self.waiting(order, trail, clause);
            line.push(waiting)?;
        }
        Ok(())
    }

    /// The unit clause that goes first, taken out of the line; stale ones are dropped.
    // Inlined, so that its number and literal are in registers: as an answer in memory they were
    // read together right after they had been written one by one, for which a processor waits.
    #[inline(always)]
    fn next_in_line(&self, trail: &Trail, line: &mut UnitQueue) -> Option<Unit>
        requires none { self.now.conflict ≡ None }
        requires over { All (IsOver trail.now.vars) self.now.clauses.given }
        requires line { (o : Order) × AreInLine o self.now.clauses.given trail.now.entries line.old }
        requires served { (floor : ℕ) × IsServed floor self.now.clauses.given trail.now.entries (length trail.now.entries) (record (tending (kept_of self.now)) { units = clauses_of line.old }) }
        ensures none { IfNone result ((o : Order) → rule_of o trail.now.entries self.now.clauses.given ≡ None) }
        ensures empty { IfNone result (line.new ≡ []) }
        ensures rest { IfNone result ((floor : ℕ) → IsServed floor self.now.clauses.given trail.now.entries (length trail.now.entries) (record (tending (kept_of self.now)) { units = clauses_of line.old })
            → IsServed floor self.now.clauses.given trail.now.entries (length trail.now.entries) (record (tending (kept_of self.now)) { units = [] })) }
        ensures unit { IfSome result (λ u. (o : Order) → AreInLine o self.now.clauses.given trail.now.entries line.old → rule_of o trail.now.entries self.now.clauses.given ≡ Some (u.clause + 1, u.lit)) }
        ensures grows { IfSome result (λ u. (floor : ℕ) (e : closing_trails.Entry) → e.lit ≡ u.lit → e.level ≡ current_level trail.now.entries
            → IsServed floor self.now.clauses.given trail.now.entries (length trail.now.entries) (record (tending (kept_of self.now)) { units = clauses_of line.old })
            → IsServed floor self.now.clauses.given (trail.now.entries ++ e ∷ []) (length trail.now.entries) (record (tending (kept_of self.now)) { units = clauses_of line.new })) }
        ensures line { IfSome result (λ u. (o : Order) (e : closing_trails.Entry) → e.lit ≡ u.lit → AreInLine o self.now.clauses.given trail.now.entries line.old → AreInLine o self.now.clauses.given (trail.now.entries ++ e ∷ []) line.new) }
    {
        let _trail = trail.entries(); // it ensures what the proof needs of the trail
        while let Some(waiting) = line.pop() {
            let clause = waiting.clause;
            let lit = waiting.lit;
            if trail.truth(lit).is_none() {
                return Some(Unit { clause, lit });
            }
        }
        None
    }

    /// Propagation from a trail of which the entries before `served` were served: puts the literals
    /// of unit clauses on the trail, each time that of the one which goes first in the order, until
    /// a clause is false or none is unit. Nothing is in line before it and behind it.
    pub fn close(
        &mut self,
        order: Order,
        trail: &mut Trail,
        served: usize,
        line: &mut UnitQueue,
    ) -> Result<Closed, AllocError>
        requires inside { served ≤ length trail.old.entries }
        requires line { line.old ≡ [] }
        requires entries { AreEntries self.old.clauses.given (kept_of self.old) }
        requires over { All (IsOver trail.old.vars) self.old.clauses.given }
        requires lists { length self.old.lists ≡ 2 * trail.old.vars + 2 }
        requires served { (floor : ℕ) × IsServed floor self.old.clauses.given trail.old.entries served (tending (kept_of self.old)) }
        ensures closes { IfOk result (λ a. Propagates (rule_of order) self.old.clauses.given trail.old.entries (closed_of a) trail.new.entries) }
        ensures onward { (a : closing.Closed) (U : closing_trails.Trail) → Propagates (rule_of order) self.old.clauses.given trail.new.entries a U → Propagates (rule_of order) self.old.clauses.given trail.old.entries a U }
        ensures lawful { IsLawful self.old.clauses.given trail.old.entries → IsLawful self.old.clauses.given trail.new.entries }
        ensures served { OnOk result ((floor : ℕ) → IsServed floor self.old.clauses.given trail.old.entries served (tending (kept_of self.old))
            → IsServed floor self.old.clauses.given trail.new.entries (length trail.new.entries) (tending (kept_of self.new))) }
        ensures entries { OnOk result (AreEntries self.old.clauses.given (kept_of self.new)) }
        ensures line { OnOk result (line.new ≡ []) }
        ensures vars { trail.new.vars ≡ trail.old.vars }
        ensures kept { (self.new.clauses.given ≡ self.old.clauses.given) × (length self.new.lists ≡ length self.old.lists) }
    {
        self.line_up(order, trail, line)?;
        let level = trail.level();
        let mut served = served;
        'steps: loop {
            self.serve_from(order, trail, served, line)?;
            served = trail.entries().len();
            if let Some(clause) = self.conflict {
                line.clear();
                return Ok(Closed::Conflict(clause as u64 + 1));
            }
            match self.next_in_line(trail, line) {
                None => return Ok(Closed::Quiet),
                Some(unit) => trail.push(Entry {
                    lit: unit.lit,
                    reason: Some(unit.clause as u64 + 1),
                    level,
                }),
            }
        }
    }
}

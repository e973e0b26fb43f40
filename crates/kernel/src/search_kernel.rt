//! The kernel of a search: the clauses and the trail of one cube, or of one cube after the other.
ghost use Rattle.std.specs.Prelude.{◌≡◌, ◌+◌, ◌<◌, ◌≤◌, true, false, None, [], ◌∷◌, ◌++◌, length, take, All, IfOk, IfSome, IfNone, OnOk, OnErr, IsErr, slice_get, if◌then◌else◌, ◌⊎◌};
ghost use Rattle.std.specs.Option.{option_map};
ghost use Rattle.std.specs.List.Sorted.{IsPermutation};
ghost use Rattle.theory.specs.Literals.{IsVariable, IsCube, has_var};
ghost use Rattle.theory.specs.Truth.{IsOver};
ghost use Rattle.theory.specs.Pure.{unit_clauses};
ghost use Rattle.theory.specs.Trails.{literals, current_level, entry_of, cube_trail, up_to, least_free};
ghost use Rattle.theory.specs.Propagation.{clause_at, Propagates, quiet};
ghost use Rattle.theory.specs.Lawful.{IsLawful};
ghost use Rattle.theory.specs.Reading.{large, max_vars};
ghost use Rattle.theory.specs.Propagation as closing;
ghost use Rattle.theory.specs.Trails as trails;
ghost use Rattle.kernel.specs.Answer.{closed_of};
ghost use Rattle.kernel.specs.Rules.{rule_of};

use crate::closed::Closed;
use crate::counts::Counts;
use crate::order::Order;
use crate::propagator::Propagator;
use crate::units::unit_queue::UnitQueue;
use crate::watches::attach::ListCapacities;
use cnf::{Formula, Lit};
use std::alloc::{AllocError, Global};
use std::marker::Model;
use trail::{Cube, Entry, Trail};

/// The clauses and the trail of the search in one cube, or in one cube after the other. Each clause
/// is kept once, with its literals in an order of the kernel's own. Once a call has met want of
/// memory, `close`, `learn`, `learn_unit`, `keep_learnt`, `forget` and `restart` answer it from then
/// on, `decide` and `back_to` change nothing, and the other calls answer of the trail as it stands.
pub struct SearchKernel {
    // the clauses, and their watches
    pub(crate) propagator: Propagator,
    // which unit clause propagation takes first
    order: Order,
    // those that wait by place, while propagation goes on; empty between two calls
    line: UnitQueue,
    // how many of the clauses stay when a cube begins: the formula's, the units behind them, and
    // what was learnt and is kept; the others were learnt
    pub(crate) first: usize,
    // those of one literal among them, which wait as units when a cube begins
    pub(crate) singles: Vec<u32>,
    // the first empty one among them
    empty: Option<u32>,
    pub(crate) trail: Trail,
    // how many entries of the trail were served: the clauses that watch the negation of their
    // literal were visited
    served: usize,
    // how many entries of an earlier level's trail count as served at most; no bound unless a
    // decision was made before all were
    floor: usize,
    // whether a call has met want of memory
    pub(crate) out_of_memory: bool,
    // what was done; nothing goes by it
    pub(crate) counts: Counts,
}

// written out, so that proofs of its owners stay short (docs/PROVING.md)
impl Drop for SearchKernel {
    fn drop(self) {
        let SearchKernel {
            propagator: _,
            order: _,
            line: _,
            first: _,
            singles: _,
            empty: _,
            trail: _,
            served: _,
            floor: _,
            out_of_memory: _,
            counts: _,
        } = self;
    }
}

impl Model for SearchKernel {
    ghost use Rattle.std.specs.Prelude.{◌≡◌, ◌≤◌, All, length, false, []};
    ghost use Rattle.theory.specs.Truth.{IsOver};
    ghost use Rattle.theory.specs.Trails.{literals};
    ghost use Rattle.theory.specs.Lawful.{IsLawful};
    ghost use Rattle.kernel.specs.State.{State};
    ghost use Rattle.kernel.specs.Visiting.{kept_of};
    ghost use Rattle.kernel.specs.Attaching.{IsWatching};

    ghost Value = { State };

    ghost view = { λ a. record {
      vars = a.trail.vars;
      order = a.order;
      first = a.first;
      clauses = a.propagator.clauses.given;
      trail = a.trail.entries;
      out_of_memory = a.out_of_memory;
    } };

    ghost invariant = { λ a.
        IsLawful a.propagator.clauses.given a.trail.entries × All (IsOver a.trail.vars) a.propagator.clauses.given × (a.first ≤ length a.propagator.clauses.given)
        × (a.out_of_memory ≡ false → IsWatching a.trail.vars a.first a.propagator.clauses.given a.trail.entries a.served a.floor (kept_of a.propagator) a.singles.items a.empty)
        × (a.out_of_memory ≡ false → a.line ≡ []) };
}

/// Puts a cube's literals on a trail without entries.
fn put_cube(trail: &mut Trail, lits: &[Lit])
    requires empty { trail.old.entries ≡ [] }
    requires cube { IsCube lits.now }
    requires over { IsOver trail.old.vars lits.now }
    ensures entries { trail.new.entries ≡ cube_trail lits.now }
    ensures vars { trail.new.vars ≡ trail.old.vars }
{
    for lit in lits {
        trail.push(Entry {
            lit: *lit,
            reason: None,
            level: 0,
        });
    }
}

/// How many entries of the earlier levels count as served at most, once a decision was made: no
/// fewer than before, where all were.
fn floor_of(floor: usize, served: usize, entries: usize) -> usize
    ensures { ((entries ≤ served) × (result ≡ floor)) ⊎ ((result ≤ served) × (result ≤ floor)) }
{
    if served < entries {
        floor.min(served)
    } else {
        floor
    }
}

impl SearchKernel {
    /// The kernel of a formula and a cube, for propagation in an order: the formula's clauses,
    /// behind them a clause of one literal for each of the units, and the cube's literals on the
    /// trail at level 0. The units are of distinct variables; their clauses stay for each cube, as
    /// the formula's do. It takes time by the literals, and memory for them and for one entry of
    /// each variable; it fails where that is refused.
    pub fn open(
        alloc: Global,
        formula: &Formula,
        units: &[Lit],
        cube: &Cube,
        order: Order,
    ) -> Result<SearchKernel, AllocError>
        requires cube { IsOver formula.now.vars cube.now }
        requires units { IsCube units.now × IsOver formula.now.vars units.now }
        ensures opened { IfOk result (λ k. k ≡ record {
          vars = formula.now.vars;
          order = order;
          first = length (formula.now.clauses ++ unit_clauses units.now);
          clauses = formula.now.clauses ++ unit_clauses units.now;
          trail = cube_trail cube.now;
          out_of_memory = false;
        }) }
        ensures lawful { IfOk result (λ k.
            IsLawful k.clauses k.trail × IsOver k.vars (literals k.trail) × All (IsOver k.vars) k.clauses) }
        ensures few { IfOk result (λ k. k.vars ≤ max_vars large) }
    {
        let vars = formula.vars();
        let room = ListCapacities::of(alloc, 2 * vars as usize + 2, formula, units)?;
        let mut singles = Vec::with_capacity(alloc, room.singles)?;
        let mut propagator = Propagator::with_room(alloc, room, formula, units)?;
        propagator.attach_all(formula, &mut singles)?;
        propagator.attach_units(units, &mut singles)?;
        let empty = propagator.conflict;
        let mut trail = Trail::with_room(alloc, vars)?;
        put_cube(&mut trail, cube.lits());
        Ok(SearchKernel {
            first: propagator.clauses.len(),
            propagator,
            order,
            line: UnitQueue::new(alloc),
            singles,
            empty,
            trail,
            served: 0,
            floor: usize::MAX,
            out_of_memory: false,
            counts: Counts::none(),
        })
    }

    /// Goes over to another cube of the same formula: takes all entries off the trail, cuts the
    /// learnt clauses off, and puts the cube's literals on the trail at level 0, as if the kernel
    /// were opened anew. It takes time by what the last cube put on the trail and learnt, and by
    /// the cube's literals, and none by the formula. It fails where an earlier call has met want of
    /// memory, or where a request for memory is refused, and from then on.
    pub fn restart(&mut self, cube: &Cube) -> Result<(), AllocError>
        requires { self.old.out_of_memory ≡ false → IsOver self.old.vars cube.now }
        ensures ok { OnOk result (self.new ≡ record self.old {
          clauses = take self.old.first self.old.clauses;
          trail = cube_trail cube.now;
        }) }
        ensures lawful { OnOk result (IsLawful self.new.clauses self.new.trail) }
        ensures over { OnOk result (IsOver self.new.vars (literals self.new.trail)) }
        ensures clauses_over { OnOk result (All (IsOver self.new.vars) self.new.clauses) }
        ensures kept { (self.new.vars ≡ self.old.vars) × (self.new.first ≡ self.old.first) × (self.new.order ≡ self.old.order) }
        ensures refused { OnErr result (self.new.out_of_memory ≡ true) }
        ensures stays { self.old.out_of_memory ≡ true → IsErr result }
        ensures unchanged { self.old.out_of_memory ≡ true → self.new ≡ self.old }
        ensures was { OnOk result (self.old.out_of_memory ≡ false) }
    {
        if self.out_of_memory {
            return Err(AllocError);
        }
        self.trail.clear();
        if let Err(error) = self.propagator.cut(self.first, &self.singles, self.empty) {
            self.out_of_memory = true;
            return Err(error);
        }
        put_cube(&mut self.trail, cube.lits());
        self.served = 0;
        self.floor = usize::MAX;
        Ok(())
    }

    /// Propagation: while no clause is false, the unit clause that goes first in the kernel's order
    /// puts its literal on the trail, with its number as reason, at the current level. The answer
    /// is the false clause of least number, or `Quiet` where none is false or unit. It takes time
    /// by the clauses that watch a literal which became false. It fails where a request for memory
    /// is refused, and from then on; the trail then ends on the way: what propagation leads to from
    /// it, it leads to from the trail before.
    pub fn close(&mut self) -> Result<Closed, AllocError>
        ensures ok { IfOk result (λ a. Propagates (rule_of self.old.order) self.old.clauses self.old.trail (closed_of a) self.new.trail) }
        ensures kept { (self.new.vars ≡ self.old.vars) × (self.new.clauses ≡ self.old.clauses) × (self.new.first ≡ self.old.first)
            × (self.new.order ≡ self.old.order) }
        ensures has_memory { OnOk result (self.new.out_of_memory ≡ false) }
        ensures refused { OnErr result (self.new.out_of_memory ≡ true) }
        ensures stays { self.old.out_of_memory ≡ true → IsErr result }
        ensures unchanged { self.old.out_of_memory ≡ true → self.new.trail ≡ self.old.trail }
        ensures was { OnOk result (self.old.out_of_memory ≡ false) }
        ensures onward { (a : closing.Closed) (U : trails.Trail) → Propagates (rule_of self.old.order) self.old.clauses self.new.trail a U → Propagates (rule_of self.old.order) self.old.clauses self.old.trail a U }
    {
        if self.out_of_memory {
            return Err(AllocError);
        }
        match self
            .propagator
            .close(self.order, &mut self.trail, self.served, &mut self.line)
        {
            Ok(closed) => {
                let served = self.trail.entries().len();
                let gone_over = served.saturating_sub(self.served);
                self.counts.add_propagation(gone_over, closed);
                self.served = served;
                Ok(closed)
            }
            Err(error) => {
                self.out_of_memory = true;
                Err(error)
            }
        }
    }

    /// Makes a free literal true at the next level, without a reason, after propagation came to
    /// rest. It takes no memory.
    pub fn decide(&mut self, lit: Lit)
        requires { self.old.out_of_memory ≡ false →
            IsVariable self.old.vars lit.var × (has_var (literals self.old.trail) lit.var ≡ false)
            × Propagates (rule_of self.old.order) self.old.clauses self.old.trail quiet self.old.trail }
        ensures { self.new ≡ (if self.old.out_of_memory then self.old else record self.old {
          trail =
              self.old.trail ++ record { lit = lit; reason = None; level = current_level self.old.trail + 1 } ∷ [];
        }) }
    {
        if self.out_of_memory {
            return;
        }
        self.floor = floor_of(self.floor, self.served, self.trail.entries().len());
        let level = self.trail.level() + 1;
        self.trail.push(Entry {
            lit,
            reason: None,
            level,
        });
        self.counts.add_decision();
    }

    /// Takes the entries above a level off, which is below the current one. It takes no memory, and
    /// time by the entries taken off.
    pub fn back_to(&mut self, level: u32)
        requires { self.old.out_of_memory ≡ false → level < current_level self.old.trail }
        ensures { self.new ≡
            (if self.old.out_of_memory then self.old else record self.old { trail = up_to self.old.trail level }) }
    {
        if self.out_of_memory {
            return;
        }
        self.trail.back_to(level);
        self.propagator.clear_pending();
        self.served = self.floor.min(self.trail.entries().len());
    }

    /// The truth value of a variable, in one step: none while it is free, and none for a number
    /// that is no variable.
    pub fn value(&self, var: u32) -> Option<bool>
        ensures { result ≡ option_map (λ e. e.lit.positive) (entry_of self.now.trail var) }
    {
        if var <= self.trail.vars() {
            self.trail.value(var)
        } else {
            None
        }
    }

    /// The entry of a variable, in one step: none while it is free, and none for a number that is
    /// no variable.
    pub fn entry(&self, var: u32) -> Option<Entry>
        ensures { result ≡ entry_of self.now.trail var }
    {
        if var <= self.trail.vars() {
            self.trail.entry(var)
        } else {
            None
        }
    }

    /// The place of a variable's entry on the trail, counted from 0, in one step: none while it is
    /// free, and none for a number that is no variable.
    pub fn place(&self, var: u32) -> Option<usize>
        ensures found { IfSome result (λ p. slice_get self.now.trail p ≡ entry_of self.now.trail var) }
        ensures inside { IfSome result (λ p. p < length self.now.trail) }
        ensures free { IfNone result (entry_of self.now.trail var ≡ None) }
    {
        if var <= self.trail.vars() {
            self.trail.place(var)
        } else {
            None
        }
    }

    /// The least free variable, in one step; none where each has an entry.
    pub fn least_free(&self) -> Option<u32>
        ensures { result ≡ least_free self.now.vars self.now.trail }
    {
        self.trail.least_free()
    }

    /// The current level: that of the last entry, or 0.
    pub fn level(&self) -> u32
        ensures { result ≡ current_level self.now.trail }
    {
        self.trail.level()
    }

    /// The number of variables: they are 1 up to it.
    pub fn vars(&self) -> u32
        ensures { result ≡ self.now.vars }
    {
        self.trail.vars()
    }

    /// The entries, in the order in which they came.
    pub fn trail(&self) -> &[Entry]
        ensures trail { result.now ≡ self.now.trail }
        ensures lawful { IsLawful self.now.clauses self.now.trail }
        ensures over { IsOver self.now.vars (literals self.now.trail) }
        ensures clauses_over { All (IsOver self.now.vars) self.now.clauses }
    {
        self.trail.entries()
    }

    /// How many visits of clauses `close` has made since `open`; the greatest number stays.
    pub fn visits(&self) -> u64 {
        self.propagator.visits
    }

    /// How much was done since `open`.
    pub fn counts(&self) -> Counts {
        self.counts
    }

    /// How many clauses there are: their numbers are 1 up to it.
    pub fn count(&self) -> u64
        ensures { result ≡ length self.now.clauses }
    {
        self.propagator.clauses.len() as u64
    }

    /// How many of the clauses `restart` keeps; those of greater numbers were learnt.
    pub fn first_count(&self) -> u64
        ensures count { result ≡ self.now.first }
        ensures within { self.now.first ≤ length self.now.clauses }
    {
        self.first as u64
    }

    /// The literals of the clause of a number, which is one from 1 up to the number of clauses, in
    /// the order in which propagation has them, the two that are watched in front.
    pub fn arranged(&self, number: u64) -> &[Lit]
        requires { (1 ≤ number) × (number ≤ length self.now.clauses) }
        ensures { IsPermutation (clause_at self.now.clauses number) result.now }
    {
        self.propagator.clauses.arranged(number as usize - 1)
    }
}

//! A kernel that shows its clauses as they were given.
ghost use Rattle.std.specs.Prelude.{◌≡◌, ◌+◌, ◌<◌, ◌≤◌, true, false, None, [], ◌∷◌, ◌++◌, length, All, IfOk, OnOk, OnErr, IsErr, if◌then◌else◌};
ghost use Rattle.std.specs.Option.{option_map};
ghost use Rattle.theory.specs.Literals.{IsVariable, IsCube, has_var};
ghost use Rattle.theory.specs.Truth.{IsOver};
ghost use Rattle.theory.specs.Pure.{unit_clauses};
ghost use Rattle.theory.specs.Trails.{literals, current_level, entry_of, cube_trail, up_to, least_free};
ghost use Rattle.theory.specs.Propagation.{clause_at, Propagates, quiet};
ghost use Rattle.theory.specs.Lawful.{IsLawful};
ghost use Rattle.theory.specs.Learnable.{IsLearnable};
ghost use Rattle.theory.specs.Reading.{large, max_vars};
ghost use Rattle.theory.specs.Propagation as closing;
ghost use Rattle.theory.specs.Trails as trails;
ghost use Rattle.kernel.specs.Answer.{closed_of};
ghost use Rattle.kernel.specs.Rules.{rule_of};
ghost use Rattle.kernel.specs.declared.order.Order.TheVariants.{ByNumber};

use crate::clauses::clauses::Clauses;
use crate::closed::Closed;
use crate::order::Order;
use crate::search_kernel::SearchKernel;
use cnf::{Formula, Lit};
use std::alloc::{AllocError, Global};
use std::marker::Model;
use trail::{Cube, Entry};

/// The clauses and the trail of one cube's search, as `SearchKernel`, with a copy of each clause as
/// it was given. Searches do without the copies. Once a call has met want of memory, `close` and
/// `learn` answer it from then on, `decide` and `back_to` change nothing, and the other calls answer
/// of the trail as it stands.
pub struct Kernel {
    kernel: SearchKernel,
    // its clauses, each with its literals in the order in which they were given
    given: Clauses,
}

impl Drop for Kernel {
    fn drop(self) {
        let Kernel {
            kernel: _,
            given: _,
        } = self;
    }
}

impl Model for Kernel {
    ghost use Rattle.std.specs.Prelude.{◌≡◌};
    ghost use Rattle.kernel.specs.State.{State};

    ghost Value = { State };

    ghost view = { λ k. k.kernel };

    ghost invariant = { λ k. k.given ≡ k.kernel.clauses };
}

/// Puts a formula's clauses behind others. It fails where a request for memory is refused.
fn push_all(clauses: &mut Clauses, formula: &Formula) -> Result<(), AllocError>
    ensures { OnOk result (clauses.new ≡ clauses.old ++ formula.now.clauses) }
{
    for place in 0..formula.clause_count() {
        clauses.push(formula.clause(place))?;
    }
    Ok(())
}

/// Puts a clause of one literal for each of these behind others. It fails where a request for
/// memory is refused.
fn push_units(clauses: &mut Clauses, units: &[Lit]) -> Result<(), AllocError>
    ensures { OnOk result (clauses.new ≡ clauses.old ++ unit_clauses units.now) }
{
    for unit in units {
        clauses.push(&[*unit])?;
    }
    Ok(())
}

impl Kernel {
    /// The kernel of a formula and a cube: the formula's clauses, and the cube's literals on the
    /// trail at level 0. It takes time by the literals, and memory for them and for one entry of
    /// each variable; it fails where that is refused.
    pub fn open(alloc: Global, formula: &Formula, cube: &Cube) -> Result<Kernel, AllocError>
        requires { IsOver formula.now.vars cube.now }
        ensures opened { IfOk result (λ k. k ≡ record {
          vars = formula.now.vars;
          order = ByNumber;
          first = length formula.now.clauses;
          clauses = formula.now.clauses;
          trail = cube_trail cube.now;
          out_of_memory = false;
        }) }
        ensures lawful { IfOk result (λ k.
            IsLawful k.clauses k.trail × IsOver k.vars (literals k.trail) × All (IsOver k.vars) k.clauses) }
        ensures few { IfOk result (λ k. k.vars ≤ max_vars large) }
    {
        let kernel = Kernel::open_with(alloc, formula, &[], cube)?;
        Ok(kernel)
    }

    /// As `open`, with a clause of one literal for each of the units behind the formula's clauses.
    /// These are of distinct variables. It takes time and memory for them too, and fails where
    /// memory is refused.
    pub fn open_with(
        alloc: Global,
        formula: &Formula,
        units: &[Lit],
        cube: &Cube,
    ) -> Result<Kernel, AllocError>
        requires cube { IsOver formula.now.vars cube.now }
        requires units { IsCube units.now × IsOver formula.now.vars units.now }
        ensures opened { IfOk result (λ k. k ≡ record {
          vars = formula.now.vars;
          order = ByNumber;
          first = length (formula.now.clauses ++ unit_clauses units.now);
          clauses = formula.now.clauses ++ unit_clauses units.now;
          trail = cube_trail cube.now;
          out_of_memory = false;
        }) }
        ensures lawful { IfOk result (λ k.
            IsLawful k.clauses k.trail × IsOver k.vars (literals k.trail) × All (IsOver k.vars) k.clauses) }
        ensures few { IfOk result (λ k. k.vars ≤ max_vars large) }
    {
        let kernel = SearchKernel::open(alloc, formula, units, cube, Order::ByNumber)?;
        let mut given = Clauses::with_room(alloc, formula.clause_count(), formula.literal_count())?;
        push_all(&mut given, formula)?;
        push_units(&mut given, units)?;
        Ok(Kernel { kernel, given })
    }

    /// The same kernel as searches have it, without copies of its clauses.
    pub fn as_search(&self) -> &SearchKernel
        ensures { result.now ≡ self.now }
    {
        &self.kernel
    }

    /// Propagation: while no clause is false, the unit clause of least number puts its literal on
    /// the trail, with its number as reason, at the current level. The answer is the false clause
    /// of least number, or `Quiet` where none is false or unit. It takes time by the clauses that
    /// watch a literal which became false. It fails where a request for memory is refused, and from
    /// then on; the trail then ends on the way: what propagation leads to from it, it leads to from
    /// the trail before.
    pub fn close(&mut self) -> Result<Closed, AllocError>
        ensures ok { IfOk result (λ a. Propagates (rule_of self.old.order) self.old.clauses self.old.trail (closed_of a) self.new.trail) }
        ensures kept { (self.new.vars ≡ self.old.vars) × (self.new.clauses ≡ self.old.clauses) × (self.new.first ≡ self.old.first)
            × (self.new.order ≡ self.old.order) }
        ensures has_memory { OnOk result (self.new.out_of_memory ≡ false) }
        ensures refused { OnErr result (self.new.out_of_memory ≡ true) }
        ensures stays { self.old.out_of_memory ≡ true → IsErr result }
        ensures unchanged { self.old.out_of_memory ≡ true → self.new.trail ≡ self.old.trail }
        ensures was { OnOk result (self.old.out_of_memory ≡ false) }
        ensures onward { (a : closing.Closed) (U : trails.Trail) → Propagates (rule_of self.old.order) self.old.clauses self.new.trail a U → Propagates (rule_of self.old.order) self.old.clauses self.old.trail a U }
    {
        self.kernel.close()
    }

    /// Makes a free literal true at the next level, without a reason, after propagation came to
    /// rest. It takes no memory.
    pub fn decide(&mut self, lit: Lit)
        requires { self.old.out_of_memory ≡ false →
            IsVariable self.old.vars lit.var × (has_var (literals self.old.trail) lit.var ≡ false)
            × Propagates (rule_of self.old.order) self.old.clauses self.old.trail quiet self.old.trail }
        ensures { self.new ≡ (if self.old.out_of_memory then self.old else record self.old {
          trail =
              self.old.trail ++ record { lit = lit; reason = None; level = current_level self.old.trail + 1 } ∷ [];
        }) }
    {
        self.kernel.decide(lit);
    }

    /// Takes the entries above a level off, which is below the current one. It takes no memory, and
    /// time by the entries taken off.
    pub fn back_to(&mut self, level: u32)
        requires { self.old.out_of_memory ≡ false → level < current_level self.old.trail }
        ensures { self.new ≡
            (if self.old.out_of_memory then self.old else record self.old { trail = up_to self.old.trail level }) }
    {
        self.kernel.back_to(level);
    }

    /// Puts a clause behind the others, and answers its number. Its variables are distinct and of
    /// the formula; one of its literals is free and the others are false, one of these at the
    /// current level unless that is 0. It fails where a request for memory is refused, and from
    /// then on; the clauses and the trail are then as they were.
    pub fn learn(&mut self, clause: &[Lit]) -> Result<u64, AllocError>
        requires { self.old.out_of_memory ≡ false → IsOver self.old.vars clause.now × IsLearnable self.old.trail clause.now }
        ensures ok { IfOk result (λ n. n ≡ length self.old.clauses + 1) }
        ensures learnt { OnOk result (self.new ≡ record self.old {
          clauses = self.old.clauses ++ clause.now ∷ [];
        }) }
        ensures refused { OnErr result (self.new ≡ record self.old { out_of_memory = true }) }
        ensures stays { self.old.out_of_memory ≡ true → IsErr result }
        ensures was { OnOk result (self.old.out_of_memory ≡ false) }
    {
        let count = self.given.len();
        if let Err(error) = self.given.push(clause) {
            self.kernel.give_up();
            return Err(error);
        }
        match self.kernel.learn(clause) {
            Ok(number) => Ok(number),
            Err(error) => {
                self.given.truncate(count);
                Err(error)
            }
        }
    }

    /// The truth value of a variable, in one step: none while it is free, and none for a number
    /// that is no variable.
    pub fn value(&self, var: u32) -> Option<bool>
        ensures { result ≡ option_map (λ e. e.lit.positive) (entry_of self.now.trail var) }
    {
        self.kernel.value(var)
    }

    /// The least free variable, in one step; none where each has an entry.
    pub fn least_free(&self) -> Option<u32>
        ensures { result ≡ least_free self.now.vars self.now.trail }
    {
        self.kernel.least_free()
    }

    /// The current level: that of the last entry, or 0.
    pub fn level(&self) -> u32
        ensures { result ≡ current_level self.now.trail }
    {
        self.kernel.level()
    }

    /// The entries, in the order in which they came.
    pub fn trail(&self) -> &[Entry]
        ensures trail { result.now ≡ self.now.trail }
        ensures lawful { IsLawful self.now.clauses self.now.trail }
        ensures over { IsOver self.now.vars (literals self.now.trail) }
        ensures clauses_over { All (IsOver self.now.vars) self.now.clauses }
    {
        self.kernel.trail()
    }

    /// The literals of the clause of a number, which is one from 1 up to the number of clauses, in
    /// the order in which they were given.
    pub fn clause(&self, number: u64) -> &[Lit]
        requires { (1 ≤ number) × (number ≤ length self.now.clauses) }
        ensures { result.now ≡ clause_at self.now.clauses number }
    {
        self.given.get(number as usize - 1)
    }

    /// How many visits of clauses `close` has made since `open`; the greatest number stays.
    pub fn visits(&self) -> u64 {
        self.kernel.visits()
    }
}

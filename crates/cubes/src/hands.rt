//! The work of a hand: it takes cubes from the pool, solves them, and puts the halves of those that
//! are exhausted.
ghost use Rattle.std.specs.Prelude.{◌≡◌, ◌≤◌, ℕ, List, false, IfOk, OnOk, OnErr, IfNone, MatchOption, is_ok};
ghost use Rattle.theory.specs.Literals.{Literal, IsVariable, has_var};
ghost use Rattle.theory.specs.Truth.{Formula, IsOver};
ghost use Rattle.theory.specs.Plans as plans;
ghost use Rattle.theory.specs.Runs.{Runs};
ghost use Rattle.theory.specs.Ledger.{IsFit};
ghost use Rattle.theory.specs.Round.{HasWorked};
ghost use Rattle.cdcl.specs.Outcome.{outcome_by};
ghost use Rattle.theory.specs.Beginnings.{begun_by};
ghost use Rattle.cubes.specs.Division.{IsRootOf};
ghost use Rattle.pool.specs.Hands.{SameHand, IsAllTaken};
ghost use Rattle.cubes.specs.Hands.{Gets, IsWorker, EndsIn, Settles, AddsRound, AddsHandOn, AddsHalves, AddsCarried, GoesOn, GoesHome};
ghost use Rattle.cubes.specs.Looks.{AddsDone, TakesTurn, TakeTurns};
ghost use Rattle.cubes.specs.Solved.{results_by};

use crate::cube_walk::CubeWalk;
use crate::division::root::Root;
use crate::gate::{Gate, Watched, tell_refuted};
use crate::pause::Pauses;
use crate::place::place_of;
use crate::results::LazySolver;
use crate::solved::{Solved, What};
use crate::tries::Tries;
use cdcl::{KeepsLines, Outcome, Plan, Refutation, split};
use cnf::Formula;
use kernel::Cube;
use pool::Hand;
use std::alloc::{AllocError, Global};
use std::sync::Wait;
use std::time::Clock;

/// The deepest cubes that lie in the pool: with more literals, places in the tree could not be told
/// apart by 32 bits.
const DEEPEST: usize = 32;

/// What a hand leaves behind when it goes home.
#[derive(Drop)]
pub struct Worked<L = Refutation> {
    pub hand: Hand,
    pub solved: Vec<Solved<L>>,
    /// Whether a request for memory was refused, so that not all is done.
    pub short_of_memory: bool,
}

/// How the work goes on behind a cube that was solved.
#[derive(Clone, Copy)]
pub(crate) enum Ending {
    Model,
    Refuted,
    /// It is exhausted, in this variable.
    Exhausted(u32),
}

/// A hand at its work.
#[derive(Drop)]
pub(crate) struct Worker<L> {
    pub(crate) hand: Hand,
    pub(crate) solver: LazySolver,
    pub(crate) solved: Vec<Solved<L>>,
}

/// One cube more, from the hand's own deque or else from another's. None comes only where each
/// deque was tried.
fn next(hand: &mut Hand, tries: &mut Tries) -> Option<Cube>
    requires none { tries.old ≡ 0 }
    ensures same { SameHand hand.old hand.new }
    ensures got { MatchOption result (hand.new ≡ hand.old)
        (λ c. IsFit hand.old.vars c × Gets hand.old.ledger hand.new.ledger c) }
    ensures tried { IfNone result (IsAllTaken hand.old × (tries.new ≡ hand.old.hands)) }
{
    let _own = hand.number(); // it ensures that there is a hand
    'deques: while tries.count() < hand.hands() {
        if let Some(cube) = tries.try_next(hand) {
            return Some(cube);
        }
    }
    None
}

fn ending_of<L: KeepsLines>(outcome: &Outcome<L>) -> Ending
    ensures { (F : Formula) (plan : plans.Plan) (Q : List Literal) → Runs F plan Q (outcome_by L.lines outcome.now) → EndsIn F Q (outcome_by L.lines outcome.now) result }
{
    match outcome {
        Outcome::Model(_) => Ending::Model,
        Outcome::Refuted(_) => Ending::Refuted,
        Outcome::Exhausted(var) => Ending::Exhausted(*var),
    }
}

impl<L: KeepsLines> Worker<L> {
    /// Solves a cube here, and keeps its result. The gate is told what is done.
    fn settle<G: Gate>(
        &mut self,
        formula: &Formula,
        plan: Plan,
        gate: &G,
        cube: &Cube,
    ) -> Result<Ending, AllocError>
        requires over { IsOver formula.now.vars cube.now }
        requires worker { IsWorker (begun_by plan.search formula.now) plan self.old }
        ensures hand { self.new.hand ≡ self.old.hand }
        ensures settles { IfOk result (λ e. Settles (begun_by plan.search formula.now) plan cube.now e (results_by L.lines self.old.solved.items) (results_by L.lines self.new.solved.items)) }
        ensures worker { OnOk result (IsWorker (begun_by plan.search formula.now) plan self.new) }
        ensures none { OnErr result (self.new.solved.items ≡ self.old.solved.items) }
    {
        let alloc = *self.solved.allocator();
        let copy = cube.copied()?;
        let hand = self.hand.number();
        let watched = Watched { gate, hand };
        let outcome: Outcome<L> = self.solver.solve(alloc, formula, plan, cube, &watched)?;
        tell_refuted(gate, hand, cube, &outcome);
        let ending = ending_of(&outcome);
        let what = What::Done(outcome);
        self.solved.push(Solved { cube: copy, what })?;
        Ok(ending)
    }
}

impl<L: KeepsLines> Worker<L> {
    /// Hands a half of a cube on: it is put, or where that is refused, or where it is too deep for
    /// the pool, carried on here.
    fn hand_on<G: Gate>(
        &mut self,
        formula: &Formula,
        plan: Plan,
        gate: &G,
        half: Cube,
    ) -> Result<(), AllocError>
        requires over { IsOver formula.now.vars half }
        requires worker { IsWorker (begun_by plan.search formula.now) plan self.old }
        ensures same { SameHand self.old.hand self.new.hand }
        ensures worker { OnOk result (IsWorker (begun_by plan.search formula.now) plan self.new) }
        ensures calls { GoesOn self.old.hand.ledger self.new.hand.ledger }
        ensures part { AddsHandOn (begun_by plan.search formula.now) plan (is_ok result) half self.old.hand.ledger self.new.hand.ledger (results_by L.lines self.old.solved.items) (results_by L.lines self.new.solved.items) }
        ensures done { OnOk result (AddsDone (results_by L.lines self.old.solved.items) (results_by L.lines self.new.solved.items)) }
    {
        if half.lits().len() > DEEPEST {
            return self.carry_on(formula, plan, gate, half);
        }
        self.hand.more();
        match self.hand.put(half) {
            Ok(()) => Ok(()),
            Err(refused) => {
                self.hand.less();
                self.carry_on(formula, plan, gate, refused)
            }
        }
    }

    /// Hands both halves of an exhausted cube on, the false one first.
    fn hand_on_halves<G: Gate>(
        &mut self,
        formula: &Formula,
        plan: Plan,
        gate: &G,
        cube: &Cube,
        var: u32,
    ) -> Result<(), AllocError>
        requires over { IsOver formula.now.vars cube.now }
        requires variable { IsVariable formula.now.vars var }
        requires free { has_var cube.now var ≡ false }
        requires worker { IsWorker (begun_by plan.search formula.now) plan self.old }
        ensures same { SameHand self.old.hand self.new.hand }
        ensures worker { OnOk result (IsWorker (begun_by plan.search formula.now) plan self.new) }
        ensures calls { GoesOn self.old.hand.ledger self.new.hand.ledger }
        ensures part { AddsHalves (begun_by plan.search formula.now) plan (is_ok result) cube.now var self.old.hand.ledger self.new.hand.ledger (results_by L.lines self.old.solved.items) (results_by L.lines self.new.solved.items) }
        ensures done { OnOk result (AddsDone (results_by L.lines self.old.solved.items) (results_by L.lines self.new.solved.items)) }
    {
        let _vars = formula.vars(); // it ensures that there are fewer than 2^31
        let (left, right) = split(cube, var)?;
        self.hand_on(formula, plan, gate, left)?;
        self.hand_on(formula, plan, gate, right)
    }

    /// Carries a half on here: solves the cubes of its tree from left to right, up to the first
    /// model.
    fn carry_on<G: Gate>(
        &mut self,
        formula: &Formula,
        plan: Plan,
        gate: &G,
        half: Cube,
    ) -> Result<(), AllocError>
        requires over { IsOver formula.now.vars half }
        requires worker { IsWorker (begun_by plan.search formula.now) plan self.old }
        ensures same { SameHand self.old.hand self.new.hand }
        ensures worker { OnOk result (IsWorker (begun_by plan.search formula.now) plan self.new) }
        ensures calls { GoesOn self.old.hand.ledger self.new.hand.ledger }
        ensures part { AddsCarried (begun_by plan.search formula.now) plan (is_ok result) half self.old.hand.ledger self.new.hand.ledger (results_by L.lines self.old.solved.items) (results_by L.lines self.new.solved.items) }
        ensures done { OnOk result (AddsDone (results_by L.lines self.old.solved.items) (results_by L.lines self.new.solved.items)) }
    {
        let _vars = formula.vars(); // it ensures that there are fewer than 2^31
        let _lits = half.lits(); // it ensures that their variables are distinct
        let mut at = CubeWalk::from(*self.solved.allocator(), half);
        'cubes: loop {
            match self.settle(formula, plan, gate, &at.cube)? {
                Ending::Model => {
                    self.hand.offer(place_of(&at.cube));
                    return Ok(());
                }
                Ending::Exhausted(var) => at.enter(var)?,
                Ending::Refuted => {
                    if !at.go_on()? {
                        return Ok(());
                    }
                }
            }
        }
    }

    /// What is done with a cube that was got from the pool.
    fn round<G: Gate>(
        &mut self,
        formula: &Formula,
        plan: Plan,
        gate: &G,
        cube: Cube,
    ) -> Result<(), AllocError>
        requires over { IsOver formula.now.vars cube }
        requires worker { IsWorker (begun_by plan.search formula.now) plan self.old }
        ensures same { SameHand self.old.hand self.new.hand }
        ensures worker { OnOk result (IsWorker (begun_by plan.search formula.now) plan self.new) }
        ensures calls { GoesOn self.old.hand.ledger self.new.hand.ledger }
        ensures part { AddsRound (begun_by plan.search formula.now) plan (is_ok result) cube self.old.hand.ledger self.new.hand.ledger (results_by L.lines self.old.solved.items) (results_by L.lines self.new.solved.items) }
        ensures turn { OnOk result (TakesTurn cube self.old.hand.ledger self.new.hand.ledger (results_by L.lines self.old.solved.items) (results_by L.lines self.new.solved.items)) }
    {
        let place = place_of(&cube);
        let seen = self.hand.look();
        if let Some(least) = seen {
            if least < place {
                let what = What::Skipped(least);
                self.solved.push(Solved { cube, what })?;
                self.hand.less();
                return Ok(());
            }
        }
        gate.before(self.hand.number(), &cube);
        let ending = self.settle(formula, plan, gate, &cube);
        gate.after(self.hand.number(), &cube);
        match ending? {
            Ending::Model => self.hand.offer(place),
            Ending::Refuted => {}
            Ending::Exhausted(var) => self.hand_on_halves(formula, plan, gate, &cube, var)?,
        }
        self.hand.less();
        Ok(())
    }
}

impl<L: KeepsLines> Worker<L> {
    fn home(self, short_of_memory: bool) -> Worked<L>
        ensures hand { result.hand ≡ self.hand }
        ensures solved { result.solved.items ≡ self.solved.items }
        ensures short_of_memory { result.short_of_memory ≡ short_of_memory }
    {
        let Worker {
            hand,
            solver: _,
            solved,
        } = self;
        Worked {
            hand,
            solved,
            short_of_memory,
        }
    }
}

/// The work of a hand, where this is known of the cube without literals: it takes cubes from its own
/// deque, or else steals from the others, until nothing is left to be done or a hand halted. Each
/// cube that it gets is skipped where a model lies left of it, and else solved, and the halves of an
/// exhausted one are put. It is the caller that waits: until nothing is left to be done by any hand.
/// A hand that finds no cube yields its processor, a hundred times, and then sleeps between its
/// looks, for 50 microseconds at first and for up to a millisecond, until it gets one.
pub(crate) fn work_in<L: KeepsLines, R: Wait + Clock, G: Gate>(
    rt: &R,
    alloc: Global,
    hand: Hand,
    formula: &Formula,
    plan: Plan,
    root: Root,
    gate: &G,
) -> Worked<L>
    requires vars { hand.vars ≡ formula.now.vars }
    requires root { IsRootOf (begun_by plan.search formula.now) plan root }
    ensures same { SameHand hand result.hand }
    ensures work { HasWorked (begun_by plan.search formula.now) plan result.short_of_memory hand.ledger result.hand.ledger (results_by L.lines result.solved.items) }
    ensures looks { result.short_of_memory ≡ false → TakeTurns hand.ledger result.hand.ledger (results_by L.lines result.solved.items) }
    ensures home { GoesHome result.short_of_memory hand.ledger result.hand.ledger }
{
    let mut worker = Worker {
        hand,
        solver: LazySolver::none(root),
        solved: Vec::new(alloc),
    };
    let mut pauses = Pauses::none();
    'turns: for _ in rt.forever() {
        let is_halted = worker.hand.halted();
        if is_halted {
            break;
        }
        let mut tries = Tries::none();
        match next(&mut worker.hand, &mut tries) {
            Some(cube) => {
                pauses = Pauses::none();
                if worker.round(formula, plan, gate, cube).is_err() {
                    worker.hand.halt();
                    return worker.home(true);
                }
            }
            None => {
                let open = worker.hand.still_open();
                if open == 0 {
                    break;
                }
                pauses.pause(rt); // another hand is at work on what is left
            }
        }
    }
    worker.home(false)
}

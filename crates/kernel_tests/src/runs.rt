//! Runs over many small formulas: after each operation the kernel answers what a scan of all
//! clauses does, with the same trail.
ghost use Rattle.std.specs.Prelude.{IfOk};
ghost use Rattle.theory.specs.Truth.{IsOver};

use crate::acts::{
    are_same, back_to, decide, learn_entry, learn_pair, learn_three, learn_unit, lits_of,
};
use crate::dice::{Dice, formula_text};
use crate::forgetting::{forget, is_reason};
use crate::scan::Scan;
use cnf::{Formula, Lit, read_formula};
use kernel::{Closed, Cube, Order, SearchKernel};
use std::alloc::{AllocError, Global};
use std::test::Fail;
use test_samples::cube_of;

/// A kernel, and the scan that goes along with it.
#[derive(Drop)]
struct Twins {
    kernel: SearchKernel,
    scan: Scan,
}

/// The negation of the last entry's literal, which is false at the current level; 0 where there is
/// no entry.
fn last_negated(kernel: &SearchKernel) -> i32 {
    match kernel.trail().last() {
        Some(entry) => {
            let entry = *entry;
            entry.lit.negated().number()
        }
        None => 0,
    }
}

/// A cube of at most two literals over the variables.
fn small_cube(alloc: Global, dice: &mut Dice, vars: u32) -> Result<Cube, AllocError>
    ensures { IfOk result (λ q. IsOver vars q) }
{
    let numbers = [dice.number_or_0(vars), dice.number_or_0(vars)];
    let cube = cube_of(alloc, vars, &numbers)?;
    Ok(cube)
}

/// A clause of one to three literals.
fn learn(kernel: &mut SearchKernel, clause: &[i32]) -> Result<bool, AllocError> {
    match clause {
        [free] => learn_unit(kernel, *free),
        [lit, free] => learn_pair(kernel, *lit, *free),
        [other, lit, free] => learn_three(kernel, [*other, *lit, *free]),
        _ => Ok(false),
    }
}

/// Learnt clauses that may be forgotten: each of them or not.
fn some_learnt(
    alloc: Global,
    dice: &mut Dice,
    kernel: &SearchKernel,
) -> Result<Vec<u64>, AllocError> {
    let mut numbers = Vec::new(alloc);
    for place in kernel.first_count()..kernel.count() {
        let number = place.saturating_add(1);
        if dice.below(2) == 0 && !is_reason(kernel.trail(), number) {
            numbers.push(number)?;
        }
    }
    Ok(numbers)
}

impl Twins {
    fn open(
        alloc: Global,
        dice: &mut Dice,
        formula: &Formula,
        order: Order,
    ) -> Result<Twins, AllocError> {
        let cube = small_cube(alloc, dice, formula.vars())?;
        let units = small_cube(alloc, dice, formula.vars())?;
        Ok(Twins {
            kernel: SearchKernel::open(alloc, formula, units.lits(), &cube, order)?,
            scan: Scan::open(alloc, formula, units.lits(), cube.lits(), order)?,
        })
    }

    /// What both answer, or none where they differ.
    fn close(&mut self) -> Result<Option<Closed>, AllocError> {
        let answer = self.kernel.close()?;
        let wanted = self.scan.close(self.kernel.vars())?;
        if answer == wanted && are_same(self.kernel.trail(), self.scan.trail()) {
            Ok(Some(answer))
        } else {
            Ok(None)
        }
    }

    fn restart(&mut self, alloc: Global, dice: &mut Dice) -> Result<(), AllocError> {
        let cube = small_cube(alloc, dice, self.kernel.vars())?;
        self.kernel.restart(&cube)?;
        self.scan.restart(cube.lits())
    }

    fn decide(&mut self, dice: &mut Dice) -> Result<(), AllocError> {
        let number = dice.number(self.kernel.vars());
        if let Some(lit) = Lit::new(number) {
            if decide(&mut self.kernel, number)? {
                self.scan.decide(lit)?;
            }
        }
        Ok(())
    }

    fn back_to(&mut self, dice: &mut Dice) {
        let level = dice.below((self.kernel.level() as u64).max(1)).min(99) as u32;
        if back_to(&mut self.kernel, level) {
            self.scan.back_to(level);
        }
    }

    /// Puts the clause behind the scan's where the kernel could learn it.
    fn learn(&mut self, alloc: Global, dice: &mut Dice) -> Result<(), AllocError> {
        let vars = self.kernel.vars();
        let numbers = [
            dice.number(vars),
            last_negated(&self.kernel),
            dice.number(vars),
        ];
        let clause = match dice.below(4) {
            0 => &numbers[2..],
            1 => &numbers[1..],
            _ => &numbers[..],
        };
        if learn(&mut self.kernel, clause)? {
            self.scan.learn(&lits_of(alloc, clause)?)?;
        }
        Ok(())
    }

    /// The literal of some entry as a clause of its own, in both, where the kernel could learn it.
    fn learn_entry(&mut self, dice: &mut Dice) -> Result<(), AllocError> {
        let place = dice.below(4) as usize;
        if learn_entry(&mut self.kernel, place)? {
            self.scan.learn_entry(place)?;
        }
        Ok(())
    }

    fn forget(&mut self, alloc: Global, dice: &mut Dice) -> Result<(), AllocError> {
        let numbers = some_learnt(alloc, dice, &self.kernel)?;
        if forget(&mut self.kernel, &numbers)? {
            self.scan.forget(&numbers)?;
        }
        Ok(())
    }

    fn after_conflict(&mut self, alloc: Global, dice: &mut Dice) -> Result<(), AllocError> {
        if self.kernel.level() == 0 || dice.below(8) == 0 {
            return self.restart(alloc, dice);
        }
        self.back_to(dice);
        self.learn(alloc, dice)?;
        if dice.below(3) == 0 {
            self.forget(alloc, dice)?;
        }
        Ok(())
    }

    fn after_quiet(&mut self, alloc: Global, dice: &mut Dice) -> Result<(), AllocError> {
        match dice.below(12) {
            0 => self.restart(alloc, dice),
            1 => {
                self.back_to(dice);
                Ok(())
            }
            2 => self.learn(alloc, dice),
            3 => self.forget(alloc, dice),
            _ => self.decide(dice),
        }
    }

    /// Propagates in both, and goes on. Whether both answered the same.
    fn go_on(&mut self, alloc: Global, dice: &mut Dice) -> Result<bool, AllocError> {
        let Some(closed) = self.close()? else {
            return Ok(false);
        };
        self.learn_entry(dice)?;
        match closed {
            Closed::Quiet => self.after_quiet(alloc, dice)?,
            Closed::Conflict(_) => self.after_conflict(alloc, dice)?,
        }
        Ok(true)
    }

    /// Whether both agree in twenty operations.
    fn agree(&mut self, alloc: Global, dice: &mut Dice) -> Result<bool, Fail> {
        for _ in 0..20 {
            if !self.go_on(alloc, dice)? {
                return Ok(false);
            }
        }
        Ok(true)
    }
}

fn some_formula(alloc: Global, dice: &mut Dice) -> Result<Formula, Fail> {
    let text = formula_text(alloc, dice)?;
    Ok(read_formula(alloc, &text)?)
}

/// Whether the kernel and the scan agree in a run over one formula.
fn agrees(alloc: Global, dice: &mut Dice, order: Order) -> Result<bool, Fail> {
    let formula = some_formula(alloc, dice)?;
    let mut twins = Twins::open(alloc, dice, &formula, order)?;
    twins.agree(alloc, dice)
}

/// The first of many runs in which the kernel and the scan don't agree, if there is one.
fn first_apart(alloc: Global, order: Order, state: u64) -> Result<Option<u32>, Fail> {
    let mut dice = Dice { state };
    for run in 0..400 {
        if !agrees(alloc, &mut dice, order)? {
            return Ok(Some(run));
        }
    }
    Ok(None)
}

#[test]
fn as_a_scan_of_all_clauses(rt: HostRuntime) -> Result<(), Fail> {
    for (order, state) in [(Order::ByNumber, 1), (Order::ByPlace, 2)] {
        let apart = first_apart(rt.alloc(), order, state)?;
        assert!(rt; apart.is_none(), "run {apart:?} from {state}");
    }
    Ok(())
}

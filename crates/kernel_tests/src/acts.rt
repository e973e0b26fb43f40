//! Runs of the kernel that tests make: each step asks for what the kernel's contracts want, and
//! tells whether it could be done.
ghost use Rattle.std.specs.Prelude.{◌≡◌, true, false, IfSome, Some};
ghost use Rattle.theory.specs.Literals.{IsVariable, has_var, negated, same};
ghost use Rattle.theory.specs.Trails.{literals, entry_of};

use crate::forgetting::forget;
use cnf::{Lit, read_formula};
use kernel::{Closed, Cube, Entry, Order, SearchKernel};
use std::alloc::{AllocError, Global};
use std::test::Fail;
use test_samples::cube_of;

pub fn opened(alloc: Global, text: &[u8], numbers: &[i32]) -> Result<SearchKernel, Fail> {
    let formula = read_formula(alloc, text)?;
    let cube = cube_of(alloc, formula.vars(), numbers)?;
    let kernel = SearchKernel::open(alloc, &formula, &[], &cube, Order::ByNumber)?;
    Ok(kernel)
}

/// A kernel at the root, with these units behind the clauses.
fn opened_with(alloc: Global, text: &[u8], units: &[i32]) -> Result<SearchKernel, Fail> {
    let formula = read_formula(alloc, text)?;
    let units = cube_of(alloc, formula.vars(), units)?;
    let root = Cube::root(alloc);
    let kernel = SearchKernel::open(alloc, &formula, units.lits(), &root, Order::ByNumber)?;
    Ok(kernel)
}

/// Whether an entry has this number, this reason or 0, and this level.
pub fn is_entry(entry: Entry, wanted: (i32, u64, u32)) -> bool {
    (entry.lit.number(), entry.reason.unwrap_or(0), entry.level) == wanted
}

/// Whether the trail has these entries.
fn stands(kernel: &SearchKernel, wanted: &[(i32, u64, u32)]) -> bool {
    let trail = kernel.trail();
    if trail.len() != wanted.len() {
        return false;
    }
    for (entry, want) in trail.iter().zip(wanted) {
        if !is_entry(*entry, *want) {
            return false;
        }
    }
    true
}

fn is_same(one: Entry, other: Entry) -> bool {
    one.lit.same(&other.lit) && one.reason == other.reason && one.level == other.level
}

/// Whether two trails are the same.
pub fn are_same(left: &[Entry], right: &[Entry]) -> bool {
    if left.len() != right.len() {
        return false;
    }
    for (one, other) in left.iter().zip(right) {
        if !is_same(*one, *other) {
            return false;
        }
    }
    true
}

/// The literals of these numbers.
pub fn lits_of(alloc: Global, numbers: &[i32]) -> Result<Vec<Lit>, AllocError> {
    let mut lits = Vec::new(alloc);
    for number in numbers {
        if let Some(lit) = Lit::new(*number) {
            lits.push(lit)?;
        }
    }
    Ok(lits)
}

fn has(clause: &[Lit], number: i32) -> bool {
    for lit in clause {
        if lit.number() == number {
            return true;
        }
    }
    false
}

/// Whether a clause has these literals, in whatever order.
fn is_of(clause: &[Lit], numbers: &[i32]) -> bool {
    for number in numbers {
        if !has(clause, *number) {
            return false;
        }
    }
    clause.len() == numbers.len()
}

/// What comes before the next propagation.
#[derive(Clone, Copy)]
pub enum Act<'a> {
    Nothing,
    /// A decision of a free variable.
    Decide(i32),
    BackTo(u32),
    /// Going back to level 0, and a clause of one literal.
    LearnUnit(i32),
    /// The literal of the entry at a place as a clause of its own, which becomes its reason.
    LearnEntry(usize),
    /// Going back, and a clause of a literal that is false at the level and a free one.
    LearnPair(u32, i32, i32),
    /// Another cube.
    Restart(&'a [i32]),
    /// Another cube, and what was learnt stays.
    KeepAndRestart(&'a [i32]),
    /// Learnt clauses are forgotten.
    Forget(&'a [u64]),
}

/// Whether the literal is of a free variable.
pub fn is_free(kernel: &SearchKernel, lit: Lit) -> bool
    ensures { result ≡ true → IsVariable kernel.now.vars lit.var × (has_var (literals kernel.now.trail) lit.var ≡ false) }
{
    if lit.var() > kernel.vars() {
        return false;
    }
    match kernel.value(lit.var()) {
        Some(_) => false,
        None => true,
    }
}

pub fn decide(kernel: &mut SearchKernel, number: i32) -> Result<bool, AllocError> {
    let Some(lit) = Lit::new(number) else {
        return Ok(false);
    };
    match kernel.close()? {
        Closed::Conflict(_) => Ok(false),
        Closed::Quiet => {
            if !is_free(kernel, lit) {
                return Ok(false);
            }
            kernel.decide(lit);
            Ok(true)
        }
    }
}

pub fn back_to(kernel: &mut SearchKernel, level: u32) -> bool {
    let lower = level < kernel.level();
    if lower {
        kernel.back_to(level);
    }
    lower
}

pub fn learn_unit(kernel: &mut SearchKernel, number: i32) -> Result<bool, AllocError> {
    let Some(lit) = Lit::new(number) else {
        return Ok(false);
    };
    if kernel.level() > 0 || !is_free(kernel, lit) {
        return Ok(false);
    }
    let learnt = kernel.learn(&[lit])?;
    Ok(is_of(kernel.arranged(learnt), &[number]))
}

/// The literal of the entry at a place as the last clause, which becomes the entry's reason.
pub fn learn_entry(kernel: &mut SearchKernel, place: usize) -> Result<bool, AllocError> {
    if kernel.level() > 0 {
        return Ok(false);
    }
    let Some(entry) = kernel.trail().get(place) else {
        return Ok(false);
    };
    let entry = *entry;
    if entry.reason.is_none() {
        return Ok(false);
    }
    let number = kernel.learn_unit(place)?;
    Ok(number == kernel.count() && is_of(kernel.arranged(number), &[entry.lit.number()]))
}

/// The entry that makes a literal false, if one does.
pub fn falsifier(kernel: &SearchKernel, lit: Lit) -> Option<Entry>
    ensures { IfSome result (λ e. IsVariable kernel.now.vars lit.var × (entry_of kernel.now.trail lit.var ≡ Some e) × (same e.lit (negated lit) ≡ true)) }
{
    if lit.var() > kernel.vars() {
        return None;
    }
    let entry = kernel.entry(lit.var())?;
    if entry.lit.same(&lit.negated()) {
        Some(entry)
    } else {
        None
    }
}

/// A clause of a literal that is false at the current level, and a free one.
pub fn learn_pair(kernel: &mut SearchKernel, number: i32, free: i32) -> Result<bool, AllocError> {
    let (Some(lit), Some(free)) = (Lit::new(number), Lit::new(free)) else {
        return Ok(false);
    };
    let Some(entry) = falsifier(kernel, lit) else {
        return Ok(false);
    };
    if entry.level != kernel.level() || !is_free(kernel, free) {
        return Ok(false);
    }
    let learnt = kernel.learn(&[lit, free])?;
    Ok(is_of(kernel.arranged(learnt), &[number, free.number()]))
}

/// As `learn_pair`, with the free literal first.
pub fn learn_turned_pair(
    kernel: &mut SearchKernel,
    number: i32,
    free: i32,
) -> Result<bool, AllocError> {
    let (Some(lit), Some(free)) = (Lit::new(number), Lit::new(free)) else {
        return Ok(false);
    };
    let Some(entry) = falsifier(kernel, lit) else {
        return Ok(false);
    };
    if entry.level != kernel.level() || !is_free(kernel, free) {
        return Ok(false);
    }
    let learnt = kernel.learn(&[free, lit])?;
    Ok(is_of(kernel.arranged(learnt), &[free.number(), number]))
}

/// A clause of a false literal, one that is false at the current level, and a free one.
pub fn learn_three(kernel: &mut SearchKernel, numbers: [i32; 3]) -> Result<bool, AllocError> {
    let (Some(other), Some(lit), Some(free)) = (
        Lit::new(numbers[0]),
        Lit::new(numbers[1]),
        Lit::new(numbers[2]),
    ) else {
        return Ok(false);
    };
    let Some(_) = falsifier(kernel, other) else {
        return Ok(false);
    };
    let Some(entry) = falsifier(kernel, lit) else {
        return Ok(false);
    };
    if other.var() == lit.var() || entry.level != kernel.level() || !is_free(kernel, free) {
        return Ok(false);
    }
    let learnt = kernel.learn(&[other, lit, free])?;
    Ok(is_of(kernel.arranged(learnt), &numbers))
}

/// Goes over to the cube of these numbers.
pub fn restart(
    alloc: Global,
    kernel: &mut SearchKernel,
    numbers: &[i32],
) -> Result<(), AllocError> {
    let cube = cube_of(alloc, kernel.vars(), numbers)?;
    kernel.restart(&cube)
}

pub fn acts(alloc: Global, kernel: &mut SearchKernel, act: Act) -> Result<bool, AllocError> {
    match act {
        Act::Nothing => Ok(true),
        Act::Decide(number) => decide(kernel, number),
        Act::BackTo(level) => Ok(back_to(kernel, level)),
        Act::LearnUnit(number) => {
            if kernel.level() > 0 && !back_to(kernel, 0) {
                return Ok(false);
            }
            learn_unit(kernel, number)
        }
        Act::LearnEntry(place) => learn_entry(kernel, place),
        Act::LearnPair(level, number, free) => {
            if !back_to(kernel, level) {
                return Ok(false);
            }
            learn_pair(kernel, number, free)
        }
        Act::Restart(numbers) => {
            restart(alloc, kernel, numbers)?;
            Ok(true)
        }
        Act::KeepAndRestart(numbers) => {
            kernel.keep_learnt()?;
            restart(alloc, kernel, numbers)?;
            Ok(kernel.first_count() == kernel.count())
        }
        Act::Forget(numbers) => forget(kernel, numbers),
    }
}

/// An act, what propagation then answers, and the entries that it leaves: number, reason or 0,
/// level.
#[derive(Clone, Copy)]
pub struct Row<'a>(pub Act<'a>, pub Closed, pub &'a [(i32, u64, u32)]);

/// What a kernel is opened with: a cube, or units at the root.
#[derive(Clone, Copy)]
pub enum Opening<'a> {
    Cube(&'a [i32]),
    Units(&'a [i32]),
}

/// A formula, what a kernel is opened with, and rows that it is to go through.
#[derive(Clone, Copy)]
pub struct Case<'a> {
    pub name: &'a str,
    pub text: &'a str,
    pub opening: Opening<'a>,
    pub rows: &'a [Row<'a>],
}

fn goes(alloc: Global, kernel: &mut SearchKernel, row: &Row) -> Result<bool, AllocError> {
    let is_done = acts(alloc, kernel, row.0)?;
    Ok(is_done && kernel.close()? == row.1 && stands(kernel, row.2))
}

/// The place of the first row that a kernel doesn't go through, if there is one.
fn first_failed(
    alloc: Global,
    kernel: &mut SearchKernel,
    rows: &[Row],
) -> Result<Option<usize>, Fail> {
    for place in 0..rows.len() {
        if !goes(alloc, kernel, &rows[place])? {
            return Ok(Some(place));
        }
    }
    Ok(None)
}

fn opened_by(alloc: Global, case: &Case) -> Result<SearchKernel, Fail> {
    match case.opening {
        Opening::Cube(numbers) => opened(alloc, case.text.as_bytes(), numbers),
        Opening::Units(numbers) => opened_with(alloc, case.text.as_bytes(), numbers),
    }
}

/// The place of the first row that a case's kernel doesn't go through, if there is one.
pub fn failed_row(alloc: Global, case: &Case) -> Result<Option<usize>, Fail> {
    let mut kernel = opened_by(alloc, case)?;
    first_failed(alloc, &mut kernel, case.rows)
}

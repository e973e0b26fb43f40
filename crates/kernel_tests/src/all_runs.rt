//! All lawful runs of at most six operations over small formulas: after each operation the kernel
//! answers what a scan of all clauses does, with the same trail.
//!
//! The runs are gone through like the words of a dictionary. A kernel can't be copied, so each run
//! is replayed from its first operation; operations that aren't lawful where a run stands change
//! nothing, and are passed over on the same kernel.
use crate::acts::{
    are_same, back_to, decide, learn_pair, learn_turned_pair, learn_unit, lits_of, restart,
};
use crate::scan::Scan;
use crate::visits::thousand;
use cnf::{Formula, Lit, read_formula};
use kernel::{Closed, Cube, Order, SearchKernel};
use std::alloc::{AllocError, Global};
use std::test::Fail;
use test_samples::cube_of;

/// An operation of a run.
#[derive(Clone, Copy)]
enum Operation {
    Close,
    Decide(i32),
    BackTo(u32),
    LearnUnit(i32),
    /// A literal that is false, and a free one.
    LearnPair(i32, i32),
}

impl Operation {
    fn goes_back(self) -> bool {
        match self {
            Operation::BackTo(_) => true,
            _ => false,
        }
    }
}

// the greatest level below the current one, over four variables
const LEVELS: u32 = 3;

/// The literals over four variables.
const LITERALS: [i32; 8] = [-1, 1, -2, 2, -3, 3, -4, 4];

/// All operations, in the order in which they are tried.
fn operations(alloc: Global) -> Result<Vec<Operation>, AllocError> {
    let mut all = Vec::new(alloc);
    all.push(Operation::Close)?;
    for number in LITERALS {
        all.push(Operation::Decide(number))?;
        all.push(Operation::LearnUnit(number))?;
    }
    for level in 0..=LEVELS {
        all.push(Operation::BackTo(level))?;
    }
    for number in LITERALS {
        push_pairs(&mut all, number)?;
    }
    Ok(all)
}

fn push_pairs(all: &mut Vec<Operation>, number: i32) -> Result<(), AllocError> {
    for free in LITERALS {
        all.push(Operation::LearnPair(number, free))?;
    }
    Ok(())
}

/// A kernel, the scan that goes along with it, and what may come next.
#[derive(Drop)]
struct Twins {
    kernel: SearchKernel,
    scan: Scan,
    // whether propagation came to rest, with nothing changed since
    is_quiet: bool,
    // whether the last operation went back
    is_back: bool,
    // whether both have answered the same, with the same trail
    agree: bool,
}

impl Twins {
    fn open(alloc: Global, formula: &Formula, units: &[i32]) -> Result<Twins, AllocError> {
        let units = cube_of(alloc, formula.vars(), units)?;
        let root = Cube::root(alloc);
        Ok(Twins {
            kernel: SearchKernel::open(alloc, formula, units.lits(), &root, Order::ByNumber)?,
            scan: Scan::open(alloc, formula, units.lits(), &[], Order::ByNumber)?,
            is_quiet: false,
            is_back: false,
            agree: true,
        })
    }

    /// Works on a cube, up to a clause that is learnt where a conflict comes, and goes over to the
    /// whole formula.
    fn use_for(&mut self, alloc: Global, numbers: &[i32]) -> Result<(), AllocError> {
        restart(alloc, &mut self.kernel, numbers)?;
        for number in LITERALS {
            decide(&mut self.kernel, number)?;
        }
        back_to(&mut self.kernel, 0);
        for number in LITERALS {
            learn_unit(&mut self.kernel, number)?;
        }
        restart(alloc, &mut self.kernel, &[])
    }

    fn close(&mut self) -> Result<bool, AllocError> {
        let answer = self.kernel.close()?;
        let wanted = self.scan.close(self.kernel.vars())?;
        self.agree = self.agree && answer == wanted;
        self.is_quiet = answer == Closed::Quiet;
        Ok(true)
    }

    fn decide(&mut self, number: i32) -> Result<bool, AllocError> {
        let Some(lit) = Lit::new(number) else {
            return Ok(false);
        };
        let is_done = self.is_quiet && decide(&mut self.kernel, number)?;
        if is_done {
            self.scan.decide(lit)?;
            self.is_quiet = false;
        }
        Ok(is_done)
    }

    fn back_to(&mut self, level: u32) -> bool {
        let is_done = back_to(&mut self.kernel, level);
        if is_done {
            self.scan.back_to(level);
            self.is_quiet = false;
        }
        is_done
    }

    fn learn_unit(&mut self, alloc: Global, number: i32) -> Result<bool, AllocError> {
        let is_done = self.is_back && learn_unit(&mut self.kernel, number)?;
        if is_done {
            self.scan.learn(&lits_of(alloc, &[number])?)?;
        }
        Ok(is_done)
    }

    /// Learns a clause of two literals, the least variable first.
    fn learn_pair(&mut self, alloc: Global, number: i32, free: i32) -> Result<bool, AllocError> {
        if !self.is_back {
            return Ok(false);
        }
        let (is_done, clause) = if number.unsigned_abs() < free.unsigned_abs() {
            (learn_pair(&mut self.kernel, number, free)?, [number, free])
        } else {
            (
                learn_turned_pair(&mut self.kernel, number, free)?,
                [free, number],
            )
        };
        if is_done {
            self.scan.learn(&lits_of(alloc, &clause)?)?;
        }
        Ok(is_done)
    }

    /// Does an operation where it is lawful, and says whether it was.
    fn try_one(&mut self, alloc: Global, operation: Operation) -> Result<bool, AllocError> {
        let is_done = match operation {
            Operation::Close => self.close()?,
            Operation::Decide(number) => self.decide(number)?,
            Operation::BackTo(level) => self.back_to(level),
            Operation::LearnUnit(number) => self.learn_unit(alloc, number)?,
            Operation::LearnPair(number, free) => self.learn_pair(alloc, number, free)?,
        };
        if is_done {
            self.is_back = operation.goes_back();
            self.agree = self.agree && are_same(self.kernel.trail(), self.scan.trail());
        }
        Ok(is_done)
    }

    /// The first operation from a place on that is lawful, which is done.
    fn first_lawful(
        &mut self,
        alloc: Global,
        all: &[Operation],
        from: usize,
    ) -> Result<Option<usize>, AllocError> {
        for place in from..all.len() {
            if self.try_one(alloc, all[place])? {
                return Ok(Some(place));
            }
        }
        Ok(None)
    }
}

/// What a run begins from: a formula, and units behind it. Where the kernel was used for another
/// cube before, that leaves no trace.
#[derive(Clone, Copy)]
struct Start<'a> {
    formula: &'a Formula,
    units: &'a [i32],
    before: &'a [i32],
}

impl Start<'_> {
    fn open(&self, alloc: Global) -> Result<Twins, AllocError> {
        let mut twins = Twins::open(alloc, self.formula, self.units)?;
        if !self.before.is_empty() {
            twins.use_for(alloc, self.before)?;
        }
        Ok(twins)
    }
}

// how many operations a run has at most
const LONGEST: usize = 6;

// more than the runs of any formula here
const MOST: u32 = 1_000_000;

/// The operations of a run so far, by their places, and the place from which on the next one is
/// looked for.
#[derive(Drop)]
struct Run {
    places: Vec<usize>,
    from: usize,
}

impl Run {
    /// Goes over to the next run, behind the operation that came next in this one, if there was
    /// one. Whether there is a next run.
    fn go_on(&mut self, found: Option<usize>) -> Result<bool, AllocError> {
        match found {
            Some(place) if self.places.len() + 1 < LONGEST => {
                self.places.push(place)?;
                self.from = 0;
            }
            Some(place) => self.from = place.saturating_add(1),
            None => match self.places.pop() {
                None => return Ok(false),
                Some(place) => self.from = place.saturating_add(1),
            },
        }
        Ok(true)
    }
}

/// Goes through a run, and does the operation that comes next: its place, if there is one, and
/// whether the kernel and the scan agree.
fn replay(
    twins: &mut Twins,
    alloc: Global,
    all: &[Operation],
    run: &Run,
) -> Result<(Option<usize>, bool), AllocError> {
    for place in &run.places {
        if let Some(operation) = all.get(*place) {
            twins.try_one(alloc, *operation)?;
        }
    }
    let found = twins.first_lawful(alloc, all, run.from)?;
    Ok((found, twins.agree))
}

fn replayed(
    alloc: Global,
    start: &Start,
    all: &[Operation],
    run: &Run,
) -> Result<(Option<usize>, bool), AllocError> {
    let mut twins = start.open(alloc)?;
    replay(&mut twins, alloc, all, run)
}

/// Whether the kernel and the scan agree in all runs.
fn agree_from(alloc: Global, start: &Start) -> Result<bool, AllocError> {
    let all = operations(alloc)?;
    let mut run = Run {
        places: Vec::new(alloc),
        from: 0,
    };
    for _ in 0..MOST {
        let (found, agree) = replayed(alloc, start, &all, &run)?;
        if !agree || !run.go_on(found)? {
            return Ok(agree);
        }
    }
    Ok(false)
}

/// Whether the kernel and the scan agree in all runs over a formula and units behind it.
fn agree(alloc: Global, text: &[u8], units: &[i32], before: &[i32]) -> Result<bool, Fail> {
    let formula = read_formula(alloc, text)?;
    let start = Start {
        formula: &formula,
        units,
        before,
    };
    Ok(agree_from(alloc, &start)?)
}

static FORMULAS: [&[u8]; 17] = [
    b"p cnf 0 0\n",
    b"p cnf 0 1\n0\n",
    b"p cnf 1 0\n",
    b"p cnf 1 1\n1 0\n",
    b"p cnf 1 2\n1 0\n-1 0\n",
    b"p cnf 2 1\n1 2 0\n",
    b"p cnf 2 1\n1 -2 0\n",
    b"p cnf 2 2\n1 2 0\n1 -2 0\n",
    b"p cnf 2 2\n1 -1 0\n2 2 0\n",
    b"p cnf 2 4\n1 2 0\n1 -2 0\n-1 2 0\n-1 -2 0\n",
    b"p cnf 3 2\n1 2 3 0\n1 2 -3 0\n",
    b"p cnf 3 2\n2 3 0\n1 -3 0\n",
    b"p cnf 3 2\n2 3 0\n1 2 0\n",
    b"p cnf 3 4\n1 2 3 0\n1 2 -3 0\n-1 2 3 0\n-1 2 -3 0\n",
    b"p cnf 3 5\n1 -3 0\n1 2 0\n1 -2 0\n-1 2 0\n-1 -2 0\n",
    b"p cnf 3 8\n1 2 3 0\n1 2 -3 0\n1 -2 3 0\n1 -2 -3 0\n-1 2 3 0\n-1 2 -3 0\n-1 -2 3 0\n-1 -2 -3 0\n",
    b"p cnf 4 2\n1 3 4 0\n1 3 -4 0\n",
];

/// The place of the first formula in which the kernel and the scan don't agree, if there is one.
fn first_disagreement(alloc: Global, units: &[i32], before: &[i32]) -> Result<Option<usize>, Fail> {
    for place in 0..FORMULAS.len() {
        if !agree(alloc, FORMULAS[place], units, before)? {
            return Ok(Some(place));
        }
    }
    Ok(None)
}

/// Units behind the clauses, and another cube that the kernel worked on before.
static STARTS: [(&[i32], &[i32]); 4] = [
    (&[], &[]),
    (&[], &[-1, 2]),
    (&[-2], &[]),
    (&[3, -1], &[-1, 2]),
];

#[test]
fn all_runs_of_six_operations(rt: HostRuntime) -> Result<(), Fail> {
    for (units, before) in &STARTS {
        let apart = first_disagreement(rt.alloc(), units, before)?;
        assert!(rt; apart.is_none(), "{apart:?} with {units:?}");
    }
    Ok(())
}

#[test]
fn all_runs_over_a_thousand_clauses(rt: HostRuntime) -> Result<(), Fail> {
    let text = thousand(rt.alloc())?;
    assert!(rt; agree(rt.alloc(), &text, &[], &[])?);
    Ok(())
}

//! Propagation that looks at each clause in each step, to compare the kernel with.
use cnf::{Formula, Lit};
use kernel::{Closed, Entry, Order};
use std::alloc::{AllocError, Global};

/// Clauses and a trail. Nothing else is kept, so nothing can be stale.
#[derive(Drop)]
pub struct Scan {
    clauses: Vec<Vec<Lit>>,
    // how many of the clauses were there from the beginning
    first: usize,
    trail: Vec<Entry>,
    order: Order,
}

fn has(clause: &[Lit], wanted: Lit) -> bool {
    for lit in clause {
        if lit.same(&wanted) {
            return true;
        }
    }
    false
}

impl Scan {
    /// The clauses, those of the units behind them, and the cube.
    pub fn open(
        alloc: Global,
        formula: &Formula,
        units: &[Lit],
        cube: &[Lit],
        order: Order,
    ) -> Result<Scan, AllocError> {
        let mut scan = Scan {
            clauses: Vec::new(alloc),
            first: formula.clause_count().saturating_add(units.len()),
            trail: Vec::new(alloc),
            order,
        };
        for place in 0..formula.clause_count() {
            scan.learn(formula.clause(place))?;
        }
        for unit in units {
            scan.learn(&[*unit])?;
        }
        scan.restart(cube)?;
        Ok(scan)
    }

    pub fn trail(&self) -> &[Entry] {
        &self.trail
    }

    fn level(&self) -> u32 {
        match self.trail.last() {
            Some(entry) => {
                let entry = *entry;
                entry.level
            }
            None => 0,
        }
    }

    fn truth(&self, lit: Lit) -> Option<bool> {
        for entry in &self.trail {
            let entry = *entry;
            if entry.lit.var() == lit.var() {
                return Some(entry.lit.same(&lit));
            }
        }
        None
    }

    fn is_false(&self, clause: &[Lit]) -> bool {
        for lit in clause {
            if self.truth(*lit) != Some(false) {
                return false;
            }
        }
        true
    }

    /// Whether all other literals are false.
    fn is_last(&self, clause: &[Lit], last: Lit) -> bool {
        for lit in clause {
            if !lit.same(&last) && self.truth(*lit) != Some(false) {
                return false;
            }
        }
        true
    }

    fn unit_literal(&self, clause: &[Lit]) -> Option<Lit> {
        for lit in clause {
            if self.truth(*lit).is_none() && self.is_last(clause, *lit) {
                return Some(*lit);
            }
        }
        None
    }

    fn least_false(&self) -> Option<u64> {
        let mut number = 0u64;
        for clause in &self.clauses {
            number = number.saturating_add(1);
            if self.is_false(clause) {
                return Some(number);
            }
        }
        None
    }

    fn least_unit(&self) -> Option<Entry> {
        let mut number = 0u64;
        for clause in &self.clauses {
            number = number.saturating_add(1);
            if let Some(lit) = self.unit_literal(clause) {
                return Some(Entry {
                    lit,
                    reason: Some(number),
                    level: self.level(),
                });
            }
        }
        None
    }

    /// The place of the clause's last false literal on the trail, counted from 1; 0 where none is
    /// false.
    fn last_false(&self, clause: &[Lit]) -> u64 {
        let mut last = 0;
        let mut place = 0u64;
        for entry in &self.trail {
            let entry = *entry;
            place = place.saturating_add(1);
            if has(clause, entry.lit.negated()) {
                last = place;
            }
        }
        last
    }

    /// The unit clause of least place, and of several the one of least number.
    fn nearest_unit(&self) -> Option<Entry> {
        let mut nearest = None;
        let mut least = u64::MAX;
        let mut number = 0u64;
        for clause in &self.clauses {
            number = number.saturating_add(1);
            if let Some(lit) = self.unit_literal(clause) {
                let place = self.last_false(clause);
                if place < least {
                    least = place;
                    nearest = Some(Entry {
                        lit,
                        reason: Some(number),
                        level: self.level(),
                    });
                }
            }
        }
        nearest
    }

    fn next_unit(&self) -> Option<Entry> {
        match self.order {
            Order::ByNumber => self.least_unit(),
            Order::ByPlace => self.nearest_unit(),
        }
    }

    /// Each step gives one of the variables a value, so there are at most `vars` steps, and a last
    /// one that finds nothing.
    pub fn close(&mut self, vars: u32) -> Result<Closed, AllocError> {
        for _ in 0..=vars {
            if let Some(number) = self.least_false() {
                return Ok(Closed::Conflict(number));
            }
            match self.next_unit() {
                Some(entry) => self.trail.push(entry)?,
                None => return Ok(Closed::Quiet),
            }
        }
        Ok(Closed::Quiet)
    }

    pub fn decide(&mut self, lit: Lit) -> Result<(), AllocError> {
        let level = self.level().saturating_add(1);
        self.trail.push(Entry {
            lit,
            reason: None,
            level,
        })?;
        Ok(())
    }

    pub fn back_to(&mut self, level: u32) {
        let mut count = 0usize;
        for entry in &self.trail {
            let entry = *entry;
            if entry.level <= level {
                count = count.saturating_add(1);
            }
        }
        self.trail.truncate(count);
    }

    pub fn learn(&mut self, clause: &[Lit]) -> Result<(), AllocError> {
        let alloc = *self.clauses.allocator();
        self.clauses.push(Vec::from_slice(alloc, clause)?)?;
        Ok(())
    }

    /// The literal of the entry at a place as the last clause, which becomes the entry's reason.
    pub fn learn_entry(&mut self, place: usize) -> Result<(), AllocError> {
        let number = self.clauses.len().saturating_add(1) as u64;
        if place < self.trail.len() {
            let lit = self.trail[place].lit;
            self.trail[place].reason = Some(number);
            self.learn(&[lit])?;
        }
        Ok(())
    }

    /// Puts `1 -1` in the place of the clauses of these numbers.
    pub fn forget(&mut self, numbers: &[u64]) -> Result<(), AllocError> {
        for number in numbers {
            let place = (*number as usize).wrapping_sub(1);
            if place < self.clauses.len() {
                self.clauses[place] = self.forgotten()?;
            }
        }
        Ok(())
    }

    fn forgotten(&self) -> Result<Vec<Lit>, AllocError> {
        let alloc = *self.clauses.allocator();
        Vec::from_slice(alloc, &[Lit::of(1, true), Lit::of(1, false)])
    }

    pub fn restart(&mut self, cube: &[Lit]) -> Result<(), AllocError> {
        self.clauses.truncate(self.first);
        self.trail.clear();
        for lit in cube {
            self.trail.push(Entry {
                lit: *lit,
                reason: None,
                level: 0,
            })?;
        }
        Ok(())
    }
}

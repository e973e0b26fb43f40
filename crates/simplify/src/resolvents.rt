//! The resolvents of pairs of clauses.
ghost use Rattle.std.specs.Prelude.{◌≡◌, ◌≤◌, ◌<◌, ◌+◌, ◌*◌, ◌^◌, ◌∷◌, ◌++◌, ◌&&◌, [], ℕ, true, not, nat_le, map, filter, sum_by, length, All, Some, slice_get, OnOk, IfOk};
ghost use Rattle.std.specs.List.{list_all};
ghost use Rattle.theory.specs.Literals.{positive, negative, has, has_both_signs};
ghost use Rattle.theory.specs.Learning.{Line, IsRising};
ghost use Rattle.theory.specs.Simplifying.{resolvent};
ghost use Rattle.simplify.specs.Entries.{IsThere, IsSet, there, set};
ghost use Rattle.simplify.specs.Resolving.{line_of, lines_of_pairs, literals_of_pairs};
ghost use Rattle.simplify.specs.Pairs.{pair_line};

use crate::database::Database;
use crate::resolvent::resolve;
use cnf::{Lit, literals_at};
use std::alloc::{AllocError, Global};
use std::marker::Model;

/// The numbers of two clauses that are resolved: of the one that has the variable, and of the one
/// that has its negation.
#[derive(Clone, Copy, Debug, PartialEq, Eq)]
pub(crate) struct Pair {
    pub(crate) positive: u32,
    pub(crate) negative: u32,
}

/// The resolvents of pairs of clauses, as lines, in the order of the pairs: each resolvent that has no
/// variable in both signs.
pub(crate) struct Resolvents {
    // the literals of the first resolvent, then those of the second and so on
    literals: Vec<Lit>,
    // where the literals of each resolvent end
    ends: Vec<usize>,
    // what each is made of
    pairs: Vec<Pair>,
}

// written out, so that proofs of its owners stay short (docs/PROVING.md)
impl Drop for Resolvents {
    fn drop(self) {
        let Resolvents {
            literals: _,
            ends: _,
            pairs: _,
        } = self;
    }
}

impl Model for Resolvents {
    ghost use Rattle.std.specs.Prelude.{◌≡◌, List, length};
    ghost use Rattle.theory.specs.Learning.{Line};
    ghost use Rattle.cnf.specs.Pieces.{pieces, AreEnds};
    ghost use Rattle.simplify.specs.Pairs.{pair_lines};

    ghost Value = { List Line };

    ghost view = { λ a. pair_lines (pieces 0 a.literals.items a.ends.items) a.pairs.items };

    ghost invariant = { λ a. AreEnds 0 a.ends.items (length a.literals.items) × (length a.pairs.items ≡ length a.ends.items) };
}

impl Resolvents {
    /// None. It takes no memory.
    pub(crate) fn new(alloc: Global) -> Resolvents
        ensures { result ≡ [] }
    {
        Resolvents {
            literals: Vec::new(alloc),
            ends: Vec::new(alloc),
            pairs: Vec::new(alloc),
        }
    }

    /// Takes all out, and keeps the memory for others.
    fn clear(&mut self)
        ensures { self.new ≡ [] }
    {
        self.literals.clear();
        self.ends.clear();
        self.pairs.clear();
    }

    /// Puts the resolvent on a variable of two clauses behind the others, unless it has both signs of
    /// a variable.
    fn put(
        &mut self,
        variable: u32,
        left: &[Lit],
        right: &[Lit],
        pair: Pair,
    ) -> Result<(), AllocError>
        requires left { IsRising left.now }
        requires right { IsRising right.now }
        requires variable { has left.now (positive variable) ≡ true }
        requires negation { has right.now (negative variable) ≡ true }
        ensures { OnOk result (self.new ≡ self.old ++ filter (λ (line : Line). not (has_both_signs line.clause)) (pair_line (set (resolvent (positive variable) left.now right.now)) pair ∷ [])) }
    {
        self.ends.reserve(1)?;
        self.pairs.reserve(1)?;
        if resolve(&mut self.literals, left, right, variable)? {
            self.ends.push_reserved(self.literals.len());
            self.pairs.push_reserved(pair);
        }
        Ok(())
    }

    /// Puts the resolvents of one clause with others behind what is there. It answers how many
    /// literals these pairs have.
    fn put_row(
        &mut self,
        database: &Database,
        variable: u32,
        number: u32,
        others: &[u32],
    ) -> Result<u64, AllocError>
        requires number { IsThere database.now.entries number × (has (there database.now.entries number) (positive variable) ≡ true) }
        requires others { All (λ n. IsThere database.now.entries n × (has (there database.now.entries n) (negative variable) ≡ true)) others.now }
        requires few { sum_by (λ n. length (there database.now.entries number) + length (there database.now.entries n)) others.now ≤ 2 ^ 62 }
        ensures work { IfOk result (λ w. w ≡ sum_by (λ n. length (there database.now.entries number) + length (there database.now.entries n)) others.now) }
        ensures lines { OnOk result (self.new ≡ self.old ++ filter (λ (line : Line). not (has_both_signs line.clause)) (map (line_of variable database.now.entries number) others.now)) }
    {
        let left = database.clause(number);
        let mut work = 0;
        for other in others {
            let right = database.clause(*other);
            work += (left.len() + right.len()) as u64;
            let pair = Pair {
                positive: number,
                negative: *other,
            };
            self.put(variable, left, right, pair)?;
        }
        Ok(work)
    }

    /// Makes the resolvents on a variable of all pairs of a clause of the left side, which has the
    /// variable, and one of the right side, which has its negation, in place of what is there. It
    /// answers how many literals the pairs have, and fails where a request for memory is refused.
    pub(crate) fn make(
        &mut self,
        database: &Database,
        variable: u32,
        left: &[u32],
        right: &[u32],
    ) -> Result<u64, AllocError>
        requires left { All (λ n. IsThere database.now.entries n × (has (there database.now.entries n) (positive variable) ≡ true)) left.now }
        requires right { All (λ n. IsThere database.now.entries n × (has (there database.now.entries n) (negative variable) ≡ true)) right.now }
        requires few { length left.now * length right.now ≤ 2 ^ 32 }
        ensures work { IfOk result (λ w. w ≡ literals_of_pairs database.now.entries left.now right.now) }
        ensures small { IfOk result (λ w. w ≤ 2 ^ 62) }
        ensures lines { OnOk result (self.new ≡ lines_of_pairs variable database.now.entries left.now right.now) }
        ensures sets { OnOk result (All (λ (l : Line). IsSet database.now.vars l.clause) self.new) }
    {
        let _vars = database.vars(); // asked for what it says of the clauses
        self.clear();
        let mut work = 0;
        for number in left {
            work += self.put_row(database, variable, *number, right)?;
        }
        Ok(work)
    }

    /// How many there are.
    pub(crate) fn len(&self) -> usize
        ensures { result ≡ length self.now }
    {
        self.ends.len()
    }

    /// Whether there are at most so many, each of at most so many literals.
    pub(crate) fn are_few(&self, most: u64, most_literals: usize) -> bool
        ensures { result ≡ (nat_le (length self.now) most && list_all (λ (l : Line). nat_le (length l.clause) most_literals) self.now) }
    {
        self.len() as u64 <= most && self.are_short(most_literals)
    }

    /// Whether each has at most so many literals.
    fn are_short(&self, most: usize) -> bool
        ensures { result ≡ list_all (λ (l : Line). nat_le (length l.clause) most) self.now }
    {
        for place in 0..self.len() {
            if self.clause(place).len() > most {
                return false;
            }
        }
        true
    }

    /// The literals of the resolvent at a place, from 0 on.
    pub(crate) fn clause(&self, place: usize) -> &[Lit]
        requires { place < length self.now }
        ensures { (l : Line) → slice_get self.now place ≡ Some l → l.clause ≡ result.now }
    {
        literals_at(&self.literals, &self.ends, place)
    }

    /// What the resolvent at a place is made of.
    pub(crate) fn pair(&self, place: usize) -> Pair
        requires { place < length self.now }
        ensures { (l : Line) → slice_get self.now place ≡ Some l → (l.hints ≡ result.positive ∷ result.negative ∷ []) × (l.forgets ≡ []) }
    {
        self.pairs[place]
    }
}

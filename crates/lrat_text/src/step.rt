//! The steps of a proof. A clause's number lies between 1 and 9,223,372,036,854,775,807, and a
//! literal's size between 1 and 2,147,483,647.
ghost use Rattle.std.specs.Prelude.{◌≡◌};
ghost use Rattle.theory.specs.ProofReading.{IsGroup, IsAddition, IsDeletion};

use cnf::Lit;
use std::marker::Model;

/// The hints for one candidate: a clause that has the negation of the added clause's first literal.
#[derive(Debug, Drop)]
pub struct Group {
    candidate: u64,
    hints: Vec<u64>,
}

impl Model for Group {
    ghost use Rattle.theory.specs.Steps as theory;
    ghost use Rattle.theory.specs.ProofReading.{IsGroup};

    ghost Value = { theory.Group };

    ghost view = { λ a. record { candidate = a.candidate; hints = a.hints.items } };

    ghost invariant = { λ a. IsGroup (record { candidate = a.candidate; hints = a.hints.items }) };
}

/// A clause put to the clauses there, with the hints by which it follows from them.
#[derive(Debug, Drop)]
pub struct Addition {
    id: u64,
    clause: Vec<Lit>,
    hints: Vec<u64>,
    groups: Vec<Group>,
}

impl Model for Addition {
    ghost use Rattle.theory.specs.Steps as theory;
    ghost use Rattle.theory.specs.ProofReading.{IsAddition};

    ghost Value = { theory.Addition };

    ghost view = { λ a.
        record { id = a.id; clause = a.clause.items; hints = a.hints.items; groups = a.groups.items } };

    ghost invariant = { λ a. IsAddition
        (record { id = a.id; clause = a.clause.items; hints = a.hints.items; groups = a.groups.items }) };
}

/// Numbers of clauses that are taken away.
#[derive(Debug, Drop)]
pub struct Deletion {
    id: u64,
    ids: Vec<u64>,
}

impl Model for Deletion {
    ghost use Rattle.theory.specs.Steps as theory;
    ghost use Rattle.theory.specs.ProofReading.{IsDeletion};

    ghost Value = { theory.Deletion };

    ghost view = { λ a. record { id = a.id; ids = a.ids.items } };

    ghost invariant = { λ a. IsDeletion (record { id = a.id; ids = a.ids.items }) };
}

/// A line of a proof.
#[derive(Debug, Drop)]
pub enum Step {
    /// A clause is put to those there.
    Add(Addition),

    /// Clauses are taken away.
    Delete(Deletion),
}

impl Group {
    /// The hints for the candidate of this number.
    pub fn new(candidate: u64, hints: Vec<u64>) -> Group
        requires { IsGroup (record { candidate = candidate; hints = hints.items }) }
        ensures { result ≡ record { candidate = candidate; hints = hints.items } }
    {
        Group { candidate, hints }
    }

    /// The candidate's number.
    pub fn candidate(&self) -> u64
        ensures candidate { result ≡ self.now.candidate }
        ensures within { IsGroup self.now }
    {
        self.candidate
    }

    /// The numbers of the hints, in their order.
    pub fn hints(&self) -> &[u64]
        ensures hints { result.now ≡ self.now.hints }
        ensures within { IsGroup self.now }
    {
        &self.hints
    }
}

impl Addition {
    /// The clause with the number `id`, the hints that lead to a conflict, and the hints for each
    /// candidate.
    pub fn new(id: u64, clause: Vec<Lit>, hints: Vec<u64>, groups: Vec<Group>) -> Addition
        requires { IsAddition (record { id = id; clause = clause.items; hints = hints.items; groups = groups.items }) }
        ensures { result ≡ record { id = id; clause = clause.items; hints = hints.items; groups = groups.items } }
    {
        Addition {
            id,
            clause,
            hints,
            groups,
        }
    }

    /// The clause's number.
    pub fn id(&self) -> u64
        ensures id { result ≡ self.now.id }
        ensures within { IsAddition self.now }
    {
        self.id
    }

    /// The clause's literals, in the order of the text: the first is the pivot.
    pub fn clause(&self) -> &[Lit]
        ensures clause { result.now ≡ self.now.clause }
        ensures within { IsAddition self.now }
    {
        &self.clause
    }

    /// The numbers of the hints before the first group, in their order.
    pub fn hints(&self) -> &[u64]
        ensures hints { result.now ≡ self.now.hints }
        ensures within { IsAddition self.now }
    {
        &self.hints
    }

    /// The groups, in their order.
    pub fn groups(&self) -> &[Group]
        ensures groups { result.now ≡ self.now.groups }
        ensures within { IsAddition self.now }
    {
        &self.groups
    }
}

impl Deletion {
    /// The line with the number `id` that takes these clauses away.
    pub fn new(id: u64, ids: Vec<u64>) -> Deletion
        requires { IsDeletion (record { id = id; ids = ids.items }) }
        ensures { result ≡ record { id = id; ids = ids.items } }
    {
        Deletion { id, ids }
    }

    /// The line's own number, which names no clause.
    pub fn id(&self) -> u64
        ensures id { result ≡ self.now.id }
        ensures within { IsDeletion self.now }
    {
        self.id
    }

    /// The numbers of the clauses, in their order.
    pub fn ids(&self) -> &[u64]
        ensures ids { result.now ≡ self.now.ids }
        ensures within { IsDeletion self.now }
    {
        &self.ids
    }
}
